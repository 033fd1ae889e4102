// Asking the static rules.
ghost use Rattle.std.specs.Prelude.{◌≡◌, true, [], ◌∷◌, Ok};
ghost use Rattle.draft.specs.Opening.{tree_of};
ghost use Rattle.statics.specs.declared.rules.Rule.TheVariants.{DeclaredOnce, Declared, Typed, Set, Temporaries};
ghost use Rattle.statics.specs.Checking.{asked, first_no, checking as checking_of};
ghost use Rattle.statics.specs.StaticLaws.{Judged};
ghost use Rattle.checks.specs.Passing.{is_passed};
ghost use Rattle.checks.specs.Outcomes.{outcome_of, Kept};

use crate::declarations::{repeated_name, undeclared_name};
use crate::setting::unset_variable;
use crate::state::Checked;
use crate::temporaries::too_large;
use crate::typing::ill_typed;
use draft::draft::Draft;
use statics::rules::{Rule, Violation};

// The answer to one question, given the lowest node at fault for it.
fn ask(rule: Rule, fault: Option<u16>) -> Result<(), Violation>
    ensures { result ≡ asked rule fault (Ok tt) }
{
    fault.map_or(Ok(()), |node| Err(Violation { rule, node }))
}

// The rules in their order.
fn ask_all(draft: &Draft) -> Result<(), Violation>
    ensures { result ≡ first_no (DeclaredOnce ∷ Declared ∷ Typed ∷ Set ∷ Temporaries ∷ []) (tree_of draft.now) }
{
    ask(Rule::DeclaredOnce, repeated_name(draft))?;
    ask(Rule::Declared, undeclared_name(draft))?;
    ask(Rule::Typed, ill_typed(draft))?;
    ask(Rule::Set, unset_variable(draft))?;
    ask(Rule::Temporaries, too_large(draft))
}

// Asks a draft the static rules: yes, or the first rule that is broken and the lowest node at fault.
pub fn check(draft: &Draft) -> Result<(), Violation>
    ensures is { result ≡ checking_of (tree_of draft.now) }
    ensures judged { Judged (tree_of draft.now) result }
{
    ask_all(draft)
}

fn make(draft: Draft) -> Checked
    requires { is_passed (tree_of draft) ≡ true }
    ensures { result.draft ≡ draft }
{
    Checked { draft }
}

// Takes a draft that passes; one that does not comes back as it was, with the violation.
pub fn pass(draft: Draft) -> Result<Checked, (Draft, Violation)>
    ensures is { outcome_of result ≡ checking_of (tree_of draft) }
    ensures kept { Kept draft result }
    ensures judged { Judged (tree_of draft) (outcome_of result) }
{
    match check(&draft) {
        Ok(()) => Ok(make(draft)),
        Err(violation) => Err((draft, violation)),
    }
}

impl Checked {
    // The routine that passed.
    pub fn draft(&self) -> &Draft
        ensures { result.now ≡ self.now.draft }
    {
        &self.draft
    }
}
