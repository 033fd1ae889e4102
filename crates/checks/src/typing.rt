// Whether types are right.
ghost use Rattle.std.specs.Prelude.{◌≡◌, ◌<◌, length, get_or, slice_index_or, Err};
ghost use Rattle.tosca.specs.Table.{blank, node};
ghost use Rattle.draft.specs.Opening.{entries_of, tree_of};
ghost use Rattle.statics.specs.declared.rules.Rule.TheVariants.{Typed};
ghost use Rattle.statics.specs.declared.verdict.TypeError.TheVariants.{Wrong};
ghost use Rattle.statics.specs.Choosing.{lowest};
ghost use Rattle.statics.specs.Typing.{variable_verdict, is_at_fault as is_at_fault_of, is_no_test};
ghost use Rattle.statics.specs.Checking.{faults};
ghost use Rattle.walk.specs.Readings.{types_of};
ghost use Rattle.checks.specs.Asking.{differ as differ_of, is_ill_typed, of_node};

use crate::nodes::node_at;
use crate::passes::first_fault;
use draft::draft::{Draft, MAX_NODES};
use statics::verdict::{TypeError, Verdict};
use tosca::operators::SimpleType;
use tosca::table::Node;
use walk::reading::Reading;
use walk::types::{Typing, verdicts};

fn at_fault(verdict: Verdict) -> bool
    ensures { result ≡ is_at_fault_of verdict }
{
    verdict == Err(TypeError::AtFault)
}

// Both sides of an assignment are right, and of two types.
fn differ(left: Verdict, right: Verdict) -> bool
    ensures { result ≡ differ_of left right }
{
    matches!((left, right), (Ok(y), Ok(z)) if y != z)
}

// A test that is right, and no boolean.
fn no_test(verdict: Verdict) -> bool
    ensures { result ≡ is_no_test verdict }
{
    verdict == Ok(SimpleType::Integer)
}

// The types of names and, in fixed memory, the verdicts on expressions.
#[derive(Drop)]
struct Types {
    typing: Typing,
    verdicts: [Verdict; MAX_NODES],
}

impl Types {
    // The verdict on an expression.
    fn on(&self, n: u16) -> Verdict
        requires { n < 1024 }
        ensures { result ≡ slice_index_or self.now.verdicts n (Err Wrong) }
    {
        self.verdicts[usize::from(n)]
    }

    // The node of this number is wrongly typed.
    fn is_ill_typed(&self, draft: &Draft, n: u16) -> bool
        requires { n < length (entries_of draft.now) }
        ensures { result ≡ of_node (is_ill_typed (λ x. variable_verdict (types_of self.now.typing x)) (λ k. get_or self.now.verdicts k (Err Wrong)) n) (node (slice_index_or (entries_of draft.now) n blank)) }
    {
        match node_at(draft, n) {
            Node::Const(_) | Node::Var(_) | Node::Uny(_, _) | Node::Bin(_, _, _) => {
                at_fault(self.on(n))
            }
            Node::Assign(name, a) => differ(self.typing.variable(name), self.on(a)),
            Node::Choice(a, _, _) | Node::Loop(a, _) => no_test(self.on(a)),
            _ => false,
        }
    }
}

// The lowest node that is wrongly typed.
pub(crate) fn ill_typed(draft: &Draft) -> Option<u16>
    ensures { result ≡ lowest (faults Typed (tree_of draft.now)) }
{
    let typing = Typing::of(draft);
    let mut on = [Err(TypeError::Wrong); MAX_NODES];
    verdicts(&typing, draft, &mut on);
    let types = Types {
        typing,
        verdicts: on,
    };
    first_fault(draft, |n| types.is_ill_typed(draft, n))
}
