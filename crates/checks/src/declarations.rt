// Whether each name is declared once, and each name used is declared.
ghost use Rattle.std.specs.Prelude.{◌≡◌, ◌<◌, length, slice_index_or};
ghost use Rattle.tosca.specs.Table.{blank, node};
ghost use Rattle.draft.specs.Opening.{entries_of, tree_of};
ghost use Rattle.statics.specs.declared.rules.Rule.TheVariants.{DeclaredOnce, Declared};
ghost use Rattle.statics.specs.Choosing.{lowest};
ghost use Rattle.statics.specs.Typing.{variable_verdict};
ghost use Rattle.statics.specs.Checking.{faults};
ghost use Rattle.walk.specs.Readings.{types_of};
ghost use Rattle.checks.specs.Asking.{is_wrong, names_undeclared as names_undeclared_of, of_node};

use crate::nodes::{count, node_at};
use crate::passes::first_fault;
use draft::draft::Draft;
use statics::verdict::TypeError;
use tosca::table::Node;
use walk::names::Names;
use walk::reading::Reading;
use walk::types::Typing;

// The lowest declaration of a name that an earlier one has.
pub(crate) fn repeated_name(draft: &Draft) -> Option<u16>
    ensures { result ≡ lowest (faults DeclaredOnce (tree_of draft.now)) }
{
    let mut seen = Names::none();
    // by number, which is the answer, and at which every draft has a node
    for n in 0..count(draft) {
        if let Node::Decl(name, _) = node_at(draft, n) {
            if seen.has(name) {
                return Some(n);
            }
            seen = seen.with(name);
        }
    }
    None
}

// A name that is declared has a type.
fn is_undeclared(typing: &Typing, name: u16) -> bool
    requires { name < 64 }
    ensures { result ≡ is_wrong (variable_verdict (types_of typing.now name)) }
{
    typing.variable(name) == Err(TypeError::Wrong)
}

// The node of this number has a name without a declaration, by the types of names.
fn names_undeclared(typing: &Typing, draft: &Draft, n: u16) -> bool
    requires { n < length (entries_of draft.now) }
    ensures { result ≡ of_node (names_undeclared_of (λ x. variable_verdict (types_of typing.now x))) (node (slice_index_or (entries_of draft.now) n blank)) }
{
    match node_at(draft, n) {
        Node::Var(name) | Node::Assign(name, _) | Node::Input(name) => is_undeclared(typing, name),
        _ => false,
    }
}

// The lowest node with a name without a declaration.
pub(crate) fn undeclared_name(draft: &Draft) -> Option<u16>
    ensures { result ≡ lowest (faults Declared (tree_of draft.now)) }
{
    let typing = Typing::of(draft);
    first_fault(draft, |n| names_undeclared(&typing, draft, n))
}
