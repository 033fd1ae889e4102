// The walk.
ghost use Rattle.std.specs.Prelude.{◌≡◌, length, slice_index_or};
ghost use Rattle.draft.specs.Opening.{entries_of};
ghost use Rattle.walk.specs.Walking.{Ready, answered, filled};

use crate::reading::Reading;
use draft::draft::Draft;
use tosca::table::Node;

// The answer for a node from the answers of its parts; none where the node is no expression.
fn answer<R: Reading>(reading: &R, node: Option<Node>, parts: &[R::Answer]) -> Option<R::Answer>
    requires { Ready (length parts.now) node }
    ensures { (d : R.Answer) → result ≡ answered (R.algebra reading.now) (λ k. slice_index_or parts.now k d) node }
{
    match node {
        Some(Node::Const(value)) => Some(reading.constant(value)),
        Some(Node::Var(name)) => Some(reading.variable(name)),
        Some(Node::Uny(op, a)) => Some(reading.unary(op, parts[usize::from(a)])),
        Some(Node::Bin(a, op, b)) => {
            Some(reading.binary(op, parts[usize::from(a)], parts[usize::from(b)]))
        }
        _ => None,
    }
}

// Writes the answer for each expression node of the draft at the node's number, as far as there is room.
pub fn walk<R: Reading>(reading: &R, draft: &Draft, answers: &mut [R::Answer])
    ensures { answers.new ≡ filled (R.algebra reading.now) (entries_of draft.now) 0 answers.old }
{
    let entries = draft.entries();
    let room = answers.len().min(entries.len());
    // the answers are indexed, since each is worked out from earlier ones
    for (n, entry) in entries[..room].iter().enumerate() {
        if let Some(found) = answer(reading, entry.node(), &answers[..n]) {
            answers[n] = found;
        }
    }
}
