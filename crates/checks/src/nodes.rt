// The nodes of a draft by their numbers.
ghost use Rattle.std.specs.Prelude.{◌≡◌, ◌<◌, length, Some, slice_index_or};
ghost use Rattle.tosca.specs.Table.{blank, node};
ghost use Rattle.tosca.specs.Decode.{cmd_at};
ghost use Rattle.tosca.specs.Opens.{sort, is_cmd};
ghost use Rattle.draft.specs.Opening.{entries_of, tree_of};

use draft::draft::Draft;
use tosca::table::Node;

// How many nodes the routine has.
pub fn count(draft: &Draft) -> u16
    ensures { result ≡ length (entries_of draft.now) }
{
    draft.entries().len() as u16
}

// Every entry of a draft is a node.
pub fn node_at(draft: &Draft, n: u16) -> Node
    requires { n < length (entries_of draft.now) }
    ensures { node (slice_index_or (entries_of draft.now) n blank) ≡ Some result }
{
    draft.entries()[usize::from(n)].node().unwrap()
}

// The number of the routine's command.
pub fn body(draft: &Draft) -> u16
    ensures below { result < length (entries_of draft.now) }
    ensures command { sort (node (slice_index_or (entries_of draft.now) result blank)) ≡ is_cmd }
    ensures tree { (tree_of draft.now).body ≡ cmd_at (entries_of draft.now) result }
{
    match node_at(draft, count(draft) - 1) {
        Node::Program(a) => a,
        _ => unreachable(),
    }
}
