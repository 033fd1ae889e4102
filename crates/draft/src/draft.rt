// The state of a routine whose table has opened.
ghost use Rattle.std.specs.Prelude.{◌≡◌, ◌≤◌, true, take};
ghost use Rattle.draft.specs.Forming.{is_formed};

use tosca::table::Entry;

// A routine has at most so many nodes. The reader has the number too: neither crate stands on the other.
pub const MAX_NODES: usize = 1024;

// Made by `open` alone. The first `count` nodes are the routine's; the others are blank.
// An array with a count beside it, since no call below the program allocates.
#[derive(Drop)]
pub struct Draft {
    pub(crate) nodes: [Entry; MAX_NODES],
    pub(crate) count: usize,
    ghost few: { count ≤ 1024 },
    ghost formed: { is_formed (take count nodes) ≡ true },
}
