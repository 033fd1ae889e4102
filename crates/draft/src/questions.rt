// The questions of a table's entries that each entry answers by itself or from earlier ones.
ghost use Rattle.std.specs.Prelude.{◌≡◌, [], ◌∷◌};
ghost use Rattle.tosca.specs.Table.{node as node_of};
ghost use Rattle.tosca.specs.Opens.{few_names, known, are_known, placed, are_placed, parts as parts_in};
ghost use Rattle.draft.specs.Nodes.{part_of};

use crate::nodes::{Part, has_sort};
use tosca::table::{Entry, Node};

// A routine has at most so many names, as the parser says too.
const MAX_NAMES: u16 = 64;

// A place is a position in a text of at most so many bytes.
const MAX_PLACE: u16 = 16384;

fn has_known_name(node: Node) -> bool
    ensures { result ≡ few_names node }
{
    node.name().is_none_or(|name| name < MAX_NAMES)
}

fn is_known(entry: &Entry) -> bool
    ensures { result ≡ known entry.now }
{
    entry
        .node()
        .is_some_and(|node| has_known_name(node) && entry.place <= MAX_PLACE)
}

// Every entry has a known kind, operator, type and value, and a name and a place in their ranges.
pub(crate) fn all_known(entries: &[Entry]) -> bool
    ensures { result ≡ are_known entries.now }
{
    entries.iter().all(is_known)
}

// The part stands before entry k and has its sort.
fn is_part_placed(entries: &[Entry], k: usize, part: Part) -> bool
    ensures { result ≡ placed entries.now k (part_of part ∷ []) }
{
    let at = usize::from(part.at);
    at < k
        && entries
            .get(at)
            .is_some_and(|entry| has_sort(entry, part.wants))
}

fn is_placed(entries: &[Entry], k: usize, entry: &Entry) -> bool
    ensures { result ≡ placed entries.now k (parts_in (node_of entry.now)) }
{
    // by reference: an array's own iterator moves each part twice
    Part::all_of(entry).iter().all(|part| part.is_none_or(|part| is_part_placed(entries, k, part)))
}

// Every part stands earlier and has its sort.
pub(crate) fn all_placed(entries: &[Entry]) -> bool
    ensures { result ≡ are_placed entries.now 0 entries.now }
{
    entries
        .iter()
        .enumerate()
        .all(|(k, entry)| is_placed(entries, k, entry))
}
