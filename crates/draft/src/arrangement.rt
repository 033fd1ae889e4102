// The question of the order of a table's entries.
ghost use Rattle.std.specs.Prelude.{◌≡◌, ℕ, ◌+◌, ◌≤◌, [], ◌∷◌, length};
ghost use Rattle.tosca.specs.Table.{node as node_of};
ghost use Rattle.tosca.specs.Opens.{sort as sort_in, parts as parts_in, uses as uses_in, all_uses, are_once, decls_first, program_last, arranged};
ghost use Rattle.draft.specs.Nodes.{part_of};
ghost use Rattle.draft.specs.Uses.{Counts, used_once};

use crate::draft::MAX_NODES;
use crate::nodes::{Part, Sort, has_sort};
use tosca::table::Entry;

fn are_declarations_first(entries: &[Entry]) -> bool
    ensures { result ≡ decls_first entries.now }
{
    entries
        .iter()
        .skip_while(|entry| has_sort(entry, Sort::Declaration))
        .all(|entry| !has_sort(entry, Sort::Declaration))
}

fn is_program_last(entries: &[Entry]) -> bool
    ensures { result ≡ program_last entries.now }
{
    match entries {
        [others @ .., last] => {
            has_sort(last, Sort::Program)
                && !others.iter().any(|entry| has_sort(entry, Sort::Program))
        }
        [] => false,
    }
}

// Counts each use of a part.
fn count_parts(uses: &mut [u8], entry: &Entry)
    ensures { (f : ℕ → ℕ) → Counts uses.old f → Counts uses.new (λ k. f k + uses_in k (parts_in (node_of entry.now))) }
{
    let parts = Part::all_of(entry);
    for part in &parts {
        if let Some(part) = part {
            count_part(uses, part);
        }
    }
}

fn count_part(uses: &mut [u8], part: &Part)
    ensures { (f : ℕ → ℕ) → Counts uses.old f → Counts uses.new (λ k. f k + uses_in k (part_of part.now ∷ [])) }
{
    let at = usize::from(part.at);
    if at < uses.len() {
        // by index: a proof knows nothing of the element after a slice's get_mut
        uses[at] = uses[at].saturating_add(1);
    }
}

// How often each node is a part; in an array, since no call below the program allocates.
fn uses_of(entries: &[Entry]) -> [u8; MAX_NODES]
    ensures { Counts result (λ k. all_uses k entries.now) }
{
    let mut uses = [0; MAX_NODES];
    for entry in entries {
        count_parts(&mut uses, entry);
    }
    uses
}

fn is_once(entry: &Entry, uses: u8) -> bool
    ensures { result ≡ used_once uses (sort_in (node_of entry.now)) }
{
    match Sort::of(entry) {
        Some(Sort::Expression | Sort::Command) => uses == 1,
        Some(Sort::Declaration | Sort::Program) | None => true,
    }
}

fn are_all_once(entries: &[Entry]) -> bool
    requires { length entries.now ≤ 1024 }
    ensures { result ≡ are_once entries.now 0 entries.now }
{
    let uses = uses_of(entries);
    entries
        .iter()
        .zip(&uses)
        .all(|(entry, uses)| is_once(entry, *uses))
}

// Declarations are first, the only program is last, and every other entry is a part just once.
pub(crate) fn is_arranged(entries: &[Entry]) -> bool
    requires { length entries.now ≤ 1024 }
    ensures { result ≡ arranged entries.now }
{
    are_declarations_first(entries) && is_program_last(entries) && are_all_once(entries)
}
