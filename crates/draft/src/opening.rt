// Opening a node table.
ghost use Rattle.std.specs.Prelude.{◌≡◌, ◌-◌, ◌≤◌, ◌++◌, true, false, length, replicate, take, Ok, Err, MatchResult, if◌then◌else◌};
ghost use Rattle.tosca.specs.Table.{blank};
ghost use Rattle.tosca.specs.Opens.{counted, opening, opened};
ghost use Rattle.draft.specs.Opening.{entries_of, answered, Made};

use crate::arrangement::is_arranged;
use crate::draft::{Draft, MAX_NODES};
use crate::malformed::Malformed;
use crate::questions::{all_known, all_placed};
use tosca::table::{BLANK, Entry};

// A question that has to have a yes.
fn require(yes: bool, refusal: Malformed) -> Result<(), Malformed>
    ensures { result ≡ (if yes then Ok tt else Err refusal) }
{
    if yes { Ok(()) } else { Err(refusal) }
}

// The entries, then blank ones. A function of its own, so that they are written where the draft has them, and not copied there.
fn padded(entries: &[Entry]) -> [Entry; MAX_NODES]
    requires { length entries.now ≤ 1024 }
    ensures { result ≡ entries.now ++ replicate (1024 - length entries.now) blank }
{
    let mut nodes = [BLANK; MAX_NODES];
    nodes[..entries.len()].copy_from_slice(entries);
    nodes
}

// A table, of which the first `count` entries may be a routine.
#[derive(Clone, Copy)]
struct Candidate<'a> {
    table: &'a [Entry],
    count: usize,
}

impl<'a> Candidate<'a> {
    fn entries(self) -> Result<&'a [Entry], Malformed>
        ensures { MatchResult result (λ s. (counted (length self.entry.table.now) self.entry.count ≡ true) × (s.now ≡ take self.entry.count self.entry.table.now) × (length s.now ≤ 1024)) (λ e. (counted (length self.entry.table.now) self.entry.count ≡ false) × (e ≡ Malformed.Count)) }
    {
        if self.count == 0 || self.count > MAX_NODES || self.count > self.table.len() {
            return Err(Malformed::Count);
        }
        Ok(&self.table[..self.count])
    }

    // Asks the questions in their order, up to the first that fails.
    fn ask(self) -> Result<(), Malformed>
        ensures { answered result ≡ opening self.entry.table.now self.entry.count }
    {
        let entries = self.entries()?;
        require(all_known(entries), Malformed::Entry)?;
        require(all_placed(entries), Malformed::Part)?;
        require(is_arranged(entries), Malformed::Arrangement)
    }

    // The draft of entries that passed every question: these, then blank ones.
    fn draft(self) -> Draft
        requires { opening self.table.now self.count ≡ opened }
        ensures { Made self.entry.table.now self.entry.count (Ok result) }
    {
        Draft {
            nodes: padded(&self.table[..self.count]),
            count: self.count,
        }
    }
}

impl Draft {
    // The routine's nodes.
    pub fn entries(&self) -> &[Entry]
        ensures { result.now ≡ entries_of self.now }
    {
        &self.nodes[0..self.count]
    }
}

// The draft of a table's first entries, or the first question that fails. The table stays as it is.
pub fn open(table: &[Entry], count: usize) -> Result<Draft, Malformed>
    ensures is { answered result ≡ opening table.now count }
    ensures made { Made table.now count result }
{
    let candidate = Candidate { table, count };
    candidate.ask()?;
    Ok(candidate.draft())
}
