// Mounting a code table.
ghost use Rattle.std.specs.Prelude.{◌≡◌, ◌-◌, ◌≤◌, ◌++◌, length, replicate, slice_index_or};
ghost use Rattle.std.proofs.Math.ListN.{get_elem?};
ghost use Rattle.std.specs.List.{slice_get};
ghost use Rattle.code.specs.Questions.{blank_coded, said_by_all, mounting as mounting_of, mounts};
ghost use Rattle.code.specs.Mounting.{answered, code_of, Holds, Made, found, Within};

use crate::mounted::{MAX_INSTRUCTIONS, Mounted};
use crate::questions::{BLANK, all_known, all_within, said};
use crate::table::CodeEntry;
use crate::unmountable::Unmountable;
use aida::instructions::Coded;
use std::array;

// The instruction of the entry at an index, or a blank one.
fn said_at(entries: &[CodeEntry], k: usize) -> Coded
    ensures { result ≡ slice_index_or (said_by_all entries.now) k blank_coded }
{
    entries.get(k).map_or(BLANK, said)
}

// The entries' instructions, then blank ones.
fn decoded(entries: &[CodeEntry]) -> [Coded; MAX_INSTRUCTIONS]
    requires { length entries.now ≤ 2048 }
    ensures { result ≡ said_by_all entries.now ++ replicate (2048 - length entries.now) blank_coded }
{
    array::from_fn(|k| said_at(entries, k))
}

// The instruction at a counter, if the code goes so far. A function of its own, so that one too few is refused here.
fn at(code: &[Coded], counter: usize) -> Option<Coded>
    ensures { result ≡ slice_get code.now counter }
{
    code.get(counter).copied()
}

impl Mounted {
    // The code of a table's first entries, once they passed every question.
    fn of(table: &[CodeEntry], count: usize) -> Mounted
        requires { mounting_of table.now count ≡ mounts }
        ensures { Holds table.now count result }
    {
        Mounted {
            code: decoded(&table[..count]),
            count,
        }
    }

    // The mounted code.
    pub fn instructions(&self) -> &[Coded]
        ensures { result.now ≡ code_of self.now }
    {
        &self.code[..self.count]
    }

    // How many instructions the code has.
    pub fn count(&self) -> usize
        ensures { result ≡ length (code_of self.now) }
    {
        self.instructions().len()
    }

    // The instruction at a counter, if there is one. Its target and its cell exist.
    pub fn instruction(&self, counter: usize) -> Option<Coded>
        ensures is { result ≡ found (get_elem? (code_of self.now) counter) }
        ensures within { Within self.now result }
    {
        at(self.instructions(), counter)
    }
}

// Asks the questions in their order, up to the first that fails. A table of nodes is asked alike: the questions, their numbers and what is made are each table's own.
fn ask(table: &[CodeEntry], count: usize) -> Result<(), Unmountable>
    ensures { answered result ≡ mounting_of table.now count }
{
    if count > MAX_INSTRUCTIONS || count > table.len() {
        return Err(Unmountable::Count);
    }
    let entries = &table[..count];
    if !all_known(entries) {
        return Err(Unmountable::Entry);
    }
    if !all_within(entries, count) {
        return Err(Unmountable::Address);
    }
    Ok(())
}

// The code of a table's first entries, or the first question that fails. The table stays as it is.
pub fn mount(table: &[CodeEntry], count: usize) -> Result<Mounted, Unmountable>
    ensures is { answered result ≡ mounting_of table.now count }
    ensures made { Made table.now count result }
{
    ask(table, count)?;
    Ok(Mounted::of(table, count))
}
