// Translating a routine.
ghost use Rattle.std.specs.Prelude.{◌≡◌, ◌≤◌, map, length, replicate};
ghost use Rattle.std.proofs.lemmas.List.Edits.{sets};
ghost use Rattle.draft.specs.Opening.{tree_of};
ghost use Rattle.aida.specs.Templates.{code};
ghost use Rattle.code.specs.CodeTable.{code_entry, no_code};
ghost use Rattle.translator.specs.Translating.{outcome, table_after, fits, emptied, Mounts};

use crate::commands::command;
use crate::emitter::Emitter;
use crate::unfit::Unfit;
use checks::nodes::body;
use checks::state::Checked;
use code::table::{BLANK_CODE, CodeEntry};
use walk::types::Typing;

// One call of the library, as the reader's `clear` is over the other table.
fn empty(table: &mut [CodeEntry])
    ensures { table.new ≡ replicate (length table.old) no_code }
{
    table.fill(BLANK_CODE);
}

// Emits the whole code, as far as there is room, and gives the count of instructions.
fn emit_all(routine: &Checked, table: &mut [CodeEntry]) -> usize
    ensures count { result ≡ length (code (tree_of routine.now.draft)) }
    ensures few { result ≤ 2048 }
    ensures table { table.new ≡ sets table.old 0 (map code_entry (code (tree_of routine.now.draft))) }
{
    let draft = routine.draft();
    let typing = Typing::of(draft);
    let mut emitter = Emitter { table, next: 0 };
    command(draft, &typing, body(draft), &mut emitter);
    usize::from(emitter.next)
}

// A table that does not hold all instructions is emptied.
fn settle(table: &mut [CodeEntry], count: usize) -> Result<usize, Unfit>
    ensures is { result ≡ fits (length table.old) count }
    ensures table { table.new ≡ emptied count table.old }
{
    if count > table.len() {
        empty(table);
        return Err(Unfit::TooShort);
    }
    Ok(count)
}

// Writes the routine's code, then zeros, and gives the count of its instructions. A table that is too short is emptied.
pub fn translate(routine: &Checked, table: &mut [CodeEntry]) -> Result<usize, Unfit>
    ensures is { result ≡ outcome (length table.old) (tree_of routine.now.draft) }
    ensures table { table.new ≡ table_after (length table.old) (tree_of routine.now.draft) }
    ensures few { length (code (tree_of routine.now.draft)) ≤ 2048 }
    ensures mounts { Mounts (tree_of routine.now.draft) table.new result }
{
    empty(table);
    let count = emit_all(routine, table);
    settle(table, count)
}
