// Reading and checking a text.
ghost use Rattle.std.specs.Prelude.{◌≡◌, slice_index_or};
ghost use Rattle.tosca.specs.Table.{blank};
ghost use Rattle.verdict.specs.Verdicts.{Judged};

use crate::rejection::Rejection;
use checks::checking::check;
use draft::draft::MAX_NODES;
use draft::opening::open;
use reader::reading::read;
use tosca::table::{BLANK, Entry};

// The count of the routine's nodes, or why the text is no routine that may be translated.
pub fn judge(text: &[u8]) -> Result<usize, Rejection>
    ensures { Judged text.now result }
{
    let mut table = [BLANK; MAX_NODES];
    let count = read(text, &mut table)?;
    let draft = open(&table, count).unwrap();
    check(&draft).map_err(|violation| {
        Rejection::Unsound(violation, entry_at(draft.entries(), violation.node))
    })?;
    Ok(count)
}

// The entry of a number, which is blank past the end.
fn entry_at(entries: &[Entry], node: u16) -> Entry
    ensures { result ≡ slice_index_or entries.now node blank }
{
    let entry = entries.get(usize::from(node));
    entry.copied().unwrap_or(BLANK)
}
