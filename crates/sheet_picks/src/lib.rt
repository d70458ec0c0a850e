// sheet_picks: the run sheet of files that are wanted by path, and the names of them, as two texts: both or neither.
// For the reader that finds the files, which sees only these contracts. What the words mean stands in specs/; the public function answers every input.
#![tactic(auto)]

mod entries;
mod names;
mod paths;
mod sheet;

ghost use Rattle.std.specs.Prelude.{◌≡◌, ◌||◌, ◌≤◌, length, ltb};
ghost use Rattle.refusals.specs.declared.Refusal.TheVariants.{ShortRow};
ghost use Rattle.refusals.specs.Refusals.{checked, refuse_if};
ghost use Rattle.sheet_picks.specs.Sheets.{picked_sheet};
ghost use Rattle.sheet_picks.specs.Names.{names_text};
ghost use Rattle.sheet_picks.specs.Writing.{picks_verdict, text_rows_verdict, PicksHanded, PicksWritten};
ghost use Rattle.sheet_picks.specs.Private.{PathRows, EntryRows};

use entries::fill_entries;
use names::put_names;
use refusals::{Refusal, Verdict};
use sheet::put_sheet;
use text_pages::put;
use text_paths::{count_lines, fill_paths, judge_list};

// How many bytes the sheet and the names have.
#[derive(Clone, Copy)]
pub struct Picks {
    pub bytes: u64,
    pub named: u64,
}

// 13, 11, 5 and 3.
#[tactic(auto, unfolding(crate::specs::Writing::picks_verdict))]
fn judge(name: &[u8], list: &[u8], entries: usize) -> Result<(), Verdict>
    ensures { result ≡ checked (picks_verdict name.now list.now entries) }
{
    Refusal::BadName.when(!text_bytes::is_name(name))?;
    judge_list(list)?;
    Refusal::WantRows.when(runs::MOST_WANTS < entries)
}

// 8 for two texts of so many bytes.
fn judge_rows(sheet: usize, named: usize, out: usize, names: usize) -> Result<(), Verdict>
    ensures { result ≡ checked (refuse_if (ltb out sheet || ltb names named) ShortRow) }
{
    Refusal::ShortRow.when(out < sheet || names < named)
}

// A long row comes from a function of its own: where it is made and lent in one function, the check counts its entries one by one.
fn blank_page() -> [u8; 7499] {
    [0u8; 7499]
}

// Both texts into the rows, or neither: the sheet on a page, the names measured, then both written.
fn hand_both(
    name: &[u8],
    list: &[u8],
    froms: &[usize],
    tos: &[usize],
    starts: &[u64],
    firsts: &[u64],
    lasts: &[u64],
    head: &[u64],
    turn: &[u64],
    out: &mut [u8],
    names: &mut [u8],
) -> Result<Picks, Verdict>
    requires name_len_bound { length name.now ≤ 16 }
    requires path_rows { PathRows list.now froms.now tos.now }
    requires entry_rows { EntryRows firsts.now lasts.now }
    requires firsts_len_bound { length firsts.now ≤ 64 }
    ensures { PicksHanded (text_rows_verdict (picked_sheet name.now starts.now firsts.now lasts.now head.now turn.now) (names_text list.now starts.now firsts.now lasts.now) out.old names.old) (picked_sheet name.now starts.now firsts.now lasts.now head.now turn.now) (names_text list.now starts.now firsts.now lasts.now) out.old names.old result out.new names.new }
{
    let mut page = blank_page();
    let bytes = put_sheet(&mut page, name, starts, firsts, lasts, head, turn);
    let named = put_names(names, false, list, froms, tos, starts, firsts, lasts);
    judge_rows(bytes, named, out.len(), names.len())?;
    put(out, 0, &page[..bytes]);
    put_names(names, true, list, froms, tos, starts, firsts, lasts);
    Ok(Picks {
        bytes: bytes as u64,
        named: named as u64,
    })
}

// The sheet of the files that the lines of a list ask for, whose starts and ends stand in two rows, a line each; and their names.
pub fn write_picks(
    name: &[u8],
    list: &[u8],
    starts: &[u64],
    ends: &[u64],
    head: &[u64],
    turn: &[u64],
    out: &mut [u8],
    names: &mut [u8],
) -> Result<Picks, Verdict>
    ensures { PicksWritten name.now list.now starts.now ends.now head.now turn.now out.old names.old result out.new names.new }
{
    let mut firsts = [0u64; 65];
    let mut lasts = [0u64; 65];
    let entries = fill_entries(starts, ends, &mut firsts, &mut lasts);
    judge(name, list, entries)?;
    let mut froms = [0usize; 1024];
    let mut tos = [0usize; 1024];
    fill_paths(list, count_lines(list), &mut froms, &mut tos);
    hand_both(
        name,
        list,
        &froms,
        &tos,
        starts,
        &firsts[..entries],
        &lasts[..entries],
        head,
        turn,
        out,
        names,
    )
}
