// The sheet of the entries, on a page. No head and no turn price is refused here: whether they fit, the planner says.
ghost use Rattle.std.specs.Prelude.{◌≡◌, ◌+◌, ◌*◌, ◌≤◌, suc, length};
ghost use Rattle.runs.specs.Alone.{zeros};
ghost use Rattle.text_lines.specs.Lines.{each_of};
ghost use Rattle.text_pages.specs.Printing.{triple_lines, pair_lines, Wrote};
ghost use Rattle.sheet_reader.specs.Lines.{file_key, want_key};
ghost use Rattle.sheet_writer.specs.Writing.{top_text};
ghost use Rattle.sheet_picks.specs.Entries.{last_or, entry_lengths, entry_reads};
ghost use Rattle.sheet_picks.specs.Sheets.{given_or, picked_sheet};
ghost use Rattle.sheet_picks.specs.Private.{EntryRows, sheet_most};

use tape_entries::reads_in;
use text_pages::{put_line, put_number_line, put_pair_line, put_triple_line};

// The price of a turn where none is given.
const USUAL_TURN: u64 = 12000;

// The number that is given in a row of one, or the one for none.
// Stays: a caller in C hands head and turn in so, and `picked_sheet` reads them so; they are no Options.
fn given_or(none: u64, row: &[u64]) -> u64
    ensures { result ≡ given_or none row.now }
{
    row.first().copied().unwrap_or(none)
}

// The end of the last entry; 0 where there is none.
// Stays: `picked_sheet` puts the head there, and at 0 where there is no entry, so that this is a place and no Option.
fn last_end(lasts: &[u64]) -> u64
    ensures { result ≡ last_or 0 lasts.now }
{
    lasts.last().copied().unwrap_or(0)
}

// The first five lines, the number of files the last of them.
// Stays: as in sheet_writer, where it asks for room and a short name; a public function answers every input, and a contract of both cases would be longer than this.
fn put_top(page: &mut [u8], name: &[u8], head: u64, turn: u64, files: u64) -> usize
    requires name_len_bound { length name.now ≤ 16 }
    requires in_bounds { 112 ≤ length page.old }
    ensures { Wrote page.old 0 (top_text name.now head turn files) 112 page.new result }
{
    let head_at = put_line(page, 0, b"tape=", name);
    let turn_at = put_number_line(page, head_at, b"head=", head);
    let rule_at = put_number_line(page, turn_at, b"turn=", turn);
    let files_at = put_line(page, rule_at, b"rule=", b"least");
    put_number_line(page, files_at, b"files=", files)
}

// A file line for each entry, in no aggregate. No such line is longer than 68 bytes.
fn put_files(page: &mut [u8], at: usize, firsts: &[u64], lasts: &[u64]) -> usize
    requires entry_rows { EntryRows firsts.now lasts.now }
    requires firsts_in_bounds { at + length firsts.now * 68 ≤ length page.old }
    ensures { Wrote page.old at (triple_lines file_key firsts.now (entry_lengths firsts.now lasts.now) (zeros (length firsts.now))) (length firsts.now * 68) page.new result }
{
    let mut next = at;
    for (first, last) in firsts.iter().zip(lasts) {
        next = put_triple_line(page, next, b"file=", *first, *last - *first, 0);
    }
    next
}

// A want line for each entry, with its reads. No such line is longer than 47 bytes.
fn put_wants(page: &mut [u8], at: usize, starts: &[u64], firsts: &[u64], lasts: &[u64]) -> usize
    requires entry_rows { EntryRows firsts.now lasts.now }
    requires firsts_in_bounds { at + length firsts.now * 47 ≤ length page.old }
    ensures { Wrote page.old at (pair_lines want_key (each_of suc (length firsts.now)) (entry_reads starts.now firsts.now lasts.now)) (length firsts.now * 47) page.new result }
{
    let mut next = at;
    for i in 0..firsts.len() {
        let reads = reads_in(firsts[i], lasts[i], starts);
        next = put_pair_line(page, next, b"want=", i as u64 + 1, reads as u64);
    }
    next
}

pub(crate) fn put_sheet(
    page: &mut [u8],
    name: &[u8],
    starts: &[u64],
    firsts: &[u64],
    lasts: &[u64],
    head: &[u64],
    turn: &[u64],
) -> usize
    requires name_len_bound { length name.now ≤ 16 }
    requires entry_rows { EntryRows firsts.now lasts.now }
    requires firsts_len_bound { length firsts.now ≤ 64 }
    requires sheet_most_in_bounds { sheet_most ≤ length page.old }
    ensures { Wrote page.old 0 (picked_sheet name.now starts.now firsts.now lasts.now head.now turn.now) sheet_most page.new result }
{
    let place = given_or(last_end(lasts), head);
    let price = given_or(USUAL_TURN, turn);
    let file_at = put_top(page, name, place, price, firsts.len() as u64);
    let wants_at = put_files(page, file_at, firsts, lasts);
    let want_at = put_number_line(page, wants_at, b"wants=", firsts.len() as u64);
    put_wants(page, want_at, starts, firsts, lasts)
}
