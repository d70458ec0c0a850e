// The two texts, each put together on a page of its own: the mended sheet, and a line for each change.
ghost use Rattle.std.specs.Prelude.{◌≡◌, ◌+◌, ◌*◌, ◌≤◌, length};
ghost use Rattle.sheet_reader.specs.Lines.{want_key};
ghost use Rattle.text_pages.specs.Printing.{pair_lines, Wrote};
ghost use Rattle.answer_mend.specs.Wants.{reads_each};
ghost use Rattle.answer_mend.specs.Mending.{change_line, change_if, fate_line, fate_lines, mended_text, changes_text};
ghost use Rattle.answer_mend.specs.Private.{FewReads, Writable};

use crate::wants::{Fate, fate_of, reads_of};
use sheet_loose::Parts;
use text_pages::{put, put_line, put_number, put_number_line, put_pair_line};

// A want line for each file that remains, with its reads. No such line is longer than 47 bytes.
fn put_wants(page: &mut [u8], at: usize, row: &[u64], wanted: &[u64], counts: &[u64]) -> usize
    requires few_reads { FewReads wanted.now counts.now }
    requires row_in_bounds { at + length row.now * 47 ≤ length page.old }
    ensures { Wrote page.old at (pair_lines want_key row.now (reads_each wanted.now counts.now row.now)) (length row.now * 47) page.new result }
{
    let mut next = at;
    for file in row {
        let reads = reads_of(wanted, counts, *file);
        next = put_pair_line(page, next, b"want=", *file, reads);
    }
    next
}

// The mended sheet, which is not longer than the old one, 64 want lines and 91 bytes for the lines that are written anew.
pub(crate) fn put_sheet(
    page: &mut [u8],
    sheet: &[u8],
    parts: Parts,
    wanted: &[u64],
    counts: &[u64],
    row: &[u64],
) -> usize
    requires writable { Writable sheet.now parts wanted.now counts.now row.now }
    requires page_len { length page.old ≡ 19483 }
    ensures { Wrote page.old 0 (mended_text sheet.now) 19483 page.new result }
{
    let third = parts.third;
    let table = parts.table;
    let tail = parts.tail;
    let turn_at = put(page, 0, &sheet[..third]);
    let rule_at = put_number_line(page, turn_at, b"turn=", parts.turn);
    let files_at = put(page, rule_at, b"rule=least\n");
    let table_at = put_number_line(page, files_at, b"files=", parts.files);
    let wants_at = put(page, table_at, &sheet[table..tail]);
    let body_at = put_number_line(page, wants_at, b"wants=", row.len() as u64);
    put_wants(page, body_at, row, wanted, counts)
}

// A change. No word is longer than 7 bytes, so no such line is longer than 36.
fn put_change(page: &mut [u8], at: usize, line: u64, word: &[u8]) -> usize
    requires word_len_bound { length word.now ≤ 7 }
    requires at_in_bounds { at + 36 ≤ length page.old }
    ensures { Wrote page.old at (change_line line word.now) 36 page.new result }
{
    let number_at = put(page, at, b"change=");
    let word_at = put_number(page, number_at, line);
    put_line(page, word_at, b",", word)
}

fn put_if(page: &mut [u8], at: usize, changed: bool, line: u64, word: &[u8]) -> usize
    requires word_len_bound { length word.now ≤ 7 }
    requires at_in_bounds { at + 36 ≤ length page.old }
    ensures { Wrote page.old at (change_if changed line word.now) 36 page.new result }
{
    if changed {
        return put_change(page, at, line, word);
    }
    at
}

fn put_fate(page: &mut [u8], at: usize, line: u64, fate: Fate) -> usize
    requires { at + 36 ≤ length page.old }
    ensures { Wrote page.old at (fate_line line fate) 36 page.new result }
{
    match fate {
        Fate::Stays => at,
        Fate::Moved => put_change(page, at, line, b"moved"),
        Fate::Added => put_change(page, at, line, b"added"),
        Fate::Dropped => put_change(page, at, line, b"dropped"),
    }
}

fn put_fates(page: &mut [u8], at: usize, above: u64, wanted: &[u64], counts: &[u64]) -> usize
    requires wanted_len { length wanted.now ≡ length counts.now }
    requires above_bound { above ≤ 262 }
    requires wanted_in_bounds { at + length wanted.now * 36 ≤ length page.old }
    ensures { Wrote page.old at (fate_lines above wanted.now counts.now (length wanted.now)) (length wanted.now * 36) page.new result }
{
    let mut next = at;
    for i in 0..wanted.len() {
        let fate = fate_of(wanted, counts, i);
        next = put_fate(page, next, above + (i as u64 + 1), fate);
    }
    next
}

// The changes: four lines at most, and one for each want line.
pub(crate) fn put_changes(
    page: &mut [u8],
    sheet: &[u8],
    parts: Parts,
    wanted: &[u64],
    counts: &[u64],
    row: &[u64],
) -> usize
    requires writable { Writable sheet.now parts wanted.now counts.now row.now }
    requires page_len { length page.old ≡ 98424 }
    ensures { Wrote page.old 0 (changes_text sheet.now) 98424 page.new result }
{
    let above = parts.files + 6;
    let rule_at = put_if(page, 0, parts.empty, 3, b"turn");
    let files_at = put_if(page, rule_at, parts.sweep, 4, b"rule");
    let wants_at = put_if(page, files_at, parts.listed != parts.files, 5, b"files");
    let fates_at = put_if(
        page,
        wants_at,
        parts.asked != row.len() as u64,
        above,
        b"wants",
    );
    put_fates(page, fates_at, above, wanted, counts)
}
