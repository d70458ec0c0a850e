// The names, measured and written by the same functions.
ghost use Rattle.std.specs.Prelude.{◌≡◌, ◌&&◌, ◌+◌, ◌≤◌, ◌<◌, length, get_or, leb, ltb};
ghost use Rattle.text_pages.specs.Printing.{Wrote};
ghost use Rattle.text_paths.specs.Paths.{line_count};
ghost use Rattle.sheet_picks.specs.Names.{name_line, lies_in_entry, name_of_line, names_of_entry, names_text};
ghost use Rattle.sheet_picks.specs.Private.{PathRows, EntryRows, NextAt, name_head, Laid};

use crate::paths::first_reads;
use text_pages::{put, put_line, put_pair};
use text_paths::count_lines;

// An entry: its number, its first start and its last end.
#[derive(Clone, Copy)]
struct Entry {
    number: u64,
    first: u64,
    last: u64,
}

// Where a text of so many bytes ends that begins at a position of a row; a position behind the row's end where it goes over that.
fn next_at(room: usize, at: usize, size: usize) -> usize
    requires { room < 18446744073709551615 }
    ensures { NextAt room at size result }
{
    if room < at {
        return at;
    }
    if room - at < size {
        return room + 1;
    }
    at + size
}

fn put_head(page: &mut [u8], number: u64, reads: u64) -> usize
    requires { 47 ≤ length page.old }
    ensures { Wrote page.old 0 (name_head number reads) 47 page.new result }
{
    let pair_at = put(page, 0, b"name=");
    let comma_at = put_pair(page, pair_at, number, reads);
    put(page, comma_at, b",")
}

// A line of the names. A path is any number of bytes, so it goes to its row at once and not by a page.
fn put_name(row: &mut [u8], at: usize, writing: bool, number: u64, reads: u64, path: &[u8]) -> usize
    ensures { Laid writing row.old at (name_line number reads path.now) row.new result }
{
    let mut page = [0u8; 47];
    let size = put_head(&mut page, number, reads);
    let next = next_at(row.len(), at, size + path.len() + 1);
    if !writing {
        return next;
    }
    if row.len() < next {
        return next;
    }
    let path_at = put(row, at, &page[..size]);
    put_line(row, path_at, b"", path)
}

// Where the file of a line starts.
fn start_at(starts: &[u64], i: usize) -> u64
    ensures { result ≡ get_or starts.now i 0 }
{
    starts.get(i).copied().unwrap_or(0)
}

// Whether the file of a line starts in an entry.
fn lies_in(entry: Entry, starts: &[u64], i: usize) -> bool
    ensures { result ≡ lies_in_entry starts.now entry.first entry.last i }
{
    (entry.first..entry.last).contains(&start_at(starts, i))
}

// What the names of an entry say of a line.
fn put_line_name(
    row: &mut [u8],
    at: usize,
    writing: bool,
    list: &[u8],
    froms: &[usize],
    tos: &[usize],
    starts: &[u64],
    entry: Entry,
    count: usize,
    i: usize,
) -> usize
    requires path_rows { PathRows list.now froms.now tos.now }
    requires count_value { count ≡ line_count list.now }
    requires i_lt_count { i < count }
    ensures { Laid writing row.old at (name_of_line list.now starts.now entry.number entry.first entry.last i) row.new result }
{
    if !lies_in(entry, starts, i) {
        return at;
    }
    let reads = first_reads(list, froms, tos, count, i);
    if reads == 0 {
        return at;
    }
    let from = froms[i];
    let end = tos[i];
    put_name(
        row,
        at,
        writing,
        entry.number,
        reads as u64,
        &list[from..end],
    )
}

// The names of the files of an entry.
fn put_entry(
    row: &mut [u8],
    at: usize,
    writing: bool,
    list: &[u8],
    froms: &[usize],
    tos: &[usize],
    starts: &[u64],
    entry: Entry,
) -> usize
    requires { PathRows list.now froms.now tos.now }
    ensures { Laid writing row.old at (names_of_entry list.now starts.now entry.number entry.first entry.last) row.new result }
{
    let count = count_lines(list);
    let mut next = at;
    for i in 0..count {
        next = put_line_name(
            row, next, writing, list, froms, tos, starts, entry, count, i,
        );
    }
    next
}

// The names of all entries.
pub(crate) fn put_names(
    row: &mut [u8],
    writing: bool,
    list: &[u8],
    froms: &[usize],
    tos: &[usize],
    starts: &[u64],
    firsts: &[u64],
    lasts: &[u64],
) -> usize
    requires path_rows { PathRows list.now froms.now tos.now }
    requires entry_rows { EntryRows firsts.now lasts.now }
    ensures { Laid writing row.old 0 (names_text list.now starts.now firsts.now lasts.now) row.new result }
{
    let mut next: usize = 0;
    for k in 0..firsts.len() {
        let entry = Entry {
            number: k as u64 + 1,
            first: firsts[k],
            last: lasts[k],
        };
        next = put_entry(row, next, writing, list, froms, tos, starts, entry);
    }
    next
}
