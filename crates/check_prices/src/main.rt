// Prices the lists of document 01's worked cases, its limits, the two longest walks and a run with an aggregate, and prints a line for each.
// The cases stand beside it in stdin: a line for each row of numbers, which stays until another line sets it anew, and a line `price` with a name, which
// prices what the rows then hold. What it must print stands in stdout; tests/python/prices.py works the same text out from the paper's sentences.
#![tactic(auto)]

ghost use Rattle.std.specs.Prelude.{◌<◌};

use text_inputs::{front, part};
use walk::Answer;

const STDOUT: i32 = 1;

// The first letters of the rows: starts, lengths, aggregates, numbers, counts, froms, untils, and head and turn of one number each.
const KEYS: [u8; 9] = [b's', b'l', b'a', b'n', b'c', b'f', b'u', b'h', b't'];

fn text(bytes: &[u8]) {
    io::write_all(STDOUT, bytes);
}

fn field(name: &[u8], value: u64) {
    text(name);
    io::print_decimal(STDOUT, value);
}

// A row of an accepted answer: an entry for each want.
fn entries(name: &[u8], row: &[u64], wants: usize) {
    text(name);
    for entry in row.iter().take(wants) {
        field(b" ", *entry);
    }
}

fn refusal_fields(number: u64, place: u64) {
    field(b": refused=", number);
    field(b" place=", place);
}

fn answer_fields(a: Answer) {
    field(b": sum=", a.sum);
    field(b" finish=", a.finish);
    field(b" end=", a.end);
    field(b" detours=", a.detours);
}

fn answer_line(a: Answer, times: &[u64], legs: &[u64], wants: usize) {
    let kind = a.refusal;
    let number = refusals::number(kind);
    if number != 0 {
        refusal_fields(number, a.place);
    } else {
        answer_fields(a);
        entries(b" times=", times, wants);
        entries(b" legs=", legs, wants);
    }
    text(b"\n");
}

// Where the entry of a row stands among the cells: behind how many entries each of the nine has, 65 cells for each.
fn cell_of(row: usize, entry: u64) -> usize
    ensures { result < 594 }
{
    9 + row % 9 * 65 + (entry % 65) as usize
}

// One entry more in a row, 0 so far.
fn opened(cells: [u64; 594], row: usize) -> [u64; 594] {
    let mut after = cells;
    let n = cells[row % 9];
    let cell = cell_of(row, n);
    after[cell] = 0;
    after[row % 9] = n % 65 + 1;
    after
}

// The last entry of a row with one digit more.
fn grown(cells: [u64; 594], row: usize, digit: u64) -> [u64; 594] {
    let mut after = cells;
    let n = cells[row % 9];
    let cell = cell_of(row, n.wrapping_sub(1));
    after[cell] = cells[cell] % 1000000000000000000 * 10 + digit % 10;
    after
}

fn byte_taken(cells: [u64; 594], row: usize, byte: u8) -> [u64; 594] {
    if byte == b' ' {
        return opened(cells, row);
    }
    if text_bytes::is_between(b'0', b'9', byte) {
        return grown(cells, row, u64::from(byte.wrapping_sub(b'0')));
    }
    cells
}

// The numbers of a line, each behind a space, in place of what the row held.
fn row_taken(cells: [u64; 594], row: usize, line: &[u8]) -> [u64; 594] {
    let mut after = cells;
    after[row % 9] = 0;
    for byte in line {
        after = byte_taken(after, row, *byte);
    }
    after
}

// The entries of a row.
fn row_of(cells: &[u64], row: usize) -> &[u64] {
    if cells.len() < 594 {
        return cells;
    }
    let start = 9 + row % 9 * 65;
    let end = start + (cells[row % 9] % 66) as usize;
    &cells[start..end]
}

fn show(label: &[u8], cells: &[u64; 594]) {
    let mut times = [9u64; 65];
    let mut legs = [9u64; 65];
    let numbers = row_of(cells, 3);
    let a = walk::price(
        row_of(cells, 0),
        row_of(cells, 1),
        row_of(cells, 2),
        numbers,
        row_of(cells, 4),
        cells[464],
        cells[529],
        row_of(cells, 5),
        row_of(cells, 6),
        &mut times,
        &mut legs,
    );
    text(label);
    answer_line(a, &times, &legs, numbers.len());
}

// The cells after a line of n bytes.
fn line_taken(cells: [u64; 594], line: &[u8; 1024], n: usize) -> [u64; 594] {
    let Some(row) = text_bytes::find(&KEYS, line[0]) else {
        show(part(line, 6, n.wrapping_sub(1)), &cells);
        return cells;
    };
    row_taken(cells, row, front(line, n as u64))
}

// The cells after the next line, if there is one.
fn next_taken(cells: [u64; 594]) -> Option<[u64; 594]> {
    let mut line = [0u8; 1024];
    let n = text_inputs::read_line(&mut line);
    if n == 0 {
        return None;
    }
    Some(line_taken(cells, &line, n))
}

fn main() {
    let mut cells = [0u64; 594];
    for _ in 0..1000 {
        let Some(after) = next_taken(cells) else {
            return;
        };
        cells = after;
    }
}
