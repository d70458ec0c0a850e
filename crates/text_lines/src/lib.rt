// text_lines: readers of single lines: a key and what stands behind it, a number, two numbers, three, and so many lines of one kind; pairs into two rows.
// For the readers of sheets, which see only these contracts. What the words mean stands in specs/. Each takes a text and the position at
// which the line starts, and answers its value and where the next line starts; a position behind the text's end, or a line without its
// LF, is answered as a bad line.
#![tactic(auto)]

ghost use Rattle.std.specs.Prelude.{◌≡◌, ◌+◌, ◌≤◌, length, drop, ℕ, List, Bool};
ghost use Rattle.text_bytes.specs.Text.{line_feed};
ghost use Rattle.text_bytes.specs.Found.{FoundIn};
ghost use Rattle.text_lines.specs.Lines.{is_number_line, number_behind, is_pair_line, is_triple_line};
ghost use Rattle.text_lines.specs.Found.{ValueFound, NumberLineFound, PairLineFound, TripleLineFound, LinesFound, PairsRead};
ghost use Rattle.text_lines.specs.Private.{PairFound, TripleFound, Passes};

use text_bytes::{find, read_number, starts};

// What stands behind a line's key: from and end are positions in the text, and the LF stands at end.
#[derive(Clone, Copy)]
pub struct Keyed {
    pub from: usize,
    pub end: usize,
}

#[derive(Clone, Copy)]
pub struct NumberLine {
    pub number: u64,
    pub next: usize,
}

#[derive(Clone, Copy)]
pub struct PairLine {
    pub first: u64,
    pub second: u64,
    pub next: usize,
}

#[derive(Clone, Copy)]
pub struct TripleLine {
    pub first: u64,
    pub second: u64,
    pub third: u64,
    pub next: usize,
}

// The first of so many lines that is not as described, counted from 1.
#[derive(Clone, Copy)]
pub struct BadLine {
    pub line: u64,
}

// Where the first line of a text ends.
fn line_end(text: &[u8]) -> Option<usize>
    ensures { FoundIn line_feed text.now result }
{
    find(text, b'\n')
}

pub fn find_value(text: &[u8], at: usize, key: &[u8]) -> Option<Keyed>
    ensures { ValueFound key.now text.now at result }
{
    if text.len() < at {
        return None;
    }
    let length = line_end(&text[at..])?;
    let end = at + length;
    if !starts(&text[at..end], key) {
        return None;
    }
    Some(Keyed {
        from: at + key.len(),
        end,
    })
}

// The next line starts behind the LF.
pub fn number_line(text: &[u8], at: usize, key: &[u8]) -> Option<NumberLine>
    ensures { NumberLineFound (is_number_line key.now) (number_behind key.now) text.now at result }
{
    let value = find_value(text, at, key)?;
    let number = read_number(&text[value.from..value.end])?;
    Some(NumberLine {
        number,
        next: value.end + 1,
    })
}

// Two numbers with a comma between them.
fn read_pair(text: &[u8]) -> Option<(u64, u64)>
    ensures { PairFound text.now result }
{
    let comma = find(text, b',')?;
    let first = read_number(&text[..comma])?;
    let second = read_number(&text[comma + 1..])?;
    Some((first, second))
}

pub fn pair_line(text: &[u8], at: usize, key: &[u8]) -> Option<PairLine>
    ensures { PairLineFound key.now text.now at result }
{
    let value = find_value(text, at, key)?;
    let (first, second) = read_pair(&text[value.from..value.end])?;
    Some(PairLine {
        first,
        second,
        next: value.end + 1,
    })
}

// A position in a text: its end for one behind it, where as little stands.
fn position(text: &[u8], at: usize) -> usize
    ensures upper_bound { result ≤ length text.now }
    ensures text_value { drop result text.now ≡ drop at text.now }
{
    at.min(text.len())
}

// The same of any kind of line, passed by a function that answers where the next one starts.
fn pass_lines<F: Fn(usize) -> Option<usize>>(
    text: &[u8],
    at: usize,
    count: u64,
    pass: F,
) -> Result<usize, BadLine>
    requires { F.IsAlwaysCallable pass }
    ensures { (test : List ℕ → Bool) → Passes test text.now (F.post pass) → LinesFound test text.now at count result }
{
    let mut next = position(text, at);
    for i in 0..count {
        let Some(after) = pass(next) else {
            return Err(BadLine { line: i + 1 });
        };
        next = after;
    }
    Ok(next)
}

// Where the text after so many lines of one kind starts, or the first of them that is not as described.
pub fn pair_lines(text: &[u8], at: usize, key: &[u8], count: u64) -> Result<usize, BadLine>
    ensures { LinesFound (is_pair_line key.now) text.now at count result }
{
    pass_lines(
        text,
        at,
        count,
        |next| Some(pair_line(text, next, key)?.next),
    )
}

// The pairs of so many lines into the first entries of two rows: up to the first line that is no pair, and to the end of the shorter row.
pub fn fill_pairs(
    text: &[u8],
    at: usize,
    key: &[u8],
    count: u64,
    firsts: &mut [u64],
    seconds: &mut [u64],
)
    ensures { PairsRead key.now text.now at count firsts.old seconds.old firsts.new seconds.new }
{
    let room = firsts.len().min(seconds.len());
    let most = count.min(room as u64) as usize;
    let mut here = position(text, at);
    for i in 0..most {
        let Some(line) = pair_line(text, here, key) else {
            return;
        };
        firsts[i] = line.first;
        seconds[i] = line.second;
        here = line.next;
    }
}

// Three numbers with two commas between them.
fn read_triple(text: &[u8]) -> Option<(u64, u64, u64)>
    ensures { TripleFound text.now result }
{
    let comma = find(text, b',')?;
    let first = read_number(&text[..comma])?;
    let (second, third) = read_pair(&text[comma + 1..])?;
    Some((first, second, third))
}

pub fn triple_line(text: &[u8], at: usize, key: &[u8]) -> Option<TripleLine>
    ensures { TripleLineFound key.now text.now at result }
{
    let value = find_value(text, at, key)?;
    let (first, second, third) = read_triple(&text[value.from..value.end])?;
    Some(TripleLine {
        first,
        second,
        third,
        next: value.end + 1,
    })
}

// Stays: the loop that both share is pass_lines; what is left is the call with the line to pass.
pub fn triple_lines(text: &[u8], at: usize, key: &[u8], count: u64) -> Result<usize, BadLine>
    ensures { LinesFound (is_triple_line key.now) text.now at count result }
{
    pass_lines(
        text,
        at,
        count,
        |next| Some(triple_line(text, next, key)?.next),
    )
}
