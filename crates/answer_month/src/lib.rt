// answer_month: a month of run sheets in exact numbers: the figures so far and one sheet more, the parts of the input, and the page.
// For the program, which reads part by part. What the words mean stands in specs/; each public function answers every input.
#![tactic(auto)]

ghost use Rattle.std.specs.Prelude.{◌≡◌, ◌<◌};
ghost use Rattle.answer_month.specs.Month.{too_large, grown, empty_month, over_refused, with_refused, over_totals, with_totals, with_longest, added};
ghost use Rattle.answer_month.specs.Private.{zero_month};

mod page;
mod parts;

use answer_outcome::Outcome;
pub use page::write_month;
pub use parts::{add_sheet, judge_input, next_part};

// The figures of some sheets: how many they are, the runs accepted, the runs refused by number, reads, summed time, what the plans
// save, and the longest time with its file and its tape. Where a total would reach 2 to the 64, `over` says so.
// Stays: a flag beside the totals and no Result, since OutcomeIsAdded in the promises says what each total is where it is set, too.
// Stays: rows of an array, one count for each refusal and a name of sixteen bytes at most, since the record is copied, and the house works without a heap.
#[derive(Clone, Copy)]
pub struct Month {
    pub sheets: u64,
    pub accepted: u64,
    pub refused: [u64; 32],
    pub reads: u64,
    pub sum: u64,
    pub saved: u64,
    pub time: u64,
    pub file: u64,
    pub letters: u64,
    pub tape: [u8; 16],
    pub over: bool,
}

// A whole part and a remainder.
#[derive(Clone, Copy)]
pub struct Mean {
    pub whole: u64,
    pub rest: u64,
}

// A part of the input that is not as described: no line with a byte count, or fewer bytes behind it.
#[derive(Clone, Copy)]
pub struct BadPart;

// A sheet of which fewer bytes are there than its line says, and the month as it was.
#[derive(Clone, Copy)]
pub struct CutOff {
    pub month: Month,
}

// Every number 0.
fn zero_month(over: bool) -> Month
    ensures { result ≡ zero_month over }
{
    Month {
        sheets: 0,
        accepted: 0,
        refused: [0u64; 32],
        reads: 0,
        sum: 0,
        saved: 0,
        time: 0,
        file: 0,
        letters: 0,
        tape: [0u8; 16],
        over,
    }
}

// No sheets.
pub fn empty_month() -> Month
    ensures { result ≡ empty_month }
{
    zero_month(false)
}

// Whether a total would pass what a word holds.
fn too_large(total: u64, more: u64) -> bool
    ensures { result ≡ too_large total more }
{
    18446744073709551615 - total < more
}

// A total and what is added to it; the total alone where that is too large.
pub(crate) fn grow(total: u64, more: u64) -> u64
    ensures { result ≡ grown total more }
{
    if too_large(total, more) {
        return total;
    }
    total + more
}

fn over_refused(month: Month, runs: u64) -> bool
    ensures { result ≡ over_refused month runs }
{
    month.over || too_large(month.sheets, 1) || too_large(runs, 1)
}

// A run refused with a number.
fn add_refused(month: Month, number: u64) -> Month
    requires { number < 32 }
    ensures { result ≡ with_refused month number }
{
    let mut next = month;
    let i = number as usize;
    let runs = next.refused[i];
    next.refused[i] = grow(runs, 1);
    next.sheets = grow(month.sheets, 1);
    next.over = over_refused(month, runs);
    next
}

fn over_totals(month: Month, run: Outcome) -> bool
    ensures { result ≡ over_totals month run }
{
    month.over
        || too_large(month.sheets, 1)
        || too_large(month.accepted, 1)
        || too_large(month.reads, run.reads)
        || too_large(month.sum, run.sum)
        || too_large(month.saved, run.saved)
}

// The totals of a run accepted.
fn add_totals(month: Month, run: Outcome) -> Month
    ensures { result ≡ with_totals month run }
{
    let mut next = month;
    next.sheets = grow(month.sheets, 1);
    next.accepted = grow(month.accepted, 1);
    next.reads = grow(month.reads, run.reads);
    next.sum = grow(month.sum, run.sum);
    next.saved = grow(month.saved, run.saved);
    next.over = over_totals(month, run);
    next
}

// Its longest time, where it is longer than the longest so far: of equal ones the first stays.
fn add_longest(month: Month, run: Outcome) -> Month
    ensures { result ≡ with_longest month run }
{
    if run.time <= month.time {
        return month;
    }
    let mut next = month;
    let tape = run.tape;
    next.time = run.time;
    next.file = run.file;
    next.letters = run.letters;
    next.tape = tape;
    next
}

// One sheet's outcome more.
pub fn add(month: Month, run: Outcome) -> Month
    ensures { result ≡ added month run }
{
    let kind = run.refusal;
    let number = refusals::number(kind);
    if number != 0 {
        return add_refused(month, number);
    }
    add_longest(add_totals(month, run), run)
}
