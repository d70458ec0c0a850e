// The page of a month: its lines are put one behind the other on a page of its own, so that a row too short for it is left alone.
ghost use Rattle.std.specs.Prelude.{◌≡◌, ◌+◌, ◌*◌, ◌≤◌, ◌<◌, length, take};
ghost use Rattle.text_pages.specs.Printing.{Wrote};
ghost use Rattle.answer_month.specs.Page.{one_if, kinds_in, refusal_line, refusal_lines, mean_of, month_top, sums_text, longest_text, month_end, PagePut};

use crate::{Mean, Month};
use refusals::Verdict;
use text_pages::{put, put_number, put_number_line, put_pair_line};

// One more where there are runs.
fn one_more(kinds: u64, runs: u64) -> u64
    requires { kinds < 18446744073709551615 }
    ensures { result ≡ kinds + one_if runs }
{
    if runs == 0 {
        return kinds;
    }
    kinds + 1
}

// How many numbers have runs refused with them.
fn count_kinds(runs: &[u64]) -> u64
    ensures { result ≡ kinds_in runs.now }
{
    let mut kinds: u64 = 0;
    for refused in runs {
        kinds = one_more(kinds, *refused);
    }
    kinds
}

// The line of a number, where there are runs.
fn put_refusal(page: &mut [u8], at: usize, number: u64, runs: u64) -> usize
    requires { at + 50 ≤ length page.old }
    ensures { Wrote page.old at (refusal_line number runs) 50 page.new result }
{
    if runs == 0 {
        return at;
    }
    put_pair_line(page, at, b"refusal=", number, runs)
}

fn put_refusals(page: &mut [u8], at: usize, runs: &[u64]) -> usize
    requires { at + length runs.now * 50 ≤ length page.old }
    ensures { Wrote page.old at (refusal_lines 0 runs.now) (length runs.now * 50) page.new result }
{
    let mut next = at;
    for (number, refused) in runs.iter().enumerate() {
        next = put_refusal(page, next, number as u64, *refused);
    }
    next
}

// The mean as whole part and remainder; 0 and 0 where nothing is read.
fn mean_of(sum: u64, reads: u64) -> Mean
    ensures { result ≡ mean_of sum reads }
{
    if reads == 0 {
        return Mean { whole: 0, rest: 0 };
    }
    Mean {
        whole: sum / reads,
        rest: sum % reads,
    }
}

// The runs accepted, and those refused by number.
fn put_top(page: &mut [u8], accepted: u64, runs: &[u64]) -> usize
    requires { 60 + length runs.now * 50 ≤ length page.old }
    ensures { Wrote page.old 0 (month_top accepted runs.now) (60 + length runs.now * 50) page.new result }
{
    let kinds = count_kinds(runs);
    let count = put_number_line(page, 0, b"accepted=", accepted);
    let lines = put_number_line(page, count, b"refusals=", kinds);
    put_refusals(page, lines, runs)
}

// Reads, sum and mean.
fn put_sums(page: &mut [u8], at: usize, reads: u64, sum: u64) -> usize
    requires { at + 99 ≤ length page.old }
    ensures { Wrote page.old at (sums_text reads sum) 99 page.new result }
{
    let mean = mean_of(sum, reads);
    let sums = put_number_line(page, at, b"reads=", reads);
    let means = put_number_line(page, sums, b"sum=", sum);
    put_pair_line(page, means, b"mean=", mean.whole, mean.rest)
}

// The longest time, its tape and its file.
fn put_longest(page: &mut [u8], at: usize, time: u64, tape: &[u8], file: u64) -> usize
    requires at_in_bounds { at + 67 ≤ length page.old }
    requires tape_len_bound { length tape.now ≤ 16 }
    ensures { Wrote page.old at (longest_text time tape.now file) 67 page.new result }
{
    let value = put(page, at, b"longest=");
    let comma = put_number(page, value, time);
    let name = put(page, comma, b",");
    let end = put(page, name, tape);
    put_number_line(page, end, b",", file)
}

// What the plans save; and the lines of a refusal, where there is one.
fn put_end(page: &mut [u8], at: usize, saved: u64, verdict: Verdict) -> usize
    requires { at + 83 ≤ length page.old }
    ensures { Wrote page.old at (month_end saved verdict) 83 page.new result }
{
    let end = put_number_line(page, at, b"saved=", saved);
    if verdict.told().is_ok() {
        return end;
    }
    let kind = verdict.refusal;
    let place = put_number_line(page, end, b"refused=", refusals::number(kind));
    put_number_line(page, place, b"place=", verdict.place)
}

// So many letters of a tape's name, or all of them.
fn tape_of(tape: &[u8], letters: u64) -> &[u8]
    ensures { result.now ≡ take letters tape.now }
{
    let end = letters as usize;
    if end <= tape.len() {
        return &tape[..end];
    }
    tape
}

// The page of a month and a verdict on its input, in the first bytes of a row: how many they are. A row shorter than the page takes
// none of it, and the number is 0.
pub fn write_month(month: Month, verdict: Verdict, out: &mut [u8]) -> usize
    ensures { PagePut month verdict out.old result out.new }
{
    let runs = month.refused;
    let tape = month.tape;
    let name = tape_of(&tape, month.letters);
    let mut page = [0u8; 2048];
    let sums = put_top(&mut page, month.accepted, &runs);
    let longest = put_sums(&mut page, sums, month.reads, month.sum);
    let saved = put_longest(&mut page, longest, month.time, name, month.file);
    let bytes = put_end(&mut page, saved, month.saved, verdict);
    put(out, 0, &page[..bytes])
}
