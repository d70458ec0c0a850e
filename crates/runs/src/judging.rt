// Judging a run: refusals 1 to 7, in the order of the table.
ghost use Rattle.std.specs.Prelude.{◌≡◌, not, ◌||◌, ℕ, ◌+◌, ◌-◌, ◌≤◌, ◌<◌, List, length, get_or, eqb, ltb, leb};
ghost use Rattle.refusals.specs.Refusals.{checked, first_where, first_of};
ghost use Rattle.runs.specs.Run.{last_place, most_files, most_reads, joined, want_stops};
ghost use Rattle.runs.specs.Judging.{right_end};
ghost use Rattle.runs.specs.Alone.{alone_at, lone_stops};
ghost use Rattle.runs.specs.Rows.{run_at, counted_reads};
ghost use Rattle.runs.specs.Private.{SoundTable, InTable, earlier_of};
ghost use Rattle.runs.specs.Judging.{bad_place, bad_want, table_checks, wants_checks, head_checks, judge_of};
ghost use Rattle.runs.specs.Alone.{place_checks};

use crate::aggregates::{first_bad_number, last_member};
use crate::{HIGHEST_TURN, LAST_PLACE, MOST_FILES, MOST_READS, MOST_WANTS};
use refusals::{Refusal, Verdict};

// How much tape lies right of a place on it.
fn tape_right_of(place: u64) -> u64
    requires { place ≤ last_place }
    ensures { result ≡ last_place - place }
{
    LAST_PLACE - place
}

// A file's place against the end of the one before it. The end is compared by a difference, so that it cannot wrap.
fn bad_place(start: u64, size: u64, before: u64) -> bool
    ensures { result ≡ (eqb size 0 || ltb start before || ltb last_place (start + size)) }
{
    if size == 0 {
        return true;
    }
    if start < before {
        return true;
    }
    if LAST_PLACE < start {
        return true;
    }
    tape_right_of(start) < size
}

// The first file whose place is bad, counted from 1; 0 where there is none.
// Stays: a place and no Option, since first_where in the promise counts from 1 and says 0 for none.
fn first_bad_place(starts: &[u64], lengths: &[u64]) -> u64
    requires { length starts.now ≡ length lengths.now }
    ensures { result ≡ first_where (bad_place starts.now lengths.now) (length starts.now) }
{
    let mut before = 0;
    for (i, (start, length)) in starts.iter().zip(lengths).enumerate() {
        if bad_place(*start, *length, before) {
            return i as u64 + 1;
        }
        before = *start + *length;
    }
    0
}

// A want against the number before it.
fn bad_want(files: u64, number: u64, count: u64, before: u64) -> bool
    ensures { result ≡ (eqb number 0 || ltb files number || leb number before || eqb count 0) }
{
    if number == 0 {
        return true;
    }
    if files < number {
        return true;
    }
    if number <= before {
        return true;
    }
    count == 0
}

// The first bad want, counted from 1; 0 where there is none.
// Stays: a place and no Option, since first_where in the promise counts from 1 and says 0 for none.
fn first_bad_want(files: u64, numbers: &[u64], counts: &[u64]) -> u64
    requires { length numbers.now ≡ length counts.now }
    ensures { result ≡ first_where (bad_want files numbers.now counts.now) (length numbers.now) }
{
    let mut before = 0;
    for (i, (number, count)) in numbers.iter().zip(counts).enumerate() {
        if bad_want(files, *number, *count, before) {
            return i as u64 + 1;
        }
        before = *number;
    }
    0
}

const PAST_MOST_READS: u64 = MOST_READS + 1;

// Whether so many reads more pass the limit. A difference is compared, so that nothing can wrap.
fn passes_most(sum: u64, count: u64) -> bool
    requires { sum ≤ most_reads }
    ensures { result ≡ ltb (most_reads - sum) count }
{
    MOST_READS - sum < count
}

// The reads of a row of counts; one more than the limit where they pass it. The adding stops there.
pub fn count_reads(counts: &[u64]) -> u64
    ensures { result ≡ counted_reads counts.now }
{
    let mut sum = 0;
    for count in counts {
        if passes_most(sum, *count) {
            return PAST_MOST_READS;
        }
        sum += *count;
    }
    sum
}

// The end of the rightmost wanted file; 0 where nothing is wanted.
fn right_end(starts: &[u64], lengths: &[u64], numbers: &[u64]) -> u64
    requires sound_table { SoundTable starts.now lengths.now }
    requires by_index { (i : ℕ) → i < length numbers.now → InTable starts.now (get_or numbers.now i 0) }
    ensures { (cs : List ℕ) → length cs ≡ length numbers.now → result ≡ right_end (lone_stops starts.now lengths.now numbers.now cs) }
{
    let Some(last) = numbers.last() else {
        return 0;
    };
    let at = (*last - 1) as usize;
    starts[at] + lengths[at]
}

// The end of the rightmost wanted aggregate; 0 where nothing is wanted.
fn right_end_joined(starts: &[u64], lengths: &[u64], aggregates: &[u64], numbers: &[u64]) -> u64
    requires sound_table { SoundTable starts.now lengths.now }
    requires starts_len { length starts.now ≡ length aggregates.now }
    requires by_index { (i : ℕ) → i < length numbers.now → InTable starts.now (get_or numbers.now i 0) }
    ensures { (cs : List ℕ) → length cs ≡ length numbers.now → result ≡ right_end (joined (want_stops starts.now lengths.now aggregates.now numbers.now cs)) }
{
    let Some(last) = numbers.last() else {
        return 0;
    };
    let at = last_member(aggregates, (*last - 1) as usize);
    starts[at] + lengths[at]
}

// Whether two rows differ in length, or the first is longer than a limit.
fn uneven(first: usize, second: usize, most: usize) -> bool
    ensures { result ≡ (ltb most first || not (eqb first second)) }
{
    most < first || first != second
}

// The same of the table's three rows.
fn table_uneven(starts: usize, lengths: usize, aggregates: usize) -> bool
    ensures { result ≡ (ltb most_files starts || not (eqb starts lengths) || not (eqb starts aggregates)) }
{
    uneven(starts, lengths, MOST_FILES) || starts != aggregates
}

// Of two places found, the earlier; 0 is none.
// Stays: 0 and no Option here and where bad entries are looked for, since first_where in the promises counts so.
fn earlier(first: u64, second: u64) -> u64
    ensures { result ≡ earlier_of first second }
{
    match (first, second) {
        (0, place) | (place, 0) => place,
        _ => first.min(second),
    }
}

// 1 and 2, for files that lie in no aggregate.
fn judge_places(starts: &[u64], lengths: &[u64]) -> Result<(), Verdict>
    ensures { result ≡ checked (first_of (place_checks starts.now lengths.now)) }
{
    Refusal::FileRows.when(uneven(starts.len(), lengths.len(), MOST_FILES))?;
    Refusal::BadFile.at(first_bad_place(starts, lengths))
}

// 1 and 2.
fn judge_table(starts: &[u64], lengths: &[u64], aggregates: &[u64]) -> Result<(), Verdict>
    ensures { result ≡ checked (first_of (table_checks starts.now lengths.now aggregates.now)) }
{
    Refusal::FileRows.when(table_uneven(starts.len(), lengths.len(), aggregates.len()))?;
    let place = first_bad_place(starts, lengths);
    let number = first_bad_number(aggregates);
    Refusal::BadFile.at(earlier(place, number))
}

// 3, 4 and 5.
fn judge_wants(files: u64, numbers: &[u64], counts: &[u64]) -> Result<(), Verdict>
    ensures { result ≡ checked (first_of (wants_checks files numbers.now counts.now)) }
{
    Refusal::WantRows.when(uneven(numbers.len(), counts.len(), MOST_WANTS))?;
    Refusal::BadWant.at(first_bad_want(files, numbers, counts))?;
    Refusal::TooManyReads.when(MOST_READS < count_reads(counts))
}

// Whether the head stands off the tape, or left of the rightmost wanted end.
fn head_misplaced(head: u64, rightmost: u64) -> bool
    ensures { result ≡ (ltb last_place head || ltb head rightmost) }
{
    LAST_PLACE < head || head < rightmost
}

// 6 and 7.
fn judge_head(turn: u64, head: u64, rightmost: u64) -> Result<(), Verdict>
    ensures { result ≡ checked (first_of (head_checks turn head rightmost)) }
{
    Refusal::TurnPrice.when(HIGHEST_TURN < turn)?;
    Refusal::HeadPlace.when(head_misplaced(head, rightmost))
}

// The first refusal of 1 to 7 that applies to a run.
pub fn judge(
    starts: &[u64],
    lengths: &[u64],
    aggregates: &[u64],
    numbers: &[u64],
    counts: &[u64],
    head: u64,
    turn: u64,
) -> Result<(), Verdict>
    ensures { result ≡ checked (judge_of (run_at starts lengths aggregates numbers counts head turn)) }
{
    judge_table(starts, lengths, aggregates)?;
    judge_wants(starts.len() as u64, numbers, counts)?;
    judge_head(
        turn,
        head,
        right_end_joined(starts, lengths, aggregates, numbers),
    )
}

// The same for files that lie in no aggregate.
// Stays: beside judge, since one function over an optional row of aggregates would be no plainer.
pub fn judge_alone(
    starts: &[u64],
    lengths: &[u64],
    numbers: &[u64],
    counts: &[u64],
    head: u64,
    turn: u64,
) -> Result<(), Verdict>
    ensures { result ≡ checked (judge_of (alone_at starts lengths numbers counts head turn)) }
{
    judge_places(starts, lengths)?;
    judge_wants(starts.len() as u64, numbers, counts)?;
    judge_head(turn, head, right_end(starts, lengths, numbers))
}
