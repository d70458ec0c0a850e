// The pricer: refusals 1 to 7, 10 and 8, then a time and a leg for each want, the sum, and where and when the walk ends.
// It holds nothing per leg or file: only the head and positions in the caller's rows. A head anywhere is priced by the same functions (any_head):
// a leg begins no further right than the head stood at first, which 01's never do.
ghost use Rattle.std.specs.Prelude.{◌≡◌, List, ◌++◌, ℕ, ◌-◌, ◌≤◌, ◌<◌, false, ◌&&◌, ◌||◌, length, get_or, drop, leb, ltb};
ghost use Rattle.runs.specs.Run.{goes_on, first_file, want_stops, total, stop_of, most_reads};
ghost use Rattle.runs.specs.Rows.{run_in, run_at};
ghost use Rattle.runs.specs.Lists.{list_of};
ghost use Rattle.walk.specs.Walk.{head_at, walked, times_of, legs_for, sum_of};
ghost use Rattle.walk.specs.Detours.{sweep_end};
ghost use Rattle.refusals.specs.Refusals.{checked};
ghost use Rattle.walk.specs.Price.{refusal_answer, price_verdict, price_answer, price_rows};
ghost use Rattle.walk.specs.AnyHead.{priced_any_answer, read_any_rows_with};
ghost use Rattle.walk.specs.Rows.{read_rows, read_rows_before, read_rows_after};
ghost use Rattle.runs.specs.Private.{InTable, want_stops_at};
ghost use Rattle.walk.specs.Private.{Tabled, RowsFit, WalkFits, Priceable, Behind, read_by_number, left_of, leg_start, right_of, row_legs, legs_in, legs_at, detours_at, leg_at, read_of};

use crate::{Answer, Head, Leg, Read};
use refusals::{Refusal, Verdict};
use runs::{first_member, judge, judge_list, last_member, smaller};

// Where a file's aggregate starts, at its first member, and where it ends, at its last.
pub(crate) fn extent_start(starts: &[u64], aggregates: &[u64], file: u64) -> u64
    requires { InTable starts.now file }
    ensures { result ≡ left_of starts.now aggregates.now file }
{
    let at = (file - 1) as usize;
    let first = first_member(aggregates, at);
    starts[first]
}

fn extent_end(starts: &[u64], lengths: &[u64], aggregates: &[u64], file: u64) -> u64
    requires tabled { Tabled starts.now lengths.now aggregates.now }
    requires in_table { InTable starts.now file }
    ensures { result ≡ right_of starts.now lengths.now aggregates.now file }
{
    let at = (file - 1) as usize;
    let last = last_member(aggregates, at);
    starts[last] + lengths[last]
}

// How many legs a list has: its detours, and the last sweep where anything is wanted.
fn leg_count(numbers: &[u64], froms: &[u64]) -> usize
    requires { length froms.now ≤ length numbers.now }
    ensures { (m : ℕ) (s l a tos : List ℕ) (reach : ℕ) → length froms.now ≡ length tos → result ≡ length (row_legs m s l a numbers.now froms.now tos reach) }
{
    if numbers.is_empty() {
        return 0;
    }
    froms.len() + 1
}

// A detour's leg: left to the start of one stop, no further right than the head stood at first, and right to the end of another. A stop is named by its
// first file.
fn detour_leg(
    starts: &[u64],
    lengths: &[u64],
    aggregates: &[u64],
    head: u64,
    from: u64,
    to: u64,
) -> Leg
    requires tabled { Tabled starts.now lengths.now aggregates.now }
    requires in_table { InTable starts.now from }
    requires from_value { goes_on aggregates.now (from - 1) ≡ false }
    requires in_table_2 { InTable starts.now to }
    ensures { result ≡ record { left = leg_start head starts.now aggregates.now from; right = right_of starts.now lengths.now aggregates.now to } }
{
    let left = smaller(starts[(from - 1) as usize], head);
    let right = extent_end(starts, lengths, aggregates, to);
    Leg { left, right }
}

// Whether two numbers lie between two others.
fn lie_between(left: u64, right: u64, start: u64, end: u64) -> bool
    ensures { result ≡ (leb left start && leb end right) }
{
    left <= start && end <= right
}

// Whether a leg's rightward run starts at or left of a file's start and ends at or right of its end.
fn reads_file(leg: Leg, start: u64, end: u64) -> bool
    ensures { result ≡ (leb leg.left start && leb end leg.right) }
{
    lie_between(leg.left, leg.right, start, end)
}

// Whether a detour reads the aggregate of a file of the table: those do that start at or left of its first file and end at or right of it.
fn detour_reads(aggregates: &[u64], froms: &[u64], tos: &[u64], file: u64) -> bool
    requires file_nonzero { 0 < file }
    requires froms_len { length froms.now ≡ length tos.now }
    ensures { result ≡ read_by_number froms.now tos.now (first_file aggregates.now file) }
{
    let at = (file - 1) as usize;
    let first = first_member(aggregates, at) as u64 + 1;
    froms
        .iter()
        .zip(tos)
        .any(|(from, to)| lie_between(*from, *to, first, first))
}

// Where the last sweep ends: at the end of the rightmost wanted aggregate that no detour reads, looked for from the right.
fn sweep_end(
    starts: &[u64],
    lengths: &[u64],
    aggregates: &[u64],
    numbers: &[u64],
    froms: &[u64],
    tos: &[u64],
) -> u64
    requires { RowsFit starts.now lengths.now aggregates.now numbers.now froms.now tos.now }
    ensures { (m : ℕ) (cs : List ℕ) → length cs ≡ length numbers.now → Behind m starts.now aggregates.now numbers.now froms.now → result ≡ sweep_end (detours_at m starts lengths aggregates froms tos) (want_stops starts.now lengths.now aggregates.now numbers.now cs) }
{
    let Some((first, later)) = numbers.split_first() else {
        return 0;
    };
    for file in later.iter().rev() {
        if !detour_reads(aggregates, froms, tos, *file) {
            return extent_end(starts, lengths, aggregates, *file);
        }
    }
    extent_end(starts, lengths, aggregates, *first)
}

// The last sweep: from the start of the leftmost wanted aggregate to its end.
fn sweep_leg(starts: &[u64], aggregates: &[u64], numbers: &[u64], head: u64, reach: u64) -> Leg
    requires by_index { (i : ℕ) → i < length numbers.now → InTable starts.now (get_or numbers.now i 0) }
    requires numbers_nonzero { 0 < length numbers.now }
    ensures { result ≡ record { left = leg_start head starts.now aggregates.now (get_or numbers.now 0 0); right = reach } }
{
    let left = smaller(extent_start(starts, aggregates, numbers[0]), head);
    Leg { left, right: reach }
}

// A leg of the walk, counted from 0: a detour, or the last sweep, which ends at `reach`.
fn leg_at(
    starts: &[u64],
    lengths: &[u64],
    aggregates: &[u64],
    numbers: &[u64],
    froms: &[u64],
    tos: &[u64],
    reach: u64,
    head: u64,
    i: usize,
) -> Leg
    requires rows_fit { RowsFit starts.now lengths.now aggregates.now numbers.now froms.now tos.now }
    requires i_in_bounds { i < length (legs_in head starts lengths aggregates numbers froms tos reach) }
    ensures { result ≡ leg_at (legs_at head starts lengths aggregates numbers froms tos reach) i }
{
    if i < froms.len() {
        return detour_leg(starts, lengths, aggregates, head, froms[i], tos[i]);
    }
    sweep_leg(starts, aggregates, numbers, head, reach)
}

// When the walk reads the aggregate of a file of the table, and in which leg: walk the legs until the one that reads it.
fn read_of(
    starts: &[u64],
    lengths: &[u64],
    aggregates: &[u64],
    numbers: &[u64],
    froms: &[u64],
    tos: &[u64],
    reach: u64,
    head: u64,
    turn: u64,
    file: u64,
    many: usize,
) -> Read
    requires walk_fits { WalkFits starts.now lengths.now aggregates.now numbers.now froms.now tos.now reach head turn many }
    requires in_table { InTable starts.now file }
    ensures { result ≡ read_of turn (head_at head) (legs_at head starts lengths aggregates numbers froms tos reach) (stop_of starts.now lengths.now aggregates.now file 0) }
{
    let start = extent_start(starts, aggregates, file);
    let end = extent_end(starts, lengths, aggregates, file);
    let mut h = Head::at(head);
    for i in 0..many {
        let leg = leg_at(
            starts, lengths, aggregates, numbers, froms, tos, reach, head, i,
        );
        let out = h.set_off(turn, leg);
        if reads_file(leg, start, end) {
            return Read {
                time: out.run_right(end).clock,
                leg: i as u64 + 1,
            };
        }
        h = out.run_right(leg.right);
    }
    Read { time: 0, leg: 0 }
}

// The head at the end of the walk.
fn walk_end(
    starts: &[u64],
    lengths: &[u64],
    aggregates: &[u64],
    numbers: &[u64],
    froms: &[u64],
    tos: &[u64],
    reach: u64,
    head: u64,
    turn: u64,
    many: usize,
) -> Head
    requires { WalkFits starts.now lengths.now aggregates.now numbers.now froms.now tos.now reach head turn many }
    ensures { result ≡ walked turn (head_at head) (legs_at head starts lengths aggregates numbers froms tos reach) }
{
    let mut h = Head::at(head);
    for i in 0..many {
        let leg = leg_at(
            starts, lengths, aggregates, numbers, froms, tos, reach, head, i,
        );
        h = h.set_off(turn, leg).run_right(leg.right);
    }
    h
}

// A time and a leg for each want into the first entries of the rows; the sum of count times time.
fn fill_reads(
    starts: &[u64],
    lengths: &[u64],
    aggregates: &[u64],
    numbers: &[u64],
    counts: &[u64],
    froms: &[u64],
    tos: &[u64],
    reach: u64,
    head: u64,
    turn: u64,
    many: usize,
    times: &mut [u64],
    legs: &mut [u64],
) -> u64
    requires walk_fits { WalkFits starts.now lengths.now aggregates.now numbers.now froms.now tos.now reach head turn many }
    requires counts_len { (length counts.now ≡ length numbers.now) × (total counts.now ≤ most_reads) }
    requires numbers_in_bounds { (length numbers.now ≤ length times.old) × (length numbers.now ≤ length legs.old) }
    ensures value { result ≡ sum_of turn (head_at head) (legs_at head starts lengths aggregates numbers froms tos reach) (want_stops_at starts lengths aggregates numbers counts) }
    ensures times_after { times.new ≡ times_of turn (head_at head) (legs_at head starts lengths aggregates numbers froms tos reach) (want_stops_at starts lengths aggregates numbers counts) ++ drop (length numbers.now) times.old }
    ensures legs_after { legs.new ≡ legs_for (legs_at head starts lengths aggregates numbers froms tos reach) (want_stops_at starts lengths aggregates numbers counts) ++ drop (length numbers.now) legs.old }
{
    let mut sum = 0;
    for (i, file) in numbers.iter().enumerate() {
        let read = read_of(
            starts, lengths, aggregates, numbers, froms, tos, reach, head, turn, *file, many,
        );
        times[i] = read.time;
        legs[i] = read.leg;
        sum += counts[i] * read.time;
    }
    sum
}

// Kind and place, and every other number 0.
fn answer_at(kind: Refusal, place: u64) -> Answer
    ensures { result ≡ refusal_answer (record { refusal = kind; place = place }) }
{
    Answer {
        refusal: kind,
        place,
        sum: 0,
        finish: 0,
        end: 0,
        detours: 0,
    }
}

// The answer of a refusal.
pub fn refuse(v: Verdict) -> Answer
    ensures { result ≡ refusal_answer v }
{
    answer_at(v.refusal, v.place)
}

// Whether a row for times or for legs has no entry for each want.
pub fn short_rows(wants: usize, times: usize, legs: usize) -> bool
    ensures { result ≡ (ltb times wants || ltb legs wants) }
{
    times < wants || legs < wants
}

// The walk of a judged list: its times and legs into the rows, its numbers into the answer.
pub(crate) fn priced(
    starts: &[u64],
    lengths: &[u64],
    aggregates: &[u64],
    numbers: &[u64],
    counts: &[u64],
    head: u64,
    turn: u64,
    froms: &[u64],
    tos: &[u64],
    times: &mut [u64],
    legs: &mut [u64],
) -> Answer
    requires priceable { Priceable (run_in starts lengths aggregates numbers counts head turn) froms.now tos.now }
    requires numbers_in_bounds { (length numbers.now ≤ length times.old) × (length numbers.now ≤ length legs.old) }
    ensures value { result ≡ priced_any_answer (run_at starts lengths aggregates numbers counts head turn) (list_of froms.now tos.now) }
    ensures legs_value { read_rows_after times legs ≡ read_any_rows_with (run_at starts lengths aggregates numbers counts head turn) (list_of froms.now tos.now) (read_rows_before times legs) }
{
    let reach = sweep_end(starts, lengths, aggregates, numbers, froms, tos);
    let many = leg_count(numbers, froms);
    let sum = fill_reads(
        starts, lengths, aggregates, numbers, counts, froms, tos, reach, head, turn, many, times,
        legs,
    );
    let last = walk_end(
        starts, lengths, aggregates, numbers, froms, tos, reach, head, turn, many,
    );
    Answer {
        refusal: Refusal::Accepted,
        place: 0,
        sum,
        finish: last.clock,
        end: last.place,
        detours: froms.len() as u64,
    }
}

// 1 to 7, 10 and 8: of a run, a list, and the rows lent for times and legs.
fn judge_price(
    starts: &[u64],
    lengths: &[u64],
    aggregates: &[u64],
    numbers: &[u64],
    counts: &[u64],
    head: u64,
    turn: u64,
    froms: &[u64],
    tos: &[u64],
    times: &[u64],
    legs: &[u64],
) -> Result<(), Verdict>
    ensures { result ≡ checked (price_verdict (run_at starts lengths aggregates numbers counts head turn) froms.now tos.now (read_rows times.now legs.now)) }
{
    judge(starts, lengths, aggregates, numbers, counts, head, turn)?;
    judge_list(aggregates, numbers, froms, tos)?;
    Refusal::ShortRow.when(short_rows(numbers.len(), times.len(), legs.len()))
}

// The price of a detour list for a run. All is judged before the first write.
// Stays: beside price_any, which judges otherwise; one over the judging that is passed in names its eleven parameters in a bound and in a clause.
pub fn price(
    starts: &[u64],
    lengths: &[u64],
    aggregates: &[u64],
    numbers: &[u64],
    counts: &[u64],
    head: u64,
    turn: u64,
    froms: &[u64],
    tos: &[u64],
    times: &mut [u64],
    legs: &mut [u64],
) -> Answer
    ensures value { result ≡ price_answer (run_at starts lengths aggregates numbers counts head turn) froms.now tos.now (read_rows_before times legs) }
    ensures legs_value { read_rows_after times legs ≡ price_rows (run_at starts lengths aggregates numbers counts head turn) froms.now tos.now (read_rows_before times legs) }
{
    let judged = judge_price(
        starts, lengths, aggregates, numbers, counts, head, turn, froms, tos, times, legs,
    );
    if let Err(refusal) = judged {
        return refuse(refusal);
    }
    priced(
        starts, lengths, aggregates, numbers, counts, head, turn, froms, tos, times, legs,
    )
}
