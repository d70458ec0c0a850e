// Aggregates: which entries of the table belong together, and which aggregate number is bad.
ghost use Rattle.std.specs.Prelude.{◌≡◌, not, ◌&&◌, ◌≤◌, ◌<◌, length, get_or, eqb};
ghost use Rattle.refusals.specs.Refusals.{first_where};
ghost use Rattle.runs.specs.Run.{goes_on, first_member, last_member};
ghost use Rattle.runs.specs.Lists.{any_below};
ghost use Rattle.runs.specs.Judging.{bad_number};
ghost use Rattle.runs.specs.Private.{Spanned};

use crate::MOST_AGGREGATES;

// Whether two numbers are of one aggregate; 0 is of none.
fn same_aggregate(before: u64, number: u64) -> bool
    ensures { result ≡ (not (eqb number 0) && eqb before number) }
{
    number != 0 && before == number
}

// Whether the entry at an index goes on with the one before it.
pub(crate) fn goes_on(aggregates: &[u64], i: usize) -> bool
    ensures { result ≡ goes_on aggregates.now i }
{
    if i == 0 {
        return false;
    }
    if aggregates.len() <= i {
        return false;
    }
    let before = aggregates[i - 1];
    let number = aggregates[i];
    same_aggregate(before, number)
}

// The index of the first entry of an entry's aggregate.
pub fn first_member(aggregates: &[u64], i: usize) -> usize
    ensures { result ≡ first_member aggregates.now i }
{
    let mut first = i;
    // Stays: a `for` from the right needs a return in its midst and an answer behind it that is never given, so that it is no plainer.
    while goes_on(aggregates, first) {
        first -= 1;
    }
    first
}

// The index of the last entry of an entry's aggregate.
pub fn last_member(aggregates: &[u64], i: usize) -> usize
    ensures { result ≡ last_member aggregates.now i }
{
    for last in i..aggregates.len() {
        if !goes_on(aggregates, last + 1) {
            return last;
        }
    }
    i
}

// Whether an entry before an index has a number. All of them are looked at, several in one step of the processor; an early end would take twice as long, since
// where the table is good no number is met.
fn met_before(aggregates: &[u64], number: u64, i: usize) -> bool
    requires { i ≤ length aggregates.now }
    ensures { result ≡ any_below (λ j. eqb (get_or aggregates.now j 0) number) i }
{
    aggregates[..i]
        .iter()
        .fold(false, |met, other| met | (*other == number))
}

// An entry's aggregate number. The entries before it are looked at only where a new number begins, between the bounds of those met.
fn bad_number(aggregates: &[u64], i: usize, low: u64, high: u64) -> bool
    requires i_in_bounds { i < length aggregates.now }
    requires spanned { Spanned aggregates.now low high i }
    ensures { result ≡ bad_number aggregates.now i }
{
    let number = aggregates[i];
    if MOST_AGGREGATES < number {
        return true;
    }
    if number == 0 {
        return false;
    }
    if goes_on(aggregates, i) {
        return false;
    }
    if number < low {
        return false;
    }
    if high < number {
        return false;
    }
    met_before(aggregates, number, i)
}

// The first file whose aggregate number is bad, counted from 1; 0 where there is none.
// Stays: a place and no Option, since first_where in the promise counts from 1 and says 0 for none.
pub(crate) fn first_bad_number(aggregates: &[u64]) -> u64
    ensures { result ≡ first_where (bad_number aggregates.now) (length aggregates.now) }
{
    let mut low = MOST_AGGREGATES;
    let mut high = 0;
    for (i, number) in aggregates.iter().enumerate() {
        if bad_number(aggregates, i, low, high) {
            return i as u64 + 1;
        }
        if *number != 0 {
            low = low.min(*number);
            high = high.max(*number);
        }
    }
    0
}
