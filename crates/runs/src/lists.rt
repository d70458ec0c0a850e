// Judging a detour list: refusal 10.
ghost use Rattle.std.specs.Prelude.{◌≡◌, List, ℕ, ◌-◌, ◌<◌, length};
ghost use Rattle.refusals.specs.Refusals.{checked, first_where};
ghost use Rattle.runs.specs.Run.{goes_on, joined, want_stops};
ghost use Rattle.runs.specs.Lists.{bad_after, list_verdict};
ghost use Rattle.runs.specs.Private.{last_file, some_between, row_named, row_alone, row_clash, row_bad};

use crate::aggregates::{goes_on, last_member};
use refusals::{Refusal, Verdict};

// Whether a number of a row lies between two.
fn any_between(numbers: &[u64], low: u64, high: u64) -> bool
    ensures { result ≡ some_between numbers.now low high }
{
    numbers
        .iter()
        .any(|number| low <= *number && *number <= high)
}

// Whether a file goes on with the one before it.
fn is_later_member(aggregates: &[u64], file: u64) -> bool
    ensures { result ≡ goes_on aggregates.now (file - 1) }
{
    if file == 0 {
        return false;
    }
    goes_on(aggregates, (file - 1) as usize)
}

// The last file of a file's aggregate.
fn last_file(aggregates: &[u64], file: u64) -> u64
    ensures { result ≡ last_file aggregates.now file }
{
    if file == 0 {
        return 0;
    }
    last_member(aggregates, (file - 1) as usize) as u64 + 1
}

// Whether a number names a stop: the first file of an aggregate of which a file is wanted.
fn names_stop(aggregates: &[u64], numbers: &[u64], file: u64) -> bool
    ensures { result ≡ row_named aggregates.now numbers.now file }
{
    if is_later_member(aggregates, file) {
        return false;
    }
    any_between(numbers, file, last_file(aggregates, file))
}

// An entry by itself. A first file is right of the leftmost stop's where it is right of the leftmost want.
fn bad_alone(aggregates: &[u64], numbers: &[u64], from: u64, to: u64) -> bool
    ensures { result ≡ row_alone aggregates.now numbers.now from to }
{
    if !names_stop(aggregates, numbers, from) {
        return true;
    }
    if !names_stop(aggregates, numbers, to) {
        return true;
    }
    if to < from {
        return true;
    }
    from <= numbers[0]
}

// An entry (from, to) against an earlier one.
fn bad_after(earlier_from: u64, earlier_to: u64, from: u64, to: u64) -> bool
    ensures { result ≡ bad_after (record { from = earlier_from; to = earlier_to }) (record { from = from; to = to }) }
{
    if earlier_from <= from {
        return true;
    }
    if to < earlier_from {
        return false;
    }
    to <= earlier_to
}

// An entry against all earlier ones.
fn clashes(froms: &[u64], tos: &[u64], i: usize) -> bool
    requires froms_len { length froms.now ≡ length tos.now }
    requires i_in_bounds { i < length froms.now }
    ensures { result ≡ row_clash froms.now tos.now i }
{
    for (earlier_from, earlier_to) in froms[..i].iter().zip(&tos[..i]) {
        if bad_after(*earlier_from, *earlier_to, froms[i], tos[i]) {
            return true;
        }
    }
    false
}

// The first entry that breaks a rule by itself or against an earlier one, counted from 1; 0 where none does.
// Stays: a place and no Option, since first_where in the promise counts from 1 and says 0 for none.
fn first_bad_entry(aggregates: &[u64], numbers: &[u64], froms: &[u64], tos: &[u64]) -> u64
    requires { length froms.now ≡ length tos.now }
    ensures { result ≡ first_where (row_bad aggregates.now numbers.now froms.now tos.now) (length froms.now) }
{
    for (i, (from, to)) in froms.iter().zip(tos).enumerate() {
        if bad_alone(aggregates, numbers, *from, *to) || clashes(froms, tos, i) {
            return i as u64 + 1;
        }
    }
    0
}

// 10, whatever the places of the files and the counts: place 0 where starts and ends differ in number.
pub fn judge_list(
    aggregates: &[u64],
    numbers: &[u64],
    froms: &[u64],
    tos: &[u64],
) -> Result<(), Verdict>
    ensures { (s l cs : List ℕ) → length cs ≡ length numbers.now → result ≡ checked (list_verdict (joined (want_stops s l aggregates.now numbers.now cs)) froms.now tos.now) }
{
    Refusal::BadEntry.when(froms.len() != tos.len())?;
    Refusal::BadEntry.at(first_bad_entry(aggregates, numbers, froms, tos))
}
