// The pricer for a head anywhere. Two things differ from 01's: 7 is only a head above the limit, and 10 also refuses a start right of the head's own
// stop, which is the first that starts at or right of the head.
ghost use Rattle.std.specs.Prelude.{◌≡◌, List, [], ◌∷◌, ℕ, ◌<◌, length, get_or, ltb};
ghost use Rattle.refusals.specs.declared.Verdict.{Verdict};
ghost use Rattle.refusals.specs.Refusals.{checked, first_of, first_where};
ghost use Rattle.runs.specs.Run.{joined, want_stops};
ghost use Rattle.runs.specs.Rows.{run_at};
ghost use Rattle.runs.specs.AnyHead.{list_verdict_any};
ghost use Rattle.runs.specs.Private.{InTable, earlier_of};
ghost use Rattle.walk.specs.AnyHead.{price_any_verdict, price_any_answer, price_any_rows};
ghost use Rattle.walk.specs.Rows.{read_rows, read_rows_before, read_rows_after};
ghost use Rattle.walk.specs.Private.{Ascending, own_name};

use crate::Answer;
use crate::pricing::{extent_start, priced, refuse, short_rows};
use refusals::{Refusal, Verdict};
use runs::{first_member, judge, judge_list, lift_head};

// Stays: the largest word and no Option, since own_name in the promise of own_stop has it.
const NO_NAME: u64 = u64::MAX;

// The name of the head's own stop; the largest word where there is none.
fn own_stop(starts: &[u64], aggregates: &[u64], numbers: &[u64], head: u64) -> u64
    requires { (i : ℕ) → i < length numbers.now → InTable starts.now (get_or numbers.now i 0) }
    ensures { (l cs : List ℕ) → length cs ≡ length numbers.now → result ≡ own_name head (want_stops starts.now l aggregates.now numbers.now cs) }
{
    for file in numbers {
        if head <= extent_start(starts, aggregates, *file) {
            return first_member(aggregates, (*file - 1) as usize) as u64 + 1;
        }
    }
    NO_NAME
}

// The entry found already, or an earlier one that starts right of a stop, counted from 1; 0 where there is neither.
// Stays: a place and no Option, since earlier_of and first_where in the promise count from 1 and say 0 for none.
fn first_past(froms: &[u64], own: u64, found: u64) -> u64
    ensures { result ≡ earlier_of found (first_where (λ i. ltb own (get_or froms.now i 0)) (length froms.now)) }
{
    for (i, from) in froms.iter().enumerate() {
        let place = i as u64 + 1;
        if place == found {
            return found;
        }
        if own < *from {
            return place;
        }
    }
    found
}

// The place of a refusal; 0 where there is none.
// Stays: a place and no Option, since the place of a verdict is one in the promise.
fn place_of(list: Result<(), Verdict>) -> u64
    ensures { (v : Verdict) → list ≡ checked (first_of (v ∷ [])) → result ≡ (first_of (v ∷ [])).place }
{
    match list {
        Ok(()) => 0,
        Err(refusal) => refusal.place,
    }
}

// 10 for a head anywhere.
fn judge_list_any(
    starts: &[u64],
    aggregates: &[u64],
    numbers: &[u64],
    head: u64,
    froms: &[u64],
    tos: &[u64],
) -> Result<(), Verdict>
    requires { (i : ℕ) → i < length numbers.now → InTable starts.now (get_or numbers.now i 0) }
    ensures { (l cs : List ℕ) → length cs ≡ length numbers.now → Ascending (joined (want_stops starts.now l aggregates.now numbers.now cs)) → result ≡ checked (list_verdict_any head (joined (want_stops starts.now l aggregates.now numbers.now cs)) froms.now tos.now) }
{
    let list = judge_list(aggregates, numbers, froms, tos);
    if froms.len() != tos.len() {
        return list;
    }
    let own = own_stop(starts, aggregates, numbers, head);
    Refusal::BadEntry.at(first_past(froms, own, place_of(list)))
}

// 1 to 7, 10 and 8 for a head anywhere.
fn judge_price_any(
    starts: &[u64],
    lengths: &[u64],
    aggregates: &[u64],
    numbers: &[u64],
    counts: &[u64],
    head: u64,
    turn: u64,
    froms: &[u64],
    tos: &[u64],
    times: &[u64],
    legs: &[u64],
) -> Result<(), Verdict>
    ensures { result ≡ checked (price_any_verdict (run_at starts lengths aggregates numbers counts head turn) froms.now tos.now (read_rows times.now legs.now)) }
{
    judge(
        starts,
        lengths,
        aggregates,
        numbers,
        counts,
        lift_head(head),
        turn,
    )?;
    judge_list_any(starts, aggregates, numbers, head, froms, tos)?;
    Refusal::ShortRow.when(short_rows(numbers.len(), times.len(), legs.len()))
}

// The price of a detour list for a run with a head anywhere. All is judged before the first write.
pub fn price_any(
    starts: &[u64],
    lengths: &[u64],
    aggregates: &[u64],
    numbers: &[u64],
    counts: &[u64],
    head: u64,
    turn: u64,
    froms: &[u64],
    tos: &[u64],
    times: &mut [u64],
    legs: &mut [u64],
) -> Answer
    ensures value { result ≡ price_any_answer (run_at starts lengths aggregates numbers counts head turn) froms.now tos.now (read_rows_before times legs) }
    ensures legs_value { read_rows_after times legs ≡ price_any_rows (run_at starts lengths aggregates numbers counts head turn) froms.now tos.now (read_rows_before times legs) }
{
    let judged = judge_price_any(
        starts, lengths, aggregates, numbers, counts, head, turn, froms, tos, times, legs,
    );
    if let Err(refusal) = judged {
        return refuse(refusal);
    }
    priced(
        starts, lengths, aggregates, numbers, counts, head, turn, froms, tos, times, legs,
    )
}
