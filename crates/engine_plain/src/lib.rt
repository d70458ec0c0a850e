// engine_plain: the plan of a run of at most eight wants without a table: each window of stops is asked for again whenever it is needed. It stands on the
// joining and on the pricer, and all is judged before the first write.
#![tactic(auto)]

ghost use Rattle.std.specs.Prelude.{◌≡◌};
ghost use Rattle.runs.specs.Rows.{run_at};
ghost use Rattle.engine_plain.specs.Plain.{PlainPlans, plain_rows_before, plain_rows_after};
ghost use Rattle.engine_plain.specs.Private.{comes_first, answer24, short_lengths, PlainLists, plain_rows_judged};

use crate::writing::write_list;
use refusals::{Refusal, Verdict};
use walk::Answer;

mod asking;
mod writing;

// The most wants, handed in, that are planned so.
pub const MOST_PLAIN_WANTS: usize = 8;

// Whether a refusal comes before 24: 1, 2 and 3.
fn comes_first(kind: Refusal) -> bool
    ensures { result ≡ comes_first kind }
{
    matches!(
        kind,
        Refusal::FileRows | Refusal::BadFile | Refusal::WantRows
    )
}

// The answer of a joining with 24 at its place, by the wants handed in.
fn with_24(joined: Result<usize, Verdict>, wants: usize) -> Result<usize, Verdict>
    ensures { result ≡ answer24 joined wants }
{
    if let Err(verdict) = joined {
        if comes_first(verdict.refusal) {
            return joined;
        }
    }
    Refusal::OverEightWants.when(MOST_PLAIN_WANTS < wants)?;
    joined
}

// Whether a row is too short for a plan of so many wants and stops.
fn short_rows(
    wants: usize,
    stops: usize,
    froms: usize,
    tos: usize,
    times: usize,
    legs: usize,
) -> bool
    ensures { result ≡ short_lengths wants stops froms tos times legs }
{
    let most = stops.saturating_sub(1);
    times < wants || legs < wants || froms < most || tos < most
}

// The least list of a run, after all that the engine judges: the number of its detours, or the first refusal that applies.
fn list(
    starts: &[u64],
    lengths: &[u64],
    aggregates: &[u64],
    numbers: &[u64],
    counts: &[u64],
    head: u64,
    turn: u64,
    froms: &mut [u64],
    tos: &mut [u64],
    times: &[u64],
    legs: &[u64],
) -> Result<usize, Verdict>
    ensures { PlainLists (run_at starts lengths aggregates numbers counts head turn) (plain_rows_judged froms tos times legs) result froms.exit.now tos.exit.now }
{
    let mut firsts = [0u64; 8];
    let mut lefts = [0u64; 8];
    let mut spans = [0u64; 8];
    let mut reads = [0u64; 8];
    let joined = engine_stops::join(
        starts,
        lengths,
        aggregates,
        numbers,
        counts,
        head,
        turn,
        &mut firsts,
        &mut lefts,
        &mut spans,
        &mut reads,
    );
    let k = with_24(joined, numbers.len())?;
    Refusal::ShortRow.when(short_rows(
        numbers.len(),
        k,
        froms.len(),
        tos.len(),
        times.len(),
        legs.len(),
    ))?;
    Ok(write_list(
        &firsts[..k],
        &lefts[..k],
        &spans[..k],
        &reads[..k],
        turn,
        froms,
        tos,
    ))
}

// The plan of a run: its answer, and in the lent rows the list, the times and the legs.
pub fn plan(
    starts: &[u64],
    lengths: &[u64],
    aggregates: &[u64],
    numbers: &[u64],
    counts: &[u64],
    head: u64,
    turn: u64,
    froms: &mut [u64],
    tos: &mut [u64],
    times: &mut [u64],
    legs: &mut [u64],
) -> Answer
    ensures { PlainPlans (run_at starts lengths aggregates numbers counts head turn) (plain_rows_before froms tos times legs) result (plain_rows_after froms tos times legs) }
{
    let listed = list(
        starts, lengths, aggregates, numbers, counts, head, turn, froms, tos, times, legs,
    );
    match listed {
        Ok(n) => walk::price(
            starts,
            lengths,
            aggregates,
            numbers,
            counts,
            head,
            turn,
            &froms[..n],
            &tos[..n],
            times,
            legs,
        ),
        Err(verdict) => walk::refuse(verdict),
    }
}
