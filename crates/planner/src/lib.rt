// planner: the plan of a run. It stands on the promises of the joining, of the table engine and of the pricer: the least list over the
// run's stops, then that list's own price. All is judged before the first write. The head may stand anywhere; 01's plan is the one of a run whose
// head 01 accepts.
#![tactic(auto)]

ghost use Rattle.std.specs.Prelude.{◌≡◌, map, ◌++◌, ℕ, ◌≤◌, ◌<◌, length, get_or, take, drop};
ghost use Rattle.runs.specs.Run.{Run};
ghost use Rattle.runs.specs.Rows.{run_at};
ghost use Rattle.engine_table.specs.Listing.{list_rows_before, list_rows_after};
ghost use Rattle.planner.specs.Plan.{Plans};
ghost use Rattle.planner.specs.AnyHead.{PlansAny};
ghost use Rattle.planner.specs.Rows.{rows_before, rows_after};
ghost use Rattle.planner.specs.Private.{RunInRows, HoldsSome, first_file_in, ListsNamed, ListsAny, rows_judged};
ghost use Rattle.engine_stops.specs.Private.{count_up};

use refusals::{Refusal, Verdict};
use walk::Answer;

// The numbers from 1 on.
fn count_up(row: &mut [u64])
    ensures { row.new ≡ count_up 1 (length row.old) }
{
    for (i, number) in row.iter_mut().enumerate() {
        *number = i as u64 + 1;
    }
}

// The first entries of a row, files of the joined table, by their first files.
fn name_files(firsts: &[u64], row: &mut [u64], entries: usize)
    requires entries_in_bounds { entries ≤ length row.old }
    requires by_index { (i : ℕ) → i < entries → (0 < get_or row.old i 0) × (get_or row.old i 0 ≤ length firsts.now) }
    ensures { row.new ≡ map (first_file_in firsts.now) (take entries row.old) ++ drop entries row.old }
{
    for file in row[..entries].iter_mut() {
        *file = firsts[(*file - 1) as usize];
    }
}

// The least list of a run whose stops four rows hold: that of the joined table, by first files. Answers the number of its detours.
fn list_named(
    firsts: &[u64],
    lefts: &[u64],
    spans: &[u64],
    reads: &[u64],
    head: u64,
    turn: u64,
    froms: &mut [u64],
    tos: &mut [u64],
    room: &mut [u64],
) -> Result<usize, Verdict>
    requires { HoldsSome firsts.now lefts.now spans.now reads.now head turn }
    ensures { (r : Run) → RunInRows r firsts.now lefts.now spans.now reads.now head turn → ListsNamed r (list_rows_before froms tos room) result (list_rows_after froms tos room) }
{
    let mut numbers = [0u64; 64];
    count_up(&mut numbers);
    let k = firsts.len();
    let n = engine_table::list(
        lefts,
        spans,
        &numbers[..k],
        reads,
        head,
        turn,
        froms,
        tos,
        room,
    )?;
    name_files(firsts, froms, n);
    name_files(firsts, tos, n);
    Ok(n)
}

// The least list of a run with a head anywhere, after all that the planner judges: the number of its detours, or the first refusal that applies.
fn list_any(
    starts: &[u64],
    lengths: &[u64],
    aggregates: &[u64],
    numbers: &[u64],
    counts: &[u64],
    head: u64,
    turn: u64,
    froms: &mut [u64],
    tos: &mut [u64],
    times: &[u64],
    legs: &[u64],
    room: &mut [u64],
) -> Result<usize, Verdict>
    ensures { ListsAny (run_at starts lengths aggregates numbers counts head turn) (rows_judged froms tos times legs room) result (list_rows_after froms tos room) }
{
    let mut firsts = [0u64; 64];
    let mut lefts = [0u64; 64];
    let mut spans = [0u64; 64];
    let mut reads = [0u64; 64];
    let k = engine_stops::join(
        starts,
        lengths,
        aggregates,
        numbers,
        counts,
        runs::lift_head(head),
        turn,
        &mut firsts,
        &mut lefts,
        &mut spans,
        &mut reads,
    )?;
    Refusal::ShortRow.when(walk::short_rows(numbers.len(), times.len(), legs.len()))?;
    list_named(
        &firsts[..k],
        &lefts[..k],
        &spans[..k],
        &reads[..k],
        head,
        turn,
        froms,
        tos,
        room,
    )
}

// The plan of a run with a head anywhere: its answer, and in the lent rows the list, the times and the legs.
pub fn plan_any(
    starts: &[u64],
    lengths: &[u64],
    aggregates: &[u64],
    numbers: &[u64],
    counts: &[u64],
    head: u64,
    turn: u64,
    froms: &mut [u64],
    tos: &mut [u64],
    times: &mut [u64],
    legs: &mut [u64],
    room: &mut [u64],
) -> Answer
    ensures { PlansAny (run_at starts lengths aggregates numbers counts head turn) (rows_before froms tos times legs room) result (rows_after froms tos times legs room) }
{
    let listed = list_any(
        starts, lengths, aggregates, numbers, counts, head, turn, froms, tos, times, legs, room,
    );
    match listed {
        Ok(n) => walk::price_any(
            starts,
            lengths,
            aggregates,
            numbers,
            counts,
            head,
            turn,
            &froms[..n],
            &tos[..n],
            times,
            legs,
        ),
        Err(verdict) => walk::refuse(verdict),
    }
}

// The plan of a run of 01: the head is judged by its 7, and then planned from as any.
pub fn plan(
    starts: &[u64],
    lengths: &[u64],
    aggregates: &[u64],
    numbers: &[u64],
    counts: &[u64],
    head: u64,
    turn: u64,
    froms: &mut [u64],
    tos: &mut [u64],
    times: &mut [u64],
    legs: &mut [u64],
    room: &mut [u64],
) -> Answer
    ensures { Plans (run_at starts lengths aggregates numbers counts head turn) (rows_before froms tos times legs room) result (rows_after froms tos times legs room) }
{
    let judged = runs::judge(starts, lengths, aggregates, numbers, counts, head, turn);
    if let Err(refusal) = judged {
        return walk::refuse(refusal);
    }
    plan_any(
        starts, lengths, aggregates, numbers, counts, head, turn, froms, tos, times, legs, room,
    )
}
