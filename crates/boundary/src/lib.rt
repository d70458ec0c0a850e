// boundary: the pricer and the planner for programs in C, 01's and those for a head anywhere. Thin: judged and done by the crates below.
// include/violstream.h tells a C programmer the same in words; parameter order and meaning are fixed there.
#![tactic(auto)]

ghost use Rattle.std.specs.Prelude.{◌≡◌, List, ℕ, ◌+◌, ◌*◌, ◌≤◌, ◌<◌, length};
ghost use Rattle.refusals.specs.Refusals.{number_of};
ghost use Rattle.runs.specs.Rows.{run_at};
ghost use Rattle.runs.specs.Judging.{judge_of};
ghost use Rattle.walk.specs.Rows.{ReadRows, read_rows_before, read_rows_after};
ghost use Rattle.planner.specs.Rows.{rows_before, rows_after};
ghost use Rattle.boundary.specs.Boundary.{code_of, sums_with, price_call, PriceCalled, PlanCalled, price_any_call, PriceAnyCalled, PlanAnyCalled};
ghost use Rattle.boundary.specs.Private.{code_unless};

use walk::Answer;

// The one rule number that is planned by.
const LEAST_RULE: u64 = 1;

// An answer's code: 0, or a refusal's number plus 256 times its place.
fn code(a: Answer) -> u64
    requires { a.place ≤ 4096 }
    ensures { result ≡ number_of a.refusal + 256 * a.place }
{
    let kind = a.refusal;
    refusals::number(kind) + 256 * a.place
}

// The four words of an accepted answer.
fn fill_sums(a: Answer, sums: &mut [u64])
    requires { 4 ≤ length sums.old }
    ensures { sums.new ≡ sums_with a sums.old }
{
    sums[0] = a.sum;
    sums[1] = a.finish;
    sums[2] = a.end;
    sums[3] = a.detours;
}

// The code of a call whose row of sums is short: what comes before 8 is found by pricing into empty rows, where nothing is written.
fn short_price(
    starts: &[u64],
    lengths: &[u64],
    aggregates: &[u64],
    numbers: &[u64],
    counts: &[u64],
    head: u64,
    turn: u64,
    froms: &[u64],
    tos: &[u64],
) -> u64
    ensures { (rows : ReadRows) (sums : List ℕ) → length sums < 4 → result ≡ code_of (price_call (run_at starts lengths aggregates numbers counts head turn) froms.now tos.now rows sums) }
{
    let mut no_times = [0u64; 0];
    let mut no_legs = [0u64; 0];
    let a = walk::price(
        starts,
        lengths,
        aggregates,
        numbers,
        counts,
        head,
        turn,
        froms,
        tos,
        &mut no_times,
        &mut no_legs,
    );
    let found = code(a);
    if found == 0 {
        return 8;
    }
    found
}

#[unsafe(no_mangle)]
pub extern "C" fn violstream_price(
    starts: &[u64],
    lengths: &[u64],
    aggregates: &[u64],
    numbers: &[u64],
    counts: &[u64],
    head: u64,
    turn: u64,
    detour_starts: &[u64],
    detour_ends: &[u64],
    times: &mut [u64],
    legs: &mut [u64],
    sums: &mut [u64],
) -> u64
    ensures { PriceCalled (run_at starts lengths aggregates numbers counts head turn) detour_starts.now detour_ends.now (read_rows_before times legs) sums.old result (read_rows_after times legs) sums.new }
{
    if sums.len() < 4 {
        return short_price(
            starts,
            lengths,
            aggregates,
            numbers,
            counts,
            head,
            turn,
            detour_starts,
            detour_ends,
        );
    }
    let a = walk::price(
        starts,
        lengths,
        aggregates,
        numbers,
        counts,
        head,
        turn,
        detour_starts,
        detour_ends,
        times,
        legs,
    );
    let price = code(a);
    if price != 0 {
        return price;
    }
    fill_sums(a, sums);
    price
}

// The code of a call that is refused by its own number unless the run is refused first. A plan judges the run by itself.
fn refused_code(
    starts: &[u64],
    lengths: &[u64],
    aggregates: &[u64],
    numbers: &[u64],
    counts: &[u64],
    head: u64,
    turn: u64,
    number: u64,
) -> u64
    ensures { result ≡ code_unless (judge_of (run_at starts lengths aggregates numbers counts head turn)) number }
{
    match runs::judge(starts, lengths, aggregates, numbers, counts, head, turn) {
        Err(refusal) => code(walk::refuse(refusal)),
        Ok(()) => number,
    }
}

#[unsafe(no_mangle)]
pub extern "C" fn violstream_plan(
    starts: &[u64],
    lengths: &[u64],
    aggregates: &[u64],
    numbers: &[u64],
    counts: &[u64],
    head: u64,
    turn: u64,
    rule: u64,
    detour_starts: &mut [u64],
    detour_ends: &mut [u64],
    times: &mut [u64],
    legs: &mut [u64],
    sums: &mut [u64],
    room: &mut [u64],
) -> u64
    ensures { PlanCalled (run_at starts lengths aggregates numbers counts head turn) rule (rows_before detour_starts detour_ends times legs room) sums.old result (rows_after detour_starts detour_ends times legs room) sums.new }
{
    if rule != LEAST_RULE {
        return refused_code(starts, lengths, aggregates, numbers, counts, head, turn, 14);
    }
    if sums.len() < 4 {
        return refused_code(starts, lengths, aggregates, numbers, counts, head, turn, 8);
    }
    let a = planner::plan(
        starts,
        lengths,
        aggregates,
        numbers,
        counts,
        head,
        turn,
        detour_starts,
        detour_ends,
        times,
        legs,
        room,
    );
    let plan = code(a);
    if plan != 0 {
        return plan;
    }
    fill_sums(a, sums);
    plan
}

// The same for a head anywhere.
// Stays: as short_price over another pricer; one over a pricer that is passed in names its eleven parameters in a bound and in a clause.
fn short_price_any(
    starts: &[u64],
    lengths: &[u64],
    aggregates: &[u64],
    numbers: &[u64],
    counts: &[u64],
    head: u64,
    turn: u64,
    froms: &[u64],
    tos: &[u64],
) -> u64
    ensures { (rows : ReadRows) (sums : List ℕ) → length sums < 4 → result ≡ code_of (price_any_call (run_at starts lengths aggregates numbers counts head turn) froms.now tos.now rows sums) }
{
    let mut no_times = [0u64; 0];
    let mut no_legs = [0u64; 0];
    let a = walk::price_any(
        starts,
        lengths,
        aggregates,
        numbers,
        counts,
        head,
        turn,
        froms,
        tos,
        &mut no_times,
        &mut no_legs,
    );
    let found = code(a);
    if found == 0 {
        return 8;
    }
    found
}

#[unsafe(no_mangle)]
pub extern "C" fn violstream_price_any(
    starts: &[u64],
    lengths: &[u64],
    aggregates: &[u64],
    numbers: &[u64],
    counts: &[u64],
    head: u64,
    turn: u64,
    detour_starts: &[u64],
    detour_ends: &[u64],
    times: &mut [u64],
    legs: &mut [u64],
    sums: &mut [u64],
) -> u64
    ensures { PriceAnyCalled (run_at starts lengths aggregates numbers counts head turn) detour_starts.now detour_ends.now (read_rows_before times legs) sums.old result (read_rows_after times legs) sums.new }
{
    if sums.len() < 4 {
        return short_price_any(
            starts,
            lengths,
            aggregates,
            numbers,
            counts,
            head,
            turn,
            detour_starts,
            detour_ends,
        );
    }
    let a = walk::price_any(
        starts,
        lengths,
        aggregates,
        numbers,
        counts,
        head,
        turn,
        detour_starts,
        detour_ends,
        times,
        legs,
    );
    let priced = code(a);
    if priced != 0 {
        return priced;
    }
    fill_sums(a, sums);
    priced
}

#[unsafe(no_mangle)]
pub extern "C" fn violstream_plan_any(
    starts: &[u64],
    lengths: &[u64],
    aggregates: &[u64],
    numbers: &[u64],
    counts: &[u64],
    head: u64,
    turn: u64,
    detour_starts: &mut [u64],
    detour_ends: &mut [u64],
    times: &mut [u64],
    legs: &mut [u64],
    sums: &mut [u64],
    room: &mut [u64],
) -> u64
    ensures { PlanAnyCalled (run_at starts lengths aggregates numbers counts head turn) (rows_before detour_starts detour_ends times legs room) sums.old result (rows_after detour_starts detour_ends times legs room) sums.new }
{
    if sums.len() < 4 {
        let lifted = runs::lift_head(head);
        return refused_code(
            starts, lengths, aggregates, numbers, counts, lifted, turn, 8,
        );
    }
    let a = planner::plan_any(
        starts,
        lengths,
        aggregates,
        numbers,
        counts,
        head,
        turn,
        detour_starts,
        detour_ends,
        times,
        legs,
        room,
    );
    let planned = code(a);
    if planned != 0 {
        return planned;
    }
    fill_sums(a, sums);
    planned
}
