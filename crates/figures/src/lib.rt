// figures: what each detour of a list buys, the sum without it less the sum with it.
// It stands on the pricer's promise alone: the list, and the list without one entry, are priced. The head may stand anywhere; 01's figures are those of
// a run whose head 01 accepts.
#![tactic(auto)]

ghost use Rattle.std.specs.Prelude.{◌≡◌, ◌++◌, ◌+◌, ◌-◌, ◌≤◌, ◌<◌, ◌^◌, length, drop, pos, ◌-ℤ◌};
ghost use Rattle.runs.specs.Rows.{run_in, run_at};
ghost use Rattle.runs.specs.Lists.{list_of};
ghost use Rattle.walk.specs.AnyHead.{priced_any_answer};
ghost use Rattle.figures.specs.Figures.{without, figures_answer, figures_row};
ghost use Rattle.figures.specs.AnyHead.{figures_any_of, figures_any_answer, figures_any_row};
ghost use Rattle.figures.specs.Private.{PriceableAny};

use refusals::{Refusal, Verdict, refused};
use walk::{Answer, price_any};

// A row without one entry, in the first entries of another.
fn leave_out(row: &[u64], i: usize, out: &mut [u64])
    requires i_in_bounds { i < length row.now }
    requires row_in_bounds { length row.now ≤ length out.old }
    ensures { out.new ≡ without i row.now ++ drop (length row.now - 1) out.old }
{
    let last = row.len() - 1;
    out[..i].copy_from_slice(&row[..i]);
    out[i..last].copy_from_slice(&row[i + 1..]);
}

// The sum of a list without one entry.
fn sum_without(
    starts: &[u64],
    lengths: &[u64],
    aggregates: &[u64],
    numbers: &[u64],
    counts: &[u64],
    head: u64,
    turn: u64,
    froms: &[u64],
    tos: &[u64],
    i: usize,
) -> u64
    requires priceable_any { PriceableAny (run_in starts lengths aggregates numbers counts head turn) froms.now tos.now }
    requires i_in_bounds { i < length froms.now }
    ensures { result ≡ (priced_any_answer (run_at starts lengths aggregates numbers counts head turn) (without i (list_of froms.now tos.now))).sum }
{
    let mut lefts = [0u64; 64];
    let mut rights = [0u64; 64];
    leave_out(froms, i, &mut lefts);
    leave_out(tos, i, &mut rights);
    let n = froms.len() - 1;
    let mut times = [0u64; 64];
    let mut legs = [0u64; 64];
    let answer = price_any(
        starts,
        lengths,
        aggregates,
        numbers,
        counts,
        head,
        turn,
        &lefts[..n],
        &rights[..n],
        &mut times,
        &mut legs,
    );
    answer.sum
}

// One sum less another, with its sign.
fn less(sum: u64, other: u64) -> i64
    requires { (sum < 2 ^ 58) × (other < 2 ^ 58) }
    ensures { result ≡ pos sum -ℤ pos other }
{
    sum as i64 - other as i64
}

// A figure for each entry, in the first entries of a row.
fn fill_figures(
    starts: &[u64],
    lengths: &[u64],
    aggregates: &[u64],
    numbers: &[u64],
    counts: &[u64],
    head: u64,
    turn: u64,
    froms: &[u64],
    tos: &[u64],
    sum: u64,
    row: &mut [i64],
)
    requires priceable_any { PriceableAny (run_in starts lengths aggregates numbers counts head turn) froms.now tos.now }
    requires sum_value { sum ≡ (priced_any_answer (run_in starts lengths aggregates numbers counts head turn) (list_of froms.now tos.now)).sum }
    requires froms_in_bounds { length froms.now ≤ length row.old }
    ensures { row.new ≡ figures_any_of (run_at starts lengths aggregates numbers counts head turn) (list_of froms.now tos.now) ++ drop (length froms.now) row.old }
{
    for i in 0..froms.len() {
        let left = sum_without(
            starts, lengths, aggregates, numbers, counts, head, turn, froms, tos, i,
        );
        row[i] = less(left, sum);
    }
}

// What each detour of a list buys with the head anywhere, and the list's price: refusals 1 to 7, 10 and 8.
pub fn figures_any(
    starts: &[u64],
    lengths: &[u64],
    aggregates: &[u64],
    numbers: &[u64],
    counts: &[u64],
    head: u64,
    turn: u64,
    froms: &[u64],
    tos: &[u64],
    row: &mut [i64],
) -> Answer
    ensures value { result ≡ figures_any_answer (run_at starts lengths aggregates numbers counts head turn) froms.now tos.now row.old }
    ensures row_after { row.new ≡ figures_any_row (run_at starts lengths aggregates numbers counts head turn) froms.now tos.now row.old }
{
    let mut times = [0u64; 64];
    let mut legs = [0u64; 64];
    let answer = price_any(
        starts, lengths, aggregates, numbers, counts, head, turn, froms, tos, &mut times, &mut legs,
    );
    if answer.refusal != Refusal::Accepted {
        return answer;
    }
    if row.len() < froms.len() {
        return walk::refuse(Verdict {
            refusal: Refusal::ShortRow,
            place: 0,
        });
    }
    fill_figures(
        starts, lengths, aggregates, numbers, counts, head, turn, froms, tos, answer.sum, row,
    );
    answer
}

// The same for a run of 01: the head is judged by its 7, and then priced from as any.
pub fn figures(
    starts: &[u64],
    lengths: &[u64],
    aggregates: &[u64],
    numbers: &[u64],
    counts: &[u64],
    head: u64,
    turn: u64,
    froms: &[u64],
    tos: &[u64],
    row: &mut [i64],
) -> Answer
    ensures value { result ≡ figures_answer (run_at starts lengths aggregates numbers counts head turn) froms.now tos.now row.old }
    ensures row_after { row.new ≡ figures_row (run_at starts lengths aggregates numbers counts head turn) froms.now tos.now row.old }
{
    let judged = runs::judge(starts, lengths, aggregates, numbers, counts, head, turn);
    if let Err(refusal) = judged {
        return walk::refuse(refusal);
    }
    figures_any(
        starts, lengths, aggregates, numbers, counts, head, turn, froms, tos, row,
    )
}
