// The plan sheet writer: it prices the list that it is given, and writes what the pricer answers. The head may stand anywhere; 01's sheet is the one
// of a run whose head 01 accepts.
ghost use Rattle.std.specs.Prelude.{◌≡◌, not, [], ◌∷◌, ◌≤◌, length};
ghost use Rattle.refusals.specs.declared.Refusal.TheVariants.{BadName};
ghost use Rattle.refusals.specs.Refusals.{checked, refuse_if, first_of};
ghost use Rattle.runs.specs.AnyHead.{judge_any_of};
ghost use Rattle.runs.specs.Rows.{run_at};
ghost use Rattle.text_bytes.specs.Text.{is_name};
ghost use Rattle.text_pages.specs.Printing.{Wrote};
ghost use Rattle.sheet_writer.specs.PlanSheet.{plan_top, plan_lines, PlanWritten};
ghost use Rattle.sheet_writer.specs.AnyHead.{PlanAnyWritten};
ghost use Rattle.sheet_writer.specs.Private.{plan_most, PlanFits};

use crate::Written;
use crate::page::{answer_to, hand_out, judge_name, put_pairs, put_triples};
use refusals::Verdict;
use text_pages::{put_line, put_number_line};
use walk::Answer;

fn put_plan_top(page: &mut [u8], name: &[u8], reads: u64, answer: Answer) -> usize
    requires name_len_bound { length name.now ≤ 16 }
    requires in_bounds { 156 ≤ length page.old }
    ensures { Wrote page.old 0 (plan_top name.now reads answer) 156 page.new result }
{
    let sum_at = put_line(page, 0, b"tape=", name);
    let reads_at = put_number_line(page, sum_at, b"sum=", answer.sum);
    let finish_at = put_number_line(page, reads_at, b"reads=", reads);
    let end_at = put_number_line(page, finish_at, b"finish=", answer.finish);
    let detours_at = put_number_line(page, end_at, b"end=", answer.end);
    put_number_line(page, detours_at, b"detours=", answer.detours)
}

fn put_plan(
    page: &mut [u8],
    name: &[u8],
    reads: u64,
    answer: Answer,
    froms: &[u64],
    tos: &[u64],
    numbers: &[u64],
    times: &[u64],
    legs: &[u64],
) -> usize
    requires { PlanFits page.old name.now froms.now tos.now numbers.now times.now legs.now }
    ensures { Wrote page.old 0 (plan_lines name.now reads answer froms.now tos.now numbers.now times.now legs.now) plan_most page.new result }
{
    let detour_at = put_plan_top(page, name, reads, answer);
    let time_at = put_pairs(page, detour_at, b"detour=", froms, tos);
    put_triples(page, time_at, b"time=", numbers, times, legs)
}

// 1 to 7 for a head anywhere.
pub fn judge_any(
    starts: &[u64],
    lengths: &[u64],
    aggregates: &[u64],
    numbers: &[u64],
    counts: &[u64],
    head: u64,
    turn: u64,
) -> Result<(), Verdict>
    ensures { result ≡ checked (judge_any_of (run_at starts lengths aggregates numbers counts head turn)) }
{
    let lifted = runs::lift_head(head);
    runs::judge(starts, lengths, aggregates, numbers, counts, lifted, turn)
}

// 1 to 7 for a head anywhere, then 13.
fn judge_plan(
    name: &[u8],
    starts: &[u64],
    lengths: &[u64],
    aggregates: &[u64],
    numbers: &[u64],
    counts: &[u64],
    head: u64,
    turn: u64,
) -> Result<(), Verdict>
    ensures { result ≡ checked (first_of (judge_any_of (run_at starts lengths aggregates numbers counts head turn) ∷ refuse_if (not (is_name name.now)) BadName ∷ [])) }
{
    let run = judge_any(starts, lengths, aggregates, numbers, counts, head, turn);
    judge_name(run, false, name)
}

// The plan sheet of a run with a head anywhere.
pub fn write_plan_any(
    name: &[u8],
    starts: &[u64],
    lengths: &[u64],
    aggregates: &[u64],
    numbers: &[u64],
    counts: &[u64],
    head: u64,
    turn: u64,
    froms: &[u64],
    tos: &[u64],
    out: &mut [u8],
) -> Written
    ensures { PlanAnyWritten name.now (run_at starts lengths aggregates numbers counts head turn) froms.now tos.now out.old result out.new }
{
    let judged = judge_plan(
        name, starts, lengths, aggregates, numbers, counts, head, turn,
    );
    if let Err(refusal) = judged {
        return answer_to(refusal, 0);
    }
    let mut times = [0u64; 64];
    let mut legs = [0u64; 64];
    let answer = walk::price_any(
        starts, lengths, aggregates, numbers, counts, head, turn, froms, tos, &mut times, &mut legs,
    );
    let list = Verdict {
        refusal: answer.refusal,
        place: answer.place,
    };
    if let Err(refusal) = list.told() {
        return answer_to(refusal, 0);
    }
    let wants = numbers.len();
    let mut page = [0u8; 7644];
    let bytes = put_plan(
        &mut page,
        name,
        runs::count_reads(counts),
        answer,
        froms,
        tos,
        numbers,
        &times[..wants],
        &legs[..wants],
    );
    hand_out(&page[..bytes], out)
}

// The plan sheet of a run of 01: the head is judged by its 7, and then priced from as any.
// Stays: as write_figures does with another text; one over a writer that is passed in names its eleven parameters in a bound and in a clause.
pub fn write_plan(
    name: &[u8],
    starts: &[u64],
    lengths: &[u64],
    aggregates: &[u64],
    numbers: &[u64],
    counts: &[u64],
    head: u64,
    turn: u64,
    froms: &[u64],
    tos: &[u64],
    out: &mut [u8],
) -> Written
    ensures { PlanWritten name.now (run_at starts lengths aggregates numbers counts head turn) froms.now tos.now out.old result out.new }
{
    if let Err(refusal) = runs::judge(starts, lengths, aggregates, numbers, counts, head, turn) {
        return answer_to(refusal, 0);
    }
    write_plan_any(
        name, starts, lengths, aggregates, numbers, counts, head, turn, froms, tos, out,
    )
}
