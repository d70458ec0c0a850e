// answer_outcome: what the program answers to a run sheet, in numbers. For the month's page, which adds them up.
// It stands on the promises of the reader, of the planner and of the pricer; the rows that they are lent are on its own stack.
#![tactic(auto)]

ghost use Rattle.std.specs.Prelude.{◌≡◌, true, false, [], ◌++◌, ◌-◌, ◌≤◌, length, replicate};
ghost use Rattle.refusals.specs.Refusals.{is_refusal};
ghost use Rattle.runs.specs.Rows.{run_in, run_at};
ghost use Rattle.runs.specs.Judging.{judge_of};
ghost use Rattle.walk.specs.Price.{priced_answer};
ghost use Rattle.text_bytes.specs.Text.{is_name};
ghost use Rattle.answer_outcome.specs.Outcomes.{name_letters, name_in, longer, longest_of, refused_outcome, OutcomeOf};
ghost use Rattle.answer_outcome.specs.Private.{TimedPlan, RunOutcome};

use refusals::{Refusal, Verdict};
use sheet_runs::entries;
use walk::Answer;

// A run refused, or accepted with its reads, its sum, what its plan saves against the empty list, and its longest time, with the
// file and the tape: so many letters, and zeros behind them.
// Stays: one record and no Result, since NoNumbers in the promises reads every number of a refused run.
// Stays: a row of an array, since the record is copied, and the house works without a heap.
#[derive(Clone, Copy)]
pub struct Outcome {
    pub refusal: Refusal,
    pub reads: u64,
    pub sum: u64,
    pub saved: u64,
    pub time: u64,
    pub file: u64,
    pub letters: u64,
    pub tape: [u8; 16],
}

// A time and its file.
#[derive(Clone, Copy)]
pub struct Longest {
    pub time: u64,
    pub file: u64,
}

// A plan's answer, and a row with its times.
// Stays: rows of an array, since the record is copied, and the house works without a heap.
#[derive(Clone, Copy)]
struct Timed {
    plan: Answer,
    times: [u64; 64],
}

// A name of at most 16 letters, and zeros behind it.
fn letters_of(name: &[u8]) -> [u8; 16]
    requires { length name.now ≤ name_letters }
    ensures { result ≡ name_in name.now }
{
    let mut letters = [0u8; 16];
    letters[..name.len()].copy_from_slice(name);
    letters
}

// One time more: it takes the place of the longest so far where it is longer.
fn longer_of(most: Longest, file: u64, time: u64) -> Longest
    ensures { result ≡ longer most file time }
{
    if most.time < time {
        return Longest { time, file };
    }
    most
}

// The longest of some times, and its file; the first of those that share it.
pub fn longest_time(files: &[u64], times: &[u64]) -> Longest
    ensures { result ≡ longest_of files.now times.now }
{
    let mut most = Longest { time: 0, file: 0 };
    for (file, time) in files.iter().zip(times) {
        most = longer_of(most, *file, *time);
    }
    most
}

// The sum of a run with the empty list.
fn empty_sum(
    starts: &[u64],
    lengths: &[u64],
    aggregates: &[u64],
    numbers: &[u64],
    counts: &[u64],
    head: u64,
    turn: u64,
) -> u64
    requires { is_refusal (judge_of (run_in starts lengths aggregates numbers counts head turn)).refusal ≡ false }
    ensures { result ≡ (priced_answer (run_at starts lengths aggregates numbers counts head turn) []).sum }
{
    let list = [0u64; 0];
    let mut times = [0u64; 64];
    let mut legs = [0u64; 64];
    let price = walk::price(
        starts, lengths, aggregates, numbers, counts, head, turn, &list, &list, &mut times,
        &mut legs,
    );
    price.sum
}

// The plan of a run, with rows for as many wants as a run can have and 5,120 words of working room.
fn timed_plan(
    starts: &[u64],
    lengths: &[u64],
    aggregates: &[u64],
    numbers: &[u64],
    counts: &[u64],
    head: u64,
    turn: u64,
) -> Timed
    ensures { TimedPlan (run_at starts lengths aggregates numbers counts head turn) result }
{
    let mut froms = [0u64; 63];
    let mut tos = [0u64; 63];
    let mut times = [0u64; 64];
    let mut legs = [0u64; 64];
    let mut room = [0u64; 5120];
    let plan = planner::plan(
        starts, lengths, aggregates, numbers, counts, head, turn, &mut froms, &mut tos, &mut times,
        &mut legs, &mut room,
    );
    Timed { plan, times }
}

// A refusal, with every number 0.
fn refused_outcome(refusal: Refusal) -> Outcome
    ensures { result ≡ refused_outcome refusal }
{
    Outcome {
        refusal,
        reads: 0,
        sum: 0,
        saved: 0,
        time: 0,
        file: 0,
        letters: 0,
        tape: [0u8; 16],
    }
}

// The outcome of a run and a tape name.
fn run_outcome(
    name: &[u8],
    starts: &[u64],
    lengths: &[u64],
    aggregates: &[u64],
    numbers: &[u64],
    counts: &[u64],
    head: u64,
    turn: u64,
) -> Outcome
    requires { is_name name.now ≡ true }
    ensures { RunOutcome name.now (run_at starts lengths aggregates numbers counts head turn) result }
{
    let timed = timed_plan(starts, lengths, aggregates, numbers, counts, head, turn);
    let plan = timed.plan;
    let refusal = plan.refusal;
    let verdict = Verdict {
        refusal,
        place: plan.place,
    };
    if let Err(told) = verdict.told() {
        return refused_outcome(told.refusal);
    }
    let empty = empty_sum(starts, lengths, aggregates, numbers, counts, head, turn);
    let times = timed.times;
    let k = numbers.len();
    let most = longest_time(numbers, &times[..k]);
    Outcome {
        refusal: Refusal::Accepted,
        reads: runs::count_reads(counts),
        sum: plan.sum,
        saved: empty - plan.sum,
        time: most.time,
        file: most.file,
        letters: name.len() as u64,
        tape: letters_of(name),
    }
}

// The outcome of a sheet, whatever its bytes are.
pub fn sheet_outcome(sheet: &[u8]) -> Outcome
    ensures { OutcomeOf sheet.now result }
{
    let run = sheet_runs::read_run(sheet);
    if let Err(told) = run.verdict.told() {
        return refused_outcome(told.refusal);
    }
    let starts = run.starts;
    let lengths = run.lengths;
    let aggregates = run.aggregates;
    let numbers = run.numbers;
    let counts = run.counts;
    run_outcome(
        sheet_reader::tape_name(sheet),
        entries(&starts, run.files),
        entries(&lengths, run.files),
        entries(&aggregates, run.files),
        entries(&numbers, run.wants),
        entries(&counts, run.wants),
        run.head,
        run.turn,
    )
}
