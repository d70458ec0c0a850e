// answer_plan: from the bytes of a run sheet to the bytes of the answer. For the program, which reads, calls this and writes.
// The way to an answer is a sheet's run, its list and a text; another engine or another text takes the place of one of these. It stands on the
// promises of the reader, of the planner and of the writers; the rows that they are lent are on its own stack.
#![tactic(auto)]

ghost use Rattle.runs.specs.Rows.{run_at};
ghost use Rattle.sheet_runs.specs.SheetRuns.{run_held};
ghost use Rattle.sheet_writer.specs.PlanSheet.{PlanWritten};
ghost use Rattle.answer_plan.specs.Recall.{run_checks, SheetRecalled};
ghost use Rattle.answer_plan.specs.PlannedLists.{RunListed, ListWritten};
ghost use Rattle.answer_plan.specs.Private.{RowsPlanned};

use refusals::Verdict;
use sheet_runs::{SheetRun, entries};
use sheet_writer::Written;

// A verdict, and a list where it accepts: so many entries of each row, and zeros behind them.
// Stays: `ListTold` in the promises reads verdict and entries of this record, zeros on a refusal, so that it is no Result. Rows of an array, since the
// record is copied, and the house works without a heap.
#[derive(Clone, Copy)]
pub struct PlannedList {
    pub verdict: Verdict,
    pub detours: u64,
    pub froms: [u64; 63],
    pub tos: [u64; 63],
}

// The plan of a run, with rows for as many wants as a run can have and 5,120 words of working room.
fn plan_rows(
    starts: &[u64],
    lengths: &[u64],
    aggregates: &[u64],
    numbers: &[u64],
    counts: &[u64],
    head: u64,
    turn: u64,
) -> PlannedList
    ensures { RowsPlanned (run_at starts lengths aggregates numbers counts head turn) result }
{
    let mut froms = [0u64; 63];
    let mut tos = [0u64; 63];
    let mut times = [0u64; 64];
    let mut legs = [0u64; 64];
    let mut room = [0u64; 5120];
    let plan = planner::plan(
        starts, lengths, aggregates, numbers, counts, head, turn, &mut froms, &mut tos, &mut times,
        &mut legs, &mut room,
    );
    let refusal = plan.refusal;
    let verdict = Verdict {
        refusal,
        place: plan.place,
    };
    PlannedList {
        verdict,
        detours: plan.detours,
        froms,
        tos,
    }
}

// The least list of a sheet's run.
pub fn list_run(run: SheetRun) -> PlannedList
    ensures { RunListed run_checks run result }
{
    if let Err(verdict) = run.verdict.told() {
        return PlannedList {
            verdict,
            detours: 0,
            froms: [0u64; 63],
            tos: [0u64; 63],
        };
    }
    let files = run.files;
    let wants = run.wants;
    let starts = run.starts;
    let lengths = run.lengths;
    let aggregates = run.aggregates;
    let numbers = run.numbers;
    let counts = run.counts;
    plan_rows(
        entries(&starts, files),
        entries(&lengths, files),
        entries(&aggregates, files),
        entries(&numbers, wants),
        entries(&counts, wants),
        run.head,
        run.turn,
    )
}

// The plan sheet of a sheet's run and a list.
fn write_text(name: &[u8], run: SheetRun, froms: &[u64], tos: &[u64], out: &mut [u8]) -> Written
    ensures { PlanWritten name.now (run_held run) froms.now tos.now out.old result out.new }
{
    let starts = run.starts;
    let lengths = run.lengths;
    let aggregates = run.aggregates;
    let numbers = run.numbers;
    let counts = run.counts;
    let head = run.head;
    let turn = run.turn;
    sheet_writer::write_plan(
        name,
        entries(&starts, run.files),
        entries(&lengths, run.files),
        entries(&aggregates, run.files),
        entries(&numbers, run.wants),
        entries(&counts, run.wants),
        head,
        turn,
        froms,
        tos,
        out,
    )
}

// The plan sheet of a list, or the two lines of its refusal, in the first bytes of a row: how many they are.
pub fn write_list(sheet: &[u8], run: SheetRun, list: PlannedList, out: &mut [u8]) -> u64
    ensures { ListWritten sheet.now run list out.old result out.new }
{
    if let Err(verdict) = list.verdict.told() {
        let lines = sheet_writer::write_refusal(verdict, out);
        return lines.bytes;
    }
    let froms = list.froms;
    let tos = list.tos;
    let text = write_text(
        sheet_reader::tape_name(sheet),
        run,
        entries(&froms, list.detours),
        entries(&tos, list.detours),
        out,
    );
    text.bytes
}

// The answer to a sheet, in the first bytes of a row: how many they are. A row shorter than the answer takes none of it, and the number is 0.
pub fn recall(sheet: &[u8], out: &mut [u8]) -> u64
    ensures { SheetRecalled sheet.now out.old result out.new }
{
    let run = sheet_runs::read_run(sheet);
    let list = list_run(run);
    write_list(sheet, run, list, out)
}
