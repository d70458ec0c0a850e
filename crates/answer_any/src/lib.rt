// answer_any: from the bytes of a run sheet to the bytes of the answer, with the head anywhere and in working room that is lent. For a program, which
// prints the answer, and for a caller, which gets a record. Both go one way: a sheet's run, its list and a text.
// It stands on the promises of the reader, of the planner and of the writers; the rows that they are lent, but for the room, are on its own stack.
#![tactic(auto)]

ghost use Rattle.runs.specs.Rows.{run_at};
ghost use Rattle.sheet_runs.specs.SheetRuns.{run_held};
ghost use Rattle.sheet_writer.specs.AnyHead.{PlanAnyWritten};
ghost use Rattle.answer_any.specs.AnyRun.{SheetRecalledAny, SheetAnswered};
ghost use Rattle.answer_any.specs.AnyLists.{RunListedAny, TextOfList};
ghost use Rattle.answer_any.specs.Private.{RowsPlanned};

use answer_plan::PlannedList;
use refusals::Verdict;
use sheet_runs::{SheetRun, entries};
use sheet_writer::Written;

// The plan of a run, with rows for as many wants as a run can have.
// Stays: as in answer_plan with a planner of other parameters, so that no bound holds both.
fn plan_rows(
    starts: &[u64],
    lengths: &[u64],
    aggregates: &[u64],
    numbers: &[u64],
    counts: &[u64],
    head: u64,
    turn: u64,
    room: &mut [u64],
) -> PlannedList
    ensures { RowsPlanned (run_at starts lengths aggregates numbers counts head turn) room.old result room.new }
{
    let mut froms = [0u64; 63];
    let mut tos = [0u64; 63];
    let mut times = [0u64; 64];
    let mut legs = [0u64; 64];
    let plan = planner::plan_any(
        starts, lengths, aggregates, numbers, counts, head, turn, &mut froms, &mut tos, &mut times,
        &mut legs, room,
    );
    let refusal = plan.refusal;
    let verdict = Verdict {
        refusal,
        place: plan.place,
    };
    PlannedList {
        verdict,
        detours: plan.detours,
        froms,
        tos,
    }
}

// The least list of a sheet's run.
// Stays: as in answer_plan over another planner; one over a planner that is passed in names its parameters in a bound and in a clause.
pub fn list_any(run: SheetRun, room: &mut [u64]) -> PlannedList
    ensures { RunListedAny run room.old result room.new }
{
    if let Err(verdict) = run.verdict.told() {
        return PlannedList {
            verdict,
            detours: 0,
            froms: [0u64; 63],
            tos: [0u64; 63],
        };
    }
    let files = run.files;
    let wants = run.wants;
    let starts = run.starts;
    let lengths = run.lengths;
    let aggregates = run.aggregates;
    let numbers = run.numbers;
    let counts = run.counts;
    plan_rows(
        entries(&starts, files),
        entries(&lengths, files),
        entries(&aggregates, files),
        entries(&numbers, wants),
        entries(&counts, wants),
        run.head,
        run.turn,
        room,
    )
}

// The plan sheet of a sheet's run and a list in two rows.
// Stays: as in answer_plan over another writer; one over a writer that is passed in names its eleven parameters in a bound and in a clause.
fn write_text(name: &[u8], run: SheetRun, froms: &[u64], tos: &[u64], out: &mut [u8]) -> Written
    ensures { PlanAnyWritten name.now (run_held run) froms.now tos.now out.old result out.new }
{
    let starts = run.starts;
    let lengths = run.lengths;
    let aggregates = run.aggregates;
    let numbers = run.numbers;
    let counts = run.counts;
    let head = run.head;
    let turn = run.turn;
    sheet_writer::write_plan_any(
        name,
        entries(&starts, run.files),
        entries(&lengths, run.files),
        entries(&aggregates, run.files),
        entries(&numbers, run.wants),
        entries(&counts, run.wants),
        head,
        turn,
        froms,
        tos,
        out,
    )
}

// The plan sheet of a list by value.
pub fn write_any(sheet: &[u8], run: SheetRun, list: PlannedList, out: &mut [u8]) -> Written
    ensures { TextOfList sheet.now run list out.old result out.new }
{
    let froms = list.froms;
    let tos = list.tos;
    write_text(
        sheet_reader::tape_name(sheet),
        run,
        entries(&froms, list.detours),
        entries(&tos, list.detours),
        out,
    )
}

// The answer to a sheet for a caller: a refusal with its place, or the plan sheet in the first bytes of a row. 8 comes last: the text's length is known
// when the plan is made, so a row too short for it leaves the room as the plan does.
pub fn answer(sheet: &[u8], out: &mut [u8], room: &mut [u64]) -> Written
    ensures { SheetAnswered sheet.now out.old room.old result out.new room.new }
{
    let run = sheet_runs::read_run(sheet);
    let planned = list_any(run, room);
    if let Err(verdict) = planned.verdict.told() {
        return sheet_writer::answer_to(verdict, 0);
    }
    write_any(sheet, run, planned, out)
}

// The answer to a sheet for a program, in the first bytes of a row: how many they are. A row shorter than the answer takes none of it, and the number is
// 0.
pub fn recall_any(sheet: &[u8], out: &mut [u8], room: &mut [u64]) -> u64
    ensures { SheetRecalledAny sheet.now out.old room.old result out.new room.new }
{
    let run = sheet_runs::read_run(sheet);
    let list = list_any(run, room);
    if let Err(verdict) = list.verdict.told() {
        let lines = sheet_writer::write_refusal(verdict, out);
        return lines.bytes;
    }
    let text = write_any(sheet, run, list, out);
    text.bytes
}
