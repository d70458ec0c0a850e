// answer_buys_any: from the bytes of a run sheet to the bytes of the figure sheet of its plan, with the head anywhere and in working room that is lent. For a
// program, which prints the answer, and for a caller, which gets a record. The way is that of answer_any with another text.
#![tactic(auto)]

ghost use Rattle.sheet_runs.specs.SheetRuns.{run_held};
ghost use Rattle.sheet_figures.specs.AnyHead.{FigureAnyWritten};
ghost use Rattle.answer_buys_any.specs.AnyBuys.{SheetBoughtAny, SheetFiguredAny};
ghost use Rattle.answer_buys_any.specs.Private.{FiguresOfList};

use answer_plan::PlannedList;
use sheet_runs::{SheetRun, entries};
use sheet_writer::Written;

// The figure sheet of a sheet's run and a list.
// Stays: as in answer_plan over another writer; one over a writer that is passed in names its eleven parameters in a bound and in a clause.
fn write_text(name: &[u8], run: SheetRun, froms: &[u64], tos: &[u64], out: &mut [u8]) -> Written
    ensures { FigureAnyWritten name.now (run_held run) froms.now tos.now out.old result out.new }
{
    let starts = run.starts;
    let lengths = run.lengths;
    let aggregates = run.aggregates;
    let numbers = run.numbers;
    let counts = run.counts;
    let head = run.head;
    let turn = run.turn;
    sheet_figures::write_figures_any(
        name,
        entries(&starts, run.files),
        entries(&lengths, run.files),
        entries(&aggregates, run.files),
        entries(&numbers, run.wants),
        entries(&counts, run.wants),
        head,
        turn,
        froms,
        tos,
        out,
    )
}

// The figure sheet of a list by value.
// Stays: as in answer_any over another writer; one over a writer that is passed in names its parameters in a bound and in a clause.
fn write_any(sheet: &[u8], run: SheetRun, list: PlannedList, out: &mut [u8]) -> Written
    ensures { FiguresOfList sheet.now run list out.old result out.new }
{
    let froms = list.froms;
    let tos = list.tos;
    write_text(
        sheet_reader::tape_name(sheet),
        run,
        entries(&froms, list.detours),
        entries(&tos, list.detours),
        out,
    )
}

// The answer to a sheet for a caller: a refusal with its place, or the figure sheet in the first bytes of a row. 8 comes last, as in answer_any.
// Stays: as in answer_any over another text; one over a writer that is passed in names its parameters in a bound and in a clause.
pub fn answer(sheet: &[u8], out: &mut [u8], room: &mut [u64]) -> Written
    ensures { SheetFiguredAny sheet.now out.old room.old result out.new room.new }
{
    let run = sheet_runs::read_run(sheet);
    let planned = answer_any::list_any(run, room);
    if let Err(verdict) = planned.verdict.told() {
        return sheet_writer::answer_to(verdict, 0);
    }
    write_any(sheet, run, planned, out)
}

// The answer to a sheet for a program, in the first bytes of a row: how many they are. A row shorter than the answer takes none of it, and the number is
// 0.
// Stays: as recall_any over another text; one over a writer that is passed in names its parameters in a bound and in a clause.
pub fn buys_any(sheet: &[u8], out: &mut [u8], room: &mut [u64]) -> u64
    ensures { SheetBoughtAny sheet.now out.old room.old result out.new room.new }
{
    let run = sheet_runs::read_run(sheet);
    let list = answer_any::list_any(run, room);
    if let Err(verdict) = list.verdict.told() {
        let lines = sheet_writer::write_refusal(verdict, out);
        return lines.bytes;
    }
    let text = write_any(sheet, run, list, out);
    text.bytes
}
