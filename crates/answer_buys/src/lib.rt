// answer_buys: from the bytes of a run sheet to the bytes of the figure sheet of its plan. For the program, which reads, calls this and writes.
// The way is that of answer_plan with another text.
#![tactic(auto)]

ghost use Rattle.sheet_runs.specs.SheetRuns.{run_held};
ghost use Rattle.sheet_figures.specs.FigureSheet.{FigureWritten};
ghost use Rattle.answer_plan.specs.PlannedLists.{WrittenBy};
ghost use Rattle.answer_buys.specs.Buys.{SheetBought};

use answer_plan::PlannedList;
use sheet_runs::{SheetRun, entries};
use sheet_writer::Written;

// The figure sheet of a sheet's run and a list.
// Stays: as in answer_plan over another writer; one over a writer that is passed in names its eleven parameters in a bound and in a clause.
fn write_text(name: &[u8], run: SheetRun, froms: &[u64], tos: &[u64], out: &mut [u8]) -> Written
    ensures { FigureWritten name.now (run_held run) froms.now tos.now out.old result out.new }
{
    let starts = run.starts;
    let lengths = run.lengths;
    let aggregates = run.aggregates;
    let numbers = run.numbers;
    let counts = run.counts;
    let head = run.head;
    let turn = run.turn;
    sheet_figures::write_figures(
        name,
        entries(&starts, run.files),
        entries(&lengths, run.files),
        entries(&aggregates, run.files),
        entries(&numbers, run.wants),
        entries(&counts, run.wants),
        head,
        turn,
        froms,
        tos,
        out,
    )
}

// The figure sheet of a list, or the two lines of its refusal, in the first bytes of a row: how many they are.
// Stays: as in answer_plan over another text; one over a writer that is passed in needs a record of what it leaves, which is longer.
fn write_list(sheet: &[u8], run: SheetRun, list: PlannedList, out: &mut [u8]) -> u64
    ensures { WrittenBy FigureWritten sheet.now run list out.old result out.new }
{
    if let Err(verdict) = list.verdict.told() {
        let lines = sheet_writer::write_refusal(verdict, out);
        return lines.bytes;
    }
    let froms = list.froms;
    let tos = list.tos;
    let text = write_text(
        sheet_reader::tape_name(sheet),
        run,
        entries(&froms, list.detours),
        entries(&tos, list.detours),
        out,
    );
    text.bytes
}

// The answer to a sheet, in the first bytes of a row: how many they are. A row shorter than the answer takes none of it, and the number is 0.
pub fn buys(sheet: &[u8], out: &mut [u8]) -> u64
    ensures { SheetBought sheet.now out.old result out.new }
{
    let run = sheet_runs::read_run(sheet);
    let list = answer_plan::list_run(run);
    write_list(sheet, run, list, out)
}
