// answer_field: from the bytes of a run sheet to the bytes of the answer, by the plain engine: for the field unit, which has no room to lend.
// The way is that of answer_plan with another engine; the rows that it is lent are on its own stack.
#![tactic(auto)]

ghost use Rattle.runs.specs.Rows.{run_at};
ghost use Rattle.answer_plan.specs.PlannedLists.{RunListed};
ghost use Rattle.answer_field.specs.Field.{field_checks, SheetFielded};
ghost use Rattle.answer_field.specs.Private.{RowsFielded};

use answer_plan::PlannedList;
use refusals::Verdict;
use sheet_runs::{SheetRun, entries};

// The plan of a run, with times and legs for eight wants.
// Stays: as in answer_plan with a planner of other parameters, so that no bound holds both.
fn plan_rows(
    starts: &[u64],
    lengths: &[u64],
    aggregates: &[u64],
    numbers: &[u64],
    counts: &[u64],
    head: u64,
    turn: u64,
) -> PlannedList
    ensures { RowsFielded (run_at starts lengths aggregates numbers counts head turn) result }
{
    let mut froms = [0u64; 63];
    let mut tos = [0u64; 63];
    let mut times = [0u64; 8];
    let mut legs = [0u64; 8];
    let plan = engine_plain::plan(
        starts, lengths, aggregates, numbers, counts, head, turn, &mut froms, &mut tos, &mut times,
        &mut legs,
    );
    let refusal = plan.refusal;
    let verdict = Verdict {
        refusal,
        place: plan.place,
    };
    PlannedList {
        verdict,
        detours: plan.detours,
        froms,
        tos,
    }
}

// The least list of a sheet's run.
// Stays: as in answer_plan over another planner; one over a planner that is passed in names its parameters in a bound and in a clause.
fn list_run(run: SheetRun) -> PlannedList
    ensures { RunListed field_checks run result }
{
    if let Err(verdict) = run.verdict.told() {
        return PlannedList {
            verdict,
            detours: 0,
            froms: [0u64; 63],
            tos: [0u64; 63],
        };
    }
    let files = run.files;
    let wants = run.wants;
    let starts = run.starts;
    let lengths = run.lengths;
    let aggregates = run.aggregates;
    let numbers = run.numbers;
    let counts = run.counts;
    plan_rows(
        entries(&starts, files),
        entries(&lengths, files),
        entries(&aggregates, files),
        entries(&numbers, wants),
        entries(&counts, wants),
        run.head,
        run.turn,
    )
}

// The answer to a sheet, in the first bytes of a row: how many they are. A row shorter than the answer takes none of it, and the number is 0.
pub fn field(sheet: &[u8], out: &mut [u8]) -> u64
    ensures { SheetFielded sheet.now out.old result out.new }
{
    let run = sheet_runs::read_run(sheet);
    let list = list_run(run);
    answer_plan::write_list(sheet, run, list, out)
}
