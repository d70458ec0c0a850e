// The plan sheet of a list handed in.
ghost use Rattle.std.specs.Prelude.{◌≡◌, take};
ghost use Rattle.sheet_runs.specs.SheetRuns.{run_held};
ghost use Rattle.sheet_lists.specs.Form.{list_froms, list_tos};
ghost use Rattle.sheet_lists.specs.Reading.{list_form};
ghost use Rattle.answer_check.specs.Pricing.{SheetPriced};
ghost use Rattle.answer_check.specs.Private.{HandedIn, PricedList, judged_list};
ghost use Rattle.refusals.specs.Refusals.{checked};

use answer_plan::PlannedList;
use refusals::Verdict;
use sheet_runs::{SheetRun, entries};

// A list handed in, by value.
// Stays: as read_plan beside the verdict; one over a reader that is passed in needs a bound and a clause longer than this.
fn read_list(list: &[u8]) -> PlannedList
    ensures { HandedIn (list_form list.now) (list_froms list.now) (list_tos list.now) result }
{
    let mut froms = [0u64; 63];
    let mut tos = [0u64; 63];
    let read = sheet_lists::read_list(list, &mut froms, &mut tos);
    let verdict = read.verdict;
    PlannedList {
        verdict,
        detours: read.detours,
        froms,
        tos,
    }
}

// The sum of a run and a list, or their first refusal, by rows for as many wants as a run can have.
// Apart, so that its rows are on the stack once, and not below the verdict.
#[inline(never)]
pub(crate) fn priced(run: SheetRun, list: PlannedList) -> Result<u64, Verdict>
    ensures { PricedList (run_held run) (take list.detours list.froms) (take list.detours list.tos) result }
{
    let starts = run.starts;
    let lengths = run.lengths;
    let aggregates = run.aggregates;
    let numbers = run.numbers;
    let counts = run.counts;
    let froms = list.froms;
    let tos = list.tos;
    let mut times = [0u64; 64];
    let mut legs = [0u64; 64];
    let answer = walk::price_any(
        entries(&starts, run.files),
        entries(&lengths, run.files),
        entries(&aggregates, run.files),
        entries(&numbers, run.wants),
        entries(&counts, run.wants),
        run.head,
        run.turn,
        entries(&froms, list.detours),
        entries(&tos, list.detours),
        &mut times,
        &mut legs,
    );
    let refusal = answer.refusal;
    let verdict = Verdict {
        refusal,
        place: answer.place,
    };
    verdict.told()?;
    Ok(answer.sum)
}

// The first refusal of the run sheet, of the list's own form and of the pricer.
fn judged(run: SheetRun, list: PlannedList) -> Result<(), Verdict>
    ensures { result ≡ checked (judged_list run list) }
{
    run.verdict.told()?;
    list.verdict.told()?;
    priced(run, list)?;
    Ok(())
}

// The plan sheet of a run sheet and a list, in the first bytes of a row: how many they are. A row shorter than the answer takes none of it, and the
// number is 0.
pub fn price(sheet: &[u8], list: &[u8], out: &mut [u8]) -> u64
    ensures { SheetPriced sheet.now list.now out.old result out.new }
{
    let run = sheet_runs::read_run(sheet);
    let handed = read_list(list);
    if let Err(verdict) = judged(run, handed) {
        let lines = sheet_writer::write_refusal(verdict, out);
        return lines.bytes;
    }
    let text = answer_any::write_any(sheet, run, handed, out);
    text.bytes
}
