// The verdict on a plan sheet handed in.
ghost use Rattle.std.specs.Prelude.{◌≡◌, ◌≤◌, ◌&&◌, length, take};
ghost use Rattle.text_bytes.specs.Text.{is_text};
ghost use Rattle.sheet_runs.specs.SheetRuns.{run_held};
ghost use Rattle.sheet_reader.specs.Reading.{read_name};
ghost use Rattle.sheet_lists.specs.Form.{plan_froms, plan_tos};
ghost use Rattle.sheet_lists.specs.Reading.{plan_form};
ghost use Rattle.answer_check.specs.RunRules.{head_anywhere};
ghost use Rattle.answer_check.specs.Checking.{SheetChecked, CheckAnswered, VerdictOf};
ghost use Rattle.answer_check.specs.Private.{HandedIn, Checkable, PageOf, PlanChecked};

use crate::pricing::priced;
use crate::verdict::put_verdict;
use answer_plan::PlannedList;
use refusals::Verdict;
use sheet_runs::{SheetRun, entries};
use sheet_writer::Written;
use text_pages::put_number_line;

// No verdict's text is longer.
const MOST_VERDICT: usize = 24115;

// The list of a plan sheet handed in, by value.
// Apart, so that its rows are not on the stack below the walk and the planner.
#[inline(never)]
fn read_plan(plan: &[u8]) -> PlannedList
    ensures { HandedIn (plan_form plan.now) (plan_froms plan.now) (plan_tos plan.now) result }
{
    let mut froms = [0u64; 63];
    let mut tos = [0u64; 63];
    let read = sheet_lists::read_plan(plan, &mut froms, &mut tos);
    let verdict = read.verdict;
    PlannedList {
        verdict,
        detours: read.detours,
        froms,
        tos,
    }
}

// Whether a list is another one.
// Apart, so that its copies of both lists are not on the stack of the verdict.
#[inline(never)]
fn same_list(list: PlannedList, least: PlannedList) -> bool
    ensures { result ≡ (is_text (take least.detours least.froms) (take list.detours list.froms) && is_text (take least.detours least.tos) (take list.detours list.tos)) }
{
    entries(&least.froms, least.detours) == entries(&list.froms, list.detours)
        && entries(&least.tos, least.detours) == entries(&list.tos, list.detours)
}

// The verdict on a list that a plan sheet holds, and on that sheet, in the first bytes of a page.
// Apart, so that the sheet that is expected is not on the stack below the planner.
#[inline(never)]
fn put_list(
    page: &mut [u8],
    sheet: &[u8],
    run: SheetRun,
    list: PlannedList,
    least: PlannedList,
    plan: &[u8],
) -> usize
    requires checkable { Checkable (read_name sheet.now) (run_held run) plan.now list least }
    requires wide { 24115 ≤ length page.old }
    ensures { PageOf (VerdictOf head_anywhere (read_name sheet.now) (run_held run) plan.now (take list.detours list.froms) (take list.detours list.tos)) page.new result }
{
    let sum = match priced(run, list) {
        Ok(sum) => sum,
        Err(rules) => return put_number_line(page, 0, b"formed=no,", rules.place),
    };
    let best = priced(run, least).unwrap_or(0);
    let mut text = [0u8; 7644];
    let written = answer_any::write_any(sheet, run, list, &mut text);
    let bytes = written.bytes as usize;
    put_verdict(
        page,
        plan,
        &text[..bytes],
        same_list(list, least),
        sum - best,
    )
}

// The way that both go: the plan sheet's form is judged before the planner is lent the room. The verdict's text stands in the first bytes of a page.
fn checked(sheet: &[u8], plan: &[u8], page: &mut [u8], room: &mut [u64]) -> Result<usize, Verdict>
    requires { 24115 ≤ length page.old }
    ensures { PlanChecked sheet.now plan.now room.old result page.new room.new }
{
    let run = sheet_runs::read_run(sheet);
    run.verdict.told()?;
    let list = read_plan(plan);
    list.verdict.told()?;
    let least = answer_any::list_any(run, room);
    least.verdict.told()?;
    Ok(put_list(page, sheet, run, list, least, plan))
}

// The verdict on a plan sheet, for a run sheet, for a caller: a refusal with its place, or the verdict in the first bytes of a row. 8 comes last: the
// text's length is known when it is made, so a row too short for it leaves the room as the planner does.
pub fn check(sheet: &[u8], plan: &[u8], out: &mut [u8], room: &mut [u64]) -> Written
    ensures { CheckAnswered sheet.now plan.now out.old room.old result out.new room.new }
{
    let mut page = [0u8; MOST_VERDICT];
    match checked(sheet, plan, &mut page, room) {
        Ok(bytes) => sheet_writer::hand_out(&page[..bytes], out),
        Err(verdict) => sheet_writer::answer_to(verdict, 0),
    }
}

// The same for a program, in the first bytes of a row: how many they are, of a refusal those of its two lines. A row shorter than the answer takes
// none of it, and the number is 0.
pub fn check_text(sheet: &[u8], plan: &[u8], out: &mut [u8], room: &mut [u64]) -> u64
    ensures { SheetChecked sheet.now plan.now out.old room.old result out.new room.new }
{
    let mut page = [0u8; MOST_VERDICT];
    let answered = match checked(sheet, plan, &mut page, room) {
        Ok(bytes) => sheet_writer::hand_out(&page[..bytes], out),
        Err(verdict) => sheet_writer::write_refusal(verdict, out),
    };
    answered.bytes
}
