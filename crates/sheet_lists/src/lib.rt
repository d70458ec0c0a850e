// sheet_lists: the readers of a detour list and of a plan sheet handed in, whoever made them. For the pricing of a list and the checking of a plan sheet.
// What the words mean stands in specs/; each public function answers every input, and its contract gives the answer and both lent rows.
#![tactic(auto)]

ghost use Rattle.std.specs.Prelude.{◌≡◌, ◌||◌, ◌≤◌, length, drop, ltb};
ghost use Rattle.text_lines.specs.Lines.{is_pair_line, is_triple_line};
ghost use Rattle.runs.specs.Run.{most_wants};
ghost use Rattle.sheet_writer.specs.PlanSheet.{detour_key, time_key};
ghost use Rattle.sheet_lists.specs.Form.{most_detours, lines_in, lines_up_to, first_bad_to_end, detours_told, detour_text, plan_bad_line, list_detours, list_text, list_bad_line};
ghost use Rattle.sheet_lists.specs.Reading.{PlanRead, ListRead};
ghost use Rattle.sheet_lists.specs.Private.{TopFound, BelowAt, BelowFound, FormFound, FormWithin, ReadAs};

use refusals::{Refusal, Verdict};
use sheet_reader::tape_line;
use text_lines::{BadLine, fill_pairs, number_line, pair_lines, triple_lines};

// The limits of a list and of a plan sheet's times. Both are inclusive.
pub const MOST_DETOURS: u64 = 63;

pub const MOST_TIMES: u64 = 64;

// What a reader answers: on a refusal the number of detours is 0.
// Stays: `ListReaderAnswers` in the promises reads verdict and detours of this record, 0 on a refusal, so that it is no Result.
#[derive(Clone, Copy)]
pub struct ListReading {
    pub verdict: Verdict,
    pub detours: u64,
}

// The first six lines of a plan sheet: the number of detours and where the next line starts.
#[derive(Clone, Copy)]
struct Top {
    detours: u64,
    next: usize,
}

// Where the detour lines start and how many they are.
#[derive(Clone, Copy)]
struct Form {
    at: usize,
    detours: u64,
}

fn count_lines(text: &[u8]) -> u64
    ensures { result ≡ lines_in text.now }
{
    let mut lines: u64 = 0;
    for &byte in text {
        if byte == b'\n' {
            lines += 1;
        }
    }
    lines
}

fn lines_up_to(text: &[u8], most: u64) -> u64
    ensures { result ≡ lines_up_to most text.now }
{
    count_lines(text).min(most)
}

fn read_top(plan: &[u8]) -> Result<Top, BadLine>
    ensures { TopFound plan.now result }
{
    let Some(name) = tape_line(plan) else {
        return Err(BadLine { line: 1 });
    };
    let Some(sum) = number_line(plan, name.next, b"sum=") else {
        return Err(BadLine { line: 2 });
    };
    let Some(reads) = number_line(plan, sum.next, b"reads=") else {
        return Err(BadLine { line: 3 });
    };
    let Some(finish) = number_line(plan, reads.next, b"finish=") else {
        return Err(BadLine { line: 4 });
    };
    let Some(end) = number_line(plan, finish.next, b"end=") else {
        return Err(BadLine { line: 5 });
    };
    let Some(detours) = number_line(plan, end.next, b"detours=") else {
        return Err(BadLine { line: 6 });
    };
    if MOST_DETOURS < detours.number {
        return Err(BadLine { line: 6 });
    }
    Ok(Top {
        detours: detours.number,
        next: detours.next,
    })
}

// The first bad line of those from a position to the end, each of which must be a time's.
fn bad_time(plan: &[u8], at: usize) -> u64
    requires { at ≤ length plan.now }
    ensures { result ≡ first_bad_to_end (is_triple_line time_key) most_wants (drop at plan.now) }
{
    let times = lines_up_to(&plan[at..], MOST_TIMES);
    match triple_lines(plan, at, b"time=", times) {
        Err(bad) => bad.line,
        Ok(next) if next < plan.len() => times + 1,
        Ok(_) => 0,
    }
}

fn read_below(plan: &[u8], at: usize, detours: u64) -> Result<Form, BadLine>
    requires { BelowAt plan.now at detours }
    ensures { BelowFound plan.now result }
{
    match pair_lines(plan, at, b"detour=", detours) {
        Err(bad) => Err(BadLine { line: 6 + bad.line }),
        Ok(next) => {
            let line = bad_time(plan, next);
            if line != 0 {
                return Err(BadLine {
                    line: detours + 6 + line,
                });
            }
            Ok(Form { at, detours })
        }
    }
}

fn judge_plan(plan: &[u8]) -> Result<Form, BadLine>
    ensures { FormFound (plan_bad_line plan.now) (detours_told plan.now) (detour_text plan.now) plan.now result }
{
    let top = read_top(plan)?;
    read_below(plan, top.next, top.detours)
}

fn judge_bare(list: &[u8]) -> Result<Form, BadLine>
    ensures { FormFound (first_bad_to_end (is_pair_line detour_key) most_detours list.now) (lines_up_to most_detours list.now) list.now list.now result }
{
    let detours = lines_up_to(list, MOST_DETOURS);
    let next = pair_lines(list, 0, b"detour=", detours)?;
    if next < list.len() {
        return Err(BadLine { line: detours + 1 });
    }
    Ok(Form { at: 0, detours })
}

fn judge_list(list: &[u8]) -> Result<Form, BadLine>
    ensures { FormFound (list_bad_line list.now) (list_detours list.now) (list_text list.now) list.now result }
{
    if text_bytes::starts(list, b"tape=") {
        return judge_plan(list);
    }
    judge_bare(list)
}

// Whether one of two rows of these lengths is shorter than the list.
fn is_short(detours: u64, froms: usize, tos: usize) -> bool
    ensures { result ≡ ltb froms detours || ltb tos detours }
{
    (froms as u64) < detours || (tos as u64) < detours
}

// The answer to a form: its line refused by 11, a row too short by 8, or the list in the rows.
fn read_as(
    list: &[u8],
    form: Result<Form, BadLine>,
    froms: &mut [u64],
    tos: &mut [u64],
) -> ListReading
    requires { FormWithin list.now form }
    ensures { ReadAs list.now form froms.old tos.old result froms.new tos.new }
{
    match form {
        Err(bad) => ListReading {
            verdict: Verdict {
                refusal: Refusal::BadLine,
                place: bad.line,
            },
            detours: 0,
        },
        Ok(Form { at, detours }) => {
            let short = is_short(detours, froms.len(), tos.len());
            if let Err(refusal) = Refusal::ShortRow.when(short) {
                return ListReading {
                    verdict: refusal,
                    detours: 0,
                };
            }
            fill_pairs(list, at, b"detour=", detours, froms, tos);
            ListReading {
                verdict: Verdict::accepted(),
                detours,
            }
        }
    }
}

// The list of a plan sheet, in the first entries of two rows: 12, 11 and 8.
pub fn read_plan(plan: &[u8], froms: &mut [u64], tos: &mut [u64]) -> ListReading
    ensures { PlanRead plan.now froms.old tos.old result froms.new tos.new }
{
    if let Err(refusal) = Refusal::LongSheet.when(sheet_reader::LONGEST_SHEET < plan.len()) {
        return ListReading {
            verdict: refusal,
            detours: 0,
        };
    }
    read_as(plan, judge_plan(plan), froms, tos)
}

// The list of a plan sheet, or of lines of detours alone: 12, 11 and 8.
// Stays: two lines as in read_plan; one function over the judging that is passed in would be longer than both.
pub fn read_list(list: &[u8], froms: &mut [u64], tos: &mut [u64]) -> ListReading
    ensures { ListRead list.now froms.old tos.old result froms.new tos.new }
{
    if let Err(refusal) = Refusal::LongSheet.when(sheet_reader::LONGEST_SHEET < list.len()) {
        return ListReading {
            verdict: refusal,
            detours: 0,
        };
    }
    read_as(list, judge_list(list), froms, tos)
}
