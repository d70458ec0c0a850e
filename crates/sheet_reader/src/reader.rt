// The sheet reader: the whole sheet is judged first, and the rows are written after that.
ghost use Rattle.std.specs.Prelude.{◌≡◌, cond, ◌||◌, drop, ltb};
ghost use Rattle.refusals.specs.declared.Refusal.TheVariants.{RetiredRule};
ghost use Rattle.refusals.specs.Refusals.{checked, refuse_at};
ghost use Rattle.sheet_reader.specs.Reading.{sheet_verdict, refused_reading, run_rows, SheetRead, read_name, read_from, place_on};
ghost use Rattle.text_lines.specs.Lines.{first_in, middle_in, third_in, filled_row};
ghost use Rattle.sheet_reader.specs.Private.{TopFound, FilesAt, WantsAt, BelowFound, PartsFound, SheetFound, RunFound, TriplesReady};

use crate::top::{count_line, rule_line, tape_line, turn_line};
use crate::{LONGEST_SHEET, MOST_SHEET_FILES, Reading};
use refusals::{Refusal, Verdict};
use text_lines::{BadLine, fill_pairs, number_line, pair_lines, triple_line, triple_lines};

// The first five lines: their values, whether the rule is the retired one, where the name ends and where the next line starts.
// Stays: `sweep` says which of the two words the rule is; 19 asks for it when 12 and 11 are past, so that it is told beside the values.
#[derive(Clone, Copy)]
struct Top {
    end: usize,
    head: u64,
    turn: u64,
    sweep: bool,
    files: u64,
    next: usize,
}

// The lines below: the number of wants and where the first want line starts.
#[derive(Clone, Copy)]
struct Below {
    wants: u64,
    at: usize,
}

// All lines of a sheet.
#[derive(Clone, Copy)]
struct Parts {
    top: Top,
    below: Below,
}

fn read_top(sheet: &[u8]) -> Result<Top, BadLine>
    ensures { TopFound sheet.now result }
{
    let Some(name) = tape_line(sheet) else {
        return Err(BadLine { line: 1 });
    };
    let Some(head) = number_line(sheet, name.next, b"head=") else {
        return Err(BadLine { line: 2 });
    };
    let Some(turn) = turn_line(sheet, head.next) else {
        return Err(BadLine { line: 3 });
    };
    let Some(rule) = rule_line(sheet, turn.next) else {
        return Err(BadLine { line: 4 });
    };
    let Some(files) = count_line(sheet, rule.next, b"files=", MOST_SHEET_FILES) else {
        return Err(BadLine { line: 5 });
    };
    Ok(Top {
        end: name.end,
        head: head.number,
        turn: turn.number,
        sweep: rule.sweep,
        files: files.number,
        next: files.next,
    })
}

fn read_wants(sheet: &[u8], at: usize, files: u64) -> Result<Below, BadLine>
    requires { WantsAt sheet.now at files }
    ensures { BelowFound sheet.now result }
{
    let Some(wants) = count_line(sheet, at, b"wants=", runs::MOST_WANTS as u64) else {
        return Err(BadLine { line: files + 6 });
    };
    match pair_lines(sheet, wants.next, b"want=", wants.number) {
        Err(bad) => Err(BadLine {
            line: files + 6 + bad.line,
        }),
        Ok(end) if end < sheet.len() => Err(BadLine {
            line: files + wants.number + 7,
        }),
        Ok(_) => Ok(Below {
            wants: wants.number,
            at: wants.next,
        }),
    }
}

fn read_below(sheet: &[u8], at: usize, files: u64) -> Result<Below, BadLine>
    requires { FilesAt sheet.now at files }
    ensures { BelowFound sheet.now result }
{
    match triple_lines(sheet, at, b"file=", files) {
        Err(bad) => Err(BadLine { line: 5 + bad.line }),
        Ok(next) => read_wants(sheet, next, files),
    }
}

fn read_parts(sheet: &[u8]) -> Result<Parts, BadLine>
    ensures { PartsFound sheet.now result }
{
    let top = read_top(sheet)?;
    let below = read_below(sheet, top.next, top.files)?;
    Ok(Parts { top, below })
}

// 12 and 11: the sheet's parts, or what refuses it.
fn judge_sheet(sheet: &[u8]) -> Result<Parts, Verdict>
    ensures { SheetFound sheet.now result }
{
    Refusal::LongSheet.when(LONGEST_SHEET < sheet.len())?;
    match read_parts(sheet) {
        Ok(parts) => Ok(parts),
        Err(bad) => Err(Verdict {
            refusal: Refusal::BadLine,
            place: bad.line,
        }),
    }
}

// 19 where the rule's line, the fourth, names the retired rule.
fn judge_rule(sweep: bool) -> Result<(), Verdict>
    ensures { result ≡ checked (refuse_at (cond sweep 4 0) RetiredRule) }
{
    if sweep {
        return Refusal::RetiredRule.at(4);
    }
    Ok(())
}

// Whether one of the rows of these lengths is too short for the file or want lines.
fn has_short_row(
    parts: Parts,
    starts: usize,
    lengths: usize,
    aggregates: usize,
    numbers: usize,
    counts: usize,
) -> bool
    ensures { result ≡ ((ltb starts parts.top.files || ltb lengths parts.top.files) || ltb aggregates parts.top.files) || (ltb numbers parts.below.wants || ltb counts parts.below.wants) }
{
    let files = parts.top.files as usize;
    let wants = parts.below.wants as usize;
    (starts < files || lengths < files || aggregates < files) || (numbers < wants || counts < wants)
}

// 12 and 11, then 19, then 8 for rows of these lengths.
fn judge_run(
    sheet: &[u8],
    starts: usize,
    lengths: usize,
    aggregates: usize,
    numbers: usize,
    counts: usize,
) -> Result<Parts, Verdict>
    ensures { RunFound sheet.now starts lengths aggregates numbers counts result }
{
    let parts = judge_sheet(sheet)?;
    judge_rule(parts.top.sweep)?;
    let short = has_short_row(parts, starts, lengths, aggregates, numbers, counts);
    Refusal::ShortRow.when(short)?;
    Ok(parts)
}

// The numbers of lines already judged, into the first entries of three rows.
fn fill_triple(
    sheet: &[u8],
    at: usize,
    key: &[u8],
    count: u64,
    firsts: &mut [u64],
    seconds: &mut [u64],
    thirds: &mut [u64],
)
    requires { TriplesReady key.now sheet.now at count firsts.old seconds.old thirds.old }
    ensures firsts_after { firsts.new ≡ filled_row (first_in key.now) (drop at sheet.now) count firsts.old }
    ensures seconds_after { seconds.new ≡ filled_row (middle_in key.now) (drop at sheet.now) count seconds.old }
    ensures thirds_after { thirds.new ≡ filled_row (third_in key.now) (drop at sheet.now) count thirds.old }
{
    let mut next = at;
    for i in 0..count as usize {
        let Some(line) = triple_line(sheet, next, key) else {
            return;
        };
        firsts[i] = line.first;
        seconds[i] = line.second;
        thirds[i] = line.third;
        next = line.next;
    }
}

// A refusal's answer: every number but the place is 0.
fn unread(verdict: Verdict) -> Reading
    ensures { result ≡ refused_reading verdict }
{
    Reading {
        refusal: verdict.refusal,
        place: verdict.place,
        head: 0,
        turn: 0,
        files: 0,
        wants: 0,
    }
}

pub fn read_sheet(
    sheet: &[u8],
    starts: &mut [u64],
    lengths: &mut [u64],
    aggregates: &mut [u64],
    numbers: &mut [u64],
    counts: &mut [u64],
) -> Reading
    ensures { SheetRead sheet.now (run_rows starts.old lengths.old aggregates.old numbers.old counts.old) result (run_rows starts.new lengths.new aggregates.new numbers.new counts.new) }
{
    let judged = judge_run(
        sheet,
        starts.len(),
        lengths.len(),
        aggregates.len(),
        numbers.len(),
        counts.len(),
    );
    match judged {
        Err(refusal) => unread(refusal),
        Ok(Parts { top, below }) => {
            fill_triple(
                sheet, top.next, b"file=", top.files, starts, lengths, aggregates,
            );
            fill_pairs(sheet, below.at, b"want=", below.wants, numbers, counts);
            Reading {
                refusal: Refusal::Accepted,
                place: 0,
                head: top.head,
                turn: top.turn,
                files: top.files,
                wants: below.wants,
            }
        }
    }
}

// 12 and 11, for those who ask no more of a sheet.
pub fn judge(sheet: &[u8]) -> Result<(), Verdict>
    ensures { result ≡ checked (sheet_verdict sheet.now) }
{
    judge_sheet(sheet)?;
    Ok(())
}

// The part of the sheet that holds the tape name; an empty part where 12 or 11 applies, and with 19 the name.
pub fn tape_name(sheet: &[u8]) -> &[u8]
    ensures result_value { result.now ≡ read_name sheet.now }
    ensures ref_ptr_value { result.ref_ptr ≡ place_on (read_from sheet.now) sheet.entry.ref_ptr }
{
    match judge_sheet(sheet) {
        Err(_) => &sheet[..0],
        Ok(parts) => &sheet[5..parts.top.end],
    }
}
