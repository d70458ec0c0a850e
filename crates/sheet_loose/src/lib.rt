// sheet_loose: a run sheet as it comes by mail, before it is mended: its parts, its want lines as two rows, and 12 and 11 for what is not mended.
// For the mender, which sees only this contract. What the words mean stands in specs/.
#![tactic(auto)]

ghost use Rattle.std.specs.Prelude.{◌≤◌, ◌≡◌, ◌||◌, length, ltb};
ghost use Rattle.text_lines.specs.Lines.{is_pair_line, is_triple_line};
ghost use Rattle.sheet_reader.specs.Lines.{file_key, want_key};
ghost use Rattle.sheet_reader.specs.Sheet.{longest_sheet, most_sheet_files};
ghost use Rattle.sheet_loose.specs.Reading.{refused_parts, LooseRead};
ghost use Rattle.sheet_loose.specs.Private.{TopFound, BlockFound, WantsAt, BelowFound, LinesFound, PartsFound};

use refusals::{Refusal, Verdict};
use sheet_reader::{LONGEST_SHEET, MOST_SHEET_FILES, rule_line, tape_line, turn_line};
use text_lines::{BadLine, fill_pairs, number_line, pair_lines, triple_lines};

// The parts of a sheet: where its third line starts, the price, whether that is left out, and whether the rule is the retired one; how many file lines
// `files=` says, where they start and how many there are; where the `wants` line starts, how many want lines it says, where they start and how many
// there are. On a refusal every number is 0.
// Stays: `PartsTold` and `NoParts` in the promises read each number and flag of this record, 0 and false on a refusal, so that it is no Result.
#[derive(Clone, Copy)]
pub struct Parts {
    pub verdict: Verdict,
    pub third: usize,
    pub turn: u64,
    pub empty: bool,
    pub sweep: bool,
    pub listed: u64,
    pub table: usize,
    pub files: u64,
    pub tail: usize,
    pub asked: u64,
    pub body: usize,
    pub wants: u64,
}

// The first five lines.
// Stays: both flags are fields of `Parts`, which `PartsTold` in the promises reads as flags.
#[derive(Clone, Copy)]
struct Top {
    third: usize,
    turn: u64,
    empty: bool,
    sweep: bool,
    said: u64,
    next: usize,
}

// So many lines of one kind, and where the next line starts.
#[derive(Clone, Copy)]
struct Block {
    count: u64,
    next: usize,
}

// The `wants` line and the lines below it: what it says, where the first want line starts and how many there are.
#[derive(Clone, Copy)]
struct Below {
    said: u64,
    at: usize,
    wants: u64,
}

fn read_top(sheet: &[u8]) -> Result<Top, BadLine>
    ensures { TopFound sheet.now result }
{
    let Some(name) = tape_line(sheet) else {
        return Err(BadLine { line: 1 });
    };
    let Some(head) = number_line(sheet, name.next, b"head=") else {
        return Err(BadLine { line: 2 });
    };
    let Some(turn) = turn_line(sheet, head.next) else {
        return Err(BadLine { line: 3 });
    };
    let Some(rule) = rule_line(sheet, turn.next) else {
        return Err(BadLine { line: 4 });
    };
    let Some(files) = number_line(sheet, rule.next, b"files=") else {
        return Err(BadLine { line: 5 });
    };
    Ok(Top {
        third: head.next,
        turn: turn.number,
        empty: turn.next - head.next == 6,
        sweep: rule.sweep,
        said: files.number,
        next: files.next,
    })
}

// The file lines that come, up to 256.
fn file_lines(sheet: &[u8], at: usize) -> Block
    requires { at ≤ length sheet.now }
    ensures { BlockFound (is_triple_line file_key) most_sheet_files sheet.now at result }
{
    match triple_lines(sheet, at, b"file=", MOST_SHEET_FILES) {
        Ok(next) => Block {
            count: MOST_SHEET_FILES,
            next,
        },
        Err(bad) => match triple_lines(sheet, at, b"file=", bad.line - 1) {
            Ok(next) => Block {
                count: bad.line - 1,
                next,
            },
            Err(_) => Block { count: 0, next: at },
        },
    }
}

// The want lines that come. A sheet has fewer lines than bytes.
fn want_lines(sheet: &[u8], at: usize) -> Block
    requires { at ≤ length sheet.now }
    ensures { BlockFound (is_pair_line want_key) longest_sheet sheet.now at result }
{
    match pair_lines(sheet, at, b"want=", LONGEST_SHEET as u64) {
        Ok(next) => Block {
            count: LONGEST_SHEET as u64,
            next,
        },
        Err(bad) => match pair_lines(sheet, at, b"want=", bad.line - 1) {
            Ok(next) => Block {
                count: bad.line - 1,
                next,
            },
            Err(_) => Block { count: 0, next: at },
        },
    }
}

fn read_below(sheet: &[u8], at: usize, files: u64) -> Result<Below, BadLine>
    requires { WantsAt sheet.now at files }
    ensures { BelowFound sheet.now result }
{
    let Some(said) = number_line(sheet, at, b"wants=") else {
        return Err(BadLine { line: files + 6 });
    };
    let wants = want_lines(sheet, said.next);
    if wants.next < sheet.len() {
        return Err(BadLine {
            line: files + wants.count + 7,
        });
    }
    Ok(Below {
        said: said.number,
        at: said.next,
        wants: wants.count,
    })
}

fn refused_parts(verdict: Verdict) -> Parts
    ensures { result ≡ refused_parts verdict }
{
    Parts {
        verdict,
        third: 0,
        turn: 0,
        empty: false,
        sweep: false,
        listed: 0,
        table: 0,
        files: 0,
        tail: 0,
        asked: 0,
        body: 0,
        wants: 0,
    }
}

// All lines of a sheet.
fn read_lines(sheet: &[u8]) -> Result<Parts, BadLine>
    ensures { LinesFound sheet.now result }
{
    let top = read_top(sheet)?;
    let files = file_lines(sheet, top.next);
    let below = read_below(sheet, files.next, files.count)?;
    Ok(Parts {
        verdict: Verdict::accepted(),
        third: top.third,
        turn: top.turn,
        empty: top.empty,
        sweep: top.sweep,
        listed: top.said,
        table: top.next,
        files: files.count,
        tail: files.next,
        asked: below.said,
        body: below.at,
        wants: below.wants,
    })
}

// 12 and 11: the sheet's parts, or what refuses it.
// Stays: as judge_sheet in sheet_reader with other parts; both are the two checks and nothing else.
fn read_parts(sheet: &[u8]) -> Result<Parts, Verdict>
    ensures { PartsFound sheet.now result }
{
    Refusal::LongSheet.when(LONGEST_SHEET < sheet.len())?;
    match read_lines(sheet) {
        Ok(parts) => Ok(parts),
        Err(bad) => Err(Verdict {
            refusal: Refusal::BadLine,
            place: bad.line,
        }),
    }
}

// Whether one of two rows of these lengths is shorter than the want lines.
fn is_short(wants: u64, wanted: usize, counts: usize) -> bool
    ensures { result ≡ ltb wanted wants || ltb counts wants }
{
    (wanted as u64) < wants || (counts as u64) < wants
}

// The parts of a sheet, and its want lines in the first entries of two rows: 12, 11 and 8.
pub fn read_loose(sheet: &[u8], wanted: &mut [u64], counts: &mut [u64]) -> Parts
    ensures { LooseRead sheet.now wanted.old counts.old result wanted.new counts.new }
{
    match read_parts(sheet) {
        Err(refusal) => refused_parts(refusal),
        Ok(parts) => {
            let short = is_short(parts.wants, wanted.len(), counts.len());
            if let Err(refusal) = Refusal::ShortRow.when(short) {
                return refused_parts(refusal);
            }
            fill_pairs(sheet, parts.body, b"want=", parts.wants, wanted, counts);
            parts
        }
    }
}
