// The parts of the input: a line with a byte count, and a sheet of so many bytes.
ghost use Rattle.std.specs.Prelude.{◌≡◌};
ghost use Rattle.answer_month.specs.Month.{grown};
ghost use Rattle.answer_month.specs.Parts.{count_of, part_of, SheetAdded, input_verdict};
ghost use Rattle.answer_month.specs.Private.{line_behind};

use crate::{BadPart, CutOff, Month, add, grow};
use refusals::{Refusal, Verdict};
use text_bytes::{find, read_number};

const MOST_SHEETS: u64 = 1000;

// A line with its LF, as a byte count.
fn count_line(line: &[u8]) -> Result<Option<u64>, BadPart>
    ensures { result ≡ count_of line.now }
{
    let end = find(line, b'\n').ok_or(BadPart)?;
    if end + 1 != line.len() {
        return Err(BadPart);
    }
    let bytes = read_number(&line[..end]).ok_or(BadPart)?;
    Ok(Some(bytes))
}

// A line behind so many sheets. After 1,000 nothing may follow.
fn line_behind(sheets: u64, line: &[u8]) -> Result<Option<u64>, BadPart>
    ensures { result ≡ line_behind sheets line.now }
{
    if MOST_SHEETS <= sheets {
        return Err(BadPart);
    }
    count_line(line)
}

// The byte count of the sheet that comes next, if one does. A line is what there is up to its LF; it is empty where the input has ended.
pub fn next_part(month: Month, line: &[u8]) -> Result<Option<u64>, BadPart>
    ensures { result ≡ part_of month.sheets line.now }
{
    if line.len() == 0 {
        return Ok(None);
    }
    line_behind(month.sheets, line)
}

// The month with a sheet of so many bytes, of which so many are there. Of a sheet that is too long its first 16,385 bytes stand for it.
pub fn add_sheet(month: Month, bytes: u64, there: u64, sheet: &[u8]) -> Result<Month, CutOff>
    ensures { SheetAdded month bytes there sheet.now result }
{
    if there < bytes {
        return Err(CutOff { month });
    }
    Ok(add(month, answer_outcome::sheet_outcome(sheet)))
}

// The number of the sheet behind so many.
fn next_sheet(sheets: u64) -> u64
    ensures { result ≡ grown sheets 1 }
{
    grow(sheets, 1)
}

// 25, with the number of the sheet behind those of the month, unless all of the input was good.
pub fn judge_input(month: Month, good: bool) -> Verdict
    ensures { result ≡ input_verdict month good }
{
    if good {
        return Verdict::accepted();
    }
    Verdict {
        refusal: Refusal::BadSheetCount,
        place: next_sheet(month.sheets),
    }
}
