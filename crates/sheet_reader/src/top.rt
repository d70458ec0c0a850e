// Readers of the sheet's own lines: the tape's name, the price of a turn, the rule, and a number of lines to follow. Each takes the position
// at which the line starts, and answers its value and where the next line starts.
ghost use Rattle.text_lines.specs.Lines.{number_behind};
ghost use Rattle.text_lines.specs.Found.{NumberLineFound};
ghost use Rattle.sheet_reader.specs.Lines.{is_count_line, is_turn_line, turn_in};
ghost use Rattle.sheet_reader.specs.Found.{NameLineFound, RuleLineFound};

use crate::{EMPTY_TURN, NameLine, RuleLine};
use text_bytes::{is_name, read_number, same};
use text_lines::{NumberLine, find_value, number_line};

pub fn tape_line(sheet: &[u8]) -> Option<NameLine>
    ensures { NameLineFound sheet.now result }
{
    let name = find_value(sheet, 0, b"tape=")?;
    if !is_name(&sheet[name.from..name.end]) {
        return None;
    }
    Some(NameLine {
        end: name.end,
        next: name.end + 1,
    })
}

// A number of lines to follow, at most so many.
pub(crate) fn count_line(sheet: &[u8], at: usize, key: &[u8], most: u64) -> Option<NumberLine>
    ensures { NumberLineFound (is_count_line key.now most) (number_behind key.now) sheet.now at result }
{
    let line = number_line(sheet, at, key)?;
    if most < line.number {
        return None;
    }
    Some(line)
}

pub fn turn_line(sheet: &[u8], at: usize) -> Option<NumberLine>
    ensures { NumberLineFound is_turn_line turn_in sheet.now at result }
{
    let price = find_value(sheet, at, b"turn=")?;
    if price.from == price.end {
        return Some(NumberLine {
            number: EMPTY_TURN,
            next: price.end + 1,
        });
    }
    let number = read_number(&sheet[price.from..price.end])?;
    Some(NumberLine {
        number,
        next: price.end + 1,
    })
}

pub fn rule_line(sheet: &[u8], at: usize) -> Option<RuleLine>
    ensures { RuleLineFound sheet.now at result }
{
    let rule = find_value(sheet, at, b"rule=")?;
    let sweep = same(&sheet[rule.from..rule.end], b"sweep");
    if !sweep && !same(&sheet[rule.from..rule.end], b"least") {
        return None;
    }
    Some(RuleLine {
        sweep,
        next: rule.end + 1,
    })
}
