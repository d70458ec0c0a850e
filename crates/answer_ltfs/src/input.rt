// The input of one tape taken apart, and its answer put together.
ghost use Rattle.std.specs.Prelude.{◌≤◌, length};
ghost use Rattle.text_pages.specs.Printing.{Wrote};
ghost use Rattle.answer_ltfs.specs.Input.{left_out_text, BothHanded, InputAnswered};
ghost use Rattle.answer_ltfs.specs.Private.Input.{CountedFound, TextsFound, Drafted};

use crate::sheet::{refusal_of, table_sheet};
use crate::{Report, Told};
use refusals::{Refusal, Verdict};
use sheet_reader::tape_line;
use text_lines::number_line;
use text_pages::{put, put_number_line};

const MOST_INPUT: usize = 524288;

// A text behind a line with its number of bytes: from one position to another.
#[derive(Clone, Copy)]
struct Counted {
    from: usize,
    to: usize,
}

// The label lies between two positions. The index begins at one, and ends where the input does.
#[derive(Clone, Copy)]
struct Texts {
    from: usize,
    to: usize,
    index: usize,
}

// A key, a number, and so many bytes.
fn counted_at(input: &[u8], at: usize, key: &[u8]) -> Option<Counted>
    ensures { CountedFound key.now input.now at result }
{
    let line = number_line(input, at, key)?;
    let left = (input.len() - line.next) as u64;
    if left < line.number {
        return None;
    }
    Some(Counted {
        from: line.next,
        to: line.next + line.number as usize,
    })
}

// The texts behind the name's line, and nothing behind them.
fn texts_at(input: &[u8], at: usize) -> Option<Texts>
    ensures { TextsFound input.now at result }
{
    if MOST_INPUT < input.len() {
        return None;
    }
    let label = counted_at(input, at, b"label=")?;
    let index = counted_at(input, label.to, b"index=")?;
    if index.to < input.len() {
        return None;
    }
    Some(Texts {
        from: label.from,
        to: label.to,
        index: index.from,
    })
}

// The sheet of an input on a page: 13, 20, and what the label and the index are refused with.
fn draft(input: &[u8], page: &mut [u8]) -> Report
    requires { 16384 ≤ length page.old }
    ensures { Drafted input.now page.old result page.new }
{
    let Some(line) = tape_line(input) else {
        return refusal_of(Verdict {
            refusal: Refusal::BadName,
            place: 0,
        });
    };
    let Some(texts) = texts_at(input, line.next) else {
        return refusal_of(Verdict {
            refusal: Refusal::BadText,
            place: 0,
        });
    };
    let label = &input[texts.from..texts.to];
    table_sheet(&input[5..line.end], label, &input[texts.index..], page)
}

// How many files were left out, on a page.
fn put_left_out(page: &mut [u8], empty: u64, other: u64) -> usize
    requires { 54 ≤ length page.old }
    ensures { Wrote page.old 0 (left_out_text empty other) 54 page.new result }
{
    let next = put_number_line(page, 0, b"empty=", empty);
    put_number_line(page, next, b"other=", other)
}

// Two texts in the first bytes of two rows.
fn hand_both(text: &[u8], report: &[u8], out: &mut [u8], notes: &mut [u8]) -> Told
    ensures { BothHanded text.now report.now out.old notes.old result out.new notes.new }
{
    if out.len() < text.len() {
        return Told { bytes: 0, noted: 0 };
    }
    if notes.len() < report.len() {
        return Told { bytes: 0, noted: 0 };
    }
    put(out, 0, text);
    put(notes, 0, report);
    Told {
        bytes: text.len() as u64,
        noted: report.len() as u64,
    }
}

// The answer to an input, in the first bytes of two rows: the run sheet or the two lines of a refusal in one, the files left out in the other.
// No sheet is longer than 16,384 bytes, and no report longer than 54.
pub fn answer(input: &[u8], out: &mut [u8], notes: &mut [u8]) -> Told
    ensures { InputAnswered input.now out.old notes.old result out.new notes.new }
{
    let mut page = [0u8; 16384];
    let report = draft(input, &mut page);
    let refusal = report.refusal;
    let verdict = Verdict {
        refusal,
        place: report.place,
    };
    if let Err(told) = verdict.told() {
        let lines = sheet_writer::write_refusal(told, out);
        return Told {
            bytes: lines.bytes,
            noted: 0,
        };
    }
    let mut list = [0u8; 54];
    let noted = put_left_out(&mut list, report.empty, report.other);
    let bytes = report.bytes as usize;
    hand_both(&page[..bytes], &list[..noted], out, notes)
}
