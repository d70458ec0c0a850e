// answer_rewrite: an old run sheet rewritten so that it goes on meaning what it meant when an empty `turn=` was 0.
// For the program, which reads, calls this and writes. The sheet's lines are judged as the reader judges them; neither the rule that it names nor
// the run that it holds is.
#![tactic(auto)]

ghost use Rattle.std.specs.Prelude.{◌≤◌, ◌≡◌, length};
ghost use Rattle.refusals.specs.Refusals.{checked, first_of};
ghost use Rattle.sheet_writer.specs.Writing.{refused_writing};
ghost use Rattle.answer_rewrite.specs.Rewriting.{SheetRewritten};
ghost use Rattle.answer_rewrite.specs.Private.{Readable, LineAt, PriceWithin, PriceFound, priced, result_verdict, filled_row};

use refusals::{Refusal, Verdict};
use sheet_writer::Written;
use text_bytes::find;
use text_pages::put;

// Where the third line starts.
fn third_line(sheet: &[u8]) -> usize
    requires { Readable sheet.now }
    ensures { LineAt sheet.now result }
{
    let Some(first) = find(sheet, b'\n') else {
        return 0;
    };
    let next = first + 1;
    let Some(second) = find(&sheet[next..], b'\n') else {
        return 0;
    };
    next + second + 1
}

// Where a sheet's price stands, if it is empty.
fn empty_price(sheet: &[u8]) -> Option<usize>
    requires { Readable sheet.now }
    ensures { PriceFound sheet.now result }
{
    let at = third_line(sheet) + 5;
    (sheet[at] == b'\n').then_some(at)
}

// How many bytes the result has.
fn bytes_with(sheet: &[u8], price: Option<usize>) -> usize
    requires { PriceWithin sheet.now price }
    ensures { result ≡ length (priced price sheet.now) }
{
    match price {
        Some(_) => sheet.len() + 1,
        None => sheet.len(),
    }
}

// 12 for a result of so many bytes, then 8 for a row that is shorter.
fn judge_result(bytes: usize, row: usize) -> Result<(), Verdict>
    ensures { result ≡ checked (first_of (result_verdict bytes row)) }
{
    Refusal::LongSheet.when(sheet_reader::LONGEST_SHEET < bytes)?;
    Refusal::ShortRow.when(row < bytes)
}

// The result in the first bytes of a row.
fn fill(sheet: &[u8], price: Option<usize>, out: &mut [u8])
    requires price_within { PriceWithin sheet.now price }
    requires in_bounds { length (priced price sheet.now) ≤ length out.old }
    ensures { out.new ≡ filled_row (priced price sheet.now) out.old }
{
    match price {
        Some(at) => {
            let (front, back) = sheet.split_at(at);
            let zero_at = put(out, 0, front);
            let back_at = put(out, zero_at, b"0");
            put(out, back_at, back);
        }
        None => {
            put(out, 0, sheet);
        }
    }
}

// The answer to a refusal: kind and place, and 0 bytes.
fn unwritten(verdict: Verdict) -> Written
    ensures { result ≡ refused_writing verdict }
{
    let refusal = verdict.refusal;
    Written {
        refusal,
        place: verdict.place,
        bytes: 0,
    }
}

// The sheet in the first bytes of a row, byte for byte, with a 0 after an empty `turn=`.
pub fn rewrite(sheet: &[u8], out: &mut [u8]) -> Written
    ensures { SheetRewritten sheet.now out.old result out.new }
{
    if let Err(refusal) = sheet_reader::judge(sheet) {
        return unwritten(refusal);
    }
    let price = empty_price(sheet);
    let bytes = bytes_with(sheet, price);
    if let Err(refusal) = judge_result(bytes, out.len()) {
        return unwritten(refusal);
    }
    fill(sheet, price, out);
    Written {
        refusal: Refusal::Accepted,
        place: 0,
        bytes: bytes as u64,
    }
}
