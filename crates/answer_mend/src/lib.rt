// answer_mend: a run sheet mended, and a line for each change.
// For the program, which reads, calls this and writes. What the words mean stands in specs/; the contract gives the answer and both lent rows for
// every input.
#![tactic(auto)]

mod pages;
mod wants;

ghost use Rattle.std.specs.Prelude.{◌≡◌, ◌||◌, [], ◌∷◌, length, ltb};
ghost use Rattle.refusals.specs.declared.Refusal.TheVariants.{LongSheet, ShortRow, WantRows, TooManyReads};
ghost use Rattle.refusals.specs.Refusals.{checked, refuse_if, first_of};
ghost use Rattle.runs.specs.Run.{most_wants, most_reads};
ghost use Rattle.sheet_reader.specs.Sheet.{longest_sheet};
ghost use Rattle.answer_mend.specs.Wants.{reads_in_all};
ghost use Rattle.answer_mend.specs.Mending.{mended_text, changes_text, wants_verdicts, texts_verdicts, refused_mending, MendHanded, SheetMended};
ghost use Rattle.answer_mend.specs.Private.{SheetRead, Writable};

use pages::{put_changes, put_sheet};
use refusals::{Refusal, Verdict};
use sheet_loose::{Parts, read_loose};
use text_pages::put;
pub use wants::Fate;
use wants::{gather, too_many_reads};

// What the mender answers: the bytes of the mended sheet and those of the changes; on a refusal both are 0.
// Stays: `MenderAnswers` in the promises reads `refusal` and `place` of it, and 0 in the others, so that the answer is no Result.
#[derive(Clone, Copy)]
pub struct Mended {
    pub refusal: Refusal,
    pub place: u64,
    pub bytes: u64,
    pub noted: u64,
}

fn unmended(verdict: Verdict) -> Mended
    ensures { result ≡ refused_mending verdict }
{
    let refusal = verdict.refusal;
    Mended {
        refusal,
        place: verdict.place,
        bytes: 0,
        noted: 0,
    }
}

// 12 for a mended sheet of so many bytes, then 8 for a row that is shorter than its text.
fn judge_texts(text: usize, changes: usize, out: usize, notes: usize) -> Result<(), Verdict>
    ensures { result ≡ checked (first_of (refuse_if (ltb longest_sheet text) LongSheet ∷ refuse_if (ltb out text || ltb notes changes) ShortRow ∷ [])) }
{
    Refusal::LongSheet.when(sheet_reader::LONGEST_SHEET < text)?;
    Refusal::ShortRow.when(out < text || notes < changes)
}

// The two texts in the first bytes of two rows.
fn hand_both(text: &[u8], changes: &[u8], out: &mut [u8], notes: &mut [u8]) -> Mended
    ensures { MendHanded (first_of (texts_verdicts text.now changes.now out.old notes.old)) text.now changes.now out.old notes.old result out.new notes.new }
{
    let judged = judge_texts(text.len(), changes.len(), out.len(), notes.len());
    if let Err(refusal) = judged {
        return unmended(refusal);
    }
    put(out, 0, text);
    put(notes, 0, changes);
    Mended {
        refusal: Refusal::Accepted,
        place: 0,
        bytes: text.len() as u64,
        noted: changes.len() as u64,
    }
}

// Long rows come from functions of their own: where one is made and lent in one function, the check counts its entries one by one.
fn blank_page() -> [u8; 19483] {
    [0u8; 19483]
}

fn blank_list() -> [u8; 98424] {
    [0u8; 98424]
}

fn write_mended(
    sheet: &[u8],
    parts: Parts,
    wanted: &[u64],
    counts: &[u64],
    row: &[u64],
    out: &mut [u8],
    notes: &mut [u8],
) -> Mended
    requires { Writable sheet.now parts wanted.now counts.now row.now }
    ensures { MendHanded (first_of (texts_verdicts (mended_text sheet.now) (changes_text sheet.now) out.old notes.old)) (mended_text sheet.now) (changes_text sheet.now) out.old notes.old result out.new notes.new }
{
    let mut page = blank_page();
    let bytes = put_sheet(&mut page, sheet, parts, wanted, counts, row);
    let mut list = blank_list();
    let noted = put_changes(&mut list, sheet, parts, wanted, counts, row);
    hand_both(&page[..bytes], &list[..noted], out, notes)
}

// 3 for so many wants, then 5.
fn judge_wants(many: usize, counts: &[u64]) -> Result<(), Verdict>
    ensures { result ≡ checked (first_of (refuse_if (ltb most_wants many) WantRows ∷ refuse_if (ltb most_reads (reads_in_all counts.now)) TooManyReads ∷ [])) }
{
    Refusal::WantRows.when(runs::MOST_WANTS < many)?;
    Refusal::TooManyReads.when(too_many_reads(counts))
}

// The wants gathered and judged, then both texts.
fn mend_wants(
    sheet: &[u8],
    parts: Parts,
    wanted: &[u64],
    counts: &[u64],
    out: &mut [u8],
    notes: &mut [u8],
) -> Mended
    requires { SheetRead sheet.now parts wanted.now counts.now }
    ensures { MendHanded (first_of (first_of (wants_verdicts sheet.now) ∷ first_of (texts_verdicts (mended_text sheet.now) (changes_text sheet.now) out.old notes.old) ∷ [])) (mended_text sheet.now) (changes_text sheet.now) out.old notes.old result out.new notes.new }
{
    let mut row = [0u64; 65];
    let many = gather(wanted, counts, &mut row);
    if let Err(refusal) = judge_wants(many, counts) {
        return unmended(refusal);
    }
    write_mended(sheet, parts, wanted, counts, &row[..many], out, notes)
}

// The mended sheet in the first bytes of one row, a line for each change in those of another. A sheet of 16,384 bytes has at most 2,730 want lines.
pub fn mend(sheet: &[u8], out: &mut [u8], notes: &mut [u8]) -> Mended
    ensures { SheetMended sheet.now out.old notes.old result out.new notes.new }
{
    let mut wanted = [0u64; 2730];
    let mut counts = [0u64; 2730];
    let parts = read_loose(sheet, &mut wanted, &mut counts);
    if let Err(refusal) = parts.verdict.told() {
        return unmended(refusal);
    }
    let lines = parts.wants as usize;
    mend_wants(sheet, parts, &wanted[..lines], &counts[..lines], out, notes)
}
