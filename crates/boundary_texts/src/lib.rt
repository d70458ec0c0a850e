// boundary_texts: from the bytes of sheets to those of texts for programs in C. Thin: answered by the crates below, in rows and room that are lent.
// include/violstream.h tells a C programmer the same in words; parameter order and meaning are fixed there.
#![tactic(auto)]

ghost use Rattle.std.specs.Prelude.{◌≡◌, ◌≤◌, cond, length};
ghost use Rattle.refusals.specs.Refusals.{is_refusal};
ghost use Rattle.boundary.specs.Boundary.{code_of};
ghost use Rattle.boundary_texts.specs.Texts.{AnswerCalled, BuysCalled, CheckCalled, MendCalled};
ghost use Rattle.boundary_texts.specs.Private.{Told, BothTold};

use refusals::{Refusal, Verdict};

// A verdict's code: 0, or a refusal's number plus 256 times its place.
fn code_of(v: Verdict) -> u64
    requires { v.place ≤ 4096 }
    ensures { result ≡ code_of v }
{
    let kind = v.refusal;
    refusals::number(kind) + 256 * v.place
}

// The verdict in what was written, or mended.
fn verdict_of(refusal: Refusal, place: u64) -> Verdict
    ensures { result ≡ record { refusal = refusal; place = place } }
{
    Verdict { refusal, place }
}

// The code where there is no row for a text's length: 8 behind all other refusals.
fn short_code(v: Verdict) -> u64
    requires { v.place ≤ 4096 }
    ensures { result ≡ cond (is_refusal v.refusal) (code_of v) 8 }
{
    let code = code_of(v);
    if v.told().is_err() {
        return code;
    }
    8
}

// The code, and a text's length in the first word of a row.
fn tell(v: Verdict, bytes: u64, sizes: &mut [u64]) -> u64
    requires place_bound { v.place ≤ 4096 }
    requires in_bounds { 1 ≤ length sizes.old }
    ensures { Told v bytes sizes.old result sizes.new }
{
    let code = code_of(v);
    if v.told().is_err() {
        return code;
    }
    sizes[0] = bytes;
    code
}

// The code, and the lengths of two texts in the first two words.
fn tell_both(v: Verdict, mended: u64, noted: u64, sizes: &mut [u64]) -> u64
    requires place_bound { v.place ≤ 4096 }
    requires in_bounds { 2 ≤ length sizes.old }
    ensures { BothTold v mended noted sizes.old result sizes.new }
{
    let code = code_of(v);
    if v.told().is_err() {
        return code;
    }
    sizes[0] = mended;
    sizes[1] = noted;
    code
}

// The plan sheet of a run sheet, with the head anywhere. With no row for its length what comes before 8 is found by answering into an empty row.
#[unsafe(no_mangle)]
pub extern "C" fn violstream_answer(
    sheet: &[u8],
    out: &mut [u8],
    room: &mut [u64],
    sizes: &mut [u64],
) -> u64
    ensures { AnswerCalled sheet.now out.old room.old sizes.old result out.new room.new sizes.new }
{
    if sizes.len() < 1 {
        let mut none = [0u8; 0];
        let unwritten = answer_any::answer(sheet, &mut none, room);
        return short_code(verdict_of(unwritten.refusal, unwritten.place));
    }
    let written = answer_any::answer(sheet, out, room);
    tell(
        verdict_of(written.refusal, written.place),
        written.bytes,
        sizes,
    )
}

// The figure sheet of a run sheet's plan, with the head anywhere.
#[unsafe(no_mangle)]
pub extern "C" fn violstream_buys(
    sheet: &[u8],
    out: &mut [u8],
    room: &mut [u64],
    sizes: &mut [u64],
) -> u64
    ensures { BuysCalled sheet.now out.old room.old sizes.old result out.new room.new sizes.new }
{
    if sizes.len() < 1 {
        let mut none = [0u8; 0];
        let unwritten = answer_buys_any::answer(sheet, &mut none, room);
        return short_code(verdict_of(unwritten.refusal, unwritten.place));
    }
    let figured = answer_buys_any::answer(sheet, out, room);
    tell(
        verdict_of(figured.refusal, figured.place),
        figured.bytes,
        sizes,
    )
}

// The verdict on a plan sheet, for a run sheet, with the head anywhere. A `no` is an answer.
#[unsafe(no_mangle)]
pub extern "C" fn violstream_check(
    sheet: &[u8],
    plan: &[u8],
    out: &mut [u8],
    room: &mut [u64],
    sizes: &mut [u64],
) -> u64
    ensures { CheckCalled sheet.now plan.now out.old room.old sizes.old result out.new room.new sizes.new }
{
    if sizes.len() < 1 {
        let mut none = [0u8; 0];
        let unwritten = answer_check::check(sheet, plan, &mut none, room);
        return short_code(verdict_of(unwritten.refusal, unwritten.place));
    }
    let checked = answer_check::check(sheet, plan, out, room);
    tell(
        verdict_of(checked.refusal, checked.place),
        checked.bytes,
        sizes,
    )
}

// A run sheet mended, and a line for each change.
#[unsafe(no_mangle)]
pub extern "C" fn violstream_mend(
    sheet: &[u8],
    out: &mut [u8],
    changes: &mut [u8],
    sizes: &mut [u64],
) -> u64
    ensures { MendCalled sheet.now out.old changes.old sizes.old result out.new changes.new sizes.new }
{
    if sizes.len() < 2 {
        let mut none = [0u8; 0];
        let mut nothing = [0u8; 0];
        let unmended = answer_mend::mend(sheet, &mut none, &mut nothing);
        return short_code(verdict_of(unmended.refusal, unmended.place));
    }
    let mended = answer_mend::mend(sheet, out, changes);
    tell_both(
        verdict_of(mended.refusal, mended.place),
        mended.bytes,
        mended.noted,
        sizes,
    )
}
