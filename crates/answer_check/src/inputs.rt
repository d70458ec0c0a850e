// An input of two texts: a line with the run sheet's byte count, the run sheet, and a list or a plan sheet.
ghost use Rattle.std.specs.Prelude.{◌≡◌};
ghost use Rattle.sheet_writer.specs.RefusalLines.{refusal_text};
ghost use Rattle.answer_check.specs.Pricing.{RowHolds};
ghost use Rattle.answer_check.specs.Inputs.{bad_input, framed_input, InputPriced, InputChecked};

use crate::{check_text, price};
use refusals::{Refusal, Verdict};
use text_inputs::{Framed, part};

// A byte more than each of the two texts may have, and the longest line before them. An input of so many bytes was cut off.
const MOST_INPUT: usize = 32791;

// Where the run sheet stands.
fn frame_input(input: &[u8]) -> Option<Framed>
    ensures { result ≡ framed_input input.now }
{
    text_inputs::frame(input, MOST_INPUT <= input.len())
}

// The two lines of 25, which speaks of the first line.
fn refuse_input(out: &mut [u8]) -> u64
    ensures { RowHolds (refusal_text bad_input) out.old result out.new }
{
    let verdict = Verdict {
        refusal: Refusal::BadSheetCount,
        place: 1,
    };
    let lines = sheet_writer::write_refusal(verdict, out);
    lines.bytes
}

// The plan sheet of an input of a run sheet and a list, as by `price`.
pub fn price_input(input: &[u8], out: &mut [u8]) -> u64
    ensures { InputPriced input.now out.old result out.new }
{
    let Some(Framed { from, to }) = frame_input(input) else {
        return refuse_input(out);
    };
    let end = input.len();
    price(part(input, from, to), part(input, to, end), out)
}

// The verdict on an input of a run sheet and a plan sheet, as by `check_text`.
pub fn check_input(input: &[u8], out: &mut [u8], room: &mut [u64]) -> u64
    ensures { InputChecked input.now out.old room.old result out.new room.new }
{
    let Some(Framed { from, to }) = frame_input(input) else {
        return refuse_input(out);
    };
    let end = input.len();
    check_text(part(input, from, to), part(input, to, end), out, room)
}
