// cmd_month: run sheets from standard input, each behind a line with its byte count, and the month's page to standard output.
// It reads part by part: of a sheet at most one byte more than a sheet may have is kept, and the rest is passed over. The answer is
// proved in `answer_outcome` and `answer_month`; what is read and written here is tested and not proved.
#![tactic(auto)]

use answer_month::{BadPart, CutOff, Month};
use text_inputs::front;

const STDOUT: i32 = 1;

// The month with a sheet of so many bytes, of which one more than a sheet may have is kept.
fn take_sheet(month: Month, bytes: u64) -> Result<Month, CutOff> {
    let mut sheet = [0u8; 16385];
    let got = text_inputs::read_bytes(&mut sheet, bytes);
    answer_month::add_sheet(month, bytes, got.all, front(&sheet, got.kept))
}

// The month with one part of the input, if there is one. A number below 2 to the 64 has at most 20 digits, and an LF ends it.
fn take_part(month: Month) -> Result<Option<Month>, BadPart> {
    let mut line = [0u8; 21];
    let n = text_inputs::read_line(&mut line);
    match answer_month::next_part(month, front(&line, n as u64))? {
        Some(bytes) => take_sheet(month, bytes).map(Some).or(Err(BadPart)),
        None => Ok(None),
    }
}

fn print_page(month: Month, good: bool) {
    let mut page = [0u8; 2048];
    let bytes = answer_month::write_month(month, answer_month::judge_input(month, good), &mut page);
    io::write_all(STDOUT, front(&page, bytes as u64));
}

// Behind a thousand sheets the input has ended, or is refused: there are no more than a thousand turns and one.
fn main() {
    let mut month = answer_month::empty_month();
    let mut good = true;
    for _ in 0..1001 {
        match take_part(month) {
            Ok(Some(next)) => month = next,
            Ok(None) => break,
            Err(BadPart) => {
                good = false;
                break;
            }
        }
    }
    print_page(month, good);
}
