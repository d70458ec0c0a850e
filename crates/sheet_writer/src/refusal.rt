// The two lines of a refusal.
ghost use Rattle.text_pages.specs.Printing.{number_line, Put};
ghost use Rattle.sheet_writer.specs.RefusalLines.{place_key, RefusalWritten};

use crate::Written;
use crate::page::hand_out;
use refusals::Verdict;
use text_pages::put_number_line;

fn put_place(page: &mut [u8], at: usize, place: u64) -> usize
    ensures { Put page.old at (number_line place_key place) 27 page.new result }
{
    put_number_line(page, at, b"place=", place)
}

pub fn write_refusal(verdict: Verdict, out: &mut [u8]) -> Written
    ensures { RefusalWritten verdict out.old result out.new }
{
    let kind = verdict.refusal;
    let number = refusals::number(kind);
    let mut page = [0u8; 56];
    let place_at = put_number_line(&mut page, 0, b"refused=", number);
    let bytes = put_place(&mut page, place_at, verdict.place);
    hand_out(&page[..bytes], out)
}
