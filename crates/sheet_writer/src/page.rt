// A line for each entry of two or three rows; the name's check; a page handed out. A sheet is put together on a page of its own, so that a row too
// short for it is left alone.
ghost use Rattle.std.specs.Prelude.{◌≡◌, not, ◌||◌, ◌+◌, ◌*◌, ◌≤◌, length};
ghost use Rattle.refusals.specs.declared.Refusal.TheVariants.{BadName};
ghost use Rattle.refusals.specs.Refusals.{refuse_if};
ghost use Rattle.text_bytes.specs.Text.{is_name};
ghost use Rattle.text_pages.specs.Printing.{pair_lines, triple_lines, Wrote};
ghost use Rattle.sheet_writer.specs.Writing.{checked_after, row_verdict, written_of, Handed};

use crate::Written;
use refusals::{Refusal, Verdict};
use text_bytes::is_name;
use text_pages::{put, put_pair_line, put_triple_line};

// A line for each pair of two rows. No key is longer than 7 bytes, so no such line is longer than 49.
pub(crate) fn put_pairs(
    page: &mut [u8],
    at: usize,
    key: &[u8],
    firsts: &[u64],
    seconds: &[u64],
) -> usize
    requires key_len_bound { length key.now ≤ 7 }
    requires firsts_len { length firsts.now ≡ length seconds.now }
    requires firsts_in_bounds { at + length firsts.now * 49 ≤ length page.old }
    ensures { Wrote page.old at (pair_lines key.now firsts.now seconds.now) (length firsts.now * 49) page.new result }
{
    let mut next = at;
    for (first, second) in firsts.iter().zip(seconds) {
        next = put_pair_line(page, next, key, *first, *second);
    }
    next
}

// A line for each triple of three rows. No key is longer than 5 bytes, so no such line is longer than 68.
pub(crate) fn put_triples(
    page: &mut [u8],
    at: usize,
    key: &[u8],
    firsts: &[u64],
    seconds: &[u64],
    thirds: &[u64],
) -> usize
    requires key_len_bound { length key.now ≤ 5 }
    requires firsts_len { length firsts.now ≡ length seconds.now }
    requires firsts_len_2 { length firsts.now ≡ length thirds.now }
    requires firsts_in_bounds { at + length firsts.now * 68 ≤ length page.old }
    ensures { Wrote page.old at (triple_lines key.now firsts.now seconds.now thirds.now) (length firsts.now * 68) page.new result }
{
    let mut next = at;
    for i in 0..firsts.len() {
        next = put_triple_line(page, next, key, firsts[i], seconds[i], thirds[i]);
    }
    next
}

// 13, unless what was judged before refuses: more files than a sheet takes, or a name that is none.
pub fn judge_name(before: Result<(), Verdict>, over: bool, name: &[u8]) -> Result<(), Verdict>
    ensures { result ≡ checked_after before (refuse_if (over || not (is_name name.now)) BadName) }
{
    before?;
    Refusal::BadName.when(over || !is_name(name))
}

// The answer to a verdict: on a refusal kind and place, and 0 bytes.
pub fn answer_to(verdict: Verdict, bytes: u64) -> Written
    ensures { result ≡ written_of verdict bytes }
{
    match verdict.told() {
        Ok(()) => Written {
            refusal: Refusal::Accepted,
            place: 0,
            bytes,
        },
        Err(refusal) => Written {
            refusal: refusal.refusal,
            place: refusal.place,
            bytes: 0,
        },
    }
}

// The text as a sheet in the first bytes of a row. A row too short for it takes none of it.
pub fn hand_out(text: &[u8], out: &mut [u8]) -> Written
    ensures { Handed (row_verdict text.now out.old) text.now out.old result out.new }
{
    if let Err(refusal) = Refusal::ShortRow.when(out.len() < text.len()) {
        return answer_to(refusal, 0);
    }
    put(out, 0, text);
    answer_to(Verdict::accepted(), text.len() as u64)
}
