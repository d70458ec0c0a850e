// The run sheet writer.
ghost use Rattle.std.specs.Prelude.{◌≡◌, not, ◌||◌, [], ◌∷◌, ◌≤◌, length, ltb};
ghost use Rattle.refusals.specs.declared.Refusal.TheVariants.{BadName};
ghost use Rattle.refusals.specs.Refusals.{checked, refuse_if, first_of};
ghost use Rattle.runs.specs.Judging.{judge_of};
ghost use Rattle.runs.specs.Rows.{run_at};
ghost use Rattle.text_bytes.specs.Text.{is_name};
ghost use Rattle.text_pages.specs.Printing.{Wrote};
ghost use Rattle.sheet_reader.specs.Sheet.{most_sheet_files};
ghost use Rattle.sheet_writer.specs.Writing.{top_text, sheet_text, SheetWritten};
ghost use Rattle.sheet_writer.specs.Private.{sheet_most, SheetFits};

use crate::Written;
use crate::page::{answer_to, hand_out, judge_name, put_pairs, put_triples};
use refusals::Verdict;
use sheet_reader::MOST_SHEET_FILES;
use text_pages::{put_line, put_number_line};

fn put_top(page: &mut [u8], name: &[u8], head: u64, turn: u64, files: u64) -> usize
    requires name_len_bound { length name.now ≤ 16 }
    requires in_bounds { 112 ≤ length page.old }
    ensures { Wrote page.old 0 (top_text name.now head turn files) 112 page.new result }
{
    let head_at = put_line(page, 0, b"tape=", name);
    let turn_at = put_number_line(page, head_at, b"head=", head);
    let rule_at = put_number_line(page, turn_at, b"turn=", turn);
    let files_at = put_line(page, rule_at, b"rule=", b"least");
    put_number_line(page, files_at, b"files=", files)
}

fn put_sheet(
    page: &mut [u8],
    name: &[u8],
    starts: &[u64],
    lengths: &[u64],
    aggregates: &[u64],
    numbers: &[u64],
    counts: &[u64],
    head: u64,
    turn: u64,
) -> usize
    requires { SheetFits page.old name.now starts.now lengths.now aggregates.now numbers.now counts.now }
    ensures { Wrote page.old 0 (sheet_text name.now (run_at starts lengths aggregates numbers counts head turn)) sheet_most page.new result }
{
    let file_at = put_top(page, name, head, turn, starts.len() as u64);
    let wants_at = put_triples(page, file_at, b"file=", starts, lengths, aggregates);
    let want_at = put_number_line(page, wants_at, b"wants=", numbers.len() as u64);
    put_pairs(page, want_at, b"want=", numbers, counts)
}

// 1 to 7, then 13.
fn judge_sheet(
    name: &[u8],
    starts: &[u64],
    lengths: &[u64],
    aggregates: &[u64],
    numbers: &[u64],
    counts: &[u64],
    head: u64,
    turn: u64,
) -> Result<(), Verdict>
    ensures { result ≡ checked (first_of (judge_of (run_at starts lengths aggregates numbers counts head turn) ∷ refuse_if (ltb most_sheet_files (length starts.now) || not (is_name name.now)) BadName ∷ [])) }
{
    let run = runs::judge(starts, lengths, aggregates, numbers, counts, head, turn);
    judge_name(run, MOST_SHEET_FILES < starts.len() as u64, name)
}

pub fn write_sheet(
    name: &[u8],
    starts: &[u64],
    lengths: &[u64],
    aggregates: &[u64],
    numbers: &[u64],
    counts: &[u64],
    head: u64,
    turn: u64,
    out: &mut [u8],
) -> Written
    ensures { SheetWritten name.now (run_at starts lengths aggregates numbers counts head turn) out.old result out.new }
{
    let judged = judge_sheet(
        name, starts, lengths, aggregates, numbers, counts, head, turn,
    );
    if let Err(refusal) = judged {
        return answer_to(refusal, 0);
    }
    let mut page = [0u8; 20683];
    let bytes = put_sheet(
        &mut page, name, starts, lengths, aggregates, numbers, counts, head, turn,
    );
    hand_out(&page[..bytes], out)
}
