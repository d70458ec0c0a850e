// The sheet of a tape's files, from its name, its label and its index.
ghost use Rattle.std.specs.Prelude.{◌≡◌, true, [], ◌≤◌, length, take};
ghost use Rattle.refusals.specs.Refusals.{checked, first_of};
ghost use Rattle.runs.specs.Alone.{alone_of};
ghost use Rattle.text_bytes.specs.Text.{is_name};
ghost use Rattle.sheet_writer.specs.Writing.{SheetWritten};
ghost use Rattle.tape_markup.specs.Tree.{tree_of};
ghost use Rattle.tape_files.specs.Index.{index_files};
ghost use Rattle.answer_ltfs.specs.TapeTable.{last_end, refused_report, ltfs_verdict, ltfs_report, ltfs_row};
ghost use Rattle.tape_ranges.specs.Ranges.{ranges_from};
ghost use Rattle.answer_ltfs.specs.Private.Tallies.{TableRows, EndsFit, text_checks, file_checks, report_of, table_report, table_row};

use crate::Report;
use crate::table::gather;
use refusals::{Refusal, Verdict};
use sheet_writer::Written;
use tape_files::{Label, has_index, is_value, read_label, value_in};
use tape_markup::is_balanced;
use tape_ranges::{Tally, neighbours_overlap};

// The answer of a refusal: its kind and place, and every other number 0.
pub(crate) fn refusal_of(v: Verdict) -> Report
    ensures { result ≡ refused_report v }
{
    let refusal = v.refusal;
    Report {
        refusal,
        place: v.place,
        bytes: 0,
        empty: 0,
        other: 0,
    }
}

// The end of the last file; 0 where there is none.
// Stays: `ltfs_sheet` puts the head there, and an empty tape has it at 0, so that this is a place and no Option.
fn last_end(starts: &[u64], lengths: &[u64], kept: usize) -> u64
    requires kept_bound { kept ≤ 256 }
    requires table_rows { TableRows starts.now lengths.now }
    requires ends_fit { EndsFit starts.now lengths.now kept }
    ensures { result ≡ last_end (ranges_from (take kept starts.now) (take kept lengths.now)) }
{
    if kept == 0 {
        return 0;
    }
    starts[kept - 1] + lengths[kept - 1]
}

// The sheet of a table: no aggregates, no wants, turn price 0.
fn write_table(name: &[u8], starts: &[u64], lengths: &[u64], head: u64, out: &mut [u8]) -> Written
    requires { length starts.now ≤ 256 }
    ensures { SheetWritten name.now (alone_of starts.now lengths.now [] [] head 0) out.old result out.new }
{
    let zeros = [0u64; 256];
    let files = starts.len();
    let none = [0u64; 1];
    let wants = &none[..0];
    sheet_writer::write_sheet(
        name,
        starts,
        lengths,
        &zeros[..files],
        wants,
        wants,
        head,
        0,
        out,
    )
}

// What is said of a sheet that was written or refused.
fn report_of(written: Written, tally: Tally) -> Report
    ensures { result ≡ report_of written tally }
{
    let refusal = written.refusal;
    if written.bytes == 0 {
        return refusal_of(Verdict {
            refusal,
            place: written.place,
        });
    }
    Report {
        refusal: Refusal::Accepted,
        place: 0,
        bytes: written.bytes,
        empty: tally.empty,
        other: tally.other,
    }
}

// The files counted: 20, 21, 23 and 22.
fn judge_files(tally: Tally, starts: &[u64], lengths: &[u64]) -> Result<(), Verdict>
    requires kept_bound { tally.kept ≤ 256 }
    requires table_rows { TableRows starts.now lengths.now }
    ensures { result ≡ checked (first_of (file_checks tally starts.now lengths.now)) }
{
    Refusal::BadText.when(!tally.good)?;
    Refusal::ManyExtents.when(tally.several)?;
    Refusal::FarFile.when(tally.far)?;
    let kept = tally.kept;
    Refusal::Overlap.when(neighbours_overlap(&starts[..kept], &lengths[..kept]))
}

// The files of an index, for a block size and a data partition: 20, 21, 23, 22 and 8.
fn lay_out(name: &[u8], size: u64, partition: u64, index: &[u8], out: &mut [u8]) -> Report
    requires { is_name name.now ≡ true }
    ensures value { result ≡ table_report name.now size partition (index_files (tree_of index.now)) out.old }
    ensures out_after { out.new ≡ table_row name.now size partition (index_files (tree_of index.now)) out.old }
{
    let mut starts = [0u64; 256];
    let mut lengths = [0u64; 256];
    let tally = gather(index, size, partition, &mut starts, &mut lengths);
    let judged = judge_files(tally, &starts, &lengths);
    if let Err(refusal) = judged {
        return refusal_of(refusal);
    }
    let kept = tally.kept;
    let head = last_end(&starts, &lengths, kept);
    let written = write_table(name, &starts[..kept], &lengths[..kept], head, out);
    report_of(written, tally)
}

// The name and the two texts: 13, and 20 for a text that is not balanced, a value of the label that is missing or bad, an index without its root.
fn judge_texts(name: &[u8], label: &[u8], index: &[u8], read: Label) -> Result<(), Verdict>
    ensures { result ≡ checked (first_of (text_checks name.now label.now index.now read)) }
{
    Refusal::BadName.when(!text_bytes::is_name(name))?;
    let balanced = is_balanced(label) & is_balanced(index);
    let values = is_value(read.size) & is_value(read.partition);
    let good = balanced & values & has_index(index);
    Refusal::BadText.when(!good)
}

// The sheet of a tape's files in the first bytes of a row, and a report of those left out.
pub fn table_sheet(name: &[u8], label: &[u8], index: &[u8], out: &mut [u8]) -> Report
    ensures value { result ≡ ltfs_report (ltfs_verdict name.now label.now index.now out.old) name.now label.now index.now }
    ensures out_after { out.new ≡ ltfs_row (ltfs_verdict name.now label.now index.now out.old) name.now label.now index.now out.old }
{
    let read = read_label(label);
    if let Err(refusal) = judge_texts(name, label, index, read) {
        return refusal_of(refusal);
    }
    let size = value_in(read.size);
    let partition = value_in(read.partition);
    lay_out(name, size, partition, index, out)
}
