// sheet_runs: the run of a sheet by value. For whoever goes from a sheet to an answer: the reader's rows are lent here and nowhere above.
#![tactic(auto)]

ghost use Rattle.std.specs.Prelude.{◌≡◌, take};
ghost use Rattle.sheet_runs.specs.SheetRuns.{run_by_value};
ghost use Rattle.sheet_runs.specs.Private.{said_by};

use refusals::Verdict;
use sheet_reader::Reading;

// What the reader says of a sheet, and the run that it read: so many entries of each row, and zeros behind them.
// Stays: `SheetRunTold` in the promises reads verdict, numbers and entries of this record, zeros on a refusal, so that it is no Result. Rows of an array,
// since the record is copied, and the house works without a heap.
#[derive(Clone, Copy)]
pub struct SheetRun {
    pub verdict: Verdict,
    pub files: u64,
    pub wants: u64,
    pub head: u64,
    pub turn: u64,
    pub starts: [u64; 256],
    pub lengths: [u64; 256],
    pub aggregates: [u64; 256],
    pub numbers: [u64; 64],
    pub counts: [u64; 64],
}

// The first n entries of a row, or the row where it has fewer.
pub fn entries(row: &[u64], n: u64) -> &[u64]
    ensures result_value { result.now ≡ take n row.now }
    ensures ref_ptr_value { result.ref_ptr ≡ row.entry.ref_ptr }
{
    let end = row.len().min(n as usize);
    &row[..end]
}

fn said_by(read: Reading) -> Verdict
    ensures { result ≡ said_by read }
{
    let refusal = read.refusal;
    Verdict {
        refusal,
        place: read.place,
    }
}

// The rows suffice for every sheet that the reader accepts.
pub fn read_run(sheet: &[u8]) -> SheetRun
    ensures { result ≡ run_by_value sheet.now }
{
    let mut starts = [0u64; 256];
    let mut lengths = [0u64; 256];
    let mut aggregates = [0u64; 256];
    let mut numbers = [0u64; 64];
    let mut counts = [0u64; 64];
    let read = sheet_reader::read_sheet(
        sheet,
        &mut starts,
        &mut lengths,
        &mut aggregates,
        &mut numbers,
        &mut counts,
    );
    SheetRun {
        verdict: said_by(read),
        files: read.files,
        wants: read.wants,
        head: read.head,
        turn: read.turn,
        starts,
        lengths,
        aggregates,
        numbers,
        counts,
    }
}
