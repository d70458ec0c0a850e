// cmd_mend: a run sheet from standard input, the mended sheet to standard output and a line for each change to standard error; or two lines that
// say why not to standard output. The answer is proved in `answer_mend` and `sheet_writer`; what is read and written here is tested and not proved.
#![tactic(auto)]

use refusals::Verdict;
use text_inputs::front;

const STDIN: i32 = 0;

const STDOUT: i32 = 1;

const STDERR: i32 = 2;

// A long row comes from a function of its own: where it is made and lent in one, the check counts its entries one by one.
fn empty_notes() -> [u8; 98424] {
    [0u8; 98424]
}

// A byte more than a sheet may have is read. No mended sheet is longer than a sheet may be, and there are fewer changes than fill the row for them.
fn main() {
    let mut sheet = [0u8; 16385];
    let mut out = [0u8; 16384];
    let mut notes = empty_notes();
    let n = io::read_full(STDIN, &mut sheet);
    let mended = answer_mend::mend(&sheet[..n], &mut out, &mut notes);
    let refusal = mended.refusal;
    let verdict = Verdict {
        refusal,
        place: mended.place,
    };
    if let Err(refusal) = verdict.told() {
        let lines = sheet_writer::write_refusal(refusal, &mut out);
        io::write_all(STDOUT, front(&out, lines.bytes));
        return;
    }
    io::write_all(STDOUT, front(&out, mended.bytes));
    io::write_all(STDERR, front(&notes, mended.noted));
}
