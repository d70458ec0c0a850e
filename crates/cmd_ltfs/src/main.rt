// cmd_ltfs: a tape name, an LTFS label and an LTFS index from standard input, their run sheet to standard output and the report of
// the files left out to standard error; or two lines that say why not to standard output.
// The answer is proved in `answer_ltfs`; what is read and written here is tested and not proved.
#![tactic(auto)]

use text_inputs::front;

const STDIN: i32 = 0;

const STDOUT: i32 = 1;

const STDERR: i32 = 2;

// A long row comes from a function of its own: where it is made and lent in one, the check counts its entries one by one.
fn empty_input() -> [u8; 524289] {
    [0u8; 524289]
}

// A byte more than an input may have is read. No sheet and no refusal is longer than the first row, and no report than the second.
fn main() {
    let mut input = empty_input();
    let mut out = [0u8; 16384];
    let mut notes = [0u8; 54];
    let n = io::read_full(STDIN, &mut input);
    let told = answer_ltfs::answer(&input[..n], &mut out, &mut notes);
    io::write_all(STDOUT, front(&out, told.bytes));
    io::write_all(STDERR, front(&notes, told.noted));
}
