// cmd_rewrite: an old run sheet from standard input, the same sheet with `turn=0` for an empty price to standard output; or two lines that
// say why not. The answer is proved in `answer_rewrite` and `sheet_writer`; what is read and written here is tested and not proved.
#![tactic(auto)]

use refusals::Verdict;
use text_inputs::front;

const STDIN: i32 = 0;

const STDOUT: i32 = 1;

// How many bytes the answer has, in the first bytes of a row: those of the result, or of the lines of its refusal.
fn answer(sheet: &[u8], out: &mut [u8]) -> u64 {
    let written = answer_rewrite::rewrite(sheet, out);
    let verdict = Verdict {
        refusal: written.refusal,
        place: written.place,
    };
    match verdict.told() {
        Ok(()) => written.bytes,
        Err(verdict) => sheet_writer::write_refusal(verdict, out).bytes,
    }
}

// A byte more than a sheet may have is read. No result is longer than a sheet may be.
// Stays: reads and prints as in `cmd_buys`; a function that takes the one which answers needs a `requires`, and no public function has any (R58).
fn main() {
    let mut sheet = [0u8; 16385];
    let mut out = [0u8; 16384];
    let n = io::read_full(STDIN, &mut sheet);
    let bytes = answer(&sheet[..n], &mut out);
    io::write_all(STDOUT, front(&out, bytes));
}
