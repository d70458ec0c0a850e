// cmd_plan: a run sheet from standard input, its plan sheet to standard output; or two lines that say why not.
// The answer is proved in `answer_plan`; what is read and written here is tested and not proved.
#![tactic(auto)]

use text_inputs::front;

const STDIN: i32 = 0;

const STDOUT: i32 = 1;

// A byte more than a sheet may have is read. No answer is longer than 7,644 bytes.
// Stays: reads and prints as in `cmd_buys`; a function that takes the one which answers needs a `requires`, and no public function has any (R58).
fn main() {
    let mut sheet = [0u8; 16385];
    let mut out = [0u8; 7644];
    let n = io::read_full(STDIN, &mut sheet);
    let bytes = answer_plan::recall(&sheet[..n], &mut out);
    io::write_all(STDOUT, front(&out, bytes));
}
