// cmd_buys: a run sheet from standard input, the figure sheet of its plan to standard output; or two lines that say why not.
// The answer is proved in `answer_buys`; what is read and written here is tested and not proved.
#![tactic(auto)]

use text_inputs::front;

const STDIN: i32 = 0;

const STDOUT: i32 = 1;

// A byte more than a sheet may have is read. No answer is longer than 4,492 bytes.
fn main() {
    let mut sheet = [0u8; 16385];
    let mut out = [0u8; 4492];
    let n = io::read_full(STDIN, &mut sheet);
    let bytes = answer_buys::buys(&sheet[..n], &mut out);
    io::write_all(STDOUT, front(&out, bytes));
}
