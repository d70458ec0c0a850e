// cmd_price: a run sheet and a detour list from standard input, that list's plan sheet to standard output; or two lines that say why not.
// The answer is proved in `answer_check`; what is read and written here is tested and not proved.
#![tactic(auto)]

const STDIN: i32 = 0;

const STDOUT: i32 = 1;

// No answer is longer than 7,644 bytes.
fn main() {
    let mut input = [0u8; 32791];
    let mut out = [0u8; 7644];
    let n = io::read_full(STDIN, &mut input);
    let bytes = answer_check::price_input(text_inputs::front(&input, n as u64), &mut out);
    io::write_all(STDOUT, text_inputs::front(&out, bytes));
}
