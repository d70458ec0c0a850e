// cmd_check: a run sheet and a plan sheet from standard input, the verdict on the latter to standard output; or two lines that say why not.
// The answer is proved in `answer_check`; what is read and written here is tested and not proved.
#![tactic(auto)]

const STDIN: i32 = 0;

const STDOUT: i32 = 1;

// A long row comes from a function of its own: where it is made and lent in one, the check counts its entries one by one.
fn empty_room() -> [u64; 655360] {
    [0u64; 655360]
}

// No answer is longer than 24,115 bytes. 5 MiB of room are within the usual limit of a stack, 8 MiB: they do for 64 wants with 159 reads.
fn main() {
    let mut input = [0u8; 32791];
    let mut out = [0u8; 24115];
    let mut room = empty_room();
    let n = io::read_full(STDIN, &mut input);
    let bytes = answer_check::check_input(
        text_inputs::front(&input, n as u64),
        &mut out,
        &mut room,
    );
    io::write_all(STDOUT, text_inputs::front(&out, bytes));
}
