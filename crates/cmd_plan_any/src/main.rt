// cmd_plan_any: a run sheet from standard input, its plan sheet to standard output; or two lines that say why not. The head may stand anywhere.
// The answer is proved in `answer_any`; what is read and written here is tested and not proved.
#![tactic(auto)]

use text_inputs::front;

const STDIN: i32 = 0;

const STDOUT: i32 = 1;

// A long row comes from a function of its own: where it is made and lent in one, the check counts its entries one by one.
fn empty_room() -> [u64; 655360] {
    [0u64; 655360]
}

// A byte more than a sheet may have is read. No answer is longer than 7,644 bytes. 5 MiB of room are within the usual limit of a stack, 8 MiB: they do
// for 64 wants with 159 reads.
// Stays: reads and prints as in `cmd_buys_any`; a function that takes the one which answers needs a `requires`, and no public function has any (R58).
fn main() {
    let mut sheet = [0u8; 16385];
    let mut out = [0u8; 7644];
    let mut room = empty_room();
    let n = io::read_full(STDIN, &mut sheet);
    let bytes = answer_any::recall_any(&sheet[..n], &mut out, &mut room);
    io::write_all(STDOUT, front(&out, bytes));
}
