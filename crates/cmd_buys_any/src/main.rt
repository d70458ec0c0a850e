// cmd_buys_any: a run sheet from standard input, the figure sheet of its plan to standard output; or two lines that say why not. The head may stand
// anywhere. The answer is proved in `answer_buys_any`; what is read and written here is tested and not proved.
#![tactic(auto)]

use text_inputs::front;

const STDIN: i32 = 0;

const STDOUT: i32 = 1;

// A long row comes from a function of its own: where it is made and lent in one, the check counts its entries one by one.
fn empty_room() -> [u64; 655360] {
    [0u64; 655360]
}

// A byte more than a sheet may have is read. No answer is longer than 4,492 bytes. 5 MiB of room, as `cmd_plan_any` has.
fn main() {
    let mut sheet = [0u8; 16385];
    let mut out = [0u8; 4492];
    let mut room = empty_room();
    let n = io::read_full(STDIN, &mut sheet);
    let bytes = answer_buys_any::buys_any(&sheet[..n], &mut out, &mut room);
    io::write_all(STDOUT, front(&out, bytes));
}
