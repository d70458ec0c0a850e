// Draws 3,000 runs and lists, writes the figure sheet or the refusal of each, and prints for every fifty of them one number, which all their bytes
// go into. What it must print stands beside it in stdout; tests/python/figures.py draws the same and works the sheets out from the paper's sentences.
#![tactic(auto)]

ghost use Rattle.std.specs.Prelude.{◌<◌};

use refusals::Verdict;
use sheet_runs::entries;
use sheet_writer::Written;
use text_inputs::front;

const STDOUT: i32 = 1;

const STARTS: [u64; 6] = [0, 10, 20, 30, 40, 50];

const NUMBERS: [u64; 6] = [1, 2, 3, 4, 5, 6];

// The next number in a row of numbers below 2^31 - 1.
fn next(number: u64) -> u64 {
    number % 2147483647 * 48271 % 2147483647
}

// A text's bytes, one after the other, into a number below 2^31 - 1.
fn mixed(text: &[u8], before: u64) -> u64 {
    let mut sum = before;
    for byte in text {
        sum = (sum % 2147483647 * 31 + u64::from(*byte)) % 2147483647;
    }
    sum
}

// Six numbers from 1 on, each up to the same, drawn by one.
fn six(number: u64, most: u64) -> [u64; 6]
    requires { 0 < most }
{
    let mut row = [0u64; 6];
    let mut rest = number;
    for entry in &mut row {
        *entry = (rest % most).wrapping_add(1);
        rest /= most;
    }
    row
}

// How many bytes of a row are the answer: those of the sheet, or of the lines of its refusal.
fn answered(sheet: Written, out: &mut [u8]) -> u64 {
    let refusal = sheet.refusal;
    let verdict = Verdict {
        refusal,
        place: sheet.place,
    };
    match verdict.told() {
        Ok(()) => sheet.bytes,
        Err(verdict) => sheet_writer::write_refusal(verdict, out).bytes,
    }
}

// Six wanted files, in every fourth run two of them in one aggregate, and up to three detours: drawn by three numbers.
fn show(a: u64, b: u64, c: u64, before: u64) -> u64 {
    let lengths = six(a, 8);
    let counts = six(b, 4);
    let together = a / 262144 % 4 / 3;
    let aggregates = [0u64, 0, together, together, 0, 0];
    let first = 5 + c % 2;
    let second = 3 + c / 2 % 2;
    let froms = [first, second, 2];
    let tos = [first + c / 4 % 2, second + c / 8 % 4, 2 + c / 32 % 5];
    let n = c / 256 % 4;
    let mut out = [0u8; 4492];
    let sheet = sheet_figures::write_figures(
        b"D",
        &STARTS,
        &lengths,
        &aggregates,
        &NUMBERS,
        &counts,
        60 + b / 4096 % 16,
        b / 65536 % 8,
        entries(&froms, n),
        entries(&tos, n),
        &mut out,
    );
    let bytes = answered(sheet, &mut out);
    mixed(front(&out, bytes), before)
}

// Fifty lists, from a number on.
fn fifty(first: u64) -> u64 {
    let mut sum: u64 = 0;
    for i in 1..=50 {
        let a = next(first.wrapping_add(i));
        let b = next(a);
        sum = show(a, b, next(b), sum);
    }
    sum
}

fn main() {
    for first in (0..3000).step_by(50) {
        io::print_decimal(STDOUT, first + 1);
        io::write_all(STDOUT, b": ");
        io::print_decimal(STDOUT, fifty(first));
        io::write_all(STDOUT, b"\n");
    }
}
