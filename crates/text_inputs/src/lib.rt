// text_inputs: what programs share that take several texts from one standard input, each behind a line with the number of its bytes.
// What is read is the system's: contracts say where it is put and how much it can be. How an input that was read is cut, they say in full.
#![tactic(auto)]

ghost use Rattle.std.specs.Prelude.{◌≡◌, ◌+◌, ◌≤◌, length, take};
ghost use Rattle.text_inputs.specs.Inputs.{framed, framed_behind, part_in, part_place, LineRead, ReadOf};

use text_lines::number_line;

const STDIN: i32 = 0;

// Where a sheet stands in an input. What follows it is the other text.
#[derive(Clone, Copy)]
pub struct Framed {
    pub from: usize,
    pub to: usize,
}

// How many bytes were kept, and how many there were.
#[derive(Clone, Copy)]
pub struct Got {
    pub kept: u64,
    pub all: u64,
}

// The sheet of so many bytes from a place on, or what is left of it where the input was cut off.
fn frame_behind(from: usize, bytes: u64, left: usize, cut: bool) -> Option<Framed>
    requires { from + left ≤ 18446744073709551615 }
    ensures { result ≡ framed_behind from bytes left cut }
{
    if bytes <= left as u64 {
        return Some(Framed {
            from,
            to: from + bytes as usize,
        });
    }
    if cut {
        return Some(Framed {
            from,
            to: from + left,
        });
    }
    None
}

// A line with the sheet's number of bytes, and so many bytes. Of an input that was cut off the sheet is what is there: it is too long for one.
pub fn frame(input: &[u8], cut: bool) -> Option<Framed>
    ensures { result ≡ framed input.now cut }
{
    let Some(line) = number_line(input, 0, b"") else {
        return None;
    };
    let left = input.len() - line.next;
    frame_behind(line.next, line.number, left, cut)
}

// The bytes from one place to another; the whole text where these are no places in it.
pub fn part(text: &[u8], from: usize, to: usize) -> &[u8]
    ensures result_value { result.now ≡ part_in text.now from to }
    ensures ref_ptr_value { result.ref_ptr ≡ part_place (length text.now) from to text.entry.ref_ptr }
{
    if from <= to {
        if to <= text.len() {
            return &text[from..to];
        }
    }
    text
}

// The first n bytes of a row, or the row where it has fewer.
pub fn front(row: &[u8], n: u64) -> &[u8]
    ensures result_value { result.now ≡ take n row.now }
    ensures ref_ptr_value { result.ref_ptr ≡ row.entry.ref_ptr }
{
    let end = n as usize;
    if end <= row.len() {
        return &row[..end];
    }
    row
}

// What is read next.
fn next_byte() -> Option<u8> {
    let mut byte = [0u8; 1];
    if io::read_full(STDIN, &mut byte) == 0 {
        return None;
    }
    Some(byte[0])
}

// Up to the LF, which is among the bytes, to the end of the input or to the end of the row: how many bytes there are.
pub fn read_line(line: &mut [u8]) -> usize
    ensures { LineRead line.old result line.new }
{
    for n in 0..line.len() {
        let Some(byte) = next_byte() else {
            return n;
        };
        line[n] = byte;
        if byte == b'\n' {
            return n + 1;
        }
    }
    line.len()
}

// One read of at most so many bytes, which go nowhere: how many there were.
fn pass_some(left: u64) -> u64
    ensures { result ≤ left }
{
    let mut space = io::large_buffer();
    let most = left.min(65536) as usize;
    let got = io::read_full(STDIN, &mut space[..most]);
    left.min(got as u64)
}

// Passes over so many bytes: how many of them there were.
fn pass_over(bytes: u64) -> u64
    ensures { result ≤ bytes }
{
    let mut left = bytes;
    while 0 < left {
        let some = pass_some(left);
        if some == 0 {
            return bytes - left;
        }
        left -= some;
    }
    bytes
}

// So many bytes into the front of a row: how many there were.
fn read_front(row: &mut [u8], most: usize) -> usize {
    if most <= row.len() {
        return io::read_full(STDIN, &mut row[..most]);
    }
    0
}

// So many bytes: as many as a row holds are kept in its front, the rest is passed over. Where the input ends before the row is full there is no rest.
pub fn read_bytes(row: &mut [u8], bytes: u64) -> Got
    ensures { ReadOf (length row.old) bytes result }
{
    let most = bytes.min(row.len() as u64);
    let kept = most.min(read_front(row, most as usize) as u64);
    if kept < most {
        return Got { kept, all: kept };
    }
    let more = pass_over(bytes - most);
    Got {
        kept,
        all: kept + more,
    }
}
