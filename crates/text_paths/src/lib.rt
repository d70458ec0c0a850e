// text_paths: a list of paths, one on each line: judging it, how many lines it has, and where each path stands in it.
// For the reader that looks for files by their paths, which sees only these contracts. What the words mean stands in specs/; each public function
// answers every text.
#![tactic(auto)]

ghost use Rattle.std.specs.Prelude.{◌≡◌, not, ◌&&◌, ◌+◌, ◌-◌, ◌≤◌, ◌<◌, length, drop, take, eqb};
ghost use Rattle.refusals.specs.Refusals.{checked};
ghost use Rattle.text_lines.specs.Found.{LinesFound};
ghost use Rattle.text_paths.specs.Paths.{slash, is_path, slashes_of, is_asked, line_count, paths_verdict};
ghost use Rattle.text_paths.specs.Rows.{PathFound, PathsRead};
ghost use Rattle.text_paths.specs.Private.{counted_at};

use refusals::{Refusal, Verdict};
use text_lines::{BadLine, Keyed, find_value};

// No list has more lines.
pub const MOST_LINES: usize = 1024;

// Where the path of a line stands: from one position to another, at which the LF stands.
#[derive(Clone, Copy)]
pub struct PathLine {
    pub from: usize,
    pub end: usize,
}

// Whether a `/` stands where no name has begun.
fn is_stray(begun: bool, byte: u8) -> bool
    ensures { result ≡ (not begun && eqb byte slash) }
{
    !begun && byte == b'/'
}

// Whether a text is a path: names joined by `/`, none of them empty.
pub fn is_path(text: &[u8]) -> bool
    ensures { result ≡ is_path text.now }
{
    let mut begun = false;
    for &byte in text {
        if is_stray(begun, byte) {
            return false;
        }
        begun = byte != b'/';
    }
    begun
}

// Behind the `/` that a part of a text may begin with.
fn behind_slash(text: &[u8], at: usize, end: usize) -> usize
    requires { (at ≤ end) × (end ≤ length text.now) }
    ensures { (result ≡ at + slashes_of (take (end - at) (drop at text.now))) × (result ≤ end) }
{
    if at == end {
        return at;
    }
    if text[at] == b'/' {
        return at + 1;
    }
    at
}

// The path on the line that starts at a position. One `/` before it means nothing.
pub fn path_line(text: &[u8], at: usize) -> Option<PathLine>
    ensures { PathFound text.now at result }
{
    let Keyed { from: start, end } = find_value(text, at, b"")?;
    let from = behind_slash(text, start, end);
    if !is_path(&text[from..end]) {
        return None;
    }
    Some(PathLine { from, end })
}

// One more where a line ends.
fn counted(count: usize, byte: u8) -> usize
    requires { count < 18446744073709551615 }
    ensures { result ≡ counted_at count byte }
{
    if byte == b'\n' {
        return count + 1;
    }
    count
}

// How many lines a list has.
pub fn count_lines(text: &[u8]) -> usize
    ensures { result ≡ line_count text.now }
{
    let mut count: usize = 0;
    let mut begun = false;
    for &byte in text {
        count = counted(count, byte);
        begun = byte != b'\n';
    }
    if begun {
        return count + 1;
    }
    count
}

// So many lines that each ask for something, or the first that does not.
fn path_lines(text: &[u8], count: usize) -> Result<usize, BadLine>
    ensures { LinesFound is_asked text.now 0 count result }
{
    let mut next: usize = 0;
    for i in 0..count {
        let Some(path) = path_line(text, next) else {
            return Err(BadLine { line: i as u64 + 1 });
        };
        next = path.end + 1;
    }
    Ok(next)
}

// 11 with the line, or 5.
pub fn judge_list(text: &[u8]) -> Result<(), Verdict>
    ensures { result ≡ checked (paths_verdict text.now) }
{
    let count = count_lines(text);
    match path_lines(text, count) {
        Err(bad) => Refusal::BadLine.at(bad.line),
        Ok(_) => Refusal::TooManyReads.when(MOST_LINES < count),
    }
}

// Where the paths of so many lines stand, into the first entries of two rows: up to the first line that asks for nothing, and to the end of the
// shorter row.
pub fn fill_paths(text: &[u8], count: usize, starts: &mut [usize], ends: &mut [usize])
    ensures { PathsRead text.now count starts.old ends.old starts.new ends.new }
{
    let room = starts.len().min(ends.len());
    let most = count.min(room);
    let mut next: usize = 0;
    for i in 0..most {
        let Some(path) = path_line(text, next) else {
            return;
        };
        starts[i] = path.from;
        ends[i] = path.end;
        next = path.end + 1;
    }
}
