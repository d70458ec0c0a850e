// The lines of a verdict on a list that is well formed.
ghost use Rattle.std.specs.Prelude.{◌≡◌, ◌+◌, ◌≤◌, length, drop};
ghost use Rattle.text_bytes.specs.Text.{is_text};
ghost use Rattle.text_lines.specs.Lines.{line_of};
ghost use Rattle.text_pages.specs.Printing.{Wrote, line, number_line};
ghost use Rattle.answer_check.specs.Checking.{formed_no, first_difference, walk_line, difference_lines};
ghost use Rattle.answer_check.specs.Private.{least_line_by, difference_most, verdict_by};

use crate::Difference;
use text_bytes::same;
use text_lines::find_value;
use text_pages::{put, put_line, put_number_line};

// The first line in which two texts differ.
fn difference(plan: &[u8], expected: &[u8]) -> Difference
    ensures { result ≡ first_difference plan.now expected.now }
{
    let mut line: u64 = 1;
    let mut start: usize = 0;
    for (i, byte) in plan.iter().enumerate() {
        if expected.len() <= i || *byte != expected[i] {
            return Difference { line, start };
        }
        if *byte == b'\n' {
            line += 1;
            start = i + 1;
        }
    }
    Difference { line, start }
}

// The line of a text that starts at a position, behind a key; empty where there is none.
fn put_line_at(page: &mut [u8], at: usize, key: &[u8], text: &[u8], start: usize) -> usize
    requires { at + (length key.now + length text.now + 1) ≤ length page.old }
    ensures { Wrote page.old at (line key.now (line_of (drop start text.now))) (length key.now + length text.now + 1) page.new result }
{
    let Some(value) = find_value(text, start, b"") else {
        return put_line(page, at, key, b"");
    };
    put_line(page, at, key, &text[value.from..value.end])
}

// Whether a sheet is the one that is expected, byte for byte.
fn is_walk(plan: &[u8], expected: &[u8]) -> bool
    ensures { result ≡ is_text expected.now plan.now }
{
    same(plan, expected)
}

// Whether the sheet is the walk's, in at most 29 bytes.
fn put_walk(page: &mut [u8], at: usize, plan: &[u8], expected: &[u8]) -> usize
    requires { at + 29 ≤ length page.old }
    ensures { Wrote page.old at (walk_line plan.now expected.now) 29 page.new result }
{
    if is_walk(plan, expected) {
        return put(page, at, b"walk=yes\n");
    }
    let first = difference(plan, expected);
    put_number_line(page, at, b"walk=no,", first.line)
}

// Whether the list is the least one, in at most 30 bytes.
fn put_least(page: &mut [u8], at: usize, least: bool, by: u64) -> usize
    requires { at + 30 ≤ length page.old }
    ensures { Wrote page.old at (least_line_by least by) 30 page.new result }
{
    if least {
        return put(page, at, b"least=yes\n");
    }
    put_number_line(page, at, b"least=no,", by)
}

// The line that differs, as it stands and as it should.
fn put_difference(page: &mut [u8], at: usize, plan: &[u8], expected: &[u8]) -> usize
    requires { at + difference_most plan.now expected.now ≤ length page.old }
    ensures { Wrote page.old at (difference_lines plan.now expected.now) (difference_most plan.now expected.now) page.new result }
{
    if is_walk(plan, expected) {
        return put(page, at, b"");
    }
    let first = difference(plan, expected);
    let start = first.start;
    let next = put_line_at(page, at, b"found=", plan, start);
    put_line_at(page, next, b"expected=", expected, start)
}

// The verdict on a well-formed list.
pub(crate) fn put_verdict(
    page: &mut [u8],
    plan: &[u8],
    expected: &[u8],
    least: bool,
    by: u64,
) -> usize
    requires { 70 + difference_most plan.now expected.now ≤ length page.old }
    ensures { Wrote page.old 0 (verdict_by plan.now expected.now least by) (70 + difference_most plan.now expected.now) page.new result }
{
    let walk_at = put(page, 0, b"formed=yes\n");
    let least_at = put_walk(page, walk_at, plan, expected);
    let next = put_least(page, least_at, least, by);
    put_difference(page, next, plan, expected)
}
