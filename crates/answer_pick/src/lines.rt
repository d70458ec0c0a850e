// The lines of a list, judged by what was found for them.
ghost use Rattle.std.specs.Prelude.{◌≡◌};
ghost use Rattle.answer_pick.specs.Private.{is_bad, first_bad, row_checks};

use crate::{Refused, refused_at};
use refusals::{OwnRefusal, Refusal, number, own_number};
use runs::LAST_PLACE;

// What a line is refused for: no file of its path or several; a file that cannot be read; an end above the limit.
#[derive(Clone, Copy)]
enum Test {
    Unknown,
    NoBytes,
    Far,
}

fn is_bad(test: Test, value: u64) -> bool
    ensures { result ≡ is_bad test value }
{
    match test {
        Test::Unknown => (value == 0) | (value == 2),
        Test::NoBytes => value == 3,
        Test::Far => LAST_PLACE < value,
    }
}

// The first such line, counted from 1; 0 where there is none.
// Stays: 0 and no Option, since `first_where` counts so, by which `PickAnswered` tells the line.
fn first_bad(test: Test, row: &[u64]) -> u64
    ensures { result ≡ first_bad test row.now }
{
    match row.iter().position(|value| is_bad(test, *value)) {
        Some(i) => i as u64 + 1,
        None => 0,
    }
}

// 41, 42 and 23.
pub(crate) fn judge_lines(states: &[u64], ends: &[u64]) -> Refused
    ensures { result ≡ row_checks states.now ends.now }
{
    let unknown = first_bad(Test::Unknown, states);
    if unknown != 0 {
        return refused_at(unknown, own_number(OwnRefusal::UnknownPath));
    }
    let without = first_bad(Test::NoBytes, states);
    if without != 0 {
        return refused_at(without, own_number(OwnRefusal::NoBytes));
    }
    refused_at(first_bad(Test::Far, ends), number(Refusal::FarFile))
}
