// A line of a journal: a remark, which is passed over, or an event.
ghost use Rattle.std.specs.Prelude.{◌≡◌};
ghost use Rattle.desk_boardings.specs.Boardings.{tape_at};
ghost use Rattle.desk_rows.specs.Journal.{is_remark, LineTaken};

use crate::{Told, ToldRow, answer_held};
use desk_tickets::{Lasts, Ticket};
use refusals::Verdict;

// Whether a line begins with #.
pub fn is_remark(line: &[u8]) -> bool
    ensures { result ≡ is_remark line.now }
{
    line.starts_with(b"#")
}

// The answer to one line of a journal at one tape. A remark changes nothing and is told nothing.
pub fn take_line(
    row: [Ticket; 32],
    lasts: Lasts,
    line: &[u8],
    starts: &[u64],
    lengths: &[u64],
    aggregates: &[u64],
    room: &mut [u64],
    out: &mut [u8],
) -> ToldRow
    ensures { LineTaken row lasts (tape_at starts lengths aggregates) room.old out.old line.now result room.new out.new }
{
    if is_remark(line) {
        let told = Told {
            lasts,
            verdict: Verdict::accepted(),
            bytes: 0,
        };
        return ToldRow { row, told };
    }
    answer_held(row, lasts, line, starts, lengths, aggregates, room, out)
}
