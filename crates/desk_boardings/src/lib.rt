// desk_boardings: up to eight waiting tickets leave on one run, planned by the first engine. Who boards, their wants and the row of those that stay are
// made by value; one function lends the planner's rows. All is judged before the first write.
#![tactic(auto)]

ghost use Rattle.std.specs.Prelude.{◌≡◌};
ghost use Rattle.planner.specs.Rows.{rows_before, rows_after};
ghost use Rattle.desk_boardings.specs.Boarders.{share, wants_of};
ghost use Rattle.desk_boardings.specs.Boardings.{Boards, tape_at, taken_of, want_rows, not_boarded, boarded_by};
ghost use Rattle.desk_boardings.specs.Private.{SoundRow};

use crate::gathering::wants_of;
use desk_tickets::{Lasts, Ticket};
use refusals::Refusal;
use walk::Answer;

mod gathering;

// The most tickets of a boarding, and those that each office has first claim to.
pub const MOST_BOARDERS: usize = 8;

pub const OWN_PLACES: usize = 4;

// Where the head stands, the price of a turn, and the last numbers given to the offices.
#[derive(Clone, Copy)]
pub struct Boarding {
    pub head: u64,
    pub turn: u64,
    pub lasts: Lasts,
}

// How many tickets of each office have left.
#[derive(Clone, Copy)]
pub struct Taken {
    pub one: usize,
    pub two: usize,
}

// So many wants, in the first entries of two rows: file numbers and counts. Behind them stand zeros.
// Stays: rows of an array, since the record is copied, and the house works without a heap.
#[derive(Clone, Copy)]
pub struct Wants {
    pub k: usize,
    pub numbers: [u64; 8],
    pub counts: [u64; 8],
}

// What a boarding answers: the planner's answer, who left, the wants that were planned, whose times and legs are in the lent rows, and the last numbers
// as they were.
#[derive(Clone, Copy)]
pub struct Boarded {
    pub answer: Answer,
    pub taken: Taken,
    pub wants: Wants,
    pub lasts: Lasts,
}

// The same with the row afterwards.
// Stays: rows of an array, since the record is copied, and the house works without a heap.
#[derive(Clone, Copy)]
pub struct BoardedRow {
    pub boarded: Boarded,
    pub row: [Ticket; 32],
}

// How many of an office's tickets board, by how many wait there and at the other office.
fn share_of(mine: usize, others: usize) -> usize
    ensures { result ≡ share mine others }
{
    let kept = OWN_PLACES.min(others);
    mine.min(MOST_BOARDERS - kept)
}

// How many of each office board.
fn taken_of(row: [Ticket; 32]) -> Taken
    ensures { result ≡ taken_of row }
{
    let ones = desk_tickets::count_waiting(row, 1);
    let twos = desk_tickets::count_waiting(row, 2);
    Taken {
        one: share_of(ones, twos),
        two: share_of(twos, ones),
    }
}

// The answer where nobody boards.
fn not_boarded(row: [Ticket; 32], lasts: Lasts, answer: Answer) -> BoardedRow
    ensures { result ≡ not_boarded row lasts answer }
{
    let none = Wants {
        k: 0,
        numbers: [0u64; 8],
        counts: [0u64; 8],
    };
    BoardedRow {
        boarded: Boarded {
            answer,
            taken: Taken { one: 0, two: 0 },
            wants: none,
            lasts,
        },
        row,
    }
}

// The answer by the plan's.
fn boarded_by(
    row: [Ticket; 32],
    lasts: Lasts,
    taken: Taken,
    wants: Wants,
    answer: Answer,
) -> BoardedRow
    requires sound_row { SoundRow row }
    requires taken_value { taken ≡ taken_of row }
    requires wants_value { wants ≡ want_rows (wants_of row) }
    ensures { result ≡ boarded_by row lasts answer }
{
    let kind = answer.refusal;
    if kind != Refusal::Accepted {
        return not_boarded(row, lasts, answer);
    }
    let staying = desk_tickets::without_first(row, taken.one, taken.two);
    BoardedRow {
        boarded: Boarded {
            answer,
            taken,
            wants,
            lasts,
        },
        row: staying,
    }
}

// Boards: the answer and the row afterwards; and in the lent rows the list, the times and the legs of the wants.
pub fn board_in(
    len: usize,
    row: [Ticket; 32],
    boarding: Boarding,
    starts: &[u64],
    lengths: &[u64],
    aggregates: &[u64],
    froms: &mut [u64],
    tos: &mut [u64],
    times: &mut [u64],
    legs: &mut [u64],
    room: &mut [u64],
) -> BoardedRow
    ensures { Boards len (tape_at starts lengths aggregates) row boarding (rows_before froms tos times legs room) result (rows_after froms tos times legs room) }
{
    let lasts = boarding.lasts;
    if let Err(verdict) = desk_tickets::judge_row(len, row, lasts) {
        return not_boarded(row, lasts, walk::refuse(verdict));
    }
    let taken = taken_of(row);
    let wants = wants_of(row, taken);
    let k = wants.k;
    let numbers = wants.numbers;
    let counts = wants.counts;
    let answer = planner::plan(
        starts,
        lengths,
        aggregates,
        &numbers[..k],
        &counts[..k],
        boarding.head,
        boarding.turn,
        froms,
        tos,
        times,
        legs,
        room,
    );
    boarded_by(row, lasts, taken, wants, answer)
}
