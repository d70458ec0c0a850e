// desk_rows: the waiting table in a lent row of records, for two offices: filing, withdrawing, boarding, and an event of a day at the desk. Thin: the first 32
// records are copied out, the work is done by value, and they are copied back.
#![tactic(auto)]

ghost use Rattle.std.specs.Prelude.{◌≡◌};
ghost use Rattle.planner.specs.Rows.{rows_before, rows_after};
ghost use Rattle.desk_boardings.specs.Boardings.{tape_at};
ghost use Rattle.text_lines.specs.Lines.{line_of};
ghost use Rattle.answer_desk.specs.Events.{event_of};
ghost use Rattle.desk_rows.specs.Events.{told_by, told_row, LentAnswered, HeldAnswered};
ghost use Rattle.desk_rows.specs.Desk.{table_in, with_table, filed_from, row_filed, withdrawn_from, row_withdrawn, BoardsLent};

use answer_desk::{Answered, Day};
use desk_boardings::{Boarded, Boarding};
use desk_tickets::{Filed, Filing, Lasts, NO_TICKET, Ticket, Withdrawal, Withdrawn};
use refusals::Verdict;

mod journal;

pub use journal::{is_remark, take_line};

// What is answered to an event beside the row: the last numbers given, the verdict, and how many bytes the text has.
// Stays: one record and no Result, since RefusedAnswerLeavesTheRow in the promises reads the last numbers and the bytes on a refusal too.
#[derive(Clone, Copy)]
pub struct Told {
    pub lasts: Lasts,
    pub verdict: Verdict,
    pub bytes: u64,
}

// The same with the table afterwards.
// Stays: rows of an array, since the record is copied, and the house works without a heap.
#[derive(Clone, Copy)]
pub struct ToldRow {
    pub row: [Ticket; 32],
    pub told: Told,
}

// The first 32 records of a row; empty places where it has fewer.
fn copy_out(ts: &[Ticket]) -> [Ticket; 32]
    ensures { result ≡ table_in ts.now }
{
    let mut row = [NO_TICKET; 32];
    let n = ts.len().min(32);
    row[..n].copy_from_slice(&ts[..n]);
    row
}

// The records of a table in the first places of a row; later records stay.
fn copy_in(ts: &mut [Ticket], row: [Ticket; 32])
    ensures { ts.new ≡ with_table row ts.old }
{
    let n = ts.len().min(32);
    ts[..n].copy_from_slice(&row[..n]);
}

// A ticket filed in a lent row of records.
pub fn file(ts: &mut [Ticket], filing: Filing) -> Filed
    ensures value { result ≡ filed_from ts.old filing }
    ensures ts_after { ts.new ≡ row_filed ts.old filing }
{
    let len = ts.len();
    let row = copy_out(&ts[..]);
    let done = desk_tickets::file_in(len, row, filing);
    let next = done.row;
    copy_in(&mut ts[..], next);
    done.filed
}

// A ticket withdrawn from a lent row of records.
// Stays: as `file` over another call; one over a call that is passed in names its answer in a bound and in a clause, for five lines.
pub fn withdraw(ts: &mut [Ticket], withdrawal: Withdrawal) -> Withdrawn
    ensures value { result ≡ withdrawn_from ts.old withdrawal }
    ensures ts_after { ts.new ≡ row_withdrawn ts.old withdrawal }
{
    let len = ts.len();
    let row = copy_out(&ts[..]);
    let done = desk_tickets::withdraw_in(len, row, withdrawal);
    let next = done.row;
    copy_in(&mut ts[..], next);
    done.withdrawn
}

// Up to eight tickets boarded from a lent row of records: the planner's answer and who left; in the other rows the list, the times and the legs.
pub fn board(
    ts: &mut [Ticket],
    boarding: Boarding,
    starts: &[u64],
    lengths: &[u64],
    aggregates: &[u64],
    froms: &mut [u64],
    tos: &mut [u64],
    times: &mut [u64],
    legs: &mut [u64],
    room: &mut [u64],
) -> Boarded
    ensures { BoardsLent ts.old (tape_at starts lengths aggregates) boarding (rows_before froms tos times legs room) result (rows_after froms tos times legs room) ts.new }
{
    let len = ts.len();
    let row = copy_out(&ts[..]);
    let done = desk_boardings::board_in(
        len, row, boarding, starts, lengths, aggregates, froms, tos, times, legs, room,
    );
    let next = done.row;
    copy_in(&mut ts[..], next);
    done.boarded
}

fn told_by(done: Answered) -> Told
    ensures { result ≡ told_by done }
{
    let day = done.day;
    let lasts = day.lasts;
    let verdict = done.verdict;
    Told {
        lasts,
        verdict,
        bytes: done.bytes,
    }
}

fn told_row(row: [Ticket; 32], told: Told) -> ToldRow
    ensures { result ≡ told_row row told }
{
    ToldRow { row, told }
}

// The answer to one event of a day at one tape, on a lent row of records.
pub fn answer(
    ts: &mut [Ticket],
    lasts: Lasts,
    event: &[u8],
    starts: &[u64],
    lengths: &[u64],
    aggregates: &[u64],
    room: &mut [u64],
    out: &mut [u8],
) -> Told
    ensures { LentAnswered ts.old lasts (tape_at starts lengths aggregates) room.old out.old (event_of (line_of event.now)) result ts.new room.new out.new }
{
    let len = ts.len();
    let row = copy_out(&ts[..]);
    let day = Day { row, lasts };
    let done = answer_desk::answer(len, day, event, starts, lengths, aggregates, room, out);
    let after = done.day;
    let next = after.row;
    copy_in(&mut ts[..], next);
    told_by(done)
}

// The same on a table of its own, lent as a row.
pub fn answer_held(
    row: [Ticket; 32],
    lasts: Lasts,
    event: &[u8],
    starts: &[u64],
    lengths: &[u64],
    aggregates: &[u64],
    room: &mut [u64],
    out: &mut [u8],
) -> ToldRow
    ensures { HeldAnswered row lasts (tape_at starts lengths aggregates) room.old out.old (event_of (line_of event.now)) result room.new out.new }
{
    let mut table = row;
    let told = answer(
        &mut table[..],
        lasts,
        event,
        starts,
        lengths,
        aggregates,
        room,
        out,
    );
    told_row(table, told)
}
