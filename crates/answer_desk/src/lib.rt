// answer_desk: a day at the desk of two offices: from one event's line to the day afterwards and the text of its answer.
// For the program, which reads a line, calls this and writes. It stands on the promises of the waiting table, of the boarding, of the line readers and
// of the writers; the rows that a boarding is lent, but for its working room, are on its own stack. A refusal changes nothing: not the day, not the row for
// the answer, not the room.
#![tactic(auto)]

ghost use Rattle.std.specs.Prelude.{◌≡◌};
ghost use Rattle.desk_boardings.specs.Boardings.{tape_at};
ghost use Rattle.text_lines.specs.Lines.{line_of};
ghost use Rattle.answer_desk.specs.Events.{event_of};
ghost use Rattle.answer_desk.specs.Days.{morning_day, FilingAnswered, WithdrawalAnswered, BoardingAnswered, EventAnswered, refused_answer, answered_by};
ghost use Rattle.answer_desk.specs.Private.{BoardedNow, Rehearsed, Needed};

use desk_boardings::Boarding;
use desk_tickets::{Filing, Lasts, NO_TICKET, Ticket, Withdrawal};
use refusals::{Refusal, Verdict};
use sheet_writer::Written;

mod events;
mod pages;

pub use events::read_event;

// No answer is longer.
pub const MOST_TEXT: usize = 2677;

// No boarding asks for more words of working room: eight wants with 1,024 reads.
pub const MOST_ROOM: usize = 65600;

// The waiting table and the last numbers given.
// Stays: rows of an array, since the record is copied, and the house works without a heap.
#[derive(Clone, Copy)]
pub struct Day {
    pub row: [Ticket; 32],
    pub lasts: Lasts,
}

// What an event's line holds.
#[derive(Clone, Copy)]
pub enum Event {
    File { office: u64, file: u64, count: u64 },
    Withdraw { office: u64, number: u64 },
    Board { head: u64, turn: u64 },
}

// The wants of a run, in the first entries of three rows: their files, and when and by which leg each is read.
// Stays: rows of an array, since the record is copied, and the house works without a heap.
#[derive(Clone, Copy)]
pub struct Reads {
    pub numbers: [u64; 8],
    pub times: [u64; 8],
    pub legs: [u64; 8],
}

// What is answered to an event: the day afterwards, the verdict, and how many bytes the text has. On a refusal the day as it was, and no byte.
// Stays: one record and no Result, since RefusedEventChangesNothing in the promises reads the day and the bytes on a refusal too.
#[derive(Clone, Copy)]
pub struct Answered {
    pub day: Day,
    pub verdict: Verdict,
    pub bytes: u64,
}

// A day's beginning: nobody waits and no number is given.
pub fn morning() -> Day
    ensures { result ≡ morning_day }
{
    Day {
        row: [NO_TICKET; 32],
        lasts: Lasts { one: 0, two: 0 },
    }
}

// A refusal: the day as it was.
fn refuse(day: Day, verdict: Verdict) -> Answered
    ensures { result ≡ refused_answer day verdict }
{
    Answered {
        day,
        verdict,
        bytes: 0,
    }
}

// The next day, where the text was written; 8 and the day as it was, where it does not go into the row.
fn answer_by(day: Day, next: Day, written: Written) -> Answered
    ensures { result ≡ answered_by day next written }
{
    let kind = written.refusal;
    let verdict = Verdict {
        refusal: kind,
        place: written.place,
    };
    if let Err(verdict) = verdict.told() {
        return refuse(day, verdict);
    }
    Answered {
        day: next,
        verdict: Verdict::accepted(),
        bytes: written.bytes,
    }
}

fn file(len: usize, day: Day, filing: Filing, out: &mut [u8]) -> Answered
    ensures { FilingAnswered len day filing out.old result out.new }
{
    let row = day.row;
    let done = desk_tickets::file_in(len, row, filing);
    let filed = done.filed;
    if let Err(verdict) = filed.verdict.told() {
        return refuse(day, verdict);
    }
    let written = pages::say_pair(b"filed=", filing.office, filed.number, out);
    let next = done.row;
    let lasts = filed.lasts;
    answer_by(day, Day { row: next, lasts }, written)
}

// Stays: as `file` with the answer of another call, whose fields have other names; one over both takes what it says of each as seven parameters.
fn withdraw(len: usize, day: Day, withdrawal: Withdrawal, out: &mut [u8]) -> Answered
    ensures { WithdrawalAnswered len day withdrawal out.old result out.new }
{
    let row = day.row;
    let done = desk_tickets::withdraw_in(len, row, withdrawal);
    let withdrawn = done.withdrawn;
    if let Err(verdict) = withdrawn.verdict.told() {
        return refuse(day, verdict);
    }
    let written = pages::say_pair(b"withdrawn=", withdrawal.office, withdrawal.number, out);
    let next = done.row;
    let lasts = withdrawn.lasts;
    answer_by(day, Day { row: next, lasts }, written)
}

// A boarding whose text goes into the row.
fn board_now(
    len: usize,
    day: Day,
    boarding: Boarding,
    starts: &[u64],
    lengths: &[u64],
    aggregates: &[u64],
    room: &mut [u64],
    out: &mut [u8],
) -> Answered
    ensures { BoardedNow len (tape_at starts lengths aggregates) day boarding room.old out.old result room.new out.new }
{
    let row = day.row;
    let mut froms = [0u64; 8];
    let mut tos = [0u64; 8];
    let mut times = [0u64; 8];
    let mut legs = [0u64; 8];
    let done = desk_boardings::board_in(
        len, row, boarding, starts, lengths, aggregates, &mut froms, &mut tos, &mut times,
        &mut legs, room,
    );
    let boarded = done.boarded;
    let answer = boarded.answer;
    let kind = answer.refusal;
    let verdict = Verdict {
        refusal: kind,
        place: answer.place,
    };
    if let Err(verdict) = verdict.told() {
        return refuse(day, verdict);
    }
    let wants = boarded.wants;
    let numbers = wants.numbers;
    let reads = Reads {
        numbers,
        times,
        legs,
    };
    let written = pages::say_boarding(row, boarded, froms, tos, reads, out);
    let next = done.row;
    let lasts = boarded.lasts;
    answer_by(day, Day { row: next, lasts }, written)
}

// The most room that a boarding uses. A long row comes from a function of its own: where it is made and lent in one, the check counts its entries one
// by one.
fn empty_room() -> [u64; 65600] {
    [0u64; 65600]
}

// How many bytes the text of a boarding in so many words of room has; 0 where it is refused. The text is made in rows of its own.
fn rehearse(
    len: usize,
    day: Day,
    boarding: Boarding,
    starts: &[u64],
    lengths: &[u64],
    aggregates: &[u64],
    words: usize,
) -> u64
    ensures { Rehearsed len (tape_at starts lengths aggregates) day boarding words result }
{
    let mut room = empty_room();
    let mut out = [0u8; 2677];
    let n = words.min(MOST_ROOM);
    let told = board_now(
        len,
        day,
        boarding,
        starts,
        lengths,
        aggregates,
        &mut room[..n],
        &mut out,
    );
    told.bytes
}

// The same where it must be known: a row that takes every text takes this one.
fn needed(
    row: usize,
    len: usize,
    day: Day,
    boarding: Boarding,
    starts: &[u64],
    lengths: &[u64],
    aggregates: &[u64],
    words: usize,
) -> u64
    ensures { Needed row len (tape_at starts lengths aggregates) day boarding words result }
{
    if MOST_TEXT <= row {
        return 0;
    }
    rehearse(len, day, boarding, starts, lengths, aggregates, words)
}

// A boarding. Whether its text goes into the row is known before the room is used, so that 8 leaves the room as it was too.
fn board(
    len: usize,
    day: Day,
    boarding: Boarding,
    starts: &[u64],
    lengths: &[u64],
    aggregates: &[u64],
    room: &mut [u64],
    out: &mut [u8],
) -> Answered
    ensures { BoardingAnswered len (tape_at starts lengths aggregates) day boarding room.old out.old result room.new out.new }
{
    let bytes = needed(
        out.len(),
        len,
        day,
        boarding,
        starts,
        lengths,
        aggregates,
        room.len(),
    );
    if (out.len() as u64) < bytes {
        return refuse(
            day,
            Verdict {
                refusal: Refusal::ShortRow,
                place: 0,
            },
        );
    }
    board_now(len, day, boarding, starts, lengths, aggregates, room, out)
}

// The answer to one event of a day, at one tape. `len` is the number of places of the row that the table stands in.
pub fn answer(
    len: usize,
    day: Day,
    event: &[u8],
    starts: &[u64],
    lengths: &[u64],
    aggregates: &[u64],
    room: &mut [u64],
    out: &mut [u8],
) -> Answered
    ensures { EventAnswered len (tape_at starts lengths aggregates) day room.old out.old (event_of (line_of event.now)) result room.new out.new }
{
    let lasts = day.lasts;
    let Some(read) = read_event(event) else {
        return refuse(
            day,
            Verdict {
                refusal: Refusal::BadLine,
                place: 0,
            },
        );
    };
    match read {
        Event::File {
            office,
            file: number,
            count,
        } => {
            let filing = Filing {
                office,
                file: number,
                count,
                files: starts.len() as u64,
                lasts,
            };
            file(len, day, filing, out)
        }
        Event::Withdraw { office, number } => {
            let withdrawal = Withdrawal {
                office,
                number,
                lasts,
            };
            withdraw(len, day, withdrawal, out)
        }
        Event::Board { head, turn } => {
            let boarding = Boarding { head, turn, lasts };
            board(len, day, boarding, starts, lengths, aggregates, room, out)
        }
    }
}
