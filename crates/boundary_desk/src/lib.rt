// boundary_desk: the waiting table of two offices for programs in C: filing, withdrawing, boarding, and an event at the desk, on a row of C's records. Thin:
// the table is read from the row, the work is done by value in the crates below, and an accepted call writes the table back. A record is four words in the
// order of `struct violstream_ticket`. include/violstream.h tells a C programmer the same in words; parameter order and meaning are fixed there.
#![tactic(auto)]

ghost use Rattle.std.specs.Prelude.{◌≡◌, cond, [], ◌∷◌, map, suc, ◌+◌, ◌*◌, ◌≤◌, length, get_or, take, drop, ltb};
ghost use Rattle.std.proofs.Math.Seq.{paste};
ghost use Rattle.desk_boardings.specs.Boardings.{tape_at};
ghost use Rattle.planner.specs.Rows.{rows_before, rows_after};
ghost use Rattle.answer_desk.specs.Answers.{place_in};
ghost use Rattle.boundary.specs.Boundary.{code_of, sums_with};
ghost use Rattle.boundary_desk.specs.Records.{words_of, ticket_in, table_at, records_with, lasts_in, with_lasts};
ghost use Rattle.boundary_desk.specs.Private.{places_of, Leaves, CanSettle, Settled};
ghost use Rattle.boundary_desk.specs.Calls.{filing_of, withdrawal_of, want_place, taken_with, one_line, FileCalled, WithdrawCalled, BoardCalled, EventCalled, WaitingCalled};

use answer_desk::Day;
use desk_boardings::{Boarded, BoardedRow, Boarding};
use desk_tickets::{Filing, Lasts, NO_TICKET, Ticket, Withdrawal};
use refusals::Verdict;
use walk::Answer;

// A verdict's code: 0, or a refusal's number plus 256 times its place.
fn code_of(v: Verdict) -> u64
    requires { v.place ≤ 4096 }
    ensures { result ≡ code_of v }
{
    let kind = v.refusal;
    refusals::number(kind) + 256 * v.place
}

// The ticket in a record of the row, which is an empty place behind the row's end.
fn record_at(tickets: &[[u64; 4]], i: usize) -> Ticket
    ensures { result ≡ ticket_in (get_or tickets.now i []) }
{
    let Some(words) = tickets.get(i) else {
        return NO_TICKET;
    };
    Ticket {
        office: words[0],
        file: words[1],
        count: words[2],
        number: words[3],
    }
}

// The table that a row holds.
fn table_at(tickets: &[[u64; 4]]) -> [Ticket; 32]
    ensures { result ≡ table_at tickets.now }
{
    let mut row = [NO_TICKET; 32];
    for i in 0..32 {
        row[i] = record_at(tickets, i);
    }
    row
}

// A ticket's record.
fn words_of(t: Ticket) -> [u64; 4]
    ensures { result ≡ words_of t }
{
    [t.office, t.file, t.count, t.number]
}

// A table in the first 32 records of a row.
fn put_table(tickets: &mut [[u64; 4]], row: [Ticket; 32])
    requires { 32 ≤ length tickets.old }
    ensures { tickets.new ≡ records_with row tickets.old }
{
    for i in 0..32 {
        tickets[i] = words_of(row[i]);
    }
}

// A word of a row, 0 behind its end.
fn word_at(words: &[u64], i: usize) -> u64
    ensures { result ≡ get_or words.now i 0 }
{
    words.get(i).copied().unwrap_or(0)
}

// The last numbers in a row.
fn lasts_in(lasts: &[u64]) -> Lasts
    ensures { result ≡ lasts_in lasts.now }
{
    let one = word_at(lasts, 0);
    let two = word_at(lasts, 1);
    Lasts { one, two }
}

fn put_lasts(lasts: &mut [u64], l: Lasts)
    requires { 2 ≤ length lasts.old }
    ensures { lasts.new ≡ with_lasts l lasts.old }
{
    lasts[0] = l.one;
    lasts[1] = l.two;
}

// So many places, or none where a row beside the records has too few words.
fn places_if(least: usize, words: usize, len: usize) -> usize
    ensures { result ≡ cond (ltb words least) 0 len }
{
    if words < least {
        return 0;
    }
    len
}

// A ticket filed in a row of C's records.
#[unsafe(no_mangle)]
pub extern "C" fn violstream_file(
    tickets: &mut [[u64; 4]],
    lasts: &mut [u64],
    office: u64,
    file: u64,
    count: u64,
    files: u64,
    given: &mut [u64],
) -> u64
    ensures { FileCalled tickets.old lasts.old (filing_of lasts.old office file count files) given.old result tickets.new lasts.new given.new }
{
    let row = table_at(&tickets[..]);
    let numbers = lasts_in(&lasts[..]);
    let filing = Filing {
        office,
        file,
        count,
        files,
        lasts: numbers,
    };
    let fit = places_if(2, lasts.len(), tickets.len());
    let len = places_if(1, given.len(), fit);
    let done = desk_tickets::file_in(len, row, filing);
    let filed = done.filed;
    let verdict = filed.verdict;
    let code = code_of(verdict);
    if verdict.told().is_err() {
        return code;
    }
    let next = done.row;
    put_table(tickets, next);
    let after = filed.lasts;
    put_lasts(lasts, after);
    given[0] = filed.number;
    code
}

// A ticket withdrawn from a row of C's records.
#[unsafe(no_mangle)]
pub extern "C" fn violstream_withdraw(
    tickets: &mut [[u64; 4]],
    lasts: &[u64],
    office: u64,
    number: u64,
) -> u64
    ensures { WithdrawCalled tickets.old lasts.now (withdrawal_of lasts.now office number) result tickets.new }
{
    let row = table_at(&tickets[..]);
    let numbers = lasts_in(lasts);
    let withdrawal = Withdrawal {
        office,
        number,
        lasts: numbers,
    };
    let len = places_if(2, lasts.len(), tickets.len());
    let done = desk_tickets::withdraw_in(len, row, withdrawal);
    let withdrawn = done.withdrawn;
    let verdict = withdrawn.verdict;
    let code = code_of(verdict);
    if verdict.told().is_err() {
        return code;
    }
    let next = done.row;
    put_table(tickets, next);
    code
}

// The place of a file among the wants' file numbers, counted from 1.
fn want_place(file: u64, numbers: [u64; 8]) -> u64
    ensures { result ≡ suc (place_in file numbers) }
{
    for (i, number) in numbers.iter().enumerate() {
        if *number == file {
            return (i + 1) as u64;
        }
    }
    9
}

// The places of the wants of n tickets of the table, from place `first` on, in a row from `at` on.
fn put_places(
    taken: &mut [u64],
    at: usize,
    row: [Ticket; 32],
    first: usize,
    n: usize,
    numbers: [u64; 8],
)
    requires n_bound { first + n ≤ 32 }
    requires n_in_bounds { at + n ≤ length taken.old }
    ensures { taken.new ≡ paste taken.old at (places_of numbers (take n (drop first row))) n }
{
    for i in 0..n {
        taken[at + i] = want_place(row[first + i].file, numbers);
    }
}

// Who has left: how many of each office, and the place of each one's want.
fn put_taken(taken: &mut [u64], row: [Ticket; 32], boarded: Boarded)
    requires leaves { Leaves row boarded }
    requires in_bounds { 10 ≤ length taken.old }
    ensures { taken.new ≡ taken_with row boarded taken.old }
{
    let who = boarded.taken;
    let wants = boarded.wants;
    let numbers = wants.numbers;
    taken[0] = who.one as u64;
    taken[1] = who.two as u64;
    put_places(taken, 2, row, 0, who.one, numbers);
    put_places(taken, 2 + who.one, row, 16, who.two, numbers);
}

// The four words of an accepted boarding's plan.
// Stays: as in boundary, where it is private: a public function asks no room of a row.
fn fill_sums(a: Answer, sums: &mut [u64])
    requires { 4 ≤ length sums.old }
    ensures { sums.new ≡ sums_with a sums.old }
{
    sums[0] = a.sum;
    sums[1] = a.finish;
    sums[2] = a.end;
    sums[3] = a.detours;
}

// What a boarding leaves: refused, everything as it was; else the table of those who stay, who has left and the sums.
fn settle(
    tickets: &mut [[u64; 4]],
    taken: &mut [u64],
    sums: &mut [u64],
    row: [Ticket; 32],
    done: BoardedRow,
) -> u64
    requires { CanSettle tickets.old taken.old sums.old row done }
    ensures { Settled row done tickets.old taken.old sums.old result tickets.new taken.new sums.new }
{
    let boarded = done.boarded;
    let answer = boarded.answer;
    let kind = answer.refusal;
    let verdict = Verdict {
        refusal: kind,
        place: answer.place,
    };
    let code = code_of(verdict);
    if verdict.told().is_err() {
        return code;
    }
    let next = done.row;
    put_table(tickets, next);
    put_taken(taken, row, boarded);
    fill_sums(answer, sums);
    code
}

// Up to eight tickets boarded from a row of C's records.
#[unsafe(no_mangle)]
pub extern "C" fn violstream_board(
    tickets: &mut [[u64; 4]],
    lasts: &[u64],
    starts: &[u64],
    lengths: &[u64],
    aggregates: &[u64],
    head: u64,
    turn: u64,
    detour_starts: &mut [u64],
    detour_ends: &mut [u64],
    times: &mut [u64],
    legs: &mut [u64],
    room: &mut [u64],
    taken: &mut [u64],
    sums: &mut [u64],
) -> u64
    ensures { BoardCalled tickets.old lasts.now (tape_at starts lengths aggregates) head turn (rows_before detour_starts detour_ends times legs room) taken.old sums.old result tickets.new (rows_after detour_starts detour_ends times legs room) taken.new sums.new }
{
    let row = table_at(&tickets[..]);
    let numbers = lasts_in(lasts);
    let boarding = Boarding {
        head,
        turn,
        lasts: numbers,
    };
    let with_lasts = places_if(2, lasts.len(), tickets.len());
    let with_taken = places_if(10, taken.len(), with_lasts);
    let len = places_if(4, sums.len(), with_taken);
    let done = desk_boardings::board_in(
        len,
        row,
        boarding,
        starts,
        lengths,
        aggregates,
        detour_starts,
        detour_ends,
        times,
        legs,
        room,
    );
    settle(tickets, taken, sums, row, done)
}

// How many bytes of a text are one line with its LF: all of them, or else none.
fn one_line(line: &[u8]) -> usize
    ensures line_value { take result line.now ≡ one_line line.now }
    ensures upper_bound { result ≤ length line.now }
{
    let Some(end) = text_bytes::find(line, b'\n') else {
        return 0;
    };
    if end + 1 == line.len() {
        return line.len();
    }
    0
}

// The answer to one event of a day at one tape, on a row of C's records.
#[unsafe(no_mangle)]
pub extern "C" fn violstream_event(
    tickets: &mut [[u64; 4]],
    lasts: &mut [u64],
    starts: &[u64],
    lengths: &[u64],
    aggregates: &[u64],
    line: &[u8],
    out: &mut [u8],
    room: &mut [u64],
    sizes: &mut [u64],
) -> u64
    ensures { EventCalled tickets.old lasts.old (tape_at starts lengths aggregates) line.now out.old room.old sizes.old result tickets.new lasts.new out.new room.new sizes.new }
{
    let row = table_at(&tickets[..]);
    let numbers = lasts_in(&lasts[..]);
    let day = Day {
        row,
        lasts: numbers,
    };
    let fit = places_if(2, lasts.len(), tickets.len());
    let len = places_if(1, sizes.len(), fit);
    let bytes = one_line(line);
    let done = answer_desk::answer(
        len,
        day,
        &line[..bytes],
        starts,
        lengths,
        aggregates,
        room,
        out,
    );
    let verdict = done.verdict;
    let code = code_of(verdict);
    if verdict.told().is_err() {
        return code;
    }
    let after = done.day;
    let next = after.row;
    put_table(tickets, next);
    let given = after.lasts;
    put_lasts(lasts, given);
    sizes[0] = done.bytes;
    code
}

// Who waits in a row of C's records.
#[unsafe(no_mangle)]
pub extern "C" fn violstream_waiting(tickets: &[[u64; 4]], out: &mut [u8], sizes: &mut [u64]) -> u64
    ensures { WaitingCalled tickets.now out.old sizes.old result out.new sizes.new }
{
    let row = table_at(tickets);
    let len = places_if(1, sizes.len(), tickets.len());
    let told = desk_waits::tell_waiting(len, row, out);
    let kind = told.refusal;
    let verdict = Verdict {
        refusal: kind,
        place: told.place,
    };
    let code = code_of(verdict);
    if verdict.told().is_err() {
        return code;
    }
    sizes[0] = told.bytes;
    code
}

// A version as a number: 10,000 times its first, 100 times its second, and its third.
fn version_of(first: u64, second: u64, third: u64) -> u64
    requires first_bound { first ≤ 99 }
    requires second_bound { second ≤ 99 }
    requires third_bound { third ≤ 99 }
    ensures { result ≡ 10000 * first + 100 * second + third }
{
    10000 * first + 100 * second + third
}

// The library's version.
#[unsafe(no_mangle)]
pub extern "C" fn violstream_version() -> u64
    ensures { result ≡ 40000 }
{
    version_of(4, 0, 0)
}
