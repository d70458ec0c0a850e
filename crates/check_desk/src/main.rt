// A long day of two offices at one tape, over the by-value functions of the desk: 1,500 filings, withdrawals and boardings are drawn, on sound rows of
// records and on damaged ones, and for every fifty of them one number is printed, which all answers and all rows go into. What it must print stands
// beside it in stdout; tests/python/desk.py draws the same day and works it out from the requests' sentences.
#![tactic(auto)]

use desk_boardings::{BoardedRow, Boarding};
use desk_tickets::{Filing, Lasts, Ticket, Withdrawal};
use refusals::number;

const STDOUT: i32 = 1;

// The tape: where its files start, how long they are, and which lie in an aggregate.
const STARTS: [u64; 20] = [
    0, 12, 30, 31, 50, 64, 80, 81, 95, 120, 121, 140, 150, 171, 180, 200, 210, 230, 231, 260,
];

const LENGTHS: [u64; 20] = [
    10, 18, 1, 15, 14, 9, 1, 14, 20, 1, 19, 7, 20, 9, 13, 10, 20, 1, 20, 40,
];

const AGGREGATES: [u64; 20] = [
    0, 0, 0, 7, 7, 0, 0, 0, 0, 2, 2, 2, 0, 0, 0, 0, 4096, 4096, 0, 0,
];

// The table of both offices, the last numbers given, and the number that the answers have gone into.
// Stays: rows of an array, since the record is copied, and the house works without a heap.
#[derive(Clone, Copy)]
pub struct Day {
    pub table: [Ticket; 32],
    pub lasts: Lasts,
    pub sum: u64,
}

// The next number in a row of numbers below 2^31 - 1.
fn next(number: u64) -> u64 {
    number % 2147483647 * 48271 % 2147483647
}

// A number, into one below 2^31 - 1.
fn mixed(before: u64, value: u64) -> u64 {
    (before % 2147483647 * 31 + value % 2147483647) % 2147483647
}

// Some numbers, one after the other.
fn mixed_all(before: u64, row: &[u64]) -> u64 {
    row.iter().fold(before, |sum, value| mixed(sum, *value))
}

fn mixed_table(before: u64, table: [Ticket; 32]) -> u64 {
    let mut sum = before;
    for t in &table {
        sum = mixed_all(sum, &[t.office, t.file, t.count, t.number]);
    }
    sum
}

// A table with one record changed.
fn damaged(table: [Ticket; 32], a: u64, b: u64) -> [Ticket; 32] {
    let mut other = table;
    let i = (a % 32) as usize;
    let t = table[i];
    other[i] = Ticket {
        office: b % 4,
        file: b / 4 % 8 * 700,
        count: b / 32 % 8 * 20,
        number: t.number.wrapping_add(b / 256 % 4 / 3),
    };
    other
}

// A ticket of either office, one in sixteen of neither, with a file that the tape may lack and a count that may be out of range. By the hour both
// offices file, or one of them mostly.
fn filing_of(i: u64, a: u64, b: u64, lasts: Lasts) -> Filing {
    let office = 1 + (a % 8 + 1 + i / 200 % 3 * 3) / 8;
    Filing {
        office: office + a / 8 % 16 / 15 * 4,
        file: b % 22,
        count: b / 22 % 8 + b / 176 % 16 / 15 * 122,
        files: 20 - a / 128 % 16 / 15 * 15,
        lasts,
    }
}

fn file(day: Day, len: usize, filing: Filing) -> Day {
    let table = day.table;
    let done = desk_tickets::file_in(len, table, filing);
    let answer = done.filed;
    let verdict = answer.verdict;
    let kind = verdict.refusal;
    let lasts = answer.lasts;
    let after = done.row;
    let told = [
        number(kind),
        verdict.place,
        answer.number,
        lasts.one,
        lasts.two,
    ];
    Day {
        table: after,
        lasts,
        sum: mixed_table(mixed_all(day.sum, &told), after),
    }
}

// One of an office's last 24 numbers, or one never given; one in sixteen of neither office.
fn withdrawal_of(a: u64, b: u64, lasts: Lasts) -> Withdrawal {
    let last = if a % 2 == 1 { lasts.two } else { lasts.one };
    Withdrawal {
        office: 1 + a % 2 + a / 8 % 16 / 15 * 4,
        number: last.wrapping_sub(b % 24),
        lasts,
    }
}

fn withdraw(day: Day, len: usize, withdrawal: Withdrawal) -> Day {
    let table = day.table;
    let done = desk_tickets::withdraw_in(len, table, withdrawal);
    let answer = done.withdrawn;
    let verdict = answer.verdict;
    let kind = verdict.refusal;
    let lasts = answer.lasts;
    let after = done.row;
    let told = [number(kind), verdict.place, lasts.one, lasts.two];
    Day {
        table: after,
        lasts,
        sum: mixed_table(mixed_all(day.sum, &told), after),
    }
}

// What a boarding answers, but for its rows.
fn mixed_boarding(before: u64, done: BoardedRow) -> u64 {
    let boarded = done.boarded;
    let answer = boarded.answer;
    let taken = boarded.taken;
    let wants = boarded.wants;
    let kind = answer.refusal;
    let numbers = wants.numbers;
    let counts = wants.counts;
    let lasts = boarded.lasts;
    let told = [
        number(kind),
        answer.place,
        answer.sum,
        answer.finish,
        answer.end,
        answer.detours,
        taken.one as u64,
        taken.two as u64,
    ];
    let more = [wants.k as u64, lasts.one, lasts.two];
    let sum = mixed_all(mixed_all(before, &told), &more);
    mixed_all(mixed_all(sum, &numbers), &counts)
}

// The rows that were lent, of the room three words.
fn mixed_rows(
    before: u64,
    froms: [u64; 8],
    tos: [u64; 8],
    times: [u64; 8],
    legs: [u64; 8],
    words: [u64; 3],
) -> u64 {
    let list = mixed_all(mixed_all(before, &froms), &tos);
    mixed_all(mixed_all(mixed_all(list, &times), &legs), &words)
}

// Long room comes from a function of its own: where a row is made and lent in one, the check counts its entries one by one.
fn some_room() -> [u64; 65600] {
    [9u64; 65600]
}

fn board(day: Day, len: usize, boarding: Boarding, entries: usize, words: usize) -> Day {
    let mut froms = [9u64; 8];
    let mut tos = [9u64; 8];
    let mut times = [9u64; 8];
    let mut legs = [9u64; 8];
    let mut room = some_room();
    let table = day.table;
    let n = entries % 9;
    let w = words % 65601;
    let done = desk_boardings::board_in(
        len,
        table,
        boarding,
        &STARTS,
        &LENGTHS,
        &AGGREGATES,
        &mut froms,
        &mut tos,
        &mut times,
        &mut legs[..n],
        &mut room[..w],
    );
    let seen = [room[0], room[63], room[199]];
    let sum = mixed_rows(mixed_boarding(day.sum, done), froms, tos, times, legs, seen);
    let after = done.row;
    let answer = done.boarded;
    let lasts = answer.lasts;
    Day {
        table: after,
        lasts,
        sum: mixed_table(sum, after),
    }
}

fn boarding_of(a: u64, b: u64, lasts: Lasts) -> Boarding {
    Boarding {
        head: 300 + b % 50 - a / 64 % 8 / 7 * 200,
        turn: a % 12 + a / 1024 % 8 / 7 * 4294967296,
        lasts,
    }
}

// A boarding (0), a withdrawal (1) or a filing.
fn called(day: Day, which: u64, len: usize, i: u64) -> Day {
    let a = next(i);
    let b = next(a);
    let lasts = day.lasts;
    if which == 0 {
        let entries = (8 - b / 64 % 8 / 7 * 5) as usize;
        let words = (65600 - b / 1024 % 8 / 7 * 65500) as usize;
        return board(day, len, boarding_of(a, b, lasts), entries, words);
    }
    if which == 1 {
        return withdraw(day, len, withdrawal_of(a, b, lasts));
    }
    file(day, len, filing_of(i, a, b, lasts))
}

// A boarding in one of four or of sixteen, by the hour; of the others one in six is a withdrawal.
fn kind_of(i: u64, c: u64) -> u64 {
    if c / 1024 % (4 + i / 100 % 2 * 12) == 0 {
        return 0;
    }
    if c / 16384 % 6 == 0 { 1 } else { 2 }
}

// One event, drawn by its number: one in twenty on a damaged table, which the day does not keep; one in thirty on a row that is too short.
fn event(day: Day, i: u64) -> Day {
    let a = next(i);
    let b = next(a);
    let c = next(b);
    let len = (32 + c % 3 * 4 - c % 30 / 29 * 9) as usize;
    if c / 32 % 20 == 0 {
        let table = day.table;
        let lasts = day.lasts;
        let other = Day {
            table: damaged(table, a, b),
            lasts,
            sum: day.sum,
        };
        return Day {
            table,
            lasts,
            sum: called(other, c / 1024 % 4 % 3, len, i).sum,
        };
    }
    called(day, kind_of(i, c), len, i)
}

fn fifty(morning: Day, first: u64) -> Day {
    let mut day = morning;
    for i in 1..=50 {
        day = event(day, first.wrapping_add(i));
    }
    day
}

fn main() {
    let mut day = Day {
        table: [Ticket {
            office: 0,
            file: 0,
            count: 0,
            number: 0,
        }; 32],
        lasts: Lasts {
            one: 65230, // so that its numbers are spent before the day is over
            two: 0,
        },
        sum: 0,
    };
    for first in (0..1500).step_by(50) {
        day = fifty(day, first);
        io::print_decimal(STDOUT, first + 1);
        io::write_all(STDOUT, b": ");
        io::print_decimal(STDOUT, day.sum);
        io::write_all(STDOUT, b"\n");
    }
}
