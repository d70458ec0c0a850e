// desk_waits: who waits, told as a text: from a waiting table to the lines of its tickets. For the window of an office, and for a caller in C.
#![tactic(auto)]

ghost use Rattle.std.specs.Prelude.{◌+◌, ◌*◌, ◌≤◌, length, take, drop};
ghost use Rattle.text_pages.specs.Printing.{Wrote};
ghost use Rattle.sheet_writer.specs.Writing.{row_verdict, Handed};
ghost use Rattle.desk_waits.specs.Waits.{waits_line, waits_lines, waiting_text, WaitingTold};
ghost use Rattle.desk_waits.specs.Private.{Waiters};

use desk_tickets::{Lasts, MOST_NUMBER, PLACES, Ticket};
use sheet_writer::{Written, hand_out};
use text_pages::{put, put_number, put_pair, put_pair_line, put_triple_line};

// A ticket's line. None is longer than 132 bytes.
fn put_wait(page: &mut [u8], at: usize, t: Ticket, ahead: u64) -> usize
    requires at_in_bounds { at + 132 ≤ length page.old }
    requires ahead_bound { ahead ≤ 16 }
    ensures { Wrote page.old at (waits_line ahead t) 132 page.new result }
{
    let office_at = put(page, at, b"waits=");
    let comma_at = put_pair(page, office_at, t.office, t.number);
    let file_at = put(page, comma_at, b",");
    let count_at = put_number(page, file_at, t.file);
    put_triple_line(page, count_at, b",", t.count, ahead, ahead / 4 + 1)
}

// The lines of n tickets of one office, whose places begin at `first`.
fn put_waits(page: &mut [u8], at: usize, row: [Ticket; 32], first: usize, n: usize) -> usize
    requires n_bound { first + n ≤ 32 }
    requires n_bound_2 { n ≤ 16 }
    requires n_in_bounds { at + n * 132 ≤ length page.old }
    ensures { Wrote page.old at (waits_lines 0 (take n (drop first row))) (n * 132) page.new result }
{
    let mut next = at;
    for (i, t) in row[first..first + n].iter().enumerate() {
        next = put_wait(page, next, *t, i as u64);
    }
    next
}

// The text of a table in which so many wait at each office: 16 lines for each office, and the last.
fn put_waiting(page: &mut [u8], row: [Ticket; 32], ones: usize, twos: usize) -> usize
    requires waiters { Waiters row ones twos }
    requires in_bounds { 4274 ≤ length page.old }
    ensures { Wrote page.old 0 (waiting_text row) 4274 page.new result }
{
    let twos_at = put_waits(page, 0, row, 0, ones);
    let last_at = put_waits(page, twos_at, row, PLACES, twos);
    put_pair_line(page, last_at, b"waiting=", ones as u64, twos as u64)
}

// The same from a page of its own.
fn say_waiting(row: [Ticket; 32], ones: usize, twos: usize, out: &mut [u8]) -> Written
    requires { Waiters row ones twos }
    ensures { Handed (row_verdict (waiting_text row) out.old) (waiting_text row) out.old result out.new }
{
    let mut page = [0u8; 4274];
    let bytes = put_waiting(&mut page, row, ones, twos);
    hand_out(&page[..bytes], out)
}

// Who waits in a table of a row of so many places.
pub fn tell_waiting(len: usize, row: [Ticket; 32], out: &mut [u8]) -> Written
    ensures { WaitingTold len row out.old result out.new }
{
    let any = Lasts {
        one: MOST_NUMBER,
        two: MOST_NUMBER,
    };
    if let Err(verdict) = desk_tickets::judge_row(len, row, any) {
        return sheet_writer::answer_to(verdict, 0);
    }
    let ones = desk_tickets::count_waiting(row, 1);
    let twos = desk_tickets::count_waiting(row, 2);
    say_waiting(row, ones, twos, out)
}
