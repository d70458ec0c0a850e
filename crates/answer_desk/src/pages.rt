// The texts of answers, put on pages of their own and handed out.
ghost use Rattle.std.specs.Prelude.{◌≡◌, ◌+◌, ◌*◌, ◌≤◌, min, length, take, drop, get_or};
ghost use Rattle.text_pages.specs.Printing.{pair_line, pair_lines, Wrote};
ghost use Rattle.sheet_writer.specs.PlanSheet.{detour_key};
ghost use Rattle.answer_desk.specs.Answers.{most_text, place_in, ticket_line, closed_line, closed_lines, boarded_top, boarded_text};
ghost use Rattle.answer_desk.specs.Private.{places_text, Leaving, TextSaid};

use crate::Reads;
use desk_boardings::{Boarded, Taken};
use desk_tickets::{PLACES, Ticket};
use sheet_writer::{Written, hand_out};
use text_pages::{put, put_number, put_number_line, put_pair, put_pair_line, put_triple_line};
use walk::Answer;

// One line of a pair. No key is longer than 10 bytes, so no such line is longer than 52.
pub(crate) fn say_pair(key: &[u8], first: u64, second: u64, out: &mut [u8]) -> Written
    requires { length key.now ≤ 10 }
    ensures { TextSaid 52 (pair_line key.now first second) out.old result out.new }
{
    let mut page = [0u8; 52];
    let bytes = put_pair_line(&mut page, 0, key, first, second);
    hand_out(&page[..bytes], out)
}

// The place of a file among eight numbers, counted from 0; 8 where it is none of them.
fn place_in(file: u64, numbers: [u64; 8]) -> usize
    ensures { result ≡ place_in file numbers }
{
    for (i, number) in numbers.iter().enumerate() {
        if *number == file {
            return i;
        }
    }
    8
}

// An entry of a row, 0 behind its end.
fn entry(row: [u64; 8], i: usize) -> u64
    ensures { result ≡ get_or row i 0 }
{
    row.get(i).copied().unwrap_or(0)
}

// A ticket's line. None is longer than 133 bytes.
fn put_ticket(page: &mut [u8], at: usize, t: Ticket, time: u64, leg: u64) -> usize
    requires { at + 133 ≤ length page.old }
    ensures { Wrote page.old at (ticket_line t time leg) 133 page.new result }
{
    let office_at = put(page, at, b"ticket=");
    let comma_at = put_pair(page, office_at, t.office, t.number);
    let file_at = put(page, comma_at, b",");
    let count_at = put_number(page, file_at, t.file);
    put_triple_line(page, count_at, b",", t.count, time, leg)
}

// The same, with the time and the leg of its own file.
fn put_closed(page: &mut [u8], at: usize, t: Ticket, reads: Reads) -> usize
    requires { at + 133 ≤ length page.old }
    ensures { Wrote page.old at (closed_line reads t) 133 page.new result }
{
    let numbers = reads.numbers;
    let times = reads.times;
    let legs = reads.legs;
    let p = place_in(t.file, numbers);
    let time = entry(times, p);
    let leg = entry(legs, p);
    put_ticket(page, at, t, time, leg)
}

// The lines of n tickets of the row, from place `first` on.
fn put_tickets(
    page: &mut [u8],
    at: usize,
    row: [Ticket; 32],
    first: usize,
    n: usize,
    reads: Reads,
) -> usize
    requires n_bound { first + n ≤ 32 }
    requires n_in_bounds { at + n * 133 ≤ length page.old }
    ensures { Wrote page.old at (closed_lines reads (take n (drop first row))) (n * 133) page.new result }
{
    let mut next = at;
    for t in &row[first..first + n] {
        next = put_closed(page, next, *t, reads);
    }
    next
}

// The first n detours of two rows.
fn put_detours(page: &mut [u8], at: usize, froms: [u64; 8], tos: [u64; 8], n: usize) -> usize
    requires n_bound { n ≤ 8 }
    requires n_in_bounds { at + n * 49 ≤ length page.old }
    ensures { Wrote page.old at (pair_lines detour_key (take n froms) (take n tos)) (n * 49) page.new result }
{
    let mut next = at;
    for i in 0..n {
        next = put_pair_line(page, next, b"detour=", froms[i], tos[i]);
    }
    next
}

fn put_top(page: &mut [u8], taken: Taken, answer: Answer) -> usize
    requires { 157 ≤ length page.old }
    ensures { Wrote page.old 0 (boarded_top taken answer) 157 page.new result }
{
    let sum_at = put_pair_line(page, 0, b"boarded=", taken.one as u64, taken.two as u64);
    let finish_at = put_number_line(page, sum_at, b"sum=", answer.sum);
    let end_at = put_number_line(page, finish_at, b"finish=", answer.finish);
    let detours_at = put_number_line(page, end_at, b"end=", answer.end);
    put_number_line(page, detours_at, b"detours=", answer.detours)
}

// A number of detours, which are never more than eight.
fn up_to_eight(n: u64) -> usize
    ensures { result ≡ min n 8 }
{
    n.min(8) as usize
}

// The whole text of a boarding that is accepted.
fn put_boarding(
    page: &mut [u8],
    row: [Ticket; 32],
    boarded: Boarded,
    froms: [u64; 8],
    tos: [u64; 8],
    reads: Reads,
) -> usize
    requires one_bound { boarded.taken.one ≤ 8 }
    requires two_bound { boarded.taken.two ≤ 8 }
    requires most_text_in_bounds { most_text ≤ length page.old }
    ensures { Wrote page.old 0 (places_text row boarded froms tos reads) most_text page.new result }
{
    let taken = boarded.taken;
    let answer = boarded.answer;
    let n = up_to_eight(answer.detours);
    let detours_at = put_top(page, taken, answer);
    let ones_at = put_detours(page, detours_at, froms, tos, n);
    let twos_at = put_tickets(page, ones_at, row, 0, taken.one, reads);
    put_tickets(page, twos_at, row, PLACES, taken.two, reads)
}

// The text of the boarding, from a page of its own.
pub(crate) fn say_boarding(
    row: [Ticket; 32],
    boarded: Boarded,
    froms: [u64; 8],
    tos: [u64; 8],
    reads: Reads,
    out: &mut [u8],
) -> Written
    requires { Leaving row boarded }
    ensures { TextSaid most_text (boarded_text row boarded froms tos reads) out.old result out.new }
{
    let mut page = [0u8; 2677];
    let bytes = put_boarding(&mut page, row, boarded, froms, tos, reads);
    hand_out(&page[..bytes], out)
}
