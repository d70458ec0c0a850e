// cmd_desk: a day at the desk of two offices. Standard input: a line with the byte count of a run sheet, the sheet, whose wants are not looked at, and
// then one event a line; each event's answer goes to standard output before the next event is read. Lines that begin with # are remarks: they are passed
// over and not counted, so that a journal is such an input.
// The answers are proved in `answer_desk`, and on a lent row of records in `desk_rows`; what is read and written here, and the order of it, is tested and not proved.
#![tactic(auto)]

ghost use Rattle.std.specs.Prelude.{◌≤◌, length};
ghost use Rattle.answer_desk.specs.Answers.{most_text};
ghost use Rattle.answer_desk.specs.Days.{most_room};

use answer_desk::Day;
use desk_rows::ToldRow;
use refusals::{Refusal, Verdict};
use sheet_runs::entries;
use text_lines::NumberLine;

const STDOUT: i32 = 1;

// A day, and how many events it has had.
#[derive(Clone, Copy)]
struct Turn {
    day: Day,
    place: u64,
}

fn print_refusal(verdict: Verdict) {
    let mut out = [0u8; 56];
    let lines = sheet_writer::write_refusal(verdict, &mut out);
    io::write_all(STDOUT, text_inputs::front(&out, lines.bytes));
}

fn print_waiting(day: Day) {
    let row = day.row;
    let mut out = [0u8; 50];
    let ones = desk_tickets::count_waiting(row, 1) as u64;
    let twos = desk_tickets::count_waiting(row, 2) as u64;
    let bytes = text_pages::put_pair_line(&mut out, 0, b"waiting=", ones, twos);
    io::write_all(STDOUT, text_inputs::front(&out, bytes as u64));
}

// The answer to the first n bytes of a line, on the table as a lent row. The room is enough for every boarding, and the row for every answer.
fn answer_line(
    day: Day,
    line: &[u8; 68],
    n: usize,
    starts: &[u64],
    lengths: &[u64],
    aggregates: &[u64],
    room: &mut [u64],
    out: &mut [u8],
) -> ToldRow
    requires most_room_in_bounds { most_room ≤ length room.old }
    requires most_text_in_bounds { most_text ≤ length out.old }
{
    let row = day.row;
    let lasts = day.lasts;
    desk_rows::take_line(
        row,
        lasts,
        text_inputs::front(line, n as u64),
        starts,
        lengths,
        aggregates,
        room,
        out,
    )
}

// The verdict on a line, with the line's number where it is no event.
fn placed(verdict: Verdict, place: u64) -> Verdict {
    if verdict.refusal == Refusal::BadLine {
        return Verdict {
            refusal: Refusal::BadLine,
            place,
        };
    }
    verdict
}

// Room enough for every boarding. A long row comes from a function of its own: where it is made and lent in one, the check counts its entries one by one.
fn empty_room() -> [u64; 65600]
    ensures { most_room ≤ length result }
{
    [0u64; 65600]
}

// Whether a line was cut off at the end of its row.
fn is_cut(line: &[u8; 68], n: usize) -> bool {
    n == 68 && line[67] != b'\n'
}

// Passes over what is left of a line of which this was read.
fn pass_rest(line: &[u8; 68], n: usize) {
    let mut cut = is_cut(line, n);
    for _ in 0..u64::MAX {
        if !cut {
            break;
        }
        let mut rest = [0u8; 68];
        let m = text_inputs::read_line(&mut rest);
        cut = is_cut(&rest, m);
    }
}

// The number of the event in a line that was just read, behind so many. A remark has none, and the whole of it is passed over.
fn place_of(before: u64, line: &[u8; 68], n: usize) -> u64 {
    if desk_rows::is_remark(text_inputs::front(line, n as u64)) {
        pass_rest(line, n);
        return before;
    }
    if before == 18446744073709551615 {
        return before;
    }
    before + 1
}

// One line behind so many events: its answer, and the day afterwards, if it goes on. No event that is as described is longer than 68 bytes: `file=`, three
// numbers of 20 digits, two commas and the LF.
fn take_event(before: Turn, starts: &[u64], lengths: &[u64], aggregates: &[u64]) -> Option<Turn> {
    let day = before.day;
    let mut line = [0u8; 68];
    let mut room = empty_room();
    let mut out = [0u8; 2677];
    let n = text_inputs::read_line(&mut line);
    if n == 0 {
        print_waiting(day);
        return None;
    }
    let place = place_of(before.place, &line, n);
    let answered = answer_line(
        day, &line, n, starts, lengths, aggregates, &mut room, &mut out,
    );
    let told = answered.told;
    let verdict = told.verdict;
    if let Err(verdict) = verdict.told() {
        print_refusal(placed(verdict, place));
    }
    io::write_all(STDOUT, text_inputs::front(&out, told.bytes));
    if verdict.refusal == Refusal::BadLine {
        return None;
    }
    let row = answered.row;
    let lasts = told.lasts;
    Some(Turn {
        day: Day { row, lasts },
        place,
    })
}

// The events of a day at one tape, counted from 1.
fn hold_day(starts: &[u64], lengths: &[u64], aggregates: &[u64]) {
    let mut turn = Turn {
        day: answer_desk::morning(),
        place: 0,
    };
    for _ in 0..u64::MAX {
        let Some(next) = take_event(turn, starts, lengths, aggregates) else {
            return;
        };
        turn = next;
    }
}

// A sheet: its refusal, or the day at its tape.
fn open_desk(sheet: &[u8]) {
    let run = sheet_runs::read_run(sheet);
    if let Err(verdict) = run.verdict.told() {
        print_refusal(verdict);
        return;
    }
    let starts = run.starts;
    let lengths = run.lengths;
    let aggregates = run.aggregates;
    hold_day(
        entries(&starts, run.files),
        entries(&lengths, run.files),
        entries(&aggregates, run.files),
    );
}

// 25, with the first line.
fn refuse_input() {
    print_refusal(Verdict {
        refusal: Refusal::BadSheetCount,
        place: 1,
    });
}

// A sheet of so many bytes, of which one more than a sheet may have is kept.
fn take_sheet(bytes: u64) {
    let mut sheet = [0u8; 16385];
    let got = text_inputs::read_bytes(&mut sheet, bytes);
    if got.all != bytes {
        refuse_input();
        return;
    }
    open_desk(text_inputs::front(&sheet, got.kept));
}

// The number of a line of a number alone.
fn count_in(line: &[u8; 68], n: usize) -> Option<NumberLine> {
    text_lines::number_line(text_inputs::front(line, n as u64), 0, b"")
}

fn main() {
    let mut line = [0u8; 68];
    let n = text_inputs::read_line(&mut line);
    let Some(count) = count_in(&line, n) else {
        refuse_input();
        return;
    };
    take_sheet(count.number);
}
