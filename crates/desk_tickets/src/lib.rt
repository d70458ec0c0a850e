// desk_tickets: the waiting table of two offices, by value: what a sound row of records is, filing, withdrawing, and leaving from the front.
// What the words mean stands in specs/; each public function answers every input, and its contract is an equation with a definition there.
#![tactic(auto)]

ghost use Rattle.std.specs.Prelude.{◌≡◌, ◌||◌, ◌<◌, ◌≤◌, length, get_or};
ghost use Rattle.std.proofs.Math.Seq.{paste};
ghost use Rattle.refusals.specs.Refusals.{checked, refuse_at, first_where};
ghost use Rattle.refusals.specs.declared.Refusal.TheVariants.{BadRecord};
ghost use Rattle.desk_tickets.specs.WaitingTable.{is_empty_place, up_to, is_ticket, follows, last_of, first_place, waiting, office_at, is_first_place, bad_record, records_verdict, placed, row_without, no_ticket, places};
ghost use Rattle.desk_tickets.specs.Filings.{in_range, file_verdict, lasts_with, file_row};
ghost use Rattle.desk_tickets.specs.Withdrawals.{is_waiting, withdraw_verdict, withdraw_row};
ghost use Rattle.desk_tickets.specs.Private.{closed_up, index_of};

use refusals::{Refusal, Verdict};

pub const OFFICES: u64 = 2;

// The places of one office, and of both.
pub const PLACES: usize = 16;

pub const ALL_PLACES: usize = 32;

// The most reads that one ticket asks for.
pub const MOST_COUNT: u64 = 128;

// The highest number that an office's tickets are given.
pub const MOST_NUMBER: u64 = 65535;

// A record of the waiting table: a ticket, or an empty place, all fields 0.
#[derive(Clone, Copy, PartialEq, Eq)]
pub struct Ticket {
    pub office: u64,
    pub file: u64,
    pub count: u64,
    pub number: u64,
}

// An empty place.
pub const NO_TICKET: Ticket = Ticket {
    office: 0,
    file: 0,
    count: 0,
    number: 0,
};

// The last number given to each office; 0: none yet.
// Stays: 0 and no Option, since C's row of last numbers has it so in `violstream_file`, and `number_for` counts on from it.
#[derive(Clone, Copy)]
pub struct Lasts {
    pub one: u64,
    pub two: u64,
}

// What is filed: a ticket without its number, the number of files of the tape, and the last numbers given.
#[derive(Clone, Copy)]
pub struct Filing {
    pub office: u64,
    pub file: u64,
    pub count: u64,
    pub files: u64,
    pub lasts: Lasts,
}

// What a filing answers: the ticket's number, 0 on a refusal, and the last numbers given.
// Stays: one record and no Result, since the promises read its fields on a refusal too: its number in SaysNoMore, its last numbers in RefusedChangesNothing.
#[derive(Clone, Copy)]
pub struct Filed {
    pub verdict: Verdict,
    pub number: u64,
    pub lasts: Lasts,
}

// The same with the row afterwards.
// Stays: rows of an array, since the record is copied, and the house works without a heap.
#[derive(Clone, Copy)]
pub struct FiledRow {
    pub filed: Filed,
    pub row: [Ticket; 32],
}

// What is withdrawn: the ticket of an office with a number.
#[derive(Clone, Copy)]
pub struct Withdrawal {
    pub office: u64,
    pub number: u64,
    pub lasts: Lasts,
}

// What a withdrawal answers, and the last numbers as they were.
// Stays: one record and no Result, since RefusedChangesNothing in the promises reads its last numbers on a refusal too.
#[derive(Clone, Copy)]
pub struct Withdrawn {
    pub verdict: Verdict,
    pub lasts: Lasts,
}

// The same with the row afterwards.
// Stays: one such record for each answer and none over them all, whose one field would have a name that says less: the promises read `filed`, `withdrawn`,
// `boarded` and `told`.
// Stays: rows of an array, since the record is copied, and the house works without a heap.
#[derive(Clone, Copy)]
pub struct WithdrawnRow {
    pub withdrawn: Withdrawn,
    pub row: [Ticket; 32],
}

fn is_empty(t: Ticket) -> bool
    ensures { result ≡ is_empty_place t }
{
    t == NO_TICKET
}

// Whether a number is one of 1 to `most`.
fn up_to(most: u64, n: u64) -> bool
    ensures { result ≡ up_to most n }
{
    n != 0 && n <= most
}

// Whether a record is a ticket of an office whose last number is `last`.
fn is_ticket(office: u64, last: u64, t: Ticket) -> bool
    ensures { result ≡ is_ticket office last t }
{
    t.office == office
        && up_to(runs::MOST_FILES as u64, t.file)
        && up_to(MOST_COUNT, t.count)
        && up_to(last, t.number)
}

// Whether a ticket may stand directly behind a record of the same office.
fn follows_on(ahead: Ticket, t: Ticket) -> bool
    ensures { result ≡ follows ahead t }
{
    !is_empty(ahead) && ahead.number < t.number
}

// The last number given to an office.
fn last_of(office: u64, lasts: Lasts) -> u64
    ensures { result ≡ last_of office lasts }
{
    if office == 2 { lasts.two } else { lasts.one }
}

// The office whose place a record has, by its index from 0, and whether it is that office's first.
fn office_at(i: usize) -> u64
    ensures { result ≡ office_at i }
{
    if i < PLACES { 1 } else { 2 }
}

fn is_first_place(i: usize) -> bool
    ensures { result ≡ is_first_place i }
{
    i == 0 || i == PLACES
}

// Whether a record is not so.
fn bad_record(row: [Ticket; 32], lasts: Lasts, i: usize) -> bool
    requires { i < 32 }
    ensures { result ≡ bad_record lasts row i }
{
    let t = row[i];
    let office = office_at(i);
    !is_empty(t)
        && (!is_ticket(office, last_of(office, lasts), t)
            || !is_first_place(i) && !follows_on(row[i - 1], t))
}

// The verdict on the records of a row: 26 at the first bad one, counted from 1.
fn judge_records(row: [Ticket; 32], lasts: Lasts) -> Result<(), Verdict>
    ensures { result ≡ checked (refuse_at (first_where (bad_record lasts row) 32) BadRecord) }
{
    for i in 0..ALL_PLACES {
        if bad_record(row, lasts, i) {
            return Refusal::BadRecord.at((i + 1) as u64);
        }
    }
    Ok(())
}

// The verdict on a lent row of so many places that begins with these records, by the last numbers given: 8, then 26.
#[tactic(auto, unfolding(crate::specs::WaitingTable::records_verdict))]
pub fn judge_row(len: usize, row: [Ticket; 32], lasts: Lasts) -> Result<(), Verdict>
    ensures { result ≡ checked (records_verdict len row lasts) }
{
    Refusal::ShortRow.when(len < ALL_PLACES)?;
    judge_records(row, lasts)
}

// The first place of an office, counted from 0.
fn first_place(office: u64) -> usize
    ensures { result ≡ first_place office }
{
    if office == 2 { PLACES } else { 0 }
}

// How many tickets of an office wait.
pub fn count_waiting(row: [Ticket; 32], office: u64) -> usize
    ensures { result ≡ length (waiting office row) }
{
    let first = first_place(office);
    for n in 0..PLACES {
        if is_empty(row[first + n]) {
            return n;
        }
    }
    PLACES
}

// Whether all of a filing is in range.
fn in_range(filing: Filing) -> bool
    ensures { result ≡ in_range filing }
{
    up_to(OFFICES, filing.office)
        && up_to(filing.files, filing.file)
        && up_to(runs::MOST_FILES as u64, filing.file)
        && up_to(MOST_COUNT, filing.count)
}

// The verdict on a filing: 8 and 26, then 15, then 16, then 18.
#[tactic(auto, unfolding(crate::specs::Filings::file_verdict))]
fn judge_filing(len: usize, row: [Ticket; 32], filing: Filing) -> Result<(), Verdict>
    ensures { result ≡ checked (file_verdict len row filing) }
{
    let office = filing.office;
    let lasts = filing.lasts;
    judge_row(len, row, lasts)?;
    Refusal::BadTicket.when(!in_range(filing))?;
    Refusal::OfficeFull.when(PLACES <= count_waiting(row, office))?;
    Refusal::NumbersSpent.when(MOST_NUMBER <= last_of(office, lasts))
}

// The last numbers once an office has been given this one.
fn lasts_with(office: u64, number: u64, lasts: Lasts) -> Lasts
    ensures { result ≡ lasts_with office number lasts }
{
    if office == 2 {
        return Lasts {
            one: lasts.one, // as it was
            two: number,
        };
    }
    Lasts {
        one: number,
        two: lasts.two,
    }
}

// Files a ticket: the answer, and the row afterwards.
pub fn file_in(len: usize, row: [Ticket; 32], filing: Filing) -> FiledRow
    ensures { result ≡ file_row len row filing }
{
    let lasts = filing.lasts;
    let mut next = row;
    if let Err(verdict) = judge_filing(len, row, filing) {
        return FiledRow {
            filed: Filed {
                verdict,
                number: 0,
                lasts,
            },
            row: next,
        };
    }
    let office = filing.office;
    let number = last_of(office, lasts) + 1;
    let at = first_place(office) + count_waiting(row, office);
    next[at] = Ticket {
        office,
        file: filing.file,
        count: filing.count,
        number,
    };
    let given = lasts_with(office, number, lasts);
    FiledRow {
        filed: Filed {
            verdict: Verdict::accepted(),
            number,
            lasts: given,
        },
        row: next,
    }
}

// The record that comes to place i of an office whose places begin at `first`, once n from its place p on have left.
fn moved_up(row: [Ticket; 32], first: usize, p: usize, n: usize, i: usize) -> Ticket
    requires first_le_places { first ≤ places }
    requires i_lt_places { i < places }
    ensures { result ≡ get_or (closed_up first p n row) i no_ticket }
{
    if i < p {
        return row[first + i];
    }
    if n < PLACES {
        if i < PLACES - n {
            return row[first + (i + n)];
        }
    }
    NO_TICKET
}

// One office's places, once n from its place p on have left; the others as they were.
fn close_up(row: [Ticket; 32], first: usize, p: usize, n: usize) -> [Ticket; 32]
    requires { first ≤ places }
    ensures { result ≡ paste row first (closed_up first p n row) places }
{
    let mut next = row;
    for i in 0..PLACES {
        next[first + i] = moved_up(row, first, p, n, i);
    }
    next
}

// The row once the first tickets of each office have left, so many of each.
pub fn without_first(row: [Ticket; 32], one: usize, two: usize) -> [Ticket; 32]
    ensures { result ≡ row_without one two row }
{
    let next = close_up(row, 0, 0, one);
    close_up(next, PLACES, 0, two)
}

// Where among an office's waiting tickets the one with this number stands, from 0; behind them all where none has it.
fn index_of(row: [Ticket; 32], office: u64, number: u64) -> usize
    ensures { result ≡ index_of number (waiting office row) }
{
    let first = first_place(office);
    let n = count_waiting(row, office);
    for i in 0..n {
        if row[first + i].number == number {
            return i;
        }
    }
    n
}

// Whether a ticket of that office with that number waits.
fn is_waiting(row: [Ticket; 32], office: u64, number: u64) -> bool
    ensures { result ≡ is_waiting office number row }
{
    up_to(OFFICES, office) && index_of(row, office, number) < count_waiting(row, office)
}

// The verdict on a withdrawal: 8 and 26, then 17.
#[tactic(auto, unfolding(crate::specs::Withdrawals::withdraw_verdict))]
fn judge_withdrawal(len: usize, row: [Ticket; 32], withdrawal: Withdrawal) -> Result<(), Verdict>
    ensures { result ≡ checked (withdraw_verdict len row withdrawal) }
{
    judge_row(len, row, withdrawal.lasts)?;
    let waits = is_waiting(row, withdrawal.office, withdrawal.number);
    Refusal::NotWaiting.when(!waits)
}

// Withdraws a ticket: the answer, and the row afterwards.
pub fn withdraw_in(len: usize, row: [Ticket; 32], withdrawal: Withdrawal) -> WithdrawnRow
    ensures { result ≡ withdraw_row len row withdrawal }
{
    let lasts = withdrawal.lasts;
    if let Err(verdict) = judge_withdrawal(len, row, withdrawal) {
        return WithdrawnRow {
            withdrawn: Withdrawn { verdict, lasts },
            row,
        };
    }
    let office = withdrawal.office;
    let at = index_of(row, office, withdrawal.number);
    let next = close_up(row, first_place(office), at, 1);
    WithdrawnRow {
        withdrawn: Withdrawn {
            verdict: Verdict::accepted(),
            lasts,
        },
        row: next,
    }
}
