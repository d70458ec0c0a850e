// answer_pick: from tape name, label, index and a list of paths to the run sheet of these files, and to their names.
// For the program and the calls, which see only this contract. What the words mean stands in specs/; the public function answers every input.
#![tactic(auto)]

mod lines;
mod texts;

ghost use Rattle.std.specs.Prelude.{◌≡◌, ◌≤◌, length, take};
ghost use Rattle.text_paths.specs.Paths.{line_count};
ghost use Rattle.answer_pick.specs.Picks.{refused_if, refused_at};
ghost use Rattle.answer_pick.specs.Answer.{PickAnswered};
ghost use Rattle.answer_pick.specs.Private.{numbered, refused_answer, picked_of, LinesPicked};

use lines::judge_lines;
use refusals::{Refusal, Verdict};
use sheet_picks::{Picks, write_picks};
use text_paths::count_lines;
use texts::{judge_input, other_if, read_index};

// A number of the refusal table, 0 for none, and the line it speaks of, counted from 1.
// Stays: `first_refused` reads the number 0 as none, so that a check answers no Option.
#[derive(Clone, Copy)]
pub struct Refused {
    pub number: u64,
    pub place: u64,
}

// What is answered: on a refusal its number and place; else the bytes of the sheet and those of the names.
// Stays: `PickAnswered` tells this record, and a call from C reads its numbers, so that the answer is no Result.
#[derive(Clone, Copy)]
pub struct Picked {
    pub number: u64,
    pub place: u64,
    pub bytes: u64,
    pub named: u64,
}

pub(crate) fn refused_if(bad: bool, number: u64) -> Refused
    ensures { result ≡ refused_if bad number }
{
    if bad {
        return Refused { number, place: 0 };
    }
    Refused {
        number: 0,
        place: 0,
    }
}

pub(crate) fn refused_at(place: u64, number: u64) -> Refused
    ensures { result ≡ refused_at place number }
{
    if place == 0 {
        return Refused {
            number: 0,
            place: 0,
        };
    }
    Refused { number, place }
}

// A verdict that refuses, by the number of its kind.
pub(crate) fn numbered(verdict: Verdict) -> Refused
    ensures { result ≡ numbered verdict }
{
    let kind = verdict.refusal;
    Refused {
        number: refusals::number(kind),
        place: verdict.place,
    }
}

fn unpicked(refused: Refused) -> Picked
    ensures { result ≡ refused_answer refused }
{
    Picked {
        number: refused.number,
        place: refused.place,
        bytes: 0,
        named: 0,
    }
}

fn told(picks: Result<Picks, Verdict>) -> Picked
    ensures { result ≡ picked_of picks }
{
    match picks {
        Ok(picks) => Picked {
            number: 0,
            place: 0,
            bytes: picks.bytes,
            named: picks.named,
        },
        Err(verdict) => unpicked(numbered(verdict)),
    }
}

// The lines of a list judged by what was found for them, then both texts.
// Apart, so that the rows of the sheet's writer are not on the stack below the index's reader.
#[inline(never)]
fn pick_lines(
    name: &[u8],
    list: &[u8],
    states: &[u64],
    starts: &[u64],
    ends: &[u64],
    head: &[u64],
    turn: &[u64],
    out: &mut [u8],
    names: &mut [u8],
) -> Picked
    requires list_in_bounds { line_count list.now ≤ length states.now }
    requires list_in_bounds_2 { line_count list.now ≤ length starts.now }
    requires list_in_bounds_3 { line_count list.now ≤ length ends.now }
    ensures { LinesPicked name.now list.now (take (line_count list.now) states.now) (take (line_count list.now) starts.now) (take (line_count list.now) ends.now) head.now turn.now out.old names.old result out.new names.new }
{
    let count = count_lines(list);
    let lines = judge_lines(&states[..count], &ends[..count]);
    if lines.number != 0 {
        return unpicked(lines);
    }
    let picks = write_picks(
        name,
        list,
        &starts[..count],
        &ends[..count],
        head,
        turn,
        out,
        names,
    );
    told(picks)
}

// The sheet of the files that the lines of a list ask for, and their names: both texts in the first bytes of two rows, or neither. Unit 0 counts places in bytes, any other in
// blocks; head and turn are rows of no word or of one.
pub fn pick(
    name: &[u8],
    label: &[u8],
    index: &[u8],
    list: &[u8],
    unit: u64,
    head: &[u64],
    turn: &[u64],
    out: &mut [u8],
    names: &mut [u8],
) -> Picked
    ensures { PickAnswered unit name.now label.now index.now list.now head.now turn.now out.old names.old result out.new names.new }
{
    if !text_bytes::is_name(name) {
        return unpicked(refused_if(true, refusals::number(Refusal::BadName)));
    }
    let mut states = [0u64; 1024];
    let mut starts = [0u64; 1024];
    let mut ends = [0u64; 1024];
    let good = read_index(
        label,
        index,
        list,
        unit,
        &mut states,
        &mut starts,
        &mut ends,
    );
    let other = other_if(good, label, index);
    let input = judge_input(good, other, list);
    if input.number != 0 {
        return unpicked(input);
    }
    pick_lines(name, list, &states, &starts, &ends, head, turn, out, names)
}
