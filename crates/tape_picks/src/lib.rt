// tape_picks: what each line of a list of paths comes to in an LTFS index: no file, one, or several, and the range of the one.
// For the maker of sheets by file names, which sees only this contract. What the words mean stands in specs/; the public function answers every input.
#![tactic(auto)]

ghost use Rattle.std.specs.Prelude.{◌≡◌, ◌≤◌};
ghost use Rattle.tape_picks.specs.Picks.{lines_asked, FilesFound};

mod files;
mod gather;
mod notes;
mod walk;

use gather::search;
use tape_markup::is_balanced;
use text_order::fill_order;
use text_paths::{count_lines, fill_paths, judge_list};

// How places are counted: unit 0 is bytes, any other blocks; the block size and the data partition of the label.
#[derive(Clone, Copy)]
pub struct Tape {
    pub unit: u64,
    pub size: u64,
    pub partition: u64,
}

// What a line comes to: 0 no file, 1 one that can be read, 2 several, 3 one that cannot; where it starts and ends.
// Stays: the states are lent as a row of numbers, and `FilesFound` tells them so; an enum would be made a number again at every line.
#[derive(Clone, Copy)]
pub struct Pick {
    pub state: u64,
    pub start: u64,
    pub end: u64,
}

// How many lines of a list are answered in rows of three lengths.
fn lines_asked(list: &[u8], states: usize, starts: usize, ends: usize) -> usize
    ensures { (result ≡ lines_asked list.now states starts ends) × (result ≤ 1024) }
{
    if judge_list(list).is_err() {
        return 0;
    }
    let count = count_lines(list);
    if states < count {
        return 0;
    }
    if starts < count {
        return 0;
    }
    if ends < count {
        return 0;
    }
    count
}

// What each line of a list comes to in an index, in three rows: by its state, the start and the end. Rows are written only where the index can be read.
pub fn find_files(
    index: &[u8],
    list: &[u8],
    unit: u64,
    size: u64,
    partition: u64,
    states: &mut [u64],
    starts: &mut [u64],
    ends: &mut [u64],
) -> bool
    ensures { FilesFound (record { unit = unit; size = size; partition = partition }) index.now list.now states.old starts.old ends.old result states.new starts.new ends.new }
{
    if !is_balanced(index) {
        return false;
    }
    let count = lines_asked(list, states.len(), starts.len(), ends.len());
    let mut from = [0usize; 1024];
    let mut to = [0usize; 1024];
    let mut order = [0usize; 1024];
    fill_paths(list, count, &mut from, &mut to);
    fill_order(list, &from, &to, count, &mut order);
    let tape = Tape {
        unit,
        size,
        partition,
    };
    search(
        index, list, &from, &to, &order, count, tape, states, starts, ends,
    )
}
