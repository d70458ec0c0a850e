// sheet_reader: what a run sheet is, its reader, and the readers of the lines that it alone has.
// For the program and the tools, which see only these contracts. What the words mean stands in specs/; each public function
// answers every input, and its contract gives the answer and every lent row by a definition there.
#![tactic(auto)]

mod reader;
mod top;

pub use reader::{judge, read_sheet, tape_name};
pub use top::{rule_line, tape_line, turn_line};

// The limits of a sheet. Both are inclusive.
pub const LONGEST_SHEET: usize = 16384;

pub const MOST_SHEET_FILES: u64 = 256;

// An empty `turn=` means the drives' own price.
pub const EMPTY_TURN: u64 = 12000;

// What the first line holds: where the name ends, and where the next line starts.
#[derive(Clone, Copy)]
pub struct NameLine {
    pub end: usize,
    pub next: usize,
}

// Whether the line names the retired rule.
// Stays: `RuleLineTold` in the promises reads which of the two words stands there, as a flag.
#[derive(Clone, Copy)]
pub struct RuleLine {
    pub sweep: bool,
    pub next: usize,
}

// What the reader answers: on a refusal every number but the place is 0. There is one rule, so none is answered.
// Stays: `ReadAnswers` and `NothingRead` in the demands read each number of this record, 0 on a refusal, so that the answer is no Result.
#[derive(Clone, Copy)]
pub struct Reading {
    pub refusal: refusals::Refusal,
    pub place: u64,
    pub head: u64,
    pub turn: u64,
    pub files: u64,
    pub wants: u64,
}
