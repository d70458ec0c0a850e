// answer_ltfs: tape tables from LTFS labels and indexes, as run sheets; and from the bytes of an input to the bytes of its answer.
// For the program and the tools, which see only these contracts. What the words mean stands in specs/; each public function
// answers every input, and its contract gives the answer and the lent rows by a definition there.
#![tactic(auto)]

mod index;
mod input;
mod sheet;
mod table;

pub use input::answer;
pub use sheet::table_sheet;

// What is answered: the size of the sheet, and how many files were left out. Every number is 0 on a refusal.
// Stays: `TapeAnswers` in the demands reads `refusal` and `place` of it, and 0 in the others, so that the answer is no Result.
#[derive(Clone, Copy)]
pub struct Report {
    pub refusal: refusals::Refusal,
    pub place: u64,
    pub bytes: u64,
    pub empty: u64,
    pub other: u64,
}

// How many bytes the two texts of an answer have: the one for standard output, and the report.
#[derive(Clone, Copy)]
pub struct Told {
    pub bytes: u64,
    pub noted: u64,
}
