// sheet_writer: the run sheet writer, the plan sheet writer and the writer of a refusal's lines; and what other writers need too: the judging of a run
// with the head anywhere, the name's check, the answer to a verdict, and handing a text out.
// For the program and the tools, which see only these contracts. What the words mean stands in specs/; each public function
// answers every input, and its contract gives the answer and the lent row by a definition there.
#![tactic(auto)]

mod page;
mod plan;
mod refusal;
mod writer;

pub use page::{answer_to, hand_out, judge_name};
pub use plan::{judge_any, write_plan, write_plan_any};
pub use refusal::write_refusal;
pub use writer::write_sheet;

// What a writer answers: the number of bytes of the sheet, 0 on a refusal.
// Stays: `WriteAnswers` in the demands reads kind, place and bytes of this record, 0 bytes on a refusal, so that the answer is no Result.
#[derive(Clone, Copy)]
pub struct Written {
    pub refusal: refusals::Refusal,
    pub place: u64,
    pub bytes: u64,
}
