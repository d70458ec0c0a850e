// answer_check: from a run sheet and a detour list to that list's plan sheet, and from a run sheet and a plan sheet to a verdict on the latter; the
// same from an input that holds both texts. The head may stand anywhere. For the programs, which print the answer, and for a caller, which gets a
// record. It stands on the promises of the readers, the pricer, the planner and the writers; the rows that they are lent, but for the planner's room,
// are on its own stack.
#![tactic(auto)]

mod checking;
mod inputs;
mod pricing;
mod verdict;

pub use checking::{check, check_text};
pub use inputs::{check_input, price_input};
pub use pricing::price;

// The first line in which two texts differ, counted from 1, and how many bytes stand before it in both.
#[derive(Clone, Copy)]
pub struct Difference {
    pub line: u64,
    pub start: usize,
}
