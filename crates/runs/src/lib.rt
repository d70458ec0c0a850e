// runs: what a run is and when it is refused: the limits, aggregates, the judging of a run and of a detour list.
// For the pricer, the planner, the sheets and the C boundary, which see only these contracts. What the words mean stands in specs/;
// each public function answers every input, and its contract is an equation with a definition there.
#![tactic(auto)]

mod aggregates;
mod any_head;
mod judging;
mod lists;

pub use aggregates::{first_member, last_member};
pub use any_head::{lift_head, smaller};
pub use judging::{count_reads, judge, judge_alone};
pub use lists::judge_list;

// The limits of the tape and the run. All are inclusive.
pub const MOST_FILES: usize = 4096;

pub const MOST_AGGREGATES: u64 = 4096;

pub const MOST_WANTS: usize = 64;

pub const MOST_READS: u64 = 1024;

pub const LAST_PLACE: u64 = 1_099_511_627_776;

pub const HIGHEST_TURN: u64 = 4_294_967_296;
