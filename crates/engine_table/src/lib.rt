// engine_table: the least list of a run with a head anywhere, on a table that the caller lends, for files that lie in no aggregate: the planner
// hands in the stops of a run as such files. It stands on the judging alone; what "least" means is said in `least`.
#![tactic(auto)]

mod blocks;
mod filling;
mod listing;
mod pulling;
mod reading;
mod stops;

pub use listing::list;
