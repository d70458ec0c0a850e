// A head anywhere: where it is put for the judging, and where a stop's start is for it.
ghost use Rattle.std.specs.Prelude.{◌≡◌};
ghost use Rattle.runs.specs.AnyHead.{smaller, lifted_head};

use crate::LAST_PLACE;

// Where a head is put to judge a run whose head may stand anywhere: at the end of the tape, unless it stands beyond it.
pub fn lift_head(head: u64) -> u64
    ensures { result ≡ lifted_head head }
{
    head.max(LAST_PLACE)
}

// The smaller of two places: a start right of the head is pulled to it.
pub fn smaller(start: u64, head: u64) -> u64
    ensures { result ≡ smaller start head }
{
    start.min(head)
}
