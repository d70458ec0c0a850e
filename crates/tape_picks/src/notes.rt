// Notes: what each line comes to with the files met so far.
ghost use Rattle.std.specs.Prelude.{◌≡◌, cond, ◌-◌, ◌≤◌, ◌++◌, length, take, drop, leb};
ghost use Rattle.tape_picks.specs.Picks.{has_no_bytes, one_pick};
ghost use Rattle.tape_picks.specs.Private.{pick_in, noted_pick, OrderHeld, BothFit, AllFit, FileNoted};

use crate::Pick;
use tape_spans::Span;
use text_order::Range;

// Whether a path between two positions is no longer than so many bytes.
fn ends_there(start: usize, end: usize, length: usize) -> bool
    ensures { result ≡ leb (end - start) length }
{
    end.saturating_sub(start) <= length
}

// Whether the one file of a path can be read.
fn state_of(span: Span) -> u64
    ensures { result ≡ cond (has_no_bytes span) 3 1 }
{
    if !span.some || span.elsewhere { 3 } else { 1 }
}

// One file of a path.
fn one_pick(span: Span) -> Pick
    ensures { result ≡ one_pick span }
{
    Pick {
        state: state_of(span),
        start: span.start,
        end: span.end,
    }
}

// One file more of a line's path.
fn noted(pick: Pick, span: Span, here: bool) -> Pick
    ensures { result ≡ noted_pick pick span here }
{
    if !here {
        return pick;
    }
    if pick.state == 0 {
        return one_pick(span);
    }
    Pick {
        state: 2,
        start: 0,
        end: 0,
    }
}

// A file at all lines whose paths end where a range does.
pub(crate) fn note(
    from: &[usize],
    to: &[usize],
    order: &[usize],
    count: usize,
    range: Range,
    span: Span,
    states: &mut [u64],
    starts: &mut [u64],
    ends: &mut [u64],
)
    requires order_held { OrderHeld order.now count × (range.high ≤ count) }
    requires both_fit { BothFit count from.now to.now }
    requires all_fit { AllFit count states.old starts.old ends.old }
    ensures { FileNoted from.now to.now order.now count range span (pick_in states.old starts.old ends.old) (pick_in states.new starts.new ends.new) }
{
    for k in range.low..range.high {
        let line = order[k];
        let here = ends_there(from[line], to[line], range.length);
        let pick = Pick {
            state: states[line],
            start: starts[line],
            end: ends[line],
        };
        let next = noted(pick, span, here);
        states[line] = next.state;
        starts[line] = next.start;
        ends[line] = next.end;
    }
}

// The first entries of a row into another.
pub(crate) fn hand_over(from: &[u64], count: usize, to: &mut [u64])
    requires { (count ≤ length from.now) × (count ≤ length to.old) }
    ensures { to.new ≡ take count from.now ++ drop count to.old }
{
    to[..count].copy_from_slice(&from[..count]);
}
