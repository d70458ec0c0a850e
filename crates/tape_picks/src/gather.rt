// All files of an index, noted at the lines of their paths.
ghost use Rattle.std.specs.Prelude.{◌≡◌, true, ◌≤◌};
ghost use Rattle.tape_markup.specs.Tree.{is_balanced};
ghost use Rattle.tape_picks.specs.Private.{pick_in, AllFit, ListHeld, NoneNoted, Gathered, Searched};

use crate::Tape;
use crate::notes::{hand_over, note};
use crate::walk::{meet, walk_start};

// Every file of the index, one after the other, until one is bad.
fn gather(
    index: &[u8],
    list: &[u8],
    from: &[usize],
    to: &[usize],
    order: &[usize],
    count: usize,
    tape: Tape,
    states: &mut [u64],
    starts: &mut [u64],
    ends: &mut [u64],
) -> bool
    requires index_value { is_balanced index.now ≡ true }
    requires list_held { ListHeld list.now from.now to.now order.now count }
    requires all_fit { AllFit count states.old starts.old ends.old }
    requires none_noted { NoneNoted order.now count (pick_in states.old starts.old ends.old) }
    ensures { Gathered tape index.now list.now from.now to.now order.now count result (pick_in states.new starts.new ends.new) }
{
    let mut next = Some(walk_start(count));
    while let Some(walk) = next {
        let met = meet(index, list, from, to, order, count, tape, walk);
        let Some(span) = met.file else {
            return false;
        };
        note(
            from, to, order, count, met.range, span, states, starts, ends,
        );
        next = met.walk;
    }
    true
}

// The rows of an index whose files are all good.
pub(crate) fn search(
    index: &[u8],
    list: &[u8],
    from: &[usize],
    to: &[usize],
    order: &[usize],
    count: usize,
    tape: Tape,
    states: &mut [u64],
    starts: &mut [u64],
    ends: &mut [u64],
) -> bool
    requires index_value { is_balanced index.now ≡ true }
    requires list_held { ListHeld list.now from.now to.now order.now count }
    requires all_fit { AllFit count states.old starts.old ends.old × (count ≤ 1024) }
    ensures { Searched tape index.now list.now from.now to.now count states.old starts.old ends.old result states.new starts.new ends.new }
{
    let mut noted = [0u64; 1024];
    let mut firsts = [0u64; 1024];
    let mut lasts = [0u64; 1024];
    let good = gather(
        index,
        list,
        from,
        to,
        order,
        count,
        tape,
        &mut noted,
        &mut firsts,
        &mut lasts,
    );
    if !good {
        return false;
    }
    hand_over(&noted, count, states);
    hand_over(&firsts, count, starts);
    hand_over(&lasts, count, ends);
    true
}
