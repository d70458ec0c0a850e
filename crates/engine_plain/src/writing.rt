// The least list, written by asking again: at each stop the choice that its window makes, in the order in which the detours are done.
ghost use Rattle.std.specs.Prelude.{◌+◌, ◌-◌, ◌≤◌, length};
ghost use Rattle.engine_plain.specs.Private.{Asked, StopRows, ListFits, ListWritten, list_at};

use crate::asking::chosen;

// The list of the window (a, b] into two rows from entry n on: what is done inside a detour before it, and the rest after it. Answers the entry behind it.
fn write_window(
    firsts: &[u64],
    lefts: &[u64],
    spans: &[u64],
    reads: &[u64],
    turn: u64,
    a: usize,
    b: usize,
    s: u64,
    froms: &mut [u64],
    tos: &mut [u64],
    n: usize,
) -> usize
    requires asked { Asked lefts.now spans.now reads.now turn a b s }
    requires list_fits { ListFits firsts.now lefts.now a b n froms.old tos.old }
    ensures { ListWritten (list_at firsts.now lefts.now spans.now reads.now turn a b s) n result froms.old tos.old froms.new tos.new }
{
    if b <= a {
        return n;
    }
    let c = chosen(lefts, spans, reads, turn, a, b, s);
    let skipped = s + reads[b];
    if c == 0 {
        return write_window(
            firsts,
            lefts,
            spans,
            reads,
            turn,
            a,
            b - 1,
            skipped,
            froms,
            tos,
            n,
        );
    }
    let at = write_window(
        firsts,
        lefts,
        spans,
        reads,
        turn,
        c, // inside the detour
        b - 1, // done before it
        skipped, // with its last stop
        froms,
        tos,
        n,
    );
    froms[at] = firsts[c];
    tos[at] = firsts[b];
    write_window(
        firsts,
        lefts,
        spans,
        reads,
        turn,
        a, // the rest
        c - 1, // done after it
        s, // as before
        froms,
        tos,
        at + 1,
    )
}

// The least list of stops that four rows hold, into the first entries of two rows; and how many entries it has.
pub(crate) fn write_list(
    firsts: &[u64],
    lefts: &[u64],
    spans: &[u64],
    reads: &[u64],
    turn: u64,
    froms: &mut [u64],
    tos: &mut [u64],
) -> usize
    requires stop_rows { StopRows firsts.now lefts.now spans.now reads.now turn }
    requires lefts_in_bounds { length lefts.now ≤ length froms.old + 1 }
    requires lefts_in_bounds_2 { length lefts.now ≤ length tos.old + 1 }
    ensures { ListWritten (list_at firsts.now lefts.now spans.now reads.now turn 0 (length lefts.now - 1) 0) 0 result froms.old tos.old froms.new tos.new }
{
    let stops = lefts.len();
    if stops == 0 {
        return 0;
    }
    write_window(
        firsts,
        lefts,
        spans,
        reads,
        turn,
        0,
        stops - 1,
        0,
        froms,
        tos,
        0,
    )
}
