// Filling the table: cell (a, b, s) is the least that the window (a, b] can cost with s reads skipped right of b.
ghost use Rattle.std.specs.Prelude.{◌≡◌, suc, ◌+◌, ◌-◌, ◌*◌, ◌≤◌, ◌<◌, length, get_or};
ghost use Rattle.least.specs.Recurrence.{lower};
ghost use Rattle.engine_table.specs.Private.{Written, SkipFits, RowTask, DetourFrom, SoFar, ColumnTask, DoneUpTo, Judged, Filled, Beyond, table_size, row_at, reads_in, worth, choice_worth};
ghost use Rattle.runs.specs.Private.{plain_stops_at};

use crate::blocks::lower_row;
use crate::stops::{early_of, row, trip_of};

// Zero in n words.
pub(crate) fn clear(room: &mut [u64], at: usize, n: usize)
    requires { at + n ≤ length room.old }
    ensures { Written at n (λ s. 0) room.old room.new }
{
    room[at..at + n].fill(0);
}

// The row of a choice that skips: each word of `from`, and the same on top.
fn skip_row(room: &mut [u64], cell: usize, from: usize, more: u64, n: usize)
    requires { SkipFits cell from more n room.old }
    ensures { Written cell n (λ s. more + get_or room.old (from + s) 0) room.old room.new }
{
    for s in 0..n {
        room[cell + s] = more + room[from + s];
    }
}

// Row (a, b + 1) against the detour from c; w reads stand left of c.
fn detour_row(
    starts: &[u64],
    lengths: &[u64],
    numbers: &[u64],
    counts: &[u64],
    turn: u64,
    room: &mut [u64],
    reads: usize,
    a: usize,
    b: usize,
    c: usize,
    w: u64,
    n: usize,
)
    requires row_task { RowTask starts.now lengths.now numbers.now counts.now turn reads room.old a b n }
    requires detour_from { DetourFrom counts.now a b c w }
    requires so_far { SoFar (row_at (length numbers.now) reads a (b + 1)) n room.old }
    ensures { Written (row_at (length numbers.now) reads a (b + 1)) n (λ s. lower (get_or room.old (row_at (length numbers.now) reads a (b + 1) + s) 0) (choice_worth (plain_stops_at starts lengths numbers counts) turn a b s c)) room.old room.new }
{
    let k = numbers.len();
    let slope = trip_of(starts, lengths, numbers, turn, c, b + 1);
    let base = slope * w + early_of(starts, numbers, counts, c, b + 1);
    let inner = row(k, reads, c, b) + counts[b + 1] as usize;
    lower_row(
        room,
        row(k, reads, a, b + 1),
        inner,
        row(k, reads, a, c - 1),
        base,
        slope,
        n,
    );
}

// Row (a, b + 1): the skip, then the detours from b + 1, b, .. a + 1. left reads stand left of b + 1.
fn fill_row(
    starts: &[u64],
    lengths: &[u64],
    numbers: &[u64],
    counts: &[u64],
    turn: u64,
    room: &mut [u64],
    reads: usize,
    a: usize,
    b: usize,
    left: u64,
    n: usize,
)
    requires row_task { RowTask starts.now lengths.now numbers.now counts.now turn reads room.old a b n }
    requires left_value { left ≡ reads_in counts.now (b + 1) }
    ensures { Written (row_at (length numbers.now) reads a (b + 1)) n (worth (plain_stops_at starts lengths numbers counts) turn a (suc b)) room.old room.new }
{
    let k = numbers.len();
    let from = row(k, reads, a, b) + counts[b + 1] as usize;
    skip_row(
        room,
        row(k, reads, a, b + 1),
        from,
        early_of(starts, numbers, counts, a, b + 1),
        n,
    );
    let mut w = left;
    for c in (a + 1..b + 2).rev() {
        detour_row(
            starts, lengths, numbers, counts, turn, room, reads, a, b, c, w, n,
        );
        w -= counts[c - 1];
    }
}

// Column b + 1, after the two rows of empty windows that it needs.
fn fill_column(
    starts: &[u64],
    lengths: &[u64],
    numbers: &[u64],
    counts: &[u64],
    turn: u64,
    room: &mut [u64],
    reads: usize,
    b: usize,
    left: u64,
    n: usize,
)
    requires column_task { ColumnTask starts.now lengths.now numbers.now counts.now turn reads room.old b n }
    requires left_value { left ≡ reads_in counts.now (b + 1) }
    ensures { DoneUpTo starts.now lengths.now numbers.now counts.now turn reads room.old room.new (b + 1) }
{
    clear(room, row(numbers.len(), reads, b + 1, b), 2 * (reads + 1));
    for a in 0..b + 1 {
        fill_row(
            starts, lengths, numbers, counts, turn, room, reads, a, b, left, n,
        );
    }
}

// The whole table, column by column.
pub(crate) fn fill(
    starts: &[u64],
    lengths: &[u64],
    numbers: &[u64],
    counts: &[u64],
    turn: u64,
    room: &mut [u64],
    reads: usize,
)
    requires judged { Judged starts.now lengths.now numbers.now counts.now turn reads }
    requires numbers_nonzero { 0 < length numbers.now }
    requires reads_in_bounds { table_size (length numbers.now) reads ≤ length room.old }
    ensures filled { Filled starts.now lengths.now numbers.now counts.now turn reads room.new }
    ensures beyond { Beyond (table_size (length numbers.now) reads) room.old room.new }
{
    clear(room, 0, reads + 1);
    let mut left = counts[0];
    for b in 0..numbers.len() - 1 {
        let n = reads - (left + counts[b + 1]) as usize + 1;
        fill_column(
            starts, lengths, numbers, counts, turn, room, reads, b, left, n,
        );
        left += counts[b + 1];
    }
}
