// Reading the least list off the table, from the rightmost stop to the left: at each stop the first choice whose sum is the window's word.
ghost use Rattle.std.specs.Prelude.{◌≡◌, suc, ◌+◌, ◌-◌, ◌≤◌, ◌<◌, length};
ghost use Rattle.runs.specs.Alone.{lone_stops};
ghost use Rattle.engine_table.specs.Private.{Asked, DetourFrom, Filled, ListWritten, worth, choice_worth, chosen, list_at};
ghost use Rattle.runs.specs.Private.{plain_stops_at};

use crate::stops::{early_of, reads_before, row, trip_of};

// What the detour from c comes to at stop b + 1, in the window (a, b + 1] with s reads skipped; w reads stand left of c.
fn detour_cost(
    starts: &[u64],
    lengths: &[u64],
    numbers: &[u64],
    counts: &[u64],
    turn: u64,
    room: &[u64],
    reads: usize,
    a: usize,
    b: usize,
    s: usize,
    c: usize,
    w: u64,
) -> u64
    requires asked { Asked starts.now lengths.now numbers.now counts.now turn reads room.now a b s }
    requires detour_from { DetourFrom counts.now a b c w }
    ensures { result ≡ choice_worth (plain_stops_at starts lengths numbers counts) turn a b s c }
{
    let k = numbers.len();
    let slope = trip_of(starts, lengths, numbers, turn, c, b + 1);
    let base = slope * w + early_of(starts, numbers, counts, c, b + 1);
    let inner = row(k, reads, c, b) + counts[b + 1] as usize + s;
    let rest = row(k, reads, a, c - 1) + s;
    base + slope * (s as u64) + room[inner] + room[rest]
}

// Where the detour to stop b + 1 starts, which is not skipped.
fn detour_start(
    starts: &[u64],
    lengths: &[u64],
    numbers: &[u64],
    counts: &[u64],
    turn: u64,
    room: &[u64],
    reads: usize,
    a: usize,
    b: usize,
    s: usize,
    least: u64,
) -> usize
    requires asked { Asked starts.now lengths.now numbers.now counts.now turn reads room.now a b s }
    requires least_value { least ≡ worth (lone_stops starts.now lengths.now numbers.now counts.now) turn a (suc b) s }
    requires s_nonzero { 0 < chosen (lone_stops starts.now lengths.now numbers.now counts.now) turn a b s }
    ensures { result ≡ chosen (plain_stops_at starts lengths numbers counts) turn a b s }
{
    let mut w = reads_before(counts, b + 1);
    for c in (a + 2..b + 2).rev() {
        if detour_cost(
            starts, lengths, numbers, counts, turn, room, reads, a, b, s, c, w,
        ) == least
        {
            return c;
        }
        w -= counts[c - 1];
    }
    a + 1
}

// The choice at stop b + 1: 0 where it is skipped, else where its detour starts.
// Stays: 0 for a skip and no Option, since the choices of the recurrence (`choice`) are numbered so.
fn choice_of(
    starts: &[u64],
    lengths: &[u64],
    numbers: &[u64],
    counts: &[u64],
    turn: u64,
    room: &[u64],
    reads: usize,
    a: usize,
    b: usize,
    s: usize,
) -> usize
    requires { Asked starts.now lengths.now numbers.now counts.now turn reads room.now a b s }
    ensures { result ≡ chosen (plain_stops_at starts lengths numbers counts) turn a b s }
{
    let k = numbers.len();
    let least = room[row(k, reads, a, b + 1) + s];
    let from = row(k, reads, a, b) + counts[b + 1] as usize + s;
    if early_of(starts, numbers, counts, a, b + 1) + room[from] == least {
        return 0;
    }
    detour_start(
        starts, lengths, numbers, counts, turn, room, reads, a, b, s, least,
    )
}

// The least list's entries into the first places of two rows, and their number. The window (a, b] with s reads skipped is walked from the right;
// under it wait the windows to go back to, each with its left edge, its s, and the end of the detour that starts where the window above begins.
pub(crate) fn read_off(
    starts: &[u64],
    lengths: &[u64],
    numbers: &[u64],
    counts: &[u64],
    turn: u64,
    room: &[u64],
    reads: usize,
    froms: &mut [u64],
    tos: &mut [u64],
) -> usize
    requires filled { Filled starts.now lengths.now numbers.now counts.now turn reads room.now }
    requires numbers_nonzero { 0 < length numbers.now }
    requires numbers_in_bounds { length numbers.now ≤ length froms.old + 1 }
    requires numbers_in_bounds_2 { length numbers.now ≤ length tos.old + 1 }
    ensures { ListWritten (list_at (plain_stops_at starts lengths numbers counts) turn 0 (length numbers.now - 1) 0) result froms.old tos.old froms.new tos.new }
{
    let mut edges = [0u8; 64];
    let mut ends = [0u8; 64];
    let mut skips = [0u16; 64];
    let mut depth: usize = 0;
    let mut n: usize = 0;
    let mut a: usize = 0;
    let mut b: usize = numbers.len() - 1;
    let mut s: usize = 0;
    // Stays: no range is gone over; each turn goes on to the left in its window or back to one that waits, so that `for` has no form for it.
    loop {
        if b <= a {
            if depth == 0 {
                return n;
            }
            depth -= 1;
            froms[n] = numbers[a];
            tos[n] = numbers[ends[depth] as usize];
            n += 1;
            b = a - 1;
            s = skips[depth] as usize;
            a = edges[depth] as usize;
        } else {
            let c = choice_of(
                starts,
                lengths,
                numbers,
                counts,
                turn,
                room,
                reads,
                a,
                b - 1,
                s,
            );
            if c == 0 {
                s += counts[b] as usize;
                b -= 1;
            } else {
                edges[depth] = a as u8;
                ends[depth] = b as u8;
                skips[depth] = s as u16;
                depth += 1;
                s += counts[b] as usize;
                b -= 1;
                a = c;
            }
        }
    }
}
