// Laying a choice over a row of the table, block by block. A row is the lower edge of lines, as the choice's words are: two comparisons show of
// all words that are left, or of a block, that the choice lowers none of them.
ghost use Rattle.std.specs.Prelude.{◌≡◌, ◌<◌};
ghost use Rattle.engine_table.specs.Private.{Written, LowerFits, WordFits, Edges, Unlowered, Block, Falling, Laid, choice_sum, lowered};

// Words that are looked at together.
const BLOCK: usize = 32;

// Each of n words falls to the choice's, where that is lower.
fn lower_words(
    room: &mut [u64],
    cell: usize,
    inner: usize,
    rest: usize,
    base: u64,
    slope: u64,
    n: usize,
)
    requires { LowerFits cell inner rest base slope n room.old }
    ensures { Written cell n (lowered cell inner rest base slope room.old) room.old room.new }
{
    let mut wait = base;
    for s in 0..n {
        let choice = wait + room[inner + s] + room[rest + s];
        room[cell + s] = room[cell + s].min(choice);
        wait += slope;
    }
}

fn block_of(n: usize) -> usize
    ensures { Block n result }
{
    n.min(BLOCK)
}

// The choice's word for s reads skipped.
fn choice_word(room: &[u64], inner: usize, rest: usize, base: u64, slope: u64, s: usize) -> u64
    requires { WordFits inner rest base slope s room.now }
    ensures { result ≡ choice_sum inner rest base slope room.now s }
{
    base + slope * (s as u64) + room[inner + s] + room[rest + s]
}

// How many of n words are shown to stay as they are: all, a block or none. The row lies below its tangent, which its first two words give.
// The choice rises by its slope at least with each word (far), and between two words it lies above their chord (near).
fn unlowered(
    room: &[u64],
    cell: usize,
    inner: usize,
    rest: usize,
    base: u64,
    slope: u64,
    n: usize,
) -> usize
    requires lower_fits { LowerFits cell inner rest base slope n room.now }
    requires edges { Edges cell inner rest n room.now }
    ensures { Unlowered cell inner rest base slope n room.now result }
{
    if n < 2 {
        return 0;
    }
    let old = room[cell];
    let new = choice_word(room, inner, rest, base, slope, 0);
    if new < old {
        return 0;
    }
    let step = room[cell + 1] - old;
    let far = n - 1;
    if old + step * (far as u64) <= new + slope * (far as u64) {
        return n;
    }
    let near = block_of(n) - 1;
    if old + step * (near as u64) <= choice_word(room, inner, rest, base, slope, near) {
        return near + 1;
    }
    0
}

// How many words to lower after those that stay.
fn falling(stay: usize, n: usize) -> usize
    ensures { Falling stay n result }
{
    if stay == 0 {
        return block_of(n);
    }
    0
}

// The choice over the next of n words: those that stay, or a block, lowered. How many they are.
fn lower_next(
    room: &mut [u64],
    cell: usize,
    inner: usize,
    rest: usize,
    base: u64,
    slope: u64,
    n: usize,
) -> usize
    requires lower_fits { LowerFits cell inner rest base slope n room.old }
    requires edges { Edges cell inner rest n room.old }
    requires n_nonzero { 0 < n }
    ensures { Laid cell inner rest base slope n room.old room.new result }
{
    let stay = unlowered(room, cell, inner, rest, base, slope, n);
    let fall = falling(stay, n);
    lower_words(room, cell, inner, rest, base, slope, fall);
    stay + fall
}

// The row of a choice that detours: each word falls to the choice's, where that is lower.
pub(crate) fn lower_row(
    room: &mut [u64],
    cell: usize,
    inner: usize,
    rest: usize,
    base: u64,
    slope: u64,
    n: usize,
)
    requires lower_fits { LowerFits cell inner rest base slope n room.old }
    requires edges { Edges cell inner rest n room.old }
    ensures { Written cell n (lowered cell inner rest base slope room.old) room.old room.new }
{
    let mut i: usize = 0;
    while i < n {
        let wait = base + slope * (i as u64);
        i += lower_next(room, cell + i, inner + i, rest + i, wait, slope, n - i);
    }
}
