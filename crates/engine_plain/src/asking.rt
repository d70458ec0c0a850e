// What a window of stops costs, asked without a table: a window asks each choice for its last stop, and a choice asks smaller windows in turn.
ghost use Rattle.std.specs.Prelude.{◌≡◌, ◌≤◌, ◌<◌};
ghost use Rattle.least.specs.Recurrence.{early, wait};
ghost use Rattle.engine_plain.specs.Private.{start_at, stop_end, reads_at, EarlyFits, Asked, MayChoose, worth, choice_worth, chosen_at};

// What stop b pays when it is read by the leg from stop a.
fn early_of(lefts: &[u64], reads: &[u64], a: usize, b: usize) -> u64
    requires { EarlyFits lefts.now reads.now a b }
    ensures { result ≡ early (start_at lefts.now) (reads_at reads.now) a b }
{
    2 * (lefts[b] - lefts[a]) * reads[b]
}

// What the reads still waiting after a detour from stop c to stop b pay for it.
fn wait_of(
    lefts: &[u64],
    spans: &[u64],
    reads: &[u64],
    turn: u64,
    c: usize,
    b: usize,
    s: u64,
) -> u64
    requires asked { Asked lefts.now spans.now reads.now turn c b s }
    requires c_le_b { c ≤ b }
    ensures { result ≡ wait (start_at lefts.now) (stop_end lefts.now spans.now) (reads_at reads.now) turn c b s }
{
    let left = runs::count_reads(&reads[..c]);
    2 * (turn + (lefts[b] + spans[b] - lefts[c])) * (left + s)
}

// The least that the window (a, b] can cost, with s reads skipped right of it: the lowest over the choices for its last stop.
#[cycle(choice_window)]
fn window(lefts: &[u64], spans: &[u64], reads: &[u64], turn: u64, a: usize, b: usize, s: u64) -> u64
    requires { Asked lefts.now spans.now reads.now turn a b s }
    ensures { result ≡ worth lefts.now spans.now reads.now turn a b s }
{
    if b <= a {
        return 0;
    }
    let mut least = choice(lefts, spans, reads, turn, a, b, s, 0);
    for c in (a + 1..=b).rev() {
        least = least.min(choice(lefts, spans, reads, turn, a, b, s, c));
    }
    least
}

// What a choice for stop b comes to: to skip it (c = 0), or a detour to it from stop c.
#[cycle(choice_window)]
fn choice(
    lefts: &[u64],
    spans: &[u64],
    reads: &[u64],
    turn: u64,
    a: usize,
    b: usize,
    s: u64,
    c: usize,
) -> u64
    requires asked { Asked lefts.now spans.now reads.now turn a b s }
    requires may_choose { MayChoose a b c }
    ensures { result ≡ choice_worth lefts.now spans.now reads.now turn a b s c }
{
    let skipped = s + reads[b];
    if c == 0 {
        return early_of(lefts, reads, a, b) + window(lefts, spans, reads, turn, a, b - 1, skipped);
    }
    wait_of(lefts, spans, reads, turn, c, b, s)
        + early_of(lefts, reads, c, b)
        + window(lefts, spans, reads, turn, c, b - 1, skipped)
        + window(lefts, spans, reads, turn, a, c - 1, s)
}

// The choice made for stop b of the window (a, b]: the first in the order 0, b, b - 1, .. that comes to the least.
// Stays: 0 for a skip and no Option, since the choices of the recurrence (`choice`) are numbered so.
pub(crate) fn chosen(
    lefts: &[u64],
    spans: &[u64],
    reads: &[u64],
    turn: u64,
    a: usize,
    b: usize,
    s: u64,
) -> usize
    requires asked { Asked lefts.now spans.now reads.now turn a b s }
    requires a_lt_b { a < b }
    ensures { result ≡ chosen_at lefts.now spans.now reads.now turn a b s }
{
    let mut at = 0;
    let mut least = choice(lefts, spans, reads, turn, a, b, s, 0);
    for c in (a + 1..=b).rev() {
        let cost = choice(lefts, spans, reads, turn, a, b, s, c);
        if cost < least {
            at = c;
            least = cost;
        }
    }
    at
}
