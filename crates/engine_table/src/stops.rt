// The stops read off the caller's rows, stop i being the i-th want's file; and where the rows of the table stand.
ghost use Rattle.std.specs.Prelude.{◌≡◌, ◌+◌, ◌-◌, ◌*◌, ◌≤◌, ◌<◌, length, get_or};
ghost use Rattle.runs.specs.Run.{total, most_reads};
ghost use Rattle.engine_table.specs.Private.{start_at, stop_end, IsStop, TripFits, EarlyFits, RowFits, row_at, reads_in};

// Where a stop starts.
fn start_of(starts: &[u64], numbers: &[u64], i: usize) -> u64
    requires { IsStop starts.now numbers.now i }
    ensures { result ≡ start_at starts.now numbers.now i }
{
    let at = (numbers[i] - 1) as usize; // of the table
    starts[at]
}

// Where a stop ends.
fn end_of(starts: &[u64], lengths: &[u64], numbers: &[u64], i: usize) -> u64
    requires stop { IsStop starts.now numbers.now i }
    requires starts_len { length starts.now ≡ length lengths.now }
    requires i_bound { stop_end starts.now lengths.now numbers.now i ≤ 1099511627776 }
    ensures { result ≡ stop_end starts.now lengths.now numbers.now i }
{
    let at = (numbers[i] - 1) as usize;
    starts[at] + lengths[at]
}

// What a detour from stop c to stop b adds to the time of every read after it.
pub(crate) fn trip_of(
    starts: &[u64],
    lengths: &[u64],
    numbers: &[u64],
    turn: u64,
    c: usize,
    b: usize,
) -> u64
    requires { TripFits starts.now lengths.now numbers.now turn c b }
    ensures { result ≡ 2 * (turn + (stop_end starts.now lengths.now numbers.now b - start_at starts.now numbers.now c)) }
{
    2 * (turn + (end_of(starts, lengths, numbers, b) - start_of(starts, numbers, c)))
}

// What stop b pays when it is read by the leg from stop a.
pub(crate) fn early_of(starts: &[u64], numbers: &[u64], counts: &[u64], a: usize, b: usize) -> u64
    requires { EarlyFits starts.now numbers.now counts.now a b }
    ensures { result ≡ 2 * (start_at starts.now numbers.now b - start_at starts.now numbers.now a) * get_or counts.now b 0 }
{
    2 * (start_of(starts, numbers, b) - start_of(starts, numbers, a)) * counts[b]
}

// The reads of the first n stops.
pub(crate) fn reads_before(counts: &[u64], n: usize) -> u64
    requires n_in_bounds { n ≤ length counts.now }
    requires counts_bound { total counts.now ≤ most_reads }
    ensures { result ≡ reads_in counts.now n }
{
    runs::count_reads(&counts[..n])
}

// The first word of the table's row (a, b).
pub(crate) fn row(k: usize, reads: usize, a: usize, b: usize) -> usize
    requires { RowFits k reads a b }
    ensures { result ≡ row_at k reads a b }
{
    (a * k + b) * (reads + 1)
}
