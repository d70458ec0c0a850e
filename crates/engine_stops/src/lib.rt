// engine_stops: the stops of a run in rows of their own, wants of one aggregate as one, for the engines: first files, starts, lengths and reads.
// Joining answers every input; all is judged before the first write.
#![tactic(auto)]

ghost use Rattle.std.specs.Prelude.{◌≡◌, List, ℕ, ◌≤◌, ◌<◌, length};
ghost use Rattle.runs.specs.Run.{joined, want_stops};
ghost use Rattle.runs.specs.Rows.{run_at};
ghost use Rattle.runs.specs.Private.{SoundTable, InTable, want_stops_at};
ghost use Rattle.engine_stops.specs.Joining.{join_answer, join_rows_of, join_rows_before, join_rows_after, row_with, length_of};
ghost use Rattle.engine_stops.specs.Private.{WantsFit, JoinFits, place_of, joins_next, short_stop_rows};

use refusals::{Refusal, Verdict};
use runs::{first_member, judge, last_member};

// Where a stop lies: its first file, its start and its length.
#[derive(Clone, Copy)]
struct Place {
    first: u64,
    start: u64,
    length: u64,
}

// Where the stop of a wanted file lies.
fn stop_place(starts: &[u64], lengths: &[u64], aggregates: &[u64], file: u64) -> Place
    requires sound_table { SoundTable starts.now lengths.now }
    requires starts_len { length starts.now ≡ length aggregates.now }
    requires in_table { InTable starts.now file }
    ensures { result ≡ place_of starts.now lengths.now aggregates.now file }
{
    let at = (file - 1) as usize;
    let first = first_member(aggregates, at);
    let last = last_member(aggregates, at);
    let start = starts[first];
    Place {
        first: first as u64 + 1,
        start,
        length: starts[last] + lengths[last] - start,
    }
}

// Whether a want is of the same stop as the next one: both files have the same aggregate number, other than 0.
fn joins_next(aggregates: &[u64], numbers: &[u64], i: usize) -> bool
    requires wants_fit { WantsFit aggregates.now numbers.now }
    requires i_in_bounds { i < length numbers.now }
    ensures { result ≡ joins_next aggregates.now numbers.now i }
{
    if numbers.len() <= i + 1 {
        return false;
    }
    let number = aggregates[(numbers[i] - 1) as usize];
    if number == 0 {
        return false;
    }
    aggregates[(numbers[i + 1] - 1) as usize] == number
}

// How many stops the wants make.
fn count_stops(aggregates: &[u64], numbers: &[u64]) -> usize
    requires { WantsFit aggregates.now numbers.now }
    ensures { (s l cs : List ℕ) → length cs ≡ length numbers.now → result ≡ length (joined (want_stops s l aggregates.now numbers.now cs)) }
{
    let mut count = 0;
    for i in (0..numbers.len()).rev() {
        if !joins_next(aggregates, numbers, i) {
            count += 1;
        }
    }
    count
}

// Whether a row is shorter than the stops.
fn short_rows(stops: usize, firsts: usize, lefts: usize, spans: usize, reads: usize) -> bool
    ensures { result ≡ short_stop_rows stops firsts lefts spans reads }
{
    firsts < stops || lefts < stops || spans < stops || reads < stops
}

// The stops into the first entries of four rows, from the right: a want of the stop at hand adds its reads to it.
fn fill(
    starts: &[u64],
    lengths: &[u64],
    aggregates: &[u64],
    numbers: &[u64],
    counts: &[u64],
    stops: usize,
    firsts: &mut [u64],
    lefts: &mut [u64],
    spans: &mut [u64],
    reads: &mut [u64],
)
    requires join_fits { JoinFits starts.now lengths.now aggregates.now numbers.now counts.now stops }
    requires stops_in_bounds { stops ≤ length firsts.old }
    requires stops_in_bounds_2 { stops ≤ length lefts.old }
    requires stops_in_bounds_3 { stops ≤ length spans.old }
    requires stops_in_bounds_4 { stops ≤ length reads.old }
    ensures firsts_after { firsts.new ≡ row_with (λ s. s.file) (joined (want_stops_at starts lengths aggregates numbers counts)) firsts.old }
    ensures lefts_after { lefts.new ≡ row_with (λ s. s.start) (joined (want_stops_at starts lengths aggregates numbers counts)) lefts.old }
    ensures spans_after { spans.new ≡ row_with length_of (joined (want_stops_at starts lengths aggregates numbers counts)) spans.old }
    ensures reads_after { reads.new ≡ row_with (λ s. s.count) (joined (want_stops_at starts lengths aggregates numbers counts)) reads.old }
{
    let mut at = stops;
    for i in (0..numbers.len()).rev() {
        let place = stop_place(starts, lengths, aggregates, numbers[i]);
        let mut carried = 0;
        if joins_next(aggregates, numbers, i) {
            carried = reads[at];
        } else {
            at -= 1;
        }
        firsts[at] = place.first;
        lefts[at] = place.start;
        spans[at] = place.length;
        reads[at] = counts[i] + carried;
    }
}

// The stops of a run in the first entries of four rows: their number, or the first refusal that applies.
pub fn join(
    starts: &[u64],
    lengths: &[u64],
    aggregates: &[u64],
    numbers: &[u64],
    counts: &[u64],
    head: u64,
    turn: u64,
    firsts: &mut [u64],
    lefts: &mut [u64],
    spans: &mut [u64],
    reads: &mut [u64],
) -> Result<usize, Verdict>
    ensures value { result ≡ join_answer (run_at starts lengths aggregates numbers counts head turn) (join_rows_before firsts lefts spans reads) }
    ensures reads_value { join_rows_after firsts lefts spans reads ≡ join_rows_of (run_at starts lengths aggregates numbers counts head turn) (join_rows_before firsts lefts spans reads) }
{
    judge(starts, lengths, aggregates, numbers, counts, head, turn)?;
    let stops = count_stops(aggregates, numbers);
    Refusal::ShortRow.when(short_rows(stops, firsts.len(), lefts.len(), spans.len(), reads.len()))?;
    fill(
        starts, lengths, aggregates, numbers, counts, stops, firsts, lefts, spans, reads,
    );
    Ok(stops)
}
