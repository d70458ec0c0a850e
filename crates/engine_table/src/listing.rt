// The list of a run: refusals 1 to 7, 8 and 9, before anything is written; then the least list, and the room zeroed.
ghost use Rattle.std.specs.Prelude.{◌≡◌, ◌||◌, ◌+◌, ◌-◌, ◌≤◌, ◌<◌, length, ltb};
ghost use Rattle.refusals.specs.Refusals.{checked};
ghost use Rattle.least.specs.Recurrence.{least_list};
ghost use Rattle.runs.specs.Run.{most_reads};
ghost use Rattle.runs.specs.Alone.{alone_at};
ghost use Rattle.runs.specs.AnyHead.{pulled};
ghost use Rattle.engine_table.specs.Listing.{Lists, list_rows_before, list_rows_after};
ghost use Rattle.engine_table.specs.Private.{judge_table_of, AnyRun, ListWritten, Beyond, table_size, list_rows_verdict};
ghost use Rattle.runs.specs.Private.{plain_stops_at};

use crate::filling::{clear, fill};
use crate::pulling::{pulled_lengths, pulled_starts};
use crate::reading::read_off;
use refusals::{Refusal, Verdict};

// 1 to 7, for a table of stops and a head anywhere.
fn judge_any(
    starts: &[u64],
    lengths: &[u64],
    numbers: &[u64],
    counts: &[u64],
    head: u64,
    turn: u64,
) -> Result<(), Verdict>
    ensures { result ≡ checked (judge_table_of (alone_at starts lengths numbers counts head turn)) }
{
    Refusal::FileRows.when(runs::MOST_WANTS < starts.len())?;
    runs::judge_alone(
        starts,
        lengths,
        numbers,
        counts,
        runs::lift_head(head),
        turn,
    )
}

// Whether a row is too short for a list over so many wants: it holds one entry less, and none where nothing is wanted.
fn short_rows(wants: usize, froms: usize, tos: usize) -> bool
    ensures { result ≡ (ltb froms (wants - 1) || ltb tos (wants - 1)) }
{
    let entries = wants.saturating_sub(1);
    froms < entries || tos < entries
}

// The words of the table.
fn table_words(wants: usize, reads: usize) -> usize
    requires wants_bound { wants ≤ 64 }
    requires reads_le_most_reads { reads ≤ most_reads }
    ensures { result ≡ table_size wants reads }
{
    wants * wants * (reads + 1)
}

// 8, then 9.
fn judge_rows(
    wants: usize,
    reads: usize,
    froms: usize,
    tos: usize,
    room: usize,
) -> Result<(), Verdict>
    requires wants_bound { wants ≤ 64 }
    requires reads_le_most_reads { reads ≤ most_reads }
    ensures { result ≡ checked (list_rows_verdict wants reads froms tos room) }
{
    Refusal::ShortRow.when(short_rows(wants, froms, tos))?;
    Refusal::ShortRoom.when(room < table_words(wants, reads))
}

// The least list into the first entries of two rows, by way of the table of the stops as the head meets them.
fn least_list(
    starts: &[u64],
    lengths: &[u64],
    numbers: &[u64],
    counts: &[u64],
    head: u64,
    turn: u64,
    reads: usize,
    froms: &mut [u64],
    tos: &mut [u64],
    room: &mut [u64],
) -> usize
    requires any_run { AnyRun starts.now lengths.now numbers.now counts.now head turn reads }
    requires numbers_in_bounds { length numbers.now ≤ length froms.old + 1 }
    requires numbers_in_bounds_2 { length numbers.now ≤ length tos.old + 1 }
    requires reads_in_bounds { table_size (length numbers.now) reads ≤ length room.old }
    ensures list_written { ListWritten (least_list turn (pulled head (plain_stops_at starts lengths numbers counts))) result froms.old tos.old froms.new tos.new }
    ensures beyond { Beyond (table_size (length numbers.now) reads) room.old room.new }
{
    if numbers.len() == 0 {
        return 0;
    }
    let files = starts.len();
    let lefts = pulled_starts(starts, head);
    let spans = pulled_lengths(starts, lengths, head);
    fill(
        &lefts[..files],
        &spans[..files],
        numbers,
        counts,
        turn,
        room,
        reads,
    );
    read_off(
        &lefts[..files],
        &spans[..files],
        numbers,
        counts,
        turn,
        room,
        reads,
        froms,
        tos,
    )
}

// The least list of a run of files that lie in no aggregate, from a head anywhere, in the first entries of two rows, and the room zeroed: the number of
// its detours, or the first refusal that applies.
pub fn list(
    starts: &[u64],
    lengths: &[u64],
    numbers: &[u64],
    counts: &[u64],
    head: u64,
    turn: u64,
    froms: &mut [u64],
    tos: &mut [u64],
    room: &mut [u64],
) -> Result<usize, Verdict>
    ensures { Lists (alone_at starts lengths numbers counts head turn) (list_rows_before froms tos room) result (list_rows_after froms tos room) }
{
    judge_any(starts, lengths, numbers, counts, head, turn)?;
    let reads = runs::count_reads(counts) as usize;
    let k = numbers.len();
    judge_rows(k, reads, froms.len(), tos.len(), room.len())?;
    let n = least_list(
        starts, lengths, numbers, counts, head, turn, reads, froms, tos, room,
    );
    clear(room, 0, table_words(k, reads));
    Ok(n)
}
