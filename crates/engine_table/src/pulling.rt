// The files of a table as a head meets them: a start right of the head is pulled to it, and each file ends where it lies.
ghost use Rattle.std.specs.Prelude.{◌≡◌, ℕ, ◌≤◌, ◌<◌, length};
ghost use Rattle.runs.specs.Run.{end_at, last_place};
ghost use Rattle.engine_table.specs.Private.{FirstHold, met_start, met_length};

// Their starts.
pub(crate) fn pulled_starts(starts: &[u64], head: u64) -> [u64; 64]
    requires { length starts.now ≤ 64 }
    ensures { FirstHold (length starts.now) (met_start head starts.now) result }
{
    let mut row = [0u64; 64];
    for (i, start) in starts.iter().enumerate() {
        row[i] = (*start).min(head);
    }
    row
}

// Their lengths, each from such a start to the end.
pub(crate) fn pulled_lengths(starts: &[u64], lengths: &[u64], head: u64) -> [u64; 64]
    requires starts_len_bound { length starts.now ≤ 64 }
    requires starts_len { length starts.now ≡ length lengths.now }
    requires by_index { (i : ℕ) → i < length starts.now → end_at starts.now lengths.now i ≤ last_place }
    ensures { FirstHold (length starts.now) (met_length head starts.now lengths.now) result }
{
    let mut row = [0u64; 64];
    for (i, start) in starts.iter().enumerate() {
        row[i] = lengths[i] + (*start - (*start).min(head));
    }
    row
}
