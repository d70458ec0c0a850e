// Lines that ask for one path.
ghost use Rattle.std.specs.Prelude.{◌≡◌, ◌<◌};
ghost use Rattle.text_paths.specs.Paths.{line_count};
ghost use Rattle.sheet_picks.specs.Names.{same_path};
ghost use Rattle.sheet_picks.specs.Private.{PathRows, first_reads};

fn same_path(list: &[u8], froms: &[usize], tos: &[usize], i: usize, h: usize) -> bool
    requires path_rows { PathRows list.now froms.now tos.now }
    requires i_bound { i < line_count list.now }
    requires h_bound { h < line_count list.now }
    ensures { result ≡ same_path list.now i h }
{
    let from = froms[i];
    let end = tos[i];
    let other = froms[h];
    let over = tos[h];
    text_bytes::same(&list[other..over], &list[from..end])
}

// How many lines ask for the path of a line; 0 where an earlier line does.
pub(crate) fn first_reads(
    list: &[u8],
    froms: &[usize],
    tos: &[usize],
    count: usize,
    i: usize,
) -> usize
    requires path_rows { PathRows list.now froms.now tos.now }
    requires count_value { count ≡ line_count list.now }
    requires i_lt_count { i < count }
    ensures { result ≡ first_reads list.now i }
{
    let mut reads: usize = 0;
    for h in 0..count {
        if same_path(list, froms, tos, i, h) {
            if h < i {
                return 0;
            }
            reads += 1;
        }
    }
    reads
}
