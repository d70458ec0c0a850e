// The walk through an index, one element at a time, with the range of paths that begin with the names around it.
ghost use Rattle.std.specs.Prelude.{◌≡◌, ◌<◌};
ghost use Rattle.tape_markup.specs.Places.{PlaceIn};
ghost use Rattle.text_order.specs.Order.{path_at};
ghost use Rattle.tape_files.specs.Elements.{taken_for, inside, level_at};
ghost use Rattle.tape_picks.specs.Private.{walk_start, is_contents, named_range, below_range, moved_to, left_to, entered_at, passed_by, FileRead, ListHeld, SomeWalk, MeetsAt};

use crate::Tape;
use crate::files::{no_file, read_file};
use tape_files::{Use, leave, next_child, role_at};
use tape_markup::Place;
use tape_names::own_name;
use tape_spans::Span;
use text_order::{Range, narrow};

// Where a reader of the index stands: how many elements it is in that are looked at, and for each of them, the outermost first, the paths that begin with the names
// around it.
// Stays: rows of an array, since the record is copied, and the house works without a heap.
#[derive(Clone, Copy)]
pub(crate) struct Walk {
    pub depth: usize,
    pub place: Place,
    pub ranges: [Range; 33],
}

// One step further, unless all of the index is behind it: the paths that begin with the path of the file met, and its range, none where one of its extents is bad;
// no paths where no file is met.
#[derive(Clone, Copy)]
pub(crate) struct Met {
    pub walk: Option<Walk>,
    pub range: Range,
    pub file: Option<Span>,
}

// Before the first step every path may begin so.
pub(crate) fn walk_start(count: usize) -> Walk
    ensures { result ≡ walk_start count }
{
    let first = Range {
        low: 0,
        high: count,
        length: 0,
    };
    let ranges = [first; 33];
    Walk {
        depth: 0,
        place: Place::Text(0),
        ranges,
    }
}

// Whether so deep is in the contents of a directory.
fn in_contents(depth: usize) -> bool
    ensures { result ≡ is_contents (level_at depth) }
{
    if depth < 2 {
        return false;
    }
    (depth - 2) % 2 != 0
}

// The range with the name of the element around a place. A range without paths needs no name.
fn named_range(
    text: &[u8],
    place: Place,
    list: &[u8],
    starts: &[usize],
    ends: &[usize],
    order: &[usize],
    range: Range,
) -> Range
    ensures { result ≡ named_range list.now starts.now ends.now order.now range (inside text.now (taken_for text.now place)) }
{
    if range.high <= range.low {
        return range;
    }
    own_name(text, place, list, starts, ends, order, range)
}

// The range below an element that is looked at: a directory in another's contents adds its name and a `/`.
fn below(
    text: &[u8],
    place: Place,
    list: &[u8],
    starts: &[usize],
    ends: &[usize],
    order: &[usize],
    range: Range,
    depth: usize,
) -> Range
    ensures { result ≡ below_range list.now starts.now ends.now order.now range depth (inside text.now (taken_for text.now place)) }
{
    if !in_contents(depth) {
        return range;
    }
    let named = named_range(text, place, list, starts, ends, order, range);
    narrow(list, starts, ends, order, named, b'/')
}

fn moved(walk: Walk, place: Place) -> Walk
    ensures { result ≡ moved_to walk place }
{
    Walk { place, ..walk }
}

// Past the end of the element around: outwards, or over.
#[tactic(auto, unfolding(crate::specs::Private::left_to))]
fn left(walk: Walk, place: Place) -> Option<Walk>
    ensures { result ≡ left_to walk place }
{
    let depth = walk.depth.checked_sub(1)?;
    Some(Walk {
        depth,
        place,
        ..walk
    })
}

// Into an element, with the range of what is below it.
fn entered(walk: Walk, place: Place, range: Range) -> Walk
    requires { walk.depth < 32 }
    ensures { result ≡ entered_at walk place range }
{
    let depth = walk.depth + 1;
    let mut ranges = walk.ranges;
    ranges[depth] = range;
    Walk {
        depth,
        place,
        ranges,
    }
}

// A step on which no file is met.
fn passed(walk: Option<Walk>) -> Met
    ensures { result ≡ passed_by walk }
{
    let range = Range {
        low: 0,
        high: 0,
        length: 0,
    };
    Met {
        walk,
        range,
        file: no_file(),
    }
}

// A file: its extents, and the range of its path.
fn met_file(
    text: &[u8],
    list: &[u8],
    starts: &[usize],
    ends: &[usize],
    order: &[usize],
    tape: Tape,
    walk: Walk,
    range: Range,
    inner: Place,
) -> Met
    requires { PlaceIn text.now inner }
    ensures { FileRead text.now tape (named_range list.now starts.now ends.now order.now range (inside text.now inner)) walk inner result }
{
    let range = named_range(text, inner, list, starts, ends, order, range);
    let read = read_file(text, inner, tape);
    Met {
        walk: Some(moved(walk, read.next)),
        range,
        file: read.file,
    }
}

// The next element.
pub(crate) fn meet(
    text: &[u8],
    list: &[u8],
    starts: &[usize],
    ends: &[usize],
    order: &[usize],
    count: usize,
    tape: Tape,
    walk: Walk,
) -> Met
    requires list_held { ListHeld list.now starts.now ends.now order.now count }
    requires some_walk { SomeWalk text.now (path_at list.now starts.now ends.now order.now) count walk }
    ensures { MeetsAt text.now (path_at list.now starts.now ends.now order.now) count tape walk result }
{
    let depth = walk.depth;
    let range = walk.ranges[depth];
    match next_child(text, walk.place) {
        Ok(child) => match role_at(text, child.from, child.to, depth) {
            Use::Enter => {
                let inner = below(text, child.next, list, starts, ends, order, range, depth);
                passed(Some(entered(walk, child.next, inner)))
            }
            Use::Read => met_file(
                text, list, starts, ends, order, tape, walk, range, child.next,
            ),
            Use::Skip => passed(Some(moved(walk, leave(text, child.next)))),
        },
        Err(next) => passed(left(walk, next)),
    }
}
