// Files: the range of one from its extents, and whether all of them are good.
ghost use Rattle.std.specs.Prelude.{◌≡◌};
ghost use Rattle.tape_markup.specs.Places.{PlaceIn};
ghost use Rattle.tape_files.specs.Index.{insides, extent_name, extents_of};
ghost use Rattle.tape_files.specs.Elements.{inside, Left};
ghost use Rattle.tape_picks.specs.Private.{ranged_with, ranged_from, no_file};

use crate::Tape;
use tape_files::{ExtentSaid, extent_is_good, next_named, read_extent, value_in};
use tape_markup::Place;
use tape_spans::{Extent, Span};

// The range of a file, none where one of its extents is bad, and where the reader stands behind it.
#[derive(Clone, Copy)]
pub(crate) struct RangedRead {
    pub file: Option<Span>,
    pub next: Place,
}

// A file with one extent more.
#[tactic(auto, unfolding(crate::specs::Private::ranged_with))]
fn add_extent(file: Option<Span>, extent: ExtentSaid, tape: Tape) -> Option<Span>
    ensures { result ≡ ranged_with tape file extent }
{
    let span = file?;
    if !extent_is_good(extent) {
        return None;
    }
    let said = Extent {
        partition: value_in(extent.partition),
        block: value_in(extent.block),
        offset: value_in(extent.offset),
        count: value_in(extent.count),
    };
    let longer = tape_spans::with_extent(span, said, tape.partition, tape.size, tape.unit);
    Some(longer)
}

// The extents in an `extentinfo` element.
fn read_extents(text: &[u8], place: Place, file: Option<Span>, tape: Tape) -> RangedRead
    requires { PlaceIn text.now place }
    ensures { (result.file ≡ ranged_from tape file (insides extent_name (inside text.now place))) × Left text.now place result.next }
{
    let mut known = file;
    let mut here = place;
    // Stays: `while let` would drop the place behind the last of them, which is part of the answer.
    loop {
        match next_named(text, here, b"extent") {
            Ok(inner) => {
                let read = read_extent(text, inner);
                known = add_extent(known, read.extent, tape);
                here = read.next;
            }
            Err(next) => return RangedRead { file: known, next },
        }
    }
}

// All extents of a file, over all its `extentinfo`.
pub(crate) fn read_file(text: &[u8], place: Place, tape: Tape) -> RangedRead
    requires { PlaceIn text.now place }
    ensures { (result.file ≡ ranged_from tape no_file (extents_of (inside text.now place))) × Left text.now place result.next }
{
    let mut file = no_file();
    let mut here = place;
    // Stays: `while let` would drop the place behind the last of them, which is part of the answer.
    loop {
        match next_named(text, here, b"extentinfo") {
            Ok(inner) => {
                let read = read_extents(text, inner, file, tape);
                file = read.file;
                here = read.next;
            }
            Err(next) => return RangedRead { file, next },
        }
    }
}

// No extent yet.
pub(crate) fn no_file() -> Option<Span>
    ensures { result ≡ no_file }
{
    let span = Span {
        some: false,
        elsewhere: false,
        start: 0,
        end: 0,
    };
    Some(span)
}
