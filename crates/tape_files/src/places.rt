// From any place on: one that does not lie in the text is taken for its end, so that these ask nothing of their caller.
ghost use Rattle.std.specs.Prelude.{◌≡◌, ◌&&◌, ◌+◌, leb, ltb};
ghost use Rattle.tape_files.specs.Elements.{lies_in, taken_for, inside, Left, ChildMet, NamedMet, ByteMet};
ghost use Rattle.tape_files.specs.Values.{extent_of};

use crate::elements::{child_from, named_from, past_end};
use crate::index::extent_from;
use crate::values::byte_from;
use crate::{Child, ExtentRead, NextByte};
use tape_markup::Place;

// Whether a place in a CDATA section lies in a text of a size.
fn lies_plain(size: usize, at: usize, end: usize) -> bool
    ensures { result ≡ (leb (at + 3) end && leb end size) }
{
    3 <= end && at <= end - 3 && end <= size
}

// Whether a place behind an element by itself does.
fn lies_shut(size: usize, from: usize, to: usize, at: usize) -> bool
    ensures { result ≡ (leb from to && leb to size && ltb 0 at && leb at size) }
{
    from <= to && to <= size && 0 < at && at <= size
}

fn lies_in(text: &[u8], place: Place) -> bool
    ensures { result ≡ lies_in text.now place }
{
    let size = text.len();
    match place {
        Place::Text(at) => at <= size,
        Place::Plain { at, end } => lies_plain(size, at, end),
        Place::Shut { from, to, at } => lies_shut(size, from, to, at),
    }
}

#[tactic(auto, unfolding(crate::specs::Elements::taken_for))]
fn place_in(text: &[u8], place: Place) -> Place
    ensures { result ≡ taken_for text.now place }
{
    if lies_in(text, place) {
        place
    } else {
        Place::Text(text.len())
    }
}

// The next element inside the element that the reader stands in.
pub fn next_child(text: &[u8], place: Place) -> Result<Child, Place>
    ensures { ChildMet text.now (taken_for text.now place) result }
{
    child_from(text, place_in(text, place))
}

// Past the end of the element that the reader stands in.
pub fn leave(text: &[u8], place: Place) -> Place
    ensures { Left text.now (taken_for text.now place) result }
{
    past_end(text, place_in(text, place))
}

// The next element of a name. Those of other names are passed over.
pub fn next_named(text: &[u8], place: Place, name: &[u8]) -> Result<Place, Place>
    ensures { NamedMet name.now text.now (taken_for text.now place) result }
{
    named_from(text, place_in(text, place), name)
}

// The next byte directly in the element that the reader stands in. Elements in it are passed over.
pub fn next_byte(text: &[u8], place: Place) -> Result<NextByte, Place>
    ensures { ByteMet text.now (taken_for text.now place) result }
{
    byte_from(text, place_in(text, place))
}

// The extent that an `extent` element says.
pub fn read_extent(text: &[u8], place: Place) -> ExtentRead
    ensures { (result.extent ≡ extent_of (inside text.now (taken_for text.now place))) × Left text.now (taken_for text.now place) result.next }
{
    extent_from(text, place_in(text, place))
}
