// The index: what an extent says, and what an element is for.
ghost use Rattle.std.specs.Prelude.{◌≡◌, not, suc};
ghost use Rattle.tape_markup.specs.Tree.{tree_of};
ghost use Rattle.tape_markup.specs.Places.{part, PlaceIn};
ghost use Rattle.tape_files.specs.Index.{is_none, insides, index_name, role_of, in_contents, in_directory};
ghost use Rattle.tape_files.specs.Elements.{Left, inside, level_at, RoleFound};
ghost use Rattle.tape_files.specs.Values.{extent_of, extent_is_good};
ghost use Rattle.tape_files.specs.Private.{enter_if, joined_if, said_with};

use crate::elements::{child_from, is_named, named_from};
use crate::values::{first_field, is_value, read_value};
use crate::{ExtentRead, ExtentSaid, Field, Use};
use tape_markup::Place;

// A field with what one element more says, where that has the field's name.
fn joined_if(same: bool, field: Field, later: Field) -> Field
    ensures { result ≡ joined_if same field later }
{
    if same {
        first_field(field, later)
    } else {
        field
    }
}

// An extent with what one element more says, as a letter and as a number.
fn said_with(
    said: ExtentSaid,
    text: &[u8],
    from: usize,
    to: usize,
    letter: Field,
    number: Field,
) -> ExtentSaid
    ensures { result ≡ said_with said (part from to text.now) letter number }
{
    let ExtentSaid {
        partition,
        block,
        offset,
        count,
    } = said;
    ExtentSaid {
        partition: joined_if(is_named(text, from, to, b"partition"), partition, letter),
        block: joined_if(is_named(text, from, to, b"startblock"), block, number),
        offset: joined_if(is_named(text, from, to, b"byteoffset"), offset, number),
        count: joined_if(is_named(text, from, to, b"bytecount"), count, number),
    }
}

// The extent that an `extent` element says, by its elements one by one.
pub(crate) fn extent_from(text: &[u8], place: Place) -> ExtentRead
    requires { PlaceIn text.now place }
    ensures { (result.extent ≡ extent_of (inside text.now place)) × Left text.now place result.next }
{
    let mut extent = ExtentSaid {
        partition: Ok(None),
        block: Ok(None),
        offset: Ok(None),
        count: Ok(None),
    };
    let mut here = place;
    // Stays: `while let` would drop the place behind the last of them, which is part of the answer.
    loop {
        match child_from(text, here) {
            Ok(child) => {
                let read = read_value(text, child.next);
                extent = said_with(extent, text, child.from, child.to, read.letter, read.number);
                here = read.next;
            }
            Err(next) => return ExtentRead { extent, next },
        }
    }
}

// Whether all that an extent needs has its form.
#[tactic(auto, unfolding(crate::specs::Values::extent_is_good))]
pub fn extent_is_good(extent: ExtentSaid) -> bool
    ensures { result ≡ extent_is_good extent }
{
    let ExtentSaid {
        partition,
        block,
        offset,
        count,
    } = extent;
    is_value(partition) && is_value(block) && is_value(offset) && is_value(count)
}

fn enter_if(named: bool) -> Use
    ensures { result ≡ enter_if named }
{
    if named { Use::Enter } else { Use::Skip }
}

// What a name means in the contents of a directory.
fn use_in_contents(text: &[u8], from: usize, to: usize) -> Use
    ensures { RoleFound (role_of in_contents (part from to text.now)) in_directory result }
{
    if is_named(text, from, to, b"directory") {
        return Use::Enter;
    }
    if is_named(text, from, to, b"file") {
        return Use::Read;
    }
    Use::Skip
}

// What a name means so deep: 0 is outside of all, 1 in the index, then directories at even depths and their contents at odd ones.
pub fn role_at(text: &[u8], from: usize, to: usize, depth: usize) -> Use
    ensures { RoleFound (role_of (level_at depth) (part from to text.now)) (level_at (suc depth)) result }
{
    if depth == 0 {
        return enter_if(is_named(text, from, to, b"ltfsindex"));
    }
    if depth == 1 {
        return enter_if(is_named(text, from, to, b"directory"));
    }
    if depth % 2 == 0 {
        return enter_if(is_named(text, from, to, b"contents"));
    }
    use_in_contents(text, from, to)
}

// Whether a text has an outermost `ltfsindex`.
pub fn has_index(text: &[u8]) -> bool
    ensures { result ≡ not (is_none (insides index_name (tree_of text.now))) }
{
    named_from(text, Place::Text(0), b"ltfsindex").is_ok()
}
