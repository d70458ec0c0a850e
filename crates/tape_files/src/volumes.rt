// Volumes: what label and index say of the volume that they are of, compared as it is written.
ghost use Rattle.std.specs.Prelude.{◌≡◌};
ghost use Rattle.text_bytes.specs.Text.{is_text};
ghost use Rattle.tape_markup.specs.Tree.{tree_of};
ghost use Rattle.tape_markup.specs.Places.{PlaceIn};
ghost use Rattle.tape_files.specs.Index.{chars_of};
ghost use Rattle.tape_files.specs.Elements.{inside};
ghost use Rattle.tape_files.specs.Volumes.{other_volume};
ghost use Rattle.tape_files.specs.Private.{VolumeMet};

use crate::elements::named_from;
use crate::values::byte_from;
use tape_markup::Place;

// The first `volumeuuid` directly in an outermost element of a name.
fn volume_in(text: &[u8], root: &[u8]) -> Result<Place, Place>
    ensures { VolumeMet root.now text.now result }
{
    let mut here = Place::Text(0);
    loop {
        let inner = named_from(text, here, root)?;
        match named_from(text, inner, b"volumeuuid") {
            Ok(volume) => return Ok(volume),
            Err(next) => here = next,
        }
    }
}

// Whether the same bytes stand directly in two elements, side by side.
fn same_chars(one: &[u8], place: Place, other: &[u8], start: Place) -> bool
    requires { PlaceIn one.now place × PlaceIn other.now start }
    ensures { result ≡ is_text (chars_of (inside one.now place)) (chars_of (inside other.now start)) }
{
    let mut here = place;
    let mut there = start;
    while let Ok(met) = byte_from(one, here) {
        let Ok(beside) = byte_from(other, there) else {
            return false;
        };
        if met.byte != beside.byte {
            return false;
        }
        here = met.next;
        there = beside.next;
    }
    byte_from(other, there).is_err()
}

// Whether a label and an index say different volumes.
pub fn other_volume(label: &[u8], index: &[u8]) -> bool
    ensures { result ≡ other_volume (tree_of label.now) (tree_of index.now) }
{
    let Ok(one) = volume_in(label, b"ltfslabel") else {
        return false;
    };
    let Ok(other) = volume_in(index, b"ltfsindex") else {
        return false;
    };
    !same_chars(label, one, index, other)
}
