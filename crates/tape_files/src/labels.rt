// The label: block size and data partition.
ghost use Rattle.std.specs.Prelude.{◌≡◌, [], ◌∷◌};
ghost use Rattle.tape_markup.specs.Tree.{tree_of};
ghost use Rattle.tape_markup.specs.Places.{PlaceIn};
ghost use Rattle.tape_files.specs.Index.{partitions_name, data_name};
ghost use Rattle.tape_files.specs.Elements.{Left, inside};
ghost use Rattle.tape_files.specs.Values.{letter_field, field_at, label_of};

use crate::elements::named_from;
use crate::values::{first_field, read_field};
use crate::{Field, Label};
use tape_markup::Place;

#[derive(Clone, Copy)]
struct PartitionRead {
    partition: Field,
    next: Place,
}

// The data partitions in the `partitions` elements of a `ltfslabel` element.
fn read_partitions(text: &[u8], place: Place) -> PartitionRead
    requires { PlaceIn text.now place }
    ensures { (result.partition ≡ field_at letter_field (partitions_name ∷ data_name ∷ []) (inside text.now place)) × Left text.now place result.next }
{
    let mut partition = Ok(None);
    let mut here = place;
    // Stays: `while let` would drop the place behind the last of them, which is part of the answer.
    loop {
        match named_from(text, here, b"partitions") {
            Ok(inner) => {
                let read = read_field(text, inner, b"data");
                partition = first_field(partition, read.letter);
                here = read.next;
            }
            Err(next) => return PartitionRead { partition, next },
        }
    }
}

pub fn read_label(text: &[u8]) -> Label
    ensures { result ≡ label_of (tree_of text.now) }
{
    let mut size = Ok(None);
    let mut partition = Ok(None);
    let mut here = Place::Text(0);
    while let Ok(inner) = named_from(text, here, b"ltfslabel") {
        let sizes = read_field(text, inner, b"blocksize");
        let partitions = read_partitions(text, inner);
        size = first_field(size, sizes.number);
        partition = first_field(partition, partitions.partition);
        here = partitions.next;
    }
    Label { size, partition }
}
