// tape_files: through the elements of an LTFS label and of an index, from element to element and from value to value.
// For the makers of tape tables and of sheets by file names, which see only these contracts. What the words mean stands in specs/; each
// public function answers every input: a place that does not lie in a text is taken for its end.
#![tactic(auto)]

mod elements;
mod index;
mod labels;
mod places;
mod values;
mod volumes;

pub use elements::is_named;
pub use index::{extent_is_good, has_index, role_at};
pub use labels::read_label;
pub use places::{leave, next_byte, next_child, next_named, read_extent};
use tape_markup::Place;
pub use values::{is_value, value_in};
pub use volumes::other_volume;

// An element: its name is the part of the text between two positions, and its inside begins at a place. Where none is left in the element
// that a reader stands in, it is past the end of that one: an `Err` of that place, here and below.
#[derive(Clone, Copy)]
pub struct Child {
    pub from: usize,
    pub to: usize,
    pub next: Place,
}

// A byte directly in the element that the reader stands in, and where the reader stands behind it.
#[derive(Clone, Copy)]
pub struct NextByte {
    pub byte: u8,
    pub next: Place,
}

// A value that has not its form.
#[derive(Clone, Copy)]
pub struct BadValue;

// What the elements of one name say: the first counts, and one that is bad spoils all. `None` where there is no such element.
pub type Field = Result<Option<u64>, BadValue>;

// What a label says: the block size, and the letter of the data partition.
#[derive(Clone, Copy)]
pub struct Label {
    pub size: Field,
    pub partition: Field,
}

// What an `extent` element says.
#[derive(Clone, Copy)]
pub struct ExtentSaid {
    pub partition: Field,
    pub block: Field,
    pub offset: Field,
    pub count: Field,
}

#[derive(Clone, Copy)]
pub struct ExtentRead {
    pub extent: ExtentSaid,
    pub next: Place,
}

// What an element of an index is for: its elements are looked at, it is read as a file, or it is passed over.
#[derive(Clone, Copy)]
pub enum Use {
    Enter,
    Read,
    Skip,
}
