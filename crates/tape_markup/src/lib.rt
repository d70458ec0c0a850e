// tape_markup: the tokens of a text one step at a time, and whether they balance.
// For the reader of LTFS labels and indexes, which sees only these contracts. What the words mean stands in specs/; each public function
// answers every input, and its contract is an equation with a definition there.
#![tactic(auto)]

mod balance;
mod scan;
mod tokens;

pub use balance::is_balanced;
pub use tokens::{behind_text, step_from};

// The elements that may be open at once, the outermost among them.
pub const MOST_OPEN: usize = 32;

// Where a reader stands: outside of markup; in the bytes of a CDATA section, which ends, with its `]]>`, at a position;
// or behind an element by itself, whose end tag with its name is still to be met.
#[derive(Clone, Copy)]
pub enum Place {
    Text(usize),
    Plain { at: usize, end: usize },
    Shut { from: usize, to: usize, at: usize },
}

// What one step meets. A name is the part of the text between two positions. `Past` is markup that says nothing.
// Stays: `End` and `Broken` are two of six things to meet, which every reader takes apart in one match; an Option in a Result would take three to say them.
#[derive(Clone, Copy)]
pub enum Step {
    End,
    Broken,
    Byte { byte: u8, next: Place },
    Start { from: usize, to: usize, next: Place },
    Finish { from: usize, to: usize, next: Place },
    Past(Place),
}
