// Whether a text is balanced, and at most so many elements deep.
ghost use Rattle.std.specs.Prelude.{◌≡◌, ◌≤◌, length};
ghost use Rattle.text_bytes.specs.Text.{is_text};
ghost use Rattle.tape_markup.specs.Tree.{is_balanced};
ghost use Rattle.tape_markup.specs.Places.{part};

use crate::tokens::{behind_text, step_from};
use crate::{MOST_OPEN, Place, Step};

// Whether two parts of a text are the same.
fn same_names(text: &[u8], from: usize, to: usize, start: usize, end: usize) -> bool
    requires from_le_to { (from ≤ to) × (to ≤ length text.now) }
    requires start_le_end { (start ≤ end) × (end ≤ length text.now) }
    ensures { result ≡ is_text (part from to text.now) (part start end text.now) }
{
    text_bytes::same(&text[start..end], &text[from..to])
}

// The names of the open elements, outermost first, are the parts of the text from one row's entries to the other's.
pub fn is_balanced(text: &[u8]) -> bool
    ensures { result ≡ is_balanced text.now }
{
    let mut froms = [0usize; 32];
    let mut tos = [0usize; 32];
    let mut open: usize = 0;
    let mut place = Place::Text(0);
    // Stays: the number of open elements goes up and down with the tags, so that no range and no chain counts it.
    loop {
        let step = step_from(text, place);
        match step {
            Step::End => return open == 0,
            Step::Broken => return false,
            Step::Byte { byte: _, next } => place = behind_text(text, next),
            Step::Start { from, to, next } => {
                if open == MOST_OPEN {
                    return false;
                }
                froms[open] = from;
                tos[open] = to;
                open += 1;
                place = behind_text(text, next);
            }
            Step::Finish { from, to, next } => {
                if open == 0 {
                    return false;
                }
                open -= 1;
                if !same_names(text, froms[open], tos[open], from, to) {
                    return false;
                }
                place = behind_text(text, next);
            }
            Step::Past(next) => place = behind_text(text, next),
        }
    }
}
