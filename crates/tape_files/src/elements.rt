// Elements: the next one inside the element that a reader stands in, and past the end of that element.
// Where a text ends too early, as no balanced one does, every element still open ends there.
ghost use Rattle.std.specs.Prelude.{◌≡◌};
ghost use Rattle.text_bytes.specs.Text.{is_text};
ghost use Rattle.tape_markup.specs.Places.{part, PlaceIn};
ghost use Rattle.tape_files.specs.Elements.{Left, ChildMet, NamedMet};

use crate::Child;
use tape_markup::{Place, Step, behind_text, step_from};

// Whether a part of a text is a name.
pub fn is_named(text: &[u8], from: usize, to: usize, name: &[u8]) -> bool
    ensures { result ≡ is_text name.now (part from to text.now) }
{
    let end = to.min(text.len());
    let start = from.min(end);
    text_bytes::same(&text[start..end], name)
}

// The next element inside the one that the reader stands in, tag by tag.
fn tag_from(text: &[u8], place: Place) -> Result<Child, Place>
    requires { PlaceIn text.now place }
    ensures { ChildMet text.now place result }
{
    let mut here = place;
    loop {
        let next = match step_from(text, here) {
            Step::End => return Err(here),
            Step::Broken => return Err(here),
            Step::Byte { next, .. } => next,
            Step::Start { from, to, next } => return Ok(Child { from, to, next }),
            Step::Finish { next, .. } => return Err(next),
            Step::Past(next) => next,
        };
        here = behind_text(text, next);
    }
}

// The same. Most elements stand behind blanks.
pub(crate) fn child_from(text: &[u8], place: Place) -> Result<Child, Place>
    requires { PlaceIn text.now place }
    ensures { ChildMet text.now place result }
{
    tag_from(text, behind_text(text, place))
}

// Past the end of the element that the reader stands in, tag by tag: how many elements inside of it the reader stands is counted.
fn end_from(text: &[u8], place: Place) -> Place
    requires { PlaceIn text.now place }
    ensures { Left text.now place result }
{
    let mut here = place;
    let mut depth: usize = 0;
    // Stays: the depth goes up and down with the tags, so that no range and no chain counts it.
    loop {
        let next = match step_from(text, here) {
            Step::End => return here,
            Step::Broken => return here,
            Step::Byte { next, .. } => next,
            Step::Start { next, .. } => {
                depth += 1;
                next
            }
            Step::Finish { next, .. } => {
                if depth == 0 {
                    return next;
                }
                depth -= 1;
                next
            }
            Step::Past(next) => next,
        };
        here = behind_text(text, next);
    }
}

// The same. Most elements that are left hold text and nothing else.
pub(crate) fn past_end(text: &[u8], place: Place) -> Place
    requires { PlaceIn text.now place }
    ensures { Left text.now place result }
{
    end_from(text, behind_text(text, place))
}

// The next element of a name. Those of other names are passed over.
pub(crate) fn named_from(text: &[u8], place: Place, name: &[u8]) -> Result<Place, Place>
    requires { PlaceIn text.now place }
    ensures { NamedMet name.now text.now place result }
{
    let mut here = place;
    loop {
        let child = child_from(text, here)?;
        if is_named(text, child.from, child.to, name) {
            return Ok(child.next);
        }
        here = past_end(text, child.next);
    }
}
