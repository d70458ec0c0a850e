// Tokens: what a reader from left to right meets in a text, one step at a time.
ghost use Rattle.std.specs.Prelude.{◌≡◌, ◌&&◌, ◌+◌, ◌≤◌, ◌<◌, length, drop, ltb};
ghost use Rattle.tape_markup.specs.Markup.{start_tag, end_tag, plain_to, plain_end, end_behind, name_size, piece_of};
ghost use Rattle.tape_markup.specs.Steps.{piece_step, step_at, behind_text};
ghost use Rattle.tape_markup.specs.Private.{OpeningMet, is_alone, past_to};

use crate::scan::{behind_blanks, behind_chars, behind_name, declaration_end, end_behind, tag_end};
use crate::{Place, Step};

// What a `<` can begin.
// Stays: a closure or a function that is handed out in its place is refused by `rt ci`, and the tests and the calls in one function are no plainer.
#[derive(Clone, Copy)]
enum Opening {
    Comment,
    Plain,
    Instruction,
    Declaration,
    EndTag,
    StartTag,
}

// Something that is passed over, and ends there.
fn past(end: Option<usize>) -> Step
    ensures { result ≡ past_to end }
{
    match end {
        Some(next) => Step::Past(Place::Text(next)),
        None => Step::Broken,
    }
}

// A CDATA section. `at` is the position of its `<`, here and below.
fn plain_bytes(text: &[u8], at: usize) -> Step
    requires { at + 9 ≤ length text.now }
    ensures { result ≡ piece_step at (plain_to (end_behind plain_end (drop (at + 9) text.now))) }
{
    let from = at + 9;
    match end_behind(text, from, b"]]>") {
        Some(next) => Step::Past(Place::Plain {
            at: from,
            end: next,
        }),
        None => Step::Broken,
    }
}

// Whether a tag whose name ends at one position and itself at another has a `/` right before its `>`.
fn is_alone(text: &[u8], to: usize, end: usize) -> bool
    requires { (to ≤ end) × (end ≤ length text.now) }
    ensures { result ≡ is_alone text.now to end }
{
    2 <= end - to && text[end - 2] == b'/'
}

fn start_tag(text: &[u8], at: usize) -> Step
    requires { at < length text.now }
    ensures { result ≡ piece_step at (start_tag (drop (at + 1) text.now) (name_size (drop (at + 1) text.now))) }
{
    let from = at + 1;
    let to = behind_name(text, from);
    if from == to {
        return Step::Broken;
    }
    let Some(end) = tag_end(text, to) else {
        return Step::Broken;
    };
    if is_alone(text, to, end) {
        return Step::Start {
            from,
            to,
            next: Place::Shut { from, to, at: end },
        };
    }
    Step::Start {
        from,
        to,
        next: Place::Text(end),
    }
}

fn end_tag(text: &[u8], at: usize) -> Step
    requires { at + 2 ≤ length text.now }
    ensures { result ≡ piece_step at (end_tag (drop (at + 2) text.now) (name_size (drop (at + 2) text.now))) }
{
    let from = at + 2;
    let to = behind_name(text, from);
    if from == to {
        return Step::Broken;
    }
    let end = behind_blanks(text, to);
    if end == text.len() || text[end] != b'>' {
        return Step::Broken;
    }
    Step::Finish {
        from,
        to,
        next: Place::Text(end + 1),
    }
}

// Which kind of markup a text begins, behind its `<`.
fn opening_of(text: &[u8]) -> Opening
    ensures { OpeningMet text.now result }
{
    if text_bytes::starts(text, b"!--") {
        return Opening::Comment;
    }
    if text_bytes::starts(text, b"![CDATA[") {
        return Opening::Plain;
    }
    if text_bytes::starts(text, b"?") {
        return Opening::Instruction;
    }
    if text_bytes::starts(text, b"!") {
        return Opening::Declaration;
    }
    if text_bytes::starts(text, b"/") {
        return Opening::EndTag;
    }
    Opening::StartTag
}

// What a `<` begins.
fn markup(text: &[u8], at: usize) -> Step
    requires { at < length text.now }
    ensures { result ≡ piece_step at (piece_of (drop (at + 1) text.now)) }
{
    let from = at + 1;
    let opening = opening_of(&text[from..]);
    match opening {
        Opening::Comment => past(end_behind(text, at + 4, b"-->")),
        Opening::Plain => plain_bytes(text, at),
        Opening::Instruction => past(end_behind(text, at + 2, b"?>")),
        Opening::Declaration => past(declaration_end(text, at + 2)),
        Opening::EndTag => end_tag(text, at),
        Opening::StartTag => start_tag(text, at),
    }
}

fn text_step(text: &[u8], at: usize) -> Step
    ensures { result ≡ step_at text.now (Place.Text at) }
{
    if text.len() <= at {
        return Step::End;
    }
    let byte = text[at];
    if byte == b'<' {
        return markup(text, at);
    }
    Step::Byte {
        byte,
        next: Place::Text(at + 1),
    }
}

// Whether a position of a text lies before the `]]>` that ends at another.
fn is_plain(text: &[u8], at: usize, end: usize) -> bool
    ensures { result ≡ (ltb (at + 3) end && ltb at (length text.now)) }
{
    3 <= end && at < end - 3 && at < text.len()
}

fn plain_step(text: &[u8], at: usize, end: usize) -> Step
    ensures { result ≡ step_at text.now (Place.Plain at end) }
{
    if !is_plain(text, at, end) {
        return Step::Past(Place::Text(end));
    }
    Step::Byte {
        byte: text[at],
        next: Place::Plain { at: at + 1, end },
    }
}

// What is met first from a place on.
pub fn step_from(text: &[u8], place: Place) -> Step
    ensures { result ≡ step_at text.now place }
{
    match place {
        Place::Text(at) => text_step(text, at),
        Place::Plain { at, end } => plain_step(text, at, end),
        Place::Shut { from, to, at } => Step::Finish {
            from,
            to,
            next: Place::Text(at),
        },
    }
}

// Behind the bytes of text at a place.
pub fn behind_text(text: &[u8], place: Place) -> Place
    ensures { result ≡ behind_text text.now place }
{
    match place {
        Place::Text(at) if at < text.len() => Place::Text(behind_chars(text, at)),
        Place::Text(_) => place,
        Place::Plain { .. } => place,
        Place::Shut { .. } => place,
    }
}
