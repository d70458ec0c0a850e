// Values: the bytes that stand directly in an element, as a number or as a partition's letter. Markup between them is passed over.
ghost use Rattle.std.specs.Prelude.{◌≡◌, List, [], ◌∷◌, ℕ};
ghost use Rattle.tape_files.specs.Index.{chars_of};
ghost use Rattle.tape_markup.specs.Places.{PlaceIn};
ghost use Rattle.tape_files.specs.Elements.{Left, inside, ByteMet};
ghost use Rattle.tape_files.specs.Values.{number_field, letter_field, first_field, field_at, is_value, value_in};
ghost use Rattle.tape_files.specs.Private.{with_byte, chars_from, no_chars, grown, number_with};

use crate::elements::{named_from, past_end};
use crate::{BadValue, Field, NextByte};
use tape_markup::{Place, Step, step_from};

// What is known of the bytes met so far: which came first, whether there are more, and the number below 2 to the 64 without a leading zero
// that they are, if they are one.
// Stays: a letter is read from `first` and `more`, a number from `value`, and a byte may change all three, so that no Option or Result holds two of them.
#[derive(Clone, Copy)]
pub(crate) struct Chars {
    pub first: Option<u8>,
    pub more: bool,
    pub value: Option<u64>,
}

#[derive(Clone, Copy)]
struct CharsRead {
    chars: Chars,
    next: Place,
}

// A value in both forms: as a partition's letter and as a number.
#[derive(Clone, Copy)]
pub(crate) struct ValueRead {
    pub letter: Field,
    pub number: Field,
    pub next: Place,
}

// The second of two fields counts only where the first is missing, but is judged all the same.
pub(crate) fn first_field(field: Field, later: Field) -> Field
    ensures { result ≡ first_field field later }
{
    Ok(field?.or(later?))
}

pub fn is_value(field: Field) -> bool
    ensures { result ≡ is_value field }
{
    matches!(field, Ok(Some(_)))
}

// The value of a field, 0 where it has none.
pub fn value_in(field: Field) -> u64
    ensures { result ≡ value_in field }
{
    match field {
        Ok(Some(value)) => value,
        Ok(None) | Err(_) => 0,
    }
}

// A number with one more digit, if it is one below 2 to the 64.
fn grow(value: u64, byte: u8) -> Option<u64>
    ensures { result ≡ grown value byte }
{
    if !text_bytes::is_between(b'0', b'9', byte) {
        return None;
    }
    value.checked_mul(10)?.checked_add(u64::from(byte - b'0'))
}

// The number that the bytes so far are with one more: nothing follows a leading zero.
fn number_with(chars: Chars, byte: u8) -> Option<u64>
    ensures { result ≡ number_with chars.first chars.value byte }
{
    match chars.first {
        None => grow(0, byte),
        Some(b'0') => None,
        Some(_) => grow(chars.value?, byte),
    }
}

#[tactic(auto, unfolding(crate::specs::Private::with_byte))]
fn with_byte(chars: Chars, byte: u8) -> Chars
    ensures { result ≡ with_byte chars byte }
{
    Chars {
        first: chars.first.or(Some(byte)),
        more: chars.first.is_some(),
        value: number_with(chars, byte),
    }
}

// The next byte directly in the element that the reader stands in. Elements in it are passed over.
pub(crate) fn byte_from(text: &[u8], place: Place) -> Result<NextByte, Place>
    requires { PlaceIn text.now place }
    ensures { ByteMet text.now place result }
{
    let mut here = place;
    loop {
        match step_from(text, here) {
            Step::End => return Err(here),
            Step::Broken => return Err(here),
            Step::Byte { byte, next } => return Ok(NextByte { byte, next }),
            Step::Start { next, .. } => here = past_end(text, next),
            Step::Finish { next, .. } => return Err(next),
            Step::Past(next) => here = next,
        }
    }
}

// The bytes directly in the element that the reader stands in, to its end.
fn read_chars(text: &[u8], place: Place) -> CharsRead
    requires { PlaceIn text.now place }
    ensures { (result.chars ≡ chars_from no_chars (chars_of (inside text.now place))) × Left text.now place result.next }
{
    let mut chars = Chars {
        first: None,
        more: false,
        value: None,
    };
    let mut here = place;
    // Stays: `while let` would drop the place behind the last of them, which is part of the answer.
    loop {
        match byte_from(text, here) {
            Ok(met) => {
                chars = with_byte(chars, met.byte);
                here = met.next;
            }
            Err(next) => return CharsRead { chars, next },
        }
    }
}

fn number_in(chars: Chars) -> Field
    ensures { (bytes : List ℕ) → chars ≡ chars_from no_chars bytes → result ≡ number_field bytes }
{
    match chars.value {
        Some(value) => Ok(Some(value)),
        None => Err(BadValue),
    }
}

fn letter_in(chars: Chars) -> Field
    ensures { (bytes : List ℕ) → chars ≡ chars_from no_chars bytes → result ≡ letter_field bytes }
{
    let Some(first) = chars.first else {
        return Err(BadValue);
    };
    if chars.more {
        return Err(BadValue);
    }
    if !text_bytes::is_between(b'a', b'z', first) {
        return Err(BadValue);
    }
    Ok(Some(u64::from(first)))
}

// The value of the element that the reader stands in.
pub(crate) fn read_value(text: &[u8], place: Place) -> ValueRead
    requires { PlaceIn text.now place }
    ensures { (result.letter ≡ letter_field (chars_of (inside text.now place))) × (result.number ≡ number_field (chars_of (inside text.now place))) × Left text.now place result.next }
{
    let read = read_chars(text, place);
    ValueRead {
        letter: letter_in(read.chars),
        number: number_in(read.chars),
        next: read.next,
    }
}

// What the elements of a name say, all together.
pub(crate) fn read_field(text: &[u8], place: Place, name: &[u8]) -> ValueRead
    requires { PlaceIn text.now place }
    ensures { (result.letter ≡ field_at letter_field (name.now ∷ []) (inside text.now place)) × (result.number ≡ field_at number_field (name.now ∷ []) (inside text.now place)) × Left text.now place result.next }
{
    let mut letter = Ok(None);
    let mut number = Ok(None);
    let mut here = place;
    // Stays: `while let` would drop the place behind the last of them, which is part of the answer.
    loop {
        match named_from(text, here, name) {
            Ok(inner) => {
                let read = read_value(text, inner);
                letter = first_field(letter, read.letter);
                number = first_field(number, read.number);
                here = read.next;
            }
            Err(next) => {
                return ValueRead {
                    letter,
                    number,
                    next,
                };
            }
        }
    }
}
