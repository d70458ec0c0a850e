// tape_names: which paths go on with the name of a file or a directory in an LTFS index, read byte by byte.
// For the reader that looks for files by their paths, which sees only this contract. What the words mean stands in text_order and tape_files; the function
// answers every input, and no order of the paths is asked for.
#![tactic(auto)]

ghost use Rattle.std.specs.Prelude.{◌≡◌};
ghost use Rattle.text_references.specs.References.{utf8, decoded};
ghost use Rattle.tape_markup.specs.Places.{PlaceIn};
ghost use Rattle.tape_files.specs.Index.{chars_of};
ghost use Rattle.tape_files.specs.Elements.{taken_for, inside};
ghost use Rattle.tape_files.specs.NamedFiles.{own_name};
ghost use Rattle.text_order.specs.Order.{narrowed_all};
ghost use Rattle.tape_names.specs.Private.{said_from, with_byte};

use tape_files::{next_byte, next_named};
use tape_markup::Place;
use text_order::{Range, narrow};
use text_references::{Reading, character_in, encode, read_next};

// A `&` behind which neither a `;` nor another `&` came: the range before it, and what was read behind it.
#[derive(Clone, Copy)]
struct Begun {
    before: Range,
    reading: Reading,
}

// What the bytes of a name come to so far: the range of all of them, with everything behind a `&` that begins a reference standing for itself.
#[derive(Clone, Copy)]
struct Naming {
    whole: Range,
    begun: Option<Begun>,
}

// Nothing is read behind a `&` yet.
const UNREAD: Reading = Reading::Letters {
    count: 0,
    first: 0,
    second: 0,
    third: 0,
    fourth: 0,
};

// The range with the bytes of a character.
fn with_character(
    list: &[u8],
    starts: &[usize],
    ends: &[usize],
    order: &[usize],
    range: Range,
    number: u64,
) -> Range
    ensures { result ≡ narrowed_all list.now starts.now ends.now order.now range (utf8 number) }
{
    let bytes = encode(number);
    let all = [bytes.first, bytes.second, bytes.third, bytes.fourth];
    let mut longer = range;
    for byte in &all[..bytes.count] {
        longer = narrow(list, starts, ends, order, longer, *byte);
    }
    longer
}

// A `;` behind a reading: the range before its `&` with the character, or the range in which all of it stands for itself.
#[tactic(auto, unfolding(crate::specs::Private::said_from))]
fn said_by(
    list: &[u8],
    starts: &[usize],
    ends: &[usize],
    order: &[usize],
    before: Range,
    longer: Range,
    reading: Reading,
) -> Range
    ensures { result ≡ said_from list.now starts.now ends.now order.now before longer reading }
{
    let number = character_in(reading);
    if number == 0 {
        return longer;
    }
    with_character(list, starts, ends, order, before, number)
}

// One more byte of a name.
#[tactic(auto, unfolding(crate::specs::Private::with_byte))]
fn with_byte(
    list: &[u8],
    starts: &[usize],
    ends: &[usize],
    order: &[usize],
    naming: Naming,
    byte: u8,
) -> Naming
    ensures { result ≡ with_byte list.now starts.now ends.now order.now naming byte }
{
    let longer = narrow(list, starts, ends, order, naming.whole, byte);
    if byte == b'&' {
        return Naming {
            whole: longer,
            begun: Some(Begun {
                before: naming.whole,
                reading: UNREAD,
            }),
        };
    }
    let Some(begun) = naming.begun else {
        return Naming {
            whole: longer,
            begun: None,
        };
    };
    if byte == b';' {
        return Naming {
            whole: said_by(
                list,
                starts,
                ends,
                order,
                begun.before,
                longer,
                begun.reading,
            ),
            begun: None,
        };
    }
    Naming {
        whole: longer,
        begun: Some(Begun {
            before: begun.before,
            reading: read_next(begun.reading, byte),
        }),
    }
}

// The range with what stands directly in the element that the reader stands in, decoded.
fn read_name(
    text: &[u8],
    place: Place,
    list: &[u8],
    starts: &[usize],
    ends: &[usize],
    order: &[usize],
    range: Range,
) -> Range
    requires { PlaceIn text.now place }
    ensures { result ≡ narrowed_all list.now starts.now ends.now order.now range (decoded (chars_of (inside text.now place))) }
{
    let mut naming = Naming {
        whole: range,
        begun: None,
    };
    let mut here = place;
    while let Ok(met) = next_byte(text, here) {
        naming = with_byte(list, starts, ends, order, naming, met.byte);
        here = met.next;
    }
    naming.whole
}

// The range with the name of the element that the reader stands in: that of its first `name`, or no bytes without one.
pub fn own_name(
    text: &[u8],
    place: Place,
    list: &[u8],
    starts: &[usize],
    ends: &[usize],
    order: &[usize],
    range: Range,
) -> Range
    ensures { result ≡ narrowed_all list.now starts.now ends.now order.now range (own_name (inside text.now (taken_for text.now place))) }
{
    match next_named(text, place, b"name") {
        Ok(next) => read_name(text, next, list, starts, ends, order, range),
        Err(_) => range,
    }
}
