// text_bytes: a byte in a text, a text's beginning, numbers and tape names.
// For the readers and writers of sheets and the reader of LTFS indexes, which see only these contracts. What the words mean stands in
// specs/; each function answers every text.
#![tactic(auto)]

ghost use Rattle.std.specs.Prelude.{◌≡◌, not, ◌&&◌};
ghost use Rattle.text_bytes.specs.Text.{is_empty, starts_with, is_text, between, leading_zero, is_name_byte, is_name};
ghost use Rattle.text_bytes.specs.Found.{FoundIn, NumberFound};

// Where a byte stands first in a text.
pub fn find(text: &[u8], byte: u8) -> Option<usize>
    ensures { FoundIn byte text.now result }
{
    text.iter().position(|b| *b == byte)
}

// Whether a text begins with a key.
pub fn starts(text: &[u8], key: &[u8]) -> bool
    ensures { result ≡ starts_with key.now text.now }
{
    text.starts_with(key)
}

pub fn same(text: &[u8], wanted: &[u8]) -> bool
    ensures { result ≡ is_text wanted.now text.now }
{
    text == wanted
}

// Whether a number may begin so: not empty, and no leading zero.
fn well_begun(text: &[u8]) -> bool
    ensures { result ≡ (not (is_empty text.now) && not (leading_zero text.now)) }
{
    match text {
        [] => false,
        [_] => true,
        [first, ..] => *first != b'0',
    }
}

pub fn is_between(least: u8, most: u8, byte: u8) -> bool
    ensures { result ≡ between least most byte }
{
    least <= byte && byte <= most
}

// A whole text as a number.
pub fn read_number(text: &[u8]) -> Option<u64>
    ensures { NumberFound text.now result }
{
    if !well_begun(text) {
        return None;
    }
    let mut value: u64 = 0;
    for &byte in text {
        if !is_between(b'0', b'9', byte) {
            return None;
        }
        value = value.checked_mul(10)?.checked_add(u64::from(byte - b'0'))?;
    }
    Some(value)
}

fn is_name_byte(byte: u8) -> bool
    ensures { result ≡ is_name_byte byte }
{
    is_between(b'0', b'9', byte) || is_between(b'A', b'Z', byte)
}

// Whether a text is a tape name: 1 to 16 of A-Z and 0-9.
pub fn is_name(text: &[u8]) -> bool
    ensures { result ≡ is_name text.now }
{
    if text.len() < 1 || 16 < text.len() {
        return false;
    }
    text.iter().all(|byte| is_name_byte(*byte))
}
