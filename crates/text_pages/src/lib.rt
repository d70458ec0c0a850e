// text_pages: a page, and texts put on it one behind the other: a text, a number, and lines of a key and a text or numbers.
// For the writers of sheets, which see only these contracts. What the words mean stands in specs/. Each function answers where the next text
// goes; a page without room for the longest text of its kind is left alone, and the answer is then the position itself.
#![tactic(auto)]

ghost use Rattle.std.specs.Prelude.{◌≡◌, ◌+◌, length, ltb};
ghost use Rattle.text_bytes.specs.Text.{decimal};
ghost use Rattle.text_pages.specs.Printing.{line, number_line, pair_text, pair_line, triple_line, Put};

// Whether so many bytes, from a position on, are too many for a page of this length. A sum that would wrap is above any length.
fn lacks_room(length: usize, at: usize, most: usize) -> bool
    ensures { result ≡ ltb length (at + most) }
{
    at.checked_add(most).is_none_or(|end| length < end)
}

// Byte by byte: `copy_from_slice` takes `memmove` here, a name that the library for C had not needed.
pub fn put(page: &mut [u8], at: usize, text: &[u8]) -> usize
    ensures { Put page.old at text.now (length text.now) page.new result }
{
    if lacks_room(page.len(), at, text.len()) {
        return at;
    }
    for i in 0..text.len() {
        page[at + i] = text[i];
    }
    at + text.len()
}

// No number has more than 20 digits.
pub fn put_number(page: &mut [u8], at: usize, number: u64) -> usize
    ensures { Put page.old at (decimal number) 20 page.new result }
{
    if lacks_room(page.len(), at, 20) {
        return at;
    }
    let mut digits = [0u8; 20];
    let places = io::decimal(number, &mut digits);
    put(page, at, &digits[..places])
}

pub fn put_line(page: &mut [u8], at: usize, key: &[u8], text: &[u8]) -> usize
    ensures { Put page.old at (line key.now text.now) (length key.now + length text.now + 1) page.new result }
{
    if lacks_room(page.len(), at, key.len() + text.len() + 1) {
        return at;
    }
    let value = put(page, at, key);
    let end = put(page, value, text);
    put(page, end, b"\n")
}

pub fn put_number_line(page: &mut [u8], at: usize, key: &[u8], number: u64) -> usize
    ensures { Put page.old at (number_line key.now number) (length key.now + 21) page.new result }
{
    if lacks_room(page.len(), at, key.len() + 21) {
        return at;
    }
    let value = put(page, at, key);
    let end = put_number(page, value, number);
    put(page, end, b"\n")
}

pub fn put_pair(page: &mut [u8], at: usize, first: u64, second: u64) -> usize
    ensures { Put page.old at (pair_text first second) 41 page.new result }
{
    if lacks_room(page.len(), at, 41) {
        return at;
    }
    let comma = put_number(page, at, first);
    let after = put(page, comma, b",");
    put_number(page, after, second)
}

pub fn put_pair_line(page: &mut [u8], at: usize, key: &[u8], first: u64, second: u64) -> usize
    ensures { Put page.old at (pair_line key.now first second) (length key.now + 42) page.new result }
{
    if lacks_room(page.len(), at, key.len() + 42) {
        return at;
    }
    let value = put(page, at, key);
    let end = put_pair(page, value, first, second);
    put(page, end, b"\n")
}

pub fn put_triple_line(
    page: &mut [u8],
    at: usize,
    key: &[u8],
    first: u64,
    second: u64,
    third: u64,
) -> usize
    ensures { Put page.old at (triple_line key.now first second third) (length key.now + 63) page.new result }
{
    if lacks_room(page.len(), at, key.len() + 63) {
        return at;
    }
    let value = put(page, at, key);
    let last_comma = put_pair(page, value, first, second);
    put_number_line(page, last_comma, b",", third)
}
