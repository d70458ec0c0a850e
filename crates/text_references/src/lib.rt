// text_references: the references in a name, read byte by byte, and a character's bytes in UTF-8.
// For the reader that compares names of an index with paths, which sees only these contracts. What the words mean stands in specs/; each public function
// answers every input, and its contract is an equation with a definition there.
#![tactic(auto)]

ghost use Rattle.std.specs.Prelude.{◌≡◌, ◌≤◌, min};
ghost use Rattle.text_references.specs.declared.Reading.{Reading};
ghost use Rattle.text_references.specs.References.{is_character, later_byte, utf8};
ghost use Rattle.text_references.specs.Readings.{too_far, next_letter, read_next, numbered_by, of_two, of_three, are_four, of_four, of_letters, character_in, Holds};
ghost use Rattle.text_references.specs.Private.{HexDigitFound, long_bytes};

use text_bytes::is_between;

// What is known of the bytes behind a `&`: the first letters; a `#` alone; a decimal or a hexadecimal number; nothing that can be a reference.
#[derive(Clone, Copy)]
pub enum Reading {
    Letters {
        count: u8,
        first: u8,
        second: u8,
        third: u8,
        fourth: u8,
    },
    Hash,
    Decimal(u64),
    Hex(u64),
    Dead,
}

// A character's bytes: so many of these four.
#[derive(Clone, Copy)]
pub struct Utf8 {
    pub count: usize,
    pub first: u8,
    pub second: u8,
    pub third: u8,
    pub fourth: u8,
}

// One more letter.
fn next_letter(count: u8, first: u8, second: u8, third: u8, byte: u8) -> Reading
    ensures { result ≡ next_letter count first second third byte }
{
    if count == 0 {
        if byte == b'#' {
            return Reading::Hash;
        }
        return Reading::Letters {
            count: 1,
            first: byte,
            second: 0,
            third: 0,
            fourth: 0,
        };
    }
    if count == 1 {
        return Reading::Letters {
            count: 2,
            first,
            second: byte,
            third: 0,
            fourth: 0,
        };
    }
    if count == 2 {
        return Reading::Letters {
            count: 3,
            first,
            second,
            third: byte,
            fourth: 0,
        };
    }
    if count == 3 {
        return Reading::Letters {
            count: 4,
            first,
            second,
            third,
            fourth: byte,
        };
    }
    Reading::Dead
}

// A number, or one that no character has.
fn capped(number: u64) -> u64
    ensures { result ≡ min too_far number }
{
    number.min(1114112)
}

// The byte behind `&#`.
fn behind_hash(byte: u8) -> Reading
    ensures { result ≡ read_next Reading.Hash byte }
{
    if is_between(b'0', b'9', byte) {
        return Reading::Decimal(u64::from(byte - b'0'));
    }
    if byte == b'x' {
        return Reading::Hex(0);
    }
    Reading::Dead
}

fn next_decimal(number: u64, byte: u8) -> Reading
    ensures { result ≡ read_next (Reading.Decimal number) byte }
{
    if is_between(b'0', b'9', byte) {
        return Reading::Decimal(capped(capped(number) * 10 + u64::from(byte - b'0')));
    }
    Reading::Dead
}

// The value of a hexadecimal digit.
fn hex_digit(byte: u8) -> Option<u64>
    ensures { HexDigitFound byte result }
{
    if is_between(b'0', b'9', byte) {
        return Some(u64::from(byte - b'0'));
    }
    if is_between(b'a', b'f', byte) {
        return Some(u64::from(byte - 87));
    }
    if is_between(b'A', b'F', byte) {
        return Some(u64::from(byte - 55));
    }
    None
}

fn next_hex(number: u64, byte: u8) -> Reading
    ensures { result ≡ read_next (Reading.Hex number) byte }
{
    let Some(digit) = hex_digit(byte) else {
        return Reading::Dead;
    };
    Reading::Hex(capped(capped(number) * 16 + digit))
}

// One more byte behind the `&`.
pub fn read_next(reading: Reading, byte: u8) -> Reading
    ensures { result ≡ read_next reading byte }
{
    match reading {
        Reading::Letters {
            count,
            first,
            second,
            third,
            fourth: _,
        } => next_letter(count, first, second, third, byte),
        Reading::Hash => behind_hash(byte),
        Reading::Decimal(number) => next_decimal(number, byte),
        Reading::Hex(number) => next_hex(number, byte),
        Reading::Dead => Reading::Dead,
    }
}

// Whether a number is a character's.
pub fn is_character(number: u64) -> bool
    ensures { result ≡ is_character number }
{
    if number < 1 {
        return false;
    }
    if 1114111 < number {
        return false;
    }
    if number < 55296 {
        return true;
    }
    57343 < number
}

fn numbered(number: u64) -> u64
    ensures { result ≡ numbered_by number }
{
    if is_character(number) {
        return number;
    }
    0
}

fn of_two(first: u8, second: u8) -> u64
    ensures { result ≡ of_two first second }
{
    if second != b't' {
        return 0;
    }
    if first == b'l' {
        return 60;
    }
    if first == b'g' {
        return 62;
    }
    0
}

fn of_three(first: u8, second: u8, third: u8) -> u64
    ensures { result ≡ of_three first second third }
{
    if first != b'a' {
        return 0;
    }
    if second != b'm' {
        return 0;
    }
    if third != b'p' {
        return 0;
    }
    38
}

// Whether four bytes are four others.
fn are_four(a: u8, b: u8, c: u8, d: u8, wanted: &[u8; 4]) -> bool
    ensures { result ≡ are_four a b c d wanted.now }
{
    if a != wanted[0] {
        return false;
    }
    if b != wanted[1] {
        return false;
    }
    if c != wanted[2] {
        return false;
    }
    d == wanted[3]
}

fn of_four(first: u8, second: u8, third: u8, fourth: u8) -> u64
    ensures { result ≡ of_four first second third fourth }
{
    if are_four(first, second, third, fourth, b"quot") {
        return 34;
    }
    if are_four(first, second, third, fourth, b"apos") {
        return 39;
    }
    0
}

fn of_letters(count: u8, first: u8, second: u8, third: u8, fourth: u8) -> u64
    ensures { result ≡ of_letters count first second third fourth }
{
    if count == 2 {
        return of_two(first, second);
    }
    if count == 3 {
        return of_three(first, second, third);
    }
    if count == 4 {
        return of_four(first, second, third, fourth);
    }
    0
}

// The character that a reading comes to where a `;` follows it, 0 for none.
// Stays: the promise `ReadingsSayCharacters` sets it equal to `character_of`, a number that is 0 where there is no character, so that it is no Option.
pub fn character_in(reading: Reading) -> u64
    ensures { result ≡ character_in reading }
{
    match reading {
        Reading::Letters {
            count,
            first,
            second,
            third,
            fourth,
        } => of_letters(count, first, second, third, fourth),
        Reading::Hash => 0,
        Reading::Decimal(number) => numbered(number),
        Reading::Hex(number) => numbered(number),
        Reading::Dead => 0,
    }
}

// The last six bits of a number, as a byte behind the first.
fn later_byte(number: u64) -> u8
    ensures { result ≡ later_byte number }
{
    (128 + number % 64) as u8
}

// A character of three or four bytes, by its last two.
fn encode_long(number: u64, third: u8, last: u8) -> Utf8
    requires { number ≤ 1114111 }
    ensures { Holds (long_bytes number third last) result }
{
    if number < 65536 {
        return Utf8 {
            count: 3,
            first: (224 + number / 4096) as u8,
            second: third,
            third: last,
            fourth: 0,
        };
    }
    Utf8 {
        count: 4,
        first: (240 + number / 262144) as u8,
        second: later_byte(number / 4096),
        third,
        fourth: last,
    }
}

// A character's bytes; none for a number that is no character.
pub fn encode(number: u64) -> Utf8
    ensures { Holds (utf8 number) result }
{
    if !is_character(number) {
        return Utf8 {
            count: 0,
            first: 0,
            second: 0,
            third: 0,
            fourth: 0,
        };
    }
    if number < 128 {
        return Utf8 {
            count: 1,
            first: number as u8,
            second: 0,
            third: 0,
            fourth: 0,
        };
    }
    let last = later_byte(number);
    if number < 2048 {
        return Utf8 {
            count: 2,
            first: (192 + number / 64) as u8,
            second: last,
            third: 0,
            fourth: 0,
        };
    }
    encode_long(number, later_byte(number / 64), last)
}
