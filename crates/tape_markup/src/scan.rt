// Where things in a text end. Each search starts at a position and answers one: the first behind what it looked for; `None` where it never ends.
ghost use Rattle.std.specs.Prelude.{◌≡◌, ◌+◌, ◌≤◌, ◌<◌, ◌&&◌, length, drop, eqb};
ghost use Rattle.text_bytes.specs.Text.{starts_with};
ghost use Rattle.tape_markup.specs.Markup.{end_behind, tag_end, declaration_end, quote_after, depth_after, front_of, is_char, is_blank, begins_name, in_name, name_size};
ghost use Rattle.tape_markup.specs.Private.{EndFound, ends_declaration};

// Whether some bytes stand at a position.
// Apart, so that the loop that looks for them is over the comparison of one byte.
#[inline(never)]
fn all_stand_at(text: &[u8], i: usize, wanted: &[u8]) -> bool
    requires { i ≤ length text.now }
    ensures { result ≡ starts_with wanted.now (drop i text.now) }
{
    text_bytes::starts(&text[i..], wanted)
}

// The same, the first byte first: nearly everywhere it is another.
fn stands_at(text: &[u8], i: usize, wanted: &[u8]) -> bool
    requires i_in_bounds { i < length text.now }
    requires wanted_nonzero { 0 < length wanted.now }
    ensures { result ≡ starts_with wanted.now (drop i text.now) }
{
    wanted[0] == text[i] && all_stand_at(text, i, wanted)
}

// Behind the first place, from a position on, where some bytes stand.
pub(crate) fn end_behind(text: &[u8], at: usize, wanted: &[u8]) -> Option<usize>
    requires at_in_bounds { at ≤ length text.now }
    requires wanted_nonzero { 0 < length wanted.now }
    ensures { EndFound (end_behind wanted.now (drop at text.now)) text.now at result }
{
    for i in at..text.len() {
        if stands_at(text, i, wanted) {
            return Some(i + wanted.len());
        }
    }
    None
}

// The quote that is open behind a byte, 0 for none.
// Stays: `tag_end` and `declaration_end`, by which the theorems on markup tell where a tag ends, read a quote as a byte and none as 0, so that it is no Option.
fn quote_after(quote: u8, byte: u8) -> u8
    ensures { result ≡ quote_after quote byte }
{
    if quote == 0 {
        if byte == b'"' {
            return byte;
        }
        if byte == b'\'' {
            return byte;
        }
        return 0;
    }
    if byte == quote {
        return 0;
    }
    quote
}

// Whether a byte is a certain one, outside quotes.
fn is_bare(quote: u8, byte: u8, wanted: u8) -> bool
    ensures { result ≡ (eqb quote 0 && eqb byte wanted) }
{
    if quote != 0 {
        return false;
    }
    byte == wanted
}

// The end of a tag, from behind its name on.
pub(crate) fn tag_end(text: &[u8], at: usize) -> Option<usize>
    requires { at ≤ length text.now }
    ensures { EndFound (tag_end 0 (drop at text.now)) text.now at result }
{
    let mut quote: u8 = 0;
    for i in at..text.len() {
        let byte = text[i];
        if is_bare(quote, byte, b'>') {
            return Some(i + 1);
        }
        if is_bare(quote, byte, b'<') {
            return None;
        }
        quote = quote_after(quote, byte);
    }
    None
}

// How many brackets are open behind a byte.
fn depth_after(quote: u8, depth: usize, byte: u8) -> usize
    requires { depth < 18446744073709551615 }
    ensures { result ≡ depth_after quote depth byte }
{
    if quote != 0 {
        return depth;
    }
    match byte {
        b'[' => depth + 1,
        b']' => depth.saturating_sub(1),
        _ => depth,
    }
}

fn ends_declaration(quote: u8, depth: usize, byte: u8) -> bool
    ensures { result ≡ ends_declaration quote depth byte }
{
    quote == 0 && depth == 0 && byte == b'>'
}

// The end of a declaration, from behind its `<!` on.
pub(crate) fn declaration_end(text: &[u8], at: usize) -> Option<usize>
    requires { at ≤ length text.now }
    ensures { EndFound (declaration_end 0 0 (drop at text.now)) text.now at result }
{
    let mut quote: u8 = 0;
    let mut depth: usize = 0;
    for i in at..text.len() {
        let byte = text[i];
        if ends_declaration(quote, depth, byte) {
            return Some(i + 1);
        }
        depth = depth_after(quote, depth, byte);
        quote = quote_after(quote, byte);
    }
    None
}

// The first position, from one on, that holds a `<`, or the text's end.
pub(crate) fn behind_chars(text: &[u8], at: usize) -> usize
    requires { at ≤ length text.now }
    ensures { (result ≡ at + front_of is_char (drop at text.now)) × (result ≤ length text.now) }
{
    at + text[at..].iter().take_while(|byte| **byte != b'<').count()
}

fn is_blank(byte: u8) -> bool
    ensures { result ≡ is_blank byte }
{
    if byte == b' ' {
        return true;
    }
    if byte == b'\t' {
        return true;
    }
    if byte == b'\n' {
        return true;
    }
    byte == b'\r'
}

// The first position, from one on, that holds no blank.
pub(crate) fn behind_blanks(text: &[u8], at: usize) -> usize
    requires { at ≤ length text.now }
    ensures { (result ≡ at + front_of is_blank (drop at text.now)) × (result ≤ length text.now) }
{
    at + text[at..]
        .iter()
        .take_while(|byte| is_blank(**byte))
        .count()
}

fn begins_name(byte: u8) -> bool
    ensures { result ≡ begins_name byte }
{
    if text_bytes::is_between(b'A', b'Z', byte) {
        return true;
    }
    if text_bytes::is_between(b'a', b'z', byte) {
        return true;
    }
    if byte == b'_' {
        return true;
    }
    if byte == b':' {
        return true;
    }
    127 < byte
}

fn in_name(byte: u8) -> bool
    ensures { result ≡ in_name byte }
{
    if begins_name(byte) {
        return true;
    }
    if text_bytes::is_between(b'0', b'9', byte) {
        return true;
    }
    if byte == b'-' {
        return true;
    }
    byte == b'.'
}

// The first position, from one on, that holds no byte of a name.
fn behind_name_bytes(text: &[u8], at: usize) -> usize
    requires { at ≤ length text.now }
    ensures { (result ≡ at + front_of in_name (drop at text.now)) × (result ≤ length text.now) }
{
    at + text[at..].iter().take_while(|byte| in_name(**byte)).count()
}

// Behind the name that begins at a position; the position itself where none begins there.
pub(crate) fn behind_name(text: &[u8], at: usize) -> usize
    requires { at ≤ length text.now }
    ensures { (result ≡ at + name_size (drop at text.now)) × (result ≤ length text.now) }
{
    if at < text.len() && begins_name(text[at]) {
        behind_name_bytes(text, at)
    } else {
        at
    }
}
