// tape_spans: the range of a file on the tape, from its extents one by one, in bytes or in blocks.
// For the reader of LTFS indexes that looks for files by name, which sees only these contracts. What the words mean stands in specs/; the public function
// answers every input, and its contract is an equation with a definition there.
#![tactic(auto)]

ghost use Rattle.std.specs.Prelude.{◌≡◌, ◌+◌, ◌*◌, ◌<◌};
ghost use Rattle.tape_spans.specs.Spans.{near, place_start, place_end, span_with};
ghost use Rattle.tape_spans.specs.Private.{blocks_from, blocks_to, blocks_of_parts};

use runs::LAST_PLACE;

// What an extent says.
#[derive(Clone, Copy)]
pub struct Extent {
    pub partition: u64,
    pub block: u64,
    pub offset: u64,
    pub count: u64,
}

// What the extents so far come to: whether one has bytes, whether one of these lies in another partition, the least start and the greatest end.
// Stays: the theorem `RefusesTheFirst` on picks reads `some` and `elsewhere` where a file cannot be read (`CannotBeRead`), so that start and end are no Option.
#[derive(Clone, Copy)]
pub struct Span {
    pub some: bool,
    pub elsewhere: bool,
    pub start: u64,
    pub end: u64,
}

// A sum, or one above the limit.
fn add(a: u64, b: u64) -> u64
    ensures { result ≡ near (a + b) }
{
    a.saturating_add(b).min(LAST_PLACE + 1)
}

// So many blocks of a size, or one above the limit.
fn times(block: u64, size: u64) -> u64
    ensures { result ≡ near (block * size) }
{
    block.saturating_mul(size).min(LAST_PLACE + 1)
}

fn byte_start(block: u64, offset: u64, size: u64) -> u64
    ensures { result ≡ near (block * size + offset) }
{
    add(times(block, size), offset)
}

fn byte_end(block: u64, offset: u64, count: u64, size: u64) -> u64
    ensures { result ≡ near (block * size + offset + count) }
{
    add(byte_start(block, offset, size), count)
}

fn block_start(block: u64, offset: u64, size: u64) -> u64
    ensures { result ≡ near (blocks_from size block offset) }
{
    if size == 0 {
        return 0;
    }
    add(block, offset / size)
}

// How many blocks two parts of a block need.
fn blocks_of_parts(a: u64, b: u64, size: u64) -> u64
    requires { (a < size) × (b < size) }
    ensures { (result ≡ blocks_of_parts size a b) × (result < 3) }
{
    if a == 0 {
        if b == 0 {
            return 0;
        }
        return 1;
    }
    if size - a < b {
        return 2;
    }
    1
}

fn block_end(block: u64, offset: u64, count: u64, size: u64) -> u64
    ensures { result ≡ near (blocks_to size block offset count) }
{
    if size == 0 {
        return 0;
    }
    let parts = blocks_of_parts(offset % size, count % size, size);
    let first = add(block, offset / size);
    let second = add(first, count / size);
    add(second, parts)
}

fn place_start(extent: Extent, size: u64, unit: u64) -> u64
    ensures { result ≡ near (place_start unit size extent) }
{
    if unit == 0 {
        return byte_start(extent.block, extent.offset, size);
    }
    block_start(extent.block, extent.offset, size)
}

fn place_end(extent: Extent, size: u64, unit: u64) -> u64
    ensures { result ≡ near (place_end unit size extent) }
{
    if unit == 0 {
        return byte_end(extent.block, extent.offset, extent.count, size);
    }
    block_end(extent.block, extent.offset, extent.count, size)
}

// The range with one extent more.
#[tactic(auto, unfolding(crate::specs::Spans::span_with))]
pub fn with_extent(span: Span, extent: Extent, partition: u64, size: u64, unit: u64) -> Span
    ensures { result ≡ span_with unit size partition span extent }
{
    if extent.count == 0 {
        return span;
    }
    let first = place_start(extent, size, unit);
    let last = place_end(extent, size, unit);
    let (start, end) = if span.some {
        (span.start.min(first), span.end.max(last))
    } else {
        (first, last)
    };
    Span {
        some: true,
        elsewhere: span.elsewhere || extent.partition != partition,
        start,
        end,
    }
}
