// The index: its files one by one, in the order met, each by its extents.
ghost use Rattle.std.specs.Prelude.{◌≡◌};
ghost use Rattle.tape_markup.specs.Places.{PlaceIn};
ghost use Rattle.tape_files.specs.Index.{insides, extent_name, extents_of};
ghost use Rattle.tape_files.specs.Elements.{Left, inside};
ghost use Rattle.answer_ltfs.specs.Private.Parts.{with_extent, with_extents, file_of, NextFound, WalkIn};

use tape_files::{
    ExtentSaid, Use, extent_is_good, leave, next_child, next_named, read_extent, role_at, value_in,
};
use tape_markup::Place;
use tape_ranges::File;

#[derive(Clone, Copy)]
pub(crate) struct FileRead {
    pub file: File,
    pub next: Place,
}

// Where a reader of the index stands: how many elements it is in that are looked at, 0 outside of all.
#[derive(Clone, Copy)]
pub(crate) struct Walk {
    pub depth: usize,
    pub place: Place,
}

// A file of the index, and where the reader stands behind it.
#[derive(Clone, Copy)]
pub(crate) struct NextFile {
    pub file: File,
    pub walk: Walk,
}

// A file with one more extent.
fn with_extent(file: File, extent: ExtentSaid) -> File
    ensures { result ≡ with_extent file extent }
{
    let good = file.good & extent_is_good(extent);
    if file.some {
        return File {
            some: true,
            several: true,
            good,
            partition: file.partition,
            block: file.block,
            offset: file.offset,
            count: file.count,
        };
    }
    let partition = extent.partition;
    let block = extent.block;
    let offset = extent.offset;
    let count = extent.count;
    File {
        some: true,
        several: false,
        good,
        partition: value_in(partition),
        block: value_in(block),
        offset: value_in(offset),
        count: value_in(count),
    }
}

// The extents in an `extentinfo` element.
fn read_extents(text: &[u8], place: Place, file: File) -> FileRead
    requires { PlaceIn text.now place }
    ensures { (result.file ≡ with_extents file (insides extent_name (inside text.now place))) × Left text.now place result.next }
{
    let mut file = file;
    let mut here = place;
    // Stays: `while let` would drop the place behind the last of them, which is part of the answer.
    loop {
        match next_named(text, here, b"extent") {
            Ok(inner) => {
                let read = read_extent(text, inner);
                file = with_extent(file, read.extent);
                here = read.next;
            }
            Err(next) => return FileRead { file, next },
        }
    }
}

fn read_file(text: &[u8], place: Place) -> FileRead
    requires { PlaceIn text.now place }
    ensures { (result.file ≡ file_of (extents_of (inside text.now place))) × Left text.now place result.next }
{
    let mut file = File {
        some: false,
        several: false,
        good: true,
        partition: 0,
        block: 0,
        offset: 0,
        count: 0,
    };
    let mut here = place;
    // Stays: `while let` would drop the place behind the last of them, which is part of the answer.
    loop {
        match next_named(text, here, b"extentinfo") {
            Ok(inner) => {
                let read = read_extents(text, inner, file);
                file = read.file;
                here = read.next;
            }
            Err(next) => return FileRead { file, next },
        }
    }
}

// The next file of the index.
pub(crate) fn next_file(text: &[u8], walk: Walk) -> Option<NextFile>
    requires { WalkIn text.now walk }
    ensures { NextFound text.now walk result }
{
    let mut depth = walk.depth;
    let mut here = walk.place;
    // Stays: the depth goes up and down with the elements, so that no range and no chain counts it.
    loop {
        match next_child(text, here) {
            Ok(child) => match role_at(text, child.from, child.to, depth) {
                Use::Enter => {
                    depth += 1;
                    here = child.next;
                }
                Use::Read => {
                    let read = read_file(text, child.next);
                    let walk = Walk {
                        depth,
                        place: read.next,
                    };
                    return Some(NextFile {
                        file: read.file,
                        walk,
                    });
                }
                Use::Skip => here = leave(text, child.next),
            },
            Err(next) => {
                if depth == 0 {
                    return None;
                }
                depth -= 1;
                here = next;
            }
        }
    }
}
