// boundary_pick: from the bytes of tape name, label, index and a list of paths to those of a run sheet and of the names, for programs in C. Thin: answered by the crate
// below, in rows that are lent. include/violstream.h tells a C programmer the same in words; parameter order and meaning are fixed there.
#![tactic(auto)]

ghost use Rattle.std.specs.Prelude.{◌≡◌, ◌≤◌, min};
ghost use Rattle.boundary_pick.specs.Calls.{place_most, pick_code, PickCalled};
ghost use Rattle.boundary_pick.specs.Private.{ShortPicked};

use answer_pick::{Picked, pick};

// No list has more lines than this, so a place is told as it is; and 256 times it fits.
const PLACE_MOST: u64 = 72057594037927935;

fn told_place(place: u64) -> u64
    ensures { result ≡ min place place_most }
{
    place.min(PLACE_MOST)
}

// An answer's code: 0, or a refusal's number plus 256 times its place.
fn code_of(picked: Picked) -> u64
    requires { picked.number ≤ 44 }
    ensures { result ≡ pick_code picked }
{
    picked.number + 256 * told_place(picked.place)
}

// The code where there are no words for the texts' lengths: what comes before 8 is found by answering into empty rows.
fn short_pick(
    name: &[u8],
    label: &[u8],
    index: &[u8],
    list: &[u8],
    unit: u64,
    head: &[u64],
    turn: &[u64],
) -> u64
    ensures { ShortPicked unit name.now label.now index.now list.now head.now turn.now result }
{
    let mut none = [0u8; 0];
    let mut nothing = [0u8; 0];
    let picked = pick(
        name,
        label,
        index,
        list,
        unit,
        head,
        turn,
        &mut none,
        &mut nothing,
    );
    code_of(picked)
}

// The run sheet of the files that a list asks for by path, and their names.
#[unsafe(no_mangle)]
pub extern "C" fn violstream_pick(
    tape: &[u8],
    label: &[u8],
    index: &[u8],
    list: &[u8],
    unit: u64,
    head: &[u64],
    turn: &[u64],
    out: &mut [u8],
    names: &mut [u8],
    sizes: &mut [u64],
) -> u64
    ensures { PickCalled unit tape.now label.now index.now list.now head.now turn.now out.old names.old sizes.old result out.new names.new sizes.new }
{
    if sizes.len() < 2 {
        return short_pick(tape, label, index, list, unit, head, turn);
    }
    let picked = pick(tape, label, index, list, unit, head, turn, out, names);
    let code = code_of(picked);
    if picked.number != 0 {
        return code;
    }
    sizes[0] = picked.bytes;
    sizes[1] = picked.named;
    code
}
