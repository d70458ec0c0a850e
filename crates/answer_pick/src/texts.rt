// The label, the index and the list, judged.
ghost use Rattle.std.specs.Prelude.{◌≡◌, not, [], ◌∷◌};
ghost use Rattle.refusals.specs.declared.OwnRefusal.TheVariants.{OtherVolume};
ghost use Rattle.refusals.specs.declared.Refusal.TheVariants.{BadText};
ghost use Rattle.refusals.specs.Refusals.{number_of, own_number_of};
ghost use Rattle.answer_pick.specs.Picks.{refused_if, first_refused, list_refused};
ghost use Rattle.answer_pick.specs.Private.{label_says, other_if, IndexRead};

use crate::{Refused, numbered, refused_if};
use refusals::{OwnRefusal, Refusal};
use tape_files::{Label, has_index, is_value, other_volume, read_label, value_in};
use tape_markup::is_balanced;
use tape_picks::find_files;

// Whether a label says what it must: the block size, not 0 where places count blocks, and the data partition.
fn is_label(label: &[u8], unit: u64, read: Label) -> bool
    ensures { result ≡ label_says unit label.now read }
{
    let size = read.size;
    let partition = read.partition;
    let values = is_value(size) & is_value(partition);
    let blocks = (unit == 0) | (value_in(size) != 0);
    is_balanced(label) & values & blocks
}

// 11 with the line, or 5.
fn judge_paths(list: &[u8]) -> Refused
    ensures { result ≡ list_refused list.now }
{
    match text_paths::judge_list(list) {
        Ok(()) => Refused {
            number: 0,
            place: 0,
        },
        Err(verdict) => numbered(verdict),
    }
}

// 20, 44, 11 and 5.
pub(crate) fn judge_input(good: bool, other: bool, list: &[u8]) -> Refused
    ensures { result ≡ first_refused (refused_if (not good) (number_of BadText) ∷ refused_if other (own_number_of OtherVolume) ∷ list_refused list.now ∷ []) }
{
    if !good {
        return refused_if(true, refusals::number(Refusal::BadText));
    }
    if other {
        return refused_if(true, refusals::own_number(OwnRefusal::OtherVolume));
    }
    judge_paths(list)
}

// 44 where the texts can be read.
pub(crate) fn other_if(good: bool, label: &[u8], index: &[u8]) -> bool
    ensures { result ≡ other_if good label.now index.now }
{
    if !good {
        return false;
    }
    other_volume(label, index)
}

// Whether label and index can be read; where they can, and the list too, what each of its lines comes to, in three rows.
pub(crate) fn read_index(
    label: &[u8],
    index: &[u8],
    list: &[u8],
    unit: u64,
    states: &mut [u64],
    starts: &mut [u64],
    ends: &mut [u64],
) -> bool
    ensures { IndexRead unit label.now index.now list.now states.old starts.old ends.old result states.new starts.new ends.new }
{
    let read = read_label(label);
    if !is_label(label, unit, read) {
        return false;
    }
    if !has_index(index) {
        return false;
    }
    let size = read.size;
    let partition = read.partition;
    find_files(
        index,
        list,
        unit,
        value_in(size),
        value_in(partition),
        states,
        starts,
        ends,
    )
}
