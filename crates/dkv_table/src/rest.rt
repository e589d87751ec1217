// What a walk still has to give: some entries, then blocks, then more entries.
ghost use Rattle.std.specs.Prelude.{◌≡◌, [], ◌∷◌, ◌++◌, IfSome, IfNone};
ghost use Rattle.dkv_table.specs.Rests.{rest_of};

use crate::block::Block;
use dkv_base::Entry;

#[derive(Drop)]
pub(crate) struct Rest<'a> {
    pub(crate) front: &'a [Entry],
    pub(crate) middle: &'a [Block],
    pub(crate) back: &'a [Entry],
}

// Takes the first entry.
pub(crate) fn take_first<'a>(rest: &mut Rest<'a>) -> Option<&'a Entry>
    ensures first { IfSome result (λ entry. rest_of rest.old ≡ entry.now ∷ rest_of rest.new) }
    ensures none { IfNone result (rest_of rest.old ≡ []) }
    ensures stays { IfNone result (rest_of rest.new ≡ []) }
{
    fill_front(rest);
    let (entry, later) = rest.front.split_first()?;
    rest.front = later;
    Some(entry)
}

// Takes the last entry.
pub(crate) fn take_last<'a>(rest: &mut Rest<'a>) -> Option<&'a Entry>
    ensures last { IfSome result (λ entry. rest_of rest.old ≡ rest_of rest.new ++ entry.now ∷ []) }
    ensures none { IfNone result (rest_of rest.old ≡ []) }
    ensures stays { IfNone result (rest_of rest.new ≡ []) }
{
    fill_back(rest);
    let (entry, earlier) = rest.back.split_last()?;
    rest.back = earlier;
    Some(entry)
}

// Goes on to the next block where the front is given, and to the back behind the last one.
fn fill_front(rest: &mut Rest<'_>)
    ensures same { rest_of rest.new ≡ rest_of rest.old }
    ensures filled { rest.new.front.now ≡ [] → rest_of rest.new ≡ [] }
{
    while rest.front.is_empty() {
        match rest.middle.split_first() {
            Some((block, later)) => {
                rest.front = block.as_slice();
                rest.middle = later;
            }
            None => {
                rest.front = rest.back;
                rest.back = &[];
                return;
            }
        }
    }
}

// Goes on to the block before where the back is given, and to the front before the first one.
fn fill_back(rest: &mut Rest<'_>)
    ensures same { rest_of rest.new ≡ rest_of rest.old }
    ensures filled { rest.new.back.now ≡ [] → rest_of rest.new ≡ [] }
{
    while rest.back.is_empty() {
        match rest.middle.split_last() {
            Some((block, earlier)) => {
                rest.back = block.as_slice();
                rest.middle = earlier;
            }
            None => {
                rest.back = rest.front;
                rest.front = &[];
                return;
            }
        }
    }
}
