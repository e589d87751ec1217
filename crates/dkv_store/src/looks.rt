// What is looked at before two files are opened: their headers and gates.
ghost use Rattle.std.specs.Prelude.{◌≡◌, ◌⊎◌, ◌≤◌, List, ℕ, OnOk, OnErr, IfOk, IfErr, Err};
ghost use Rattle.dkv_io.specs.Causes.{Rose};
ghost use Rattle.dkv_io.specs.Disks.{AtRest, NoMore};
ghost use Rattle.dkv_journal.specs.Crashes.{WhereTold};
ghost use Rattle.dkv_files.specs.Crashes.{WritesNothing};
ghost use Rattle.dkv_store.specs.Opening.{IsSeenA, IsSeenB, plain};
ghost use Rattle.dkv_store.specs.Stores.{IsUnopened};
ghost use Rattle.dkv_store.specs.declared.answers.OpenRefusal.TheVariants as opening;

use crate::answers::OpenRefusal;
use dkv_files::{FileHead, HeadState, Pair, both_to_rest, is_new, is_open, read_head};
use dkv_io::{Disk, Failed};

// What was seen of two files.
#[derive(Clone, Copy)]
pub(crate) struct Looked {
    // How the header of file a stands.
    pub head: HeadState,
    // Whether file a goes on from an empty image, if it is long enough to tell.
    pub fresh: Option<bool>,
    // Whether file b is open.
    pub other: bool,
}

// Brings both files to rest and looks at them. Writes nothing, and takes no memory.
pub(crate) fn look_at<D: Disk>(pair: &mut Pair<D>) -> Result<Looked, Failed>
    ensures seen_a { WhereTold (D.seen pair.old.a) (λ fa. IfOk result (IsSeenA fa)) }
    ensures seen_b { WhereTold (D.seen pair.old.b) (λ fb. IfOk result (IsSeenB fb)) }
    ensures rest_a { OnOk result (WhereTold (D.seen pair.old.a) (λ fa. AtRest
        (D.seen pair.new.a) (D.may_leave pair.new.a) fa)) }
    ensures rest_b { OnOk result (WhereTold (D.seen pair.old.b) (λ fb. AtRest
        (D.seen pair.new.b) (D.may_leave pair.new.b) fb)) }
    ensures same { (D.seen pair.new.a ≡ D.seen pair.old.a)
        × (D.seen pair.new.b ≡ D.seen pair.old.b) }
    ensures moves { WritesNothing D.may_leave D.moment D.left_since
        pair.old.a pair.old.b pair.new.a pair.new.b }
    ensures crash { NoMore (D.may_leave pair.old.a) (D.may_leave pair.new.a)
        × NoMore (D.may_leave pair.old.b) (D.may_leave pair.new.b) }
    ensures later { (D.faults pair.old.a ≤ D.faults pair.new.a)
        × (D.faults pair.old.b ≤ D.faults pair.new.b) }
    ensures cause { OnErr result (Rose (D.faults pair.old.a) (D.faults pair.new.a)
        ⊎ Rose (D.faults pair.old.b) (D.faults pair.new.b)) }
{
    match both_to_rest(pair) {
        Ok(()) => {}
        Err(failed) => return Err(failed),
    }
    let head = match read_head(&mut pair.a) {
        Ok(head) => head,
        Err(failed) => return Err(failed),
    };
    let fresh = match is_new(&mut pair.a) {
        Ok(fresh) => fresh,
        Err(failed) => return Err(failed),
    };
    match is_open(&mut pair.b) {
        Ok(other) => Ok(Looked { head, fresh, other }),
        Err(failed) => Err(failed),
    }
}

// Whether two files of which this was seen may be read on: as file a with an empty image beside file b that isn't open.
pub(crate) fn judge(seen: Looked) -> Result<FileHead, OpenRefusal>
    ensures plain { IfOk result (λ head. seen ≡ plain head) }
    ensures refused { (fa fb : List ℕ) → IsSeenA fa seen → IsSeenB fb seen
        → IfErr result (IsUnopened fa fb) }
    ensures sure { result ≡ Err opening.DiskFault → ⊥ }
{
    match seen.head {
        HeadState::Bad { at } => Err(OpenRefusal::Damaged { file: 0, at }),
        HeadState::Shut => {
            if seen.other {
                Err(OpenRefusal::NotBuilt { at: 0 })
            } else {
                Err(OpenRefusal::NoDatabase)
            }
        }
        HeadState::Stands { head, image } => {
            if seen.other {
                Err(OpenRefusal::NotBuilt { at: 0 })
            } else if image != 16 {
                Err(OpenRefusal::NotBuilt { at: 72 })
            } else {
                match seen.fresh {
                    Some(true) => Ok(head),
                    Some(false) => Err(OpenRefusal::NotBuilt { at: 80 }),
                    None => Err(OpenRefusal::Damaged { file: 0, at: 72 }),
                }
            }
        }
    }
}
