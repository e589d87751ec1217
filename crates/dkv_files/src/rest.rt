// Two files are brought to rest before they are read.
ghost use Rattle.std.specs.Prelude.{◌≡◌, ◌⊎◌, ◌≤◌, ◌||◌, OnOk, OnErr, IfOk};
ghost use Rattle.dkv_io.specs.Causes.{HasCause, Rose};
ghost use Rattle.dkv_io.specs.Disks.{LeavesOnly, NoMore, OnlyTold, AtRest};
ghost use Rattle.dkv_journal.specs.Crashes.{WhereTold};
ghost use Rattle.dkv_files.specs.Crashes.{WritesNothing, WhereBothTold};
ghost use Rattle.dkv_files.specs.Files.{is_open as is_open_file};

use crate::gate::is_open;
use crate::pair::Pair;
use dkv_io::{Disk, Failed};

/// Syncs. After `Ok` a crash leaves what is read and nothing else.
pub fn bring_to_rest<D: Disk>(disk: &mut D) -> Result<(), Failed>
    ensures durable { OnOk result (OnlyTold (D.seen disk.old) (D.may_leave disk.new)) }
    ensures seen { D.seen disk.new ≡ D.seen disk.old }
    ensures crash { NoMore (D.may_leave disk.old) (D.may_leave disk.new) }
    ensures leaves { LeavesOnly D.moment D.left_since disk.old disk.new (D.may_leave disk.old) }
    ensures cause { HasCause (D.faults disk.old) (D.faults disk.new) result }
{
    disk.sync()
}

/// Brings both to rest, and writes nothing.
pub fn both_to_rest<D: Disk>(pair: &mut Pair<D>) -> Result<(), Failed>
    ensures moves { WritesNothing D.may_leave D.moment D.left_since
        pair.old.a pair.old.b pair.new.a pair.new.b }
    ensures seen { (D.seen pair.new.a ≡ D.seen pair.old.a)
        × (D.seen pair.new.b ≡ D.seen pair.old.b) }
    ensures durable { OnOk result (OnlyTold (D.seen pair.old.a) (D.may_leave pair.new.a)
        × OnlyTold (D.seen pair.old.b) (D.may_leave pair.new.b)) }
    ensures crash { NoMore (D.may_leave pair.old.a) (D.may_leave pair.new.a)
        × NoMore (D.may_leave pair.old.b) (D.may_leave pair.new.b) }
    ensures later { (D.faults pair.old.a ≤ D.faults pair.new.a)
        × (D.faults pair.old.b ≤ D.faults pair.new.b) }
    ensures cause { OnErr result (Rose (D.faults pair.old.a) (D.faults pair.new.a)
        ⊎ Rose (D.faults pair.old.b) (D.faults pair.new.b)) }
{
    match bring_to_rest(&mut pair.a) {
        Ok(()) => bring_to_rest(&mut pair.b),
        Err(failed) => Err(failed),
    }
}

/// Brings both to rest, and says whether one of them is open. Writes nothing, and takes no memory.
pub fn is_one_open<D: Disk>(pair: &mut Pair<D>) -> Result<bool, Failed>
    ensures open { WhereBothTold (D.seen pair.old.a) (D.seen pair.old.b)
        (λ fa fb. IfOk result (λ is. is ≡ (is_open_file fa || is_open_file fb))) }
    ensures moves { WritesNothing D.may_leave D.moment D.left_since
        pair.old.a pair.old.b pair.new.a pair.new.b }
    ensures rest_a { OnOk result (WhereTold (D.seen pair.old.a) (λ fa. AtRest
        (D.seen pair.new.a) (D.may_leave pair.new.a) fa)) }
    ensures rest_b { OnOk result (WhereTold (D.seen pair.old.b) (λ fb. AtRest
        (D.seen pair.new.b) (D.may_leave pair.new.b) fb)) }
    ensures later { (D.faults pair.old.a ≤ D.faults pair.new.a)
        × (D.faults pair.old.b ≤ D.faults pair.new.b) }
    ensures cause { OnErr result (Rose (D.faults pair.old.a) (D.faults pair.new.a)
        ⊎ Rose (D.faults pair.old.b) (D.faults pair.new.b)) }
{
    match both_to_rest(pair) {
        Ok(()) => {}
        Err(failed) => return Err(failed),
    }
    match is_open(&mut pair.a) {
        Ok(true) => Ok(true),
        Ok(false) => is_open(&mut pair.b),
        Err(failed) => Err(failed),
    }
}
