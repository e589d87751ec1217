// A file is cleared.
ghost use Rattle.std.specs.Prelude.{◌≡◌, OnOk, Some};
ghost use Rattle.dkv_io.specs.Causes.{HasCause};
ghost use Rattle.dkv_io.specs.Disks.{LeavesOnly, Only, Told, AnyBytes};
ghost use Rattle.dkv_journal.specs.Crashes.{WhereTold};
ghost use Rattle.dkv_files.specs.Crashes.{ClearLeaves, cleared};

use dkv_io::{Disk, Failed};
use dkv_journal::CLOSED_GATE;

/// Cuts to nothing and writes a closed gate. Takes no memory.
pub fn clear<D: Disk>(disk: &mut D) -> Result<(), Failed>
    ensures leaves { WhereTold (D.seen disk.old) (λ _. LeavesOnly
        D.moment D.left_since disk.old disk.new (ClearLeaves (D.may_leave disk.old))) }
    ensures done { WhereTold (D.seen disk.old) (λ _. OnOk result
        (Only cleared (D.may_leave disk.new))) }
    ensures reads { WhereTold (D.seen disk.old) (λ _. OnOk result
        (D.seen disk.new ≡ Some cleared)) }
    ensures told { Told AnyBytes (D.seen disk.old) (D.seen disk.new) }
    ensures cause { HasCause (D.faults disk.old) (D.faults disk.new) result }
{
    disk.cut(0)?;
    disk.sync()?;
    disk.write_at(0, &[CLOSED_GATE])?;
    disk.sync()
}
