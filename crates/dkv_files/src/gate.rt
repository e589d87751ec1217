// The gate of a file: whether it is open, and how it is opened.
ghost use Rattle.std.specs.Prelude.{◌≡◌, ◌<◌, length, OnOk, IfOk};
ghost use Rattle.dkv_io.specs.Causes.{HasCause};
ghost use Rattle.dkv_io.specs.Disks.{LeavesOnly, AtRest, Told, AnyBytes};
ghost use Rattle.dkv_image_io.specs.Reading.{OnlyReads};
ghost use Rattle.dkv_journal.specs.Crashes.{WhereTold};
ghost use Rattle.dkv_files.specs.Crashes.{GateLeaves};
ghost use Rattle.dkv_files.specs.Files.{with_open_gate, is_open as is_open_file};

use dkv_io::{Disk, Failed};
use dkv_journal::{OPEN_GATE, set_gate};

/// Whether a file is open. Writes nothing, and takes no memory.
pub fn is_open<D: Disk>(disk: &mut D) -> Result<bool, Failed>
    ensures open { WhereTold (D.seen disk.old) (λ file. IfOk result
        (λ is. is ≡ is_open_file file)) }
    ensures reads { OnlyReads D.seen D.may_leave D.moment D.left_since disk.old disk.new }
    ensures cause { HasCause (D.faults disk.old) (D.faults disk.new) result }
{
    let mut front = [0; 96];
    match disk.read(0, &mut front) {
        Ok(count) => Ok(count == 96 && front[0] == OPEN_GATE),
        Err(failed) => Err(failed),
    }
}

/// Opens the gate of a file that is at rest and isn't empty. Takes no memory.
pub fn open_gate<D: Disk>(disk: &mut D) -> Result<(), Failed>
    requires { WhereTold (D.seen disk.old) (λ file. AtRest
        (D.seen disk.old) (D.may_leave disk.old) file × (0 < length file)) }
    ensures leaves { WhereTold (D.seen disk.old) (λ file. LeavesOnly
        D.moment D.left_since disk.old disk.new (GateLeaves file)) }
    ensures done { WhereTold (D.seen disk.old) (λ file. OnOk result (AtRest
        (D.seen disk.new) (D.may_leave disk.new) (with_open_gate file))) }
    ensures told { Told AnyBytes (D.seen disk.old) (D.seen disk.new) }
    ensures cause { HasCause (D.faults disk.old) (D.faults disk.new) result }
{
    set_gate(disk, 0, OPEN_GATE)
}
