// Gates, and the disk calls of an append and of a mend.
ghost use Rattle.std.specs.Prelude.{◌<◌, IsTrue, length, slice_set, OnOk};
ghost use Rattle.dkv_io.specs.Causes.{HasCause};
ghost use Rattle.dkv_io.specs.Disks.{LeavesFrom, Told, AnyBytes, AtRest};
ghost use Rattle.dkv_journal.specs.Records.{is_closed_at};
ghost use Rattle.dkv_journal.specs.Crashes.{WhereTold, EachImage, WithGate, StaysShut, with_behind};

use dkv_io::{Disk, Failed};

/// The byte of an open gate. A gate with any other byte is closed.
pub const OPEN_GATE: u8 = 0xA5;

/// The byte that is written for a closed gate.
pub const CLOSED_GATE: u8 = 0;

/// Writes one byte at a gate, and syncs. A crash may leave any byte there, and the rest as it was.
pub fn set_gate<D: Disk>(disk: &mut D, place: u64, gate: u8) -> Result<(), Failed>
    requires { EachImage (D.seen disk.old) (D.may_leave disk.old) (λ image. place < length image) }
    ensures leaves { WhereTold (D.seen disk.old) (λ _. LeavesFrom
        D.may_leave D.moment D.left_since disk.old disk.new (WithGate place)) }
    ensures done { WhereTold (D.seen disk.old) (λ file. OnOk result (AtRest
        (D.seen disk.new) (D.may_leave disk.new) (slice_set file place gate))) }
    ensures told { Told AnyBytes (D.seen disk.old) (D.seen disk.new) }
    ensures cause { HasCause (D.faults disk.old) (D.faults disk.new) result }
{
    disk.write_at(place, &[gate])?;
    disk.sync()
}

/// Writes bytes behind a closed gate, and syncs. A crash leaves the gate closed, and what stands before it as it was.
pub fn write_behind<D: Disk>(disk: &mut D, place: u64, bytes: &[u8]) -> Result<(), Failed>
    requires { EachImage (D.seen disk.old) (D.may_leave disk.old)
        (λ image. IsTrue (is_closed_at place image)) }
    ensures leaves { WhereTold (D.seen disk.old) (λ _. LeavesFrom
        D.may_leave D.moment D.left_since disk.old disk.new (StaysShut place)) }
    ensures done { WhereTold (D.seen disk.old) (λ file. OnOk result (AtRest
        (D.seen disk.new) (D.may_leave disk.new) (with_behind place bytes.now file))) }
    ensures told { Told AnyBytes (D.seen disk.old) (D.seen disk.new) }
    ensures cause { HasCause (D.faults disk.old) (D.faults disk.new) result }
{
    disk.write_at(place.saturating_add(1), bytes)?;
    disk.sync()
}
