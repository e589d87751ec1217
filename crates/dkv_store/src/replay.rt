// The records of a file are made again, one after the other, in an empty core.
ghost use Rattle.std.specs.Prelude.{◌≡◌, ◌<◌, ◌≤◌, ◌^◌, Err, IfOk};
ghost use Rattle.dkv_io.specs.Causes.{Rose};
ghost use Rattle.dkv_io.specs.Disks.{LeavesOnly};
ghost use Rattle.dkv_journal.specs.Crashes.{WhereTold};
ghost use Rattle.dkv_journal.specs.Records.{first_layout, place_after};
ghost use Rattle.dkv_store.specs.Opening.{IsReplay, IsRead, IsMadeOf, first_place};
ghost use Rattle.dkv_store.specs.declared.replay.Unmade.TheVariants as unmade;

use crate::again::remake;
use dkv_base::{Bytes, NoMemory};
use dkv_core::Core;
use dkv_io::Disk;
use dkv_journal::{Journal, ScanRefusal};
use std::alloc::Global;

// The place of the first gate behind the header and an empty image, in bytes.
pub(crate) const FIRST_GATE: u64 = 112;

// Why the records were not made again.
#[derive(Clone, Copy)]
pub(crate) enum Unmade {
    DiskFault,
    // At this gate the record doesn't stand, or its commit may not be made.
    Damaged { at: u64 },
    NoMemory,
}

// Reads the records of a file from the first gate on, and makes their commits. Writes nothing. Takes memory for the records and as
// the commits did.
pub(crate) fn read_records<D: Disk>(alloc: Global, disk: &mut D) -> Result<(Core, Journal), Unmade>
    ensures read { WhereTold (D.seen disk.old) (λ file. IsRead file result) }
    ensures made { IfOk result (λ x. IsMadeOf x.0 x.1) }
    ensures seen { D.seen disk.new ≡ D.seen disk.old }
    ensures leaves { LeavesOnly D.moment D.left_since disk.old disk.new (D.may_leave disk.old) }
    ensures later { D.faults disk.old ≤ D.faults disk.new }
    ensures cause { result ≡ Err unmade.DiskFault → Rose (D.faults disk.old) (D.faults disk.new) }
{
    match Journal::scan(alloc, disk, FIRST_GATE) {
        Ok((bodies, journal)) => match replay(alloc, bodies.as_slice()) {
            Ok(core) => Ok((core, journal)),
            Err(unmade) => Err(unmade),
        },
        Err(ScanRefusal::Damaged { at, before }) => match replay(alloc, before.as_slice()) {
            Ok(_core) => Err(Unmade::Damaged { at }),
            Err(unmade) => Err(unmade),
        },
        Err(ScanRefusal::DiskFault) => Err(Unmade::DiskFault),
        Err(ScanRefusal::NoMemory) => Err(Unmade::NoMemory),
    }
}

// Makes the commits of these bodies, the records of which stand one after the other from the first gate on.
fn replay(alloc: Global, bodies: &[Bytes]) -> Result<Core, Unmade>
    requires { place_after first_layout first_place bodies.now < 2 ^ 64 }
    ensures made { IsReplay bodies.now result }
    ensures disk { result ≡ Err unmade.DiskFault → ⊥ }
{
    let mut core = match Core::empty(alloc) {
        Ok(core) => core,
        Err(_) => return Err(Unmade::NoMemory),
    };
    let mut at = FIRST_GATE;
    for body in bodies {
        match remake(alloc, &mut core, body.as_slice()) {
            Ok(true) => at += 5 + body.len() as u64,
            Ok(false) => return Err(Unmade::Damaged { at }),
            Err(NoMemory) => return Err(Unmade::NoMemory),
        }
    }
    Ok(core)
}
