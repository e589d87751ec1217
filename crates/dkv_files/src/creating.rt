// The making of a new database in two files.
ghost use Rattle.std.specs.Prelude.{◌≡◌, ◌⊎◌, ◌∷◌, [], MatchResult, OnOk, Err, length};
ghost use Rattle.dkv_base.specs.State.{empty_state};
ghost use Rattle.dkv_io.specs.Causes.{HasCause, Rose};
ghost use Rattle.dkv_io.specs.Disks.{LeavesOnly, AtRest};
ghost use Rattle.dkv_journal.specs.declared.gates.TheConstants.{OPEN_GATE};
ghost use Rattle.dkv_journal.specs.Crashes.{WhereTold};
ghost use Rattle.dkv_files.specs.Crashes.{CreateMoves, StandsFor, WholeLeaves, WritesNothing, WhereBothTold, read};
ghost use Rattle.dkv_files.specs.Creating.{IsSomeOpen, IsUncreated, new_identity};
ghost use Rattle.dkv_files.specs.Filling.{behind_gate};
ghost use Rattle.dkv_files.specs.declared.creating.CreateRefusal.TheVariants as refusal;

use crate::head::spell_new;
use crate::pair::Pair;
use crate::rest::is_one_open;
use crate::whole::write_spelled;
use dkv_io::{Disk, Failed};
use dkv_queue::Queue;
use dkv_table::Blocks;
use std::alloc::Global;
use thiserror::Error;

/// Why no database was made.
#[derive(Clone, Copy, Debug, PartialEq, Eq, Error)]
pub enum CreateRefusal {
    /// A disk failed.
    #[error("a disk failed")]
    DiskFault,
    /// One of the files is open.
    #[error("a file is open")]
    Exists,
    /// The allocator had no room. Nothing was written.
    #[error("no memory")]
    NoMemory,
}

/// Makes the empty database of this identity in two files of which none is open. It syncs both and looks at their gates before it
/// writes file a. A crash leaves what was there, no database, or the empty one. Takes memory for 95 bytes, before anything is
/// written.
pub fn create<D: Disk>(
    alloc: Global,
    pair: &mut Pair<D>,
    id: [u8; 16],
    secret: [u8; 32],
) -> Result<(), CreateRefusal>
    ensures answer { WhereBothTold (D.seen pair.old.a) (D.seen pair.old.b) (λ fa fb.
        MatchResult result (λ _. IsSomeOpen fa fb → ⊥) (IsUncreated fa fb)) }
    // A crash leaves what was there, no database, or the empty one.
    ensures moves { WhereBothTold (D.seen pair.old.a) (D.seen pair.old.b) (λ _ _. CreateMoves
        D.may_leave D.moment D.left_since (new_identity id secret)
        pair.old.a pair.old.b pair.new.a pair.new.b) }
    ensures done { WhereBothTold (D.seen pair.old.a) (D.seen pair.old.b) (λ _ _. OnOk result
        (StandsFor read (D.may_leave pair.new.a) (D.may_leave pair.new.b)
        empty_state (new_identity id secret))) }
    ensures exists { result ≡ Err refusal.Exists → WritesNothing
        D.may_leave D.moment D.left_since pair.old.a pair.old.b pair.new.a pair.new.b }
    ensures unwritten { result ≡ Err refusal.NoMemory → WritesNothing
        D.may_leave D.moment D.left_since pair.old.a pair.old.b pair.new.a pair.new.b }
    ensures cause { result ≡ Err refusal.DiskFault
        → Rose (D.faults pair.old.a) (D.faults pair.new.a)
        ⊎ Rose (D.faults pair.old.b) (D.faults pair.new.b) }
{
    match is_one_open(pair) {
        Ok(false) => {}
        Ok(true) => return Err(CreateRefusal::Exists),
        Err(_) => return Err(CreateRefusal::DiskFault),
    }
    let Ok(front) = spell_new(alloc, id, secret) else {
        return Err(CreateRefusal::NoMemory);
    };
    match write_new(alloc, &mut pair.a, &front) {
        Ok(()) => Ok(()),
        Err(_) => Err(CreateRefusal::DiskFault),
    }
}

// Writes a whole file of no entry and no message behind a header that is spelled. Takes no memory.
fn write_new<D: Disk>(alloc: Global, disk: &mut D, front: &[u8]) -> Result<(), Failed>
    requires { length front.now ≡ 95 }
    ensures leaves { WhereTold (D.seen disk.old) (λ _. LeavesOnly
        D.moment D.left_since disk.old disk.new (WholeLeaves (D.may_leave disk.old)
        (OPEN_GATE ∷ behind_gate front.now [] []))) }
    ensures done { WhereTold (D.seen disk.old) (λ _. OnOk result (AtRest
        (D.seen disk.new) (D.may_leave disk.new) (OPEN_GATE ∷ behind_gate front.now [] []))) }
    ensures cause { HasCause (D.faults disk.old) (D.faults disk.new) result }
{
    let table = Blocks::new(alloc);
    let queue = Queue::new(alloc);
    match write_spelled(alloc, disk, front, &table, &queue) {
        Ok(_) => Ok(()),
        Err(_) => Err(Failed),
    }
}
