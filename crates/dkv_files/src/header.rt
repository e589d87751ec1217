// The header of a file, as it is read.
ghost use Rattle.std.specs.Prelude.{◌≡◌, ◌==◌, ◌+◌, ◌≤◌, length, take, IfOk};
ghost use Rattle.std.specs.Int.{w32, w64};
ghost use Rattle.std.specs.List.{list_all};
ghost use Rattle.dkv_base.specs.Profiles.{known_first};
ghost use Rattle.dkv_io.specs.Causes.{HasCause};
ghost use Rattle.dkv_image_io.specs.Reading.{OnlyReads};
ghost use Rattle.dkv_journal.specs.Crashes.{WhereTold};
ghost use Rattle.dkv_files.specs.Files.{number_in, number_fault as number_fault_of, head_of};
ghost use Rattle.dkv_files.specs.Reading.{IsHeadState, IsNewOrCut};

use crate::head::FileHead;
use dkv_base::MAX_MOMENT;
use dkv_io::{Disk, Failed};
use dkv_journal::OPEN_GATE;

/// How the header of a file stands. Places count bytes from the file's start.
#[derive(Clone, Copy, Debug, PartialEq, Eq)]
pub enum HeadState {
    /// The file isn't open.
    Shut,
    /// It is open, and its header stands, but for the image's length, which was not looked at.
    Stands { head: FileHead, image: u64 },
    /// It is open, and this is the first place that doesn't stand, without the image's length: 1, 8, 12, 16, 80 or 88.
    Bad { at: u64 },
}

/// Reads the header of a file of the first format and the narrow profile. Writes nothing, and takes no memory.
pub fn read_head<D: Disk>(disk: &mut D) -> Result<HeadState, Failed>
    ensures head { WhereTold (D.seen disk.old) (λ file. IfOk result (IsHeadState file)) }
    ensures reads { OnlyReads D.seen D.may_leave D.moment D.left_since disk.old disk.new }
    ensures cause { HasCause (D.faults disk.old) (D.faults disk.new) result }
{
    let mut front = [0; 96];
    match disk.read(0, &mut front) {
        Ok(96) => Ok(state_of(&front)),
        Ok(_) => Ok(HeadState::Shut),
        Err(failed) => Err(failed),
    }
}

/// Whether an open file's number, moment and image are zeros, as in a file that was created. None where the file ends before a byte
/// stands behind an empty image. Writes nothing, and takes no memory.
pub fn is_new<D: Disk>(disk: &mut D) -> Result<Option<bool>, Failed>
    ensures new { WhereTold (D.seen disk.old) (λ file. IfOk result (IsNewOrCut file)) }
    ensures reads { OnlyReads D.seen D.may_leave D.moment D.left_since disk.old disk.new }
    ensures cause { HasCause (D.faults disk.old) (D.faults disk.new) result }
{
    let mut part = [0; 33];
    match disk.read(80, &mut part) {
        Ok(33) => Ok(Some(are_zeros(&part))),
        Ok(_) => Ok(None),
        Err(failed) => Err(failed),
    }
}

// Whether the first 32 bytes are zeros.
fn are_zeros(part: &[u8]) -> bool
    requires { length part.now ≡ 33 }
    ensures { result ≡ list_all (λ byte. byte == 0) (take 32 part.now) }
{
    let (zeros, _last) = part.split_at(32);
    zeros.iter().all(|byte| *byte == 0)
}

// How a header stands whose 96 bytes are these, with the gate.
fn state_of(front: &[u8]) -> HeadState
    requires { length front.now ≡ 96 }
    ensures { IsHeadState front.now result }
{
    if front[0] != OPEN_GATE {
        return HeadState::Shut;
    }
    match number_fault(front) {
        Some(at) => HeadState::Bad { at },
        None => HeadState::Stands {
            head: numbers(front),
            image: number_8(front, 72),
        },
    }
}

// The first place that doesn't stand, without the image's length.
fn number_fault(front: &[u8]) -> Option<u64>
    requires { length front.now ≡ 96 }
    ensures { result ≡ number_fault_of known_first front.now }
{
    let mark: &[u8] = b"DKVFILE";
    let generation = number_8(front, 16);
    if &front[1..8] != mark {
        Some(1)
    } else if number_4(front, 8) != 1 {
        Some(8)
    } else if number_4(front, 12) != 0 {
        Some(12)
    } else if generation < 1 || generation >= 1 << 63 {
        Some(16)
    } else if number_8(front, 80) >= 1 << 63 {
        Some(80)
    } else if number_8(front, 88) > MAX_MOMENT {
        Some(88)
    } else {
        None
    }
}

fn numbers(front: &[u8]) -> FileHead
    requires { length front.now ≡ 96 }
    ensures { result ≡ head_of front.now }
{
    let mut id = [0; 16];
    id.copy_from_slice(&front[24..40]);
    let mut secret = [0; 32];
    secret.copy_from_slice(&front[40..72]);
    FileHead {
        generation: number_8(front, 16),
        id,
        secret,
        n: number_8(front, 80),
        now: number_8(front, 88),
    }
}

// Four bytes from a place on, least first.
fn number_4(front: &[u8], at: usize) -> u32
    requires { at + 4 ≤ length front.now }
    ensures { result ≡ number_in w32 at front.now }
{
    let part = &front[at..at + 4];
    u32::from_le_bytes([part[0], part[1], part[2], part[3]])
}

// Eight bytes from a place on, least first.
fn number_8(front: &[u8], at: usize) -> u64
    requires { at + 8 ≤ length front.now }
    ensures { result ≡ number_in w64 at front.now }
{
    let part = &front[at..at + 8];
    u64::from_le_bytes([
        part[0], part[1], part[2], part[3], part[4], part[5], part[6], part[7],
    ])
}
