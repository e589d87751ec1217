// The spelling of an image on its way to a disk, in pieces.
ghost use Rattle.std.specs.Prelude.{◌≡◌, ◌<◌, ◌≤◌, ◌++◌, [], List, ℕ, length, OnOk, Err, Some};
ghost use Rattle.dkv_io.specs.Causes.{Rose};
ghost use Rattle.dkv_io.specs.Disks.{WithinTold};
ghost use Rattle.dkv_image_io.specs.Writing.{Writes, IsUnderWay};
ghost use Rattle.dkv_image_io.specs.declared.refusal.ImageRefusal.TheVariants as refusal;

use crate::ImageRefusal;
use dkv_io::Disk;
use std::alloc::Global;
use std::mem;

/// How many bytes each write of an image has, but the last.
pub const PIECE_BYTES: usize = 65_536;

// What of an image is spelled and not written, and the place of the file where it is to stand.
#[derive(Drop)]
pub(crate) struct Pieces {
    pub(crate) place: u64,
    pub(crate) held: Vec<u8>,
}

impl Pieces {
    pub(crate) fn at(alloc: Global, place: u64) -> Pieces
        ensures place { result.place ≡ place }
        ensures held { result.held.items ≡ [] }
    {
        Pieces {
            place,
            held: Vec::new(alloc),
        }
    }

    // Writes the bytes that are held in the place, and goes on behind them.
    pub(crate) fn write_held<D: Disk>(&mut self, disk: &mut D) -> Result<(), ImageRefusal>
        requires within { WithinTold (D.seen disk.old) self.old.place }
        ensures way { (start : ℕ) (file spelled : List ℕ) → IsUnderWay
            start file spelled (D.seen disk.old) self.old.place self.old.held.items
            → OnOk result (IsUnderWay
            start file spelled (D.seen disk.new) self.new.place []) }
        ensures within { OnOk result (WithinTold (D.seen disk.new) self.new.place) }
        ensures onward { self.old.place ≤ self.new.place }
        ensures same { self.new.held ≡ self.old.held }
        ensures writes { Writes D.seen D.may_leave D.moment D.left_since D.faults
            self.old.place disk.old disk.new }
        ensures cause { result ≡ Err refusal.DiskFault
            → Rose (D.faults disk.old) (D.faults disk.new) }
        ensures stands { (at : ℕ) → result ≡ Err (refusal.Damaged at) → ⊥ }
    {
        match disk.write_at(self.place, &self.held) {
            Ok(()) => {
                self.place = self.place.saturating_add(self.held.len() as u64);
                Ok(())
            }
            Err(_) => Err(ImageRefusal::DiskFault),
        }
    }

    // Writes the first piece of what is held.
    pub(crate) fn write_piece<D: Disk>(&mut self, disk: &mut D) -> Result<(), ImageRefusal>
        requires within { WithinTold (D.seen disk.old) self.old.place }
        requires full { PIECE_BYTES ≤ length self.old.held.items }
        ensures way { (start : ℕ) (file spelled : List ℕ) → IsUnderWay
            start file spelled (D.seen disk.old) self.old.place self.old.held.items
            → OnOk result (IsUnderWay
            start file spelled (D.seen disk.new) self.new.place self.new.held.items) }
        ensures within { OnOk result (WithinTold (D.seen disk.new) self.new.place) }
        ensures onward { self.old.place ≤ self.new.place }
        ensures fewer { OnOk result (length self.new.held.items < length self.old.held.items) }
        ensures writes { Writes D.seen D.may_leave D.moment D.left_since D.faults
            self.old.place disk.old disk.new }
        ensures cause { result ≡ Err refusal.DiskFault
            → Rose (D.faults disk.old) (D.faults disk.new) }
        ensures stands { (at : ℕ) → result ≡ Err (refusal.Damaged at) → ⊥ }
    {
        let Ok(rest) = self.held.split_off(PIECE_BYTES) else {
            return Err(ImageRefusal::NoMemory);
        };
        match self.write_held(disk) {
            Ok(()) => {
                self.held = rest;
                Ok(())
            }
            Err(refusal) => Err(refusal),
        }
    }

    // Writes each whole piece of what is held.
    pub(crate) fn write_full<D: Disk>(&mut self, disk: &mut D) -> Result<(), ImageRefusal>
        requires within { WithinTold (D.seen disk.old) self.old.place }
        ensures way { (start : ℕ) (file spelled : List ℕ) → IsUnderWay
            start file spelled (D.seen disk.old) self.old.place self.old.held.items
            → OnOk result (IsUnderWay
            start file spelled (D.seen disk.new) self.new.place self.new.held.items) }
        ensures within { OnOk result (WithinTold (D.seen disk.new) self.new.place) }
        ensures onward { self.old.place ≤ self.new.place }
        ensures writes { Writes D.seen D.may_leave D.moment D.left_since D.faults
            self.old.place disk.old disk.new }
        ensures cause { result ≡ Err refusal.DiskFault
            → Rose (D.faults disk.old) (D.faults disk.new) }
        ensures stands { (at : ℕ) → result ≡ Err (refusal.Damaged at) → ⊥ }
    {
        while self.held.len() >= PIECE_BYTES {
            match self.write_piece(disk) {
                Ok(()) => {}
                Err(refusal) => return Err(refusal),
            }
        }
        Ok(())
    }
}
