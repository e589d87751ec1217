// The bytes of an image on their way from a disk.
ghost use Rattle.std.specs.Prelude.{◌≡◌, ◌+◌, ◌-◌, ◌^◌, ◌<◌, ◌≤◌, [], ◌++◌, List, ℕ, length, take, drop, IfOk, OnOk, Err, Some};
ghost use Rattle.dkv_io.specs.Causes.{Rose};
ghost use Rattle.dkv_image_io.specs.Reading.{behind, rest_in, IsEnough, OnlyReads};
ghost use Rattle.dkv_image_io.specs.declared.refusal.ImageRefusal.TheVariants as refusal;

use crate::ImageRefusal;
use dkv_base::NoMemory;
use dkv_io::Disk;
use std::alloc::Global;
use std::marker::Model;

// As many bytes as an entry or a message of the narrow profile may take, and more.
pub(crate) const MOST_ITEM_BYTES: usize = 131_072;

// The bytes of an image that were read and not taken, their place, and how many more there may be.
#[derive(Drop)]
pub(crate) struct Window {
    bytes: Vec<u8>,
    // How many of them were taken.
    taken: usize,
    // The place in the file of the first that wasn't.
    place: u64,
    // How many more may be read.
    left: u64,
}

impl Model for Window {
    ghost use Rattle.std.specs.Prelude.{length, drop, ◌≤◌};
    ghost use Rattle.dkv_image_io.specs.Reading.{Sight};

    ghost Value = { Sight };

    ghost view = { λ w. record { held = drop w.taken w.bytes.items; place = w.place; left = w.left } };

    ghost invariant = { λ w. w.taken ≤ length w.bytes.items };
}

// Reads so many bytes, or as many as there are.
fn read_piece<D: Disk>(
    alloc: Global,
    disk: &mut D,
    at: u64,
    most: usize,
) -> Result<Vec<u8>, ImageRefusal>
    ensures piece { (file : List ℕ) → D.seen disk.old ≡ Some file
        → IfOk result (λ piece. piece.items ≡ take most (drop at file)) }
    ensures most { IfOk result (λ piece. length piece.items ≤ most) }
    ensures reads { OnlyReads D.seen D.may_leave D.moment D.left_since disk.old disk.new }
    ensures later { D.faults disk.old ≤ D.faults disk.new }
    ensures cause { result ≡ Err refusal.DiskFault
        → Rose (D.faults disk.old) (D.faults disk.new) }
    ensures stands { (place : ℕ) → result ≡ Err (refusal.Damaged place) → ⊥ }
{
    let mut bytes = Vec::new(alloc);
    if bytes.resize(most, 0).is_err() {
        return Err(ImageRefusal::NoMemory);
    }
    match disk.read(at, &mut bytes) {
        Ok(count) => {
            bytes.truncate(count);
            Ok(bytes)
        }
        Err(_) => Err(ImageRefusal::DiskFault),
    }
}

impl Window {
    // Over the bytes from a place of the file on, of which there may be so many.
    pub(crate) fn over(alloc: Global, place: u64, left: u64) -> Window
        ensures held { result.held ≡ [] }
        ensures place { result.place ≡ place }
        ensures left { result.left ≡ left }
    {
        Window {
            bytes: Vec::new(alloc),
            taken: 0,
            place,
            left,
        }
    }

    pub(crate) fn place(&self) -> u64
        ensures { result ≡ self.now.place }
    {
        self.place
    }

    // What was read and not taken.
    pub(crate) fn held(&self) -> &[u8]
        ensures { result.now ≡ self.now.held }
    {
        &self.bytes[self.taken..]
    }

    // Takes bytes from the front.
    pub(crate) fn take(&mut self, count: usize)
        requires { count ≤ length self.old.held }
        ensures held { self.new.held ≡ drop count self.old.held }
        ensures place { self.old.place + count < 2 ^ 64
            → self.new.place ≡ self.old.place + count }
        ensures onward { self.old.place ≤ self.new.place }
        ensures left { self.new.left ≡ self.old.left }
    {
        self.taken += count;
        self.place = self.place.saturating_add(count as u64);
    }

    // Puts bytes that were read behind those that are held.
    fn add(&mut self, alloc: Global, piece: &[u8]) -> Result<(), NoMemory>
        requires { length piece.now ≤ self.old.left }
        ensures held { OnOk result (self.new.held ≡ self.old.held ++ piece.now) }
        ensures left { OnOk result (self.new.left ≡ self.old.left - length piece.now) }
        ensures place { self.new.place ≡ self.old.place }
    {
        let mut bytes = Vec::from_slice(alloc, self.held())?;
        bytes.extend_from_slice(piece)?;
        self.bytes = bytes;
        self.taken = 0;
        self.left -= piece.len() as u64;
        Ok(())
    }

    // Reads on, until as many bytes are held as an item may take, or all of them.
    pub(crate) fn fill<D: Disk>(&mut self, alloc: Global, disk: &mut D) -> Result<(), ImageRefusal>
        ensures same { (file : List ℕ) → D.seen disk.old ≡ Some file
            → OnOk result (rest_in file self.new ≡ rest_in file self.old) }
        ensures full { (file : List ℕ) → D.seen disk.old ≡ Some file
            → OnOk result (IsEnough self.new.held (behind file self.new)) }
        ensures place { self.new.place ≡ self.old.place }
        ensures reads { OnlyReads D.seen D.may_leave D.moment D.left_since disk.old disk.new }
        ensures later { D.faults disk.old ≤ D.faults disk.new }
        ensures cause { result ≡ Err refusal.DiskFault
            → Rose (D.faults disk.old) (D.faults disk.new) }
        ensures stands { (place : ℕ) → result ≡ Err (refusal.Damaged place) → ⊥ }
    {
        let held = self.held().len();
        if held >= MOST_ITEM_BYTES {
            return Ok(());
        }
        let most = self.left.min(MOST_ITEM_BYTES as u64) as usize;
        match read_piece(alloc, disk, self.place.saturating_add(held as u64), most) {
            Ok(piece) => match self.add(alloc, &piece) {
                Ok(()) => Ok(()),
                Err(_) => Err(ImageRefusal::NoMemory),
            },
            Err(refusal) => Err(refusal),
        }
    }
}
