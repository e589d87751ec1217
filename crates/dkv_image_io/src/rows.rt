// Rows of items are read from a disk.
ghost use Rattle.std.specs.Prelude.{◌≡◌, ◌+◌, ◌-◌, ◌^◌, ◌<◌, ◌≤◌, ◌++◌, List, ℕ, length, IfOk, OnOk, Err, Some, None};
ghost use Rattle.std.specs.Option.{option_copied};
ghost use Rattle.dkv_io.specs.Causes.{Rose};
ghost use Rattle.dkv_image.specs.Image.{standing, row_at, counted_row};
ghost use Rattle.dkv_image_io.specs.Reading.{narrow, rest_in, end_in, IsEnough, IsFront, IsRow, IsEnd, OnlyReads};
ghost use Rattle.dkv_image_io.specs.declared.refusal.ImageRefusal.TheVariants as refusal;

use crate::ImageRefusal;
use crate::item::Item;
use crate::window::Window;
use dkv_base::{NoMemory, Run};
use dkv_io::Disk;
use std::alloc::Global;

// Takes the item at the front of what is held, if one stands there.
fn take_front<I: Item>(
    alloc: Global,
    window: &mut Window,
    before: Option<&I>,
    n: u64,
    now: u64,
) -> Result<Option<I>, NoMemory>
    ensures front { (rest : List ℕ) → IsEnough window.old.held rest → IfOk result (IsFront
        (standing (I.may_follow (narrow n now) (option_copied before.entry))
        (window.old.held ++ rest) (I.front (window.old.held ++ rest)))
        (window.old.held ++ rest) (window.new.held ++ rest)) }
    ensures fewer { length window.new.held ≤ length window.old.held }
    ensures place { window.old.place + (length window.old.held - length window.new.held) < 2 ^ 64
        → window.new.place
        ≡ window.old.place + (length window.old.held - length window.new.held) }
    ensures onward { window.old.place ≤ window.new.place }
    ensures left { window.new.left ≡ window.old.left }
{
    match I::read(alloc, window.held())? {
        Some((item, size)) => {
            if !item.follows(before, n, now) {
                return Ok(None);
            }
            window.take(size);
            Ok(Some(item))
        }
        None => Ok(None),
    }
}

// Takes the next item, if one stands there.
fn next_item<I: Item, D: Disk>(
    alloc: Global,
    disk: &mut D,
    window: &mut Window,
    before: Option<&I>,
    n: u64,
    now: u64,
) -> Result<Option<I>, ImageRefusal>
    ensures item { (file : List ℕ) → D.seen disk.old ≡ Some file
        → end_in file window.old < 2 ^ 64 → IfOk result (IsFront (standing
        (I.may_follow (narrow n now) (option_copied before.entry)) (rest_in file window.old)
        (I.front (rest_in file window.old))) (rest_in file window.old)
        (rest_in file window.new)) }
    ensures ends { (file : List ℕ) → D.seen disk.old ≡ Some file
        → end_in file window.old < 2 ^ 64
        → OnOk result (end_in file window.new ≡ end_in file window.old) }
    ensures onward { window.old.place ≤ window.new.place }
    ensures reads { OnlyReads D.seen D.may_leave D.moment D.left_since disk.old disk.new }
    ensures later { D.faults disk.old ≤ D.faults disk.new }
    ensures cause { result ≡ Err refusal.DiskFault
        → Rose (D.faults disk.old) (D.faults disk.new) }
    ensures stands { (place : ℕ) → result ≡ Err (refusal.Damaged place) → ⊥ }
{
    match window.fill(alloc, disk) {
        Ok(()) => {}
        Err(refusal) => return Err(refusal),
    }
    match take_front(alloc, window, before, n, now) {
        Ok(item) => Ok(item),
        Err(_) => Err(ImageRefusal::NoMemory),
    }
}

// Takes so many items.
fn read_items<I: Item, D: Disk>(
    alloc: Global,
    disk: &mut D,
    window: &mut Window,
    count: u64,
    n: u64,
    now: u64,
) -> Result<Run<I>, ImageRefusal>
    ensures row { (file : List ℕ) → D.seen disk.old ≡ Some file
        → end_in file window.old < 2 ^ 64 → IsRow
        (row_at I.front (I.may_follow (narrow n now)) None count (rest_in file window.old))
        (rest_in file window.new) window.old.place (end_in file window.old) result }
    ensures ends { (file : List ℕ) → D.seen disk.old ≡ Some file
        → end_in file window.old < 2 ^ 64
        → OnOk result (end_in file window.new ≡ end_in file window.old) }
    ensures onward { window.old.place ≤ window.new.place }
    ensures reads { OnlyReads D.seen D.may_leave D.moment D.left_since disk.old disk.new }
    ensures later { D.faults disk.old ≤ D.faults disk.new }
    ensures cause { result ≡ Err refusal.DiskFault
        → Rose (D.faults disk.old) (D.faults disk.new) }
{
    let mut items = Run::new(alloc);
    let mut left = count;
    while left > 0 {
        match next_item(alloc, disk, window, items.as_slice().last(), n, now) {
            Ok(Some(item)) => {
                if items.add(item).is_err() {
                    return Err(ImageRefusal::NoMemory);
                }
                left -= 1;
            }
            Ok(None) => return Err(ImageRefusal::Damaged { at: window.place() }),
            Err(refusal) => return Err(refusal),
        }
    }
    Ok(items)
}

// Takes a row with its number before it.
pub(crate) fn read_row<I: Item, D: Disk>(
    alloc: Global,
    disk: &mut D,
    window: &mut Window,
    n: u64,
    now: u64,
) -> Result<Run<I>, ImageRefusal>
    ensures row { (file : List ℕ) → D.seen disk.old ≡ Some file
        → end_in file window.old < 2 ^ 64 → IsRow
        (counted_row I.front (I.may_follow (narrow n now)) (rest_in file window.old))
        (rest_in file window.new) window.old.place (end_in file window.old) result }
    ensures ends { (file : List ℕ) → D.seen disk.old ≡ Some file
        → end_in file window.old < 2 ^ 64
        → OnOk result (end_in file window.new ≡ end_in file window.old) }
    ensures onward { window.old.place ≤ window.new.place }
    ensures reads { OnlyReads D.seen D.may_leave D.moment D.left_since disk.old disk.new }
    ensures later { D.faults disk.old ≤ D.faults disk.new }
    ensures cause { result ≡ Err refusal.DiskFault
        → Rose (D.faults disk.old) (D.faults disk.new) }
{
    match next_item::<u64, D>(alloc, disk, window, None, n, now) {
        Ok(Some(count)) => read_items(alloc, disk, window, count, n, now),
        Ok(None) => Err(ImageRefusal::Damaged { at: window.place() }),
        Err(refusal) => Err(refusal),
    }
}

// Looks whether nothing is left.
pub(crate) fn read_end<D: Disk>(
    alloc: Global,
    disk: &mut D,
    window: &mut Window,
) -> Result<(), ImageRefusal>
    ensures end { (file : List ℕ) → D.seen disk.old ≡ Some file
        → IsEnd (rest_in file window.old) window.old.place result }
    ensures reads { OnlyReads D.seen D.may_leave D.moment D.left_since disk.old disk.new }
    ensures later { D.faults disk.old ≤ D.faults disk.new }
    ensures cause { result ≡ Err refusal.DiskFault
        → Rose (D.faults disk.old) (D.faults disk.new) }
{
    match window.fill(alloc, disk) {
        Ok(()) => {}
        Err(refusal) => return Err(refusal),
    }
    if window.held().is_empty() {
        Ok(())
    } else {
        Err(ImageRefusal::Damaged { at: window.place() })
    }
}
