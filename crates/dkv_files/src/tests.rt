// Files byte by byte, a fault in each disk call that writes one, and headers that don't stand.
ghost use Rattle.std.specs.Prelude.{◌≡◌, ◌<◌, ◌^◌, ◌∷◌, [], pos, length, IfOk};

use crate::{
    CheckpointRefusal, CreateRefusal, FileHead, HeadState, Pair, create, is_new, read_head, renew,
    write_whole,
};
use dkv_base::{Bytes, Entry, NoMemory};
use dkv_io::MemoryDisk;
use dkv_queue::Queue;
use dkv_table::{Blocks, Table};
use std::alloc::{AllocError, Global};
use std::test::Fail;

// ---- a file of 113 bytes

const ID: [u8; 16] = [0, 0, 0, 0, 0, 0, 0x40, 0, 0x80, 0, 0, 0, 0, 0, 0, 0];

const FRONT: &[u8] = b"\xa5DKVFILE\x01\x00\x00\x00\x00\x00\x00\x00\x01\x00\x00\x00\x00\x00\x00\x00\
    \x00\x00\x00\x00\x00\x00\x40\x00\x80\x00\x00\x00\x00\x00\x00\x00";

// The new file, cut to a length.
fn file(alloc: Global, len: usize) -> Result<Vec<u8>, AllocError> {
    let mut bytes = FRONT.to_vec(alloc)?;
    bytes.resize(72, 0)?;
    bytes.extend_from_slice(&[16])?;
    bytes.resize(113, 0)?;
    bytes.truncate(len);
    Ok(bytes)
}

// The new file with one other byte.
fn spoilt(alloc: Global, place: usize, byte: u8) -> Result<Vec<u8>, AllocError> {
    let mut bytes = file(alloc, 113)?;
    if place < bytes.len() {
        bytes[place] = byte;
    }
    Ok(bytes)
}

fn disk(alloc: Global, bytes: Vec<u8>, fails: &[u64]) -> Result<MemoryDisk, AllocError>
    requires { length bytes.items < 2 ^ 63 }
{
    Ok(MemoryDisk::new(alloc, bytes, fails.to_vec(alloc)?))
}

// How a header stands: 0 shut, 1 open, 2 bad at a place.
fn standing(disk: &mut MemoryDisk) -> (u8, u64) {
    match read_head(disk) {
        Ok(HeadState::Shut) => (0, 0),
        Ok(HeadState::Stands { head, image }) => (1, head.generation.saturating_add(image)),
        Ok(HeadState::Bad { at }) => (2, at),
        Err(_) => (3, 0),
    }
}

#[test]
fn a_new_database_is_written_byte_by_byte(rt: HostRuntime) -> Result<(), Fail> {
    let a = disk(rt.alloc(), Vec::new(rt.alloc()), &[])?;
    let b = disk(rt.alloc(), Vec::new(rt.alloc()), &[])?;
    let mut pair = Pair { a, b };
    assert_eq!(rt; create(rt.alloc(), &mut pair, ID, [0; 32]), Ok(()));
    let want = file(rt.alloc(), 113)?;
    assert_eq!(rt; pair.a.bytes(), want.as_slice());
    assert_eq!(rt; pair.b.bytes().len(), 0);
    assert_eq!(rt;
        create(rt.alloc(), &mut pair, ID, [1; 32]),
        Err(CreateRefusal::Exists)
    );
    assert_eq!(rt; pair.a.bytes(), want.as_slice());
    Ok(())
}

// The disk call of file a that fails, what it holds then, and how its header stands: it had one byte before.
#[test]
fn a_fault_in_each_disk_call_leaves_no_database_or_the_new_one(
    rt: HostRuntime,
) -> Result<(), Fail> {
    let rows = [
        (0, 1, (0, 0)),
        (1, 1, (0, 0)),
        (2, 1, (0, 0)),
        (3, 0, (0, 0)),
        (4, 0, (0, 0)),
        (5, 1, (0, 0)),
        (6, 1, (0, 0)),
        (7, 96, (0, 0)),
        (8, 112, (0, 0)),
        (9, 113, (0, 0)),
        (10, 113, (0, 0)),
        (11, 113, (1, 17)),
    ];
    for (call, len, want) in rows {
        let a = disk(rt.alloc(), file(rt.alloc(), 1)?, &[call])?;
        let b = disk(rt.alloc(), Vec::new(rt.alloc()), &[])?;
        let mut pair = Pair { a, b };
        assert_eq!(rt;
            create(rt.alloc(), &mut pair, ID, [0; 32]),
            Err(CreateRefusal::DiskFault)
        );
        assert_eq!(rt; pair.a.bytes().len(), len);
        assert_eq!(rt; standing(&mut pair.a), want);
    }
    Ok(())
}

#[test]
fn a_header_is_bad_at_its_first_place_that_does_not_stand(rt: HostRuntime) -> Result<(), Fail> {
    let rows = [
        (113, 0, (1, 17)),
        (0, 0, (0, 0)),
        (1, 0, (2, 1)),
        (8, 2, (2, 8)),
        (12, 1, (2, 12)),
        (16, 0, (2, 16)),
        (23, 0x80, (2, 16)),
        (72, 17, (1, 18)),
        (87, 0x80, (2, 80)),
        (95, 1, (2, 88)),
    ];
    for (place, byte, want) in rows {
        let mut disk = disk(rt.alloc(), spoilt(rt.alloc(), place, byte)?, &[])?;
        assert_eq!(rt; standing(&mut disk), want);
    }
    Ok(())
}

#[test]
fn a_file_goes_on_as_a_new_one_or_is_cut(rt: HostRuntime) -> Result<(), Fail> {
    let rows = [(95, 0, None), (112, 1, None), (113, 1, Some(true))];
    for (len, open, want) in rows {
        let mut disk = disk(rt.alloc(), file(rt.alloc(), len)?, &[])?;
        assert_eq!(rt; standing(&mut disk).0, open);
        assert!(rt; is_new(&mut disk) == Ok(want));
    }
    let mut other = disk(rt.alloc(), spoilt(rt.alloc(), 111, 1)?, &[])?;
    assert!(rt; is_new(&mut other) == Ok(Some(false)));
    Ok(())
}

// ---- a file of 142 bytes, of an image of one entry

const ENTRY: &[u8] = b"\x01\x00\x00\x00\x00\x00\x00\x00\
    \x03\x00\x00\x00\x02a\x00\x03\x01\x00\x00\x00x\
    \x01\x00\x00\x00\x00\x00\x00\x00\x00\x00\x00\x00\x00\x00\x00\x00\
    \x00\x00\x00\x00\x00\x00\x00\x00";

// The file of generation 2, after commit 1 at the moment 5.
fn image_file(alloc: Global) -> Result<Vec<u8>, AllocError> {
    let mut bytes = FRONT.to_vec(alloc)?;
    bytes.resize(96, 0)?;
    bytes.extend_from_slice(ENTRY)?;
    bytes.extend_from_slice(&[0])?;
    if bytes.len() == 142 {
        bytes[16] = 2;
        bytes[72] = 45;
        bytes[80] = 1;
        bytes[88] = 5;
    }
    Ok(bytes)
}

// The entry `x` under the key 02 61 00, made by commit 1 and never ended.
fn one_entry(alloc: Global) -> Result<Blocks, NoMemory>
    ensures { IfOk result (λ t. ⟦<Blocks as Table>⟧.content t ≡ record {
      key = 2 ∷ 97 ∷ 0 ∷ [];
      bytes = 120 ∷ [];
      encoding = pos 3;
      commit = 1;
      expire = 0;
    } ∷ []) }
{
    let mut table = Blocks::new(alloc);
    table.reserve(1)?;
    let _none = table.put(Entry {
        key: Bytes::copy_of(alloc, &[2, 97, 0])?,
        bytes: Bytes::copy_of(alloc, &[120])?,
        encoding: 3,
        commit: 1,
        expire: 0,
    });
    Ok(table)
}

// Writes the file on a disk, and the place that is given; 1 for a fault and 2 for want of memory.
fn whole(alloc: Global, disk: &mut MemoryDisk) -> u64 {
    let Ok(table) = one_entry(alloc) else {
        return 2;
    };
    let queue = Queue::new(alloc);
    let head = FileHead {
        generation: 2,
        id: ID,
        secret: [0; 32],
        n: 1,
        now: 5,
    };
    match write_whole(alloc, disk, &head, &table, &queue) {
        Ok(place) => place,
        Err(CheckpointRefusal::DiskFault) => 1,
        Err(CheckpointRefusal::NoMemory) => 2,
    }
}

// The disk call that fails or is none: four of the clear, four of the fill, and two of the opening of the gate. Then the answer, how long
// the file is then, and how its header stands: it had two bytes before.
#[test]
fn a_fault_in_each_disk_call_leaves_no_file_or_the_whole_one(rt: HostRuntime) -> Result<(), Fail> {
    let rows = [
        (0, 1, 2, (0, 0)),
        (1, 1, 0, (0, 0)),
        (2, 1, 0, (0, 0)),
        (3, 1, 1, (0, 0)),
        (4, 1, 1, (0, 0)),
        (5, 1, 96, (0, 0)),
        (6, 1, 141, (0, 0)),
        (7, 1, 142, (0, 0)),
        (8, 1, 142, (0, 0)),
        (9, 1, 142, (1, 47)),
        (99, 141, 142, (1, 47)),
    ];
    for (call, answer, len, want) in rows {
        let mut disk = disk(rt.alloc(), file(rt.alloc(), 2)?, &[call])?;
        assert_eq!(rt; whole(rt.alloc(), &mut disk), answer);
        assert_eq!(rt; disk.bytes().len(), len);
        assert_eq!(rt; standing(&mut disk), want);
    }
    Ok(())
}

// Writes the file on the second disk of a pair, and the place that is given; 1 for a refusal.
fn renewed(alloc: Global, pair: &mut Pair<MemoryDisk>) -> u64 {
    let Ok(table) = one_entry(alloc) else {
        return 1;
    };
    let queue = Queue::new(alloc);
    let head = FileHead {
        generation: 2,
        id: ID,
        secret: [0; 32],
        n: 1,
        now: 5,
    };
    match renew(alloc, pair, true, &head, &table, &queue) {
        Ok(place) => place,
        Err(_) => 1,
    }
}

#[test]
fn the_file_that_is_not_used_is_written_byte_by_byte(rt: HostRuntime) -> Result<(), Fail> {
    let a = disk(rt.alloc(), file(rt.alloc(), 113)?, &[])?;
    let b = disk(rt.alloc(), file(rt.alloc(), 113)?, &[])?;
    let mut pair = Pair { a, b };
    assert_eq!(rt; renewed(rt.alloc(), &mut pair), 141);
    let used = file(rt.alloc(), 113)?;
    assert_eq!(rt; pair.a.bytes(), used.as_slice());
    let want = image_file(rt.alloc())?;
    assert_eq!(rt; pair.b.bytes(), want.as_slice());
    Ok(())
}
