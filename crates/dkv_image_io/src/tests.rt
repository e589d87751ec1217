// An image byte by byte, cut at each byte, damaged, and behind faults of the disk.
use crate::{ImageRefusal, image_len, read_image, write_image};
use dkv_io::MemoryDisk;
use dkv_queue::Queue;
use dkv_table::Plain;
use std::alloc::{AllocError, Global};
use std::test::Fail;

// The entry `x` under the key 02 61 00, made by commit 1 and never ended, and no message: 45 bytes.
const ENTRY: &[u8] = b"\x01\x00\x00\x00\x00\x00\x00\x00\
    \x03\x00\x00\x00\x02a\x00\x03\x01\x00\x00\x00x\
    \x01\x00\x00\x00\x00\x00\x00\x00\x00\x00\x00\x00\x00\x00\x00\x00\
    \x00\x00\x00\x00\x00\x00\x00\x00";

// No entry, and the message 1, 0 that is due at 9 and has a payload, a key and an interval: 62 bytes.
const MESSAGE: &[u8] = b"\x00\x00\x00\x00\x00\x00\x00\x00\
    \x01\x00\x00\x00\x00\x00\x00\x00\
    \x01\x00\x00\x00\x00\x00\x00\x00\x00\x00\x00\x00\
    \x09\x00\x00\x00\x00\x00\x00\x00\x00\x00\x00\x00\
    \x01\x00\x00\x00p\x01\x00\x00\x00\x01\x00\x00\x00k\x01\x00\x00\x00\x64\x00\x00\x00";

// A disk whose file has 96 zeros, the first bytes of an image and a zero, and that fails at these calls.
fn disk(
    alloc: Global,
    image: &[u8],
    len: usize,
    fails: Vec<u64>,
) -> Result<MemoryDisk, AllocError> {
    let mut bytes = Vec::new(alloc);
    bytes.resize(96, 0)?;
    bytes.extend_from_slice(image)?;
    bytes.truncate(96 + len.min(image.len()));
    bytes.extend_from_slice(&[0])?;
    Ok(MemoryDisk::new(alloc, bytes, fails))
}

// How many entries and messages are read of so many bytes from 96 on, or the damaged place; 1 for another refusal.
fn found(alloc: Global, disk: &mut MemoryDisk, len: u64, n: u64) -> (usize, usize, u64) {
    match read_image(alloc, disk, 96, len, n, 5) {
        Ok((entries, messages)) => (entries.len(), messages.len(), 0),
        Err(ImageRefusal::Damaged { at }) => (0, 0, at),
        Err(_) => (0, 0, 1),
    }
}

#[test]
fn each_cut_is_damaged_where_it_begins(rt: HostRuntime) -> Result<(), Fail> {
    for len in 0..45u64 {
        let mut disk = disk(rt.alloc(), ENTRY, 45, Vec::new(rt.alloc()))?;
        let want = match len {
            0..8 => 96,
            8..37 => 104,
            _ => 133,
        };
        assert_eq!(rt; found(rt.alloc(), &mut disk, len, 1), (0, 0, want), "{len}");
    }
    Ok(())
}

#[test]
fn what_no_image_has_is_damaged(rt: HostRuntime) -> Result<(), Fail> {
    // An image, the bytes of it that are there, the bytes that it is to have, the commit number, and what is found.
    let cases: [(&[u8], usize, u64, u64, (usize, usize, u64)); 7] = [
        (ENTRY, 45, 45, 1, (1, 0, 0)),
        (ENTRY, 45, 45, 0, (0, 0, 104)),
        (ENTRY, 45, 46, 1, (0, 0, 141)),
        (ENTRY, 44, 60, 1, (1, 0, 0)),
        (MESSAGE, 62, 62, 1, (0, 1, 0)),
        (MESSAGE, 62, 62, 0, (0, 0, 112)),
        (MESSAGE, 61, 61, 1, (0, 0, 112)),
    ];
    for (image, there, len, n, want) in cases {
        let mut disk = disk(rt.alloc(), image, there, Vec::new(rt.alloc()))?;
        assert_eq!(rt;
            found(rt.alloc(), &mut disk, len, n),
            want,
            "{len} of {there} after {n}"
        );
    }
    Ok(())
}

#[test]
fn a_read_that_fails_is_a_fault(rt: HostRuntime) -> Result<(), Fail> {
    let fails = Vec::from_slice(rt.alloc(), &[0])?;
    let mut disk = disk(rt.alloc(), ENTRY, 45, fails)?;
    assert_eq!(rt; found(rt.alloc(), &mut disk, 45, 1), (0, 0, 1));
    assert_eq!(rt; disk.plan.faults, 1);
    assert_eq!(rt; found(rt.alloc(), &mut disk, 45, 1), (1, 0, 0));
    Ok(())
}

// The length of the image of nothing, and what is written of it at place 1.
fn written(alloc: Global, disk: &mut MemoryDisk) -> (u64, Result<u64, ImageRefusal>) {
    let table = Plain::new(alloc);
    let queue = Queue::new(alloc);
    let len = image_len(&table, &queue);
    if disk.bytes().is_empty() {
        return (len, Ok(0));
    }
    (len, write_image(alloc, &table, &queue, disk, 1))
}

#[test]
fn nothing_is_written_as_two_counts(rt: HostRuntime) -> Result<(), Fail> {
    let start = Vec::from_slice(rt.alloc(), &[7, 7, 7])?;
    let mut disk = MemoryDisk::new(rt.alloc(), start, Vec::new(rt.alloc()));
    assert_eq!(rt; written(rt.alloc(), &mut disk), (16, Ok(16)));
    let mut want = Vec::from_slice(rt.alloc(), &[7])?;
    want.resize(17, 0)?;
    assert_eq!(rt; disk.bytes(), want.as_slice());
    Ok(())
}
