// A file byte by byte, stops and faults in each disk call of an append, and damaged files.
ghost use Rattle.std.specs.Prelude.{IsTrue};
ghost use Rattle.dkv_io.specs.Memories.{content};
ghost use Rattle.dkv_journal.specs.Records.{is_closed_at};

use crate::{Journal, Laid, OPEN_GATE, ScanRefusal};
use dkv_base::NoMemory;
use dkv_base::limits::MAX_RECORD_BYTES;
use dkv_io::MemoryDisk;
use std::alloc::{AllocError, Global};
use std::test::Fail;

// ---- calls where they may be made

// Whether the gate is there and closed.
fn is_shut(disk: &MemoryDisk, place: u64) -> bool
    ensures { IsTrue result → IsTrue (is_closed_at place (content disk.now)) }
{
    match disk.bytes().get(place as usize) {
        Some(gate) => *gate != OPEN_GATE,
        None => false,
    }
}

// Lays a body out, where it isn't too long, in the place of another that is as long.
fn laid(alloc: Global, first: &[u8], body: &[u8]) -> Result<Laid, NoMemory> {
    if first.len() > MAX_RECORD_BYTES || first.len() != body.len() {
        return Err(NoMemory);
    }
    let mut laid = Journal::lay(alloc, first)?;
    Journal::at(0).refill(&mut laid, body);
    Ok(laid)
}

// Whether the record was added.
fn adds(disk: &mut MemoryDisk, journal: &mut Journal, laid: &Laid) -> bool {
    if journal.in_doubt || !is_shut(disk, journal.place) {
        return false;
    }
    journal.append(disk, laid).is_ok()
}

// Whether a gate in doubt was mended.
fn mends(disk: &mut MemoryDisk, journal: &mut Journal) -> bool {
    if !journal.in_doubt || journal.place >= disk.bytes().len() as u64 {
        return false;
    }
    journal.mend(disk).is_ok()
}

// How many records were found, and up to which gate, which is closed or not.
fn found(alloc: Global, disk: &mut MemoryDisk, place: u64) -> (usize, u64, bool) {
    match Journal::scan(alloc, disk, place) {
        Ok((bodies, journal)) => (bodies.len(), journal.place, true),
        Err(ScanRefusal::Damaged { at, before }) => (before.len(), at, false),
        Err(_) => (0, 0, false),
    }
}

// ---- a file of 113 bytes, and with a record of 147

const BODY: &[u8] = b"\x01\x01\x00\x00\x00\x05\x00\x00\x00\x00\x00\x00\x00\
    \x12\x0e\x0a\x03\x02a\x00\x12\x05\x0a\x01x\x10\x03\x18\x01";

const RECORD: &[u8] = b"\xa5\x1d\x00\x00\x00\x01\x01\x00\x00\x00\x05\x00\x00\x00\x00\x00\x00\x00\
    \x12\x0e\x0a\x03\x02a\x00\x12\x05\x0a\x01x\x10\x03\x18\x01\x00";

fn file(alloc: Global, len: usize) -> Result<Vec<u8>, AllocError> {
    let mut bytes = Vec::new(alloc);
    bytes.resize(112, 0)?;
    bytes.extend_from_slice(RECORD)?;
    bytes.truncate(len);
    Ok(bytes)
}

#[test]
fn a_record_is_written_byte_by_byte(rt: HostRuntime) -> Result<(), Fail> {
    let mut start = Vec::new(rt.alloc());
    start.resize(113, 0)?;
    let mut disk = MemoryDisk::new(rt.alloc(), start, Vec::new(rt.alloc()));
    let mut journal = Journal::at(112);
    let other = b"a body that has 29 bytes, too";
    let laid = laid(rt.alloc(), other, BODY)?;
    assert!(rt; adds(&mut disk, &mut journal, &laid));
    let want = file(rt.alloc(), 147)?;
    assert_eq!(rt; disk.bytes(), want.as_slice());
    assert_eq!(rt; journal, Journal::at(146));
    Ok(())
}

#[test]
fn a_file_that_is_cut_is_damaged_at_its_gate(rt: HostRuntime) -> Result<(), Fail> {
    let rows = [
        (147, (1, 146, true)),
        (146, (1, 146, false)),
        (145, (0, 112, false)),
        (130, (0, 112, false)),
        (113, (0, 112, false)),
        (112, (0, 112, false)),
        (0, (0, 112, false)),
    ];
    for (len, want) in rows {
        let bytes = file(rt.alloc(), len)?;
        let mut disk = MemoryDisk::new(rt.alloc(), bytes, Vec::new(rt.alloc()));
        assert_eq!(rt; found(rt.alloc(), &mut disk, 112), want);
    }
    Ok(())
}

// ---- stops and faults

// A record of `a`, and then `b` is added while one disk call fails: whether the gate is in doubt, and how many records a crash
// leaves. Mended, `a` alone is there; and then `c` is added behind it.
#[test]
fn a_stop_in_each_disk_call_leaves_the_records(rt: HostRuntime) -> Result<(), Fail> {
    let rows = [(0, false, 1), (1, false, 1), (2, true, 1), (3, true, 2)];
    for (call, doubt, records) in rows {
        let start = b"\xa5\x01\x00\x00\x00a\x00".to_vec(rt.alloc())?;
        let fails = [call].to_vec(rt.alloc())?;
        let mut disk = MemoryDisk::new(rt.alloc(), start, fails);
        let mut journal = Journal::at(6);
        let b = laid(rt.alloc(), b"b", b"b")?;
        assert!(rt; !adds(&mut disk, &mut journal, &b));
        assert_eq!(rt; journal.in_doubt, doubt);
        assert_eq!(rt; found(rt.alloc(), &mut disk, 0).0, records);
        assert_eq!(rt; mends(&mut disk, &mut journal), doubt);
        assert_eq!(rt; found(rt.alloc(), &mut disk, 0), (1, 6, true));
        let c = laid(rt.alloc(), b"c", b"c")?;
        assert!(rt; adds(&mut disk, &mut journal, &c));
        assert_eq!(rt;
            disk.bytes(),
            b"\xa5\x01\x00\x00\x00a\xa5\x01\x00\x00\x00c\x00".as_slice()
        );
    }
    Ok(())
}

// An append and then its mend fail at these calls: how many records a crash leaves then. Mended again, there is none.
#[test]
fn a_mend_that_fails_is_made_again(rt: HostRuntime) -> Result<(), Fail> {
    let rows = [([2, 3], 0), ([2, 4], 0), ([3, 4], 1), ([3, 5], 0)];
    for (calls, records) in rows {
        let start = b"\x00".to_vec(rt.alloc())?;
        let fails = calls.to_vec(rt.alloc())?;
        let mut disk = MemoryDisk::new(rt.alloc(), start, fails);
        let mut journal = Journal::at(0);
        let a = laid(rt.alloc(), b"a", b"a")?;
        assert!(rt; !adds(&mut disk, &mut journal, &a));
        assert!(rt; !mends(&mut disk, &mut journal));
        assert!(rt; journal.in_doubt);
        assert_eq!(rt;
            found(rt.alloc(), &mut disk, 0),
            (records, records as u64 * 6, true)
        );
        assert!(rt; mends(&mut disk, &mut journal));
        assert_eq!(rt; found(rt.alloc(), &mut disk, 0), (0, 0, true));
    }
    Ok(())
}
