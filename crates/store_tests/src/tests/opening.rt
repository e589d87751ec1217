// Two files as they are opened: cut, spoilt, closed, and with records.
ghost use Rattle.std.specs.Prelude.{◌<◌, ◌^◌, length};

use dkv_files::{Pair, create};
use dkv_io::MemoryDisk;
use dkv_store::{OpenRefusal, open_store};
use std::alloc::{AllocError, Global};
use std::test::Fail;

// ---- files

const RECORD: &[u8] = b"\xa5\x1d\x00\x00\x00\x01\x01\x00\x00\x00\x05\x00\x00\x00\x00\x00\x00\x00\
    \x12\x0e\x0a\x03\x02a\x00\x12\x05\x0a\x01x\x10\x03\x18\x01\x00";

// A record that settles a message which isn't there.
const SETTLED: &[u8] = b"\xa5\x19\x00\x00\x00\x02\x01\x00\x00\x00\x05\x00\x00\x00\x00\x00\x00\x00\
    \x01\x00\x00\x00\x00\x00\x00\x00\x00\x00\x00\x00\x00";

fn disk(alloc: Global, bytes: Vec<u8>) -> MemoryDisk
    requires { length bytes.items < 2 ^ 63 }
{
    MemoryDisk::new(alloc, bytes, Vec::new(alloc))
}

// File a of a new database, cut to a length, with these records in the place of its last gate.
fn file(alloc: Global, len: usize, records: &[u8]) -> Result<Vec<u8>, AllocError> {
    let mut pair = Pair {
        a: disk(alloc, Vec::new(alloc)),
        b: disk(alloc, Vec::new(alloc)),
    };
    let _created = create(alloc, &mut pair, [7; 16], [0; 32]);
    let mut bytes = pair.a.bytes().to_vec(alloc)?;
    bytes.truncate(len);
    bytes.extend_from_slice(records)?;
    Ok(bytes)
}

// What opening answers: 0 with the counts of commits and entries, 1 no database, 2 damaged with the file and place, 3 not built
// with the place.
fn opened(alloc: Global, a: Vec<u8>, b: Vec<u8>) -> (u8, u64, u64)
    requires a_short { length a.items < 2 ^ 63 }
    requires b_short { length b.items < 2 ^ 63 }
{
    let pair = Pair {
        a: disk(alloc, a),
        b: disk(alloc, b),
    };
    match open_store(alloc, pair, 0) {
        Ok(store) => {
            let counts = store.counts();
            let _pair = store.close();
            (0, counts.commits, counts.entries)
        }
        Err((OpenRefusal::NoDatabase, _)) => (1, 0, 0),
        Err((OpenRefusal::Damaged { file, at }, _)) => (2, u64::from(file), at),
        Err((OpenRefusal::NotBuilt { at }, _)) => (3, at, 0),
        Err((OpenRefusal::DiskFault, _)) => (4, 0, 0),
        Err((OpenRefusal::NoMemory, _)) => (5, 0, 0),
    }
}

#[test]
fn a_file_that_is_cut_is_no_database_or_damaged(rt: HostRuntime) -> Result<(), Fail> {
    let rows = [
        (0, (1, 0, 0)),
        (1, (1, 0, 0)),
        (95, (1, 0, 0)),
        (96, (2, 0, 72)),
        (112, (2, 0, 72)),
        (113, (0, 0, 0)),
    ];
    for (len, want) in rows {
        let bytes = file(rt.alloc(), len, b"")?;
        assert_eq!(rt; opened(rt.alloc(), bytes, Vec::new(rt.alloc())), want);
    }
    Ok(())
}

#[test]
fn a_record_is_made_again_or_damaged(rt: HostRuntime) -> Result<(), Fail> {
    let rows = [(147, (0, 1, 1)), (146, (2, 0, 146)), (145, (2, 0, 112))];
    for (len, want) in rows {
        let mut bytes = file(rt.alloc(), 112, RECORD)?;
        bytes.truncate(len);
        assert_eq!(rt; opened(rt.alloc(), bytes, Vec::new(rt.alloc())), want);
    }
    let bytes = file(rt.alloc(), 112, SETTLED)?;
    assert_eq!(rt;
        opened(rt.alloc(), bytes, Vec::new(rt.alloc())),
        (2, 0, 112)
    );
    Ok(())
}

#[test]
fn what_is_not_built_yet_is_refused_at_its_place(rt: HostRuntime) -> Result<(), Fail> {
    let rows = [
        (72, (3, 72, 0)),
        (80, (3, 80, 0)),
        (111, (3, 80, 0)),
        (8, (2, 0, 8)),
    ];
    for (place, want) in rows {
        let mut bytes = file(rt.alloc(), 113, b"")?;
        if place < bytes.len() {
            bytes[place] = 3;
        }
        assert_eq!(rt; opened(rt.alloc(), bytes, Vec::new(rt.alloc())), want);
    }
    let open = file(rt.alloc(), 113, b"")?;
    let other = file(rt.alloc(), 113, b"")?;
    assert_eq!(rt; opened(rt.alloc(), open, other), (3, 0, 0));
    Ok(())
}

// A record behind a gate that is closed, with another byte at a place.
fn behind_a_closed_gate(alloc: Global, place: usize) -> Result<Vec<u8>, AllocError> {
    let mut bytes = file(alloc, 112, RECORD)?;
    if bytes.len() > 112 {
        bytes[112] = 0;
    }
    if place < bytes.len() {
        bytes[place] = 0xa5;
    }
    Ok(bytes)
}

// Until its gate is written, whatever stands behind it: what was written so far, or a byte that is another.
#[test]
fn a_record_behind_a_closed_gate_is_none(rt: HostRuntime) -> Result<(), Fail> {
    for place in 113..147 {
        let torn = behind_a_closed_gate(rt.alloc(), place)?;
        assert_eq!(rt; opened(rt.alloc(), torn, Vec::new(rt.alloc())), (0, 0, 0));
        let mut cut = behind_a_closed_gate(rt.alloc(), place)?;
        cut.truncate(place);
        assert_eq!(rt; opened(rt.alloc(), cut, Vec::new(rt.alloc())), (0, 0, 0));
    }
    Ok(())
}
