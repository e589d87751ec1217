// Ids, and what is told of a database.
use dkv_app::{new_id, tell_created, tell_database};
use dkv_io::MemorySink;
use std::test::*;

#[test]
fn an_id_is_a_random_uuid_of_version_4(rt: HostRuntime) -> Result<(), Fail> {
    let alloc = rt.alloc();
    let ids: [([u8; 16], &[u8]); 2] = [
        ([0; 16], b"created 00000000-0000-4000-8000-000000000000\n"),
        ([255; 16], b"created ffffffff-ffff-4fff-bfff-ffffffffffff\n"),
    ];
    for (random, line) in ids {
        let mut sink = MemorySink::new(alloc, Vec::new(alloc));
        assert_eq!(rt; tell_created(&mut sink, new_id(random)), Ok(()));
        assert_eq!(rt; sink.bytes(), line);
    }
    Ok(())
}

#[test]
fn a_checked_database_is_told_in_three_lines(rt: HostRuntime) -> Result<(), Fail> {
    let mut sink = MemorySink::new(rt.alloc(), Vec::new(rt.alloc()));
    assert_eq!(rt; tell_database(&mut sink, new_id([0; 16]), 3, 2, 1), Ok(()));
    let lines = b"database 00000000-0000-4000-8000-000000000000\ncommits 3\nentries 2 messages 1\n";
    assert_eq!(rt; sink.bytes(), lines.as_slice());
    Ok(())
}
