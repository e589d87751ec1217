// Bodies byte by byte, and bytes that are no commit's.
use crate::{RecordError, read_commit, settlement_body, write_commit};
use dkv_base::{Bytes, Commit, MsgId};
use std::alloc::Global;
use std::test::Fail;

fn again(alloc: Global, body: &[u8]) -> Result<Bytes, RecordError> {
    let commit = read_commit(alloc, body)?;
    Ok(write_commit(alloc, &commit)?)
}

// Caller 1 sets a key at moment 5; a write of nothing; an acknowledgement and a failure, with each byte of its own.
#[test]
fn a_body_of_each_kind_is_read_and_written_again(rt: HostRuntime) -> Result<(), Fail> {
    let rows: [&[u8]; 4] = [
        b"\x01\x01\x00\x00\x00\x05\x00\x00\x00\x00\x00\x00\x00\
          \x12\x0e\x0a\x03\x02a\x00\x12\x05\x0a\x01x\x10\x03\x18\x01",
        b"\x01\x07\x00\x00\x00\x00\x00\x00\x00\x00\x00\x00\x00",
        b"\x02\x02\x03\x04\x05\x06\x07\x08\x09\x0a\x0b\x0c\x0d\
          \x0e\x0f\x10\x11\x12\x13\x14\x15\x16\x17\x18\x19",
        b"\x03\x02\x03\x04\x05\x06\x07\x08\x09\x0a\x0b\x0c\x0d\
          \x0e\x0f\x10\x11\x12\x13\x14\x15\x16\x17\x18\x19",
    ];
    for body in rows {
        let got = again(rt.alloc(), body)?;
        assert_eq!(rt; got.as_slice(), body);
    }
    Ok(())
}

// Too short, a kind that there isn't, a write that isn't one or isn't in its canonical spelling, and a settlement that is a byte
// too short or too long.
#[test]
fn what_no_commit_is_written_as_is_refused(rt: HostRuntime) -> Result<(), Fail> {
    let rows: [&[u8]; 8] = [
        b"",
        b"\x01\x00\x00\x00\x00\x00\x00\x00\x00\x00\x00\x00",
        b"\x00\x00\x00\x00\x00\x00\x00\x00\x00\x00\x00\x00\x00",
        b"\x04\x02\x03\x04\x05\x06\x07\x08\x09\x0a\x0b\x0c\x0d\
          \x0e\x0f\x10\x11\x12\x13\x14\x15\x16\x17\x18\x19",
        b"\x01\x01\x00\x00\x00\x05\x00\x00\x00\x00\x00\x00\x00\x12\x0e",
        b"\x01\x01\x00\x00\x00\x05\x00\x00\x00\x00\x00\x00\x00\
          \x12\x10\x0a\x03\x02a\x00\x12\x03\x0a\x01x\x12\x02\x10\x03\x18\x01",
        b"\x02\x02\x03\x04\x05\x06\x07\x08\x09\x0a\x0b\x0c\x0d\
          \x0e\x0f\x10\x11\x12\x13\x14\x15\x16\x17\x18",
        b"\x03\x02\x03\x04\x05\x06\x07\x08\x09\x0a\x0b\x0c\x0d\
          \x0e\x0f\x10\x11\x12\x13\x14\x15\x16\x17\x18\x19\x00",
    ];
    for body in rows {
        assert_eq!(rt;
            again(rt.alloc(), body).err(),
            Some(RecordError::NotARecord)
        );
    }
    Ok(())
}

#[test]
fn a_settlement_needs_no_memory_for_its_body(rt: HostRuntime) -> Result<(), Fail> {
    let id = MsgId {
        commit: 0x0102,
        index: 3,
    };
    let acked = Commit::Acked {
        who: 7,
        at: 0x0908,
        id,
    };
    let want: [u8; 25] = *b"\x02\x07\x00\x00\x00\x08\x09\x00\x00\x00\x00\x00\x00\
        \x02\x01\x00\x00\x00\x00\x00\x00\x03\x00\x00\x00";
    assert_eq!(rt; settlement_body(&acked), want);
    Ok(())
}
