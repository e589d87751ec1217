// What the objects in memory give and keep at the calls that fail, and behind them.
use crate::{
    Clock, Disk, Failed, Got, ListClock, ListRandom, MemoryDisk, MemorySink, MemorySource, Random,
    Sink, Source,
};
use std::test::Fail;

#[test]
fn a_source_that_fails_at_its_second_read_goes_on_after_it(rt: HostRuntime) -> Result<(), Fail> {
    let bytes = b"abcde".to_vec(rt.alloc())?;
    let mut source = MemorySource::new(bytes, [1].to_vec(rt.alloc())?);
    let reads = [
        (Got::Bytes(2), b"ab"),
        (Got::Failed, b"ab"),
        (Got::Bytes(2), b"cd"),
        (Got::Bytes(1), b"ed"),
        (Got::End, b"ed"),
    ];
    let mut buffer = [0; 2];
    for (got, left) in reads {
        assert_eq!(rt; source.read(&mut buffer), got);
        assert_eq!(rt; buffer, *left);
    }
    Ok(())
}

#[test]
fn a_write_that_fails_adds_nothing(rt: HostRuntime) -> Result<(), Fail> {
    let mut sink = MemorySink::new(rt.alloc(), [1].to_vec(rt.alloc())?);
    assert_eq!(rt; sink.write(b"ab"), Ok(()));
    assert_eq!(rt; sink.write(b"cd"), Err(Failed));
    assert_eq!(rt; sink.write(b"ef"), Ok(()));
    assert_eq!(rt; sink.bytes(), b"abef".as_slice());
    Ok(())
}

#[test]
fn a_fill_that_fails_keeps_its_bytes(rt: HostRuntime) -> Result<(), Fail> {
    let mut random = ListRandom::new(b"abc".to_vec(rt.alloc())?, [1].to_vec(rt.alloc())?);
    let mut two = [0; 2];
    assert_eq!(rt; random.fill(&mut two), Ok(()));
    assert_eq!(rt; two, *b"ab");
    let mut one = [0; 1];
    assert_eq!(rt; random.fill(&mut one), Err(Failed));
    assert_eq!(rt; random.fill(&mut two), Err(Failed));
    assert_eq!(rt; random.fill(&mut one), Ok(()));
    assert_eq!(rt; one, *b"c");
    Ok(())
}

#[test]
fn a_clock_at_its_end_gives_its_last_moment_again(rt: HostRuntime) -> Result<(), Fail> {
    let moments = [5, 9].to_vec(rt.alloc())?;
    assert_eq!(rt; moments.len(), 2);
    let clock = ListClock::new(moments);
    for moment in [5, 9, 9, 9] {
        assert_eq!(rt; clock.now(), moment);
    }
    Ok(())
}

#[test]
fn a_disk_holds_what_its_calls_left(rt: HostRuntime) -> Result<(), Fail> {
    let mut disk = MemoryDisk::new(rt.alloc(), Vec::new(rt.alloc()), [1, 7].to_vec(rt.alloc())?);
    assert_eq!(rt; disk.write_at(0, b"abcd"), Ok(()));
    assert_eq!(rt; disk.write_at(4, b"lost"), Err(Failed));
    assert!(rt; disk.bytes().len() >= 3);
    assert_eq!(rt; disk.write_at(3, b"xyz"), Ok(()));
    assert!(rt; disk.bytes().len() >= 5);
    assert_eq!(rt; disk.cut(5), Ok(()));
    assert_eq!(rt; disk.sync(), Ok(()));
    assert_eq!(rt; disk.len(), Ok(5));
    let mut buffer = [0; 3];
    assert_eq!(rt; disk.read(3, &mut buffer), Ok(2));
    assert_eq!(rt; buffer, *b"xy\0");
    assert_eq!(rt; disk.sync(), Err(Failed));
    assert_eq!(rt; disk.bytes(), b"abcxy".as_slice());
    Ok(())
}
