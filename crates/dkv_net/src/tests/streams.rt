// What goes through the streams over memory, and over a file.
use crate::{StdSink, StdSource};
use dkv_io::{Got, Sink, Source};
use std::fs::File;
use std::test::Fail;
use std::{fs, io};

#[test]
fn a_source_over_bytes_gives_each_once_and_then_the_end(rt: HostRuntime) -> Result<(), Fail> {
    let mut source = StdSource::new(b"abc".as_slice());
    let mut buffer = [0; 2];
    for (got, held) in [
        (Got::Bytes(2), b"ab"),
        (Got::Bytes(1), b"cb"),
        (Got::End, b"cb"),
    ] {
        assert_eq!(rt; source.read(&mut buffer), got);
        assert_eq!(rt; buffer, *held);
    }
    Ok(())
}

#[test]
fn a_sink_over_a_vector_puts_each_write_behind_the_one_before(rt: HostRuntime) -> Result<(), Fail> {
    let mut bytes = Vec::new(rt.alloc());
    let mut sink = StdSink::new(&mut bytes);
    for piece in [b"ab".as_slice(), b"", b"cde"] {
        assert_eq!(rt; sink.write(piece), Ok(()));
    }
    drop(sink);
    assert_eq!(rt; bytes.as_slice(), b"abcde".as_slice());
    Ok(())
}

// A new file, to write and to read, which has no name any more.
fn new_file(rt: &HostRuntime) -> io::Result<(File, File)> {
    let path = "written_by_a_test_of_dkv_net";
    let to = File::create(rt, path)?;
    let from = File::open(rt, path)?;
    fs::remove_file(rt, path)?;
    Ok((to, from))
}

#[test]
fn what_a_sink_wrote_to_a_file_a_source_reads(rt: HostRuntime) -> Result<(), Fail> {
    let (to, from) = new_file(&rt)?;
    let mut sink = StdSink::new(to);
    let mut source = StdSource::new(from);
    let mut buffer = [0; 4];
    assert_eq!(rt; sink.write(b"abc"), Ok(()));
    assert_eq!(rt; source.read(&mut buffer), Got::Bytes(3));
    assert_eq!(rt; buffer, *b"abc\0");
    assert_eq!(rt; source.read(&mut buffer), Got::End);
    Ok(())
}
