// A sink over a writer of std.
ghost use Rattle.std.specs.Prelude.{◌≡◌, OnOk, OnErr};
ghost use Rattle.std.specs.Io.KnownBytes.{Appends};
ghost use Rattle.dkv_io.specs.Causes.{CountsErr, HasCause};
ghost use Rattle.dkv_io.specs.Streams.{AppendsFront, StaysUntold};

use crate::SteadyWrite;
use dkv_io::{Failed, Sink, raised};
use std::io::ErrorKind;

/// A sink over a writer, such as the standard output. It tells what the writer holds, where the writer tells it.
#[derive(Drop)]
pub struct StdSink<W: SteadyWrite + Drop> {
    /// Where it writes.
    pub writer: W,
    /// How often it failed. Stands still at the last `u64`.
    pub faults: u64,
}

impl<W: SteadyWrite + Drop> StdSink<W> {
    /// Nothing was written yet.
    pub fn new(writer: W) -> StdSink<W>
        ensures writer { result.writer ≡ writer }
        ensures held { ⟦<StdSink<W> as Sink>⟧.held result ≡ W.contents writer }
        ensures faults { ⟦<StdSink<W> as Sink>⟧.faults result ≡ 0 }
    {
        StdSink { writer, faults: 0 }
    }
}

// Hands all bytes to the writer, and flushes it. A write that was interrupted is tried again.
fn put<W: SteadyWrite>(writer: &mut W, bytes: &[u8]) -> Result<(), Failed>
    ensures all { OnOk result (Appends (W.contents writer.old) (W.contents writer.new) bytes.now) }
    ensures front { OnErr result
        (AppendsFront (W.contents writer.old) (W.contents writer.new) bytes.now) }
{
    let mut at = 0;
    for _ in 0..u64::MAX {
        if at >= bytes.len() {
            return match writer.flush() {
                Ok(()) => Ok(()),
                Err(_) => Err(Failed),
            };
        }
        match writer.write(&bytes[at..]) {
            Ok(0) => return Err(Failed),
            Ok(n) => at += n,
            Err(e) => {
                if e.kind() != ErrorKind::Interrupted {
                    return Err(Failed);
                }
            }
        }
    }
    Err(Failed)
}

/// A write hands all bytes to the writer, and flushes it, before it says Ok. Each error is a fault.
impl<W: SteadyWrite + Drop> Sink for StdSink<W> {
    ghost held = { λ s. W.contents s.writer };

    ghost faults = { λ s. s.faults };

    fn write(&mut self, bytes: &[u8]) -> Result<(), Failed>
        ensures all { OnOk result
            (Appends (W.contents self.old.writer) (W.contents self.new.writer) bytes.now) }
        ensures front { OnErr result
            (AppendsFront (W.contents self.old.writer) (W.contents self.new.writer) bytes.now) }
        ensures untold { StaysUntold (W.contents self.old.writer)
            (W.contents self.new.writer) }
        ensures cause { HasCause self.old.faults self.new.faults result }
        ensures count { CountsErr self.old.faults self.new.faults result }
    {
        match put(&mut self.writer, bytes) {
            Ok(()) => Ok(()),
            Err(Failed) => {
                self.faults = raised(self.faults);
                Err(Failed)
            }
        }
    }
}
