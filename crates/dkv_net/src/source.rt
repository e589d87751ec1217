// A source over a reader of std.
ghost use Rattle.std.specs.Prelude.{◌≡◌, ◌<◌, length, false};
ghost use Rattle.dkv_io.specs.Streams.{GotWithin, GotFrom, GotCause, StaysUntold, CountsFailed, is_end};

use crate::SteadyRead;
use dkv_io::{Got, Source, raised};

/// A source over a reader, such as the standard input. It tells what the reader has left, where the reader tells it.
#[derive(Drop)]
pub struct StdSource<R: SteadyRead + Drop> {
    /// What is read.
    pub reader: R,
    /// How often it failed. Stands still at the last `u64`.
    pub faults: u64,
    /// Whether the last read said End.
    pub ended: bool,
}

impl<R: SteadyRead + Drop> StdSource<R> {
    /// Nothing was read yet.
    pub fn new(reader: R) -> StdSource<R>
        ensures reader { result.reader ≡ reader }
        ensures left { ⟦<StdSource<R> as Source>⟧.left result ≡ R.remaining reader }
        ensures faults { ⟦<StdSource<R> as Source>⟧.faults result ≡ 0 }
        ensures ended { ⟦<StdSource<R> as Source>⟧.ended result ≡ false }
    {
        StdSource {
            reader,
            faults: 0,
            ended: false,
        }
    }
}

/// A read waits until there are bytes, or until the reader ends. Each error is a fault, and no error is an end.
impl<R: SteadyRead + Drop> Source for StdSource<R> {
    ghost left = { λ s. R.remaining s.reader };

    ghost faults = { λ s. s.faults };

    ghost ended = { λ s. s.ended };

    fn read(&mut self, into: &mut [u8]) -> Got
        requires { 0 < length into.old }
        ensures within { GotWithin result (length into.new) }
        ensures from { GotFrom (R.remaining self.old.reader) (R.remaining self.new.reader)
            result into.new }
        ensures untold { StaysUntold (R.remaining self.old.reader)
            (R.remaining self.new.reader) }
        ensures ended { self.new.ended ≡ is_end result }
        ensures cause { GotCause self.old.faults self.new.faults result }
        ensures count { CountsFailed self.old.faults self.new.faults result }
    {
        self.ended = false;
        match self.reader.read(into) {
            Ok(0) => {
                self.ended = true;
                Got::End
            }
            Ok(n) => Got::Bytes(n),
            Err(_) => {
                self.faults = raised(self.faults);
                Got::Failed
            }
        }
    }
}
