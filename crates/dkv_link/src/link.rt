// A connection, of which bytes come and on which bytes go.
ghost use Rattle.std.specs.Prelude.{◌≡◌, ◌<◌, ℕ, Bool, List, length, OnOk, OnErr};
ghost use Rattle.std.specs.declared.option.Option.{Option};
ghost use Rattle.std.specs.Io.KnownBytes.{Appends};
ghost use Rattle.dkv_io.specs.Causes.{HasCause};
ghost use Rattle.dkv_io.specs.Streams.{AppendsFront, StaysUntold};
ghost use Rattle.dkv_link.specs.Links.{LinkWithin, LinkCause, given, is_last, quiet_after};

use dkv_io::Failed;

/// What a read of a link gave.
#[derive(Clone, Copy, Debug, PartialEq, Eq)]
pub enum LinkGot {
    /// So many bytes, from 1 on, at the front of the buffer.
    Bytes(usize),
    /// There are no more.
    End,
    /// Nothing came so far. A later read may go on.
    Quiet,
    /// Nothing, and nothing was taken. A later read may go on.
    Failed,
}

/// A connection: bytes come in order and go out in order. A link in memory tells both; a real one doesn't.
pub trait Link {
    /// The bytes that its reads gave, where they are told.
    ghost got: { Self → Option (List ℕ) };

    /// The bytes that its writes appended, where they are told.
    ghost sent: { Self → Option (List ℕ) };

    /// How often it failed. Never falls, and stands still at the last `u64`.
    ghost faults: { Self → ℕ };

    /// Whether the last read said End.
    ghost ended: { Self → Bool };

    /// How many reads in a row, up to the last, said Quiet. Stands still at the last `u64`.
    ghost quiet: { Self → ℕ };

    /// Takes the next bytes: at least one, and at most as many as there is room for. May sleep a while. `Failed` raises the
    /// count. Past the bytes that it got, the buffer may hold anything.
    fn read(&mut self, into: &mut [u8]) -> LinkGot
        requires { 0 < length into.old }
        ensures within { LinkWithin result (length into.new) }
        ensures gives { Appends (got self.old) (got self.new) (given result into.new) }
        ensures untold { StaysUntold (got self.old) (got self.new) }
        ensures sent { sent self.new ≡ sent self.old }
        ensures ended { ended self.new ≡ is_last result }
        ensures quiet { quiet self.new ≡ quiet_after (quiet self.old) result }
        ensures cause { LinkCause (faults self.old) (faults self.new) result };

    /// Appends all the bytes, or at `Err` some of them from the front on. May sleep a while.
    fn write(&mut self, bytes: &[u8]) -> Result<(), Failed>
        ensures all { OnOk result (Appends (sent self.old) (sent self.new) bytes.now) }
        ensures front { OnErr result (AppendsFront (sent self.old) (sent self.new) bytes.now) }
        ensures untold { StaysUntold (sent self.old) (sent self.new) }
        ensures got { got self.new ≡ got self.old }
        ensures ended { ended self.new ≡ ended self.old }
        ensures quiet { quiet self.new ≡ quiet self.old }
        ensures cause { HasCause (faults self.old) (faults self.new) result };
}
