// A reply frame: a short front, which takes no memory, and what is behind it as it was found.
ghost use Rattle.std.specs.Prelude.{◌≡◌, ◌++◌, ◌≤◌, length, OnOk, OnErr};
ghost use Rattle.std.specs.Io.KnownBytes.{Appends};
ghost use Rattle.dkv_io.specs.Causes.{HasCause};
ghost use Rattle.dkv_io.specs.Streams.{AppendsFront};
ghost use Rattle.dkv_pipe.specs.ReplyFrames.{reply_bytes};

use crate::reply_status::ReplyStatus;
use crate::sizes::{MAX_FRONT_BYTES, STATUS_END};
use dkv_base::Bytes;
use dkv_io::{Failed, Sink};
use std::marker::Model;

/// A reply frame, which contracts see as its bytes.
#[derive(Drop)]
pub(crate) struct Reply {
    front: [u8; STATUS_END + MAX_FRONT_BYTES],
    len: usize,
    tail: Bytes,
}

impl Model for Reply {
    ghost use Rattle.std.specs.Prelude.{List, ℕ, ◌+◌, ◌++◌, ◌≤◌, take};
    ghost use Rattle.dkv_pipe.specs.declared.sizes.TheConstants.{MAX_FRONT_BYTES, STATUS_END};

    ghost Value = { List ℕ };

    ghost view = { λ r. take r.len r.front ++ r.tail };

    ghost invariant = { λ r. r.len ≤ STATUS_END + MAX_FRONT_BYTES };
}

impl Reply {
    ghost use Rattle.dkv_pipe.specs.declared.sizes.TheConstants.{MAX_FRONT_BYTES};

    /// The length of what follows in four bytes, the status, and a body of these two parts. Takes no
    /// memory.
    pub(crate) fn of(status: ReplyStatus, start: &[u8], tail: Bytes) -> Reply
        requires { length start.now ≤ MAX_FRONT_BYTES }
        ensures { result ≡ reply_bytes status (start.now ++ tail) }
    {
        let [a, b, c, d, ..] = (start.len() as u64 + tail.len() as u64 + 1).to_le_bytes();
        let len = STATUS_END + start.len();
        let mut front = [0; STATUS_END + MAX_FRONT_BYTES];
        front[..STATUS_END].copy_from_slice(&[a, b, c, d, status.code()]);
        front[STATUS_END..len].copy_from_slice(start);
        Reply { front, len, tail }
    }

    /// Writes all of it, or at `Err` a front. May wait.
    pub(crate) fn write_to<K: Sink>(&self, sink: &mut K) -> Result<(), Failed>
        ensures all { OnOk result (Appends (K.held sink.old) (K.held sink.new) self.now) }
        ensures part { OnErr result (AppendsFront (K.held sink.old) (K.held sink.new) self.now) }
        ensures cause { HasCause (K.faults sink.old) (K.faults sink.new) result }
    {
        match sink.write(&self.front[..self.len]) {
            Ok(()) => {}
            Err(failed) => return Err(failed),
        }
        if self.tail.is_empty() {
            return Ok(());
        }
        sink.write(self.tail.as_slice())
    }
}
