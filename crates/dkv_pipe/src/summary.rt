// The three lines that a run writes in place of its replies, where a summary is wanted.
ghost use Rattle.std.specs.Prelude.{OnOk, OnErr};
ghost use Rattle.std.specs.Io.KnownBytes.{Appends};
ghost use Rattle.dkv_io.specs.Causes.{HasCause};
ghost use Rattle.dkv_io.specs.Streams.{AppendsFront};
ghost use Rattle.dkv_pipe.specs.Pipe.{counted_lines};

use dkv_io::{Failed, Sink};
use dkv_lines::write_pieces;
use dkv_store::Counts;
use itoa::Buffer;

/// Writes how many frames were answered, and how much the store has. Takes no memory.
pub(crate) fn write_summary<K: Sink>(
    sink: &mut K,
    frames: u64,
    counts: &Counts,
) -> Result<(), Failed>
    ensures all { OnOk result (Appends (K.held sink.old) (K.held sink.new)
        (counted_lines frames counts.now.commits counts.now.entries counts.now.messages)) }
    ensures front { OnErr result (AppendsFront (K.held sink.old) (K.held sink.new)
        (counted_lines frames counts.now.commits counts.now.entries counts.now.messages)) }
    ensures cause { HasCause (K.faults sink.old) (K.faults sink.new) result }
{
    let mut first = Buffer::new();
    let mut second = Buffer::new();
    let mut third = Buffer::new();
    let mut fourth = Buffer::new();
    write_pieces(
        sink,
        &[
            b"frames ",
            first.format(frames).as_bytes(),
            b"\ncommits ",
            second.format(counts.commits).as_bytes(),
            b"\nentries ",
            third.format(counts.entries).as_bytes(),
            b" messages ",
            fourth.format(counts.messages).as_bytes(),
            b"\n",
        ],
    )
}
