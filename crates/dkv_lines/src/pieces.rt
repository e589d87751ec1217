// Several pieces of bytes, written one behind the other.
ghost use Rattle.std.specs.Prelude.{OnOk, OnErr};
ghost use Rattle.std.specs.List.{flat_map};
ghost use Rattle.std.specs.Io.KnownBytes.{Appends};
ghost use Rattle.dkv_io.specs.Causes.{HasCause};
ghost use Rattle.dkv_io.specs.Streams.{AppendsFront};

use dkv_io::{Failed, Sink};

/// Writes the pieces, without memory.
pub fn write_pieces<K: Sink>(sink: &mut K, pieces: &[&[u8]]) -> Result<(), Failed>
    ensures all { OnOk result (Appends (K.held sink.old) (K.held sink.new)
        (flat_map (λ piece. piece.now) pieces.now)) }
    ensures front { OnErr result (AppendsFront (K.held sink.old) (K.held sink.new)
        (flat_map (λ piece. piece.now) pieces.now)) }
    ensures cause { HasCause (K.faults sink.old) (K.faults sink.new) result }
{
    for piece in pieces {
        if let Err(failed) = sink.write(piece) {
            return Err(failed);
        }
    }
    Ok(())
}
