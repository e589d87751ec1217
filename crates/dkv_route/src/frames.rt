// The frames of a watch, as chunks of its response.
ghost use Rattle.std.specs.Prelude.{◌≡◌, ◌<◌, ◌^◌, IfOk, length};
ghost use Rattle.dkv_msgs.specs.Outputs.{entry_output, key_frame_output, frame_output};
ghost use Rattle.dkv_route.specs.Answers.{frame_message, frame_bytes, frame_chunk};

use dkv_base::{Bytes, Entry, Frame, KeyFrame, NoMemory, Run, TryCopy};
use dkv_http::write_chunk;
use dkv_key::stamp_of;
use dkv_msgs::{KvEntry, WatchKeyOutput, WatchOutput, write_watch_output};
use dkv_wire::Out;
use std::alloc::Global;

fn entry_output(alloc: Global, entry: &Entry) -> Result<KvEntry, NoMemory>
    ensures { IfOk result (λ told. told ≡ entry_output entry.now) }
{
    Ok(KvEntry {
        key: entry.key.copy(alloc)?,
        value: entry.bytes.copy(alloc)?,
        encoding: entry.encoding,
        versionstamp: Bytes::copy_of(alloc, &stamp_of(entry.commit))?,
    })
}

fn key_output(alloc: Global, key: &KeyFrame) -> Result<WatchKeyOutput, NoMemory>
    ensures { IfOk result (λ told. told ≡ key_frame_output key.now) }
{
    let entry = match &key.entry {
        Some(entry) => Some(entry_output(alloc, entry)?),
        None => None,
    };
    Ok(WatchKeyOutput {
        changed: key.changed,
        entry,
    })
}

fn frame_output(alloc: Global, frame: &Frame) -> Result<WatchOutput, NoMemory>
    ensures { IfOk result (λ told. told ≡ frame_output frame.now) }
{
    let mut keys = Run::new(alloc);
    for key in frame.keys.as_slice() {
        keys.add(key_output(alloc, key)?)?;
    }
    Ok(WatchOutput { status: 1, keys })
}

fn frame_message(alloc: Global, frame: &Frame) -> Result<Bytes, NoMemory>
    ensures { IfOk result (λ bytes. bytes ≡ frame_message frame.now) }
{
    write_watch_output(alloc, &frame_output(alloc, frame)?)
}

fn frame_bytes(alloc: Global, frame: &Frame) -> Result<Bytes, NoMemory>
    requires { length (frame_message frame.now) < 2 ^ 32 }
    ensures { IfOk result (λ bytes. bytes ≡ frame_bytes frame.now) }
{
    let message = frame_message(alloc, frame)?;
    let length = message.len() as u32;
    Bytes::joined(alloc, &length.to_le_bytes(), message.as_slice())
}

/// A frame as one chunk. Takes memory for it, and for a copy of its entries.
pub(crate) fn frame_chunk(alloc: Global, frame: &Frame) -> Result<Bytes, NoMemory>
    requires { length (frame_message frame.now) < 2 ^ 32 }
    ensures { IfOk result (λ bytes. bytes ≡ frame_chunk frame.now) }
{
    let bytes = frame_bytes(alloc, frame)?;
    let mut out = Out::new(alloc);
    out.reserve(bytes.len() + 20)?;
    write_chunk(bytes.as_slice(), &mut out);
    Ok(out.finish())
}
