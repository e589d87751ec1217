// The frame of a step.
ghost use Rattle.std.specs.Prelude.{◌≡◌, ◌++◌, IfOk, OnOk};
ghost use Rattle.dkv_generate.specs.Frames.{kind_of, body_of, IsShort, frame_bytes, head_bytes};

use crate::sizes::{ACKNOWLEDGE, FAIL, HEAD_BYTES, POLL, READ, TAKE, WATCH, WRITE};
use dkv_base::{Ask, Bytes, NoMemory, Step};
use dkv_msgs::{SnapshotRead, Watch, write_atomic_write, write_snapshot_read, write_watch};
use std::alloc::Global;

// The code of what is asked.
fn kind_of(ask: &Ask) -> u8
    ensures { result ≡ kind_of ask.now }
{
    match ask {
        Ask::Read(_) => READ,
        Ask::Write(_) => WRITE,
        Ask::Watch(_) => WATCH,
        Ask::Poll => POLL,
        Ask::Take => TAKE,
        Ask::Settle { id: _, done: true } => ACKNOWLEDGE,
        Ask::Settle { id: _, done: false } => FAIL,
    }
}

// The body that says the rest.
fn body_of(alloc: Global, ask: Ask) -> Result<Bytes, NoMemory>
    ensures { IfOk result (λ body. body ≡ body_of ask) }
{
    match ask {
        Ask::Read(ranges) => write_snapshot_read(alloc, &SnapshotRead { ranges }),
        Ask::Write(write) => write_atomic_write(alloc, &write),
        Ask::Watch(keys) => write_watch(alloc, &Watch { keys }),
        Ask::Poll | Ask::Take => Bytes::copy_of(alloc, &[]),
        Ask::Settle { id, done: _ } => Bytes::joined(
            alloc,
            &id.commit.to_le_bytes(),
            &id.index.to_le_bytes(),
        ),
    }
}

// What stands before a body.
fn head(len: u32, caller: u32, moment: u64, kind: u8) -> [u8; 17]
    ensures { result ≡ head_bytes len caller moment kind }
{
    let l = len.to_le_bytes();
    let c = caller.to_le_bytes();
    let m = moment.to_le_bytes();
    [
        l[0], l[1], l[2], l[3], c[0], c[1], c[2], c[3], m[0], m[1], m[2], m[3], m[4], m[5], m[6],
        m[7], kind,
    ]
}

/// Appends the frame of a step. Takes memory for its body, and where the bytes have no room for it.
pub(crate) fn put_frame(alloc: Global, out: &mut Vec<u8>, step: Step) -> Result<(), NoMemory>
    requires { IsShort step.ask }
    ensures { OnOk result (out.new.items ≡ out.old.items ++ frame_bytes step) }
{
    let kind = kind_of(&step.ask);
    let body = body_of(alloc, step.ask)?;
    let len = (body.len() + HEAD_BYTES) as u32;
    out.extend_from_slice(&head(len, step.who, step.at, kind))?;
    out.extend_from_slice(body.as_slice())?;
    Ok(())
}
