// A look at the bytes that a source has given: whether a whole frame stands at their front.
ghost use Rattle.std.specs.Prelude.{◌≡◌, ◌<◌, ◌≤◌, length, MatchOption};
ghost use Rattle.dkv_pipe.specs.Frames.{caller_at, moment_at, code_at, is_body_length};
ghost use Rattle.dkv_pipe.specs.Running.{IsLook};
ghost use Rattle.dkv_pipe.specs.Wishes.{id_of};

use crate::frame_kind::FrameKind;
use crate::sizes::{BODY_PLACE, HEAD_BYTES, ID_BYTES, LENGTH_BYTES, MAX_LENGTH};
use dkv_base::MsgId;
use dkv_base::limits::MAX_REQUEST_BYTES;

/// Who asks, at which moment and for what, and the length of the whole frame.
#[derive(Clone, Copy, Debug)]
pub(crate) struct Head {
    pub caller: u32,
    pub moment: u64,
    pub kind: FrameKind,
    pub len: usize,
}

/// What stands at the front of some bytes: a whole frame, or less than one, or no frame's bytes.
#[derive(Clone, Copy, Debug)]
pub(crate) enum Look {
    Whole(Head),
    Partial,
    Refused,
}

fn is_body(kind: FrameKind, len: usize) -> bool
    ensures { result ≡ is_body_length kind len }
{
    match kind {
        FrameKind::Read | FrameKind::Write | FrameKind::Watch => len <= MAX_REQUEST_BYTES,
        FrameKind::Acknowledge | FrameKind::Fail => len == ID_BYTES,
        FrameKind::Poll | FrameKind::Take | FrameKind::Checkpoint | FrameKind::Term => len == 0,
    }
}

// The caller, the moment and the kind's code of the frame, once its head is there.
fn head_of(bytes: &[u8]) -> Option<(u32, u64, u8)>
    ensures { MatchOption result (length bytes.now < BODY_PLACE) (λ head.
        (head.0 ≡ caller_at bytes.now) × (head.1 ≡ moment_at bytes.now)
        × (head.2 ≡ code_at bytes.now) × (BODY_PLACE ≤ length bytes.now)) }
{
    let (_, rest) = bytes.split_first_chunk::<LENGTH_BYTES>()?;
    let (caller, rest) = rest.split_first_chunk::<4>()?;
    let (moment, rest) = rest.split_first_chunk::<8>()?;
    let code = rest.first()?;
    Some((
        u32::from_le_bytes(*caller),
        u64::from_le_bytes(*moment),
        *code,
    ))
}

/// Looks at the length and the head, and at how many bytes there are.
#[tactic(auto, unfolding(crate::specs::Frames::front))]
pub(crate) fn look_at(bytes: &[u8]) -> Look
    ensures { IsLook result bytes.now }
{
    let Some((length, _)) = bytes.split_first_chunk::<LENGTH_BYTES>() else {
        return Look::Partial;
    };
    let len = u32::from_le_bytes(*length) as usize;
    if len < HEAD_BYTES || MAX_LENGTH < len {
        return Look::Refused;
    }
    let Some((caller, moment, code)) = head_of(bytes) else {
        return Look::Partial;
    };
    let Ok(kind) = FrameKind::try_from(code) else {
        return Look::Refused;
    };
    if !is_body(kind, len - HEAD_BYTES) {
        return Look::Refused;
    }
    if bytes.len() < LENGTH_BYTES + len {
        return Look::Partial;
    }
    Look::Whole(Head {
        caller,
        moment,
        kind,
        len: LENGTH_BYTES + len,
    })
}

/// The id in the body of a settlement.
pub(crate) fn id_of(body: &[u8]) -> MsgId
    requires { length body.now ≡ ID_BYTES }
    ensures { result ≡ id_of body.now }
{
    let Some((commit, rest)) = body.split_first_chunk::<8>() else {
        unreachable!()
    };
    let Some((index, _)) = rest.split_first_chunk::<4>() else {
        unreachable!()
    };
    MsgId {
        commit: u64::from_le_bytes(*commit),
        index: u32::from_le_bytes(*index),
    }
}
