// What a frame asks, and the code of it.
ghost use Rattle.std.specs.Prelude.{◌≡◌, Some, None, MatchResult};
ghost use Rattle.dkv_pipe.specs.Codes.{kind_code, kind_of};

use thiserror::Error;

/// What a frame asks.
#[derive(Clone, Copy, Debug, PartialEq, Eq)]
pub enum FrameKind {
    /// The entries of some ranges of keys.
    Read = 1,
    /// A write, with its checks.
    Write = 2,
    /// A watch of some keys, and its first frame.
    Watch = 3,
    /// The next frame of the caller's watch.
    Poll = 4,
    /// The message that is due first.
    Take = 5,
    /// That a message was handled.
    Acknowledge = 6,
    /// That a message's handling failed.
    Fail = 7,
    /// A checkpoint of the files.
    Checkpoint = 8,
    /// A new term, on the present state.
    Term = 9,
}

impl FrameKind {
    /// The code by which a frame's head tells it, from 1 to 9.
    pub fn code(self) -> u8
        ensures { result ≡ kind_code self }
    {
        self as u8
    }
}

/// A code that no kind of frame has.
#[derive(Clone, Copy, Debug, Error, PartialEq, Eq)]
#[error("no kind of frame has the code {0}")]
pub struct UnknownKind(pub u8);

impl TryFrom<u8> for FrameKind {
    type Error = UnknownKind;

    ghost try_from_gives = { λ code result. MatchResult result
        (λ kind. kind_of code ≡ Some kind)
        (λ unknown. (unknown.0 ≡ code) × (kind_of code ≡ None)) };

    fn try_from(code: u8) -> Result<FrameKind, UnknownKind> {
        match code {
            1 => Ok(FrameKind::Read),
            2 => Ok(FrameKind::Write),
            3 => Ok(FrameKind::Watch),
            4 => Ok(FrameKind::Poll),
            5 => Ok(FrameKind::Take),
            6 => Ok(FrameKind::Acknowledge),
            7 => Ok(FrameKind::Fail),
            8 => Ok(FrameKind::Checkpoint),
            9 => Ok(FrameKind::Term),
            _ => Err(UnknownKind(code)),
        }
    }
}
