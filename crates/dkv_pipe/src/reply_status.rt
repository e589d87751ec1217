// What a reply says, before its body, and the code of it.
ghost use Rattle.std.specs.Prelude.{◌≡◌, Some, None, MatchResult};
ghost use Rattle.dkv_pipe.specs.Codes.{status_code, status_of};

use thiserror::Error;

/// What a reply says, before its body.
#[derive(Clone, Copy, Debug, PartialEq, Eq)]
pub enum ReplyStatus {
    /// It was done. The body is the answer, which is empty where there is no more to say.
    Done = 0,
    /// The frame's body is no message. The place of the first byte where no field begins follows.
    Malformed = 1,
    /// A limit is passed. Its code follows.
    Limit = 2,
    /// An operand or a stored value is no LE64 number. The place of the mutation follows.
    NotU64 = 3,
    /// The disk failed.
    DiskFault = 4,
    /// The term's journal has no room. Its weight and the limit follow.
    Full = 5,
    /// No message is due. The moment when one will be follows, or eight bytes FF for never.
    Nothing = 6,
    /// The message is not out.
    NoLease = 7,
    /// The state's number begins no further term. The number follows.
    Worn = 8,
    /// The caller watches nothing.
    NoWatch = 9,
}

impl ReplyStatus {
    /// The code by which a reply tells it, from 0 to 9.
    pub fn code(self) -> u8
        ensures { result ≡ status_code self }
    {
        self as u8
    }
}

/// A code that no status of a reply has.
#[derive(Clone, Copy, Debug, Error, PartialEq, Eq)]
#[error("no status of a reply has the code {0}")]
pub struct UnknownStatus(pub u8);

impl TryFrom<u8> for ReplyStatus {
    type Error = UnknownStatus;

    ghost try_from_gives = { λ code result. MatchResult result
        (λ status. status_of code ≡ Some status)
        (λ unknown. (unknown.0 ≡ code) × (status_of code ≡ None)) };

    fn try_from(code: u8) -> Result<ReplyStatus, UnknownStatus> {
        match code {
            0 => Ok(ReplyStatus::Done),
            1 => Ok(ReplyStatus::Malformed),
            2 => Ok(ReplyStatus::Limit),
            3 => Ok(ReplyStatus::NotU64),
            4 => Ok(ReplyStatus::DiskFault),
            5 => Ok(ReplyStatus::Full),
            6 => Ok(ReplyStatus::Nothing),
            7 => Ok(ReplyStatus::NoLease),
            8 => Ok(ReplyStatus::Worn),
            9 => Ok(ReplyStatus::NoWatch),
            _ => Err(UnknownStatus(code)),
        }
    }
}
