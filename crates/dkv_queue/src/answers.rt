// What a queue answers.
use dkv_base::{Message, MsgId};

/// Which message is due first.
#[derive(Clone, Copy, Debug, PartialEq, Eq)]
pub enum Due {
    /// This one, and it is due.
    Now(MsgId),
    /// None is due. The first that waits will be at `next`, in milliseconds since 1970; none where none waits.
    Nothing { next: Option<u64> },
}

/// What became of a message that failed.
#[derive(Debug, Drop)]
pub enum Retry {
    /// It waits until `due`, in milliseconds since 1970.
    Again { due: u64 },
    /// It had its last interval, and is gone.
    Exhausted(Message),
}
