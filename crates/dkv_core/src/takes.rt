// What is due, and what a take gives.
use dkv_base::Message;

/// The message that is due first, or when one will be.
pub enum NextDue<'a> {
    /// It waits, and it is due.
    Message(&'a Message),
    /// None is due; `next` is the moment at which one will be, in milliseconds since 1970, if one waits.
    Nothing { next: Option<u64> },
}

/// What a take gives.
#[derive(Debug, Drop)]
pub enum Taken {
    /// The message that was due first. It is out until it is settled.
    Leased(Message),
    /// No message is due; `next` is the moment at which one will be, in milliseconds since 1970, if one waits.
    Nothing { next: Option<u64> },
}
