//! The law of exchanges, proved on a function of no arguments.
ghost use Rattle.dkv_meta.specs.Reply.{OneReply};

/// An exchange has one reply.
pub fn one_reply()
    ensures { OneReply }
{}
