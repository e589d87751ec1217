// A commit that was decided and is not made yet.
use crate::put::Put;
use dkv_base::{Bytes, Limit, Message, MsgId, Run};
use std::marker::Model;

/// A commit that was decided and is not made yet. It can't be let go by itself: `Core::apply` or `Core::drop_prepared`
/// takes it.
#[derive(Debug)]
pub struct Prepared {
    pub(crate) number: u64,
    pub(crate) moment: u64,
    pub(crate) puts: Run<Put>,
    pub(crate) removed: Run<Bytes>,
    pub(crate) added: Run<Message>,
    pub(crate) settled: Option<Settled>,
}

impl Model for Prepared {
    ghost use Rattle.dkv_core.specs.Cores.{Change};

    ghost Value = { Change };

    ghost view = { λ p. record {
      number = p.number;
      moment = p.moment;
      puts = p.puts;
      removed = p.removed;
      added = p.added;
      settled = p.settled;
    } };
}

/// What settles a message: its id, and whether it was handled.
#[derive(Clone, Copy, Debug)]
pub(crate) struct Settled {
    pub(crate) id: MsgId,
    pub(crate) done: bool,
}

/// What is decided of a call.
#[derive(Debug)]
pub enum Decided {
    /// The first limit that a write passes.
    Limit(Limit),
    /// The places of the checks that don't hold, rising.
    Fails(Run<u32>),
    /// The place of the first mutation that meets a value other than an LE64.
    NotU64 { index: u32 },
    /// It goes.
    Goes(Prepared),
}
