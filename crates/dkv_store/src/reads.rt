// Reads at the effective moment.
ghost use Rattle.std.specs.Prelude.{◌≡◌, IfOk, None};
ghost use Rattle.dkv_base.specs.Limits.{read_limit};
ghost use Rattle.dkv_base.specs.Replies.{read_reply};
ghost use Rattle.dkv_msgs.specs.Outputs.{read_output};
ghost use Rattle.dkv_msgs.specs.Spellings.{spell_snapshot_read_output};
ghost use Rattle.dkv_core.specs.Cores.{IsEffective};
ghost use Rattle.dkv_store.specs.Stores.{effective_at};

use crate::store::Store;
use dkv_base::{Bytes, Entry, NoMemory, ReadRange, Run};
use dkv_core::Core;
use dkv_io::Disk;
use dkv_msgs::read_reply;
use std::alloc::Global;

impl<D: Disk> Store<D> {
    /// The entries of each range at the effective moment. Takes memory for copies of them.
    pub(crate) fn read_kept(
        &mut self,
        alloc: Global,
        at: u64,
        ranges: &[ReadRange],
    ) -> Result<Run<Run<Entry>>, NoMemory>
        requires unlimited { read_limit ranges.now ≡ None }
        ensures reply { IfOk result (λ answer. answer
            ≡ read_reply self.old.core.state (effective_at self.old at) ranges.now) }
        ensures content { self.new
            ≡ record self.old { core = record self.old.core { greatest = effective_at self.old at } } }
    {
        let at = self.core.moment(at);
        self.core.raise(at);
        self.core.read(alloc, ranges, at)
    }

    /// The body of the reply to a read of these ranges, in its canonical spelling. Copies no entry but into the reply, for
    /// which it takes memory.
    pub(crate) fn spell_kept(
        &mut self,
        alloc: Global,
        at: u64,
        ranges: &[ReadRange],
    ) -> Result<Bytes, NoMemory>
        requires unlimited { read_limit ranges.now ≡ None }
        ensures reply { IfOk result (λ body. body ≡ spell_snapshot_read_output
            (read_output (read_reply self.old.core.state (effective_at self.old at) ranges.now))) }
        ensures content { self.new ≡ record self.old {
          core = record self.old.core { greatest = effective_at self.old at };
        } }
    {
        let at = self.core.moment(at);
        self.core.raise(at);
        found_reply(&self.core, alloc, at, ranges)
    }
}

// The entries of these ranges, spelled as they stand in the core.
fn found_reply(core: &Core, alloc: Global, at: u64, ranges: &[ReadRange]) -> Result<Bytes, NoMemory>
    requires unlimited { read_limit ranges.now ≡ None }
    requires effective { IsEffective core.now at }
    ensures { IfOk result (λ body.
        body ≡ spell_snapshot_read_output (read_output (read_reply core.now.state at ranges.now))) }
{
    let found = core.find(alloc, ranges, at)?;
    read_reply(alloc, found.as_slice())
}
