// Messages, taken one after the other.
ghost use Rattle.std.specs.Prelude.{◌≡◌, None, IfOk, IfErr};
ghost use Rattle.dkv_base.specs.Trails.{first_stop};
ghost use Rattle.dkv_store.specs.Stores.{IsTake, IsNotTaken, SameDisks, effective_at};

use crate::answers::Refusal;
use crate::store::Store;
use crate::trail::ITEM_WEIGHT;
use dkv_base::TryCopy;
use dkv_core::{NextDue, Taken};
use dkv_io::Disk;
use std::alloc::Global;

impl<D: Disk> Store<D> {
    /// Takes the message that is due first, and makes room for one settlement of it. Touches no disk. Takes memory for a copy of
    /// the message and for that room.
    pub(crate) fn take_kept(&mut self, alloc: Global, who: u32, at: u64) -> Result<Taken, Refusal>
        requires { first_stop self.old.trail ≡ None }
        ensures taken { IfOk result
            (λ taken. IsTake self.old who (effective_at self.old at) taken self.new) }
        ensures refused { IfErr result
            (λ r. IsNotTaken self.old who (effective_at self.old at) r self.new) }
        ensures disks { SameDisks self.old self.new }
        ensures watches { self.new.core.watches ≡ self.old.core.watches }
    {
        let at = self.core.moment(at);
        let message = match self.core.due(at) {
            NextDue::Message(message) => message.copy(alloc)?,
            NextDue::Nothing { next } => {
                self.core.raise(at);
                return Ok(Taken::Nothing { next });
            }
        };
        let id = message.id;
        if self.trail.passes(ITEM_WEIGHT, self.limit) {
            self.core.raise(at);
            return Err(Refusal::Full {
                trail_bytes: self.trail.weight(),
                limit: self.limit,
            });
        }
        self.trail.add_taken(alloc, who, at, id)?;
        self.core.lease(id);
        self.core.raise(at);
        Ok(Taken::Leased(message))
    }
}
