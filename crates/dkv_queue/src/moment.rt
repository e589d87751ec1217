// The moment at which a message is due, as it is kept in order.
use dkv_base::{MsgId, NoMemory, TryCopy};
use dkv_index::{Probe, Ranked};
use std::alloc::Global;
use std::cmp::Ordering;

// When a message that isn't out is due, in milliseconds since 1970.
#[derive(Clone, Copy, Drop)]
pub(crate) struct DueAt {
    pub(crate) due: u64,
    pub(crate) id: MsgId,
}

impl TryCopy for DueAt {
    fn copy(&self, _alloc: Global) -> Result<DueAt, NoMemory> {
        Ok(*self)
    }
}

impl Ranked for DueAt {
    ghost use Rattle.std.specs.Ordering.{nat_cmp};
    ghost use Rattle.std.specs.Cmp.{then_total, on_total, nat_cmp_total};
    ghost use Rattle.dkv_queue.specs.Kept.{due_cmp};

    ghost rank = { due_cmp };

    ghost total = { then_total (on_total (λ d. d.due) nat_cmp_total)
        (then_total (on_total (λ d. d.id.commit) nat_cmp_total) (on_total (λ d. d.id.index) nat_cmp_total)) };

    fn rank(&self, other: &DueAt) -> Ordering {
        self.due.cmp(&other.due).then(self.id.cmp(&other.id))
    }

    fn blank(_alloc: Global) -> DueAt {
        DueAt {
            due: 0,
            id: MsgId {
                commit: 0,
                index: 0,
            },
        }
    }
}

impl Probe<DueAt> for DueAt {
    ghost stands_for = { λ d. d };

    fn rank(&self, item: &DueAt) -> Ordering {
        Ranked::rank(self, item)
    }
}
