// A message in the queue, as it is kept in the order of ids.
use dkv_base::{Bytes, Message, MsgId, NoMemory, Run, TryCopy};
use dkv_index::{Probe, Ranked};
use std::alloc::Global;
use std::cmp::Ordering;

/// A message in the queue.
#[derive(Debug, Drop)]
pub struct Row {
    pub message: Message,
    /// Whether it was handed out, and not settled since.
    pub out: bool,
}

impl TryCopy for Row {
    fn copy(&self, alloc: Global) -> Result<Row, NoMemory> {
        Ok(Row {
            message: self.message.copy(alloc)?,
            out: self.out,
        })
    }
}

impl Ranked for Row {
    ghost use Rattle.std.specs.Cmp.{then_total, on_total, nat_cmp_total};
    ghost use Rattle.dkv_queue.specs.Rows.{row_cmp};

    ghost rank = { row_cmp };

    ghost total = { then_total (on_total (λ r. r.message.id.commit) nat_cmp_total) (on_total (λ r. r.message.id.index) nat_cmp_total) };

    fn rank(&self, other: &Row) -> Ordering {
        self.message.id.cmp(&other.message.id)
    }

    fn blank(alloc: Global) -> Row {
        Row {
            message: Message {
                id: MsgId {
                    commit: 0,
                    index: 0,
                },
                payload: Bytes::of(Vec::new(alloc)),
                due: 0,
                fails: 0,
                undelivered: Run::new(alloc),
                backoff: Run::new(alloc),
            },
            out: false,
        }
    }
}

impl Probe<Row> for MsgId {
    ghost use Rattle.dkv_queue.specs.Kept.{row_for};

    ghost stands_for = { row_for };

    fn rank(&self, item: &Row) -> Ordering {
        self.cmp(&item.message.id)
    }
}
