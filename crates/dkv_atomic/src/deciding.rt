// What is decided of a write.
ghost use Rattle.std.specs.Prelude.{◌≡◌, ◌≤◌, [], length, IfOk};
ghost use Rattle.dkv_base.specs.Limits.{write_limit};
ghost use Rattle.dkv_base.specs.State.{visible};
ghost use Rattle.dkv_base.specs.Writes.{failing};
ghost use Rattle.dkv_atomic.specs.Decisions.{IsDecision};

use crate::Decision;
use crate::checks::failing_checks;
use crate::mutations::act;
use crate::overlay::Overlay;
use dkv_base::limits::MAX_CHANGES;
use dkv_base::{AtomicWrite, NoMemory};
use dkv_table::Table;
use std::alloc::Global;

// The mutations of a write whose checks hold.
fn act_all<T: Table>(
    alloc: Global,
    table: &T,
    write: &AtomicWrite,
    at: u64,
    n: u64,
) -> Result<Decision, NoMemory>
    requires few { length write.now.mutations ≤ MAX_CHANGES }
    requires holds { failing write.now (visible at (T.content table.now)) ≡ [] }
    ensures { IfOk result (λ d. IsDecision (T.content table.now) write.now at n d) }
{
    let mutations = write.mutations.as_slice();
    let mut overlay = Overlay::new(alloc);
    let mut index = 0u32;
    for mutation in mutations {
        let went = act(alloc, table, &mut overlay, mutation, at, n)?;
        if !went {
            return Ok(Decision::NotU64 { index });
        }
        index += 1;
    }
    Ok(Decision::Goes(overlay.into_effects(alloc)?))
}

/// What the write does as commit `n` at the moment `at`, over the table's entries that can be seen then. Takes memory for
/// copies of the keys and values that change.
pub fn decide<T: Table>(
    alloc: Global,
    table: &T,
    write: &AtomicWrite,
    at: u64,
    n: u64,
) -> Result<Decision, NoMemory>
    requires { write_limit write.now ≡ None }
    ensures { IfOk result (λ d. IsDecision (T.content table.now) write.now at n d) }
{
    let failed = failing_checks(alloc, table, write, at)?;
    if failed.is_empty() {
        act_all(alloc, table, write, at, n)
    } else {
        Ok(Decision::Fails(failed))
    }
}
