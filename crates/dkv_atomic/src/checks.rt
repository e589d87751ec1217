// The checks of a write.
ghost use Rattle.std.specs.Prelude.{◌≡◌, ◌++◌, ◌∷◌, [], ◌≤◌, length, IfOk, OnOk, if◌then◌else◌};
ghost use Rattle.dkv_base.specs.State.{visible};
ghost use Rattle.dkv_base.specs.Writes.{holds, failing};

use crate::seen::seen_at;
use dkv_base::limits::MAX_CHECKS;
use dkv_base::{AtomicWrite, Check, NoMemory, Run};
use dkv_key::stamp_of;
use dkv_table::Table;
use std::alloc::Global;

fn holds<T: Table>(table: &T, check: &Check, at: u64) -> bool
    ensures { result ≡ holds (visible at (T.content table.now)) check.now }
{
    let stamp = check.versionstamp.as_slice();
    match seen_at(table, check.key.as_slice(), at) {
        None => stamp.is_empty(),
        Some(entry) => {
            let own = stamp_of(entry.commit);
            stamp == &own[..]
        }
    }
}

// Notes the place of a check that doesn't hold.
fn note(failed: &mut Run<u32>, held: bool, place: u32) -> Result<(), NoMemory>
    ensures { OnOk result (failed.new ≡ (if held then failed.old else failed.old ++ place ∷ [])) }
{
    if held { Ok(()) } else { failed.add(place) }
}

/// The places of the checks that don't hold over what can be seen at the moment, rising.
pub(crate) fn failing_checks<T: Table>(
    alloc: Global,
    table: &T,
    write: &AtomicWrite,
    at: u64,
) -> Result<Run<u32>, NoMemory>
    requires { length write.now.checks ≤ MAX_CHECKS }
    ensures { IfOk result (λ places.
        places ≡ failing write.now (visible at (T.content table.now))) }
{
    let checks = write.checks.as_slice();
    let mut failed = Run::new(alloc);
    let mut place = 0u32;
    for check in checks {
        let held = holds(table, check, at);
        note(&mut failed, held, place)?;
        place += 1;
    }
    Ok(failed)
}
