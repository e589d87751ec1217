// Two files are opened for a command, or a status says why not.
ghost use Rattle.std.specs.Prelude.{◌≡◌, ◌<◌, ◌≤◌, ◌^◌, IfOk, IfErr, []};
ghost use Rattle.dkv_files.specs.Crashes.{WhereBothTold, WritesNothing};
ghost use Rattle.dkv_store.specs.Stores.{IsOpened};
ghost use Rattle.dkv_app.specs.Checking.{OpenCause, Unopens};
ghost use Rattle.dkv_app.specs.Piping.{DisksRose};
ghost use Rattle.dkv_app.specs.declared.options.TheConstants.{MAX_TRAIL};

use crate::status::Status;
use dkv_files::Pair;
use dkv_io::Disk;
use dkv_store::{OpenRefusal, Store, WORN, open_store};
use std::alloc::Global;

/// Opens what two files recover to, and begins a term on it. Writes nothing. `trail` is the greatest
/// weight of the term's items, in bytes. Takes memory for the records and as their commits did.
pub(crate) fn open<D: Disk>(
    alloc: Global,
    pair: Pair<D>,
    trail: u64,
) -> Result<Store<D>, (Status, Pair<D>)>
    requires { trail ≤ MAX_TRAIL }
    ensures opened { WhereBothTold (D.seen pair.a) (D.seen pair.b) (λ fa fb. IfOk result
        (IsOpened D.may_leave fa fb)) }
    ensures begins { IfOk result (λ s. s.core.greatest ≡ s.base.moment) }
    ensures limited { IfOk result (λ s. s.limit ≡ trail) }
    ensures empty { IfOk result (λ s. s.trail ≡ []) }
    ensures number { IfOk result (λ s. s.core.state.number < 2 ^ 62) }
    ensures told { IfOk result (λ s. (D.seen s.a ≡ D.seen pair.a)
        × (D.seen s.b ≡ D.seen pair.b)) }
    ensures later { IfOk result (λ s. (D.faults pair.a ≤ D.faults s.a)
        × (D.faults pair.b ≤ D.faults s.b)) }
    ensures moves_ok { IfOk result (λ s. WritesNothing D.may_leave D.moment D.left_since
        pair.a pair.b s.a s.b) }
    ensures moves_err { IfErr result (λ e. WritesNothing D.may_leave D.moment D.left_since
        pair.a pair.b e.1.a e.1.b) }
    ensures refused { WhereBothTold (D.seen pair.a) (D.seen pair.b) (λ fa fb. IfErr result
        (λ e. Unopens e.0 fa fb)) }
    ensures cause { IfErr result (λ e.
        OpenCause e.0 (DisksRose D.faults pair.a pair.b e.1.a e.1.b)) }
{
    match open_store(alloc, pair, trail) {
        Ok(store) => {
            let n = store.number();
            if n < WORN {
                Ok(store)
            } else {
                Err((Status::Worn { n }, store.close()))
            }
        }
        Err((OpenRefusal::DiskFault, pair)) => Err((Status::DiskFault, pair)),
        Err((OpenRefusal::NoDatabase, pair)) => Err((Status::NoDatabase, pair)),
        Err((OpenRefusal::Damaged { file, at }, pair)) => Err((Status::Damaged { file, at }, pair)),
        Err((OpenRefusal::NotBuilt { at }, pair)) => Err((Status::NotBuilt { at }, pair)),
        Err((OpenRefusal::NoMemory, pair)) => Err((Status::NoMemory, pair)),
    }
}
