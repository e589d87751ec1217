// `check`: what two files recover to, in three lines.
ghost use Rattle.std.specs.Prelude.{◌≡◌, length};
ghost use Rattle.dkv_base.specs.State.{visible};
ghost use Rattle.dkv_io.specs.Causes.{Rose};
ghost use Rattle.dkv_app.specs.Checking.{Checks, CheckCause, IsPrinted};
ghost use Rattle.dkv_app.specs.Ids.{database_lines};
ghost use Rattle.dkv_app.specs.Piping.{DisksRose};
ghost use Rattle.dkv_app.specs.Statuses.{Prints};

use crate::opening::open;
use crate::options::MAX_TRAIL;
use crate::status::Status;
use crate::tells::tell_database;
use dkv_files::Pair;
use dkv_io::{Disk, Sink};
use dkv_store::Store;
use std::alloc::Global;

// Prints which database it is and how much there is of it.
fn tell<K: Sink, D: Disk>(sink: &mut K, store: &Store<D>) -> Status
    ensures lines { Prints result K.held sink.old sink.new (database_lines
        store.now.who.id store.now.core.state.number
        (length (visible store.now.core.greatest store.now.core.state.entries))
        (length store.now.core.state.messages)) }
    ensures printed { IsPrinted result (Rose (K.faults sink.old) (K.faults sink.new)) }
{
    let id = store.identity().id;
    let counts = store.counts();
    match tell_database(sink, id, counts.commits, counts.entries, counts.messages) {
        Ok(()) => Status::Ok,
        Err(_) => Status::WriteFault,
    }
}

/// Opens two files and prints what they recover to. Writes no file. Takes memory as an opening does.
pub(crate) fn run_check<K: Sink, D: Disk>(
    alloc: Global,
    sink: &mut K,
    pair: Pair<D>,
) -> (Status, Pair<D>)
    ensures checks { Checks D.seen D.may_leave D.moment D.left_since
        result.0 (Prints result.0 K.held sink.old sink.new)
        pair.a pair.b result.1.a result.1.b }
    ensures cause { CheckCause result.0 (Rose (K.faults sink.old) (K.faults sink.new))
        (DisksRose D.faults pair.a pair.b result.1.a result.1.b) }
{
    match open(alloc, pair, MAX_TRAIL) {
        Ok(store) => {
            let status = tell(sink, &store);
            (status, store.close())
        }
        Err(refused) => refused,
    }
}
