// `pipe`: the frames of a source are answered over a new database, or over that of two files, by replies or a summary.
ghost use Rattle.std.specs.Prelude.{◌≡◌, ◌⊎◌, ◌≤◌};
ghost use Rattle.dkv_io.specs.Causes.{Rose};
ghost use Rattle.dkv_pipe.specs.Ends.{streams};
ghost use Rattle.dkv_app.specs.Piping.{Pipes, PipesNew};
ghost use Rattle.dkv_app.specs.Runs.{Refuses};
ghost use Rattle.dkv_app.specs.declared.options.TheConstants.{MAX_TRAIL};

use crate::opening::open;
use crate::status::Status;
use dkv_files::Pair;
use dkv_io::{Disk, Sink, Source, VoidDisk};
use dkv_pipe::{PipeEnd, run_pipe};
use dkv_store::Store;
use std::alloc::Global;

/// Answers the frames of the source over a new database, which nothing keeps. Takes memory for what it
/// holds.
pub(crate) fn run_new<S: Source, K: Sink>(
    alloc: Global,
    source: &mut S,
    sink: &mut K,
    trail: u64,
    summary: bool,
) -> Status
    requires { trail ≤ MAX_TRAIL }
    ensures { PipesNew result trail summary
        (streams (S.left source.old) (S.ended source.old) (K.held sink.old))
        (streams (S.left source.new) (S.ended source.new) (K.held sink.new))
        (Rose (S.faults source.old) (S.faults source.new))
        (Rose (K.faults sink.old) (K.faults sink.new)) }
{
    let pair = Pair {
        a: VoidDisk,
        b: VoidDisk,
    };
    match Store::fresh(alloc, pair, trail) {
        Ok(store) => {
            let (end, store) = run_pipe(alloc, source, sink, store, summary);
            let _pair = store.close();
            Status::of(end)
        }
        Err(_) => Status::of(PipeEnd::NoMemory),
    }
}

/// Opens two files and answers the frames of the source over what they recover to. A commit that is
/// answered as made is in them whenever it stops. Takes memory as an opening does, and for what it holds.
pub(crate) fn run_over<S: Source, K: Sink, D: Disk>(
    alloc: Global,
    source: &mut S,
    sink: &mut K,
    pair: Pair<D>,
    trail: u64,
    summary: bool,
) -> (Status, Pair<D>)
    requires { trail ≤ MAX_TRAIL }
    ensures { Refuses D.seen D.may_leave D.faults D.moment D.left_since
        result.0 ((source.new ≡ source.old) × (sink.new ≡ sink.old)) pair result.1
        ⊎ Pipes D.seen D.may_leave D.faults D.moment D.left_since result.0 trail summary
        (streams (S.left source.old) (S.ended source.old) (K.held sink.old))
        (streams (S.left source.new) (S.ended source.new) (K.held sink.new))
        (Rose (S.faults source.old) (S.faults source.new))
        (Rose (K.faults sink.old) (K.faults sink.new))
        pair.a pair.b result.1.a result.1.b }
{
    match open(alloc, pair, trail) {
        Ok(store) => {
            store.is_kept();
            let (end, store) = run_pipe(alloc, source, sink, store, summary);
            store.is_kept();
            (Status::of(end), store.close())
        }
        Err(refused) => refused,
    }
}
