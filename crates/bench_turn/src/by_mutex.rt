//! The list under the system's mutex, beside which the turn is timed.
ghost use Rattle.std.specs.Prelude.{◌<◌};
ghost use Rattle.std.specs.Thread.{IsSync};

use crate::load::Load;
use std::alloc::Global;
use std::sync::{Mutex, Wait};
use std::thread::{Threads, join};
use std::time::Clock;

fn mark_often<R: Wait + Clock>(rt: &R, marks: &Mutex<Vec<u32>>, who: u32, load: Load) {
    for _ in 0..load.rounds {
        let mut marks = marks.lock(rt);
        let _ = marks.push(who).is_ok();
        load.hold(rt);
    }
}

fn mark_in_threads<R: Threads + Wait + Clock + Sync>(
    rt: &R,
    marks: &Mutex<Vec<u32>>,
    others: u32,
    load: Load,
) {
    if others == 0 {
        return mark_often(rt, marks, 0, load);
    }
    join(
        rt,
        || -> ()
            requires { IsSync R.row × (0 < others) }
        { mark_in_threads(rt, marks, others - 1, load) },
        || mark_often(rt, marks, others, load),
    );
}

// The number of items that all threads added.
pub(crate) fn total<R: Threads + Wait + Clock + Sync>(
    rt: &R,
    alloc: Global,
    others: u32,
    load: Load,
) -> usize {
    let marks = Mutex::new(Vec::new(alloc));
    mark_in_threads(rt, &marks, others, load);
    marks.into_inner().len()
}
