//! The tally under the turn: each thread has a pass of its own.
ghost use Rattle.std.specs.Prelude.{◌≡◌, ◌<◌, ◌≤◌, ◌+◌};
ghost use Rattle.std.specs.Thread.{IsSync};
ghost use Rattle.dkv_turn.specs.Passes.{left, Same};
ghost use Rattle.bench_turn.specs.Free.{IsFree, KeepsNumbers};

use crate::load::Load;
use crate::tally::Tally;
use dkv_turn::{Pass, Turn};
use std::alloc::Global;
use std::sync::Wait;
use std::thread::{Threads, join};
use std::time::Clock;

// Adds an item of its own, unless memory is wanting.
pub(crate) fn mark<R: Wait + Clock>(rt: &R, turn: &Turn<Tally>, pass: &mut Pass<Tally>, load: Load)
    requires free { IsFree turn.now pass.old }
    ensures free { IsFree turn.now pass.new }
    ensures same { Same pass.old pass.new }
{
    let mut held = turn.enter(rt, pass);
    let _ = held.value.marks.push(pass.who()).is_ok();
    load.hold(rt);
    turn.leave(pass, held);
}

fn mark_often<R: Wait + Clock>(
    rt: &R,
    turn: &Turn<Tally>,
    pass: Pass<Tally>,
    load: Load,
) -> Pass<Tally>
    requires free { IsFree turn.now pass }
    ensures free { IsFree turn.now result }
    ensures same { Same pass result }
{
    let mut pass = pass;
    for _ in 0..load.rounds {
        mark(rt, turn, &mut pass, load);
    }
    pass
}

// The passes are one again at the end.
fn mark_in_threads<R: Threads + Wait + Clock + Sync>(
    rt: &R,
    turn: &Turn<Tally>,
    pass: Pass<Tally>,
    others: u32,
    load: Load,
) -> Pass<Tally>
    requires free { IsFree turn.now pass }
    requires left { others ≤ left pass }
    ensures free { IsFree turn.now result }
    ensures numbers { KeepsNumbers pass result }
{
    if others == 0 {
        return mark_often(rt, turn, pass, load);
    }
    let mut pass = pass;
    let Ok(other) = turn.split(&mut pass) else {
        unreachable!()
    };
    let (mut pass, other) = join(
        rt,
        || -> Pass<Tally>
            requires { IsSync R.row × IsFree turn.now pass × (0 < others)
                × (others ≤ left pass + 1) }
            ensures { IsFree turn.entry.now result × KeepsNumbers pass result }
        { mark_in_threads(rt, turn, pass, others - 1, load) },
        || -> Pass<Tally>
            requires { IsFree turn.now other }
            ensures { IsFree turn.entry.now result × Same other result }
        { mark_often(rt, turn, other, load) },
    );
    turn.join(&mut pass, other);
    pass
}

// The tally once all threads have added their items. It is nothing where memory is wanting for the lock.
pub(crate) fn tally_of<R: Threads + Wait + Clock + Sync>(
    rt: &R,
    alloc: Global,
    others: u32,
    load: Load,
) -> Option<Tally> {
    let tally = Tally {
        marks: Vec::new(alloc),
        lent: 0,
    };
    let Ok((turn, pass)) = Turn::new(alloc, tally) else {
        return None;
    };
    let pass = mark_in_threads(rt, &turn, pass, others, load);
    Some(turn.close(pass))
}
