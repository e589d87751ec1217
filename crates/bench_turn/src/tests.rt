//! What no clause of the lock says: that its calls succeed with ample memory, and that threads come home.
ghost use Rattle.std.specs.Prelude.{◌≡◌, ◌<◌, ◌+◌, ◌||◌, [], true, length, max};
ghost use Rattle.dkv_turn.specs.Passes.{view, gone, left, loan, IsOutside, Same};
ghost use Rattle.dkv_turn.specs.Words.{IsOf};
ghost use Rattle.bench_turn.specs.Free.{IsFree};

use crate::by_turn::{mark, tally_of};
use crate::load::Load;
use crate::tally::Tally;
use dkv_turn::{Pass, Turn};
use std::alloc::Global;
use std::sync::Wait;
use std::thread::Threads;
use std::time::Clock;

const LAST_MOMENT: u64 = 253_370_764_800_000;

fn empty(alloc: Global) -> Tally
    ensures { (result.marks.items ≡ []) × (result.lent ≡ 0) }
{
    Tally {
        marks: Vec::new(alloc),
        lent: 0,
    }
}

// How often a pass marked it.
fn count_of(tally: &Tally, who: u32) -> usize {
    tally.marks.iter().filter(|m| **m == who).count()
}

// How many items the threads added in all, the first of them, and the last.
fn counts_of<R: Threads + Wait + Clock + Sync>(
    rt: &R,
    alloc: Global,
    threads: u32,
    load: Load,
) -> [usize; 3] {
    let last = threads.saturating_sub(1);
    let Some(tally) = tally_of(rt, alloc, last, load) else {
        return [0; 3];
    };
    [
        tally.marks.len(),
        count_of(&tally, 0),
        count_of(&tally, last),
    ]
}

const SHORT: Load = Load {
    rounds: 5_000,
    hold: 0,
};

const LONG: Load = Load {
    rounds: 20,
    hold: 50,
};

#[test]
fn each_of_many_threads_adds_its_own_and_none_sleeps_on(rt: HostRuntime) {
    let two = counts_of(&rt, rt.alloc(), 2, SHORT);
    let short = counts_of(&rt, rt.alloc(), 32, SHORT);
    let long = counts_of(&rt, rt.alloc(), 32, LONG);
    assert_eq!(rt; two, [10_000, 5_000, 5_000]);
    assert_eq!(rt; short, [160_000, 5_000, 5_000]);
    assert_eq!(rt; long, [640, 20, 20]);
}

#[test]
fn moments_rise_and_stop_at_the_last(rt: HostRuntime) {
    let Ok((turn, mut pass)) = Turn::new(rt.alloc(), empty(rt.alloc())) else {
        panic!(rt; "no memory")
    };
    let mut told = [0; 4];
    told[0] = turn.raise(&mut pass, 9);
    told[1] = turn.raise(&mut pass, 5);
    told[2] = turn.raise(&mut pass, u64::MAX);
    told[3] = turn.raise(&mut pass, 0);
    assert_eq!(rt; told, [9, 9, LAST_MOMENT, LAST_MOMENT]);
}

#[test]
fn a_pass_at_rest_keeps_what_it_was_asked(rt: HostRuntime) {
    let Ok((_turn, mut pass)) = Turn::new(rt.alloc(), empty(rt.alloc())) else {
        panic!(rt; "no memory")
    };
    pass.ask(7);
    pass.ask(3);
    let mut rest = pass.rest();
    let before = rest.asked();
    rest.ask(u64::MAX);
    let pass = rest.wake::<Tally>();
    let now = (before, pass.asked(), pass.who(), pass.length());
    assert_eq!(rt; now, (7, LAST_MOMENT, 0, 0));
}

// One pass of two.
fn joined(turn: &Turn<Tally>, keep: Pass<Tally>, other: Pass<Tally>) -> Pass<Tally>
    requires { IsFree turn.now keep × IsFree turn.now other }
    ensures free { IsFree turn.now result }
    ensures marked { (view result).marked ≡ ((view keep).marked || (view other).marked) }
    ensures gone { length (gone result) ≡ length (gone keep) + length (gone other) + 1 }
    ensures left { left result ≡ max (left keep) (left other) }
{
    let mut keep = keep;
    turn.join(&mut keep, other);
    keep
}

#[test]
fn a_pass_that_took_the_first_one_in_splits_on(rt: HostRuntime) {
    let Ok((turn, mut first)) = Turn::new(rt.alloc(), empty(rt.alloc())) else {
        panic!(rt; "no memory")
    };
    let Ok(one) = turn.split(&mut first) else {
        unreachable!()
    };
    let mut one = joined(&turn, one, first);
    let Ok(mut two) = turn.split(&mut one) else {
        unreachable!()
    };
    mark(&rt, &turn, &mut two, SHORT);
    mark(&rt, &turn, &mut one, SHORT);
    let last = joined(&turn, two, one);
    let tally = turn.close(last);
    assert_eq!(rt; tally.marks.as_slice(), [2, 1].as_slice());
}

// The loan that a pass with none finds.
fn loan_found<R: Wait>(rt: &R, turn: &Turn<Tally>, pass: &mut Pass<Tally>) -> u64
    requires free { IsFree turn.now pass.old }
    ensures free { IsFree turn.now pass.new }
    ensures same { Same pass.old pass.new }
{
    let held = turn.enter(rt, pass);
    let found = held.value.lent;
    turn.leave(pass, held);
    found
}

// Lends the amount to a pass with no loan, where none is lent.
fn lend<R: Wait>(rt: &R, turn: &Turn<Tally>, pass: &mut Pass<Tally>, amount: u64) -> bool
    requires free { IsFree turn.now pass.old }
    ensures own { IsOf (λ _. tt) turn.now pass.new × IsOutside pass.new }
    ensures same { Same pass.old pass.new }
    ensures lent { result ≡ true → loan pass.new ≡ amount }
{
    let mut held = turn.enter(rt, pass);
    let none = held.value.lent == 0;
    if none {
        held.value.lent = amount;
    }
    turn.leave(pass, held);
    none
}

// Changes the loan of a pass that has one.
fn settle<R: Wait>(rt: &R, turn: &Turn<Tally>, pass: &mut Pass<Tally>, amount: u64)
    requires own { IsOf (λ _. tt) turn.now pass.old × IsOutside pass.old }
    requires lent { 0 < loan pass.old }
    ensures own { IsOf (λ _. tt) turn.now pass.new × IsOutside pass.new }
    ensures same { Same pass.old pass.new }
    ensures lent { loan pass.new ≡ amount }
{
    let mut held = turn.enter(rt, pass);
    held.value.lent = amount;
    turn.leave(pass, held);
}

#[test]
fn a_loan_is_changed_by_its_pass_alone(rt: HostRuntime) {
    let Ok((turn, mut pass)) = Turn::new(rt.alloc(), empty(rt.alloc())) else {
        panic!(rt; "no memory")
    };
    let Ok(mut other) = turn.split(&mut pass) else {
        unreachable!()
    };
    let first = lend(&rt, &turn, &mut pass, 7);
    assert!(rt; first);
    let mut found = [0; 3];
    found[0] = loan_found(&rt, &turn, &mut other);
    settle(&rt, &turn, &mut pass, 9);
    found[1] = loan_found(&rt, &turn, &mut other);
    settle(&rt, &turn, &mut pass, 0);
    let second = lend(&rt, &turn, &mut other, 5);
    assert!(rt; second);
    found[2] = loan_found(&rt, &turn, &mut pass);
    assert_eq!(rt; found, [7, 9, 5]);
}
