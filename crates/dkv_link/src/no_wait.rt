// A waiter that doesn't wait.
ghost use Rattle.std.specs.Prelude.{◌≡◌};
ghost use Rattle.dkv_io.specs.Causes.{one_more};

use crate::Waiter;
use dkv_io::raised;
use std::sync::Wait;

/// Counts its pauses, and returns from each at once. Takes no memory.
#[derive(Drop)]
pub struct NoWait<'a, R> {
    rt: &'a R,
    /// How often it paused. Stands still at the last `u64`.
    pub pauses: u64,
}

impl<'a, R> NoWait<'a, R> {
    /// It didn't pause yet.
    pub fn new(rt: &'a R) -> NoWait<'a, R>
        ensures { result.pauses ≡ 0 }
    {
        NoWait { rt, pauses: 0 }
    }
}

impl<R: Wait> Waiter for NoWait<'_, R> {
    type Runtime = R;

    ghost pauses = { λ w. w.pauses };

    fn pause(&mut self)
        ensures { self.new.pauses ≡ one_more self.old.pauses }
    {
        self.pauses = raised(self.pauses);
    }
}
