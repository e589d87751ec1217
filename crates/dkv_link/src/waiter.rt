// What waits a little between two looks.
ghost use Rattle.std.specs.Prelude.{◌≡◌, ℕ};
ghost use Rattle.dkv_io.specs.Causes.{one_more};

use std::sync::Wait;

/// Waits a little, and can't fail. It keeps what it waits by.
pub trait Waiter {
    /// What it waits by. It is for the bound alone: no call goes by it.
    type Runtime: Wait;

    /// How often it paused. Stands still at the last `u64`.
    ghost pauses: { Self → ℕ };

    /// Waits a little. It may never return.
    fn pause(&mut self)
        ensures { pauses self.new ≡ one_more (pauses self.old) };
}
