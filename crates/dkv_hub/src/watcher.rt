// A watcher.
ghost use Rattle.std.specs.Prelude.{◌≡◌, IfSome, Some, length};
ghost use Rattle.std.specs.Option.{option_copied};

use crate::Shown;
use crate::last::LastShown;
use dkv_base::{Bytes, Run};
use std::marker::Model;

/// One who watches some keys. Contracts see its `number`, its `keys` and what its last frame has
/// `shown` of each, which is nothing before the first. It can't be dropped: `Hub::leave` ends it.
pub struct Watcher {
    pub(crate) number: u64,
    pub(crate) keys: Run<Bytes>,
    pub(crate) last: LastShown,
}

impl Model for Watcher {
    ghost use Rattle.std.specs.Prelude.{◌≡◌, length};
    ghost use Rattle.dkv_hub.specs.Rows.{Watch};

    ghost Value = { Watch };

    ghost view = { λ w. record { number = w.number; keys = w.keys; shown = w.last.shown } };

    // There is room for what a frame shows.
    ghost invariant = { λ w. w.last.room ≡ length w.keys };
}

impl Watcher {
    /// In the order in which they were given. Takes no memory.
    pub fn keys(&self) -> &[Bytes]
        ensures { result.now ≡ self.now.keys }
    {
        self.keys.as_slice()
    }

    /// What the last frame showed of each key; none before the first frame. Takes no memory.
    pub fn shown(&self) -> Option<&[Shown]>
        ensures value { option_copied result ≡ self.now.shown }
        ensures one_each { IfSome result (λ shown. length shown.now ≡ length self.now.keys) }
    {
        self.last.get()
    }

    /// Notes what a frame showed of each key. Takes no memory.
    pub fn show(&mut self, shown: &[Shown])
        requires { length shown.now ≡ length self.old.keys }
        ensures { self.new ≡ record self.old { shown = Some shown.now } }
    {
        self.last.set(shown);
    }
}
