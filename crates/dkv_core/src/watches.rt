// Those who watch: a watch begins, tells what changed, and ends.
ghost use Rattle.std.specs.Prelude.{◌≡◌, ◌++◌, ◌∷◌, [], Some, None, IfOk, OnOk, OnErr, IsTrue};
ghost use Rattle.dkv_base.specs.Limits.{watch_limit};
ghost use Rattle.dkv_base.specs.Replies.{frame, shown};
ghost use Rattle.dkv_hub.specs.Frames.{last_told};
ghost use Rattle.dkv_hub.specs.Rows.{is_free, new_row, rows_without};
ghost use Rattle.dkv_core.specs.Cores.{IsEffective};

use crate::Core;
use dkv_base::{Bytes, Frame, NoMemory, Run};
use dkv_hub::Watcher;
use std::alloc::Global;

impl Core {
    /// Begins a watch of the keys, of which nothing was shown. Takes memory for its row, and for what it will show.
    pub fn watch(&mut self, keys: Run<Bytes>) -> Result<Watcher, NoMemory>
        requires { watch_limit keys ≡ None }
        ensures watcher { IfOk result (λ w.
            w ≡ record { number = w.number; keys = keys; shown = None }) }
        ensures number { IfOk result (λ w. IsTrue (is_free w.number self.old.watches)) }
        ensures row { IfOk result (λ w. self.new ≡ record self.old {
          watches = self.old.watches ++ new_row w.number keys ∷ [];
        }) }
        ensures refused { OnErr result (self.new ≡ self.old) }
    {
        self.hub.enter(keys)
    }

    /// Ends a watch. Takes no memory.
    pub fn unwatch(&mut self, watcher: Watcher)
        ensures { self.new ≡ record self.old {
          watches = rows_without watcher.number watcher.keys self.old.watches;
        } }
    {
        self.hub.leave(watcher);
    }

    /// The frame of a watch at a moment in milliseconds since 1970, where a key's versionstamp is another than the one that
    /// was shown last, or nothing was shown. Raises the greatest moment to that one, where memory is wanting too. Takes
    /// memory for the frame.
    pub fn poll(
        &mut self,
        alloc: Global,
        watcher: &mut Watcher,
        at: u64,
    ) -> Result<Option<Frame>, NoMemory>
        requires { IsEffective self.old at }
        ensures frame { IfOk result (λ told.
            told ≡ frame self.old.state at watcher.old.keys (last_told watcher.old.shown)) }
        ensures shown { OnOk result
            (last_told watcher.new.shown ≡ Some (shown self.old.state at watcher.old.keys)) }
        ensures keys { watcher.new.keys ≡ watcher.old.keys }
        ensures number { watcher.new.number ≡ watcher.old.number }
        ensures err { OnErr result (watcher.new ≡ watcher.old) }
        ensures moment { self.new ≡ record self.old { greatest = at } }
    {
        let told = self.show(alloc, watcher, at);
        self.raise(at);
        told
    }

    // The frame of a watch at an effective moment, if there is one, which the watcher then has shown.
    pub(crate) fn show(
        &self,
        alloc: Global,
        watcher: &mut Watcher,
        at: u64,
    ) -> Result<Option<Frame>, NoMemory>
        ensures frame { IfOk result (λ told.
            told ≡ frame self.now.state at watcher.old.keys (last_told watcher.old.shown)) }
        ensures shown { OnOk result
            (last_told watcher.new.shown ≡ Some (shown self.now.state at watcher.old.keys)) }
        ensures keys { watcher.new.keys ≡ watcher.old.keys }
        ensures number { watcher.new.number ≡ watcher.old.number }
        ensures err { OnErr result (watcher.new ≡ watcher.old) }
    {
        let table = self.entries.table();
        let next = watcher.frame(alloc, table, at)?;
        let Some(told) = next else {
            return Ok(None);
        };
        let shown = watcher.shown_at(alloc, table, at)?;
        watcher.show(shown.as_slice());
        Ok(Some(told))
    }
}
