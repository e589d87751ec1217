// Those who watch a store: a watch begins, tells what changed at the effective moment, and ends.
ghost use Rattle.std.specs.Prelude.{◌≡◌, ◌++◌, ◌∷◌, [], ℕ, Some, None, IfOk, OnOk, OnErr, IsTrue};
ghost use Rattle.dkv_base.specs.Limits.{watch_limit};
ghost use Rattle.dkv_base.specs.Replies.{frame, shown};
ghost use Rattle.dkv_hub.specs.Frames.{last_told};
ghost use Rattle.dkv_hub.specs.Rows.{is_free, new_row, rows_without};
ghost use Rattle.dkv_core.specs.Seats.{rows_beside};
ghost use Rattle.dkv_store.specs.Stores.{effective_at};
ghost use Rattle.dkv_store.specs.Terms.{Leads};
ghost use Rattle.dkv_store.specs.Watches.{with_watches, raised_to, AnswersPoll, AnswersWatch, AnswersLast};

use crate::store::Store;
use dkv_base::{Bytes, Frame, NoMemory, Run};
use dkv_core::Seat;
use dkv_hub::Watcher;
use dkv_io::Disk;
use std::alloc::Global;

impl<D: Disk> Store<D> {
    /// Begins a watch of the keys, of which nothing was shown. Its first poll tells all of them. Takes memory for its row, and
    /// for what it will show.
    pub fn watch(&mut self, keys: Run<Bytes>) -> Result<Watcher, NoMemory>
        requires { watch_limit keys ≡ None }
        ensures watcher { IfOk result (λ w.
            w ≡ record { number = w.number; keys = keys; shown = None }) }
        ensures number { IfOk result (λ w. IsTrue (is_free w.number self.old.core.watches)) }
        ensures row { IfOk result (λ w. self.new ≡ with_watches
            (self.old.core.watches ++ new_row w.number keys ∷ []) self.old) }
        ensures refused { OnErr result (self.new ≡ self.old) }
        ensures goes { Leads D.seen D.may_leave D.moment D.left_since [] self.old self.new }
    {
        self.core.watch(keys)
    }

    /// Ends a watch. Takes no memory.
    pub fn unwatch(&mut self, watcher: Watcher)
        ensures row { self.new ≡ with_watches
            (rows_without watcher.number watcher.keys self.old.core.watches) self.old }
        ensures goes { Leads D.seen D.may_leave D.moment D.left_since [] self.old self.new }
    {
        self.core.unwatch(watcher);
    }

    /// Ends the watches of all seats. Takes no memory.
    pub fn leave_all(&mut self, seats: Vec<Seat>)
        ensures rows { self.new ≡ with_watches
            (rows_beside seats.items self.old.core.watches) self.old }
        ensures goes { Leads D.seen D.may_leave D.moment D.left_since [] self.old self.new }
    {
        self.core.leave_all(seats);
    }

    /// The frame of a watch at the effective moment, where a key's versionstamp is another than the one that was shown last, or
    /// nothing was shown. Raises the greatest moment to that one, where memory is wanting too. Takes memory for the frame.
    pub fn poll(
        &mut self,
        alloc: Global,
        watcher: &mut Watcher,
        at: u64,
    ) -> Result<Option<Frame>, NoMemory>
        ensures frame { IfOk result (λ told. told ≡ frame self.old.core.state
            (effective_at self.old at) watcher.old.keys (last_told watcher.old.shown)) }
        ensures shown { OnOk result (last_told watcher.new.shown ≡ Some
            (shown self.old.core.state (effective_at self.old at) watcher.old.keys)) }
        ensures keys { watcher.new.keys ≡ watcher.old.keys }
        ensures number { watcher.new.number ≡ watcher.old.number }
        ensures err { OnErr result (watcher.new ≡ watcher.old) }
        ensures moment { self.new ≡ raised_to (effective_at self.old at) self.old }
        // The frame is the one-thread database's answer to the caller whose watch this is.
        ensures steps { IfOk result (λ told. (who : ℕ)
            → AnswersPoll self.old who at watcher.old told self.new watcher.new) }
        // Of a watch that has shown nothing yet, it is that to the caller who begins it.
        ensures first { IfOk result (λ told. (who : ℕ) → watch_limit watcher.old.keys ≡ None
            → watcher.old.shown ≡ None
            → AnswersWatch self.old who at watcher.old.keys told self.new watcher.new) }
        ensures goes { Leads D.seen D.may_leave D.moment D.left_since [] self.old self.new }
    {
        self.poll_kept(alloc, watcher, at)
    }

    // The core's frame at the effective moment.
    fn poll_kept(
        &mut self,
        alloc: Global,
        watcher: &mut Watcher,
        at: u64,
    ) -> Result<Option<Frame>, NoMemory>
        ensures frame { IfOk result (λ told. told ≡ frame self.old.core.state
            (effective_at self.old at) watcher.old.keys (last_told watcher.old.shown)) }
        ensures shown { OnOk result (last_told watcher.new.shown ≡ Some
            (shown self.old.core.state (effective_at self.old at) watcher.old.keys)) }
        ensures keys { watcher.new.keys ≡ watcher.old.keys }
        ensures number { watcher.new.number ≡ watcher.old.number }
        ensures err { OnErr result (watcher.new ≡ watcher.old) }
        ensures moment { self.new ≡ raised_to (effective_at self.old at) self.old }
    {
        let at = self.core.moment(at);
        self.core.poll(alloc, watcher, at)
    }

    /// Polls a last time and ends the watch, which is gone after every answer. Raises the greatest moment as a poll does. Takes
    /// memory for the frame.
    pub fn finish(
        &mut self,
        alloc: Global,
        watcher: Watcher,
        at: u64,
    ) -> Result<Option<Frame>, NoMemory>
        ensures frame { IfOk result (λ told. told ≡ frame self.old.core.state
            (effective_at self.old at) watcher.keys (last_told watcher.shown)) }
        ensures gone { self.new ≡ with_watches
            (rows_without watcher.number watcher.keys self.old.core.watches)
            (raised_to (effective_at self.old at) self.old) }
        ensures steps { IfOk result (λ told. (who : ℕ)
            → AnswersLast self.old who at watcher told self.new) }
        ensures goes { Leads D.seen D.may_leave D.moment D.left_since [] self.old self.new }
    {
        let mut watcher = watcher;
        let told = self.poll(alloc, &mut watcher, at);
        self.unwatch(watcher);
        told
    }
}
