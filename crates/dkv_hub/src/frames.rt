// The frames of a watch.
ghost use Rattle.std.specs.Prelude.{◌≡◌, IfOk, map, length, if◌then◌else◌, None, slice_get};
ghost use Rattle.std.specs.Option.{option_copied};
ghost use Rattle.dkv_base.specs.State.{entry_at, visible};
ghost use Rattle.dkv_base.specs.Replies.{key_frames, is_some_changed};
ghost use Rattle.dkv_hub.specs.Frames.{IsFrame, IsToldStill, commit_shown, shows, is_new};

use crate::{Shown, Watcher};
use dkv_atomic::is_visible;
use dkv_base::{Bytes, Entry, Frame, KeyFrame, NoMemory, Run, TryCopy};
use dkv_table::Table;
use std::alloc::Global;

// The entry under the key, where it has not ended at the moment.
fn seen_at<'a, T: Table>(table: &'a T, key: &[u8], at: u64) -> Option<&'a Entry>
    ensures { option_copied result ≡ entry_at key.now (visible at (T.content table.now)) }
{
    match table.get(key) {
        None => None,
        Some(entry) => {
            if is_visible(entry, at) {
                Some(entry)
            } else {
                None
            }
        }
    }
}

// Whether a key with this entry, or without one, differs from what was shown at this place, or
// nothing was.
fn is_new(found: Option<&Entry>, last: &[Shown], place: usize) -> bool
    ensures { result ≡ is_new (option_copied found.entry) (slice_get last.now place) }
{
    match last.get(place) {
        Some(was) => was.differs(found),
        None => true,
    }
}

// What a frame says of a key with this entry, or without one.
fn key_frame(alloc: Global, found: Option<&Entry>, changed: bool) -> Result<KeyFrame, NoMemory>
    ensures { IfOk result (λ k. k ≡ record {
      changed = changed;
      entry = if changed then option_copied found.entry else None;
    }) }
{
    let entry = match found {
        Some(entry) => {
            if changed {
                Some(entry.copy(alloc)?)
            } else {
                None
            }
        }
        None => None,
    };
    Ok(KeyFrame { changed, entry })
}

// Whether some key differs from what was shown of it.
fn is_some_new<T: Table>(table: &T, at: u64, keys: &[Bytes], last: &[Shown]) -> bool
    ensures { result ≡ is_some_changed (key_frames (visible at (T.content table.now)) keys.now
        (map commit_shown last.now)) }
{
    let mut place = 0usize;
    for key in keys {
        let found = seen_at(table, key.as_slice(), at);
        if is_new(found, last, place) {
            return true;
        }
        place += 1;
    }
    false
}

// Each key beside what was shown of it.
fn frames_of<T: Table>(
    alloc: Global,
    table: &T,
    at: u64,
    keys: &[Bytes],
    last: &[Shown],
) -> Result<Run<KeyFrame>, NoMemory>
    ensures { IfOk result (λ frames.
        frames ≡ key_frames (visible at (T.content table.now)) keys.now
        (map commit_shown last.now)) }
{
    let mut frames = Run::new(alloc);
    let mut place = 0usize;
    for key in keys {
        let found = seen_at(table, key.as_slice(), at);
        let changed = is_new(found, last, place);
        frames.add(key_frame(alloc, found, changed)?)?;
        place += 1;
    }
    Ok(frames)
}

impl Watcher {
    /// The frame of what the table has at the moment, in milliseconds since 1970, beside what the
    /// last frame showed; none where no key changed. Takes memory for a frame alone, and leaves it
    /// to `show` to note what it showed.
    pub fn frame<T: Table>(
        &self,
        alloc: Global,
        table: &T,
        at: u64,
    ) -> Result<Option<Frame>, NoMemory>
        ensures value { IfOk result
            (IsFrame (T.content table.now) at self.now.keys self.now.shown) }
        ensures none { IfOk result
            (IsToldStill (T.content table.now) at self.now.keys self.now.shown) }
    {
        let keys = self.keys();
        let last = match self.shown() {
            None => &[],
            Some(last) => {
                if !is_some_new(table, at, keys, last) {
                    return Ok(None);
                }
                last
            }
        };
        let keys = frames_of(alloc, table, at, keys, last)?;
        Ok(Some(Frame { keys }))
    }

    /// What a frame at the moment, in milliseconds since 1970, shows of each key. Takes memory.
    pub fn shown_at<T: Table>(
        &self,
        alloc: Global,
        table: &T,
        at: u64,
    ) -> Result<Run<Shown>, NoMemory>
        ensures value { IfOk result (λ shown.
            shown ≡ shows (visible at (T.content table.now)) self.now.keys) }
        ensures one_each { IfOk result (λ shown. length shown ≡ length self.now.keys) }
    {
        let mut shown = Run::new(alloc);
        for key in self.keys() {
            shown.add(Shown::of(seen_at(table, key.as_slice(), at)))?;
        }
        Ok(shown)
    }
}
