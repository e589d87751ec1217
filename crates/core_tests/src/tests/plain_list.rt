// The slow program beside the core: entries and messages in lists, without order, that are gone through from their start.
use super::parts::{NOTHING, Part};
use super::telling::{say, say_entry, say_key, say_leased};
use std::alloc::Global;
use std::test::Fail;

const LAST_MOMENT: u64 = 253_370_764_800_000;

const DEFAULT_WAITS: [u64; 5] = [100, 1000, 5000, 30000, 60000];

/// Under a key of one letter. It ends at `expire`, or never where that is 0.
#[derive(Clone, Copy)]
struct Stored {
    key: u8,
    is_payload: bool,
    number: u64,
    commit: u64,
    expire: u64,
}

/// A message of the queue.
#[derive(Clone, Copy)]
struct Waiting {
    commit: u64,
    index: u64,
    /// The place of its enqueue among all parts so far.
    place: usize,
    due: u64,
    fails: u64,
    out: bool,
}

impl Waiting {
    fn is(&self, id: (u64, u64)) -> bool {
        self.commit == id.0 && self.index == id.1
    }

    fn comes_before(&self, other: &Waiting) -> bool {
        if self.due != other.due {
            self.due < other.due
        } else if self.commit != other.commit {
            self.commit < other.commit
        } else {
            self.index < other.index
        }
    }
}

/// A caller's watch, and the commits that its last frame showed; 0 where a key was absent.
#[derive(Clone, Copy)]
struct Watching {
    who: u32,
    keys: [u8; 2],
    shown: [u64; 2],
    is_new: bool,
}

#[derive(Drop)]
pub struct PlainList {
    number: u64,
    last: u64,
    greatest: u64,
    entries: Vec<Stored>,
    messages: Vec<Waiting>,
    watches: Vec<Watching>,
    // The parts of all writes, with nothing behind each.
    parts: Vec<Part>,
}

impl PlainList {
    pub fn new(alloc: Global) -> PlainList {
        PlainList {
            number: 0,
            last: 0,
            greatest: 0,
            entries: Vec::new(alloc),
            messages: Vec::new(alloc),
            watches: Vec::new(alloc),
            parts: Vec::new(alloc),
        }
    }

    pub fn number(&self) -> u64 {
        self.number
    }

    /// The commit of what the key holds; 0 where it holds nothing.
    pub fn commit_of(&self, key: u8) -> u64 {
        find(&self.entries, key, self.greatest).map_or(0, |entry| entry.commit)
    }

    pub fn is_out(&self, id: (u64, u64)) -> bool {
        self.messages
            .iter()
            .any(|message| message.is(id) && message.out)
    }

    /// Some message that is out; else the first that the last commit may have made.
    pub fn some_out(&self) -> (u64, u64) {
        for message in &self.messages {
            if message.out {
                return (message.commit, message.index);
            }
        }
        (self.number, 0)
    }

    /// Does what a caller asks at a moment.
    pub fn answer(
        &mut self,
        alloc: Global,
        (who, at): (u32, u64),
        parts: &[Part],
    ) -> Result<String, Fail> {
        let first = parts.first().copied().unwrap_or(NOTHING);
        let id = (first.first, first.second);
        let effective = at.min(LAST_MOMENT).max(self.greatest);
        match first.word {
            b'n' => return self.now(alloc),
            b'o' => return say(alloc, "out", &[u64::from(self.is_out(id))]),
            b'h' | b'f' if !self.is_out(id) => return say(alloc, "not out", &[]),
            b'w' if first.key == 0 => return say(alloc, "limit", &[]),
            b'p' if !self.is_watching(who) => return say(alloc, "no watch", &[]),
            _ if parts.iter().any(|part| part.word == b'x') => return say(alloc, "limit", &[]),
            _ => self.greatest = effective,
        }
        match first.word {
            b't' => self.take(alloc),
            b'h' | b'f' => self.settle(alloc, id, first.word == b'h'),
            b'g' | b'r' | b'b' => self.read(alloc, &first),
            b'w' => self.watch(alloc, who, [first.key, first.end]),
            b'p' => self.poll(alloc, who),
            _ => self.write(alloc, parts),
        }
    }

    fn now(&self, alloc: Global) -> Result<String, Fail> {
        let waiting = self.messages.len() as u64;
        say(
            alloc,
            "now",
            &[self.number, self.last, self.greatest, waiting],
        )
    }

    // The letters of the keys from the first one on and below the other, or from there down, each looked for by itself.
    fn read(&self, alloc: Global, part: &Part) -> Result<String, Fail> {
        let (end, most) = if part.word == b'g' {
            (part.key.wrapping_add(1), 1)
        } else {
            (part.end, part.first)
        };
        let mut text = say(alloc, "found", &[])?;
        let mut count = 0u64;
        for step in 0..end.saturating_sub(part.key) {
            let key = if part.word == b'b' {
                end.wrapping_sub(1).wrapping_sub(step)
            } else {
                part.key.wrapping_add(step)
            };
            if let Some(entry) = find(&self.entries, key, self.greatest) {
                if count < most {
                    say_entry(&mut text, key, entry.is_payload, entry.number, entry.commit)?;
                    count = count.wrapping_add(1);
                }
            }
        }
        Ok(text)
    }

    fn is_watching(&self, who: u32) -> bool {
        self.watches.iter().any(|watch| watch.who == who)
    }

    // A caller's watch goes where it begins another.
    fn watch(&mut self, alloc: Global, who: u32, keys: [u8; 2]) -> Result<String, Fail> {
        self.watches.retain(|watch| watch.who != who);
        self.watches.push(Watching {
            who,
            keys,
            shown: [0, 0],
            is_new: true,
        })?;
        self.poll(alloc, who)
    }

    fn poll(&mut self, alloc: Global, who: u32) -> Result<String, Fail> {
        for place in 0..self.watches.len() {
            let watch = self.watches[place];
            if watch.who == who {
                let shown = [self.commit_of(watch.keys[0]), self.commit_of(watch.keys[1])];
                self.watches[place].shown = shown;
                self.watches[place].is_new = false;
                if watch.is_new || shown != watch.shown {
                    return self.frame(alloc, &watch);
                }
            }
        }
        say(alloc, "no frame", &[])
    }

    // What stands under the keys, beside what was shown.
    fn frame(&self, alloc: Global, watch: &Watching) -> Result<String, Fail> {
        let mut text = say(alloc, "frame", &[])?;
        for place in 0..2usize {
            let key = watch.keys[place];
            if key > 0 {
                let changed = watch.is_new || self.commit_of(key) != watch.shown[place];
                match find(&self.entries, key, self.greatest) {
                    Some(entry) if changed => {
                        say_entry(&mut text, key, entry.is_payload, entry.number, entry.commit)?;
                    }
                    _ => say_key(&mut text, changed)?,
                }
            }
        }
        Ok(text)
    }

    // The places of the checks that don't hold.
    fn failing(&self, alloc: Global, parts: &[Part]) -> Result<Vec<u64>, Fail> {
        let mut failing = Vec::new(alloc);
        let mut place = 0u64;
        for part in parts {
            if part.word == b'c' {
                if self.commit_of(part.key) != part.first {
                    failing.push(place)?;
                }
                place = place.wrapping_add(1);
            }
        }
        Ok(failing)
    }

    fn write(&mut self, alloc: Global, parts: &[Part]) -> Result<String, Fail> {
        let failing = self.failing(alloc, parts)?;
        if !failing.is_empty() {
            return say(alloc, "fails", &failing);
        }
        let mut entries = Vec::from_slice(alloc, &self.entries)?;
        let mut place = 0u64;
        for part in parts {
            if matches!(part.word, b's' | b'd' | b'a') {
                if !self.change(&mut entries, part)? {
                    return say(alloc, "no number", &[place]);
                }
                place = place.wrapping_add(1);
            }
        }
        self.entries = entries;
        self.number = self.number.wrapping_add(1);
        self.last = self.greatest;
        self.enqueue(parts)?;
        say(alloc, "written", &[self.number])
    }

    // A SET, a DELETE or a SUM, unless the sum meets what is no number.
    fn change(&self, entries: &mut Vec<Stored>, part: &Part) -> Result<bool, Fail> {
        let old = find(entries, part.key, self.greatest);
        let mut number = part.first;
        if let Some(old) = old {
            if part.word == b'a' && old.is_payload {
                return Ok(false);
            }
            if part.word == b'a' {
                number = number.wrapping_add(old.number);
            }
        }
        entries.retain(|entry| entry.key != part.key);
        if part.word != b'd' {
            entries.push(Stored {
                key: part.key,
                is_payload: false,
                number,
                commit: self.number.wrapping_add(1),
                expire: part.second,
            })?;
        }
        Ok(true)
    }

    fn enqueue(&mut self, parts: &[Part]) -> Result<(), Fail> {
        let mut index = 0u64;
        for part in parts {
            if part.word == b'e' {
                self.messages.push(Waiting {
                    commit: self.number,
                    index,
                    place: self.parts.len(),
                    due: part.second,
                    fails: 0,
                    out: false,
                })?;
                index = index.wrapping_add(1);
            }
            self.parts.push(*part)?;
        }
        self.parts.push(NOTHING)?;
        Ok(())
    }

    // Of those that wait, the one that is due before all others.
    fn first_due(&self) -> Option<Waiting> {
        let mut first: Option<Waiting> = None;
        for message in &self.messages {
            let is_first = match first {
                None => true,
                Some(other) => message.comes_before(&other),
            };
            if is_first && !message.out {
                first = Some(*message);
            }
        }
        first
    }

    fn take(&mut self, alloc: Global) -> Result<String, Fail> {
        let Some(first) = self.first_due() else {
            return say(alloc, "nothing", &[]);
        };
        if first.due > self.greatest {
            return say(alloc, "nothing", &[first.due]);
        }
        let id = (first.commit, first.index);
        for message in self.messages.iter_mut() {
            if message.is(id) {
                message.out = true;
            }
        }
        let payload = self.parts.get(first.place).map_or(0, |part| part.first);
        say_leased(alloc, id, payload, first.due, first.fails)
    }

    fn settle(&mut self, alloc: Global, id: (u64, u64), done: bool) -> Result<String, Fail> {
        let found = self.messages.iter().find(|m| m.is(id)).copied();
        self.number = self.number.wrapping_add(1);
        self.last = self.greatest;
        self.messages.retain(|other| !other.is(id));
        if let Some(message) = found {
            if !done {
                self.put_back(alloc, message)?;
            }
        }
        say(alloc, "settled", &[self.number])
    }

    // The waits or the keys behind an enqueue.
    fn behind(&self, alloc: Global, place: usize, word: u8) -> Result<Vec<Part>, Fail> {
        let mut behind = Vec::new(alloc);
        for part in self.parts.iter().skip(place).skip(1) {
            if part.word != b'w' && part.word != b'k' {
                return Ok(behind);
            }
            if part.word == word {
                behind.push(*part)?;
            }
        }
        Ok(behind)
    }

    fn wait_after(&self, alloc: Global, message: &Waiting) -> Result<Option<u64>, Fail> {
        let waits = self.behind(alloc, message.place, b'w')?;
        let place = message.fails as usize;
        if waits.is_empty() {
            return Ok(DEFAULT_WAITS.get(place).copied());
        }
        Ok(waits.get(place).map(|part| part.first))
    }

    // A message that failed waits for its next interval, or its payload goes under its keys.
    fn put_back(&mut self, alloc: Global, message: Waiting) -> Result<(), Fail> {
        match self.wait_after(alloc, &message)? {
            Some(wait) => self.messages.push(Waiting {
                due: self.greatest.wrapping_add(wait),
                fails: message.fails.wrapping_add(1),
                out: false,
                ..message
            })?,
            None => self.keep(alloc, message.place)?,
        }
        Ok(())
    }

    fn keep(&mut self, alloc: Global, place: usize) -> Result<(), Fail> {
        let payload = self.parts.get(place).map_or(0, |part| part.first);
        for part in self.behind(alloc, place, b'k')? {
            self.entries.retain(|entry| entry.key != part.key);
            self.entries.push(Stored {
                key: part.key,
                is_payload: true,
                number: payload,
                commit: self.number,
                expire: 0,
            })?;
        }
        Ok(())
    }
}

// What the key holds at the moment.
fn find(entries: &[Stored], key: u8, at: u64) -> Option<Stored> {
    for entry in entries {
        let ended = entry.expire > 0 && entry.expire <= at;
        if entry.key == key && !ended {
            return Some(*entry);
        }
    }
    None
}
