// Steps that are drawn by a generator, the same ones in each run.
use super::parts::{Part, make_part};
use super::plain_list::PlainList;
use std::alloc::Global;
use std::test::Fail;

/// Draws steps, callers and moments.
#[derive(Clone, Copy)]
pub struct Draws {
    state: u32,
    clock: u32,
}

impl Draws {
    pub fn new() -> Draws {
        Draws {
            state: 1,
            clock: 1000,
        }
    }

    fn bits(&mut self) -> u32 {
        self.state = self
            .state
            .wrapping_mul(1_664_525)
            .wrapping_add(1_013_904_223);
        self.state / 65_536
    }

    /// One of five callers.
    pub fn caller(&mut self) -> u32 {
        1 + self.bits() % 5
    }

    /// A moment that mostly rises, and sometimes goes back.
    pub fn moment(&mut self) -> u64 {
        self.clock = self.clock.wrapping_add(self.bits() % 40);
        if self.bits() % 8 == 0 {
            u64::from(self.clock.saturating_sub(self.bits() % 200))
        } else {
            u64::from(self.clock)
        }
    }

    // One of four keys.
    fn key(&mut self) -> u8 {
        match self.bits() % 4 {
            0 => b'a',
            1 => b'b',
            2 => b'c',
            _ => b'd',
        }
    }

    // What happens so often in four times.
    fn happens(&mut self, times: u32) -> bool {
        self.bits() % 4 < times
    }

    /// Any step. It mostly knows what stands under a key, and which message is out.
    pub fn step(&mut self, alloc: Global, list: &PlainList) -> Result<Vec<Part>, Fail> {
        let id = if self.happens(3) {
            list.some_out()
        } else {
            (list.number(), 0)
        };
        let one = match self.bits() % 16 {
            0..=3 => return self.write(alloc, list, 0),
            4 => return self.write(alloc, list, 1),
            5 => return self.write(alloc, list, 2),
            6..=9 => make_part(b't', 0, 0, 0),
            10 => make_part(b'h', 0, id.0, id.1),
            11..=13 => make_part(b'f', 0, id.0, id.1),
            _ => make_part(b'g', self.key(), 0, 0),
        };
        let mut parts = Vec::new(alloc);
        parts.push(one)?;
        Ok(parts)
    }

    /// Any step, or in two of five draws a watch of one or two keys, or a poll.
    pub fn watching_step(&mut self, alloc: Global, list: &PlainList) -> Result<Vec<Part>, Fail> {
        let mut one = match self.bits() % 10 {
            0 => make_part(b'w', self.key(), 0, 0),
            1..=3 => make_part(b'p', 0, 0, 0),
            _ => return self.step(alloc, list),
        };
        if one.key > 0 && self.happens(2) {
            one.end = self.key();
        }
        let mut parts = Vec::new(alloc);
        parts.push(one)?;
        Ok(parts)
    }

    /// A write with so many messages.
    pub fn write(
        &mut self,
        alloc: Global,
        list: &PlainList,
        messages: u32,
    ) -> Result<Vec<Part>, Fail> {
        let mut parts = Vec::new(alloc);
        parts.push(self.check(list))?;
        if self.happens(1) {
            parts.push(self.check(list))?;
        }
        if messages == 0 || self.happens(2) {
            parts.push(self.change())?;
        }
        if self.happens(2) {
            parts.push(self.change())?;
        }
        for _ in 0..messages {
            self.enqueue(&mut parts)?;
        }
        Ok(parts)
    }

    fn check(&mut self, list: &PlainList) -> Part {
        let key = self.key();
        let commit = if self.happens(3) {
            list.commit_of(key)
        } else {
            0
        };
        make_part(b'c', key, commit, 0)
    }

    fn change(&mut self) -> Part {
        let word = match self.bits() % 8 {
            0..=3 => b's',
            4 => b'd',
            _ => b'a',
        };
        let number = u64::MAX - u64::from(self.bits() % 3);
        make_part(word, self.key(), number, self.expiry())
    }

    // None, or soon, or in the past.
    fn expiry(&mut self) -> u64 {
        match self.bits() % 8 {
            0..=4 => 0,
            5 | 6 => u64::from(self.clock.wrapping_add(self.bits() % 400)),
            _ => u64::from(self.clock.saturating_sub(5)),
        }
    }

    // A moment that other messages have, too.
    fn deadline(&mut self) -> u64 {
        u64::from(self.clock / 100 + self.bits() % 3) * 100
    }

    fn enqueue(&mut self, parts: &mut Vec<Part>) -> Result<(), Fail> {
        let payload = u64::from(self.bits() % 200);
        parts.push(make_part(b'e', 0, payload, self.deadline()))?;
        let waits: &[u64] = match self.bits() % 4 {
            0 => &[],
            1 => &[0, 30],
            _ => &[20],
        };
        for wait in waits {
            parts.push(make_part(b'w', 0, *wait, 0))?;
        }
        let keys: &[u8] = match self.bits() % 4 {
            0 => b"",
            1 => b"a",
            2 => b"cb",
            _ => b"dd",
        };
        for key in keys {
            parts.push(make_part(b'k', *key, 0, 0))?;
        }
        Ok(())
    }
}
