// What the links in memory give and keep where they are cut, quiet, held, or fail.
use crate::{HeldLink, Link, LinkGot, MOST_SLEEPS, MemoryLink, NoWait, Pace, Role, Waiter};
use std::alloc::{AllocError, Global};
use std::io;
use std::sync::atomic::{AtomicBool, AtomicU64, Ordering};
use std::test::Fail;
use std::time::{Clock, Duration};

// What a link is to give, and the same bytes as one number.
const BYTES: &[u8; 5] = b"abcde";

const WORD: u64 = 0x61_62_63_64_65;

// An answer of a read as a number: how many bytes it gave, or one of these.
const END: u64 = 10;

const QUIET: u64 = 11;

const FAILED: u64 = 12;

// A call or a read that never comes.
const NEVER: u64 = 99;

fn number_of(got: LinkGot) -> u64 {
    match got {
        LinkGot::Bytes(n) => n as u64,
        LinkGot::End => END,
        LinkGot::Quiet => QUIET,
        LinkGot::Failed => FAILED,
    }
}

// A link that gives the bytes, fails at a call, is quiet at two reads, and gives at most so many bytes at its first reads.
fn link_of(
    alloc: Global,
    fails: u64,
    quiets: [u64; 2],
    pieces: [u64; 5],
) -> Result<MemoryLink, AllocError> {
    let input = BYTES.to_vec(alloc)?;
    let fails = [fails].to_vec(alloc)?;
    let pace = Pace::new(quiets.to_vec(alloc)?, pieces.to_vec(alloc)?);
    Ok(MemoryLink::new(alloc, input, fails, pace))
}

// A link that gives the bytes at once, and fails at no call.
fn plain_link(alloc: Global) -> Result<MemoryLink, AllocError> {
    link_of(alloc, NEVER, [NEVER; 2], [NEVER; 5])
}

// What the next reads into 4 bytes answer, and the bytes that they gave as one number.
fn reads_of<L: Link>(link: &mut L, answers: &mut [u64]) -> u64 {
    let mut word = 0u64;
    for answer in answers.iter_mut() {
        let mut buffer = [0; 4];
        let got = link.read(&mut buffer);
        *answer = number_of(got);
        if let LinkGot::Bytes(n) = got {
            for byte in &buffer[..n] {
                word = word.wrapping_mul(256).wrapping_add(*byte as u64);
            }
        }
    }
    word
}

#[test]
fn a_link_gives_all_its_bytes_wherever_it_is_cut_quiet_or_fails(
    rt: HostRuntime,
) -> Result<(), Fail> {
    let no = [NEVER; 2];
    let all = [NEVER; 5];
    for (fails, quiets, pieces, want) in [
        (NEVER, no, all, [4, 1, END, END, END, END]),
        (NEVER, no, [0; 5], [1, 1, 1, 1, 1, END]),
        (NEVER, no, [1; 5], [1, 1, 1, 1, 1, END]),
        (NEVER, no, [1, 9, 9, 9, 9], [1, 4, END, END, END, END]),
        (NEVER, no, [2, 9, 9, 9, 9], [2, 3, END, END, END, END]),
        (NEVER, no, [3, 9, 9, 9, 9], [3, 2, END, END, END, END]),
        (NEVER, no, [2, 1, 2, 9, 9], [2, 1, 2, END, END, END]),
        (NEVER, [0, 1], all, [QUIET, QUIET, 4, 1, END, END]),
        (NEVER, [1, 2], all, [4, QUIET, QUIET, 1, END, END]),
        (NEVER, [2, 3], all, [4, 1, QUIET, QUIET, END, END]),
        (0, no, all, [FAILED, 4, 1, END, END, END]),
        (1, no, all, [4, FAILED, 1, END, END, END]),
        (2, no, all, [4, 1, FAILED, END, END, END]),
        (3, no, all, [4, 1, END, FAILED, END, END]),
        (1, [1, 2], all, [4, FAILED, QUIET, 1, END, END]),
    ] {
        let mut link = link_of(rt.alloc(), fails, quiets, pieces)?;
        let mut answers = [0; 6];
        assert_eq!(rt; reads_of(&mut link, &mut answers), WORD);
        assert_eq!(rt; answers, want);
    }
    Ok(())
}

#[test]
fn a_write_that_fails_adds_nothing(rt: HostRuntime) -> Result<(), Fail> {
    for (fails, want) in [(0, b"cdef"), (1, b"abef"), (2, b"abcd")] {
        let mut link = link_of(rt.alloc(), fails, [NEVER; 2], [NEVER; 5])?;
        for (number, bytes) in [(0, b"ab"), (1, b"cd"), (2, b"ef")] {
            assert_eq!(rt; link.write(bytes).is_err(), number == fails);
        }
        assert_eq!(rt; link.output(), want.as_slice());
        assert_eq!(rt; link.plan.faults, 1);
    }
    Ok(())
}

#[test]
fn reads_and_writes_are_counted_together(rt: HostRuntime) -> Result<(), Fail> {
    let mut link = link_of(rt.alloc(), 1, [NEVER; 2], [NEVER; 5])?;
    let mut answers = [0; 2];
    assert_eq!(rt; link.write(b"x"), Ok(()));
    assert_eq!(rt; reads_of(&mut link, &mut answers), WORD / 256);
    assert_eq!(rt; answers, [FAILED, 4]);
    Ok(())
}

// A clock that counts the milliseconds of its sleeps, and sets the flag in one of them.
#[derive(Drop)]
struct Sleeps<'a> {
    count: AtomicU64,
    sets_in: u64,
    flag: &'a AtomicBool,
}

impl Clock for Sleeps<'_> {
    fn monotonic(&self) -> io::Result<Duration> {
        Ok(Duration::from_millis(0))
    }

    fn since_1970(&self) -> io::Result<Duration> {
        Ok(Duration::from_millis(0))
    }

    fn sleep(&self, duration: Duration) {
        let millis = duration.subsec_millis() as u64;
        if self.count.fetch_add(millis, Ordering::SeqCst) == self.sets_in {
            self.flag.store(true, Ordering::SeqCst);
        }
    }
}

// How often a link sleeps that awaits its flag, which one of the sleeps sets, and what its first two reads answer.
fn awaited(alloc: Global, set: bool, sets_in: u64, fails: u64) -> Result<[u64; 3], AllocError> {
    let flag = AtomicBool::new(set);
    let clock = Sleeps {
        count: AtomicU64::new(0),
        sets_in,
        flag: &flag,
    };
    let inner = link_of(alloc, fails, [NEVER; 2], [NEVER; 5])?;
    let mut link = HeldLink::new(&clock, &flag, inner, Role::Awaits);
    let mut answers = [0; 2];
    let _ = reads_of(&mut link, &mut answers);
    Ok([clock.count.load(Ordering::SeqCst), answers[0], answers[1]])
}

#[test]
fn a_held_read_sleeps_until_the_flag_is_set(rt: HostRuntime) -> Result<(), Fail> {
    let most = MOST_SLEEPS as u64;
    for (set, sets_in, fails, want) in [
        (true, most, NEVER, [0, 4, 1]),
        (false, 0, NEVER, [1, 4, 1]),
        (false, 41, NEVER, [42, 4, 1]),
        (false, most, NEVER, [most, END, 4]),
        (false, 41, 0, [42, FAILED, 4]),
        (false, most, 0, [most, FAILED, 4]),
    ] {
        assert_eq!(rt; awaited(rt.alloc(), set, sets_in, fails)?, want);
    }
    Ok(())
}

// What goes to another thread.
fn sent<T: Send>(value: T) -> T {
    value
}

#[test]
fn a_held_link_gives_its_bytes_once_the_other_was_written_on(rt: HostRuntime) -> Result<(), Fail> {
    let flag = AtomicBool::new(false);
    let mut first = HeldLink::new(&rt, &flag, plain_link(rt.alloc())?, Role::Sets);
    let mut second = sent(HeldLink::new(&rt, &flag, plain_link(rt.alloc())?, Role::Awaits));
    let mut answers = [0; 3];
    assert_eq!(rt; second.write(b"no"), Ok(()));
    assert_eq!(rt; reads_of(&mut first, &mut answers), WORD);
    assert!(rt; !flag.load(Ordering::SeqCst));
    assert_eq!(rt; first.write(b"yes"), Ok(()));
    assert!(rt; flag.load(Ordering::SeqCst));
    assert_eq!(rt; reads_of(&mut second, &mut answers), WORD);
    assert_eq!(rt; answers, [4, 1, END]);
    assert_eq!(rt; first.link.output(), b"yes".as_slice());
    assert_eq!(rt; second.link.output(), b"no".as_slice());
    Ok(())
}

#[test]
fn pauses_are_counted(rt: HostRuntime) {
    let mut waiter = sent(NoWait::new(&rt));
    for count in [1, 2, 3] {
        waiter.pause();
        assert_eq!(rt; waiter.pauses, count);
    }
}
