//! Passes through a lock: each of some threads adds its items to one list, under the turn or under the system's mutex.
//!
//! Its words are `turn` or `mutex`, the number of threads, the number of items that each adds, and for how many
//! microseconds it sleeps under the lock for each. The script `bench/turn.sh` times it.
#![tactic(auto)]

mod by_mutex;
mod by_turn;
mod load;
mod tally;

use load::Load;
use std::alloc::Global;
use std::sync::Wait;
use std::thread::Threads;
use std::time::Clock;
use std::{env, io};

// How many items there are at the end, or nothing where memory is wanting or the lock has no such name.
fn items_of<R: Threads + Wait + Clock + Sync>(
    rt: &R,
    alloc: Global,
    lock: &str,
    others: u32,
    load: Load,
) -> Option<usize> {
    match lock {
        "turn" => {
            let tally = by_turn::tally_of(rt, alloc, others, load)?;
            Some(tally.marks.len())
        }
        "mutex" => Some(by_mutex::total(rt, alloc, others, load)),
        _ => None,
    }
}

fn main(rt: HostRuntime) -> io::Result<()> {
    let mut words = env::args(&rt)?;
    let _program = words.next();
    let lock = words.next().unwrap_or(String::new(rt.alloc()));
    let threads = number(words.next());
    let rounds = number(words.next());
    let hold = number(words.next());
    match items_of(
        &rt,
        rt.alloc(),
        lock.as_str(),
        threads.saturating_sub(1),
        Load { rounds, hold },
    ) {
        Some(items) => println!(rt; "{threads} threads, {rounds} rounds: {items} items"),
        None => println!(rt; "words: turn or mutex, threads, rounds, microseconds"),
    }
}

fn number(word: Option<String>) -> u32 {
    match word {
        Some(digits) => digits.as_str().parse::<u32>().unwrap_or(0),
        None => 0,
    }
}

#[cfg(test)]
mod tests;
