// The index at an item with a rank and a mark, and how many comparisons a search takes.
ghost use Rattle.std.specs.Ordering.{nat_cmp, on};
ghost use Rattle.std.specs.Cmp.{on_total, nat_cmp_total};

use super::*;
use dkv_base::NoMemory;
use std::alloc::Global;
use std::cell::Cell;
use std::cmp::Ordering;
use std::test::Fail;

#[derive(Drop)]
struct Item {
    rank: u64,
    mark: u64,
}

impl Ranked for Item {
    ghost rank = { on (λ i. i.rank) nat_cmp };

    ghost total = { on_total (λ i. i.rank) nat_cmp_total };

    fn rank(&self, other: &Item) -> Ordering {
        self.rank.cmp(&other.rank)
    }

    fn blank(_alloc: Global) -> Item {
        Item { rank: 0, mark: 0 }
    }
}

// A probe that counts its comparisons.
#[derive(Drop)]
struct At<'a> {
    rank: u64,
    compared: &'a Cell<u32>,
}

impl<'a> Probe<Item> for At<'a> {
    ghost stands_for = { λ p. record { rank = p.rank; mark = 0 } };

    fn rank(&self, item: &Item) -> Ordering {
        self.compared.set(self.compared.get().saturating_add(1));
        self.rank.cmp(&item.rank)
    }
}

// Puts an item in, and gives the mark of the one that it replaces, or 0.
fn put(index: &mut Index<Item>, rank: u64, mark: u64) -> Result<u64, NoMemory> {
    index.reserve(1)?;
    let was = index.put(Item { rank, mark });
    Ok(was.map_or(0, |item| item.mark))
}

// What a call gives of the rank: a mark or a rank, or 0 where there is none.
fn call(index: &mut Index<Item>, name: char, rank: u64) -> u64 {
    let compared = Cell::new(0);
    let at = At {
        rank,
        compared: &compared,
    };
    match name {
        'g' => index.get(&at).map_or(0, |item| item.mark),
        't' => index.take(&at).map_or(0, |item| item.mark),
        'a' => index.above(&at).map_or(0, |item| item.rank),
        'f' => index.first().map_or(0, |item| item.rank),
        _ => index.len() as u64,
    }
}

#[test]
fn each_call_does_its_work(rt: HostRuntime) -> Result<(), Fail> {
    let mut index = Index::new(rt.alloc());
    for (rank, mark, was) in [(7, 71, 0), (9, 91, 0), (2, 21, 0), (7, 72, 71)] {
        assert_eq!(rt; put(&mut index, rank, mark)?, was);
    }
    for (name, rank, answer) in [
        ('l', 0, 3),
        ('f', 0, 2),
        ('g', 7, 72),
        ('g', 8, 0),
        ('a', 7, 9),
        ('a', 9, 0),
        ('t', 7, 72),
        ('t', 7, 0),
        ('a', 2, 9),
        ('l', 0, 2),
    ] {
        assert_eq!(rt; call(&mut index, name, rank), answer, "{name} of {rank}");
    }
    Ok(())
}

const MANY: u64 = 10_000;

// The comparisons of a look-up, which has to find an item.
fn comparisons(index: &Index<Item>, rank: u64) -> u32 {
    let compared = Cell::new(0);
    let found = index.get(&At {
        rank,
        compared: &compared,
    });
    if found.is_some() {
        compared.get()
    } else {
        u32::MAX
    }
}

// The most comparisons that a look-up of every hundredth item takes.
fn most_comparisons(index: &Index<Item>) -> u32 {
    let mut most = 0;
    for rank in (0..MANY).step_by(100) {
        most = most.max(comparisons(index, rank));
    }
    most
}

// Puts all items in, in steps. Gives how many there are then.
fn fill(index: &mut Index<Item>, step: u64) -> Result<usize, NoMemory> {
    for i in 0..MANY {
        put(index, i.wrapping_mul(step) % MANY, 1)?;
    }
    Ok(index.len())
}

// Leaves every hundredth item. Gives how many there are then.
fn thin_out(index: &mut Index<Item>) -> usize {
    for rank in 0..MANY {
        if rank % 100 != 0 {
            call(index, 't', rank);
        }
    }
    index.len()
}

// A tree of 10,000 items whose sides differ in height by one at the most is at most 18 levels high, and one of 100 at most 9.
#[test]
fn ten_thousand_items_stay_shallow(rt: HostRuntime) -> Result<(), Fail> {
    for step in [1, 9_999, 3_787] {
        let mut index = Index::new(rt.alloc());
        assert_eq!(rt; fill(&mut index, step)?, 10_000);
        assert!(rt; most_comparisons(&index) <= 18);
        assert_eq!(rt; thin_out(&mut index), 100);
        assert!(rt; most_comparisons(&index) <= 9);
    }
    Ok(())
}
