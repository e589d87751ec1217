//! The value that the benchmark and its tests guard.
ghost use Rattle.std.specs.Prelude.{◌≡◌};

use dkv_turn::Chronicle;

/// It has the number of each pass that marked it, in order, and a loan, of which 0 means none.
#[derive(Drop)]
pub struct Tally {
    pub marks: Vec<u32>,
    pub lent: u64,
}

impl Chronicle for Tally {
    type Item = u32;

    type Ground = ();

    ghost items = { λ t. t.marks.items };

    ghost carries = { λ x. x };

    ghost lent = { λ t. t.lent };

    ghost grounds = { λ _. tt };

    fn length(&self) -> u64 {
        self.marks.len() as u64
    }

    fn loan(&self) -> u64 {
        self.lent
    }
}
