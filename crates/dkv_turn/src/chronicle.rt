//! The trait of a value that a turn guards.
ghost use Rattle.std.specs.Prelude.{◌≡◌, ◌<◌, ◌^◌, ℕ, List, length};

/// A value that keeps a list of items, to which passes add. It says its length and its loan at once, without memory.
pub trait Chronicle {
    type Item;

    /// What stays of the value while a turn has it. It is for contracts: no value of it need be made.
    type Ground;

    ghost items: { Self → List Self.Item };

    // The number of the pass that an item carries.
    ghost carries: { Self.Item → ℕ };

    ghost lent: { Self → ℕ };

    ghost grounds: { Self → Self.Ground };

    /// The number of items.
    fn length(&self) -> u64
        ensures is { result ≡ length (items self.now) }
        ensures few { result < 2 ^ 63 };

    /// The loan, of which 0 means none.
    fn loan(&self) -> u64
        ensures { result ≡ lent self.now };
}
