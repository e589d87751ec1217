// What an item and a search have to say of their ranks.
ghost use Rattle.std.specs.Prelude.{◌≡◌};
ghost use Rattle.std.specs.Cmp.{IsTotalOrder};
ghost use Rattle.std.specs.declared.cmp.Ordering.{Ordering};

use std::alloc::Global;
use std::cmp::Ordering;

/// An item that has a rank among its like. Two that rank equal need not be the same.
pub trait Ranked: Drop {
    /// How the ranks of two items compare.
    ghost rank: { Self → Self → Ordering };

    /// Compares the ranks. Takes no memory.
    fn rank(&self, other: &Self) -> Ordering
        ensures { result ≡ rank self.now other.now };

    /// An item that fills a place until one is put there, whatever it is. Takes no memory.
    fn blank(alloc: Global) -> Self;

    /// Ranks are in a total order.
    ghost total: { IsTotalOrder rank };
}

/// What a search looks for: it stands for an item without owning one.
pub trait Probe<T: Ranked> {
    /// An item that ranks as it does.
    ghost stands_for: { Self → T };

    /// Compares the rank of what it stands for with that of an item. Takes no memory.
    fn rank(&self, item: &T) -> Ordering
        ensures { result ≡ T.rank (stands_for self.now) item.now };
}
