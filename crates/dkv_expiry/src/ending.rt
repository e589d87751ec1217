// When an entry ends, and what is looked for among such moments.
ghost use Rattle.std.specs.Prelude.{◌≡◌};
ghost use Rattle.dkv_expiry.specs.Endings.{ending_cmp};

use dkv_base::Bytes;
use dkv_index::{Probe, Ranked};
use std::alloc::Global;
use std::cmp::Ordering;

/// When an entry ends.
#[derive(Debug, Drop)]
pub struct Ending {
    /// In milliseconds since 1970.
    pub at: u64,
    /// The key of the entry that ends then.
    pub key: Bytes,
}

// An ending that is looked for.
#[derive(Drop)]
pub(crate) struct EndingAt<'a> {
    pub(crate) at: u64,
    pub(crate) key: &'a [u8],
}

fn compare(at: u64, key: &[u8], ending: &Ending) -> Ordering
    ensures { result ≡ ending_cmp (record { at = at; key = key.now }) ending.now }
{
    at.cmp(&ending.at).then(key.cmp(ending.key.as_slice()))
}

impl Ranked for Ending {
    ghost use Rattle.std.specs.Cmp.{then_total, on_total, nat_cmp_total};
    ghost use Rattle.std.specs.Cmp.Lexicographic.{nat_list_cmp_total};
    ghost use Rattle.dkv_expiry.specs.Endings.{ending_cmp};

    ghost rank = { ending_cmp };

    ghost total = { then_total (on_total (λ e.
        e.at) nat_cmp_total) (on_total (λ e. e.key) nat_list_cmp_total) };

    fn rank(&self, other: &Ending) -> Ordering {
        compare(self.at, self.key.as_slice(), other)
    }

    fn blank(alloc: Global) -> Ending {
        Ending {
            at: 0,
            key: Bytes::of(Vec::new(alloc)),
        }
    }
}

impl<'a> Probe<Ending> for EndingAt<'a> {
    ghost stands_for = { λ p. record { at = p.at; key = p.key.now } };

    fn rank(&self, item: &Ending) -> Ordering {
        compare(self.at, self.key, item)
    }
}
