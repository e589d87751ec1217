//! What a pass counts at run time.
ghost use Rattle.std.specs.Prelude.{◌≡◌, max};
ghost use Rattle.dkv_base.specs.Moments.{capped_moment};

use dkv_base::MAX_MOMENT;

/// Numbers of what it knows.
#[derive(Clone, Copy)]
pub struct Counts {
    /// The number of items seen.
    pub seen: u64,
    /// The greatest moment that its caller handed in, in milliseconds.
    pub asked: u64,
    /// Its number.
    pub who: u32,
    /// How many numbers it has to give away.
    pub left: u32,
}

impl Counts {
    /// Notes a moment that its caller hands in. One above the last moment is taken as that.
    pub fn ask(self, at: u64) -> Counts
        ensures asked { result.asked ≡ max self.asked (capped_moment at) }
        ensures others { (result.seen ≡ self.seen) × (result.who ≡ self.who)
            × (result.left ≡ self.left) }
    {
        let Counts {
            seen,
            asked,
            who,
            left,
        } = self;
        Counts {
            seen,
            asked: asked.max(at.min(MAX_MOMENT)),
            who,
            left,
        }
    }
}
