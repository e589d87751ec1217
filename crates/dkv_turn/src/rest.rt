//! A pass at rest, in a type that does not name the value.
ghost use Rattle.std.specs.Prelude.{◌≡◌, ◌≤◌, length, max};
ghost use Rattle.dkv_base.specs.declared.moments.TheConstants.{MAX_MOMENT};
ghost use Rattle.dkv_base.specs.Moments.{capped_moment};
ghost use Rattle.dkv_turn.specs.Counted.{IsCountOf, IsTimed};
ghost use Rattle.dkv_turn.specs.Rests.{shown, RestsThere};

use crate::chronicle::Chronicle;
use crate::counts::Counts;
use crate::pass::Pass;
use crate::view::View;
use atomic_table::Badge;

/// A pass outside its turn: what one caller knows. It lies in types that do not name the value.
pub struct Rest<I, G> {
    badge: Badge<View<I, G>>,
    counts: Counts,
    ghost counted: { counts.seen ≡ length (shown badge.views).seen },
    ghost numbered: { counts.who ≡ (shown badge.views).who },
    ghost owned: { counts.left ≡ (shown badge.views).left },
    ghost timed: { (shown badge.views).at ≤ MAX_MOMENT },
    ghost asked_timed: { counts.asked ≤ MAX_MOMENT },
}

impl<I, G> Drop for Rest<I, G> {
    fn drop(self) {
        let Self {
            badge: _,
            counts: _,
        } = self;
    }
}

impl<I, G> Rest<I, G> {
    ghost use Rattle.dkv_turn.specs.Passes.{view, pass_turn, asked, IsOutside};
    ghost use Rattle.dkv_turn.specs.Words.{view_of, turn_of, asked_of, IsThere, IsBlank};

    /// Stands in for a pass that was taken out of its place.
    pub fn blank() -> Rest<I, G>
        ensures { IsBlank result }
    {
        Rest {
            badge: Badge::blank(),
            counts: Counts {
                seen: 0,
                asked: 0,
                who: 0,
                left: 0,
            },
        }
    }

    /// The greatest moment that its caller handed in, in milliseconds.
    pub fn asked(&self) -> u64
        ensures asked { result ≡ asked_of self.now }
        ensures timed { (asked_of self.now ≤ MAX_MOMENT) × ((view_of self.now).at ≤ MAX_MOMENT) }
    {
        self.counts.asked
    }

    /// Notes a moment that its caller hands in, in milliseconds. One above the last moment is taken as that.
    pub fn ask(&mut self, at: u64)
        ensures asked { asked_of self.new ≡ max (asked_of self.old) (capped_moment at) }
        ensures others { (view_of self.new ≡ view_of self.old)
            × (turn_of self.new ≡ turn_of self.old) }
        ensures there { IsThere self.old → IsThere self.new }
    {
        self.counts = self.counts.ask(at);
    }

    /// The same pass awake, for a turn round a value of this type.
    pub fn wake<V: Chronicle<Item = I, Ground = G>>(self) -> Pass<V>
        requires { IsThere self }
        ensures outside { IsOutside result }
        ensures turn { pass_turn result ≡ turn_of self }
        ensures view { view result ≡ view_of self }
        ensures asked { asked result ≡ asked_of self }
    {
        let Self { badge, counts } = self;
        Pass::awake(badge.into_seat(), counts)
    }

    pub(crate) fn laid(badge: Badge<View<I, G>>, counts: Counts) -> Rest<I, G>
        requires counts { IsCountOf counts (shown badge.views) }
        requires timed { IsTimed counts (shown badge.views) }
        ensures { (result.badge ≡ badge) × (result.counts ≡ counts) }
    {
        Rest { badge, counts }
    }
}
