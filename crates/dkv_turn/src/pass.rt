//! What one caller knows of a turn.
ghost use Rattle.std.specs.Prelude.{◌≡◌, ◌≤◌, length, max};
ghost use Rattle.dkv_base.specs.declared.moments.TheConstants.{MAX_MOMENT};
ghost use Rattle.dkv_base.specs.Moments.{capped_moment};
ghost use Rattle.dkv_turn.specs.Counted.{IsCountOf, IsTimed};
ghost use Rattle.dkv_turn.specs.Views.{loan_of};
ghost use Rattle.dkv_turn.specs.Seats.{IsIdle};

use crate::chronicle::Chronicle;
use crate::counts::Counts;
use crate::rest::Rest;
use crate::view::View;
use atomic_table::Seat;

/// A pass awake: it names the value that its turn guards, and takes part in the turn.
pub struct Pass<V: Chronicle> {
    pub(crate) seat: Seat<Option<V>, View<V::Item, V::Ground>>,
    pub(crate) counts: Counts,
    // Inside, the loan of the value that it was given.
    pub(crate) lent: u64,
    ghost counted: { counts.seen ≡ length seat.me.0.seen },
    ghost numbered: { counts.who ≡ seat.me.0.who },
    ghost owned: { counts.left ≡ seat.me.0.left },
    ghost timed: { seat.me.0.at ≤ MAX_MOMENT },
    ghost asked_timed: { counts.asked ≤ MAX_MOMENT },
    ghost noted: { lent ≡ loan_of seat.me.0.stage },
}

impl<V: Chronicle> Drop for Pass<V> {
    fn drop(self) {
        let Self {
            seat: _,
            counts: _,
            lent: _,
        } = self;
    }
}

impl<V: Chronicle> Pass<V> {
    ghost use Rattle.dkv_turn.specs.Passes.{view, pass_turn, seen, who, asked, moment, IsOutside};
    ghost use Rattle.dkv_turn.specs.Words.{view_of, turn_of, asked_of, IsThere};

    /// The number of items that it has seen.
    pub fn length(&self) -> u64
        ensures { result ≡ length (seen self.now) }
    {
        self.counts.seen
    }

    /// Its number, which an item carries that it adds.
    pub fn who(&self) -> u32
        ensures { result ≡ who self.now }
    {
        self.counts.who
    }

    /// The greatest moment that its caller handed in, in milliseconds.
    pub fn asked(&self) -> u64
        ensures asked { result ≡ asked self.now }
        ensures timed { (asked self.now ≤ MAX_MOMENT) × (moment self.now ≤ MAX_MOMENT) }
    {
        self.counts.asked
    }

    /// Notes a moment that its caller hands in, in milliseconds. One above the last moment is taken as that.
    pub fn ask(&mut self, at: u64)
        ensures asked { asked self.new ≡ max (asked self.old) (capped_moment at) }
        ensures others { (view self.new ≡ view self.old)
            × (pass_turn self.new ≡ pass_turn self.old) }
        ensures outside { IsOutside self.old → IsOutside self.new }
    {
        self.counts = self.counts.ask(at);
    }

    /// The same pass at rest, in a type that does not name the value.
    pub fn rest(self) -> Rest<V::Item, V::Ground>
        requires { IsOutside self }
        ensures there { IsThere result }
        ensures turn { turn_of result ≡ pass_turn self }
        ensures view { view_of result ≡ view self }
        ensures asked { asked_of result ≡ asked self }
    {
        let (seat, counts) = self.into_parts();
        Rest::laid(seat.into_badge(), counts)
    }

    pub(crate) fn awake(seat: Seat<Option<V>, View<V::Item, V::Ground>>, counts: Counts) -> Pass<V>
        requires counts { IsCountOf counts seat.me.0 }
        requires timed { IsTimed counts seat.me.0 }
        requires idle { IsIdle seat }
        ensures { (result.seat ≡ seat) × (result.counts ≡ counts) }
    {
        Pass {
            seat,
            counts,
            lent: 0,
        }
    }

    pub(crate) fn into_parts(self) -> (Seat<Option<V>, View<V::Item, V::Ground>>, Counts)
        ensures parts { (result.0 ≡ self.seat) × (result.1 ≡ self.counts) }
        ensures counted { IsCountOf result.1 result.0.me.0 }
        ensures timed { IsTimed result.1 result.0.me.0 }
    {
        let Self {
            seat,
            counts,
            lent: _,
        } = self;
        (seat, counts)
    }
}
