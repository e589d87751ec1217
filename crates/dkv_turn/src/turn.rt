//! The lock, and the value that it lends.
ghost use Rattle.std.specs.Prelude.{◌≡◌, ◌+◌, ◌<◌, ◌≤◌, ◌⊎◌, ◌≢◌, [], Some, IsOk, IfOk, IfErr, length, max, ℕ};
ghost use mathlib.Core.List.{IsPrefix};
ghost use Rattle.dkv_base.specs.Moments.{capped_moment};
ghost use Rattle.dkv_turn.specs.Histories.{mine, NoneSince, AddsOwn};
ghost use Rattle.dkv_turn.specs.Views.{first_view, giver_view, given_view, joined_view, with_moment, with_handed};
ghost use Rattle.dkv_turn.specs.Seats.{HoldsTurn, KeepsSeat, FollowsLoan};
ghost use Rattle.dkv_turn.specs.Ends.{Ends};

use crate::bell::Bell;
use crate::chronicle::Chronicle;
use crate::counts::Counts;
use crate::pass::Pass;
use crate::steps::{Add, Change, Cut, Draw, Glue, Learn, Note, Order, PassOn, Raise, Recall};
use crate::view::View;
use atomic_table::{Refused, Seat, Table};
use dkv_base::{MAX_MOMENT, NoMemory};
use std::alloc::Global;
use std::snapshot::Snapshot;
use std::sync::Wait;

// The words of the table. Its one slot has the value.
pub(crate) const TICKET: usize = 0;

pub(crate) const SERVING: usize = 1;

const COUNT: usize = 2;

const NOW: usize = 3;

const LOAN: usize = 4;

/// A ticket lock round a value. Tickets are served in the order in which they were drawn.
#[derive(Drop)]
pub struct Turn<V: Chronicle> {
    pub(crate) table: Table<Option<V>, View<V::Item, V::Ground>, Snapshot<V>, Order<V>, Global>,
    // Who waits for the turn sleeps by one of these, or by the other before it draws a ticket.
    pub(crate) with_ticket: Bell,
    pub(crate) without_ticket: Bell,
    ghost sized: { (table.shared.table_id.words ≡ 5) × (table.shared.table_id.slots ≡ 1) },
}

// It has no `Drop`, so that what holds it can't be let go.
struct Due(());

/// The value, to which no other pass has access. It must be spent by `leave`.
pub struct Held<V: Chronicle> {
    pub value: V,
    due: Due,
    of: Snapshot<Seat<Option<V>, View<V::Item, V::Ground>>>,
}

impl<V: Chronicle> Turn<V> {
    ghost use Rattle.dkv_turn.specs.Passes.{view, seen, who, moment, asked, loan, left, IsOutside, IsInside, IsLast, Same, entered_loan};
    ghost use Rattle.dkv_turn.specs.Words.{made_with, ground_of, IsOf, IsHeldOf, turn_id};

    /// A turn round a value with no items and no loan, and its first pass, which can give 2^32 - 1 numbers away. It takes memory for the table.
    pub fn new(alloc: Global, value: V) -> Result<(Turn<V>, Pass<V>), (V, NoMemory)>
        requires empty { V.items value ≡ [] }
        requires none_lent { V.lent value ≡ 0 }
        ensures pass { IfOk result (λ r. IsOf V.grounds r.0 r.1 × IsOutside r.1
            × (view r.1 ≡ first_view (V.grounds value)) × (asked r.1 ≡ 0)) }
        ensures grounds { IfOk result (λ r. ground_of V.grounds r.0 ≡ V.grounds value) }
        ensures err { IfErr result (λ r. r.0 ≡ value) }
    {
        let was = Snapshot::of(&value);
        let Ok(mut slots) = Vec::with_capacity(alloc, 1) else {
            return Err((value, NoMemory));
        };
        slots.push_reserved(Some(value));
        match Table::new(alloc, &[0, 0, 0, 0, 0], slots, &was) {
            Ok((table, seat)) => {
                let counts = Counts {
                    seen: 0,
                    asked: 0,
                    who: 0,
                    left: u32::MAX,
                };
                let turn = Turn {
                    table,
                    with_ticket: Bell::new(),
                    without_ticket: Bell::new(),
                };
                Ok((turn, Pass::awake(seat, counts)))
            }
            Err(Refused { mut slots }) => {
                let Some(value) = slots.pop().unwrap() else {
                    unreachable!()
                };
                slots.destroy_empty();
                Err((value, NoMemory))
            }
        }
    }

    /// Waits for the turn, and gives the value, whose history the pass has then seen.
    pub fn enter<R: Wait>(&self, rt: &R, pass: &mut Pass<V>) -> Held<V>
        requires own { IsOf V.grounds self.now pass.old }
        requires outside { IsOutside pass.old }
        ensures own { IsOf V.grounds self.now pass.new × IsHeldOf self.now result }
        ensures inside { IsInside pass.new }
        ensures same { Same pass.old pass.new × (loan pass.new ≡ loan pass.old) }
        ensures seen { seen pass.new ≡ V.items result.value }
        ensures begins { IsPrefix (seen pass.old) (seen pass.new) }
        ensures others { NoneSince V.carries (who pass.old) (seen pass.old) (seen pass.new) }
        ensures mine { mine V.carries (who pass.old) (seen pass.new)
            ≡ mine V.carries (who pass.old) (seen pass.old) }
        ensures grounds { V.grounds result.value ≡ ground_of V.grounds self.now }
        ensures entered { entered_loan pass.new ≡ V.lent result.value }
        ensures lent { 0 < loan pass.old → V.lent result.value ≡ loan pass.old }
    {
        self.approach(rt);
        let shared = &self.table.shared;
        let number = shared.fetch_add::<Draw>(&mut pass.seat, TICKET, 1);
        self.await_turn(rt, &mut pass.seat, number);
        let count = shared.load::<Learn>(&mut pass.seat, COUNT);
        pass.counts.seen = count;
        pass.lent = shared.load::<Note>(&mut pass.seat, LOAN);
        let value = shared.exchange(&mut pass.seat, 0, None).unwrap();
        let of = Snapshot::of(&pass.seat);
        let due = Due(());
        Held { value, due, of }
    }

    /// Gives the value back, with one item more at most, and the turn with it.
    pub fn leave(&self, pass: &mut Pass<V>, held: Held<V>)
        requires own { IsOf V.grounds self.now pass.old × IsHeldOf self.now held }
        requires inside { IsInside pass.old }
        requires grounds { V.grounds held.value ≡ ground_of V.grounds self.now }
        requires items { AddsOwn V.carries (who pass.old) (seen pass.old) (V.items held.value) }
        requires lent { (V.lent held.value ≡ entered_loan pass.old)
            ⊎ (entered_loan pass.old ≡ loan pass.old) }
        ensures own { IsOf V.grounds self.now pass.new }
        ensures outside { IsOutside pass.new }
        ensures same { Same pass.old pass.new }
        ensures seen { seen pass.new ≡ V.items held.value }
        ensures lent { entered_loan pass.old ≡ loan pass.old → loan pass.new ≡ V.lent held.value }
        ensures none_lent { entered_loan pass.old ≢ loan pass.old → loan pass.new ≡ 0 }
    {
        let Held { value, due, of: _ } = held;
        let Due(()) = due;
        let length = value.length();
        let now = value.loan();
        self.settle_loan(&mut pass.seat, pass.lent, now);
        let shared = &self.table.shared;
        let before = shared.exchange(&mut pass.seat, 0, Some(value));
        let None = before else { unreachable!() };
        if length == pass.counts.seen {
            shared.fetch_add::<PassOn>(&mut pass.seat, SERVING, 1);
            pass.lent = 0;
            return self.call_next();
        }
        shared.fetch_add::<Add<V>>(&mut pass.seat, COUNT, 1);
        pass.counts.seen = length;
        shared.fetch_add::<PassOn>(&mut pass.seat, SERVING, 1);
        pass.lent = 0;
        self.call_next();
    }

    /// The greater of the moment, in milliseconds, and the one that the turn keeps, which becomes that. A moment above the last one is taken as that.
    pub fn raise(&self, pass: &mut Pass<V>, at: u64) -> u64
        requires own { IsOf V.grounds self.now pass.old }
        requires outside { IsOutside pass.old }
        ensures own { IsOf V.grounds self.now pass.new }
        ensures outside { IsOutside pass.new }
        ensures view { view pass.new
            ≡ with_moment (with_handed (view pass.old) (capped_moment at)) result }
        ensures asked { asked pass.new ≡ asked pass.old }
        ensures greater { (kept : ℕ) × (result ≡ max kept (capped_moment at))
            × (moment pass.old ≤ kept) }
        ensures most { result ≤ MAX_MOMENT }
    {
        let at = at.min(MAX_MOMENT);
        self.table
            .shared
            .fetch_max::<Raise>(&mut pass.seat, NOW, at)
            .max(at)
    }

    /// A pass with the next number, which has seen as much. It takes no memory, so it is never refused.
    pub fn split(&self, pass: &mut Pass<V>) -> Result<Pass<V>, NoMemory>
        requires own { IsOf V.grounds self.now pass.old }
        requires outside { IsOutside pass.old }
        requires left { 0 < left pass.old }
        ensures own { IsOf V.grounds self.now pass.new }
        ensures outside { IsOutside pass.new }
        ensures view { view pass.new ≡ giver_view (view pass.old) }
        ensures asked { asked pass.new ≡ asked pass.old }
        ensures made { IsOk result }
        ensures given { IfOk result (λ p. IsOf V.grounds self.now p × IsOutside p
            × (view p ≡ given_view (view pass.old)) × (asked p ≡ 0)) }
    {
        let seat = self.table.shared.split_seat::<Cut>(&mut pass.seat);
        let counts = Counts {
            seen: pass.counts.seen,
            asked: 0,
            who: u32::MAX - pass.counts.left + 1,
            left: 0,
        };
        pass.counts.left -= 1;
        Ok(Pass::awake(seat, counts))
    }

    /// Takes in what another pass knows: the longer history, the greater moments, its number, and the right to give numbers away.
    pub fn join(&self, keep: &mut Pass<V>, other: Pass<V>)
        requires own { IsOf V.grounds self.now keep.old × IsOf V.grounds self.now other }
        requires outside { IsOutside keep.old × IsOutside other }
        requires none_lent { loan other ≡ 0 }
        ensures own { IsOf V.grounds self.now keep.new }
        ensures outside { IsOutside keep.new }
        ensures view { view keep.new ≡ joined_view (view keep.old) (view other) }
        ensures begins { IsPrefix (seen keep.old) (seen keep.new) }
        ensures begins_other { IsPrefix (seen other) (seen keep.new) }
        ensures others { NoneSince V.carries (who keep.old) (seen keep.old) (seen keep.new) }
        ensures longer { length (seen keep.new)
            ≡ max (length (seen keep.old)) (length (seen other)) }
        ensures asked { asked keep.new ≡ max (asked keep.old) (asked other) }
    {
        let (seat, counts) = other.into_parts();
        let shared = &self.table.shared;
        shared.load::<Recall<V>>(&mut keep.seat, TICKET);
        shared.join_seat::<Glue>(&mut keep.seat, seat);
        shared.load::<Recall<V>>(&mut keep.seat, TICKET);
        keep.counts.left = keep.counts.left.max(counts.left);
        keep.counts.seen = keep.counts.seen.max(counts.seen);
        keep.counts.asked = keep.counts.asked.max(counts.asked);
    }

    /// Gives the value to the last pass: the one with the mark, into which as many were joined as numbers were given away.
    pub fn close(self, pass: Pass<V>) -> V
        requires own { IsOf V.grounds self pass }
        requires outside { IsOutside pass }
        requires last { IsLast pass }
        ensures { Ends V.carries V.items V.lent V.grounds (view pass) result }
    {
        let Turn {
            table,
            with_ticket: _,
            without_ticket: _,
        } = self;
        let (seat, _) = pass.into_parts();
        let mut closed = table.close_with(seat);
        let slot = closed.take(0);
        closed.free();
        let Some(value) = slot else { unreachable!() };
        value
    }

    // Changes the loan that the lock keeps, where it is the pass's.
    fn settle_loan(
        &self,
        seat: &mut Seat<Option<V>, View<V::Item, V::Ground>>,
        before: u64,
        now: u64,
    )
        requires own { seat.old.table_id ≡ turn_id self.now }
        requires inside { HoldsTurn seat.old before }
        requires may { (now ≡ before) ⊎ (before ≡ seat.old.me.0.loan) }
        ensures same { KeepsSeat seat.old seat.new }
        ensures inside { HoldsTurn seat.new now }
        ensures loan { FollowsLoan seat.old.me.0.loan before now seat.new.me.0.loan }
    {
        if now != before {
            self.table.shared.swap::<Change>(seat, LOAN, now);
        }
    }
}
