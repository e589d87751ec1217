//! How a pass waits: it looks a few times, each time after a longer pause, and then sleeps. The steps of the rule are those of `turn`.
ghost use Rattle.std.specs.Prelude.{◌≡◌, ◌<◌};
ghost use Rattle.dkv_turn.specs.Seats.{WaitsFor};
ghost use Rattle.dkv_turn.specs.Steps.{Got};
ghost use Rattle.dkv_turn.specs.Words.{turn_id};

use crate::chronicle::Chronicle;
use crate::steps::Look;
use crate::turn::{SERVING, TICKET, Turn};
use crate::view::View;
use atomic_table::Seat;
use std::hint::spin_loop;
use std::sync::Wait;

// How often a waiter looks before it sleeps. Each pause between two looks is twice as long as the one before.
const LOOKS: u32 = 5;

fn pause(round: u32)
    requires { round < LOOKS }
{
    for _ in 0..1u32 << round {
        spin_loop();
    }
}

impl<V: Chronicle> Turn<V> {
    // Waits while a ticket is out, and sleeps once at most, so that few tickets are out and those who have them run.
    pub(crate) fn approach<R: Wait>(&self, rt: &R) {
        for round in 0..LOOKS {
            if self.is_free() {
                return;
            }
            pause(round);
        }
        let rings = self.without_ticket.expect_ring();
        if self.is_free() {
            return;
        }
        self.without_ticket.sleep(rt, rings);
        // The ring was for one alone, and others may sleep on.
        self.without_ticket.expect_ring();
    }

    pub(crate) fn await_turn<R: Wait>(
        &self,
        rt: &R,
        seat: &mut Seat<Option<V>, View<V::Item, V::Ground>>,
        number: u64,
    )
        requires own { seat.old.table_id ≡ turn_id self.now }
        requires waits { WaitsFor seat.old number }
        ensures own { seat.new.table_id ≡ seat.old.table_id }
        ensures got { Got V.carries V.items V.lent V.grounds seat.old.me seat.new.me }
    {
        let mut round = 0;
        for _ in rt.forever() {
            if self.table.shared.load::<Look<V>>(seat, SERVING) == number {
                return;
            }
            if round < LOOKS {
                pause(round);
                round += 1;
            } else {
                self.sleep_with_ticket(rt, number);
            }
        }
        unreachable!()
    }

    // Wakes those who have a ticket, or, where no ticket is out, one who has none. It comes after the turn was passed on.
    pub(crate) fn call_next(&self) {
        if self.is_free() {
            self.without_ticket.ring_one();
        } else {
            self.with_ticket.ring_all();
        }
    }

    fn is_free(&self) -> bool {
        let served = self.table.shared.peek(SERVING);
        self.table.shared.peek(TICKET) == served
    }

    fn sleep_with_ticket<R: Wait>(&self, rt: &R, number: u64) {
        let rings = self.with_ticket.expect_ring();
        if self.table.shared.peek(SERVING) != number {
            self.with_ticket.sleep(rt, rings);
        }
    }
}
