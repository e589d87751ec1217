// The callers who watch, each with its watcher.
ghost use Rattle.std.specs.Prelude.{◌≡◌, List, None, IfOk, IfErr, OnOk, OnErr, option_map, position};
ghost use Rattle.dkv_base.specs.declared.types.Ask.TheVariants.{Poll, Watch};
ghost use Rattle.dkv_base.specs.Limits.{watch_limit};
ghost use Rattle.dkv_hub.specs.Rows.{WatchRow};
ghost use Rattle.dkv_core.specs.Cores.{IsEffective, SameContent};
ghost use Rattle.dkv_core.specs.Runs.{IsAnsweredBeside};
ghost use Rattle.dkv_core.specs.Seats.{is_seat_of, seat_of, rows_beside, rows_after, AreWithRow, IsSeatedAnew, HasBegun};

use crate::Core;
use dkv_atomic::watch_limits;
use dkv_base::{Answer, Bytes, Frame, NoMemory, Run, TryCopy};
use dkv_hub::Watcher;
use std::alloc::Global;
use std::mem;

/// A caller who watches, with its watcher.
pub struct Seat {
    pub who: u32,
    pub watcher: Watcher,
}

/// The place of the caller's seat. Takes no memory.
pub fn place_of(seats: &[Seat], who: u32) -> Option<usize>
    ensures { result ≡ position (is_seat_of who) seats.now }
{
    seats.iter().position(|seat| seat.who == who)
}

/// Gives the caller this seat, and hands back the watcher of the one that it has, if it has one. Where memory is wanting, the
/// seats are as they were, and the new watcher comes back. A watcher that comes back is to be ended. Takes memory for a
/// caller's first seat.
pub fn sit(seats: &mut Vec<Seat>, seat: Seat) -> Result<Option<Watcher>, Watcher>
    ensures anew { OnOk result
        (IsSeatedAnew seat.who seats.old.items seat seats.new.items) }
    ensures replaced { IfOk result (λ gone.
        gone ≡ option_map (λ s. s.watcher) (seat_of seat.who seats.old.items)) }
    ensures returned { IfErr result (λ watcher. watcher ≡ seat.watcher) }
    ensures refused { OnErr result (seats.new.items ≡ seats.old.items) }
    // Once what came back has ended, the rows beside the seats are those before the new watch.
    ensures rows { (before rows : List WatchRow) → AreWithRow before seat rows
        → rows_beside seats.new.items (rows_after result rows)
        ≡ rows_beside seats.old.items before }
{
    match place_of(seats.as_slice(), seat.who) {
        Some(place) => {
            let Seat { who: _, watcher } = mem::replace(&mut seats[place], seat);
            Ok(Some(watcher))
        }
        None => match seats.push(seat) {
            Ok(()) => Ok(None),
            Err(failed) => {
                let Seat { who: _, watcher } = failed.value;
                Err(watcher)
            }
        },
    }
}

impl Core {
    // The answer to a caller who asks, at an effective moment, for the next frame of its watch.
    pub(crate) fn answer_poll(
        &mut self,
        alloc: Global,
        seats: &mut Vec<Seat>,
        who: u32,
        at: u64,
    ) -> Result<Answer, NoMemory>
        requires { IsEffective self.old at }
        ensures answer { IfOk result (λ answer.
            IsAnsweredBeside self.old seats.old.items who at Poll answer self.new seats.new.items) }
        ensures state { self.new.state ≡ self.old.state }
        ensures err { OnErr result (SameContent self.old self.new) }
        ensures watches { rows_beside seats.new.items self.new.watches
            ≡ rows_beside seats.old.items self.old.watches }
    {
        let Some(place) = place_of(seats.as_slice(), who) else {
            return Ok(Answer::NoWatch);
        };
        let seat = &mut seats[place];
        let told = self.show(alloc, &mut seat.watcher, at)?;
        self.raise(at);
        Ok(Answer::Frame(told))
    }

    // The answer to a caller who begins a watch at an effective moment, in place of the one that it has.
    pub(crate) fn answer_watch(
        &mut self,
        alloc: Global,
        seats: &mut Vec<Seat>,
        who: u32,
        at: u64,
        keys: &Run<Bytes>,
    ) -> Result<Answer, NoMemory>
        requires { IsEffective self.old at }
        ensures answer { IfOk result (λ answer. IsAnsweredBeside self.old seats.old.items who at
            (Watch keys.now) answer self.new seats.new.items) }
        ensures state { self.new.state ≡ self.old.state }
        ensures err { OnErr result (SameContent self.old self.new) }
        ensures watches { rows_beside seats.new.items self.new.watches
            ≡ rows_beside seats.old.items self.old.watches }
    {
        if let Some(limit) = watch_limits(keys.as_slice()) {
            return Ok(Answer::Limit(limit));
        }
        let told = self.begin(alloc, seats, who, at, keys.copy(alloc)?)?;
        self.raise(at);
        Ok(Answer::Frame(told))
    }

    // Begins a caller's watch, in place of the one that it has, and shows its first frame.
    fn begin(
        &mut self,
        alloc: Global,
        seats: &mut Vec<Seat>,
        who: u32,
        at: u64,
        keys: Run<Bytes>,
    ) -> Result<Option<Frame>, NoMemory>
        requires { watch_limit keys ≡ None }
        ensures begun { IfOk result (λ told.
            HasBegun self.old who at keys seats.old.items told seats.new.items) }
        ensures content { SameContent self.old self.new }
        ensures watches { rows_beside seats.new.items self.new.watches
            ≡ rows_beside seats.old.items self.old.watches }
    {
        let mut watcher = self.watch(keys)?;
        match self.show(alloc, &mut watcher, at) {
            Ok(told) => {
                self.seat(seats, Seat { who, watcher })?;
                Ok(told)
            }
            Err(NoMemory) => {
                self.unwatch(watcher);
                Err(NoMemory)
            }
        }
    }

    // Gives the caller this seat, and ends the watch of the one that it has. Where memory is wanting, the new watch ends.
    fn seat(&mut self, seats: &mut Vec<Seat>, seat: Seat) -> Result<(), NoMemory>
        ensures anew { OnOk result
            (IsSeatedAnew seat.who seats.old.items seat seats.new.items) }
        ensures content { SameContent self.old self.new }
        ensures watches { (before : List WatchRow) → AreWithRow before seat self.old.watches
            → rows_beside seats.new.items self.new.watches ≡ rows_beside seats.old.items before }
    {
        match sit(seats, seat) {
            Ok(None) => Ok(()),
            Ok(Some(watcher)) => {
                self.unwatch(watcher);
                Ok(())
            }
            Err(watcher) => {
                self.unwatch(watcher);
                Err(NoMemory)
            }
        }
    }

    /// Ends the watches of all seats. Takes no memory.
    pub fn leave_all(&mut self, seats: Vec<Seat>)
        ensures { self.new ≡ record self.old {
          watches = rows_beside seats.items self.old.watches;
        } }
    {
        let mut seats = seats;
        while let Some(seat) = seats.pop() {
            let Seat { who: _, watcher } = seat;
            self.unwatch(watcher);
        }
        seats.destroy_empty();
    }
}
