// Where the records of a file end, and how one is added there.
ghost use Rattle.std.specs.Prelude.{◌≡◌, ◌<◌, ◌≤◌, ◌+◌, ◌-◌, ◌^◌, min, IsTrue, IfOk, List, ℕ, length, OnOk, OnErr, false, true};
ghost use Rattle.dkv_io.specs.Causes.{HasCause};
ghost use Rattle.dkv_io.specs.Disks.{LeavesFrom, Told, AnyBytes, AtRest};
ghost use Rattle.dkv_base.specs.declared.types.Layout.{Layout};
ghost use Rattle.dkv_base.specs.declared.types.Profile.TheVariants.{Narrow};
ghost use Rattle.dkv_base.specs.Profiles.{body_most};
ghost use Rattle.dkv_journal.specs.Records.{IsLaid, first_layout, is_closed_at, laid as laid_of};
ghost use Rattle.dkv_journal.specs.Crashes.{WhereTold, EachImage, WithGate, StaysShut, AppendMoves, IsDoubted, mended, appended};

use crate::Laid;
use crate::gates::{CLOSED_GATE, OPEN_GATE, set_gate, write_behind};
use dkv_base::NoMemory;
use dkv_io::{Disk, Failed};
use std::alloc::Global;

/// Where the records of a file end.
#[derive(Clone, Copy, Debug, PartialEq, Eq)]
pub struct Journal {
    /// The place of the first closed gate, in bytes from the file's start.
    pub place: u64,
    /// Whether that gate may be open after a fault. It has to be mended before anything is appended.
    pub in_doubt: bool,
}

impl Journal {
    /// Goes on at a closed gate. Takes no memory.
    pub fn at(place: u64) -> Journal
        ensures place { result.place ≡ place }
        ensures sure { result.in_doubt ≡ false }
    {
        Journal {
            place,
            in_doubt: false,
        }
    }

    /// Lays the record of a body out: its length, the body, and the next gate, closed. Takes memory for it.
    pub fn lay(alloc: Global, body: &[u8]) -> Result<Laid, NoMemory>
        requires { length body.now ≤ body_most Narrow }
        ensures { IfOk result (λ laid. laid ≡ laid_of first_layout 0 body.now) }
    {
        Laid::of(alloc, body)
    }

    /// Makes of a laid record what `lay` gives for another body, which is as long as the one that was laid out. Takes no memory.
    pub fn refill(&self, laid: &mut Laid, body: &[u8])
        requires { IsLaid (length body.now) laid.old }
        ensures { laid.new ≡ laid_of first_layout 0 body.now }
    {
        laid.put(body);
    }

    /// Adds a record at the closed gate: writes it behind the gate, syncs, opens the gate, and syncs. Where it fails after the
    /// gate may be open, the gate is in doubt. Takes no memory.
    pub fn append<D: Disk>(&mut self, disk: &mut D, laid: &Laid) -> Result<(), Failed>
        requires sure { self.old.in_doubt ≡ false }
        requires closed { EachImage (D.seen disk.old) (D.may_leave disk.old)
            (λ image. IsTrue (is_closed_at self.old.place image)) }
        // A crash leaves the gate closed, or open with the whole record and a closed next gate.
        ensures leaves { (l : Layout) (body : List ℕ) → laid.now ≡ laid_of l self.old.place body
            → WhereTold (D.seen disk.old) (λ _. AppendMoves
            D.may_leave D.moment D.left_since l self.old.place body disk.old disk.new) }
        // The record is there for good.
        ensures done { (l : Layout) (body : List ℕ) → laid.now ≡ laid_of l self.old.place body
            → WhereTold (D.seen disk.old) (λ file. OnOk result (AtRest
            (D.seen disk.new) (D.may_leave disk.new) (appended l self.old.place body file))) }
        ensures place { OnOk result (self.new ≡ record {
          place = min (self.old.place + length laid.now) (2 ^ 64 - 1);
          in_doubt = false;
        }) }
        ensures stays { OnErr result (self.new.place ≡ self.old.place) }
        // The gate is in doubt, or was not touched.
        ensures shut { WhereTold (D.seen disk.old) (λ _. OnErr result (self.new.in_doubt ≡ false
            → LeavesFrom D.may_leave D.moment D.left_since disk.old disk.new
            (StaysShut self.old.place))) }
        // In doubt, the whole record stands behind the gate.
        ensures doubted { (l : Layout) (body : List ℕ) → laid.now ≡ laid_of l self.old.place body
            → WhereTold (D.seen disk.old) (λ file. OnErr result (self.new.in_doubt ≡ true
            → (image : List ℕ) → D.may_leave disk.new image
            → IsDoubted l self.old.place body file image)) }
        ensures told { Told AnyBytes (D.seen disk.old) (D.seen disk.new) }
        ensures cause { HasCause (D.faults disk.old) (D.faults disk.new) result }
    {
        write_behind(disk, self.place, &laid.bytes)?;
        self.in_doubt = true;
        set_gate(disk, self.place, OPEN_GATE)?;
        self.in_doubt = false;
        self.place = self.place.saturating_add(laid.bytes.len() as u64);
        Ok(())
    }

    /// Closes the gate in doubt, and syncs. Takes no memory.
    pub fn mend<D: Disk>(&mut self, disk: &mut D) -> Result<(), Failed>
        requires doubted { self.old.in_doubt ≡ true }
        requires within { EachImage (D.seen disk.old) (D.may_leave disk.old)
            (λ image. self.old.place < length image) }
        ensures leaves { WhereTold (D.seen disk.old) (λ _. LeavesFrom
            D.may_leave D.moment D.left_since disk.old disk.new (WithGate self.old.place)) }
        ensures done { WhereTold (D.seen disk.old) (λ file. OnOk result (AtRest
            (D.seen disk.new) (D.may_leave disk.new) (mended self.old.place file))) }
        ensures sure { OnOk result (self.new ≡ record {
          place = self.old.place;
          in_doubt = false;
        }) }
        ensures doubted { OnErr result (self.new ≡ self.old) }
        ensures told { Told AnyBytes (D.seen disk.old) (D.seen disk.new) }
        ensures cause { HasCause (D.faults disk.old) (D.faults disk.new) result }
    {
        set_gate(disk, self.place, CLOSED_GATE)?;
        self.in_doubt = false;
        Ok(())
    }
}
