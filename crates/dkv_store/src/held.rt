// The files of a store, and what an append and a mend make of them.
ghost use Rattle.std.specs.Prelude.{◌≡◌, ◌⊎◌, ◌<◌, ℕ, length, IsTrue, List, [], ◌∷◌, OnOk, OnErr, MatchResult, Some, None, false, true, is_some, option_map};
ghost use Rattle.dkv_base.specs.State.{State};
ghost use Rattle.dkv_base.specs.Spelling.{record_body};
ghost use Rattle.dkv_io.specs.Causes.{HasCause};
ghost use Rattle.dkv_io.specs.Disks.{Told, AnyBytes};
ghost use Rattle.dkv_journal.specs.Records.{first_layout, laid as laid_of, is_closed_at};
ghost use Rattle.dkv_files.specs.Crashes.{Identity, StatesMove, with_doubt, and_then};
ghost use Rattle.dkv_store.specs.Held.{Hold, Guarded, MayAdd, AddMoves, picked, read_in};

use crate::recall::Recall;
use dkv_base::Commit;
use dkv_files::Pair;
use dkv_io::{Disk, Failed};
use dkv_journal::{Journal, Laid};

/// Which of two files is used.
#[derive(Clone, Copy, Debug, PartialEq, Eq)]
pub struct InUse {
    /// Whether it is the second.
    pub second: bool,
    /// The generation in its header.
    pub generation: u64,
}

/// The first file, as a new database begins in it.
pub const FIRST_USE: InUse = InUse {
    second: false,
    generation: 1,
};

/// The files, where the records of the used one end, and the commit in doubt, which contracts alone see.
#[derive(Drop)]
pub struct Files<D> {
    pub journal: Journal,
    pub in_use: InUse,
    pub doubt: Option<Recall<Commit>>,
    pub used: D,
    pub other: D,
}

impl<D> Files<D> {
    /// Of two files, the records of the one that is used end there, and no commit is in doubt. Takes no memory.
    pub fn of(pair: Pair<D>, in_use: InUse, journal: Journal) -> Files<D>
        ensures journal { result.journal ≡ journal }
        ensures in_use { result.in_use ≡ in_use }
        ensures sure { result.doubt ≡ None }
        ensures used { result.used ≡ picked in_use.second pair.a pair.b }
        ensures other { result.other ≡ picked in_use.second pair.b pair.a }
    {
        let Pair { a, b } = pair;
        let (used, other) = if in_use.second { (b, a) } else { (a, b) };
        Files {
            journal,
            in_use,
            doubt: None,
            used,
            other,
        }
    }

    /// The two files. Takes no memory.
    pub fn into_pair(self) -> Pair<D>
        ensures a { result.a ≡ picked self.in_use.second self.used self.other }
        ensures b { result.b ≡ picked self.in_use.second self.other self.used }
    {
        let Files {
            journal: _,
            in_use,
            doubt: _,
            used,
            other,
        } = self;
        if in_use.second {
            Pair { a: other, b: used }
        } else {
            Pair { a: used, b: other }
        }
    }
}

/// Closes the gate, if it is in doubt.
pub fn mend<D: Disk>(files: &mut Files<D>) -> Result<(), Failed>
    requires named { files.old.journal.in_doubt ≡ is_some files.old.doubt }
    requires within { (file : List ℕ) → D.seen files.old.used ≡ Some file
        → files.old.journal.in_doubt ≡ true → (c : List ℕ) → D.may_leave files.old.used c
        → files.old.journal.place < length c }
    ensures moves { (s : State) (who : Identity) (file other : List ℕ)
        → D.seen files.old.used ≡ Some file → D.seen files.old.other ≡ Some other
        → Hold (D.may_leave files.old.used)
        (Guarded (D.seen files.old.other) (D.may_leave files.old.other)) files.old.journal
        files.old.in_use (option_map (λ d. d.value) files.old.doubt) s who
        → StatesMove D.may_leave D.moment D.left_since (read_in files.old.in_use.second) who
        (with_doubt s (option_map (λ d. d.value) files.old.doubt))
        files.old.used files.old.other files.new.used files.new.other }
    ensures holds { (s : State) (who : Identity) (file : List ℕ) → D.seen files.old.used ≡ Some file
        → Hold (D.may_leave files.old.used)
        (Guarded (D.seen files.old.other) (D.may_leave files.old.other)) files.old.journal
        files.old.in_use (option_map (λ d. d.value) files.old.doubt) s who
        → Hold (D.may_leave files.new.used)
        (Guarded (D.seen files.new.other) (D.may_leave files.new.other)) files.new.journal
        files.new.in_use (option_map (λ d. d.value) files.new.doubt) s who }
    ensures mended { OnOk result ((files.new.journal.in_doubt ≡ false) × (files.new.doubt ≡ None)) }
    ensures doubted { OnErr result ((files.new.journal ≡ files.old.journal)
        × (files.new.doubt ≡ files.old.doubt)) }
    ensures other { files.new.other ≡ files.old.other }
    ensures in_use { files.new.in_use ≡ files.old.in_use }
    ensures told { Told AnyBytes (D.seen files.old.used) (D.seen files.new.used) }
    ensures cause { HasCause (D.faults files.old.used) (D.faults files.new.used) result }
{
    if files.journal.in_doubt {
        files.journal.mend(&mut files.used)?;
        files.doubt = None;
    }
    Ok(())
}

/// Adds the record of a commit, which was laid out.
pub fn add<D: Disk>(files: &mut Files<D>, laid: &Laid, commit: &Commit) -> Result<(), Failed>
    requires sure { files.old.journal.in_doubt ≡ false }
    requires unnamed { files.old.doubt ≡ None }
    requires spelled { laid.now ≡ laid_of first_layout 0 (record_body commit.now) }
    requires closed { (file : List ℕ) → D.seen files.old.used ≡ Some file → (c : List ℕ)
        → D.may_leave files.old.used c → IsTrue (is_closed_at files.old.journal.place c) }
    ensures moves { (s : State) (who : Identity) (file other : List ℕ)
        → D.seen files.old.used ≡ Some file → D.seen files.old.other ≡ Some other
        → Hold (D.may_leave files.old.used)
        (Guarded (D.seen files.old.other) (D.may_leave files.old.other))
        files.old.journal files.old.in_use None s who → MayAdd s commit.now
        → AddMoves D.may_leave D.moment D.left_since files.old.in_use.second who s commit.now
        files.old.used files.old.other files.new.used files.new.other }
    ensures holds { (s : State) (who : Identity) (file : List ℕ) → D.seen files.old.used ≡ Some file
        → Hold (D.may_leave files.old.used)
        (Guarded (D.seen files.old.other) (D.may_leave files.old.other))
        files.old.journal files.old.in_use None s who → MayAdd s commit.now
        → MatchResult result
        (λ _. Hold (D.may_leave files.new.used)
        (Guarded (D.seen files.new.other) (D.may_leave files.new.other)) files.new.journal
        files.new.in_use (option_map (λ d. d.value) files.new.doubt) (and_then s commit.now) who)
        (λ _. Hold (D.may_leave files.new.used)
        (Guarded (D.seen files.new.other) (D.may_leave files.new.other)) files.new.journal
        files.new.in_use (option_map (λ d. d.value) files.new.doubt) s who) }
    ensures named { files.new.journal.in_doubt ≡ is_some files.new.doubt }
    ensures sure { OnOk result (files.new.journal.in_doubt ≡ false) }
    // In doubt is this commit, if one is.
    ensures doubted { OnErr result ((files.new.doubt ≡ None)
        ⊎ (option_map (λ d. d.value) files.new.doubt ≡ Some commit.now)) }
    ensures other { files.new.other ≡ files.old.other }
    ensures in_use { files.new.in_use ≡ files.old.in_use }
    ensures told { Told AnyBytes (D.seen files.old.used) (D.seen files.new.used) }
    ensures cause { HasCause (D.faults files.old.used) (D.faults files.new.used) result }
{
    let Err(failed) = files.journal.append(&mut files.used, laid) else {
        return Ok(());
    };
    if files.journal.in_doubt {
        files.doubt = Some(Recall::of(commit));
    }
    Err(failed)
}
