// A commit is kept: on the disk first, and then in the core.
ghost use Rattle.std.specs.Prelude.{◌≡◌, ◌⊎◌, ℕ, List, [], ◌∷◌, IfOk, OnOk, OnErr, MatchResult, Some, None, false, true, is_some, option_map};
ghost use Rattle.dkv_base.specs.State.{State};
ghost use Rattle.dkv_base.specs.Spelling.{record_body};
ghost use Rattle.dkv_io.specs.Causes.{HasCause};
ghost use Rattle.dkv_io.specs.Disks.{Told, AnyBytes};
ghost use Rattle.dkv_journal.specs.Records.{first_layout, laid as laid_of};
ghost use Rattle.dkv_core.specs.Cores.{IsReady, applied};
ghost use Rattle.dkv_files.specs.Crashes.{Identity, and_then};
ghost use Rattle.dkv_store.specs.Stores.{IsOldOrNew};
ghost use Rattle.dkv_store.specs.Held.{Hold, SomeHold, Guarded, MayAdd, CommitMoves};

use crate::held::{Files, add, mend};
use dkv_base::Commit;
use dkv_core::{Core, Prepared};
use dkv_io::{Disk, Failed};
use dkv_journal::Laid;

/// Writes the record of a commit, which was laid out. A gate in doubt is mended first.
pub fn write<D: Disk>(files: &mut Files<D>, laid: &Laid, commit: &Commit) -> Result<(), Failed>
    requires named { files.old.journal.in_doubt ≡ is_some files.old.doubt }
    requires spelled { laid.now ≡ laid_of first_layout 0 (record_body commit.now) }
    requires stands { (file : List ℕ) → D.seen files.old.used ≡ Some file
        → SomeHold (D.may_leave files.old.used)
        (Guarded (D.seen files.old.other) (D.may_leave files.old.other)) files.old.journal
        files.old.in_use (option_map (λ d. d.value) files.old.doubt) }
    ensures moves { (s : State) (who : Identity) (file other : List ℕ)
        → D.seen files.old.used ≡ Some file → D.seen files.old.other ≡ Some other
        → Hold (D.may_leave files.old.used)
        (Guarded (D.seen files.old.other) (D.may_leave files.old.other)) files.old.journal
        files.old.in_use (option_map (λ d. d.value) files.old.doubt) s who → MayAdd s commit.now
        → CommitMoves D.may_leave D.moment D.left_since files.old.in_use.second who s
        (option_map (λ d. d.value) files.old.doubt) commit.now
        files.old.used files.old.other files.new.used files.new.other }
    ensures holds { (s : State) (who : Identity) (file : List ℕ) → D.seen files.old.used ≡ Some file
        → Hold (D.may_leave files.old.used)
        (Guarded (D.seen files.old.other) (D.may_leave files.old.other)) files.old.journal
        files.old.in_use (option_map (λ d. d.value) files.old.doubt) s who → MayAdd s commit.now
        → MatchResult result
        (λ _. Hold (D.may_leave files.new.used)
        (Guarded (D.seen files.new.other) (D.may_leave files.new.other)) files.new.journal
        files.new.in_use (option_map (λ d. d.value) files.new.doubt) (and_then s commit.now) who)
        (λ _. Hold (D.may_leave files.new.used)
        (Guarded (D.seen files.new.other) (D.may_leave files.new.other)) files.new.journal
        files.new.in_use (option_map (λ d. d.value) files.new.doubt) s who) }
    ensures named { files.new.journal.in_doubt ≡ is_some files.new.doubt }
    ensures sure { OnOk result (files.new.journal.in_doubt ≡ false) }
    // In doubt is the old commit or this one, if one is.
    ensures doubted { OnErr result
        (IsOldOrNew (option_map (λ d. d.value) files.old.doubt) commit.now
        (option_map (λ d. d.value) files.new.doubt)) }
    ensures other { files.new.other ≡ files.old.other }
    ensures in_use { files.new.in_use ≡ files.old.in_use }
    ensures told { Told AnyBytes (D.seen files.old.used) (D.seen files.new.used) }
    ensures cause { HasCause (D.faults files.old.used) (D.faults files.new.used) result }
{
    match mend(files) {
        Ok(()) => add(files, laid, commit),
        Err(failed) => Err(failed),
    }
}
