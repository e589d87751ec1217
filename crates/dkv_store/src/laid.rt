// The records of commits, laid out.
ghost use Rattle.std.specs.Prelude.{◌≡◌, ◌+◌, ◌≤◌, IsTrue, IfOk, OnOk, Some, is_some};
ghost use Rattle.dkv_base.specs.declared.types.Item.TheVariants.{Made};
ghost use Rattle.dkv_base.specs.declared.types.Profile.TheVariants.{Narrow};
ghost use Rattle.dkv_base.specs.Fits.{FitsCommit, FitsHead, FitsId};
ghost use Rattle.dkv_base.specs.Profiles.{body_most};
ghost use Rattle.dkv_base.specs.Spelling.{record_length, record_body};
ghost use Rattle.dkv_base.specs.Trails.{item_weight};
ghost use Rattle.dkv_journal.specs.Records.{first_layout, laid as laid_of};
ghost use Rattle.dkv_msgs.specs.Readings.{reads_atomic_write};
ghost use Rattle.dkv_record.specs.Records.{commit_of as read_as, is_settlement};
ghost use Rattle.dkv_store.specs.Trails.{chosen};

use crate::trail::ITEM_WEIGHT;
use dkv_base::{Commit, MsgId, NoMemory};
use dkv_journal::{Journal, Laid};
use dkv_record::{one_body, settlement_body, write_commit};
use std::alloc::Global;

/// The record of a commit, laid out, and what the commit weighs. The record reads as the commit again. Takes memory for it.
pub(crate) fn lay(alloc: Global, commit: &Commit) -> Result<(Laid, u64), NoMemory>
    requires { record_length commit.now ≤ body_most Narrow }
    ensures spelled { IfOk result (λ l. l.0 ≡ laid_of first_layout 0 (record_body commit.now)) }
    ensures weighed { IfOk result (λ l. l.1 ≡ item_weight (Made commit.now)) }
    ensures back { OnOk result (read_as reads_atomic_write (record_body commit.now)
        ≡ Some commit.now) }
{
    let body = write_commit(alloc, commit)?;
    let laid = Journal::lay(alloc, body.as_slice())?;
    Ok((laid, weight_of(commit, body.len() as u64)))
}

// What a commit weighs whose record's body has this length.
fn weight_of(commit: &Commit, length: u64) -> u64
    requires length { length ≡ record_length commit.now }
    requires short { length ≤ body_most Narrow }
    ensures { result ≡ item_weight (Made commit.now) }
{
    match commit {
        Commit::Wrote { .. } => ITEM_WEIGHT + length,
        Commit::Acked { .. } | Commit::Failed { .. } => ITEM_WEIGHT,
    }
}

/// How many bytes the record of a commit takes that weighs so much: its body, the length before it and the gate behind it.
pub(crate) fn record_size(commit: &Commit, weight: u64) -> u64
    requires weighed { weight ≡ item_weight (Made commit.now) }
    ensures { result ≡ 5 + record_length commit.now }
{
    match commit {
        Commit::Wrote { .. } => weight - (ITEM_WEIGHT - 5),
        Commit::Acked { .. } | Commit::Failed { .. } => 30,
    }
}

/// The body of a settlement's record, which reads as the commit again. Takes no memory.
pub(crate) fn settlement(commit: &Commit) -> [u8; 25]
    requires { IsTrue (is_settlement commit.now) }
    ensures body { result ≡ record_body commit.now }
    ensures back { read_as reads_atomic_write (record_body commit.now) ≡ Some commit.now }
{
    settlement_fits(commit);
    one_body();
    settlement_body(commit)
}

// Each number of a settlement is one of its type.
fn settlement_fits(commit: &Commit)
    requires { IsTrue (is_settlement commit.now) }
    ensures { FitsCommit commit.now }
{
    match commit {
        Commit::Wrote { .. } => unreachable!(),
        Commit::Acked { who, at, id } | Commit::Failed { who, at, id } => {
            numbers_fit(*who, *at, *id);
        }
    }
}

// These numbers are numbers of their types.
fn numbers_fit(_who: u32, _at: u64, id: MsgId)
    ensures head { FitsHead _who _at }
    ensures id { FitsId id }
{
    let _commit = id.commit;
    let _index = id.index;
}

/// The record that was laid out anew, or else the one that is kept.
pub(crate) fn chosen<'a>(fresh: &'a Option<Laid>, kept: &'a Option<Laid>) -> &'a Laid
    requires { IsTrue (is_some (chosen fresh.now kept.now)) }
    ensures { chosen fresh.now kept.now ≡ Some result.now }
{
    match fresh {
        Some(laid) => laid,
        None => match kept {
            Some(laid) => laid,
            None => unreachable!(),
        },
    }
}
