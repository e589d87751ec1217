// Laws of the bodies of records.
ghost use Rattle.dkv_msgs.specs.Readings.{reads_atomic_write};
ghost use Rattle.dkv_record.specs.Laws.{CommitIsSpelled, SpelledIsCommit, OneBody, RequestsFit};

use dkv_msgs::spelled_short;

/// A commit is read from its body and from no other bytes, and no two commits have one body.
pub fn one_body()
    ensures back { SpelledIsCommit reads_atomic_write }
    ensures spelled { CommitIsSpelled reads_atomic_write }
    ensures one { OneBody }
{}

/// A write within its limits that came in a request or a frame has a body within `MAX_RECORD_BYTES`.
pub fn requests_fit()
    ensures { RequestsFit }
{
    spelled_short();
}
