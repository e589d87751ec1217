// The file of a pair that isn't used is written anew, for a checkpoint.
ghost use Rattle.std.specs.Prelude.{◌≡◌, ◌⊎◌, ◌≤◌, ◌+◌, ◌-◌, ◌^◌, true, false, IsTrue, Option, min, length, OnOk, IfOk, Err};
ghost use Rattle.dkv_base.specs.declared.types.Commit.{Commit};
ghost use Rattle.dkv_io.specs.Causes.{Rose};
ghost use Rattle.dkv_io.specs.Disks.{AtRest};
ghost use Rattle.dkv_queue.specs.Rows.{messages_of};
ghost use Rattle.dkv_image.specs.Image.{image, is_image, FitsImage};
ghost use Rattle.dkv_image_io.specs.Reading.{narrow};
ghost use Rattle.dkv_files.specs.Crashes.{CheckpointMoves, IsCheckpointed, IsHead, WhereBothTold, read, with_doubt};
ghost use Rattle.dkv_files.specs.Filling.{whole_file};
ghost use Rattle.dkv_files.specs.Laws.{state_of};
ghost use Rattle.dkv_files.specs.Renewing.{MayRenew, identity_in};
ghost use Rattle.dkv_files.specs.declared.filling.CheckpointRefusal.TheVariants as refusal;

use crate::filling::CheckpointRefusal;
use crate::head::FileHead;
use crate::pair::Pair;
use crate::whole::write_whole;
use dkv_io::Disk;
use dkv_queue::Queue;
use dkv_table::Table;
use std::alloc::Global;

/// Writes the second file of a pair anew, or the first, of a table and a queue, while the other one is used. Gives the place of the
/// closed gate behind the image. A crash leaves the state, or it and the commit in doubt. Takes memory as `fill` does.
pub fn renew<T: Table, D: Disk>(
    alloc: Global,
    pair: &mut Pair<D>,
    second: bool,
    head: &FileHead,
    table: &T,
    queue: &Queue,
) -> Result<u64, CheckpointRefusal>
    requires numbers { IsHead head.now }
    requires image { IsTrue (is_image (narrow head.now.n head.now.now)
        (T.content table.now) (messages_of queue.now.rows)) }
    requires fits { FitsImage (T.content table.now) (messages_of queue.now.rows) }
    ensures moves { (doubt : Option Commit)
        → WhereBothTold (D.seen pair.old.a) (D.seen pair.old.b) (λ _ _.
        let s = state_of head.entry.now (T.content table.now) (messages_of queue.now.rows) in
        MayRenew second (D.may_leave pair.old.a) (D.may_leave pair.old.b)
        head.entry.now (with_doubt s doubt) → CheckpointMoves
        D.may_leave D.moment D.left_since read (identity_in head.entry.now) s doubt
        pair.old.a pair.old.b pair.new.a pair.new.b) }
    // After Ok each pair of images is read as the image alone.
    ensures done { (doubt : Option Commit)
        → WhereBothTold (D.seen pair.old.a) (D.seen pair.old.b) (λ _ _.
        let s = state_of head.entry.now (T.content table.now) (messages_of queue.now.rows) in
        MayRenew second (D.may_leave pair.old.a) (D.may_leave pair.old.b)
        head.entry.now (with_doubt s doubt) → OnOk result (IsCheckpointed
        read (D.may_leave pair.new.a) (D.may_leave pair.new.b) s (identity_in head.entry.now))) }
    ensures rest_a { WhereBothTold (D.seen pair.old.a) (D.seen pair.old.b) (λ _ _.
        second ≡ false → OnOk result (AtRest (D.seen pair.new.a) (D.may_leave pair.new.a)
        (whole_file head.entry.now (T.content table.now) (messages_of queue.now.rows)))) }
    ensures rest_b { WhereBothTold (D.seen pair.old.a) (D.seen pair.old.b) (λ _ _.
        second ≡ true → OnOk result (AtRest (D.seen pair.new.b) (D.may_leave pair.new.b)
        (whole_file head.entry.now (T.content table.now) (messages_of queue.now.rows)))) }
    // The used file stays.
    ensures same_a { second ≡ true → pair.new.a ≡ pair.old.a }
    ensures same_b { second ≡ false → pair.new.b ≡ pair.old.b }
    ensures place { IfOk result (λ place. place ≡ min (2 ^ 64 - 1)
        (96 + length (image (T.content table.now) (messages_of queue.now.rows)))) }
    ensures later { (D.faults pair.old.a ≤ D.faults pair.new.a)
        × (D.faults pair.old.b ≤ D.faults pair.new.b) }
    ensures cause { result ≡ Err refusal.DiskFault
        → Rose (D.faults pair.old.a) (D.faults pair.new.a)
        ⊎ Rose (D.faults pair.old.b) (D.faults pair.new.b) }
{
    if second {
        write_whole(alloc, &mut pair.b, head, table, queue)
    } else {
        write_whole(alloc, &mut pair.a, head, table, queue)
    }
}
