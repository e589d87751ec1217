// Opening: what two files recover to becomes a store.
ghost use Rattle.std.specs.Prelude.{◌≡◌, ◌-◌, ◌⊎◌, ◌≤◌, OnOk, IfOk, IfErr, Ok, Err, [], false};
ghost use Rattle.dkv_io.specs.Causes.{Rose};
ghost use Rattle.dkv_io.specs.Disks.{AtRest};
ghost use Rattle.dkv_journal.specs.Crashes.{WhereTold};
ghost use Rattle.dkv_files.specs.Crashes.{WhereBothTold, WritesNothing};
ghost use Rattle.dkv_files.specs.Files.{is_open};
ghost use Rattle.dkv_store.specs.Opening.{IsHeldIn, IsMadeOf, Tells, first_place};
ghost use Rattle.dkv_store.specs.Stores.{IsOpened, IsUnopened};
ghost use Rattle.dkv_store.specs.declared.answers.OpenRefusal.TheVariants as opening;
ghost use Rattle.dkv_store.specs.declared.trail.TheConstants.{MAX_TRAIL_BYTES};

use crate::answers::OpenRefusal;
use crate::held::{Files, InUse};
use crate::looks::{judge, look_at};
use crate::replay::{FIRST_GATE, Unmade, read_records};
use crate::store::Store;
use dkv_core::Core;
use dkv_files::{FileHead, Pair};
use dkv_io::Disk;
use dkv_journal::Journal;
use std::alloc::Global;

/// Opens what two files recover to, and begins a term on it. It syncs both first, and writes nothing. File a alone is read, with an
/// empty image. `trail_limit` bounds the weight of the term's items, in bytes. Takes memory for the records and as their commits did.
pub fn open_store<D: Disk>(
    alloc: Global,
    pair: Pair<D>,
    trail_limit: u64,
) -> Result<Store<D>, (OpenRefusal, Pair<D>)>
    requires limit { trail_limit ≤ MAX_TRAIL_BYTES }
    ensures opened { WhereBothTold (D.seen pair.a) (D.seen pair.b) (λ fa fb. IfOk result
        (IsOpened D.may_leave fa fb)) }
    ensures refused { WhereBothTold (D.seen pair.a) (D.seen pair.b) (λ fa fb. IfErr result
        (λ e. IsUnopened fa fb e.0)) }
    ensures begins { IfOk result (λ s. (s.a_first ≡ s.a) × (s.b_first ≡ s.b)
        × (s.core.greatest ≡ s.base.moment)) }
    ensures limited { IfOk result (λ s. s.limit ≡ trail_limit) }
    ensures told { IfOk result (λ s. (D.seen s.a ≡ D.seen pair.a)
        × (D.seen s.b ≡ D.seen pair.b)) }
    ensures later { IfOk result (λ s. (D.faults pair.a ≤ D.faults s.a)
        × (D.faults pair.b ≤ D.faults s.b)) }
    ensures empty { IfOk result (λ s. s.trail ≡ []) }
    ensures moves_ok { IfOk result (λ s. WritesNothing D.may_leave D.moment D.left_since
        pair.a pair.b s.a s.b) }
    ensures moves_err { IfErr result (λ e. WritesNothing D.may_leave D.moment D.left_since
        pair.a pair.b e.1.a e.1.b) }
    ensures cause { IfErr result (λ e. e.0 ≡ opening.DiskFault
        → Rose (D.faults pair.a) (D.faults e.1.a) ⊎ Rose (D.faults pair.b) (D.faults e.1.b)) }
{
    let mut pair = pair;
    match recover(alloc, &mut pair) {
        Ok((head, core, journal)) => {
            let record_bytes = bytes_before(&journal);
            let in_use = InUse {
                second: false,
                generation: head.generation,
            };
            let files = Files::of(pair, in_use, journal);
            Ok(Store::begin(
                alloc,
                core,
                head.id,
                head.secret,
                trail_limit,
                record_bytes,
                files,
            ))
        }
        Err(refusal) => Err((refusal, pair)),
    }
}

// How many bytes the records take before the last gate.
fn bytes_before(journal: &Journal) -> u64
    ensures { result ≡ journal.now.place - first_place }
{
    journal.place.saturating_sub(FIRST_GATE)
}

// Brings two files to rest and reads what they hold: the header of file a, the core after its records, and their end.
fn recover<D: Disk>(
    alloc: Global,
    pair: &mut Pair<D>,
) -> Result<(FileHead, Core, Journal), OpenRefusal>
    ensures made { IfOk result (λ x. IsMadeOf x.1 x.2) }
    ensures held { WhereTold (D.seen pair.old.a) (λ fa. IfOk result
        (λ x. IsHeldIn fa x.0 x.1 x.2)) }
    ensures shut { WhereTold (D.seen pair.old.b) (λ fb. OnOk result (is_open fb ≡ false)) }
    ensures refused { WhereBothTold (D.seen pair.old.a) (D.seen pair.old.b) (λ fa fb. IfErr result
        (IsUnopened fa fb)) }
    ensures rest_a { WhereTold (D.seen pair.old.a) (λ fa. OnOk result (AtRest
        (D.seen pair.new.a) (D.may_leave pair.new.a) fa)) }
    ensures rest_b { WhereTold (D.seen pair.old.b) (λ fb. OnOk result (AtRest
        (D.seen pair.new.b) (D.may_leave pair.new.b) fb)) }
    ensures same { (D.seen pair.new.a ≡ D.seen pair.old.a)
        × (D.seen pair.new.b ≡ D.seen pair.old.b) }
    ensures moves { WritesNothing D.may_leave D.moment D.left_since
        pair.old.a pair.old.b pair.new.a pair.new.b }
    ensures later { (D.faults pair.old.a ≤ D.faults pair.new.a)
        × (D.faults pair.old.b ≤ D.faults pair.new.b) }
    ensures cause { result ≡ Err opening.DiskFault
        → Rose (D.faults pair.old.a) (D.faults pair.new.a)
        ⊎ Rose (D.faults pair.old.b) (D.faults pair.new.b) }
{
    let seen = match look_at(pair) {
        Ok(seen) => seen,
        Err(_) => return Err(OpenRefusal::DiskFault),
    };
    let head = match judge(seen) {
        Ok(head) => head,
        Err(refusal) => return Err(refusal),
    };
    let made = read_records(alloc, &mut pair.a);
    answer(head, made)
}

// What was made of the records, beside the header, or why the files are not opened.
fn answer(
    head: FileHead,
    made: Result<(Core, Journal), Unmade>,
) -> Result<(FileHead, Core, Journal), OpenRefusal>
    ensures ok { IfOk result (λ x. (x.0 ≡ head) × (made ≡ Ok (x.1, x.2))) }
    ensures err { IfErr result (Tells made) }
{
    match made {
        Ok((core, journal)) => Ok((head, core, journal)),
        Err(Unmade::Damaged { at }) => Err(OpenRefusal::Damaged { file: 0, at }),
        Err(Unmade::DiskFault) => Err(OpenRefusal::DiskFault),
        Err(Unmade::NoMemory) => Err(OpenRefusal::NoMemory),
    }
}
