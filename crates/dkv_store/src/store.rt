// A store: what it is made of, how it begins, and what it hands back.
ghost use Rattle.std.specs.Prelude.{◌≡◌, ◌≤◌, ℕ, List, [], IfOk, Some, None, is_some, option_map};
ghost use Rattle.dkv_base.specs.Sound.{IsSound};
ghost use Rattle.dkv_base.specs.declared.types.Profile.TheVariants.{Narrow};
ghost use Rattle.dkv_files.specs.Crashes.{StandsOrDoubtful, read};
ghost use Rattle.dkv_store.specs.Held.{Hold, Guarded, picked};
ghost use Rattle.dkv_store.specs.declared.trail.TheConstants.{MAX_TRAIL_BYTES};

use crate::held::{FIRST_USE, Files};
use crate::recall::Recall;
use crate::replay::FIRST_GATE;
use crate::trail::Trail;
use dkv_base::{Item, NoMemory, Run};
use dkv_core::Core;
use dkv_files::Pair;
use dkv_io::Disk;
use dkv_journal::Journal;
use std::alloc::Global;
use std::marker::Model;

/// The database over two files: the core, the items of this term, and the files, which stand for the core's state at each moment.
#[derive(Drop)]
pub struct Store<D: Disk> {
    pub(crate) core: Core,
    pub(crate) base: Recall<Core>,
    pub(crate) trail: Trail,
    pub(crate) id: [u8; 16],
    pub(crate) secret: [u8; 32],
    // Of the weight of the term's items, in bytes.
    pub(crate) limit: u64,
    // Of the used file, behind its image.
    pub(crate) record_bytes: u64,
    pub(crate) files: Files<D>,
    // As the term began.
    pub(crate) first: Recall<Files<D>>,
}

impl<D: Disk> Model for Store<D> {
    ghost use Rattle.std.specs.Prelude.{option_map};
    ghost use Rattle.dkv_base.specs.declared.types.Profile.TheVariants.{Narrow};
    ghost use Rattle.dkv_store.specs.Held.{picked};
    ghost use Rattle.dkv_store.specs.Stores.{Contents, Keeps};

    ghost Value = { Contents D };

    ghost view = { λ s. record {
      base = s.base.value.state;
      core = s.core;
      trail = s.trail.items;
      roomless = s.trail.roomless;
      doubt = option_map (λ d. d.value) s.files.doubt;
      who = record { id = s.id; secret = s.secret; profile = Narrow };
      limit = s.limit;
      record_bytes = s.record_bytes;
      in_use = s.files.in_use;
      a = picked s.files.in_use.second s.files.used s.files.other;
      b = picked s.files.in_use.second s.files.other s.files.used;
      a_first = picked s.first.value.in_use.second s.first.value.used s.first.value.other;
      b_first = picked s.first.value.in_use.second s.first.value.other s.first.value.used;
    } };

    ghost invariant = { λ s. Keeps D.seen D.may_leave D.faults
        s.files.journal s.files.used s.files.other (record {
          base = s.base.value.state;
          core = s.core;
          trail = s.trail.items;
          roomless = s.trail.roomless;
          doubt = option_map (λ d. d.value) s.files.doubt;
          who = record { id = s.id; secret = s.secret; profile = Narrow };
          limit = s.limit;
          record_bytes = s.record_bytes;
          in_use = s.files.in_use;
          a = picked s.files.in_use.second s.files.used s.files.other;
          b = picked s.files.in_use.second s.files.other s.files.used;
          a_first = picked s.first.value.in_use.second s.first.value.used s.first.value.other;
          b_first = picked s.first.value.in_use.second s.first.value.other s.first.value.used;
        }) };
}

impl<D: Disk> Store<D> {
    ghost use Rattle.dkv_store.specs.Stores.{Begins, IsFresh};

    // A term under this limit begins on a core in which no message is out, and on files that stand for its state, or are in doubt
    // by one commit. Takes no memory.
    pub(crate) fn begin(
        alloc: Global,
        core: Core,
        id: [u8; 16],
        secret: [u8; 32],
        limit: u64,
        record_bytes: u64,
        files: Files<D>,
    ) -> Store<D>
        requires sound { IsSound core.state }
        requires none { core.out ≡ [] }
        requires late { core.state.moment ≤ core.greatest }
        requires named { files.journal.in_doubt ≡ is_some files.doubt }
        requires stands { (file : List ℕ) → D.seen files.used ≡ Some file
            → Hold (D.may_leave files.used) (Guarded (D.seen files.other) (D.may_leave files.other))
            files.journal files.in_use (option_map (λ d. d.value) files.doubt)
            core.state (record { id = id; secret = secret; profile = Narrow }) }
        ensures { Begins core (record { id = id; secret = secret; profile = Narrow })
            limit record_bytes (option_map (λ d. d.value) files.doubt) files.in_use
            (picked files.in_use.second files.used files.other)
            (picked files.in_use.second files.other files.used) result }
    {
        let base = Recall::of(&core);
        let first = Recall::of(&files);
        let trail = Trail::new(alloc);
        Store {
            core,
            base,
            trail,
            id,
            secret,
            limit,
            record_bytes,
            files,
            first,
        }
    }

    /// A store of the new database with an identity of zeros, over disks that tell nothing. It goes on behind the empty image of
    /// file a, and makes no disk call. `trail_limit` bounds the weight of the term's items, in bytes.
    pub fn fresh(
        alloc: Global,
        pair: Pair<D>,
        trail_limit: u64,
    ) -> Result<Store<D>, (Pair<D>, NoMemory)>
        requires a_untold { D.seen pair.a ≡ None }
        requires b_untold { D.seen pair.b ≡ None }
        requires limit { trail_limit ≤ MAX_TRAIL_BYTES }
        ensures { IfOk result (IsFresh pair.a pair.b trail_limit) }
    {
        match Core::empty(alloc) {
            Ok(core) => {
                let files = Files::of(pair, FIRST_USE, Journal::at(FIRST_GATE));
                Ok(Store::begin(alloc, core, [0; 16], [0; 32], trail_limit, 0, files))
            }
            Err(none) => Err((pair, none)),
        }
    }

    /// Gives the two files back. Takes no memory.
    pub fn close(self) -> Pair<D>
        ensures a { result.a ≡ self.a }
        ensures b { result.b ≡ self.b }
        ensures stands { (fa fb : List ℕ) → D.seen self.a ≡ Some fa → D.seen self.b ≡ Some fb
            → StandsOrDoubtful read (D.may_leave self.a) (D.may_leave self.b)
            self.core.state self.doubt self.who }
    {
        let Store {
            core: _,
            base: _,
            trail: _,
            id: _,
            secret: _,
            limit: _,
            record_bytes: _,
            files,
            first: _,
        } = self;
        files.into_pair()
    }

    /// Gives the two files back, and the items of the term. Takes no memory.
    pub fn end(self) -> (Pair<D>, Run<Item>)
        ensures a { result.0.a ≡ self.a }
        ensures b { result.0.b ≡ self.b }
        ensures trail { result.1 ≡ self.trail }
        ensures stands { (fa fb : List ℕ) → D.seen self.a ≡ Some fa → D.seen self.b ≡ Some fb
            → StandsOrDoubtful read (D.may_leave self.a) (D.may_leave self.b)
            self.core.state self.doubt self.who }
    {
        let Store {
            core: _,
            base: _,
            trail,
            id: _,
            secret: _,
            limit: _,
            record_bytes: _,
            files,
            first: _,
        } = self;
        (files.into_pair(), trail.into_run())
    }
}
