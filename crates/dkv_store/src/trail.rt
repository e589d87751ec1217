// The items of a term with their weight, and what the settlements of messages need that are out.
ghost use Rattle.std.specs.Prelude.{◌≡◌, ◌+◌, ◌<◌, ◌≤◌, List, [], ◌∷◌, ◌++◌, length, IsTrue, IsOk, IfOk, OnOk, OnErr, Some, true, false, is_some, vec_len, vec_capacity};
ghost use Rattle.dkv_base.specs.declared.types.Item.{Item};
ghost use Rattle.dkv_base.specs.declared.types.Item.TheVariants.{Made, Took, Stop};
ghost use Rattle.dkv_base.specs.declared.types.Profile.TheVariants.{Narrow};
ghost use Rattle.dkv_base.specs.Messages.{is_out};
ghost use Rattle.dkv_base.specs.Profiles.{body_most};
ghost use Rattle.dkv_base.specs.Spelling.{record_length, record_body};
ghost use Rattle.dkv_base.specs.Trails.{first_stop, is_stop, item_weight, out, takes, weight as weight_of};
ghost use Rattle.dkv_core.specs.Settling.{without_id};
ghost use Rattle.dkv_journal.specs.Records.{first_layout, laid as laid_of};
ghost use Rattle.dkv_msgs.specs.Readings.{reads_atomic_write};
ghost use Rattle.dkv_record.specs.Records.{commit_of as read_as, is_settlement};
ghost use Rattle.dkv_store.specs.Trails.{message_of, stop_told, FitsIn, IfOut, IsTooHeavy, HasPlace, IsSettling, spent, freed, chosen};

use crate::laid::{lay, settlement};
use dkv_base::{Commit, Item, MsgId, NoMemory, Run};
use dkv_journal::{Journal, Laid};
use std::alloc::Global;
use std::marker::Model;

/// The greatest limit on the weight of a term's items, in bytes.
pub const MAX_TRAIL_BYTES: u64 = 268_435_456;

/// What an item weighs, in bytes, beside the record of a write.
pub(crate) const ITEM_WEIGHT: u64 = 64;

/// The items of a term, with their weight. Each message that is out has a place for the item of its settlement, until a
/// settlement of it uses that place.
#[derive(Drop)]
pub(crate) struct Trail {
    items: Vec<Item>,
    weight: u64,
    // How many places are kept, among the items and among those without one.
    kept: usize,
    // The messages that lost their place since they were taken.
    lost: Vec<MsgId>,
    // A record of 25 bytes, from the first take on.
    settling: Option<Laid>,
    // The place of the first stop, and whether one of the stops is the last.
    stop: Option<u64>,
    ended: bool,
}

impl Model for Trail {
    ghost use Rattle.std.specs.Prelude.{◌≡◌, ◌-◌, ◌+◌, vec_len, vec_capacity};
    ghost use Rattle.dkv_base.specs.Trails.{weight as weight_of};
    ghost use Rattle.dkv_store.specs.Trails.{Items, KeepsPlaces, KnowsStops};

    ghost Value = { Items };

    ghost view = { λ t. record {
      items = t.items.items;
      room = vec_capacity t.items - (vec_len t.items + t.kept);
      roomless = t.lost.items;
      settling = t.settling;
    } };

    ghost invariant = { λ t. (t.weight ≡ weight_of t.items.items) × KeepsPlaces
        t.items.items (vec_len t.items) (vec_capacity t.items)
        t.lost.items (vec_len t.lost) (vec_capacity t.lost) t.kept t.settling
        × KnowsStops t.items.items t.stop t.ended };
}

impl Trail {
    /// No item. Takes no memory.
    pub(crate) fn new(alloc: Global) -> Trail
        ensures items { result.items ≡ [] }
        ensures roomless { result.roomless ≡ [] }
    {
        Trail {
            items: Vec::new(alloc),
            weight: 0,
            kept: 0,
            lost: Vec::new(alloc),
            settling: None,
            stop: None,
            ended: false,
        }
    }

    /// Makes ready for the item of a commit, or for the doubt in its place: room for it, and the commit's record, which is laid
    /// out anew for a write, and else in the one that is kept. Gives its weight beside it. A settlement uses its message's place.
    /// Takes memory for a write, and for a settlement of a message that lost its place.
    pub(crate) fn ready(
        &mut self,
        alloc: Global,
        commit: &Commit,
    ) -> Result<(Option<Laid>, u64), NoMemory>
        requires short { record_length commit.now ≤ body_most Narrow }
        requires out { IfOut (message_of commit.now) (out self.old.items) }
        ensures items { self.new.items ≡ self.old.items }
        ensures room { OnOk result (1 ≤ self.new.room) }
        ensures spent { OnOk result (self.new.roomless
            ≡ spent (message_of commit.now) self.old.roomless) }
        ensures same { OnErr result (self.new.roomless ≡ self.old.roomless) }
        ensures spelled { IfOk result (λ l. chosen l.0 self.new.settling
            ≡ Some (laid_of first_layout 0 (record_body commit.now))) }
        ensures weighed { IfOk result (λ l. l.1 ≡ item_weight (Made commit.now)) }
        ensures back { OnOk result
            (read_as reads_atomic_write (record_body commit.now) ≡ Some commit.now) }
        ensures free { HasPlace (message_of commit.now) self.old.roomless → IsOk result }
    {
        match commit {
            Commit::Wrote { .. } => {
                self.make_place()?;
                let (laid, weight) = lay(alloc, commit)?;
                Ok((Some(laid), weight))
            }
            Commit::Acked { id, .. } | Commit::Failed { id, .. } => {
                self.spend_place(*id)?;
                self.refill(commit);
                Ok((None, ITEM_WEIGHT))
            }
        }
    }

    // Makes room for one item more beside the kept places. Takes memory where there is none.
    fn make_place(&mut self) -> Result<(), NoMemory>
        ensures items { self.new.items ≡ self.old.items }
        ensures room { OnOk result (1 ≤ self.new.room) }
        ensures roomless { self.new.roomless ≡ self.old.roomless }
        ensures settling { self.new.settling ≡ self.old.settling }
    {
        let wanted = self.kept.checked_add(1).ok_or(NoMemory)?;
        self.items.reserve(wanted)?;
        Ok(())
    }

    // Takes the place of a message that is out for its settlement, or makes one where it lost its own.
    fn spend_place(&mut self, id: MsgId) -> Result<(), NoMemory>
        requires { is_out id (out self.old.items) ≡ true }
        ensures items { self.new.items ≡ self.old.items }
        ensures room { OnOk result (1 ≤ self.new.room) }
        ensures spent { OnOk result (self.new.roomless ≡ spent (Some id) self.old.roomless) }
        ensures same { OnErr result (self.new.roomless ≡ self.old.roomless) }
        ensures settling { self.new.settling ≡ self.old.settling }
        ensures free { is_out id self.old.roomless ≡ false → IsOk result }
    {
        if holds(&self.lost, id) {
            return self.make_place();
        }
        self.lost.push_reserved(id);
        self.kept -= 1;
        Ok(())
    }

    // Lays the record of a settlement out, in the place of another's. Takes no memory.
    fn refill(&mut self, commit: &Commit)
        requires settles { IsTrue (is_settlement commit.now) }
        requires out { IfOut (message_of commit.now) (out self.old.items) }
        ensures items { self.new.items ≡ self.old.items }
        ensures room { self.new.room ≡ self.old.room }
        ensures roomless { self.new.roomless ≡ self.old.roomless }
        ensures laid { self.new.settling
            ≡ Some (laid_of first_layout 0 (record_body commit.now)) }
        ensures back { read_as reads_atomic_write (record_body commit.now) ≡ Some commit.now }
    {
        let body = settlement(commit);
        match &mut self.settling {
            Some(laid) => Journal::at(0).refill(laid, &body),
            None => unreachable!(),
        }
    }

    /// The record that a settlement is laid out in. Takes no memory.
    pub(crate) fn settling(&self) -> &Option<Laid>
        ensures { result.now ≡ self.now.settling }
    {
        &self.settling
    }

    /// Adds an item of this weight, which takes no message and is no stop, and for which there is room. Takes no memory.
    pub(crate) fn add(&mut self, item: Item, weight: u64)
        requires room { 1 ≤ self.old.room }
        requires weighed { weight ≡ item_weight item }
        requires takes { takes item ≡ [] }
        requires goes_on { is_stop item ≡ false }
        ensures items { self.new.items ≡ self.old.items ++ item ∷ [] }
        ensures roomless { self.new.roomless ≡ self.old.roomless }
    {
        self.weight = self.weight.saturating_add(weight);
        self.items.push_reserved(item);
    }

    /// Adds a commit of this weight, for which there is room. Takes no memory.
    pub(crate) fn add_made(&mut self, commit: Commit, weight: u64)
        requires room { 1 ≤ self.old.room }
        requires weighed { weight ≡ item_weight (Made commit) }
        ensures items { self.new.items ≡ self.old.items ++ Made commit ∷ [] }
        ensures roomless { self.new.roomless ≡ freed (message_of commit) self.old.roomless }
    {
        let settled = settled_by(&commit);
        self.add(Item::Made(commit), weight);
        if let Some(id) = settled {
            self.forget(id);
        }
    }

    // Keeps no longer in mind that a message lost its place, which isn't out.
    fn forget(&mut self, id: MsgId)
        requires { is_out id (out self.old.items) ≡ false }
        ensures items { self.new.items ≡ self.old.items }
        ensures room { self.new.room ≡ self.old.room }
        ensures roomless { self.new.roomless ≡ without_id id self.old.roomless }
        ensures settling { self.new.settling ≡ self.old.settling }
    {
        drop_id(&mut self.lost, id);
    }

    /// Adds that a message was taken, which isn't out, and makes a place for its settlement. Takes memory.
    pub(crate) fn add_taken(
        &mut self,
        alloc: Global,
        who: u32,
        at: u64,
        id: MsgId,
    ) -> Result<(), NoMemory>
        requires { is_out id (out self.old.items) ≡ false }
        ensures items { OnOk result (self.new.items ≡ self.old.items ++ Took who at id ∷ []) }
        ensures roomless { OnOk result (self.new.roomless ≡ without_id id self.old.roomless) }
        ensures same { OnErr result ((self.new.items ≡ self.old.items)
            × (self.new.roomless ≡ self.old.roomless)) }
    {
        let wanted = self.kept.checked_add(2).ok_or(NoMemory)?;
        self.items.reserve(wanted)?;
        self.lost.reserve(wanted)?;
        have_record(alloc, &mut self.settling)?;
        drop_id(&mut self.lost, id);
        self.kept += 1;
        self.weight = self.weight.saturating_add(ITEM_WEIGHT);
        self.items.push_reserved(Item::Took { who, at, id });
        Ok(())
    }

    /// Adds a stop. Takes memory for its item.
    pub(crate) fn add_stop(&mut self, who: u32, at: u64, last: bool) -> Result<(), NoMemory>
        ensures items { OnOk result (self.new.items ≡ self.old.items ++ Stop who at last ∷ []) }
        ensures same { OnErr result (self.new.items ≡ self.old.items) }
        ensures roomless { self.new.roomless ≡ self.old.roomless }
    {
        self.make_place()?;
        let place = self.items.len() as u64;
        self.stop = self.stop.or(Some(place));
        self.ended = self.ended || last;
        self.weight = self.weight.saturating_add(ITEM_WEIGHT);
        self.items.push_reserved(Item::Stop { who, at, last });
        Ok(())
    }

    /// How many items there are. Takes no memory.
    pub(crate) fn len(&self) -> u64
        ensures { result ≡ length self.now.items }
    {
        self.items.len() as u64
    }

    /// The place of the first stop, if there is one. Takes no memory.
    pub(crate) fn stop(&self) -> Option<u64>
        ensures { result ≡ first_stop self.now.items }
    {
        self.stop
    }

    /// None without a stop, else whether one of them is the last. Takes no memory.
    pub(crate) fn stop_told(&self) -> Option<bool>
        ensures { result ≡ stop_told self.now.items }
    {
        match self.stop {
            Some(_) => Some(self.ended),
            None => None,
        }
    }

    /// The weight of the items, in bytes. Takes no memory.
    pub(crate) fn weight(&self) -> u64
        ensures { result ≡ weight_of self.now.items }
    {
        self.weight
    }

    /// Whether with an item that weighs so much the weight of the items passes this limit, in bytes. Takes no memory.
    pub(crate) fn passes(&self, weight: u64, limit: u64) -> bool
        ensures over { (x : Item) → item_weight x ≡ weight → result ≡ true
            → limit < weight_of (self.now.items ++ x ∷ []) }
        ensures within { (x : Item) → item_weight x ≡ weight → result ≡ false
            → weight_of (self.now.items ++ x ∷ []) ≤ limit }
    {
        limit < self.weight.saturating_add(weight)
    }

    /// Whether a commit of this weight is a write that finds no room under this limit, in bytes. Takes no memory.
    pub(crate) fn is_too_heavy(&self, commit: &Commit, weight: u64, limit: u64) -> bool
        requires weighed { weight ≡ item_weight (Made commit.now) }
        ensures over { result ≡ true → IsTooHeavy limit self.now.items commit.now }
        ensures within { result ≡ false → FitsIn limit self.now.items commit.now }
    {
        match commit {
            Commit::Wrote { .. } => self.passes(weight, limit),
            Commit::Acked { .. } | Commit::Failed { .. } => false,
        }
    }

    /// The items. Takes no memory.
    pub(crate) fn into_run(self) -> Run<Item>
        ensures { result ≡ self.items }
    {
        let Trail {
            items,
            weight: _,
            kept: _,
            lost: _,
            settling: _,
            stop: _,
            ended: _,
        } = self;
        Run::of(items)
    }
}

// Lays a record for a settlement out, if there is none. Takes memory for it.
fn have_record(alloc: Global, settling: &mut Option<Laid>) -> Result<(), NoMemory>
    requires { IsSettling settling.old }
    ensures settling { IsSettling settling.new }
    ensures there { OnOk result (IsTrue (is_some settling.new)) }
    ensures same { OnErr result (settling.new ≡ settling.old) }
{
    if settling.is_some() {
        return Ok(());
    }
    let laid = Journal::lay(alloc, &[0; 25])?;
    *settling = Some(laid);
    Ok(())
}

// Whether the id is one of these.
fn holds(ids: &[MsgId], id: MsgId) -> bool
    ensures { result ≡ is_out id ids.now }
{
    ids.iter().any(|other| id == *other)
}

// Drops each of these that is this id. Takes no memory.
fn drop_id(ids: &mut Vec<MsgId>, id: MsgId)
    ensures ids { ids.new.items ≡ without_id id ids.old.items }
    ensures capacity { vec_capacity ids.new ≡ vec_capacity ids.old }
    ensures len { vec_len ids.new ≤ vec_len ids.old }
{
    ids.retain(|other| *other != id);
}

// The message that a commit settles.
fn settled_by(commit: &Commit) -> Option<MsgId>
    ensures { result ≡ message_of commit.now }
{
    match commit {
        Commit::Wrote { .. } => None,
        Commit::Acked { id, .. } | Commit::Failed { id, .. } => Some(*id),
    }
}
