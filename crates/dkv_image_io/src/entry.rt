// An entry of an image.
ghost use Rattle.std.specs.Prelude.{◌≡◌, Some, None, IfOk, IfSome, IfNone, true};
ghost use Rattle.std.specs.Option.{option_copied, option_map_or};
ghost use Rattle.std.specs.Ordering.{is_lt};
ghost use Rattle.dkv_base.specs.State.{key_cmp};
ghost use Rattle.dkv_image.specs.Image.{entry_at_front, may_follow_entry};
ghost use Rattle.dkv_image_io.specs.Fields.{entry_of};

use crate::front::Front;
use crate::item::Item;
use crate::standing::entry_stands;
use dkv_base::{Bytes, Entry, NoMemory, compare};
use std::alloc::Global;

// An entry's fields, as they stand in bytes.
#[derive(Drop)]
pub(crate) struct EntryFields<'a> {
    pub(crate) key: &'a [u8],
    pub(crate) encoding: u8,
    pub(crate) bytes: &'a [u8],
    pub(crate) commit: u64,
    pub(crate) expire: u64,
}

fn entry_fields<'a>(front: &mut Front<'a>) -> Option<EntryFields<'a>>
    ensures found { IfSome result (λ f. entry_at_front front.old ≡ Some (entry_of f, front.new)) }
    ensures none { IfNone result (entry_at_front front.old ≡ None) }
{
    let key = front.sized()?;
    let encoding = front.number_1()?;
    let bytes = front.sized()?;
    let commit = front.number_8()?;
    let expire = front.number_8()?;
    Some(EntryFields {
        key,
        encoding,
        bytes,
        commit,
        expire,
    })
}

impl<'a> EntryFields<'a> {
    // Takes memory for the key and the value.
    fn to_entry(&self, alloc: Global) -> Result<Entry, NoMemory>
        ensures { IfOk result (λ e. e ≡ entry_of self.now) }
    {
        Ok(Entry {
            key: Bytes::copy_of(alloc, self.key)?,
            bytes: Bytes::copy_of(alloc, self.bytes)?,
            encoding: self.encoding as i32,
            commit: self.commit,
            expire: self.expire,
        })
    }
}

// Whether it is under a greater key than the one before it, if there is one.
fn is_above(entry: &Entry, before: Option<&Entry>) -> bool
    ensures { result ≡ option_map_or (λ e. is_lt (key_cmp e.key entry.now.key))
        (option_copied before.entry) true }
{
    match before {
        Some(other) => compare(other.key.as_slice(), entry.key.as_slice()).is_lt(),
        None => true,
    }
}

impl Item for Entry {
    ghost front = { entry_at_front };

    ghost may_follow = { may_follow_entry };

    fn read(alloc: Global, bytes: &[u8]) -> Result<Option<(Entry, usize)>, NoMemory> {
        let mut front = Front::of(bytes);
        match entry_fields(&mut front) {
            Some(fields) => {
                let entry = fields.to_entry(alloc)?;
                Ok(Some((entry, bytes.len() - front.rest().len())))
            }
            None => Ok(None),
        }
    }

    fn follows(&self, before: Option<&Entry>, n: u64, now: u64) -> bool {
        entry_stands(self, n, now) && is_above(self, before)
    }
}
