// The number of items of a row.
ghost use Rattle.std.specs.Prelude.{true};
ghost use Rattle.std.specs.Int.{w64};
ghost use Rattle.dkv_image.specs.Image.{number_at};

use crate::front::Front;
use crate::item::Item;
use dkv_base::NoMemory;
use std::alloc::Global;

impl Item for u64 {
    ghost front = { number_at w64 };

    ghost may_follow = { λ _ _ _. true };

    fn read(_alloc: Global, bytes: &[u8]) -> Result<Option<(u64, usize)>, NoMemory> {
        let mut front = Front::of(bytes);
        match front.number_8() {
            Some(number) => Ok(Some((number, bytes.len() - front.rest().len()))),
            None => Ok(None),
        }
    }

    fn follows(&self, _before: Option<&u64>, _n: u64, _now: u64) -> bool {
        true
    }
}
