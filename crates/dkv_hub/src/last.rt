// What a watch showed last, with room that is made ahead.
ghost use Rattle.std.specs.Prelude.{◌≡◌, IfOk, IfSome, Some, None, length};
ghost use Rattle.std.specs.Option.{option_copied};

use crate::Shown;
use dkv_base::NoMemory;
use std::alloc::Global;
use std::marker::Model;

// What a watch showed last of each key. Contracts see for how many keys there is `room`, and what
// was `shown`, which is nothing before the first frame.
#[derive(Drop)]
pub(crate) struct LastShown {
    places: Vec<Shown>,
    begun: bool,
}

impl Model for LastShown {
    ghost use Rattle.std.specs.Prelude.{length};
    ghost use Rattle.std.specs.Bool.{then_some};
    ghost use Rattle.dkv_hub.specs.Rows.{Last};

    ghost Value = { Last };

    ghost view = { λ l. record {
      room = length l.places.items;
      shown = then_some l.begun l.places.items;
    } };
}

impl LastShown {
    // Nothing was shown yet. Takes memory for so many keys.
    pub(crate) fn with_room(alloc: Global, keys: usize) -> Result<LastShown, NoMemory>
        ensures { IfOk result (λ l. l ≡ record { room = keys; shown = None }) }
    {
        Ok(LastShown {
            places: Vec::from_elem(alloc, Shown::of(None), keys)?,
            begun: false,
        })
    }

    pub(crate) fn get(&self) -> Option<&[Shown]>
        ensures shown { option_copied result ≡ self.now.shown }
        ensures room { IfSome result (λ shown. length shown.now ≡ self.now.room) }
    {
        if self.begun {
            Some(self.places.as_slice())
        } else {
            None
        }
    }

    // Takes no memory.
    pub(crate) fn set(&mut self, shown: &[Shown])
        requires { length shown.now ≡ self.old.room }
        ensures { self.new ≡ record self.old { shown = Some shown.now } }
    {
        self.places.copy_from_slice(shown);
        self.begun = true;
    }
}
