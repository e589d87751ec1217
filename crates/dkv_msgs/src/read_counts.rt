// How many parts a body has, which is known before any of them is built.
ghost use Rattle.std.specs.Prelude.{◌≡◌, length};
ghost use Rattle.dkv_wire.specs.FieldLists.{fields};
ghost use Rattle.dkv_msgs.specs.ByField.{payloads};
ghost use Rattle.dkv_msgs.specs.Requests.{AreCounts};

use dkv_wire::{Fields, Payload};

// How many payloads a field has.
pub(crate) fn count(field: u32, bytes: &[u8]) -> usize
    ensures { result ≡ length (payloads field (fields 0 bytes.now)) }
{
    let mut count = 0usize;
    let mut fields = Fields::new(bytes);
    while let Ok(Some(found)) = fields.next() {
        if found.number == field
            && let Payload::Len(_) = found.payload
        {
            count += 1;
        }
    }
    count
}

// How many checks, mutations and enqueues a write has.
#[derive(Clone, Copy, Debug)]
pub(crate) struct WriteCounts {
    pub checks: usize,
    pub mutations: usize,
    pub enqueues: usize,
}

impl WriteCounts {
    pub(crate) fn of(bytes: &[u8]) -> WriteCounts
        ensures { AreCounts result (fields 0 bytes.now) }
    {
        let mut counts = WriteCounts {
            checks: 0,
            mutations: 0,
            enqueues: 0,
        };
        let mut fields = Fields::new(bytes);
        while let Ok(Some(found)) = fields.next() {
            if let Payload::Len(_) = found.payload {
                match found.number {
                    1 => counts.checks += 1,
                    2 => counts.mutations += 1,
                    3 => counts.enqueues += 1,
                    _ => {}
                }
            }
        }
        counts
    }
}
