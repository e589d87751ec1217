// What the fields of a flat message hold, gathered in one walk.
ghost use Rattle.std.specs.Prelude.{◌≡◌, ◌≤◌, [], length, IfNone, IfSome};
ghost use Rattle.dkv_wire.specs.FieldLists.{fields};
ghost use Rattle.dkv_msgs.specs.ByField.{payloads, joined};
ghost use Rattle.dkv_msgs.specs.Parts.{ArePartsAfter, AreParts};

use crate::read_fields::Payloads;
use dkv_wire::{Fields, Payload};

// The last bytes and the last numbers in the fields 1 to 4, as far as a message has them; none and 0 where there are none.
#[derive(Clone, Copy)]
pub(crate) struct Parts<'a> {
    pub bytes1: &'a [u8],
    pub bytes2: &'a [u8],
    pub bytes4: &'a [u8],
    pub number1: u64,
    pub number2: u64,
    pub number3: u64,
    pub number4: u64,
}

impl<'a> Parts<'a> {
    // Those of no fields.
    fn none() -> Parts<'a>
        ensures { AreParts result [] }
    {
        Parts {
            bytes1: &[],
            bytes2: &[],
            bytes4: &[],
            number1: 0,
            number2: 0,
            number3: 0,
            number4: 0,
        }
    }

    // Those of the bytes.
    pub(crate) fn of(bytes: &'a [u8]) -> Parts<'a>
        ensures { AreParts result (fields 0 bytes.now) }
    {
        Parts::none().then(bytes)
    }

    // Those of all payloads of a field in a row, if there are any.
    pub(crate) fn joined(field: u32, bytes: &'a [u8]) -> Option<Parts<'a>>
        ensures none { IfNone result (payloads field (fields 0 bytes.now) ≡ []) }
        ensures given { IfSome result (λ _. 1 ≤ length (payloads field (fields 0 bytes.now))) }
        ensures some { IfSome result (λ parts. AreParts parts (joined field (fields 0 bytes.now))) }
    {
        let mut texts = Payloads::new(field, bytes);
        let mut parts = Parts::of(texts.next()?);
        while let Some(text) = texts.next() {
            parts = parts.then(text);
        }
        Some(parts)
    }

    // Those of the fields from before, and then of the bytes.
    fn then(self, bytes: &'a [u8]) -> Parts<'a>
        ensures { ArePartsAfter self.entry result (fields 0 bytes.now) }
    {
        let mut parts = self;
        let mut fields = Fields::new(bytes);
        while let Ok(Some(found)) = fields.next() {
            match found.payload {
                Payload::Len(text) => match found.number {
                    1 => parts.bytes1 = text,
                    2 => parts.bytes2 = text,
                    4 => parts.bytes4 = text,
                    _ => {}
                },
                Payload::Varint(n) => match found.number {
                    1 => parts.number1 = n,
                    2 => parts.number2 = n,
                    3 => parts.number3 = n,
                    4 => parts.number4 = n,
                    _ => {}
                },
                Payload::Fixed64(_) | Payload::Fixed32(_) => {}
            }
        }
        parts
    }
}
