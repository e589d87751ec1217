// Fields are read from the front of bytes.
ghost use Rattle.std.specs.Prelude.{◌≡◌, Some, None, IfSome, IfNone};
ghost use Rattle.std.specs.Int.{w8, w32, w64};
ghost use Rattle.dkv_image.specs.Image.{bytes_at, number_at, sized_at};

use std::marker::Model;

// The bytes that aren't read yet.
#[derive(Drop)]
pub(crate) struct Front<'a> {
    rest: &'a [u8],
}

impl<'a> Model for Front<'a> {
    ghost use Rattle.std.specs.Prelude.{List, ℕ};

    ghost Value = { List ℕ };

    ghost view = { λ f. f.rest.now };
}

impl<'a> Front<'a> {
    pub(crate) fn of(bytes: &'a [u8]) -> Front<'a>
        ensures { result ≡ bytes.now }
    {
        Front { rest: bytes }
    }

    // What isn't read yet.
    pub(crate) fn rest(&self) -> &'a [u8]
        ensures { result.now ≡ self.now }
    {
        self.rest
    }

    // So many bytes.
    fn bytes(&mut self, count: usize) -> Option<&'a [u8]>
        ensures found { IfSome result (λ part.
            bytes_at count self.old ≡ Some (part.now, self.new)) }
        ensures none { IfNone result (bytes_at count self.old ≡ None) }
    {
        let (part, rest) = self.rest.split_at_checked(count)?;
        self.rest = rest;
        Some(part)
    }

    // A number of one byte.
    pub(crate) fn number_1(&mut self) -> Option<u8>
        ensures found { IfSome result (λ n. number_at w8 self.old ≡ Some (n, self.new)) }
        ensures none { IfNone result (number_at w8 self.old ≡ None) }
    {
        let (part, rest) = self.rest.split_first_chunk::<1>()?;
        self.rest = rest;
        Some(u8::from_le_bytes(*part))
    }

    // A number of four bytes, least first.
    pub(crate) fn number_4(&mut self) -> Option<u32>
        ensures found { IfSome result (λ n. number_at w32 self.old ≡ Some (n, self.new)) }
        ensures none { IfNone result (number_at w32 self.old ≡ None) }
    {
        let (part, rest) = self.rest.split_first_chunk::<4>()?;
        self.rest = rest;
        Some(u32::from_le_bytes(*part))
    }

    // A number of eight bytes, least first.
    pub(crate) fn number_8(&mut self) -> Option<u64>
        ensures found { IfSome result (λ n. number_at w64 self.old ≡ Some (n, self.new)) }
        ensures none { IfNone result (number_at w64 self.old ≡ None) }
    {
        let (part, rest) = self.rest.split_first_chunk::<8>()?;
        self.rest = rest;
        Some(u64::from_le_bytes(*part))
    }

    // Bytes with their length before them.
    pub(crate) fn sized(&mut self) -> Option<&'a [u8]>
        ensures found { IfSome result (λ part. sized_at self.old ≡ Some (part.now, self.new)) }
        ensures none { IfNone result (sized_at self.old ≡ None) }
    {
        let count = self.number_4()?;
        self.bytes(count as usize)
    }
}
