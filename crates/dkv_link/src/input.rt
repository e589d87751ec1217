// The bytes that a link in memory gives.
ghost use Rattle.std.specs.Prelude.{◌≡◌, ◌≢◌, ◌≤◌, ◌<◌, ◌⊎◌, ◌++◌, [], min, length, take, IsTrue, IsNone, IfSome};

use crate::LinkGot;

// Bytes, and how many of them were given.
#[derive(Drop)]
pub(crate) struct Input {
    pub(crate) bytes: Vec<u8>,
    pub(crate) place: usize,
    ghost within: { place ≤ length bytes.items },
}

// Copies so many bytes from the front of some to the front of others.
fn copy_front(count: usize, from: &[u8], into: &mut [u8])
    requires from { count ≤ length from.now }
    requires into { count ≤ length into.old }
    ensures { take count into.new ≡ take count from.now }
{
    into[..count].copy_from_slice(&from[..count]);
}

impl Input {
    ghost use Rattle.dkv_link.specs.Inputs.{passed, to_come};
    ghost use Rattle.dkv_link.specs.Links.{LinkWithin, given};
    ghost use Rattle.dkv_link.specs.Paces.{GivesPiece, EndsFor, QuietFor};
    ghost use Rattle.dkv_link.specs.declared.link.LinkGot.TheVariants.{Failed};

    // Gives the next bytes, at most so many, and says how many.
    fn give(&mut self, most: u64, into: &mut [u8]) -> usize
        ensures count { result
            ≡ min most (min (length into.old) (length (to_come self.old))) }
        ensures got { passed self.new ≡ passed self.old ++ take result into.new }
        ensures left { to_come self.old ≡ take result into.new ++ to_come self.new }
    {
        let left = &self.bytes[self.place..];
        let room = into.len().min(left.len());
        let count = (most as usize).min(room);
        copy_front(count, left, into);
        self.place += count;
        count
    }

    // What a read gives: at most so many bytes, Quiet where no number is given, and End where nothing is left or all is over.
    pub(crate) fn come(&mut self, piece: Option<u64>, is_over: bool, into: &mut [u8]) -> LinkGot
        requires some { IfSome piece (λ most. 0 < most) }
        requires room { 0 < length into.old }
        ensures within { LinkWithin result (length into.new) }
        ensures got { passed self.new ≡ passed self.old ++ given result into.new }
        ensures left { to_come self.old ≡ given result into.new ++ to_come self.new }
        ensures piece { IfSome piece (λ most.
            GivesPiece most (length into.new) (length (to_come self.old)) result) }
        ensures end { EndsFor (IsTrue is_over ⊎ (to_come self.old ≡ [])) result }
        ensures quiet { QuietFor (IsNone piece) result }
        ensures good { result ≢ Failed }
    {
        let Some(most) = piece else {
            return LinkGot::Quiet;
        };
        if is_over {
            return LinkGot::End;
        }
        match self.give(most, into) {
            0 => LinkGot::End,
            count => LinkGot::Bytes(count),
        }
    }
}
