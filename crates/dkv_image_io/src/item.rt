// What an image has in rows: entries and messages, and the counts before them.
ghost use Rattle.std.specs.Prelude.{◌≡◌, ◌++◌, ◌≤◌, List, ℕ, Bool, length, drop, IfOk, IfSome, Option, Some, None, Ok};
ghost use Rattle.std.specs.Option.{option_copied};
ghost use Rattle.dkv_image.specs.Image.{Bounds};
ghost use Rattle.dkv_image_io.specs.Reading.{narrow, IsEnough, StandsNot};

use dkv_base::NoMemory;
use std::alloc::Global;

/// What is read from the front of bytes, and stands where it may follow the one before it.
pub(crate) trait Item: Sized + Drop {
    /// The item at the front of bytes, and those behind it; none where they end before it does.
    ghost front: { List ℕ → Option (Self × List ℕ) };

    /// Whether it stands behind another, if there is one.
    ghost may_follow: { Bounds → Option Self → Self → Bool };

    /// The item at the front of the bytes, whatever follows these, and how many of them it has. Where there is none, none that
    /// stands begins there, or more of it follows. Takes memory for it.
    fn read(alloc: Global, bytes: &[u8]) -> Result<Option<(Self, usize)>, NoMemory>
        ensures found { (rest : List ℕ) → IfOk result (λ found. IfSome found (λ x.
            (x.1 ≤ length bytes.now)
            × (front (bytes.now ++ rest) ≡ Some (x.0, drop x.1 bytes.now ++ rest)))) }
        ensures none { (rest : List ℕ) (n now : ℕ) (before : Option Self) → result ≡ Ok None
            → IsEnough bytes.now rest
            → StandsNot (may_follow (narrow n now) before) (front (bytes.now ++ rest)) };

    /// Whether it stands behind another in an image after commit `n` at the moment `now`.
    fn follows(&self, before: Option<&Self>, n: u64, now: u64) -> bool
        ensures { result ≡ may_follow (narrow n now) (option_copied before.entry) self.now };
}
