// Readers and writers of which it is known whether they tell their bytes.
ghost use Rattle.std.specs.Prelude.{◌≡◌, Bool, true, false, refl};
ghost use Rattle.dkv_io.specs.Streams.{is_told};

use std::fs::File;
use std::io::{Read, Stderr, Stdin, Stdout, Write};

/// A reader that tells what it has left at all times, or never.
pub trait SteadyRead: Read {
    /// Whether it tells.
    ghost tells: { Bool };

    /// It does so at all times.
    ghost always: { (r : Self) → is_told (Self.remaining r) ≡ tells };
}

/// A writer that tells what it holds at all times, or never.
pub trait SteadyWrite: Write {
    /// Whether it tells.
    ghost tells: { Bool };

    /// It does so at all times.
    ghost always: { (w : Self) → is_told (Self.contents w) ≡ tells };
}

impl SteadyRead for Stdin {
    ghost tells = { false };

    ghost always = { λ _. refl };
}

impl SteadyRead for File {
    ghost tells = { false };

    ghost always = { λ _. refl };
}

impl SteadyRead for &[u8] {
    ghost tells = { true };

    ghost always = { λ _. refl };
}

impl<R: SteadyRead> SteadyRead for &mut R {
    ghost tells = { R.tells };

    ghost always = { λ r. R.always r.now };
}

impl SteadyWrite for Stdout {
    ghost tells = { false };

    ghost always = { λ _. refl };
}

impl SteadyWrite for Stderr {
    ghost tells = { false };

    ghost always = { λ _. refl };
}

impl SteadyWrite for File {
    ghost tells = { false };

    ghost always = { λ _. refl };
}

impl SteadyWrite for Vec<u8> {
    ghost tells = { true };

    ghost always = { λ _. refl };
}

impl<W: SteadyWrite> SteadyWrite for &mut W {
    ghost tells = { W.tells };

    ghost always = { λ w. W.always w.now };
}
