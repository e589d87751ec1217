// Numbers as the definitions take them.
ghost use Rattle.std.specs.Prelude.{◌≡◌};
ghost use Rattle.dkv_base.specs.Limits.{from_zero};

/// The number, or 0 where it is negative.
pub fn from_zero(number: i64) -> u64
    ensures { result ≡ from_zero number }
{
    if number > 0 { number as u64 } else { 0 }
}
