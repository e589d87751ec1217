// Which kind a mutation is of.
ghost use Rattle.std.specs.Prelude.{◌≡◌};
ghost use Rattle.dkv_base.specs.Limits.{is_kind, is_known_kind, is_arithmetic};

use dkv_base::Mutation;
use dkv_base::kinds::{DELETE, MAX, MIN, SET, SET_STAMPED, SUM};

pub(crate) fn is_delete(mutation: &Mutation) -> bool
    ensures { result ≡ is_kind DELETE mutation.now }
{
    mutation.kind == DELETE
}

/// SET on a key that gets the commit's suffix.
pub(crate) fn is_stamped(mutation: &Mutation) -> bool
    ensures { result ≡ is_kind SET_STAMPED mutation.now }
{
    mutation.kind == SET_STAMPED
}

/// SUM, MAX or MIN.
pub(crate) fn is_arithmetic(mutation: &Mutation) -> bool
    ensures { result ≡ is_arithmetic mutation.now }
{
    matches!(mutation.kind, SUM | MAX | MIN)
}

/// One of the six kinds.
pub(crate) fn is_known_kind(mutation: &Mutation) -> bool
    ensures { result ≡ is_known_kind mutation.now }
{
    matches!(mutation.kind, SET | DELETE | SUM | MAX | MIN | SET_STAMPED)
}
