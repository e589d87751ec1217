// The ids of databases.
ghost use Rattle.std.specs.Prelude.{◌≡◌};
ghost use Rattle.uuid.specs.Uuid.{version_num};
ghost use Rattle.dkv_app.specs.Ids.{id_of};

use uuid::Builder;

/// The id of a new database, out of 16 random bytes: a UUID of version 4.
pub fn new_id(random: [u8; 16]) -> [u8; 16]
    ensures value { result ≡ id_of random }
    ensures version { version_num result ≡ 4 }
{
    Builder::from_random_bytes(random).into_uuid().into_bytes()
}
