//! A database as its clients meet it.
use crate::mac::SECRET_BYTES;
use dkv_base::Bytes;
use std::fmt;

/// The length of a database's id.
pub const DATABASE_ID_BYTES: usize = 16;

/// A database as its clients meet it.
#[derive(Drop)]
pub struct Site {
    /// The bytes of the database's UUID, in the order of its text.
    pub database_id: [u8; DATABASE_ID_BYTES],
    /// The key under which tokens are signed.
    pub secret: [u8; SECRET_BYTES],
    /// The access token that an exchange needs.
    pub access: Bytes,
    /// Where the server is reached, without the path.
    pub url: Bytes,
}

impl fmt::Debug for Site {
    /// Shows no field, since two of them are secrets.
    fn fmt<W: fmt::Write>(&self, f: &mut fmt::Formatter<W>) -> fmt::Result {
        f.write_str("Site { .. }")
    }
}
