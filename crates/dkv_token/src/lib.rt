//! Tokens: what the exchange hands out and every data request carries.
//!
//! The layer above may rely on this. A token of one expiry is one text of 86 bytes, and `sign` gives it. `check_token`
//! accepts exactly the tokens of the site that have not ended, and tells a text that is no token from a token that has
//! ended. A token names one expiry. Neither call takes memory.
#![tactic(auto)]

mod laws;
mod mac;
mod site;
#[cfg(test)]
mod tests;
mod token;

pub use laws::{one_expiry, tokens_are_exact, two_texts};
pub use mac::{SECRET_BYTES, SIGNATURE_BYTES};
pub use site::{DATABASE_ID_BYTES, Site};
pub use token::{
    DOT, EXPIRY_END, EXPIRY_START, MESSAGE_BYTES, PREFIX, SIGNATURE_START, TOKEN_BYTES,
    TOKEN_LIFE_MS, TokenError, check_token, sign,
};
