//! Keys as lists of typed parts, and the versionstamps of commits.
//!
//! A key is the spellings of its parts, one after the other, and the byte order of keys is the order of their part
//! lists by value. The layer above may rely on: `encode` writes just that spelling, `decode` reads it back and refuses
//! everything else at the first place where no part begins, and the two bounds of `prefix_range` hold just the keys
//! that have more parts behind the prefix.
#![tactic(auto)]

pub mod codes;
mod laws;
mod part;
mod reading;
mod stamps;
#[cfg(test)]
mod tests;
mod writing;

pub use laws::{
    keys_order_as_parts, one_first_fault, one_list_of_parts, range_holds_longer_keys,
    stamps_order_as_numbers, suffix_is_a_text,
};
pub use part::{KeyError, Part};
pub use reading::decode;
pub use stamps::{STAMP_DIGITS, SUFFIX_BYTES, stamp_hex, stamp_of, suffix};
pub use writing::{encode, prefix_range};
