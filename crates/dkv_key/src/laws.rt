//! The laws of keys and versionstamps, each proved on a function of no arguments.
ghost use Rattle.std.specs.Prelude.{◌≡◌, ◌<◌, ◌^◌, ◌↔◌, ℕ, List, IsTrue};
ghost use Rattle.std.specs.Ordering.{nat_cmp};
ghost use Rattle.dkv_base.specs.State.{is_between, key_cmp};
ghost use Rattle.dkv_base.specs.Stamps.{stamp, hex_digits, suffix};
ghost use Rattle.dkv_key.specs.declared.part.Part.{Part};
ghost use Rattle.dkv_key.specs.declared.part.Part.TheVariants.{Text};
ghost use Rattle.dkv_key.specs.Parts.{AreParts, HasMore, spelling, key, parts_cmp, range_start, range_end};
ghost use Rattle.dkv_key.specs.Reading.{FirstFault};

/// Two part lists with one spelling are equal.
pub fn one_list_of_parts()
    ensures { (ps qs : List Part) → AreParts ps → AreParts qs → key ps ≡ key qs → ps ≡ qs }
{}

/// The byte order of spellings is the order of part lists.
pub fn keys_order_as_parts()
    ensures { (ps qs : List Part) → AreParts ps → AreParts qs
        → key_cmp (key ps) (key qs) ≡ parts_cmp ps qs }
{}

/// Bytes have one first place where no part begins.
pub fn one_first_fault()
    ensures { (at other : ℕ) (bytes : List ℕ)
        → FirstFault at bytes → FirstFault other bytes → at ≡ other }
{}

/// The range of a prefix holds just the keys with its parts and at least one more.
pub fn range_holds_longer_keys()
    ensures { (ps qs : List Part) → AreParts ps → AreParts qs
        → IsTrue (is_between (range_start (key ps)) (range_end (key ps)) (key qs)) ↔ HasMore ps qs }
{}

/// Versionstamps order as commit numbers do.
pub fn stamps_order_as_numbers()
    ensures { (n m : ℕ) → n < 2 ^ 64 → m < 2 ^ 64 → key_cmp (stamp n) (stamp m) ≡ nat_cmp n m }
{}

/// What a versionstamped key ends with is a text part.
pub fn suffix_is_a_text()
    ensures { (n : ℕ) → suffix n ≡ spelling (Text (hex_digits (stamp n))) }
{}
