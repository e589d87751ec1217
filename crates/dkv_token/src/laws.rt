//! The laws of tokens, each proved on a function of no arguments.
ghost use Rattle.std.specs.Prelude.{◌≡◌, ◌<◌, ◌^◌, ℕ, List};
ghost use Rattle.dkv_token.specs.Token.{IsToken, TokensAreExact, written_expiry, sign};
ghost use Rattle.dkv_token.specs.declared.site.Site.{Site};

/// A text ends at an expiry exactly where it is the token of that expiry.
pub fn tokens_are_exact()
    ensures { TokensAreExact }
{}

/// Two expiries have two texts, whichever sites sign them.
pub fn two_texts()
    ensures { (site other : Site) (e f : ℕ) → e < 2 ^ 64 → f < 2 ^ 64
        → sign site e ≡ sign other f → e ≡ f }
{}

/// A token names one expiry, which its text alone tells.
pub fn one_expiry()
    ensures { (site : Site) (text : List ℕ) (e : ℕ)
        → IsToken site text e → e ≡ written_expiry text }
{}
