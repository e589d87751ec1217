//! Signatures and tokens against RFC 4231 and a token that OpenSSL signed.
use crate::mac::hmac;
use crate::{SECRET_BYTES, Site, TOKEN_BYTES, TOKEN_LIFE_MS, TokenError, check_token, sign};
use dkv_base::Bytes;
use std::alloc::Global;
use std::test::Fail;

// The token that OpenSSL signs for the site below at moment 0, for an hour.
const TOKEN: &[u8; TOKEN_BYTES] =
    b"dkv1.000000000036ee80.8c31b0f3c47d2a4f42055c8c4774a556c6eb30d1784aada1db49a531dec9139f";

// The database 00000000-0000-4000-8000-000000000000, with a secret of zeros.
fn site(alloc: Global) -> Site {
    Site {
        database_id: [0, 0, 0, 0, 0, 0, 0x40, 0, 0x80, 0, 0, 0, 0, 0, 0, 0],
        secret: [0; SECRET_BYTES],
        access: Bytes::of(Vec::new(alloc)),
        url: Bytes::of(Vec::new(alloc)),
    }
}

// The digits of a message's signature, under a key filled with zeros as the definition fills it.
fn signature_digits(alloc: Global, key: &str, message: &str) -> Result<String, Fail> {
    let key = hex::decode(alloc, key)?;
    let mut filled = [0u8; SECRET_BYTES];
    for (place, byte) in filled.iter_mut().zip(key.as_slice()) {
        *place = *byte;
    }
    let message = hex::decode(alloc, message)?;
    Ok(hex::encode(alloc, hmac(&filled, message.as_slice()))?)
}

// The cases of RFC 4231, section 4, whose key has 32 bytes or fewer. Of the last one the RFC prints 32 digits.
#[test]
fn signatures_are_those_of_the_rfc(rt: HostRuntime) -> Result<(), Fail> {
    for (key, message, digits) in [
        (
            "0b0b0b0b0b0b0b0b0b0b0b0b0b0b0b0b0b0b0b0b",
            "4869205468657265",
            "b0344c61d8db38535ca8afceaf0bf12b881dc200c9833da726e9376c2e32cff7",
        ),
        (
            "4a656665",
            "7768617420646f2079612077616e7420666f72206e6f7468696e673f",
            "5bdcc146bf60754e6a042426089575c75a003f089d2739839dec58b964ec3843",
        ),
        (
            "aaaaaaaaaaaaaaaaaaaaaaaaaaaaaaaaaaaaaaaa",
            "dddddddddddddddddddddddddddddddddddddddddddddddddddddddddddddddddddddddddddddddddddddddddddddddddddd",
            "773ea91e36800e46854db8ebd09181a72959098b3ef8c122d9635514ced565fe",
        ),
        (
            "0102030405060708090a0b0c0d0e0f10111213141516171819",
            "cdcdcdcdcdcdcdcdcdcdcdcdcdcdcdcdcdcdcdcdcdcdcdcdcdcdcdcdcdcdcdcdcdcdcdcdcdcdcdcdcdcdcdcdcdcdcdcdcdcd",
            "82558a389a443c0ea4cc819899f2083a85f0faa3e578f8077a2e3ff46729665b",
        ),
        (
            "0c0c0c0c0c0c0c0c0c0c0c0c0c0c0c0c0c0c0c0c",
            "546573742057697468205472756e636174696f6e",
            "a3b6167473100ee06e0c796c2955552b",
        ),
    ] {
        let signature = signature_digits(rt.alloc(), key, message)?;
        assert!(rt; signature.as_str().starts_with(digits), "{signature}");
    }
    Ok(())
}

// What a check of the token above answers, in words.
fn answer(alloc: Global, at: u64) -> Result<String, Fail> {
    match check_token(&site(alloc), TOKEN, at) {
        Ok(()) => Ok(format!(in alloc; "good")?),
        Err(error) => Ok(format!(in alloc; "{error}")?),
    }
}

#[test]
fn a_token_is_good_until_its_expiry(rt: HostRuntime) -> Result<(), Fail> {
    let signed = sign(&site(rt.alloc()), TOKEN_LIFE_MS);
    assert_eq!(rt; signed.as_slice(), TOKEN.as_slice());
    for (at, words) in [
        (0, "good"),
        (TOKEN_LIFE_MS - 1, "good"),
        (TOKEN_LIFE_MS, "the token ended at 3600000 ms"),
        (u64::MAX, "the token ended at 3600000 ms"),
    ] {
        assert_eq!(rt; answer(rt.alloc(), at)?.as_str(), words, "at {at}");
    }
    Ok(())
}

fn is_bad(site: &Site, text: &[u8]) -> bool {
    check_token(site, text, 0) == Err(TokenError::BadToken)
}

#[test]
fn a_text_with_one_byte_changed_is_no_token(rt: HostRuntime) {
    let site = site(rt.alloc());
    for place in 0..TOKEN_BYTES {
        // The second one turns a lower-case letter into its upper case.
        for change in [1, 0x20] {
            let mut text = *TOKEN;
            text[place] ^= change;
            assert!(rt; is_bad(&site, &text), "place {place}");
        }
    }
}

#[test]
fn other_texts_are_no_tokens(rt: HostRuntime) {
    let site = site(rt.alloc());
    for text in [
        b"".as_slice(),
        &TOKEN[..85],
        b"dkv1.000000000036ee80.8c31b0f3c47d2a4f42055c8c4774a556c6eb30d1784aada1db49a531dec9139f0",
        b"dkv1.000000000036EE80.8c31b0f3c47d2a4f42055c8c4774a556c6eb30d1784aada1db49a531dec9139f",
        b"dkv1.000000000036ee80.8C31B0F3C47D2A4F42055C8C4774A556C6EB30D1784AADA1DB49A531DEC9139F",
    ] {
        assert!(rt; is_bad(&site, text), "{text:?}");
    }
}

#[test]
fn a_token_of_another_site_is_no_token(rt: HostRuntime) {
    let mut other_id = site(rt.alloc());
    other_id.database_id[15] = 1;
    let mut other_secret = site(rt.alloc());
    other_secret.secret[31] = 1;
    for site in [&other_id, &other_secret] {
        assert!(rt; is_bad(site, TOKEN));
        assert!(rt; check_token(site, &sign(site, 1), 0).is_ok());
    }
}
