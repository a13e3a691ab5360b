//! `opened`: the parts of a token, decoded.
ghost use Rattle.std.specs.Prelude.{◌≡◌, ◌++◌, ◌∷◌, IfOk, option_map};
ghost use Rattle.iv_jwt.specs.Tokens.{cut, decoded, open_parts, opened};

use base64::DecodeAllocError;
use base64::engine::general_purpose::URL_SAFE_NO_PAD;
use std::alloc::{AllocError, Global};
use std::marker::Model;

/// The parts of a token: its header and its claims as they were sent, which are signed, and all three decoded.
#[derive(Drop)]
pub struct Parts<'a> {
    /// The header as it was sent.
    pub sent_header: &'a [u8],
    /// The claims as they were sent.
    pub sent_claims: &'a [u8],
    /// The header, decoded: JSON.
    pub header: Vec<u8>,
    /// The claims, decoded: JSON.
    pub claims: Vec<u8>,
    /// The signature, decoded.
    pub mac: Vec<u8>,
}

impl<'a> Model for Parts<'a> {
    ghost use Rattle.std.specs.Prelude.{◌++◌, ◌∷◌};
    ghost use Rattle.iv_jwt.specs.Tokens.{Opened};

    ghost Value = { Opened };

    ghost view = { λ o. record { signed = o.sent_header.now ++ 46 ∷ o.sent_claims.now; header = o.header.items; claims = o.claims.items; mac = o.mac.items } };
}

/// What comes before the first dot, and after it.
fn cut(bytes: &[u8]) -> Option<(&[u8], &[u8])>
    ensures { option_map (λ p. (p.0.now, p.1.now)) result ≡ cut bytes.now }
{
    for at in 0..bytes.len() {
        if bytes[at] == b'.' {
            return Some((&bytes[..at], &bytes[at + 1..]));
        }
    }
    None
}

/// The bytes that a part of a token is.
fn decoded(alloc: Global, text: &[u8]) -> Result<Option<Vec<u8>>, AllocError>
    ensures { IfOk result (λ o. option_map (λ v. v.items) o ≡ decoded text.now) }
{
    match URL_SAFE_NO_PAD.decode(alloc, text) {
        Ok(bytes) => Ok(Some(bytes)),
        Err(DecodeAllocError::OutOfMemory) => Err(AllocError),
        Err(DecodeAllocError::DecodeError(_)) => Ok(None),
    }
}

/// Three parts of a token, decoded.
fn open_parts<'a>(
    alloc: Global,
    sent_header: &'a [u8],
    sent_claims: &'a [u8],
    sent_mac: &[u8],
) -> Result<Option<Parts<'a>>, AllocError>
    ensures { IfOk result (λ o. o ≡ open_parts sent_header.now sent_claims.now sent_mac.now) }
{
    let Some(header) = decoded(alloc, sent_header)? else {
        return Ok(None);
    };
    let Some(claims) = decoded(alloc, sent_claims)? else {
        return Ok(None);
    };
    let Some(mac) = decoded(alloc, sent_mac)? else {
        return Ok(None);
    };
    Ok(Some(Parts {
        sent_header,
        sent_claims,
        header,
        claims,
        mac,
    }))
}

/// The parts of a token, if it has three of base64url.
pub fn opened(alloc: Global, token: &[u8]) -> Result<Option<Parts<'_>>, AllocError>
    ensures { IfOk result (λ o. o ≡ opened token.now) }
{
    let Some((header, rest)) = cut(token) else {
        return Ok(None);
    };
    let Some((claims, mac)) = cut(rest) else {
        return Ok(None);
    };
    open_parts(alloc, header, claims, mac)
}
