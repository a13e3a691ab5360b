//! `hmac_sha256`: HMAC-SHA256 (RFC 2104).
ghost use Rattle.std.specs.Prelude.{◌≡◌, ◌≤◌, ◌++◌, length};
ghost use Rattle.iv_jwt.specs.Hmac.{hmac, key_block, masked, padded};

use sha2::{Digest, Sha256};

/// Bytes of a block of SHA-256.
const BLOCK: usize = 64;

/// A text, and zeros after it up to a block.
fn padded(text: &[u8]) -> [u8; 64]
    requires { length text.now ≤ 64 }
    ensures { result ≡ padded text.now }
{
    let mut block = [0; 64];
    block[..text.len()].copy_from_slice(text);
    block
}

/// The block of a key, which is hashed first if it is longer.
fn key_block(key: &[u8]) -> [u8; 64]
    ensures { result ≡ key_block key.now }
{
    if key.len() > BLOCK {
        padded(&Sha256::digest(key))
    } else {
        padded(key)
    }
}

/// Each byte of a block, exclusive or a mask.
fn masked(mask: u8, block: &[u8; 64]) -> [u8; 64]
    ensures { result ≡ masked mask block.now }
{
    let mut out = *block;
    for at in 0..64 {
        out[at] = block[at] ^ mask;
    }
    out
}

/// HMAC-SHA256 by a key, of a message in three pieces.
pub fn hmac_sha256(key: &[u8], first: &[u8], second: &[u8], third: &[u8]) -> [u8; 32]
    ensures { result ≡ hmac key.now (first.now ++ (second.now ++ third.now)) }
{
    let block = key_block(key);
    let mut inner = Sha256::new();
    inner.update(&masked(0x36, &block));
    inner.update(first);
    inner.update(second);
    inner.update(third);
    let mut outer = Sha256::new();
    outer.update(&masked(0x5c, &block));
    outer.update(&inner.finalize());
    outer.finalize()
}
