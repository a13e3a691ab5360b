//! `cut_at`, `before`: bytes, cut at a byte.
ghost use Rattle.std.specs.Prelude.{◌≡◌, option_map};
ghost use Rattle.iv_pages.specs.Cut.{before, cut_at};

/// What comes before the first such byte, and after it.
pub fn cut_at(bytes: &[u8], byte: u8) -> Option<(&[u8], &[u8])>
    ensures { option_map (λ p. (p.0.now, p.1.now)) result ≡ cut_at byte bytes.now }
{
    for at in 0..bytes.len() {
        if bytes[at] == byte {
            return Some((&bytes[..at], &bytes[at + 1..]));
        }
    }
    None
}

/// What comes before the first such byte: all, if there is none.
pub fn before(bytes: &[u8], byte: u8) -> &[u8]
    ensures { result.now ≡ before byte bytes.now }
{
    match cut_at(bytes, byte) {
        None => bytes,
        Some((front, _)) => front,
    }
}
