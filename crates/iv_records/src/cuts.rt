//! Where texts are cut: `cut_at` at a byte, `cut_quote` at a quotation mark, `behind` and `between` after a prefix.
ghost use Rattle.std.specs.Prelude.{◌≡◌, ◌==◌, ◌&&◌, not, false, option_map};
ghost use Rattle.iv_records.specs.Cuts.{behind, between, cut_at, cut_quote};

/// What comes before the first such byte, and after it.
pub fn cut_at(bytes: &[u8], byte: u8) -> Option<(&[u8], &[u8])>
    ensures { option_map (λ p. (p.0.now, p.1.now)) result ≡ cut_at byte bytes.now }
{
    for at in 0..bytes.len() {
        if bytes[at] == byte {
            return Some((&bytes[..at], &bytes[at + 1..]));
        }
    }
    None
}

/// What follows a prefix.
pub fn behind<'a>(bytes: &'a [u8], prefix: &[u8]) -> Option<&'a [u8]>
    ensures { option_map (λ rest. rest.now) result ≡ behind prefix.now bytes.now }
{
    if bytes.len() < prefix.len() {
        return None;
    }
    let (front, rest) = bytes.split_at(prefix.len());
    if front == prefix { Some(rest) } else { None }
}

/// What stands between a prefix and the first such byte, and after it.
pub fn between<'a>(text: &'a [u8], prefix: &[u8], byte: u8) -> Option<(&'a [u8], &'a [u8])>
    ensures { option_map (λ p. (p.0.now, p.1.now)) result ≡ between prefix.now byte text.now }
{
    let rest = behind(text, prefix)?;
    cut_at(rest, byte)
}

/// Whether a byte is this one, and no backslash escapes it.
fn is_plain(escaped: bool, byte: u8, wanted: u8) -> bool
    ensures { result ≡ (not escaped && (byte == wanted)) }
{
    !escaped && byte == wanted
}

/// What stands before the first quotation mark that no backslash escapes, and after it.
pub fn cut_quote(bytes: &[u8]) -> Option<(&[u8], &[u8])>
    ensures { option_map (λ p. (p.0.now, p.1.now)) result ≡ cut_quote false bytes.now }
{
    let mut escaped = false;
    for at in 0..bytes.len() {
        if is_plain(escaped, bytes[at], b'"') {
            return Some((&bytes[..at], &bytes[at + 1..]));
        }
        escaped = is_plain(escaped, bytes[at], b'\\');
    }
    None
}
