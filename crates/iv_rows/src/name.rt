//! Whether a text may be a name of a role, relation or column (`name_ok`), and which words are reserved.
//!
//! A reserved word is looked for among those of its length alone.
ghost use Rattle.std.specs.Prelude.{◌≡◌, bytes_eq, nat_le, length};
ghost use Rattle.std.specs.List.{list_all, list_any};
ghost use Rattle.iv_rows.specs.Names.{is_name, is_first, is_further, is_reserved, begins_well};

/// Whether the byte may begin a name: a to z or an underscore.
fn is_first(byte: u8) -> bool
    ensures { result ≡ is_first byte }
{
    (b'a' <= byte && byte <= b'z') || byte == b'_'
}

/// Whether the byte may be in a name: a to z, an underscore or a digit.
fn is_further(byte: u8) -> bool
    ensures { result ≡ is_further byte }
{
    is_first(byte) || (b'0' <= byte && byte <= b'9')
}

/// Whether the first byte may begin a name.
fn begins_well(bytes: &[u8]) -> bool
    ensures { result ≡ begins_well bytes.now }
{
    if bytes.len() == 0 {
        return false;
    }
    is_first(bytes[0])
}

/// Whether the text is this reserved word, which is never a name. Most words differ in their length.
fn is_word(word: &str, text: &str) -> bool
    ensures { result ≡ bytes_eq word.now text.now }
{
    word.len() == text.len() && word == text
}

/// Whether the text is one of these reserved words, which are never names.
fn is_one_of(words: &[&str], text: &str) -> bool
    ensures { result ≡ list_any (λ word. bytes_eq word.now text.now) words.now }
{
    words.iter().any(|word| is_word(word, text))
}

/// Whether the text is a word that is never a name. The words are ordered by their number of bytes.
fn is_reserved(text: &str) -> bool
    ensures { result ≡ is_reserved text.now }
{
    match text.len() {
        2 => is_one_of(&["as", "by", "in", "is", "on", "or"], text),
        3 => is_one_of(&["all", "and", "for", "not", "sum"], text),
        4 => is_one_of(
            &[
                "case", "cast", "from", "full", "join", "left", "like", "null", "true", "with",
            ],
            text,
        ),
        5 => is_one_of(
            &[
                "count", "cross", "false", "fetch", "group", "inner", "limit", "order", "outer",
                "right", "union", "using", "where",
            ],
            text,
        ),
        6 => is_one_of(
            &[
                "except", "exists", "having", "offset", "public", "select", "window",
            ],
            text,
        ),
        7 => is_one_of(&["between", "natural"], text),
        8 => is_one_of(&["distinct"], text),
        9 => is_one_of(&["intersect"], text),
        12 => is_one_of(&["current_user"], text),
        _ => false,
    }
}

/// Whether each byte may be in a name.
fn are_further(bytes: &[u8]) -> bool
    ensures { result ≡ list_all is_further bytes.now }
{
    bytes.iter().all(|byte| is_further(*byte))
}

/// Whether there are at most 63 bytes, as in a name.
fn is_short(bytes: &[u8]) -> bool
    ensures { result ≡ nat_le (length bytes.now) 63 }
{
    bytes.len() <= 63
}

/// Whether the text may be a name: a to z or an underscore first, then a to z, digits and underscores, at most 63
/// bytes, and no reserved word. It takes no memory.
///
/// Source: PostgreSQL 16, identifiers and key words, in the profile of docs/PROTOCOL.md, Names and values.
pub fn name_ok(text: &str) -> bool
    ensures { result ≡ is_name text.now }
{
    let bytes = text.as_bytes();
    if !begins_well(bytes) {
        return false;
    }
    if !are_further(bytes) {
        return false;
    }
    if !is_short(bytes) {
        return false;
    }
    !is_reserved(text)
}
