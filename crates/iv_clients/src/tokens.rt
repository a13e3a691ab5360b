//! `role_opened`: which role a token opens; `read_tokens`: the tokens of a file.
ghost use Rattle.std.specs.Prelude.{◌≡◌, ◌⊎◌, ◌∷◌, if◌then◌else◌, ℕ, List, [], None, Some, Err, IfOk, option_map, true, false};
ghost use Rattle.iv_clients.specs.Tokens.{Token, are_apart, digest_in, has_digest, is_no_token, lines_of, role_in, role_opened, token_in, token_of, token_parts, tokens_in, tokens_of};
ghost use Rattle.iv_clients.specs.Parsed.{behind_tokens, tokens_read};

use hex::FromHexError;
use iv_records::{behind, cut_at};
use iv_rows::name_ok;
use std::alloc::{AllocError, Global};
use std::marker::Model;

/// The SHA-256 of a token, the role that it opens, and who holds it.
#[derive(Drop)]
pub struct Token {
    /// 32 bytes.
    pub digest: Vec<u8>,
    /// The role's name.
    pub role: String,
    /// Who holds it: no text where that is not said.
    pub user: String,
}

impl Model for Token {
    ghost use Rattle.std.specs.Prelude.{string_bytes};
    ghost use Rattle.iv_clients.specs.Tokens.{Token};

    ghost Value = { Token };

    ghost view = { λ t. record { digest = t.digest.items; role = string_bytes t.role; user = string_bytes t.user } };
}

/// The first token that has a digest.
pub fn token_of<'a>(tokens: &'a [Token], digest: &[u8]) -> Option<&'a Token>
    ensures { option_map (λ t. t.now) result ≡ token_of tokens.now digest.now }
{
    tokens
        .iter()
        .find(|token| token.digest.as_slice() == digest)
}

/// The role of the first token that has a digest.
pub fn role_opened<'a>(tokens: &'a [Token], digest: &[u8]) -> Option<&'a str>
    ensures { option_map (λ role. role.now) result ≡ role_opened tokens.now digest.now }
{
    match token_of(tokens, digest) {
        None => None,
        Some(token) => Some(token.role.as_str()),
    }
}

/// Why a file of tokens is refused.
#[derive(Clone, Copy, Debug, PartialEq, Eq)]
pub enum TokensFault {
    /// A growth of memory was refused.
    Memory,
    /// The line of this number, counted from 1, is none that the file may have.
    Line(usize),
    /// A digest comes twice.
    Twice,
    /// There is no token.
    Empty,
}

/// The digits of a digest and the role of a line.
fn token_parts(line: &[u8]) -> Option<(&[u8], &[u8])>
    ensures { option_map (λ p. (p.0.now, p.1.now)) result ≡ token_parts line.now }
{
    let rest = behind(line, b"\"")?;
    let (digits, rest) = cut_at(rest, b'"')?;
    let rest = behind(rest, b" = \"")?;
    let (role, rest) = cut_at(rest, b'"')?;
    if rest.is_empty() {
        Some((digits, role))
    } else {
        None
    }
}

/// The bytes of hexadecimal digits.
fn digest_in(alloc: Global, digits: &[u8]) -> Result<Option<Vec<u8>>, AllocError>
    ensures { IfOk result (λ o. option_map (λ d. d.items) o ≡ digest_in digits.now) }
{
    match hex::decode(alloc, digits) {
        Ok(digest) => Ok(Some(digest)),
        Err(error) => match error {
            FromHexError::OutOfMemory => Err(AllocError),
            _ => Ok(None),
        },
    }
}

/// The role of a token that has a name, as text.
fn role_in(role: &[u8]) -> Option<&str>
    ensures { option_map (λ r. r.now) result ≡ role_in role.now }
{
    let Ok(role) = str::from_utf8(role) else {
        return None;
    };
    if name_ok(role) { Some(role) } else { None }
}

/// The token of a line.
fn token_in(alloc: Global, line: &[u8]) -> Result<Option<Token>, AllocError>
    ensures { IfOk result (λ o. o ≡ token_in line.now) }
{
    let Some((digits, role)) = token_parts(line) else {
        return Ok(None);
    };
    let Some(role) = role_in(role) else {
        return Ok(None);
    };
    let Some(digest) = digest_in(alloc, digits)? else {
        return Ok(None);
    };
    if digest.len() != 32 {
        return Ok(None);
    }
    let role = String::from_str(alloc, role)?;
    Ok(Some(Token {
        digest,
        role,
        user: String::new(alloc),
    }))
}

/// Whether a line names the table, is a remark, or nothing.
fn is_no_token(line: &[u8]) -> bool
    ensures { result ≡ is_no_token line.now }
{
    match line {
        [] => true,
        [first, ..] => *first == b'#' || line == b"[tokens]".as_slice(),
    }
}

/// Whether one of the tokens has a digest.
fn has_digest(tokens: &[Token], digest: &[u8]) -> bool
    ensures { result ≡ has_digest digest.now tokens.now }
{
    tokens.iter().any(|token| token.digest.as_slice() == digest)
}

/// Whether no digest comes twice.
fn are_apart(tokens: &[Token]) -> bool
    ensures { result ≡ are_apart tokens.now }
{
    for at in 0..tokens.len() {
        let token = &tokens[at];
        if has_digest(&tokens[at + 1..], &token.digest) {
            return false;
        }
    }
    true
}

/// Appends the token of a line, if it has one. Whether the file may have the line.
fn push_token(alloc: Global, tokens: &mut Vec<Token>, line: &[u8]) -> Result<bool, AllocError>
    ensures { IfOk result (λ is. (ls : List (List ℕ)) → behind_tokens tokens.old.items (tokens_of (line.now ∷ ls))
        ≡ (if is then behind_tokens tokens.new.items (tokens_of ls) else None)) }
{
    if is_no_token(line) {
        return Ok(true);
    }
    match token_in(alloc, line)? {
        None => Ok(false),
        Some(token) => {
            tokens.push(token)?;
            Ok(true)
        }
    }
}

/// The tokens before the last line of a file, and its own; or the line's number, if the file may not have it.
fn last_token(
    alloc: Global,
    tokens: Vec<Token>,
    line: &[u8],
    number: usize,
) -> Result<Result<Vec<Token>, usize>, AllocError>
    ensures { IfOk result (λ r. tokens_read r ≡ behind_tokens tokens.items (tokens_of (line.now ∷ []))) }
{
    let mut tokens = tokens;
    if push_token(alloc, &mut tokens, line)? {
        Ok(Ok(tokens))
    } else {
        Ok(Err(number))
    }
}

/// The tokens of the lines of a file, or the number of the first line that it may not have.
fn tokens_of(alloc: Global, file: &[u8]) -> Result<Result<Vec<Token>, usize>, AllocError>
    ensures { IfOk result (λ r. tokens_read r ≡ tokens_of (lines_of file.now)) }
{
    let mut tokens = Vec::new(alloc);
    let mut rest = file;
    for number in 0..file.len() {
        match cut_at(rest, b'\n') {
            None => {
                let read = last_token(alloc, tokens, rest, number + 1)?;
                return Ok(read);
            }
            Some((line, later)) => {
                if !push_token(alloc, &mut tokens, line)? {
                    return Ok(Err(number + 1));
                }
                rest = later;
            }
        }
    }
    match cut_at(rest, b'\n') {
        None => {
            let read = last_token(alloc, tokens, rest, file.len() + 1)?;
            Ok(read)
        }
        Some(_) => Err(AllocError),
    }
}

/// The tokens of a file.
///
/// # Errors
/// `Memory` if a growth of memory was refused; `Line` with the first line that is no token, no remark and not the table's name;
/// `Twice` if a digest comes twice; `Empty` if there is no token.
pub fn read_tokens(alloc: Global, file: &[u8]) -> Result<Vec<Token>, TokensFault>
    ensures tokens { IfOk result (λ ts. tokens_in file.now ≡ Some ts.items) }
    ensures none { (why : TokensFault) → result ≡ Err why → (why ≡ TokensFault.Memory) ⊎ (tokens_in file.now ≡ None) }
{
    match tokens_of(alloc, file) {
        Err(AllocError) => Err(TokensFault::Memory),
        Ok(Err(number)) => Err(TokensFault::Line(number)),
        Ok(Ok(tokens)) => {
            if !are_apart(&tokens) {
                Err(TokensFault::Twice)
            } else if tokens.is_empty() {
                Err(TokensFault::Empty)
            } else {
                Ok(tokens)
            }
        }
    }
}
