//! `role_of`: the role that a token grants, if it is to be believed.
ghost use Rattle.std.specs.Prelude.{◌≡◌, IfOk, Some, bytes_eq, option_and_then, option_map};
ghost use Rattle.json.specs.Value.{value_view};
ghost use Rattle.iv_jwt.specs.Documents.{json_of};
ghost use Rattle.iv_jwt.specs.Hmac.{hmac};
ghost use Rattle.iv_jwt.specs.Seen.{IsAnswer, claimed_by, granted_by};
ghost use Rattle.iv_jwt.specs.Tokens.{IsGranted, begins_at, claimed_in, claimed_of, granted_at, is_header, is_text, is_well_header, judged, role_at, subject_at};

use crate::comparing::is_same;
use crate::documents::{json_of, seconds_at, text_at};
use crate::hashing::hmac_sha256;
use crate::opening::{Parts, opened};
use iv_rows::name_ok;
use json::{Scratch, Value};
use std::alloc::{AllocError, Global};

/// Bytes of a secret, at least: those of a digest.
const FEWEST_BYTES: usize = 32;

/// What a token says that is to be believed.
#[derive(Drop)]
pub struct Claims {
    /// The role whose rights the client has: a name.
    pub role: String,
    /// Whom the token speaks of, in at most 255 bytes.
    pub subject: String,
    /// When it ends, in seconds since 1970.
    pub expires: u64,
}

/// Why a token is not believed.
#[derive(Clone, Copy, Debug, PartialEq, Eq)]
pub enum Fault {
    /// The secret has fewer than 32 bytes, so that no token is believed.
    Secret,
    /// It has not three parts of base64url without padding.
    Malformed,
    /// The secret does not sign it.
    Forged,
    /// Its header is no JSON object that names HS256, says that it is another thing than a JWT, or asks for what has to be understood.
    Header,
    /// Its claims are no JSON object with a role's name, a subject and an end, say no number of when they begin, or name an audience.
    Claims,
    /// It has ended.
    Expired,
    /// It has not begun.
    Early,
    /// A growth of memory was refused.
    Memory,
}

impl From<AllocError> for Fault {
    ghost use Rattle.iv_jwt.specs.declared.tokens.Fault.TheVariants.{Memory};

    ghost from_gives = { λ _ fault. fault ≡ Memory };

    /// Out of memory, as why a token is not believed.
    fn from(_error: AllocError) -> Fault {
        Fault::Memory
    }
}

/// Whether a text is there, and is this one.
fn is_text(wanted: &str, text: Option<&str>) -> bool
    ensures { result ≡ is_text wanted.now (option_map (λ t. t.now) text.entry) }
{
    match text {
        None => false,
        Some(text) => text == wanted,
    }
}

/// Whether a header names HS256, says no other type than JWT, and asks for nothing that has to be understood.
fn is_header(value: &Value<'_>) -> bool
    ensures { result ≡ is_header (value_view value.now) }
{
    is_text("HS256", text_at(value, "alg"))
        && (value.get("typ").is_none() || is_text("JWT", text_at(value, "typ")))
        && value.get("crit").is_none()
}

/// Whether bytes are such a header.
fn is_well_header(alloc: Global, bytes: &[u8]) -> Result<bool, AllocError>
    ensures { IfOk result (λ is. is ≡ is_well_header (json_of bytes.now)) }
{
    let mut scratch = Scratch::new(alloc);
    match json_of(alloc, bytes, &mut scratch)? {
        None => Ok(false),
        Some(value) => Ok(is_header(&value)),
    }
}

/// The role that claims say: a name.
fn role_at<'v>(value: &'v Value<'_>) -> Option<&'v str>
    ensures { option_map (λ t. t.now) result ≡ role_at (value_view value.now) }
{
    let role = text_at(value, "role")?;
    if name_ok(role) { Some(role) } else { None }
}

/// The subject that claims say.
fn subject_at<'v>(value: &'v Value<'_>) -> Option<&'v str>
    ensures { option_map (λ t. t.now) result ≡ subject_at (value_view value.now) }
{
    let subject = text_at(value, "sub")?;
    if subject.len() <= 255 {
        Some(subject)
    } else {
        None
    }
}

/// The second from which on claims hold.
fn begins_at(value: &Value<'_>) -> Option<u64>
    ensures { result ≡ begins_at (value_view value.now) }
{
    if value.get("nbf").is_some() {
        seconds_at(value, "nbf")
    } else {
        Some(0)
    }
}

/// What claims say, by their texts where they are.
#[derive(Clone, Copy)]
struct Claimed<'a> {
    role: &'a str,
    subject: &'a str,
    expires: u64,
    begins: u64,
}

/// What a JSON value claims, but for the audience.
fn claimed_of<'v>(value: &'v Value<'_>) -> Option<Claimed<'v>>
    ensures { option_map claimed_by result ≡ claimed_of (value_view value.now) }
{
    let role = role_at(value)?;
    let subject = subject_at(value)?;
    let expires = seconds_at(value, "exp")?;
    let begins = begins_at(value)?;
    Some(Claimed {
        role,
        subject,
        expires,
        begins,
    })
}

/// What a JSON value claims.
fn claimed_in<'v>(value: &'v Value<'_>) -> Option<Claimed<'v>>
    ensures { option_map claimed_by result ≡ claimed_in (value_view value.now) }
{
    if value.get("aud").is_some() {
        return None;
    }
    claimed_of(value)
}

/// What is claimed, if it holds now.
fn granted_at(alloc: Global, now: u64, claimed: &Claimed<'_>) -> Result<Claims, Fault>
    ensures { IsAnswer result (granted_at now (Some (claimed_by claimed.now))) }
{
    if claimed.expires <= now {
        return Err(Fault::Expired);
    }
    if now < claimed.begins {
        return Err(Fault::Early);
    }
    Ok(Claims {
        role: String::from_str(alloc, claimed.role)?,
        subject: String::from_str(alloc, claimed.subject)?,
        expires: claimed.expires,
    })
}

/// What the bytes of claims grant now.
fn granted_in(alloc: Global, now: u64, bytes: &[u8]) -> Result<Claims, Fault>
    ensures { IsAnswer result (granted_at now (option_and_then claimed_in (json_of bytes.now))) }
{
    let mut scratch = Scratch::new(alloc);
    match json_of(alloc, bytes, &mut scratch)? {
        None => Err(Fault::Claims),
        Some(value) => match claimed_in(&value) {
            None => Err(Fault::Claims),
            Some(claimed) => granted_at(alloc, now, &claimed),
        },
    }
}

/// Whether the secret signs a token.
fn is_signed(secret: &[u8], token: &Parts<'_>) -> bool
    ensures { result ≡ bytes_eq token.now.mac (hmac secret.now token.now.signed) }
{
    let mac = hmac_sha256(secret, token.sent_header, b".", token.sent_claims);
    is_same(&token.mac, &mac)
}

/// The role that a token grants now, in seconds since 1970, with its subject and its end: if its signature is that of the secret over
/// exactly the bytes that it signs, its header names HS256, and its claims say a role's name, a subject and an end that is yet to come, and
/// no audience: a secret is this service's alone.
///
/// # Errors
/// As `Fault` says, the first of them in its order that comes; `Memory` if a growth of memory was refused.
///
/// Source: RFC 7519, section 7.2; RFC 7515, section 5.2. Of a key that comes twice the last value counts (RFC 7519, section 4).
pub fn role_of(alloc: Global, secret: &[u8], now: u64, token: &[u8]) -> Result<Claims, Fault>
    ensures answer { IsAnswer result (judged secret.now now token.now) }
    ensures granted { IfOk result (λ c. IsGranted secret.now now token.now (granted_by c)) }
{
    if secret.len() < FEWEST_BYTES {
        return Err(Fault::Secret);
    }
    let Some(token) = opened(alloc, token)? else {
        return Err(Fault::Malformed);
    };
    if !is_signed(secret, &token) {
        return Err(Fault::Forged);
    }
    if !is_well_header(alloc, &token.header)? {
        return Err(Fault::Header);
    }
    granted_in(alloc, now, &token.claims)
}
