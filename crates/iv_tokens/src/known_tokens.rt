//! `KnownTokens`: which tokens the gateway is to know, second by second: those of the file, and web tokens that were granted.
ghost use Rattle.std.specs.Prelude.{◌≡◌, ◌<◌, ◌++◌, ℕ, All, IfOk, IfSome, None, Ok, OnOk, OnErr, Some, bytes_eq, find, length, option_map};
ghost use Rattle.std.specs.Bool.{OnTrue};
ghost use Rattle.iv_jwt.specs.Seen.{granted_by};
ghost use Rattle.iv_jwt.specs.Tokens.{IsGranted, judged};
ghost use Rattle.iv_tokens.specs.Entries.{is_valid, holder_of, valid_at};
ghost use Rattle.iv_tokens.specs.Granted.{granted_in};
ghost use Rattle.iv_tokens.specs.Web.{AreWeb, IsKnown, IsWeb, answer_by, answer_of, answer_to, grants_role, handed_on, holder_with, is_among, is_web_valid, kept, known_at, known_from, read_anew, told, web_at, without_web};

use crate::entries::{Entry, has_digest};
use crate::web::{Judged, Web, has_web, is_full, is_web_valid, web_of};
use iv_clients::Token;
use iv_jwt::{Claims, Fault, role_of};
use sha2::{Digest, Sha256};
use std::alloc::{AllocError, Global};
use std::marker::Model;

/// The entries that were read last, the web tokens that a secret granted, and which of them were handed on.
#[derive(Drop)]
pub struct KnownTokens {
    /// The entries of the file, as they were read last.
    entries: Vec<Entry>,
    /// The secret under which web tokens are signed; no byte if none are granted.
    secret: Vec<u8>,
    /// The web tokens that were granted.
    web: Vec<Web>,
    /// The second for which tokens were handed on last; none if what is known has changed since.
    handed: Option<u64>,
}

impl Model for KnownTokens {
    ghost use Rattle.iv_tokens.specs.Web.{AreWeb, Known};

    ghost Value = { Known };

    ghost view = { λ k. record { entries = k.entries.items; secret = k.secret.items; web = k.web.items; handed = k.handed } };

    ghost invariant = { λ k. AreWeb k.secret.items k.web.items };
}

/// A copy of a token.
pub fn copied(alloc: Global, token: &Token) -> Result<Token, AllocError>
    ensures { IfOk result (λ t. t ≡ token.now) }
{
    let mut digest = Vec::new(alloc);
    digest.extend_from_slice(&token.digest)?;
    let role = String::from_str(alloc, token.role.as_str())?;
    let user = String::from_str(alloc, token.user.as_str())?;
    Ok(Token { digest, role, user })
}

/// Whether an entry is valid at a second.
fn is_valid(entry: &Entry, now: u64) -> bool
    ensures { result ≡ is_valid now entry.now }
{
    match entry.until {
        None => true,
        Some(end) => now < end,
    }
}

/// Whether the same entries are valid at two seconds.
fn are_valid_alike(entries: &[Entry], then: u64, now: u64) -> bool
    ensures { OnTrue result (valid_at then entries.now ≡ valid_at now entries.now) }
{
    for entry in entries {
        if is_valid(entry, then) != is_valid(entry, now) {
            return false;
        }
    }
    true
}

/// Whether the same web tokens are valid at two seconds.
fn are_web_alike(web: &[Web], then: u64, now: u64) -> bool
    ensures { OnTrue result (web_at then web.now ≡ web_at now web.now) }
{
    for one in web {
        if is_web_valid(one, then) != is_web_valid(one, now) {
            return false;
        }
    }
    true
}

/// Appends the tokens of entries that are valid at a second.
fn push_valid(
    alloc: Global,
    tokens: &mut Vec<Token>,
    entries: &[Entry],
    now: u64,
) -> Result<(), AllocError>
    ensures { OnOk result (tokens.new.items ≡ tokens.old.items ++ valid_at now entries.now) }
{
    for entry in entries {
        if is_valid(entry, now) {
            tokens.push(copied(alloc, &entry.token)?)?;
        }
    }
    Ok(())
}

/// Appends the web tokens that are valid at a second.
fn push_web(alloc: Global, tokens: &mut Vec<Token>, web: &[Web], now: u64) -> Result<(), AllocError>
    ensures { OnOk result (tokens.new.items ≡ tokens.old.items ++ web_at now web.now) }
{
    for one in web {
        if is_web_valid(one, now) {
            tokens.push(copied(alloc, &one.token)?)?;
        }
    }
    Ok(())
}

/// The tokens that are known at a second.
fn known_in(
    alloc: Global,
    entries: &[Entry],
    web: &[Web],
    now: u64,
) -> Result<Vec<Token>, AllocError>
    ensures { IfOk result (λ ts. ts.items ≡ valid_at now entries.now ++ web_at now web.now) }
{
    let mut tokens = Vec::new(alloc);
    push_valid(alloc, &mut tokens, entries, now)?;
    push_web(alloc, &mut tokens, web, now)?;
    Ok(tokens)
}

/// The entry of a digest.
fn entry_of<'a>(entries: &'a [Entry], digest: &[u8]) -> Option<&'a Entry>
    ensures { option_map (λ e. e.now) result ≡ find (λ e. bytes_eq e.token.digest digest.now) entries.now }
{
    entries
        .iter()
        .find(|entry| entry.token.digest.as_slice() == digest)
}

/// Who holds the entry of a digest, if that is said.
fn holder_of<'a>(entries: &'a [Entry], digest: &[u8]) -> Option<&'a str>
    ensures { option_map (λ t. t.now) result ≡ holder_of digest.now entries.now }
{
    let entry = entry_of(entries, digest)?;
    if entry.token.user.is_empty() {
        None
    } else {
        Some(entry.token.user.as_str())
    }
}

/// Whether a digest is among the entries, or among web tokens.
fn is_among(entries: &[Entry], web: &[Web], digest: &[u8]) -> bool
    ensures { result ≡ is_among digest.now entries.now web.now }
{
    has_digest(entries, digest) || has_web(web, digest)
}

/// What the secret grants to a text, or why it does not.
fn claims_of(
    alloc: Global,
    secret: &[u8],
    now: u64,
    text: &[u8],
) -> Result<Result<Claims, Fault>, AllocError>
    ensures answer { IfOk result (λ r. granted_in r ≡ judged secret.now now text.now) }
    ensures granted { IfOk result (λ r. IfOk r (λ c. IsGranted secret.now now text.now (granted_by c))) }
{
    match role_of(alloc, secret, now, text) {
        Ok(claims) => Ok(Ok(claims)),
        Err(why) => match why {
            Fault::Memory => Err(AllocError),
            _ => Ok(Err(why)),
        },
    }
}

/// What is granted, as a web token, unless so many are known that it is not to be.
fn web_for(web: &[Web], now: u64, digest: Vec<u8>, claims: Claims) -> Result<Web, Judged>
    ensures { result ≡ answer_of web.now now digest.items (Ok (granted_by claims)) }
{
    if is_full(web, claims.subject.as_bytes()) {
        return Err(Judged::Full);
    }
    Ok(Web {
        token: Token {
            digest,
            role: claims.role,
            user: claims.subject,
        },
        since: now,
        until: claims.expires,
    })
}

/// What becomes of a text that is presented.
fn answer_to(
    alloc: Global,
    entries: &[Entry],
    secret: &[u8],
    web: &[Web],
    now: u64,
    text: &[u8],
) -> Result<Result<Web, Judged>, AllocError>
    ensures answer { IfOk result (λ r. r ≡ answer_to entries.now secret.now web.now now text.now) }
    ensures granted { IfOk result (λ r. IfOk r (IsWeb secret.now)) }
{
    let digest = Vec::from_array(alloc, Sha256::digest(text))?;
    if is_among(entries, web, &digest) {
        return Ok(Err(Judged::Known));
    }
    match claims_of(alloc, secret, now, text)? {
        Err(why) => Ok(Err(Judged::Refused(why))),
        Ok(claims) => Ok(web_for(web, now, digest, claims)),
    }
}

impl KnownTokens {
    /// Those of a file, and a secret that grants web tokens: none, if it has fewer than 32 bytes. None was handed on.
    pub fn new(alloc: Global, secret: Vec<u8>, entries: Vec<Entry>) -> KnownTokens
        ensures { result ≡ known_from secret.items entries.items }
    {
        KnownTokens {
            entries,
            secret,
            web: Vec::new(alloc),
            handed: None,
        }
    }

    /// Other entries were read.
    pub fn read(&mut self, entries: Vec<Entry>)
        ensures { self.new ≡ read_anew entries.items self.old }
    {
        self.entries = entries;
        self.handed = None;
    }

    /// The tokens that are known at a second, in seconds since 1970, to be handed on; none if those that were handed on last are the same.
    /// Each is of an entry whose end is yet to come, or a web token that the secret grants at that second.
    ///
    /// # Errors
    /// `AllocError` if a growth of memory was refused; nothing is handed on then.
    pub fn at(&mut self, alloc: Global, now: u64) -> Result<Option<Vec<Token>>, AllocError>
        ensures others { IfOk result (λ o. IfSome o (λ ts. ts.items ≡ known_at now self.old)) }
        ensures known { IfOk result (λ o. IfSome o (λ ts. All (IsKnown now self.old) ts.items)) }
        ensures same { result ≡ Ok None → handed_on self.old ≡ Some (known_at now self.old) }
        ensures handed { OnOk result (handed_on self.new ≡ Some (known_at now self.old)) }
        ensures keeps { (self.new.entries ≡ self.old.entries) × (self.new.secret ≡ self.old.secret) × (self.new.web ≡ self.old.web) }
    {
        if let Some(then) = self.handed {
            if are_valid_alike(&self.entries, then, now) && are_web_alike(&self.web, then, now) {
                return Ok(None);
            }
        }
        let tokens = known_in(alloc, &self.entries, &self.web, now)?;
        self.handed = Some(now);
        Ok(Some(tokens))
    }

    /// Judges a text that is presented at a second. If it is granted, it is known from now on, to be handed on.
    ///
    /// # Errors
    /// `AllocError` if a growth of memory was refused.
    pub fn judge(&mut self, alloc: Global, now: u64, text: &[u8]) -> Result<Judged, AllocError>
        ensures judged { IfOk result (λ j. j ≡ told (answer_by self.old now text.now)) }
        ensures kept { OnOk result (self.new ≡ kept (answer_by self.old now text.now) self.old) }
        ensures fails { OnErr result (self.new ≡ self.old) }
    {
        match answer_to(alloc, &self.entries, &self.secret, &self.web, now, text)? {
            Err(why) => Ok(why),
            Ok(one) => {
                self.web.push(one)?;
                self.handed = None;
                Ok(Judged::Granted)
            }
        }
    }

    /// The web tokens that were granted.
    pub fn web(&self) -> &[Web]
        ensures { result.now ≡ self.now.web }
    {
        &self.web
    }

    /// Forgets the web token of a place.
    pub fn forget(&mut self, at: usize)
        requires { at < length self.old.web }
        ensures { self.new ≡ without_web at self.old }
    {
        drop(self.web.remove(at));
        self.handed = None;
    }

    /// Whether the secret grants a role to a text now.
    pub fn grants(
        &self,
        alloc: Global,
        now: u64,
        text: &[u8],
        role: &str,
    ) -> Result<bool, AllocError>
        ensures { IfOk result (λ is. is ≡ grants_role self.now.secret now role.now text.now) }
    {
        match role_of(alloc, &self.secret, now, text) {
            Ok(claims) => Ok(claims.role.as_str() == role),
            Err(Fault::Memory) => Err(AllocError),
            Err(_) => Ok(false),
        }
    }

    /// Who holds the token of a digest: the holder of an entry, or the subject of a web token.
    pub fn holder_of(&self, digest: &[u8]) -> Option<&str>
        ensures { option_map (λ t. t.now) result ≡ holder_with digest.now self.now }
    {
        if let Some(holder) = holder_of(&self.entries, digest) {
            return Some(holder);
        }
        match web_of(&self.web, digest) {
            None => None,
            Some(one) => Some(one.token.user.as_str()),
        }
    }
}
