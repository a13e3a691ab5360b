//! `Admins`: the tokens that open the role of administrators, for what the head of a request presents.
ghost use Rattle.std.specs.Prelude.{◌≡◌, ◌≤◌, ℕ, List, IfOk, codes, length, map, option_and_then, option_map, true};
ghost use Rattle.httparse.specs.Grammar.{ReadsRequest, RequestHead};
ghost use Rattle.httparse.specs.Spans.{name_and_value};
ghost use Rattle.iv_clients.specs.Tokens.{has_digest};
ghost use Rattle.iv_pages.specs.Asking.{field_in, most_fields, window};
ghost use Rattle.iv_host.specs.Admins.{admins_among, is_admin, is_known, opens_by, presented, without_spaces};

use crate::heads::{field_of, same_name};
use iv_clients::Token;
use iv_tokens::copied;
use sha2::{Digest, Sha256};
use std::alloc::{AllocError, Global};

/// The role of administrators.
pub const ADMIN: &str = "admin";

/// The tokens that open the role of administrators.
#[derive(Drop)]
pub struct Admins {
    /// The tokens, each with that role.
    tokens: Vec<Token>,
}

/// Whether a token opens the role of administrators.
fn is_admin(token: &Token) -> bool
    ensures { result ≡ is_admin token.now }
{
    token.role.as_str() == "admin"
}

/// Without the spaces in front.
fn without_spaces(text: &[u8]) -> &[u8]
    ensures { result.now ≡ without_spaces text.now }
{
    for at in 0..text.len() {
        if text[at] != b' ' {
            return &text[at..];
        }
    }
    &[]
}

/// The token that a field `Authorization` presents.
#[tactic(auto, using(std::proofs::lemmas::List::take_min, std::proofs::lemmas::List::drop_min))]
fn presented(value: &[u8]) -> Option<&[u8]>
    ensures { option_map (λ t. t.now) result ≡ presented value.now }
{
    let count = 7.min(value.len());
    if same_name(&value[..count], b"bearer ") {
        Some(without_spaces(&value[count..]))
    } else {
        None
    }
}

/// Whether one of the tokens has a digest.
fn has_digest(tokens: &[Token], digest: &[u8]) -> bool
    ensures { result ≡ has_digest digest.now tokens.now }
{
    tokens.iter().any(|token| token.digest.as_slice() == digest)
}

impl Admins {
    /// Those among tokens.
    ///
    /// # Errors
    /// `AllocError` if a growth of memory was refused.
    pub fn among(alloc: Global, tokens: &[Token]) -> Result<Admins, AllocError>
        ensures { IfOk result (λ a. a.tokens.items ≡ admins_among tokens.now) }
    {
        let mut admins = Vec::new(alloc);
        for token in tokens {
            if is_admin(token) {
                admins.push(copied(alloc, token)?)?;
            }
        }
        Ok(Admins { tokens: admins })
    }

    /// Whether a field `Authorization` presents one of them.
    fn opens_by(&self, field: Option<&[u8]>) -> bool
        ensures { result ≡ opens_by self.now.tokens.items (option_map (λ v. v.now) field.entry) }
    {
        match field {
            None => false,
            Some(value) => match presented(value) {
                None => false,
                Some(token) => has_digest(&self.tokens, &Sha256::digest(token)),
            },
        }
    }

    /// Whether the head of a request presents the token of an administrator, by its first field `Authorization`. What follows the
    /// head is not looked at.
    pub fn is_asking(&self, head: &[u8]) -> bool
        ensures asks { (h : RequestHead) (rest : List ℕ) → ReadsRequest (window head.now) h rest → length h.fields ≤ most_fields
            → result ≡ opens_by self.now.tokens.items (field_in (codes "authorization") (map name_and_value h.fields)) }
    {
        self.opens_by(field_of(head, b"authorization"))
    }
}

/// The token that a field `Authorization` presents, if there is one.
fn presented_by(field: Option<&[u8]>) -> Option<&[u8]>
    ensures { option_map (λ t. t.now) result ≡ option_and_then presented (option_map (λ v. v.now) field.entry) }
{
    presented(field?)
}

/// The token that the head of a request presents, by its first field `Authorization`. What follows the head is not looked at.
pub fn presented_in(head: &[u8]) -> Option<&[u8]>
    ensures presents { (h : RequestHead) (rest : List ℕ) → ReadsRequest (window head.now) h rest → length h.fields ≤ most_fields
        → option_map (λ t. t.now) result ≡ option_and_then presented (field_in (codes "authorization") (map name_and_value h.fields)) }
{
    presented_by(field_of(head, b"authorization"))
}
