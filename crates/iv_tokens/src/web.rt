//! `Web`: a web token that was granted; `Judged`: what becomes of a text that is presented.
ghost use Rattle.std.specs.Prelude.{◌≡◌, bytes_eq, count_by, find, option_map};
ghost use Rattle.iv_clients.specs.Tokens.{has_digest};
ghost use Rattle.iv_tokens.specs.Web.{is_full, is_web_valid, web_at, web_tokens};

use iv_clients::Token;
use iv_jwt::Fault;
use std::marker::Model;

/// Web tokens that are known at a time, at most.
const MOST: usize = 1_024;

/// Those of one subject, at most.
const MOST_OF_SUBJECT: usize = 16;

/// A web token that was granted.
#[derive(Drop)]
pub struct Web {
    /// Its digest, the role that it opens, and whom it speaks of.
    pub token: Token,
    /// The second at which it was presented.
    pub since: u64,
    /// The second at which it ends.
    pub until: u64,
}

impl Model for Web {
    ghost use Rattle.iv_tokens.specs.Web.{Web};

    ghost Value = { Web };

    ghost view = { λ w. record { token = w.token; since = w.since; until = w.until } };
}

/// What becomes of a text that is presented.
#[derive(Clone, Copy, Debug, PartialEq, Eq)]
pub enum Judged {
    /// It is known already.
    Known,
    /// It is known from now on.
    Granted,
    /// It is granted, but so many are known that this one is not to be.
    Full,
    /// It is not granted.
    Refused(Fault),
}

impl Judged {
    /// Why a web token lets nobody in, in words; none if it does, or where the text is none.
    pub fn words(self) -> Option<&'static str> {
        match self {
            Judged::Full => Some("too many web tokens are known, or too many of its subject"),
            Judged::Refused(Fault::Forged) => Some("the secret does not sign its web token"),
            Judged::Refused(Fault::Header) => Some("its web token has no header of HS256"),
            Judged::Refused(Fault::Claims) => {
                Some("its web token claims no role, no subject or no end, or an audience")
            }
            Judged::Refused(Fault::Expired) => Some("its web token has ended"),
            Judged::Refused(Fault::Early) => Some("its web token has not begun"),
            Judged::Known | Judged::Granted | Judged::Refused(_) => None,
        }
    }
}

/// Whether one of them has a digest.
pub fn has_web(web: &[Web], digest: &[u8]) -> bool
    ensures { result ≡ has_digest digest.now (web_tokens web.now) }
{
    for one in web {
        if one.token.digest.as_slice() == digest {
            return true;
        }
    }
    false
}

/// How many are of a subject.
fn count_of(web: &[Web], subject: &[u8]) -> usize
    ensures { result ≡ count_by (λ w. bytes_eq w.token.user subject.now) web.now }
{
    web.iter()
        .filter(|one| one.token.user.as_bytes() == subject)
        .count()
}

/// Whether so many are known that one more of a subject is not to be.
pub fn is_full(web: &[Web], subject: &[u8]) -> bool
    ensures { result ≡ is_full subject.now web.now }
{
    web.len() >= MOST || count_of(web, subject) >= MOST_OF_SUBJECT
}

/// The first of a digest.
pub fn web_of<'a>(web: &'a [Web], digest: &[u8]) -> Option<&'a Web>
    ensures { option_map (λ w. w.now) result ≡ find (λ w. bytes_eq w.token.digest digest.now) web.now }
{
    web.iter().find(|one| one.token.digest.as_slice() == digest)
}

/// Whether one is valid at a second.
pub fn is_web_valid(one: &Web, now: u64) -> bool
    ensures { result ≡ is_web_valid now one.now }
{
    one.since <= now && now < one.until
}
