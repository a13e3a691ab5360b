//! `list_of`: reads a list of a text: one item, and any number of further ones, each after a sign.

ghost use Rattle.std.specs.Prelude.{List, map};
ghost use Rattle.iv_query.specs.declared.fault.Fault.{Fault};
ghost use Rattle.iv_query.specs.Tokens.{Tok, toks};
ghost use Rattle.iv_query.specs.Answers.{Gives};
ghost use Rattle.iv_query.specs.Reading.{Read, list_of};

use crate::fault::{Fault, QueryFault};
use crate::parts::after;
use crate::token::{Symbol, Token};
use std::alloc::Global;

/// What a list may hold: `read` gives what the rule `item_at` gives, seen as a `Tree`.
pub trait Listed: Drop + Sized {
    ghost Tree: { Type 0 };

    ghost tree: { Self → Tree };

    ghost item_at: { Fault → List Tok → Read Tree };

    /// One item of a list of a text, and the tokens after it.
    fn read(alloc: Global, tokens: &[Token], stop: Fault) -> Result<(Self, &[Token]), QueryFault>
        ensures { Gives (λ x. (tree x.0, toks x.1.now)) result (item_at stop (toks tokens.now)) };
}

/// One item or more, and the tokens after the last of them.
#[tactic(auto, unfolding(crate::specs::Reading::list_of))]
pub fn list_of<T: Listed>(
    alloc: Global,
    sign: Symbol,
    tokens: &[Token],
    stop: Fault,
) -> Result<(Vec<T>, &[Token]), QueryFault>
    ensures { Gives (λ x. (map T.tree x.0.items, toks x.1.now)) result (list_of sign (T.item_at stop) (toks tokens.now)) }
{
    let (first, mut rest) = T::read(alloc, tokens, stop)?;
    let mut list = Vec::new(alloc);
    list.push(first)?;
    for _ in 0..rest.len() {
        let Some(behind) = after(sign, rest) else {
            return Ok((list, rest));
        };
        let (next, behind) = T::read(alloc, behind, stop)?;
        list.push(next)?;
        rest = behind;
    }
    Ok((list, rest))
}
