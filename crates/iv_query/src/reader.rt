//! `read_query`, `read_pred`: from the text of a view or a policy to its tree, or its first fault.
//!
//! The end of the text is a fault that is after the tokens, so reading from the left gives the least place by
//! itself.

ghost use Rattle.std.specs.Prelude.{◌≡◌, ◌<◌, ◌≤◌, length, IfOk, IfErr};
ghost use Rattle.iv_query.specs.Limits.{text_bytes, sources};
ghost use Rattle.iv_query.specs.declared.fault.Fault.{Fault};
ghost use Rattle.iv_query.specs.declared.fault.Why.TheVariants as why;
ghost use Rattle.iv_query.specs.declared.tree.Dialect.TheVariants.{Policy};
ghost use Rattle.iv_query.specs.Tokens.{toks};
ghost use Rattle.iv_query.specs.Trees.{pred_tree, query_tree};
ghost use Rattle.iv_query.specs.Answers.{Gives, IfAt};
ghost use Rattle.iv_query.specs.Reading.{end_at};
ghost use Rattle.iv_query.specs.QueryReading.{query_at};
ghost use Rattle.iv_query.specs.Parts.{sources_of};
ghost use Rattle.iv_query.specs.Well.{IsWellPred, IsWellQuery};
ghost use Rattle.iv_query.specs.TextReading.{lexed, tokens_lexed, read_tokens, policy_condition_at, read_pred, read_query};

use crate::fault::{Fault, QueryFault, Why};
use crate::lexer::{Tokens, lexed};
use crate::limits::{NESTING, TEXT_BYTES};
use crate::parts::unexpected;
use crate::predicate::pred;
use crate::query::query;
use crate::token::Token;
use crate::tree::{Dialect, PredText, Query};
use std::alloc::Global;

/// The tokens of the text of a view or a policy, or its first fault if it is too long.
fn tokens_of(alloc: Global, text: &str) -> Result<Tokens, QueryFault>
    ensures short { IfOk result (λ t. length text.now ≤ text_bytes) }
    ensures lexed { IfOk result (λ t. tokens_lexed t ≡ lexed (length text.now) (length text.now) text.now) }
    ensures long { IfErr result (λ e. IfAt e (λ f. text_bytes < length text.now)) }
    ensures fault { IfErr result (λ e. IfAt e (λ f. f ≡ record { place = text_bytes; why = why.TooLong })) }
{
    if text.len() > TEXT_BYTES {
        let why = Why::TooLong;
        let place = TEXT_BYTES;
        return Err(QueryFault::At { place, why });
    }
    Ok(lexed(alloc, text)?)
}

/// Tests that the text of a view or a policy ends after its tree, or tells its fault there.
#[tactic(auto, unfolding(crate::specs::Reading::end_at))]
fn end(rest: &[Token], stop: Fault, ends: bool) -> Result<(), QueryFault>
    ensures { Gives (λ _. tt) result (end_at stop ends (toks rest.now)) }
{
    if rest.is_empty() && ends {
        return Ok(());
    }
    Err(unexpected(rest, stop))
}

/// The predicate of a policy from the tokens of its whole text, or its first fault.
#[tactic(auto, unfolding(crate::specs::Reading::whole_at))]
fn whole_pred(alloc: Global, tokens: &Tokens) -> Result<PredText, QueryFault>
    ensures { Gives (λ p. pred_tree p.pred) result (read_tokens policy_condition_at (tokens_lexed tokens.now)) }
{
    let (pred, rest) = pred(alloc, &tokens.list, Dialect::Policy, NESTING, tokens.stop)?;
    match end(rest, tokens.stop, tokens.ends) {
        Ok(()) => Ok(PredText { pred }),
        Err(fault) => {
            drop(pred);
            Err(fault)
        }
    }
}

/// The predicate of a policy text, or its first fault: `At` exactly if the text has no tree, with the place and
/// the reason; `Memory` if a growth was refused.
///
/// Source: PostgreSQL 16, CREATE POLICY, in the profile of docs/PROTOCOL.md, Queries.
pub fn read_pred(alloc: Global, text: &str) -> Result<PredText, QueryFault>
    // The tree or the first fault of the text, which is the grammar's by `texts_are_read`, unless memory runs out.
    ensures read { Gives (λ p. pred_tree p.pred) result (read_pred text.now) }
    // What a binder may take for granted.
    ensures well { IfOk result (λ p. IsWellPred Policy (pred_tree p.pred)) }
{
    let tokens = tokens_of(alloc, text)?;
    whole_pred(alloc, &tokens)
}

/// The query of a view from the tokens of its whole text, or its first fault.
#[tactic(auto, unfolding(crate::specs::Reading::whole_at))]
fn whole_query(alloc: Global, tokens: &Tokens) -> Result<Query, QueryFault>
    ensures { Gives query_tree result (read_tokens query_at (tokens_lexed tokens.now)) }
{
    let (query, rest) = query(alloc, &tokens.list, tokens.stop)?;
    match end(rest, tokens.stop, tokens.ends) {
        Ok(()) => Ok(query),
        Err(fault) => {
            drop(query);
            Err(fault)
        }
    }
}

/// The query of a view's text, or its first fault: `At` exactly if the text has no tree, with the place and the
/// reason; `Memory` if a growth was refused.
///
/// Source: PostgreSQL 16, SELECT, in the profile of docs/PROTOCOL.md, Queries.
pub fn read_query(alloc: Global, text: &str) -> Result<Query, QueryFault>
    // The tree or the first fault of the text, which is the grammar's by `texts_are_read`, unless memory runs out.
    ensures read { Gives query_tree result (read_query text.now) }
    // What a binder may take for granted.
    ensures well { IfOk result (λ q. IsWellQuery (query_tree q)) }
    ensures sources { IfOk result (λ q. sources_of (query_tree q) ≤ sources) }
{
    let tokens = tokens_of(alloc, text)?;
    whole_query(alloc, &tokens)
}
