//! `pred`: reads a predicate, from tokens to its tree: comparisons, conjunctions and disjunctions.
//!
//! A conjunction and a disjunction have the same loop of eight lines, one for each level of the grammar. One loop for
//! both would need a type for the two words, and contracts by cases on the sign, the tree and the level below of
//! each.

ghost use Rattle.std.specs.Prelude.{◌≡◌, ◌<◌, ◌≤◌, length, option_map, IfOk};
ghost use Rattle.iv_query.specs.Tokens.{toks};
ghost use Rattle.iv_query.specs.Trees.{operand_tree, pred_tree};
ghost use Rattle.iv_query.specs.Answers.{Gives};
ghost use Rattle.iv_query.specs.Reading.{truth_of, comparison_at, term_at, conj_at, pred_at};

use crate::fault::{Fault, QueryFault};
use crate::parts::{after, after_op, deep, first_place, need, operand, unexpected};
use crate::token::{Symbol, Token};
use crate::tree::{Dialect, Operand, Pred};
use iv_rows::{Value, boxed_two};
use std::alloc::Global;

/// The truth value that an operand just read is, if it is one: it needs no comparison sign after it.
fn truth_of(operand: &Operand) -> Option<bool>
    ensures { result ≡ truth_of (operand_tree operand.now) }
{
    match operand {
        Operand::Literal {
            value: Value::Flag(truth),
            ..
        } => Some(*truth),
        _ => None,
    }
}

/// A comparison of two operands, or a truth value alone, and the tokens after it.
#[tactic(auto, unfolding(crate::specs::Reading::comparison_at))]
fn comparison(
    alloc: Global,
    tokens: &[Token],
    dialect: Dialect,
    stop: Fault,
) -> Result<(Pred, &[Token]), QueryFault>
    ensures { Gives (λ x. (pred_tree x.0, toks x.1.now)) result (comparison_at dialect stop (toks tokens.now)) }
{
    let (left, rest) = operand(alloc, tokens, dialect, stop)?;
    match after_op(rest) {
        Some((op, rest)) => match operand(alloc, rest, dialect, stop) {
            Ok((right, rest)) => Ok((Pred::Compare(left, op, right), rest)),
            Err(fault) => {
                drop(left);
                Err(fault)
            }
        },
        None => {
            let truth = truth_of(&left);
            drop(left);
            match truth {
                Some(truth) => Ok((Pred::Constant(truth), rest)),
                None => Err(unexpected(rest, stop)),
            }
        }
    }
}

/// A term of a conjunction: a comparison, the word `not` and its term, or a predicate between `(` and `)`.
#[cycle(predicate)]
#[tactic(auto, unfolding(crate::specs::Reading::term_at))]
fn term(
    alloc: Global,
    tokens: &[Token],
    dialect: Dialect,
    room: usize,
    stop: Fault,
) -> Result<(Pred, &[Token]), QueryFault>
    ensures { Gives (λ x. (pred_tree x.0, toks x.1.now)) result (term_at dialect stop room (toks tokens.now)) }
{
    if let Some(rest) = after(Symbol::Not, tokens) {
        if room == 0 {
            return Err(deep(first_place(tokens, stop)));
        }
        let (tree, rest) = term(alloc, rest, dialect, room - 1, stop)?;
        return Ok((Pred::Not(Box::new(alloc, tree)?), rest));
    }
    if let Some(rest) = after(Symbol::Open, tokens) {
        if room == 0 {
            return Err(deep(first_place(tokens, stop)));
        }
        let (tree, rest) = pred(alloc, rest, dialect, room - 1, stop)?;
        return match need(Symbol::Close, rest, stop) {
            Ok(rest) => Ok((tree, rest)),
            Err(fault) => {
                drop(tree);
                Err(fault)
            }
        };
    }
    comparison(alloc, tokens, dialect, stop)
}

/// A conjunction: one term of a predicate, and any number of further ones, each after `and`.
#[cycle(predicate)]
#[tactic(auto, unfolding(crate::specs::Reading::conj_at))]
fn conj(
    alloc: Global,
    tokens: &[Token],
    dialect: Dialect,
    room: usize,
    stop: Fault,
) -> Result<(Pred, &[Token]), QueryFault>
    ensures { Gives (λ x. (pred_tree x.0, toks x.1.now)) result (conj_at (term_at dialect stop room) (toks tokens.now)) }
{
    let (mut tree, mut rest) = term(alloc, tokens, dialect, room, stop)?;
    for _ in 0..rest.len() {
        let Some(behind) = after(Symbol::And, rest) else {
            return Ok((tree, rest));
        };
        match term(alloc, behind, dialect, room, stop) {
            Ok((right, behind)) => {
                let (left, right) = boxed_two(alloc, tree, right)?;
                tree = Pred::And(left, right);
                rest = behind;
            }
            Err(fault) => {
                drop(tree);
                return Err(fault);
            }
        }
    }
    Ok((tree, rest))
}

/// A predicate with at most `room` signs `(` and words `not` open at once.
#[cycle(predicate)]
#[tactic(auto, unfolding(crate::specs::Reading::pred_at))]
pub fn pred(
    alloc: Global,
    tokens: &[Token],
    dialect: Dialect,
    room: usize,
    stop: Fault,
) -> Result<(Pred, &[Token]), QueryFault>
    ensures { Gives (λ x. (pred_tree x.0, toks x.1.now)) result (pred_at (term_at dialect stop room) (toks tokens.now)) }
{
    let (mut tree, mut rest) = conj(alloc, tokens, dialect, room, stop)?;
    for _ in 0..rest.len() {
        let Some(behind) = after(Symbol::Or, rest) else {
            return Ok((tree, rest));
        };
        match conj(alloc, behind, dialect, room, stop) {
            Ok((right, behind)) => {
                let (left, right) = boxed_two(alloc, tree, right)?;
                tree = Pred::Or(left, right);
                rest = behind;
            }
            Err(fault) => {
                drop(tree);
                return Err(fault);
            }
        }
    }
    Ok((tree, rest))
}
