//! Reads the parts that queries and predicates share: names, columns, operands, comparison signs, needed symbols; faults (`unexpected`, `deep`).

ghost use Rattle.std.specs.Prelude.{◌≡◌, option_map};
ghost use Rattle.iv_query.specs.Tokens.{after_symbol, toks, first_place, unexpected, deep, op_of, after_op};
ghost use Rattle.iv_query.specs.Trees.{name_tree, column_tree, operand_tree};
ghost use Rattle.iv_query.specs.Answers.{at, Gives};
ghost use Rattle.iv_query.specs.Reading.{need, name_at, column_at, word_operand, name_operand_at, operand_at};

use crate::fault::{Fault, QueryFault, Why};
use crate::token::{Lexeme, Symbol, Token};
use crate::tree::{Column, Dialect, Name, Op, Operand};
use iv_rows::Value;
use std::alloc::Global;

/// The place of the next token of a query or predicate, or where the tokens end.
pub fn first_place(tokens: &[Token], stop: Fault) -> usize
    ensures { result ≡ first_place stop (toks tokens.now) }
{
    match tokens {
        [] => stop.place,
        [first, ..] => first.place,
    }
}

/// The `QueryFault` of a query or predicate for a fault of the rules, such as that where the tokens end.
fn at(fault: Fault) -> QueryFault
    ensures { result ≡ at fault }
{
    QueryFault::At {
        place: fault.place,
        why: fault.why,
    }
}

/// The fault where the next token of a query or predicate is not one that is needed, or none is left.
pub fn unexpected(tokens: &[Token], stop: Fault) -> QueryFault
    ensures { result ≡ at (unexpected stop (toks tokens.now)) }
{
    match tokens {
        [] => at(stop),
        [first, ..] => QueryFault::At {
            place: first.place,
            why: Why::Unexpected,
        },
    }
}

/// The fault of the 33rd `not` or `(`.
pub fn deep(place: usize) -> QueryFault
    ensures { result ≡ at (deep place) }
{
    QueryFault::At {
        place,
        why: Why::TooDeep,
    }
}

/// The tokens of a query or predicate after a symbol, if it comes first.
#[tactic(auto, unfolding(crate::specs::Tokens::after_symbol))]
pub fn after(symbol: Symbol, tokens: &[Token]) -> Option<&[Token]>
    ensures { option_map (λ x. toks x.now) result ≡ after_symbol symbol (toks tokens.now) }
{
    if let [first, rest @ ..] = tokens {
        if let Lexeme::Fixed(found) = &first.lexeme {
            if *found == symbol {
                return Some(rest);
            }
        }
    }
    None
}

/// The tokens after a symbol that has to come first.
#[tactic(auto, unfolding(crate::specs::Reading::need))]
pub fn need(symbol: Symbol, tokens: &[Token], stop: Fault) -> Result<&[Token], QueryFault>
    ensures { Gives (λ x. toks x.now) result (need symbol stop (toks tokens.now)) }
{
    match after(symbol, tokens) {
        Some(rest) => Ok(rest),
        None => Err(unexpected(tokens, stop)),
    }
}

/// A name that has to come first in a part of a query or predicate, and the tokens after it.
pub fn name(alloc: Global, tokens: &[Token], stop: Fault) -> Result<(Name, &[Token]), QueryFault>
    ensures { Gives (λ x. (name_tree x.0, toks x.1.now)) result (name_at stop (toks tokens.now)) }
{
    if let [first, rest @ ..] = tokens {
        if let Lexeme::Name(text) = &first.lexeme {
            let place = first.place;
            let text = String::from_str(alloc, text)?;
            return Ok((Name { place, text }, rest));
        }
    }
    Err(unexpected(tokens, stop))
}

/// A column that has to come first, with its source before a dot if one is named, and the tokens after it.
#[tactic(auto, unfolding(crate::specs::Reading::column_at))]
pub fn column(
    alloc: Global,
    tokens: &[Token],
    stop: Fault,
) -> Result<(Column, &[Token]), QueryFault>
    ensures { Gives (λ x. (column_tree x.0, toks x.1.now)) result (column_at stop (toks tokens.now)) }
{
    let (first, rest) = name(alloc, tokens, stop)?;
    let place = first.place;
    match after(Symbol::Dot, rest) {
        Some(rest) => {
            let (second, rest) = name(alloc, rest, stop)?;
            let source = Some(first.text);
            let name = second.text;
            Ok((
                Column {
                    place,
                    source,
                    name,
                },
                rest,
            ))
        }
        None => {
            let source = None;
            let name = first.text;
            Ok((
                Column {
                    place,
                    source,
                    name,
                },
                rest,
            ))
        }
    }
}

/// The comparison sign that a symbol is, if it is one.
pub fn op_of(symbol: Symbol) -> Option<Op>
    ensures { result ≡ op_of symbol }
{
    match symbol {
        Symbol::Equal => Some(Op::Equal),
        Symbol::NotEqual => Some(Op::NotEqual),
        Symbol::Less => Some(Op::Less),
        Symbol::LessEqual => Some(Op::LessEqual),
        Symbol::Greater => Some(Op::Greater),
        Symbol::GreaterEqual => Some(Op::GreaterEqual),
        _ => None,
    }
}

/// A comparison sign, and the tokens after it, if one comes first.
pub fn after_op(tokens: &[Token]) -> Option<(Op, &[Token])>
    ensures { option_map (λ x. (x.0, toks x.1.now)) result ≡ after_op (toks tokens.now) }
{
    if let [first, rest @ ..] = tokens {
        if let Lexeme::Fixed(symbol) = &first.lexeme {
            if let Some(op) = op_of(*symbol) {
                return Some((op, rest));
            }
        }
    }
    None
}

/// The operand that a word is, if it is one: a truth value, or `current_user` in a policy.
fn word_operand(symbol: Symbol, place: usize, dialect: Dialect) -> Option<Operand>
    ensures { option_map operand_tree result ≡ word_operand dialect symbol place }
{
    match (symbol, dialect) {
        (Symbol::True, _) => {
            let value = Value::Flag(true);
            Some(Operand::Literal { place, value })
        }
        (Symbol::False, _) => {
            let value = Value::Flag(false);
            Some(Operand::Literal { place, value })
        }
        (Symbol::CurrentUser, Dialect::Policy) => Some(Operand::CurrentUser { place }),
        _ => None,
    }
}

/// The operand that a name begins, a column, which has no dot in a policy, and the tokens after it.
#[tactic(auto, unfolding(crate::specs::Reading::name_operand_at))]
fn name_operand(
    alloc: Global,
    tokens: &[Token],
    dialect: Dialect,
    stop: Fault,
) -> Result<(Operand, &[Token]), QueryFault>
    ensures { Gives (λ x. (operand_tree x.0, toks x.1.now)) result (name_operand_at dialect stop (toks tokens.now)) }
{
    match dialect {
        Dialect::Query => {
            let (column, rest) = column(alloc, tokens, stop)?;
            Ok((Operand::Column(column), rest))
        }
        Dialect::Policy => {
            let (name, rest) = name(alloc, tokens, stop)?;
            let place = name.place;
            let source = None;
            let name = name.text;
            Ok((
                Operand::Column(Column {
                    place,
                    source,
                    name,
                }),
                rest,
            ))
        }
    }
}

/// An operand that has to come first, as the dialect allows, and the tokens after it.
#[tactic(auto, unfolding(crate::specs::Reading::operand_at))]
pub fn operand(
    alloc: Global,
    tokens: &[Token],
    dialect: Dialect,
    stop: Fault,
) -> Result<(Operand, &[Token]), QueryFault>
    ensures { Gives (λ x. (operand_tree x.0, toks x.1.now)) result (operand_at dialect stop (toks tokens.now)) }
{
    let [first, rest @ ..] = tokens else {
        return Err(unexpected(tokens, stop));
    };
    let place = first.place;
    match &first.lexeme {
        Lexeme::Number(number) => {
            let value = Value::Int(*number);
            Ok((Operand::Literal { place, value }, rest))
        }
        Lexeme::Quoted(text) => {
            let value = Value::Text(String::from_str(alloc, text)?);
            Ok((Operand::Literal { place, value }, rest))
        }
        Lexeme::Fixed(symbol) => match word_operand(*symbol, place, dialect) {
            Some(operand) => Ok((operand, rest)),
            None => Err(unexpected(tokens, stop)),
        },
        Lexeme::Name(_) => name_operand(alloc, tokens, dialect, stop),
    }
}
