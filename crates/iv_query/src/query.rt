//! `query`: reads a query, from tokens to its tree: selects, sources, aliases, joins, items, groups, set operations.

ghost use Rattle.std.specs.Prelude.{◌≡◌, ◌-◌, map, option_map, IfOk};
ghost use Rattle.iv_query.specs.Tokens.{starts_name, toks};
ghost use Rattle.iv_query.specs.Trees.{ColumnTree, PairTree, ItemTree, name_tree, column_tree, source_tree, pair_tree, join_tree, item_tree, list_tree, pred_tree, select_tree, query_tree, Combined};
ghost use Rattle.iv_query.specs.Answers.{at, Gives};
ghost use Rattle.iv_query.specs.Reading.{column_at};
ghost use Rattle.iv_query.specs.Parts.{starts_alias, long, starts_join, starts_set_op, HeadOf, FromOf, NextOf, sources_in};
ghost use Rattle.iv_query.specs.QueryReading.{skip, alias_at, may_alias_at, source_at, pair_at, plain_join_at, join_at, joins_at, column_item_at, sum_at, count_at, item_at, list_at, head_at, from_at, filter_at, group_at, tail_at, select_at, set_op_at, next_at, query_at};

use crate::fault::{Fault, QueryFault, Why};
use crate::limits::{NESTING, SOURCES};
use crate::list::{Listed, list_of};
use crate::parts::{after, column, first_place, name, need};
use crate::predicate::pred;
use crate::token::{Lexeme, Symbol, Token};
use crate::tree::{
    Column, Columns, Dialect, Item, Join, Name, Pair, Pred, Query, Select, SetOp, Source,
};
use std::alloc::{AllocError, Global};

/// The tokens of a query after a symbol if it comes first, else all: for words that may be left out.
fn skip(symbol: Symbol, tokens: &[Token]) -> &[Token]
    ensures { toks result.now ≡ skip symbol (toks tokens.now) }
{
    match after(symbol, tokens) {
        Some(rest) => rest,
        None => tokens,
    }
}

/// Whether a name comes first, as an alias without the word `as` does.
fn starts_name(tokens: &[Token]) -> bool
    ensures { result ≡ starts_name (toks tokens.now) }
{
    match tokens {
        [] => false,
        [first, ..] => matches!(&first.lexeme, Lexeme::Name(_)),
    }
}

/// Whether an alias comes first, with or without the word `as`.
fn starts_alias(tokens: &[Token]) -> bool
    ensures { result ≡ starts_alias (toks tokens.now) }
{
    match after(Symbol::As, tokens) {
        Some(_) => true,
        None => starts_name(tokens),
    }
}

/// The alias that has to come first, with or without the word `as`, and the tokens after it.
#[tactic(auto, unfolding(crate::specs::QueryReading::alias_at))]
fn alias(alloc: Global, tokens: &[Token], stop: Fault) -> Result<(Name, &[Token]), QueryFault>
    ensures { Gives (λ x. (name_tree x.0, toks x.1.now)) result (alias_at stop (toks tokens.now)) }
{
    name(alloc, skip(Symbol::As, tokens), stop)
}

/// The alias of a source or a column, if one comes first, and the tokens after it.
#[tactic(auto, unfolding(crate::specs::QueryReading::may_alias_at))]
fn may_alias(
    alloc: Global,
    tokens: &[Token],
    stop: Fault,
) -> Result<(Option<Name>, &[Token]), QueryFault>
    ensures { Gives (λ x. (option_map name_tree x.0, toks x.1.now)) result (may_alias_at stop (toks tokens.now)) }
{
    if !starts_alias(tokens) {
        return Ok((None, tokens));
    }
    let (name, rest) = alias(alloc, tokens, stop)?;
    Ok((Some(name), rest))
}

/// The fault of reading a query in which a ninth source is named.
fn long(place: usize) -> QueryFault
    ensures { result ≡ at (long place) }
{
    QueryFault::At {
        place,
        why: Why::TooLong,
    }
}

/// Reads a source of a query, and its alias if it has one, if `left` may still be named.
#[tactic(auto, unfolding(crate::specs::QueryReading::source_at))]
fn source(
    alloc: Global,
    tokens: &[Token],
    left: usize,
    stop: Fault,
) -> Result<(Source, &[Token]), QueryFault>
    ensures { Gives (λ x. (source_tree x.0, toks x.1.now)) result (source_at stop left (toks tokens.now)) }
{
    let (name, rest) = name(alloc, tokens, stop)?;
    if left == 0 {
        return Err(long(first_place(tokens, stop)));
    }
    let (alias, rest) = may_alias(alloc, rest, stop)?;
    Ok((Source { name, alias }, rest))
}

/// Reads a pair of a join: two columns with the sign `=` between them.
#[tactic(auto, unfolding(crate::specs::QueryReading::pair_at))]
fn pair(alloc: Global, tokens: &[Token], stop: Fault) -> Result<(Pair, &[Token]), QueryFault>
    ensures { Gives (λ x. (pair_tree x.0, toks x.1.now)) result (pair_at stop (toks tokens.now)) }
{
    let (left, rest) = column(alloc, tokens, stop)?;
    let rest = need(Symbol::Equal, rest, stop)?;
    let (right, rest) = column(alloc, rest, stop)?;
    Ok((Pair { left, right }, rest))
}

impl Listed for Pair {
    ghost Tree = { PairTree };

    ghost tree = { pair_tree };

    ghost item_at = { pair_at };

    /// One pair of columns of the list behind the word `on` of a join.
    fn read(alloc: Global, tokens: &[Token], stop: Fault) -> Result<(Pair, &[Token]), QueryFault> {
        pair(alloc, tokens, stop)
    }
}

/// A join without the word `inner`: its source and its pairs, if `left` sources may still be named.
#[tactic(auto, unfolding(crate::specs::QueryReading::plain_join_at))]
fn plain_join(
    alloc: Global,
    tokens: &[Token],
    left: usize,
    stop: Fault,
) -> Result<(Join, &[Token]), QueryFault>
    ensures { Gives (λ x. (join_tree x.0, toks x.1.now)) result (plain_join_at stop left (toks tokens.now)) }
{
    let rest = need(Symbol::Join, tokens, stop)?;
    let (source, rest) = source(alloc, rest, left, stop)?;
    let rest = need(Symbol::On, rest, stop)?;
    let (on, rest) = list_of(alloc, Symbol::And, rest, stop)?;
    Ok((Join { source, on }, rest))
}

/// A join with or without the word `inner`, if `left` sources may still be named.
#[tactic(auto, unfolding(crate::specs::QueryReading::join_at))]
fn join(
    alloc: Global,
    tokens: &[Token],
    left: usize,
    stop: Fault,
) -> Result<(Join, &[Token]), QueryFault>
    ensures { Gives (λ x. (join_tree x.0, toks x.1.now)) result (join_at stop left (toks tokens.now)) }
{
    plain_join(alloc, skip(Symbol::Inner, tokens), left, stop)
}

/// Whether a join comes first: the word `inner` or the word `join`.
fn starts_join(tokens: &[Token]) -> bool
    ensures { result ≡ starts_join (toks tokens.now) }
{
    match after(Symbol::Inner, tokens) {
        Some(_) => true,
        None => after(Symbol::Join, tokens).is_some(),
    }
}

/// Reads the joins after the first source, if `left` sources may still be named.
#[tactic(auto, unfolding(crate::specs::QueryReading::joins_at))]
fn joins(
    alloc: Global,
    tokens: &[Token],
    left: usize,
    stop: Fault,
) -> Result<(Vec<Join>, &[Token]), QueryFault>
    ensures { Gives (λ x. (map join_tree x.0.items, toks x.1.now)) result (joins_at stop left (toks tokens.now)) }
{
    let mut list = Vec::new(alloc);
    let mut rest = tokens;
    for _ in 0..tokens.len() {
        if !starts_join(rest) {
            return Ok((list, rest));
        }
        let (next, behind) = join(alloc, rest, left.saturating_sub(list.len()), stop)?;
        list.push(next)?;
        rest = behind;
    }
    Ok((list, rest))
}

/// Reads an item of a select that is a column, with its alias if it has one.
#[tactic(auto, unfolding(crate::specs::QueryReading::column_item_at))]
fn column_item(alloc: Global, tokens: &[Token], stop: Fault) -> Result<(Item, &[Token]), QueryFault>
    ensures { Gives (λ x. (item_tree x.0, toks x.1.now)) result (column_item_at stop (toks tokens.now)) }
{
    let (column, rest) = column(alloc, tokens, stop)?;
    let (alias, rest) = may_alias(alloc, rest, stop)?;
    Ok((Item::Column { column, alias }, rest))
}

/// Reads an item of a select after its word `sum`, which is at `place`.
#[tactic(auto, unfolding(crate::specs::QueryReading::sum_at))]
fn sum(
    alloc: Global,
    place: usize,
    tokens: &[Token],
    stop: Fault,
) -> Result<(Item, &[Token]), QueryFault>
    ensures { Gives (λ x. (item_tree x.0, toks x.1.now)) result (sum_at stop place (toks tokens.now)) }
{
    let rest = need(Symbol::Open, tokens, stop)?;
    let (column, rest) = column(alloc, rest, stop)?;
    let rest = need(Symbol::Close, rest, stop)?;
    let (alias, rest) = alias(alloc, rest, stop)?;
    let item = Item::Sum {
        place,
        column,
        alias,
    };
    Ok((item, rest))
}

/// Reads an item of a select after its word `count`, which is at `place`.
#[tactic(auto, unfolding(crate::specs::QueryReading::count_at))]
fn count(
    alloc: Global,
    place: usize,
    tokens: &[Token],
    stop: Fault,
) -> Result<(Item, &[Token]), QueryFault>
    ensures { Gives (λ x. (item_tree x.0, toks x.1.now)) result (count_at stop place (toks tokens.now)) }
{
    let rest = need(Symbol::Open, tokens, stop)?;
    let rest = need(Symbol::Star, rest, stop)?;
    let rest = need(Symbol::Close, rest, stop)?;
    let (alias, rest) = alias(alloc, rest, stop)?;
    Ok((Item::Count { place, alias }, rest))
}

/// Reads an item of a select: a sum, a count or a column.
#[tactic(auto, unfolding(crate::specs::QueryReading::item_at))]
fn item(alloc: Global, tokens: &[Token], stop: Fault) -> Result<(Item, &[Token]), QueryFault>
    ensures { Gives (λ x. (item_tree x.0, toks x.1.now)) result (item_at stop (toks tokens.now)) }
{
    if let Some(rest) = after(Symbol::Sum, tokens) {
        return sum(alloc, first_place(tokens, stop), rest, stop);
    }
    if let Some(rest) = after(Symbol::Count, tokens) {
        return count(alloc, first_place(tokens, stop), rest, stop);
    }
    column_item(alloc, tokens, stop)
}

impl Listed for Item {
    ghost Tree = { ItemTree };

    ghost tree = { item_tree };

    ghost item_at = { item_at };

    /// One item of the list behind the word `select`.
    fn read(alloc: Global, tokens: &[Token], stop: Fault) -> Result<(Item, &[Token]), QueryFault> {
        item(alloc, tokens, stop)
    }
}

/// Reads what is selected: all columns by the sign `*`, or a list of items.
#[tactic(auto, unfolding(crate::specs::QueryReading::list_at))]
fn list(alloc: Global, tokens: &[Token], stop: Fault) -> Result<(Columns, &[Token]), QueryFault>
    ensures { Gives (λ x. (list_tree x.0, toks x.1.now)) result (list_at stop (toks tokens.now)) }
{
    if let Some(rest) = after(Symbol::Star, tokens) {
        let place = first_place(tokens, stop);
        return Ok((Columns::All { place }, rest));
    }
    let (items, rest) = list_of(alloc, Symbol::Comma, tokens, stop)?;
    Ok((Columns::Items(items), rest))
}

impl Listed for Column {
    ghost Tree = { ColumnTree };

    ghost tree = { column_tree };

    ghost item_at = { column_at };

    /// One column of the list behind `group by`.
    fn read(
        alloc: Global,
        tokens: &[Token],
        stop: Fault,
    ) -> Result<(Column, &[Token]), QueryFault> {
        column(alloc, tokens, stop)
    }
}

/// The columns of a select's group after `group by`, and none if the word `group` does not come first.
#[tactic(auto, unfolding(crate::specs::QueryReading::group_at))]
fn group(
    alloc: Global,
    tokens: &[Token],
    stop: Fault,
) -> Result<(Vec<Column>, &[Token]), QueryFault>
    ensures { Gives (λ x. (map column_tree x.0.items, toks x.1.now)) result (group_at stop (toks tokens.now)) }
{
    match after(Symbol::Group, tokens) {
        Some(rest) => {
            let rest = need(Symbol::By, rest, stop)?;
            list_of(alloc, Symbol::Comma, rest, stop)
        }
        None => Ok((Vec::new(alloc), tokens)),
    }
}

/// The predicate of a select after the word `where`, if that word comes first.
#[tactic(auto, unfolding(crate::specs::QueryReading::filter_at))]
fn filter(
    alloc: Global,
    tokens: &[Token],
    stop: Fault,
) -> Result<(Option<Pred>, &[Token]), QueryFault>
    ensures { Gives (λ x. (option_map pred_tree x.0, toks x.1.now)) result (filter_at stop (toks tokens.now)) }
{
    match after(Symbol::Where, tokens) {
        Some(rest) => {
            let (tree, rest) = pred(alloc, rest, Dialect::Query, NESTING, stop)?;
            Ok((Some(tree), rest))
        }
        None => Ok((None, tokens)),
    }
}

/// The word `select`, whether `distinct` follows, and what is selected.
#[tactic(auto, unfolding(crate::specs::QueryReading::head_at))]
fn head(
    alloc: Global,
    tokens: &[Token],
    stop: Fault,
) -> Result<(usize, bool, Columns, &[Token]), QueryFault>
    ensures { Gives (λ x. (HeadOf x.0 x.1 (list_tree x.2), toks x.3.now)) result (head_at stop (toks tokens.now)) }
{
    let rest = need(Symbol::Select, tokens, stop)?;
    let distinct = after(Symbol::Distinct, rest).is_some();
    let (columns, rest) = list(alloc, skip(Symbol::Distinct, rest), stop)?;
    Ok((first_place(tokens, stop), distinct, columns, rest))
}

/// The word `from`, the first source and the joins, if `left` sources may still be named.
#[tactic(auto, unfolding(crate::specs::QueryReading::from_at))]
fn sources(
    alloc: Global,
    tokens: &[Token],
    left: usize,
    stop: Fault,
) -> Result<(Source, Vec<Join>, &[Token]), QueryFault>
    ensures { Gives (λ x. (FromOf (source_tree x.0) (map join_tree x.1.items), toks x.2.now)) result (from_at stop left (toks tokens.now)) }
{
    let rest = need(Symbol::From, tokens, stop)?;
    let (source, rest) = source(alloc, rest, left, stop)?;
    let (joins, rest) = joins(alloc, rest, left.saturating_sub(1), stop)?;
    Ok((source, joins, rest))
}

/// Reads what follows the sources of a select: the predicate, and the columns of the group.
#[tactic(auto, unfolding(crate::specs::QueryReading::tail_at))]
fn tail(
    alloc: Global,
    tokens: &[Token],
    stop: Fault,
) -> Result<(Option<Pred>, Vec<Column>, &[Token]), QueryFault>
    ensures { Gives (λ x. ((option_map pred_tree x.0, map column_tree x.1.items), toks x.2.now)) result (tail_at stop (toks tokens.now)) }
{
    let (filter, rest) = filter(alloc, tokens, stop)?;
    match group(alloc, rest, stop) {
        Ok((group, rest)) => Ok((filter, group, rest)),
        Err(fault) => {
            drop(filter);
            Err(fault)
        }
    }
}

/// Reads a select, if `left` sources may still be named.
#[tactic(auto, unfolding(crate::specs::QueryReading::select_at, crate::specs::QueryReading::tail_at))]
fn select(
    alloc: Global,
    tokens: &[Token],
    left: usize,
    stop: Fault,
) -> Result<(Select, &[Token]), QueryFault>
    ensures { Gives (λ x. (select_tree x.0, toks x.1.now)) result (select_at stop left (toks tokens.now)) }
{
    let (place, distinct, columns, rest) = head(alloc, tokens, stop)?;
    let (source, joins, rest) = match sources(alloc, rest, left, stop) {
        Ok(sources) => sources,
        Err(fault) => {
            drop(columns);
            return Err(fault);
        }
    };
    match tail(alloc, rest, stop) {
        Ok((filter, group, rest)) => {
            let select = Select {
                place,
                distinct,
                columns,
                source,
                joins,
                filter,
                group,
            };
            Ok((select, rest))
        }
        Err(fault) => {
            drop(columns);
            drop(source);
            drop(joins);
            Err(fault)
        }
    }
}

/// Whether a set operation comes first: the word `union` or the word `except`.
fn starts_set_op(tokens: &[Token]) -> bool
    ensures { result ≡ starts_set_op (toks tokens.now) }
{
    match after(Symbol::Union, tokens) {
        Some(_) => true,
        None => after(Symbol::Except, tokens).is_some(),
    }
}

/// The set operation that has to come first, `union`, `union all` or `except`, and the tokens after it.
#[tactic(auto, unfolding(crate::specs::QueryReading::set_op_at))]
fn set_op(tokens: &[Token], stop: Fault) -> Result<(SetOp, &[Token]), QueryFault>
    ensures { Gives (λ x. (x.0, toks x.1.now)) result (set_op_at stop (toks tokens.now)) }
{
    if let Some(rest) = after(Symbol::Union, tokens) {
        return match after(Symbol::All, rest) {
            Some(rest) => Ok((SetOp::UnionAll, rest)),
            None => Ok((SetOp::Union, rest)),
        };
    }
    let rest = need(Symbol::Except, tokens, stop)?;
    Ok((SetOp::Except, rest))
}

/// Reads a set operation and its right select, if `left` sources may still be named.
#[tactic(auto, unfolding(crate::specs::QueryReading::next_at))]
fn next(
    alloc: Global,
    tokens: &[Token],
    left: usize,
    stop: Fault,
) -> Result<(SetOp, Select, &[Token]), QueryFault>
    ensures { Gives (λ x. (NextOf x.0 (select_tree x.1), toks x.2.now)) result (next_at stop left (toks tokens.now)) }
{
    let (op, rest) = set_op(tokens, stop)?;
    let (right, rest) = select(alloc, rest, left, stop)?;
    Ok((op, right, rest))
}

/// How many sources a query may still name after a select that was read.
fn left_behind(left: usize, select: &Select) -> usize
    ensures { result ≡ left - sources_in (select_tree select.now) }
{
    left.saturating_sub(1).saturating_sub(select.joins.len())
}

/// The query of a set operation, once the query before it and the select after it are read.
fn combined(alloc: Global, before: Query, op: SetOp, last: Select) -> Result<Query, AllocError>
    ensures { IfOk result (λ query. query_tree query ≡ Combined (query_tree before) op (select_tree last)) }
{
    match Box::new(alloc, before) {
        Ok(before) => Ok(Query::Combined(before, op, last)),
        Err(failed) => {
            drop(last);
            Err(AllocError::from(failed))
        }
    }
}

/// A query with at most eight sources, and the tokens after it.
#[tactic(auto, unfolding(crate::specs::QueryReading::query_at))]
pub fn query(alloc: Global, tokens: &[Token], stop: Fault) -> Result<(Query, &[Token]), QueryFault>
    ensures { Gives (λ x. (query_tree x.0, toks x.1.now)) result (query_at stop (toks tokens.now)) }
{
    let (first, mut rest) = select(alloc, tokens, SOURCES, stop)?;
    let mut left = left_behind(SOURCES, &first);
    let mut query = Query::Select(first);
    for _ in 0..rest.len() {
        if !starts_set_op(rest) {
            return Ok((query, rest));
        }
        match next(alloc, rest, left, stop) {
            Ok((op, right, behind)) => {
                left = left_behind(left, &right);
                query = combined(alloc, query, op, right)?;
                rest = behind;
            }
            Err(fault) => {
                drop(query);
                return Err(fault);
            }
        }
    }
    Ok((query, rest))
}
