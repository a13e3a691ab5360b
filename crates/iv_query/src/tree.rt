//! `Query`, `Select`, `PredText` and the trees below them, by the rules of the grammar.
//! Places are in bytes from 0; names are in lower case.
//!
//! A query is a select, or a query, an operation and a select: grouping from the right has no tree, so no wrong body can
//! give it. An edit swaps the operands of a set operation instead.

use iv_rows::Value;

/// What a comparison asks of its left operand against its right one.
#[derive(Clone, Copy, Debug, PartialEq, Eq)]
pub enum Op {
    /// Whether it is the same value.
    Equal,
    /// Whether it is another value.
    NotEqual,
    /// Whether it is less.
    Less,
    /// Whether it is less or the same.
    LessEqual,
    /// Whether it is greater.
    Greater,
    /// Whether it is greater or the same.
    GreaterEqual,
}

/// A name as it is in a text.
#[derive(Drop)]
pub struct Name {
    /// Its place, in bytes from 0.
    pub place: usize,
    /// The name, in lower case.
    pub text: String,
}

/// A column, with the source that it is said to belong to, if one comes before a dot.
#[derive(Drop)]
pub struct Column {
    /// Its place, in bytes from 0.
    pub place: usize,
    /// The name before the dot, if there is one.
    pub source: Option<String>,
    /// The column's name.
    pub name: String,
}

/// A side of a comparison.
#[derive(Drop)]
pub enum Operand {
    /// A column of the row.
    Column(Column),
    /// A value that the text has.
    Literal { place: usize, value: Value },
    /// The name of the role that reads or writes: in policies alone.
    CurrentUser { place: usize },
}

/// A predicate. `or` and `and` group from the left.
#[derive(Drop)]
pub enum Pred {
    /// One of both holds, or both.
    Or(Box<Pred>, Box<Pred>),
    /// Both hold.
    And(Box<Pred>, Box<Pred>),
    /// It does not hold.
    Not(Box<Pred>),
    /// `true` or `false`.
    Constant(bool),
    /// Two operands compare so.
    Compare(Operand, Op, Operand),
}

/// Which operands a predicate may have.
#[derive(Clone, Copy, Debug, PartialEq, Eq)]
pub enum Dialect {
    /// Columns with or without a dot.
    Query,
    /// Columns without a dot, and `current_user`.
    Policy,
}

/// A policy text: its predicate has the operands of a policy.
#[derive(Drop)]
pub struct PredText {
    /// The predicate.
    pub pred: Pred,
}

/// A table or view in a query, and the name that it has there.
#[derive(Drop)]
pub struct Source {
    /// The table or view.
    pub name: Name,
    /// The name after `as`, if there is one.
    pub alias: Option<Name>,
}

/// Two columns whose values are to be equal in a join.
#[derive(Drop)]
pub struct Pair {
    /// The column before the sign `=`.
    pub left: Column,
    /// The column after it.
    pub right: Column,
}

/// A source that is joined to those before it. There is at least one pair.
#[derive(Drop)]
pub struct Join {
    /// The source that is joined.
    pub source: Source,
    /// The columns that have to be equal.
    pub on: Vec<Pair>,
}

/// What a select gives as one column. The place of a sum or a count is that of its word.
#[derive(Drop)]
pub enum Item {
    /// A column, and the name after `as`, if there is one.
    Column {
        column: Column,
        alias: Option<Name>,
    },
    /// The sum of a column.
    Sum {
        place: usize,
        column: Column,
        alias: Name,
    },
    /// The number of rows.
    Count {
        place: usize,
        alias: Name,
    },
}

/// All columns, or at least one item.
#[derive(Drop)]
pub enum Columns {
    /// `*`
    All { place: usize },
    /// The items, from the left.
    Items(Vec<Item>),
}

/// A select. Its place is that of the word. Without `group by` no column is in `group`.
#[derive(Drop)]
pub struct Select {
    /// Its place, in bytes from 0.
    pub place: usize,
    /// Whether each row is given once.
    pub distinct: bool,
    /// What it gives of each row or group.
    pub columns: Columns,
    /// The first source.
    pub source: Source,
    /// The sources that are joined to it, from the left.
    pub joins: Vec<Join>,
    /// The predicate after `where`, if there is one.
    pub filter: Option<Pred>,
    /// The columns after `group by`.
    pub group: Vec<Column>,
}

/// How a select is combined with the query before it.
#[derive(Clone, Copy, Debug, PartialEq, Eq)]
pub enum SetOp {
    /// `union`: the rows of both, each once.
    Union,
    /// `union all`: the rows of both, as often as they come.
    UnionAll,
    /// `except`: the rows of the first that the second does not have, each once.
    Except,
}

/// A query: one select, or a query and a select after it. So set operations group from the left.
#[derive(Drop)]
pub enum Query {
    /// A select alone.
    Select(Select),
    /// A query, and the select that it is combined with.
    Combined(Box<Query>, SetOp, Select),
}
