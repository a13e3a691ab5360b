//! `Token`, `Lexeme`, `Symbol`: reserved words, signs, names and values of a text, each with its place.

/// A reserved word or a sign.
#[derive(Clone, Copy, PartialEq, Eq)]
pub enum Symbol {
    /// `all`
    All,
    /// `and`
    And,
    /// `as`
    As,
    /// `by`
    By,
    /// `count`
    Count,
    /// `current_user`
    CurrentUser,
    /// `distinct`
    Distinct,
    /// `except`
    Except,
    /// `false`
    False,
    /// `from`
    From,
    /// `group`
    Group,
    /// `inner`
    Inner,
    /// `join`
    Join,
    /// `not`
    Not,
    /// `on`
    On,
    /// `or`
    Or,
    /// `select`
    Select,
    /// `sum`
    Sum,
    /// `true`
    True,
    /// `union`
    Union,
    /// `where`
    Where,
    /// A reserved word that no rule has.
    Reserved,
    /// `,`
    Comma,
    /// `.`
    Dot,
    /// `(`
    Open,
    /// `)`
    Close,
    /// `*`
    Star,
    /// `=`
    Equal,
    /// `<>`
    NotEqual,
    /// `<`
    Less,
    /// `<=`
    LessEqual,
    /// `>`
    Greater,
    /// `>=`
    GreaterEqual,
}

#[derive(Drop)]
pub enum Lexeme {
    /// A reserved word or a sign.
    Fixed(Symbol),
    /// In lower case.
    Name(String),
    /// A whole number.
    Number(i64),
    /// What is between the quotes, each doubled quote once.
    Quoted(String),
}

/// A token and its place in bytes from 0.
#[derive(Drop)]
pub struct Token {
    /// Its place, in bytes from 0.
    pub place: usize,
    /// Which token it is.
    pub lexeme: Lexeme,
}
