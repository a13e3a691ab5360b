//! `lexed`: from the bytes of a text to its tokens: words, numbers, quoted texts and signs.
//!
//! A letter is A to Z, a to z or an underscore, even if a number must have none after it. A text without its closing quote is
//! one fault at its first quote, even if a shorter text could be cut from it.

ghost use Rattle.std.specs.Prelude.{◌≡◌, ◌==◌, ◌<◌, ◌∷◌, length, drop, slice_index, IfOk, IsTrue, option_map, string_bytes};
ghost use Rattle.std.specs.Char.{is_ascii_digit};
ghost use Rattle.std.specs.List.{prefix_len};
ghost use Rattle.iv_rows.specs.Texts.{is_well_text};
ghost use Rattle.iv_query.specs.Tokens.{tok_of};
ghost use Rattle.iv_query.specs.Lexing.{is_blank, is_letter, is_word_byte, starts_letter, starts_digit, ahead_of, word_symbol, word_token, word_at, sign_at, number_at, negative_at, minus_at, is_plain, after_quote, quoted, text_at, ahead};
ghost use Rattle.iv_query.specs.TextReading.{lexed, tokens_lexed};

use crate::fault::{Fault, Why};
use crate::limits::WORD_BYTES;
use crate::token::{Lexeme, Symbol, Token};
use iv_rows::{is_well_text, name_ok};
use std::alloc::{AllocError, Global};

/// What is in front of a text, and what follows it.
#[derive(Drop)]
pub enum Front<'a> {
    /// A blank, and the text after it.
    Gap(&'a str),
    /// A token, and the text after it.
    Token(Lexeme, &'a str),
    /// Neither.
    Nothing,
}

/// Whether a byte is blank: it may be between tokens, and belongs to none.
fn is_blank(b: u8) -> bool
    ensures { result ≡ is_blank b }
{
    b == b' ' || b == b'\t' || b == b'\n' || b == b'\r' || b == 12
}

/// Whether a byte may begin a token that is a word: a letter or an underscore.
fn is_letter(b: u8) -> bool
    ensures { result ≡ is_letter b }
{
    b.is_ascii_alphabetic() || b == b'_'
}

/// Whether a byte may be in a token that is a word: a letter, an underscore or a digit.
fn is_word_byte(b: u8) -> bool
    ensures { result ≡ is_word_byte b }
{
    is_letter(b) || b.is_ascii_digit()
}

/// How many bytes at the front of a text belong to a token that is a word.
fn word_len(bytes: &[u8]) -> usize
    ensures { result ≡ prefix_len is_word_byte bytes.now }
{
    bytes.iter().take_while(|b| is_word_byte(**b)).count()
}

/// The symbol that a word of a text, in lower case, becomes as a token, if a rule of the grammar has it.
#[tactic(auto, unfolding(crate::specs::Lexing::word_symbol))]
fn word_symbol(word: &str) -> Option<Symbol>
    ensures { result ≡ word_symbol word.now }
{
    match word {
        "all" => Some(Symbol::All),
        "and" => Some(Symbol::And),
        "as" => Some(Symbol::As),
        "by" => Some(Symbol::By),
        "count" => Some(Symbol::Count),
        "current_user" => Some(Symbol::CurrentUser),
        "distinct" => Some(Symbol::Distinct),
        "except" => Some(Symbol::Except),
        "false" => Some(Symbol::False),
        "from" => Some(Symbol::From),
        "group" => Some(Symbol::Group),
        "inner" => Some(Symbol::Inner),
        "join" => Some(Symbol::Join),
        "not" => Some(Symbol::Not),
        "on" => Some(Symbol::On),
        "or" => Some(Symbol::Or),
        "select" => Some(Symbol::Select),
        "sum" => Some(Symbol::Sum),
        "true" => Some(Symbol::True),
        "union" => Some(Symbol::Union),
        "where" => Some(Symbol::Where),
        _ => None,
    }
}

/// What a word of a text becomes as a token: a word of a rule, a name, or a reserved word of no rule.
fn word_lexeme(word: String) -> Lexeme
    ensures { tok_of result ≡ word_token (string_bytes word) }
{
    if let Some(symbol) = word_symbol(&word) {
        return Lexeme::Fixed(symbol);
    }
    if name_ok(&word) {
        Lexeme::Name(word)
    } else {
        Lexeme::Fixed(Symbol::Reserved)
    }
}

/// What is left of a text after one byte, such as that of a sign, a quote or a blank.
fn behind_one(text: &str) -> &str
    requires there { 0 < length text.now }
    requires ascii { slice_index text.now 0 < 128 }
    ensures { result.now ≡ drop 1 text.now }
{
    &text[1..]
}

/// What is left of a text after the two bytes of a sign, such as `<=`.
fn behind_two(text: &str) -> &str
    requires there { 1 < length text.now }
    requires ascii { slice_index text.now 1 < 128 }
    ensures { result.now ≡ drop 2 text.now }
{
    &text[2..]
}

/// The word in front of a text, as a token in lower case; nothing if the word is too long.
#[tactic(auto, unfolding(crate::specs::Lexing::word_at))]
fn word(alloc: Global, text: &str) -> Result<Front<'_>, AllocError>
    ensures { IfOk result (λ f. ahead_of f ≡ word_at text.now) }
{
    let n = word_len(text.as_bytes());
    if n > WORD_BYTES {
        return Ok(Front::Nothing);
    }
    let (word, rest) = text.split_at(n);
    let mut word = String::from_str(alloc, word)?;
    word.make_ascii_lowercase();
    Ok(Front::Token(word_lexeme(word), rest))
}

/// The sign in front of a text, as a token; nothing if no sign is there.
#[tactic(auto, unfolding(crate::specs::Lexing::sign_at))]
fn sign(text: &str) -> Front<'_>
    ensures { ahead_of result ≡ sign_at text.now }
{
    match text.as_bytes() {
        [b',', ..] => Front::Token(Lexeme::Fixed(Symbol::Comma), behind_one(text)),
        [b'.', ..] => Front::Token(Lexeme::Fixed(Symbol::Dot), behind_one(text)),
        [b'(', ..] => Front::Token(Lexeme::Fixed(Symbol::Open), behind_one(text)),
        [b')', ..] => Front::Token(Lexeme::Fixed(Symbol::Close), behind_one(text)),
        [b'*', ..] => Front::Token(Lexeme::Fixed(Symbol::Star), behind_one(text)),
        [b'=', ..] => Front::Token(Lexeme::Fixed(Symbol::Equal), behind_one(text)),
        [b'!', b'=', ..] => Front::Token(Lexeme::Fixed(Symbol::NotEqual), behind_two(text)),
        [b'<', b'=', ..] => Front::Token(Lexeme::Fixed(Symbol::LessEqual), behind_two(text)),
        [b'<', b'>', ..] => Front::Token(Lexeme::Fixed(Symbol::NotEqual), behind_two(text)),
        [b'<', ..] => Front::Token(Lexeme::Fixed(Symbol::Less), behind_one(text)),
        [b'>', b'=', ..] => Front::Token(Lexeme::Fixed(Symbol::GreaterEqual), behind_two(text)),
        [b'>', ..] => Front::Token(Lexeme::Fixed(Symbol::Greater), behind_one(text)),
        _ => Front::Nothing,
    }
}

/// How many digits are at the front of a text, for the token of a number.
fn digits_len(bytes: &[u8]) -> usize
    ensures { result ≡ prefix_len is_ascii_digit bytes.now }
{
    bytes.iter().take_while(|b| b.is_ascii_digit()).count()
}

/// Whether a letter or an underscore comes first: the token of a number must have none after it.
fn starts_letter(bytes: &[u8]) -> bool
    ensures { result ≡ starts_letter bytes.now }
{
    match bytes {
        [] => false,
        [b, ..] => is_letter(*b),
    }
}

/// The token of a number without a minus, in front of a text that begins with a digit.
#[tactic(auto, unfolding(crate::specs::Lexing::number_at))]
fn number(text: &str) -> Front<'_>
    requires { IsTrue (starts_digit text.now) }
    ensures { ahead_of result ≡ number_at text.now }
{
    let n = digits_len(text.as_bytes());
    let (digits, rest) = text.split_at(n);
    if starts_letter(rest.as_bytes()) {
        return Front::Nothing;
    }
    match digits.parse::<i64>() {
        Ok(number) => Front::Token(Lexeme::Number(number), rest),
        Err(_) => Front::Nothing,
    }
}

/// The token of a number with a minus, if `behind` is after the minus.
#[tactic(auto, unfolding(crate::specs::Lexing::negative_at))]
fn negative<'a>(text: &'a str, behind: &str) -> Front<'a>
    requires whole { text.now ≡ 45 ∷ behind.now }
    requires digits { IsTrue (starts_digit behind.now) }
    ensures { ahead_of result ≡ negative_at behind.now }
{
    let n = digits_len(behind.as_bytes());
    let (numeral, rest) = text.split_at(n + 1);
    if starts_letter(rest.as_bytes()) {
        return Front::Nothing;
    }
    match numeral.parse::<i64>() {
        Ok(number) => Front::Token(Lexeme::Number(number), rest),
        Err(_) => Front::Nothing,
    }
}

/// How many bytes of a quoted text come before the next quote.
fn plain_len(bytes: &[u8]) -> usize
    ensures { result ≡ prefix_len is_plain bytes.now }
{
    bytes.iter().take_while(|b| **b != 39).count()
}

/// What follows a quote, if one comes first.
fn after_quote(text: &str) -> Option<&str>
    ensures { option_map (λ x. x.now) result ≡ after_quote text.now }
{
    match text.as_bytes() {
        [39, ..] => Some(behind_one(text)),
        _ => None,
    }
}

/// The value of a quoted text, and what follows its closing quote; `text` begins after the first one.
fn quoted(alloc: Global, text: &str) -> Result<Option<(String, &str)>, AllocError>
    ensures { IfOk result (λ r. option_map (λ x. (string_bytes x.0, x.1.now)) r ≡ quoted text.now) }
{
    let mut value = String::new(alloc);
    let mut rest = text;
    loop {
        let (plain, behind) = rest.split_at(plain_len(rest.as_bytes()));
        value.push_str(plain)?;
        let Some(behind) = after_quote(behind) else {
            return Ok(None);
        };
        let Some(next) = after_quote(behind) else {
            return Ok(Some((value, behind)));
        };
        value.push_str("'")?;
        rest = next;
    }
}

/// The token of a quoted text, if `text` begins after its first quote.
#[tactic(auto, unfolding(crate::specs::Lexing::text_at))]
fn text_front(alloc: Global, text: &str) -> Result<Front<'_>, AllocError>
    ensures { IfOk result (λ f. ahead_of f ≡ text_at text.now) }
{
    match quoted(alloc, text)? {
        Some((value, rest)) => {
            if is_well_text(&value) {
                Ok(Front::Token(Lexeme::Quoted(value), rest))
            } else {
                Ok(Front::Nothing)
            }
        }
        None => Ok(Front::Nothing),
    }
}

/// The token that begins with a minus, if a number does; `behind` is after the minus.
fn minus<'a>(text: &'a str, behind: &str) -> Front<'a>
    requires { text.now ≡ 45 ∷ behind.now }
    ensures { ahead_of result ≡ minus_at behind.now }
{
    match behind.as_bytes() {
        [b, ..] if b.is_ascii_digit() => negative(text, behind),
        _ => Front::Nothing,
    }
}

/// What is in front of a text: a blank, a word, a number, a quoted text, a sign, or nothing of these.
#[tactic(auto, unfolding(crate::specs::Lexing::ahead))]
fn front_of(alloc: Global, text: &str) -> Result<Front<'_>, AllocError>
    ensures { IfOk result (λ f. ahead_of f ≡ ahead text.now) }
{
    match text.as_bytes() {
        [] => Ok(Front::Nothing),
        [b, ..] => {
            if is_blank(*b) {
                Ok(Front::Gap(behind_one(text)))
            } else if is_letter(*b) {
                word(alloc, text)
            } else if b.is_ascii_digit() {
                Ok(number(text))
            } else if *b == 39 {
                text_front(alloc, behind_one(text))
            } else if *b == b'-' {
                Ok(minus(text, behind_one(text)))
            } else {
                Ok(sign(text))
            }
        }
    }
}

/// The tokens of a text, the fault after them, and whether that is the end of the text.
#[derive(Drop)]
pub struct Tokens {
    /// The tokens, from the left.
    pub list: Vec<Token>,
    /// The fault after the last token.
    pub stop: Fault,
    /// Whether the text ends there.
    pub ends: bool,
}

/// The tokens of a text, up to its end or to the first place where no token is.
pub fn lexed(alloc: Global, text: &str) -> Result<Tokens, AllocError>
    ensures { IfOk result (λ t. tokens_lexed t ≡ lexed (length text.now) (length text.now) text.now) }
{
    let mut list = Vec::new(alloc);
    let mut rest = text;
    while !rest.is_empty() {
        let place = text.len() - rest.len();
        match front_of(alloc, rest)? {
            Front::Gap(after) => rest = after,
            Front::Token(lexeme, after) => {
                list.push(Token { place, lexeme })?;
                rest = after;
            }
            Front::Nothing => {
                let why = Why::Token;
                return Ok(Tokens {
                    list,
                    stop: Fault { place, why },
                    ends: false,
                });
            }
        }
    }
    let why = Why::Unexpected;
    let place = text.len();
    Ok(Tokens {
        list,
        stop: Fault { place, why },
        ends: true,
    })
}
