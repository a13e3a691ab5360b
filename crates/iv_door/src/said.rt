//! `Said`: what a keeper says; `read_said` reads a line of it.
ghost use Rattle.std.specs.Prelude.{◌≡◌, ◌≢◌, ◌<◌, ◌^◌, ◌==◌, ◌||◌, ◌++◌, ◌∷◌, ℕ, List, None, IfOk, IfSome, decimal, false, length, option_map, true};
ghost use Rattle.std.specs.List.{list_all, list_any};
ghost use Rattle.iv_door.specs.Said as spec;
ghost use Rattle.iv_records.specs.Names.{is_between, is_epoch};
ghost use Rattle.iv_door.specs.Said.{ends, has_form, is_brought, is_letter, is_name, is_well, keeps, line_of};
ghost use Rattle.iv_door.specs.Talk.{IsSaidBy};
ghost use Rattle.iv_door.specs.Views.{IsLogIn, IsWord, said_of};

use itoa::Buffer;
use std::alloc::{AllocError, Global};
use std::marker::Model;

/// A log.
#[derive(Drop)]
pub struct Log {
    /// Its name: 1 to 128 characters of ASCII, without control characters, `"` and `\`.
    pub name: Vec<u8>,
    /// 32 hexadecimal digits that no other beginning of it has.
    pub epoch: Vec<u8>,
}

impl Model for Log {
    ghost use Rattle.iv_door.specs.Said.{Log};

    ghost Value = { Log };

    ghost view = { λ l. record { name = l.name.items; epoch = l.epoch.items } };
}

/// What a keeper says.
#[derive(Drop)]
pub enum Said {
    /// The gateway is to follow a log from its beginning on.
    Begin(Log),
    /// It goes on with the log that the gateway follows.
    GoOn(Log),
    /// What the gateway holds is to be told.
    Recall,
    /// A text of the step that is under way, as a journal has it.
    Bring(Vec<u8>),
    /// That step is from one position to another.
    End(u64, u64),
    /// Clients may come in.
    Open,
    /// Nobody may.
    Shut,
    /// The gateway leads the log from here on.
    Lead,
    /// What the gateway has decided is in the log, up to a position.
    Keep(u64),
}

/// What follows a first text.
fn after<'a>(text: &'a [u8], front: &[u8]) -> Option<&'a [u8]>
    ensures some { IfSome result (λ rest. front.now ++ rest.now ≡ text.now) }
    ensures none { result ≡ None → (rest : List ℕ) → front.now ++ rest ≢ text.now }
{
    if text.len() < front.len() {
        return None;
    }
    let (first, rest) = text.split_at(front.len());
    if first == front { Some(rest) } else { None }
}

/// What comes before a last text.
fn before<'a>(text: &'a [u8], back: &[u8]) -> Option<&'a [u8]>
    ensures some { IfSome result (λ rest. rest.now ++ back.now ≡ text.now) }
    ensures none { result ≡ None → (rest : List ℕ) → rest ++ back.now ≢ text.now }
{
    if text.len() < back.len() {
        return None;
    }
    let (rest, last) = text.split_at(text.len() - back.len());
    if last == back { Some(rest) } else { None }
}

/// What stands between a first and a last text.
fn within<'a>(text: &'a [u8], front: &[u8], back: &[u8]) -> Option<&'a [u8]>
    ensures some { IfSome result (λ m. front.now ++ (m.now ++ back.now) ≡ text.now) }
    ensures none { result ≡ None → (m : List ℕ) → front.now ++ (m ++ back.now) ≢ text.now }
{
    before(after(text, front)?, back)
}

fn is_letter(byte: u8) -> bool
    ensures { result ≡ is_letter byte }
{
    (32 <= byte && byte < 127) && !(byte == b'"' || byte == b'\\')
}

fn are_letters(text: &[u8]) -> bool
    ensures { result ≡ list_all is_letter text.now }
{
    text.iter().all(|byte| is_letter(*byte))
}

fn is_digit(byte: u8) -> bool
    ensures { result ≡ (is_between 48 57 byte || is_between 97 102 byte) }
{
    (48 <= byte && byte <= 57) || (97 <= byte && byte <= 102)
}

fn are_digits(text: &[u8]) -> bool
    ensures { result ≡ list_all (λ b. is_between 48 57 b || is_between 97 102 b) text.now }
{
    text.iter().all(|byte| is_digit(*byte))
}

/// Whether it may be the name of a log.
fn is_name(name: &[u8]) -> bool
    ensures { result ≡ is_name name.now }
{
    (1 <= name.len() && name.len() <= 128) && are_letters(name)
}

/// Whether it may be the epoch of a log.
fn is_epoch(epoch: &[u8]) -> bool
    ensures { result ≡ is_epoch epoch.now }
{
    epoch.len() == 32 && are_digits(epoch)
}

/// Whether it is the name and the epoch of a log.
fn has_form(name: &[u8], epoch: &[u8]) -> bool
    ensures { result ≡ has_form (record { name = name.now; epoch = epoch.now }) }
{
    is_name(name) && is_epoch(epoch)
}

/// What comes before the last 32 bytes, and these.
fn cut_epoch(bytes: &[u8]) -> Option<(&[u8], &[u8])>
    ensures some { IfSome result (λ p. (p.0.now ++ p.1.now ≡ bytes.now) × (length p.1.now ≡ 32)) }
    ensures none { result ≡ None → length bytes.now < 32 }
{
    let at = bytes.len().checked_sub(32)?;
    Some(bytes.split_at(at))
}

/// What comes before the first such byte, and after it.
pub(crate) fn cut_at(bytes: &[u8], byte: u8) -> Option<(&[u8], &[u8])>
    ensures some { IfSome result (λ p. (p.0.now ++ byte ∷ p.1.now ≡ bytes.now) × (list_any (λ b. b == byte) p.0.now ≡ false)) }
    ensures none { result ≡ None → list_any (λ b. b == byte) bytes.now ≡ false }
{
    for at in 0..bytes.len() {
        if bytes[at] == byte {
            return Some((&bytes[..at], &bytes[at + 1..]));
        }
    }
    None
}

/// The number of 64 bits that digits write.
fn number_in(digits: &[u8]) -> Option<u64>
    ensures some { IfSome result (λ n. decimal n ≡ digits.now) }
    ensures none { result ≡ None → (n : ℕ) → n < 2 ^ 64 → decimal n ≢ digits.now }
{
    let Ok(text) = str::from_utf8(digits) else {
        return None;
    };
    let Ok(number) = text.parse::<u64>() else {
        return None;
    };
    let is = Buffer::new().format(number).as_bytes() == digits;
    if is { Some(number) } else { None }
}

/// The name and the epoch of a log in a line.
fn log_in<'a>(line: &'a [u8], front: &[u8]) -> Option<(&'a [u8], &'a [u8])>
    ensures some { IfSome result (λ p. IsLogIn line.now front.now (record { name = p.0.now; epoch = p.1.now })) }
    ensures none { result ≡ None → (l : spec.Log) → IsLogIn line.now front.now l → ⊥ }
{
    let middle = within(line, front, b"\"}")?;
    let (before, epoch) = cut_epoch(middle)?;
    let name = within(before, b"", b"\",\"epoch\":\"")?;
    if has_form(name, epoch) {
        Some((name, epoch))
    } else {
        None
    }
}

/// The log in a line.
fn read_log(alloc: Global, line: &[u8], front: &[u8]) -> Result<Option<Log>, AllocError>
    ensures some { IfOk result (λ o. IfSome o (λ l. IsLogIn line.now front.now l)) }
    ensures none { IfOk result (λ o. o ≡ None → (l : spec.Log) → IsLogIn line.now front.now l → ⊥) }
{
    match log_in(line, front) {
        None => Ok(None),
        Some((name, epoch)) => Ok(Some(Log {
            name: Vec::from_slice(alloc, name)?,
            epoch: Vec::from_slice(alloc, epoch)?,
        })),
    }
}

/// Where the step begins and ends whose last line this is.
fn step_in(line: &[u8]) -> Option<(u64, u64)>
    ensures some { IfSome result (λ p. line_of (ends p.0 p.1) ≡ line.now) }
    ensures none { result ≡ None → (from to : ℕ) → is_well (ends from to) ≡ true → line_of (ends from to) ≢ line.now }
{
    let middle = within(line, b"{\"from\":", b"}")?;
    let (from, rest) = cut_at(middle, b',')?;
    let to = within(rest, b"\"step\":", b"")?;
    Some((number_in(from)?, number_in(to)?))
}

/// The position up to which what was decided is kept, by the line that says so.
fn kept_in(line: &[u8]) -> Option<u64>
    ensures some { IfSome result (λ p. line_of (keeps p) ≡ line.now) }
    ensures none { result ≡ None → (p : ℕ) → is_well (keeps p) ≡ true → line_of (keeps p) ≢ line.now }
{
    number_in(within(line, b"{\"kept\":", b"}")?)
}

/// Whether a text begins as that of a request does, or of a name.
fn is_brought(text: &[u8]) -> bool
    ensures { result ≡ is_brought text.now }
{
    text.starts_with(b"\"as\":\"") || text.starts_with(b"\"once\":\"")
}

/// The text that a line brings.
fn text_in(line: &[u8]) -> Option<&[u8]>
    ensures some { IfSome result (λ t. (is_brought t.now ≡ true) × (123 ∷ t.now ≡ line.now)) }
    ensures none { result ≡ None → (t : List ℕ) → is_brought t ≡ true → 123 ∷ t ≢ line.now }
{
    let text = within(line, b"{", b"")?;
    if is_brought(text) { Some(text) } else { None }
}

/// What is said by a line that has no parts.
fn word_in(line: &[u8]) -> Option<Said>
    ensures some { IfSome result (λ s. IsWord (said_of s) × (line_of (said_of s) ≡ line.now)) }
    ensures none { result ≡ None → (s : spec.Said) → IsWord s → line_of s ≢ line.now }
{
    if line == b"{\"recall\":true}".as_slice() {
        Some(Said::Recall)
    } else if line == b"{\"open\":true}".as_slice() {
        Some(Said::Open)
    } else if line == b"{\"open\":false}".as_slice() {
        Some(Said::Shut)
    } else if line == b"{\"lead\":true}".as_slice() {
        Some(Said::Lead)
    } else {
        None
    }
}

/// What a keeper says by a line, if it is one.
///
/// # Errors
/// `AllocError` if a growth of memory was refused.
pub fn read_said(alloc: Global, line: &[u8]) -> Result<Option<Said>, AllocError>
    ensures { IfOk result (λ o. IsSaidBy line.now (option_map said_of o)) }
{
    if let Some(text) = text_in(line) {
        return Ok(Some(Said::Bring(Vec::from_slice(alloc, text)?)));
    }
    if let Some((from, to)) = step_in(line) {
        return Ok(Some(Said::End(from, to)));
    }
    if let Some(position) = kept_in(line) {
        return Ok(Some(Said::Keep(position)));
    }
    if let Some(said) = word_in(line) {
        return Ok(Some(said));
    }
    if let Some(log) = read_log(alloc, line, b"{\"begin\":\"")? {
        return Ok(Some(Said::Begin(log)));
    }
    match read_log(alloc, line, b"{\"go_on\":\"")? {
        None => Ok(None),
        Some(log) => Ok(Some(Said::GoOn(log))),
    }
}
