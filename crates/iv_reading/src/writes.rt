//! `write_in`: the command of a line that is a write, read token by token. Each other line is read as a JSON value.
//!
//! Nearly all bytes that are read are those of writes. Here each token is put at once where it belongs: no JSON value is built, no
//! number is read twice, and no key is looked for. What is read so is what the value of the whole line would give, as the clauses say.
//! If nothing is read so, that tells nothing of the line: its value decides, and each refusal is told by it.
ghost use Rattle.std.specs.Prelude.{◌≡◌, ◌<◌, ◌∷◌, codes, length, true, Some, IfOk, IfSome, option_and_then, option_map, string_bytes};
ghost use Rattle.json.specs.Token as token;
ghost use Rattle.serde_json.specs.Data.{object, Members, no_members};
ghost use Rattle.serde_json.specs.Find.{as_i64, as_str, as_u64};
ghost use Rattle.iv_rows.specs.Cell.{num};
ghost use Rattle.serde_json.specs.Read as serde_json;
ghost use Rattle.iv_rows.specs.View as iv_rows;
ghost use Rattle.iv_command.specs.Entries as entries;
ghost use Rattle.iv_command.specs.Views.{command_of};
ghost use Rattle.iv_reading.specs.Pulled.{Pulls, Adds, Closes, IsParts, IsWritten, name_of, op_by, entries_by, natural_by, session_by};
ghost use Rattle.iv_request.specs.Reading.{asked, reading_by};
ghost use Rattle.iv_request.specs.Request as spec;

use iv_command::{Act, Command, Entry, Op};
use iv_request::{number_of, text_cell};
use iv_rows::{Row, Value, name_ok};
use json::{Reader, Scratch, Token};
use std::alloc::{AllocError, Global};

/// The greatest number of entries of a write.
const MOST_ENTRIES: usize = 1000;

/// For how many values a row is given memory before one has been read.
const FIRST_COLUMNS: usize = 4;

/// The greatest number of copies.
const MOST: u64 = 9_223_372_036_854_775_807;

/// The value in a row that the text of a JSON number is: a whole number of 64 bits.
fn number_cell(text: &str) -> Option<Value>
    ensures { IfSome result (λ v. option_map num (option_and_then as_i64 (serde_json.number_of text.now)) ≡ Some (iv_rows.cell_of v)) }
{
    let number = number_of(text)?.as_i64()?;
    Some(Value::Int(number))
}

/// The whole number from 0 on that the text of a JSON number is.
fn natural_of(text: &str) -> Option<u64>
    ensures { result ≡ option_and_then as_u64 (serde_json.number_of text.now) }
{
    number_of(text)?.as_u64()
}

/// The value in a row that the next token is: a flag, a whole number or a text.
fn cell_in(alloc: Global, reader: &mut Reader<'_>) -> Result<Option<Value>, AllocError>
    ensures cell { IfOk result (λ found. IfSome found (λ v. Pulls 0 spec.cell_of reader.old (iv_rows.cell_of v) reader.new)) }
    ensures shorter { IfOk result (λ found. IfSome found (λ v. length reader.new < length reader.old)) }
{
    match reader.next() {
        Some(Token::Number(text)) => Ok(number_cell(text)),
        Some(Token::String(text)) => {
            let cell = text_cell(alloc, text)?;
            Ok(cell)
        }
        Some(Token::Bool(flag)) => Ok(Some(Value::Flag(flag))),
        _ => Ok(None),
    }
}

/// Whether an array begins at the next token, which is passed over.
fn begins_array(reader: &mut Reader<'_>) -> bool
    ensures { result ≡ true → reader.old ≡ token.begin_array ∷ reader.new }
{
    match reader.next() {
        Some(Token::BeginArray) => true,
        _ => false,
    }
}

/// Whether an object begins at the next token, which is passed over.
fn begins_object(reader: &mut Reader<'_>) -> bool
    ensures { result ≡ true → reader.old ≡ token.begin_object ∷ reader.new }
{
    match reader.next() {
        Some(Token::BeginObject) => true,
        _ => false,
    }
}

/// The values of a row, up to the bracket that closes it. They are given memory for so many.
fn cells_in(
    alloc: Global,
    reader: &mut Reader<'_>,
    columns: usize,
) -> Result<Option<Vec<Value>>, AllocError>
    ensures row { IfOk result (λ found. IfSome found (λ values.
        Pulls 1 spec.row_of (token.begin_array ∷ reader.old) (iv_rows.cells_of values.items) reader.new)) }
    ensures shorter { IfOk result (λ found. IfSome found (λ v. length reader.new < length reader.old)) }
{
    let mut values = Vec::with_capacity(alloc, columns)?;
    while !reader.take_end_array() {
        match cell_in(alloc, reader)? {
            None => return Ok(None),
            Some(value) => values.push(value)?,
        }
    }
    Ok(Some(values))
}

/// The row that is next. `columns` tells how many values the last one had.
fn row_in(
    alloc: Global,
    reader: &mut Reader<'_>,
    columns: &mut usize,
) -> Result<Option<Row>, AllocError>
    ensures row { IfOk result (λ found. IfSome found (λ row. Pulls 1 spec.row_of reader.old row reader.new)) }
    ensures shorter { IfOk result (λ found. IfSome found (λ v. length reader.new < length reader.old)) }
{
    if !begins_array(reader) {
        return Ok(None);
    }
    match cells_in(alloc, reader, *columns)? {
        None => Ok(None),
        Some(mut values) => {
            if values.len() != *columns {
                *columns = values.len();
                values.shrink_to_fit();
            }
            Ok(Some(Row::new(values)?))
        }
    }
}

/// The rows of an update that are next, in an array: the old one and the new one.
fn update_in(
    alloc: Global,
    reader: &mut Reader<'_>,
    columns: &mut usize,
) -> Result<Option<Op>, AllocError>
    ensures op { IfOk result (λ found. IfSome found (λ op. Pulls 2 spec.update_of reader.old (entries.op_of op) reader.new)) }
    ensures shorter { IfOk result (λ found. IfSome found (λ v. length reader.new < length reader.old)) }
{
    if !begins_array(reader) {
        return Ok(None);
    }
    let Some(old) = row_in(alloc, reader, columns)? else {
        return Ok(None);
    };
    let Some(new) = row_in(alloc, reader, columns)? else {
        return Ok(None);
    };
    if reader.take_end_array() {
        Ok(Some(Op::Update(old, new)))
    } else {
        Ok(None)
    }
}

/// The whole number from 0 on that is next.
fn natural_in(reader: &mut Reader<'_>) -> Option<u64>
    ensures number { IfSome result (λ n. Pulls 0 natural_by reader.old n reader.new) }
    ensures shorter { IfSome result (λ n. length reader.new < length reader.old) }
{
    match reader.next() {
        Some(Token::Number(text)) => natural_of(text),
        _ => None,
    }
}

/// The number of copies that is next.
fn copies_in(reader: &mut Reader<'_>) -> Option<i64>
    ensures copies { IfSome result (λ n. Pulls 0 spec.positive_of reader.old (entries.copies_of n) reader.new) }
    ensures shorter { IfSome result (λ n. length reader.new < length reader.old) }
{
    match natural_in(reader) {
        None => None,
        Some(copies) => {
            if 1 <= copies && copies <= MOST {
                Some(copies as i64)
            } else {
                None
            }
        }
    }
}

/// The name that is next, in memory of its own.
fn name_in(alloc: Global, reader: &mut Reader<'_>) -> Result<Option<String>, AllocError>
    ensures name { IfOk result (λ found. IfSome found (λ name. Pulls 0 name_of reader.old (string_bytes name) reader.new)) }
    ensures shorter { IfOk result (λ found. IfSome found (λ v. length reader.new < length reader.old)) }
{
    match reader.next() {
        Some(Token::String(text)) => {
            if name_ok(text) {
                Ok(Some(String::from_str(alloc, text)?))
            } else {
                Ok(None)
            }
        }
        _ => Ok(None),
    }
}

/// What of an entry has been read.
#[derive(Drop)]
struct Parts {
    rel: Option<String>,
    op: Option<Op>,
    copies: i64,
}

impl Parts {
    /// Nothing has been read.
    fn new() -> Parts
        ensures { IsParts result no_members }
    {
        Parts {
            rel: None,
            op: None,
            copies: 1,
        }
    }
}

/// What an entry does, by its key, whose value is next.
fn op_in(
    alloc: Global,
    key: &str,
    reader: &mut Reader<'_>,
    columns: &mut usize,
) -> Result<Option<Op>, AllocError>
    ensures op { IfOk result (λ found. IfSome found (λ op. Pulls 2 (op_by key.now) reader.old (entries.op_of op) reader.new)) }
    ensures shorter { IfOk result (λ found. IfSome found (λ v. length reader.new < length reader.old)) }
{
    if key == "insert" {
        Ok(row_in(alloc, reader, columns)?.map(Op::Insert))
    } else if key == "delete" {
        Ok(row_in(alloc, reader, columns)?.map(Op::Delete))
    } else if key == "update" {
        update_in(alloc, reader, columns)
    } else {
        Ok(None)
    }
}

/// Reads the value of a member of an entry, which is next, into its part, and returns whether it has one.
fn part_in(
    alloc: Global,
    key: &str,
    reader: &mut Reader<'_>,
    parts: &mut Parts,
    columns: &mut usize,
) -> Result<bool, AllocError>
    ensures part { IfOk result (λ is_read. is_read ≡ true → (found : Members) → IsParts parts.old found
        → Adds 2 key.now found (IsParts parts.new) reader.old reader.new) }
    ensures shorter { IfOk result (λ is_read. is_read ≡ true → length reader.new < length reader.old) }
{
    if key == "on" {
        parts.rel = name_in(alloc, reader)?;
        Ok(parts.rel.is_some())
    } else if key == "copies" {
        match copies_in(reader) {
            None => Ok(false),
            Some(copies) => {
                parts.copies = copies;
                Ok(true)
            }
        }
    } else if parts.op.is_some() {
        Ok(false)
    } else {
        parts.op = op_in(alloc, key, reader, columns)?;
        Ok(parts.op.is_some())
    }
}

/// Reads the members of an entry into their parts, up to the brace that closes it, and returns whether each has one.
fn parts_in(
    alloc: Global,
    reader: &mut Reader<'_>,
    parts: &mut Parts,
    columns: &mut usize,
) -> Result<bool, AllocError>
    ensures parts { IfOk result (λ is_read. is_read ≡ true → IsParts parts.old no_members
        → Closes 2 (IsParts parts.new) reader.old reader.new) }
    ensures shorter { IfOk result (λ is_read. is_read ≡ true → length reader.new < length reader.old) }
{
    'members: loop {
        match reader.next_key() {
            Err(_) => return Ok(false),
            Ok(None) => return Ok(true),
            Ok(Some(key)) => {
                if !part_in(alloc, key, reader, parts, columns)? {
                    return Ok(false);
                }
            }
        }
    }
}

/// The entry that these parts make.
fn whole_entry(parts: Parts) -> Option<Entry>
    ensures { IfSome result (λ entry. (found : Members) → IsParts parts found → spec.entry_of (object found) ≡ Some entry) }
{
    let Parts { rel, op, copies } = parts;
    match (rel, op) {
        (Some(rel), Some(op)) => Some(Entry { rel, op, copies }),
        _ => None,
    }
}

/// The entry that is next.
fn entry_in(
    alloc: Global,
    reader: &mut Reader<'_>,
    columns: &mut usize,
) -> Result<Option<Entry>, AllocError>
    ensures entry { IfOk result (λ found. IfSome found (λ entry. Pulls 3 spec.entry_of reader.old entry reader.new)) }
    ensures shorter { IfOk result (λ found. IfSome found (λ v. length reader.new < length reader.old)) }
{
    if !begins_object(reader) {
        return Ok(None);
    }
    let mut parts = Parts::new();
    if parts_in(alloc, reader, &mut parts, columns)? {
        Ok(whole_entry(parts))
    } else {
        Ok(None)
    }
}

/// The entries of a write that are next, in an array, however many.
fn entries_in(alloc: Global, reader: &mut Reader<'_>) -> Result<Option<Vec<Entry>>, AllocError>
    ensures entries { IfOk result (λ found. IfSome found (λ entries.
        Pulls 4 (spec.list_of spec.entry_of) reader.old entries.items reader.new)) }
    ensures shorter { IfOk result (λ found. IfSome found (λ v. length reader.new < length reader.old)) }
{
    if !begins_array(reader) {
        return Ok(None);
    }
    let mut entries = Vec::new(alloc);
    let mut columns = FIRST_COLUMNS;
    while !reader.take_end_array() {
        match entry_in(alloc, reader, &mut columns)? {
            None => return Ok(None),
            Some(entry) => entries.push(entry)?,
        }
    }
    Ok(Some(entries))
}

/// The 1 to 1,000 entries of a write that are next.
fn some_entries_in(alloc: Global, reader: &mut Reader<'_>) -> Result<Option<Vec<Entry>>, AllocError>
    ensures entries { IfOk result (λ found. IfSome found (λ entries. Pulls 4 entries_by reader.old entries.items reader.new)) }
    ensures shorter { IfOk result (λ found. IfSome found (λ v. length reader.new < length reader.old)) }
{
    match entries_in(alloc, reader)? {
        None => Ok(None),
        Some(entries) => {
            if 1 <= entries.len() && entries.len() <= MOST_ENTRIES {
                Ok(Some(entries))
            } else {
                Ok(None)
            }
        }
    }
}

/// The number of a session that is next.
fn session_in(reader: &mut Reader<'_>) -> Option<u32>
    ensures session { IfSome result (λ n. Pulls 0 session_by reader.old n reader.new) }
    ensures shorter { IfSome result (λ n. length reader.new < length reader.old) }
{
    match natural_in(reader) {
        None => None,
        Some(number) => {
            if 1 <= number && number < 4_294_967_296 {
                Some(number as u32)
            } else {
                None
            }
        }
    }
}

/// Whether the word of a write is next.
fn is_write_next(reader: &mut Reader<'_>) -> bool
    ensures word { result ≡ true → Pulls 0 as_str reader.old (codes "write") reader.new }
    ensures shorter { result ≡ true → length reader.new < length reader.old }
{
    match reader.next() {
        Some(Token::String(text)) => text == "write",
        _ => false,
    }
}

/// What of a write has been read.
#[derive(Drop)]
struct Written {
    is_write: bool,
    session: Option<u32>,
    entries: Option<Vec<Entry>>,
}

impl Written {
    /// Nothing has been read.
    fn new() -> Written
        ensures { IsWritten result no_members }
    {
        Written {
            is_write: false,
            session: None,
            entries: None,
        }
    }
}

/// Reads the value of a member of a write, which is next, into its part, and returns whether it has one.
fn member_in(
    alloc: Global,
    key: &str,
    reader: &mut Reader<'_>,
    written: &mut Written,
) -> Result<bool, AllocError>
    ensures part { IfOk result (λ is_read. is_read ≡ true → (found : Members) → IsWritten written.old found
        → Adds 4 key.now found (IsWritten written.new) reader.old reader.new) }
    ensures shorter { IfOk result (λ is_read. is_read ≡ true → length reader.new < length reader.old) }
{
    if key == "do" {
        written.is_write = is_write_next(reader);
        Ok(written.is_write)
    } else if key == "session" {
        written.session = session_in(reader);
        Ok(written.session.is_some())
    } else if key == "entries" {
        written.entries = some_entries_in(alloc, reader)?;
        Ok(written.entries.is_some())
    } else {
        Ok(false)
    }
}

/// Reads the members of a write into their parts, up to the brace that closes it, and returns whether each has one.
fn members_in(
    alloc: Global,
    reader: &mut Reader<'_>,
    written: &mut Written,
) -> Result<bool, AllocError>
    ensures parts { IfOk result (λ is_read. is_read ≡ true → IsWritten written.old no_members
        → Closes 4 (IsWritten written.new) reader.old reader.new) }
{
    'members: loop {
        match reader.next_key() {
            Err(_) => return Ok(false),
            Ok(None) => return Ok(true),
            Ok(Some(key)) => {
                if !member_in(alloc, key, reader, written)? {
                    return Ok(false);
                }
            }
        }
    }
}

/// The command that these parts make.
fn whole_write(written: Written) -> Option<Command>
    ensures { IfSome result (λ c. (found : Members) → IsWritten written found → spec.request (object found) ≡ Some (command_of c)) }
{
    let Written {
        is_write,
        session,
        entries,
    } = written;
    match (session, entries) {
        (Some(session), Some(entries)) => {
            if is_write {
                Some(Command {
                    session,
                    act: Act::Write { entries },
                })
            } else {
                None
            }
        }
        _ => None,
    }
}

/// The command of a text that is a write, if it is read so.
///
/// # Errors
/// `AllocError` if a growth of memory was refused.
pub(crate) fn write_in(
    alloc: Global,
    text: &str,
    scratch: &mut Scratch,
) -> Result<Option<Command>, AllocError>
    ensures { IfOk result (λ found. IfSome found (λ c. reading_by (serde_json.read text.now) ≡ asked (command_of c))) }
{
    let mut reader = Reader::new(text, scratch)?;
    if !begins_object(&mut reader) {
        return Ok(None);
    }
    let mut written = Written::new();
    if !members_in(alloc, &mut reader, &mut written)? {
        return Ok(None);
    }
    if reader.next().is_some() {
        return Ok(None);
    }
    Ok(whole_write(written))
}
