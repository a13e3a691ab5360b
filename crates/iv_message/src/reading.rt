//! `read_message`: what a client says, from the text of its message; `on_one_line`: that text without newlines.
ghost use Rattle.std.specs.Prelude.{◌≡◌, IfOk, IfSome, Some, true, map, option_map, option_and_then};
ghost use Rattle.serde_json.specs.Find.{as_object};
ghost use Rattle.iv_machine.specs.Stored.{HasTexts};
ghost use Rattle.iv_command.specs.Views.{act_of};
ghost use Rattle.iv_request.specs.Documents.{value_data};
ghost use Rattle.iv_request.specs.Names.{form_seen};
ghost use Rattle.iv_request.specs.Reading.{value_of};
ghost use Rattle.iv_request.specs.Request.{act_for};
ghost use Rattle.iv_message.specs.Message.{IsGivenAct, act_said, asked, by_act, clients_form, is_well_message, is_for_clients, message_of, message_of_value, on_one_line};
ghost use Rattle.iv_message.specs.Seen.{asked_of, said_of};

use crate::ids::id_at;
use crate::message::{Message, Why};
use crate::reasons::{do_fault, keys_fault, wrong_in};
use iv_command::{Act, Command};
use iv_request::laws::requests_are_well;
use iv_request::{Form, Word, act_of_word, form_of, read_value, text_at};
use json::{Scratch, Value as Json};
use std::alloc::{AllocError, Global};

/// The greatest number of bytes of a message.
const MOST_BYTES: usize = 65_536;

/// Whether a client may make requests of the word: the gateway itself begins and finishes sessions.
fn is_for_clients(word: Word) -> bool
    ensures { result ≡ is_for_clients word }
{
    match word {
        Word::Begin | Word::Finish => false,
        _ => true,
    }
}

/// The form of the request that a JSON value is, if a client may make it.
fn clients_form(value: &Json<'_>) -> Option<&'static Form>
    ensures { option_map (λ f. form_seen f.now) result ≡ clients_form (value_data value.now) }
{
    match form_of(text_at(value, "do")?) {
        None => None,
        Some(form) => {
            if is_for_clients(form.word) {
                Some(form)
            } else {
                None
            }
        }
    }
}

/// What an object with the keys of the form asks, or why it is no request.
fn asked_by(alloc: Global, form: &Form, value: &Json<'_>) -> Result<Result<Act, Why>, AllocError>
    ensures { IfOk result (λ r. asked_of r ≡ by_act (form_seen form.now) (value_data value.now) (act_for form.now.word (value_data value.now))) }
{
    match act_of_word(alloc, form.word, value)? {
        Some(act) => Ok(Ok(act)),
        None => Ok(Err(wrong_in(alloc, form, value)?)),
    }
}

/// What an object asks, or why it is no request.
fn asked(alloc: Global, line: &[u8], value: &Json<'_>) -> Result<Result<Act, Why>, AllocError>
    requires { value_of line.now ≡ Some (value_data value.now) }
    ensures { IfOk result (λ r. asked_of r ≡ asked (value_data value.now)) }
{
    match clients_form(value) {
        None => Ok(Err(do_fault(alloc, value)?)),
        Some(form) => match keys_fault(alloc, form, line, value)? {
            Some(why) => Ok(Err(why)),
            None => asked_by(alloc, form, value),
        },
    }
}

/// The same request: its texts are in UTF-8.
fn with_texts(act: Act) -> Act
    ensures same { act_of result ≡ act_of act }
    ensures texts { HasTexts (act_of result) }
{
    let command = Command { session: 1, act };
    command.texts();
    command.act
}

/// What a client says by a JSON value that was read from the line.
fn said_by(alloc: Global, line: &[u8], value: &Json<'_>) -> Result<Message, AllocError>
    requires { value_of line.now ≡ Some (value_data value.now) }
    ensures message { IfOk result (λ m. said_of m ≡ message_of_value (Some (value_data value.now))) }
    ensures texts { IfOk result (λ m. IfSome (act_said (said_of m)) HasTexts) }
{
    match value {
        Json::Object(_) => {
            let id = id_at(alloc, value)?;
            match asked(alloc, line, value)? {
                Ok(act) => {
                    let act = with_texts(act);
                    Ok(Message::Request { id, act })
                }
                Err(why) => Ok(Message::NoRequest { id, why }),
            }
        }
        _ => Ok(Message::NoObject),
    }
}

/// What a client says by a line, which has no newline.
fn read_line(alloc: Global, line: &[u8], scratch: &mut Scratch) -> Result<Message, AllocError>
    ensures message { IfOk result (λ m. said_of m ≡ message_of_value (value_of line.now)) }
    ensures texts { IfOk result (λ m. IfSome (act_said (said_of m)) HasTexts) }
{
    match read_value(alloc, line, scratch)? {
        None => Ok(Message::NoJson),
        Some(value) => said_by(alloc, line, &value),
    }
}

/// A text with a blank in place of each newline, so that it is one line.
///
/// # Errors
/// `AllocError` if a growth of memory was refused.
pub fn on_one_line(alloc: Global, text: &[u8]) -> Result<Vec<u8>, AllocError>
    ensures { IfOk result (λ line. line.items ≡ on_one_line text.now) }
{
    let mut line = Vec::with_capacity(alloc, text.len())?;
    for byte in text {
        line.push(if *byte == b'\n' { b' ' } else { *byte })?;
    }
    Ok(line)
}

/// What a client says by a message, read with buffers that are kept from message to message.
///
/// # Errors
/// `AllocError` if a growth of memory was refused.
///
/// Source: RFC 8259; docs/PROTOCOL.md, Requests.
pub fn read_message(
    alloc: Global,
    text: &[u8],
    scratch: &mut Scratch,
) -> Result<Message, AllocError>
    ensures message { IfOk result (λ m. said_of m ≡ message_of text.now) }
    ensures well { IfOk result (λ m. is_well_message (said_of m) ≡ true) }
    ensures given { IfOk result (λ m. IfSome (act_said (said_of m)) IsGivenAct) }
{
    requests_are_well();
    if text.len() > MOST_BYTES {
        return Ok(Message::TooLong);
    }
    if text.contains(&b'\n') {
        let line = on_one_line(alloc, text)?;
        read_line(alloc, &line, scratch)
    } else {
        read_line(alloc, text, scratch)
    }
}
