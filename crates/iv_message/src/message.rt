//! `Message`: what a client says; `Id`: what it names its message by; `Why`: why an object is no request.

use iv_command::Act;

/// The id of a message, which its reply gives back.
#[derive(Drop)]
pub enum Id {
    /// A whole number from 0 on.
    Natural(u64),
    /// A whole number below 0.
    Whole(i64),
    /// A text of at most 64 bytes.
    Text(String),
}

/// Why a JSON object is no request, with the key at which that is seen.
#[derive(Drop)]
pub enum Why {
    /// A key that the form of the request requires is not there.
    Missing(String),
    /// The form of the request has no such key.
    Unknown(String),
    /// The value at the key is not as the form has it. Of a write, with the number of the first entry that is no entry, from 1.
    Wrong(String, Option<usize>),
}

/// What a client says.
#[derive(Drop)]
pub enum Message {
    /// The text is no JSON. It is refused (1).
    NoJson,
    /// The text has more than 65,536 bytes. It is refused (22).
    TooLong,
    /// The text is JSON, and no object. It is refused (2).
    NoObject,
    /// The object is no request. It is refused (2), with the reason.
    NoRequest { id: Option<Id>, why: Why },
    /// A request.
    Request { id: Option<Id>, act: Act },
}
