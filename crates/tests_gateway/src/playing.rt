//! `played`: a conversation of clients with a gateway, played anew. A line that begins with `> ` has something happen, and is copied;
//! after it comes what it brings. The other lines of a conversation are what was brought, by hand, and are not read.
//!
//! `come N TOKEN`: who presents the token is client N. `say N TEXT`: client N sends the message. `go N`: client N goes. `tokens NAME..`:
//! these tokens are known from now on. `tick`: all are told that the line is alive. `sync`: the journal is synced, and each client that is listed
//! as told takes what it may be sent, one line each after its number. `journal`: the journal's lines, parts of a record after `+`. `tear TEXT`: the journal has
//! the part of a record. `spoil TEXT`: the journal has the record. `restart`: another gateway begins from the journal. `viewd REL`: what viewd answers to the
//! journal's entries as lines of its own, and then to a subscribe to the relation by the administrator. `follow`: another gateway, which follows the
//! log `main`, begins from the journal. `step LOG FROM TO TEXTS`: a step of the log comes, of texts with `|` between them. `at`: where the log stands, and
//! up to where the journal has it on disk.
ghost use Rattle.std.specs.Prelude.{None};

use crate::following::{log_of, put_position, step};
use crate::out::Out;
use crate::viewd::answers;
use iv_arrivals::Log;
use iv_clients::{Token, read_tokens};
use iv_engine::Engine;
use iv_gateway::{Gateway, GatewayFault, Head, Journal, JournalFault, RestoreFault};
use iv_journal::Line;
use iv_once::{LIMITS, Names};
use iv_records::OwnedLine;
use std::alloc::{AllocError, Global};
use std::mem;

/// The lines of the tokens' file, each after its role. A token is the name of its role; the digests are SHA-256 of these, by another
/// program.
const TOKENS: &str =
    "admin \"8c6976e5b5410415bde908bd4dee15dfb167a9c873fc4bb8a81f6f2ab448a918\" = \"admin\"
mia \"a6ae07ad556c5f9348cc09c16ed17a437e65acc71e689c1b19f872f1dab3c9c1\" = \"mia\"
bob \"81b637d8fcd2c6da6359e6963113a1170de795e4b725b84d1e0b4cfd9ec58ce9\" = \"bob\"
leo \"8535e86c8118bbbb0a18ac72d15d3a2b37b18d1bce1611fc60165f322cf57386\" = \"leo\"
";

/// The roles of all tokens.
const ALL: &str = "admin mia bob leo";

/// How many clients there may be.
const MOST: u32 = 4;

/// The epoch of names.
const EPOCH: &str = "0123456789abcdef0123456789abcdef";

/// A journal in memory.
#[derive(Drop)]
pub struct Kept {
    alloc: Global,
    /// What was written.
    lines: Vec<OwnedLine>,
}

impl Kept {
    pub fn new(alloc: Global) -> Kept {
        Kept {
            alloc,
            lines: Vec::new(alloc),
        }
    }

    fn push(&mut self, is_last: bool, text: &[u8]) -> Result<(), AllocError> {
        let mut copy = Vec::new(self.alloc);
        copy.extend_from_slice(text)?;
        self.lines.push(OwnedLine {
            is_last,
            text: copy,
        })?;
        Ok(())
    }

    fn push_all(&mut self, lines: &[OwnedLine]) -> Result<(), AllocError> {
        for line in lines {
            self.push(line.is_last, &line.text)?;
        }
        Ok(())
    }

    /// The requests, as JSON objects, one a line.
    fn requests(&self) -> Result<Vec<u8>, AllocError> {
        let mut bytes = Vec::new(self.alloc);
        for line in &self.lines {
            if line.text.starts_with(b"\"as\":") {
                bytes.push(b'{')?;
                bytes.extend_from_slice(&line.text)?;
                bytes.push(b'\n')?;
            }
        }
        Ok(bytes)
    }
}

impl Journal for Kept {
    ghost kept = { λ _. None };

    fn append(&mut self, lines: &[OwnedLine]) -> Result<(), JournalFault> {
        match self.push_all(lines) {
            Ok(()) => Ok(()),
            Err(_) => Err(JournalFault),
        }
    }
}

/// Whether a name is among others.
fn is_among(name: &str, names: &str) -> bool {
    names.split(' ').any(|other| other == name)
}

/// The tokens' file of these roles.
fn file_of(alloc: Global, names: &str) -> Result<String, AllocError> {
    let mut file = String::from_str(alloc, "# who may come in\n[tokens]\n")?;
    for line in TOKENS.lines() {
        let (role, token) = line.split_once(' ').unwrap_or((line, ""));
        if is_among(role, names) {
            file.push_str(token)?;
            file.push_str("\n")?;
        }
    }
    Ok(file)
}

/// The tokens of these roles.
fn tokens_of(alloc: Global, names: &str) -> Result<Vec<Token>, AllocError> {
    let file = file_of(alloc, names)?;
    match read_tokens(alloc, file.as_bytes()) {
        Ok(tokens) => Ok(tokens),
        Err(_) => Err(AllocError),
    }
}

/// What a journal without a line says at its head.
fn new_head(alloc: Global, log: Option<Log>) -> Result<Head, AllocError> {
    Ok(Head {
        names: Names::new(alloc, LIMITS, EPOCH)?,
        log,
        position: 0,
    })
}

/// A gateway over a new engine, with places for a few clients.
pub fn new_gateway(alloc: Global) -> Result<Gateway, AllocError> {
    gateway_with(alloc, None)
}

/// A gateway over a new engine that follows the log `main`.
fn following_gateway(alloc: Global) -> Result<Gateway, AllocError> {
    let log = log_of(alloc, "main")?;
    gateway_with(alloc, Some(log))
}

/// A gateway over a new engine, with places for a few clients, and the log that it follows.
fn gateway_with(alloc: Global, log: Option<Log>) -> Result<Gateway, AllocError> {
    let tokens = tokens_of(alloc, ALL)?;
    let head = new_head(alloc, log)?;
    match Engine::new(alloc, 1_024) {
        Ok(engine) => Gateway::new(alloc, engine, tokens, MOST, head),
        Err(error) => {
            drop(tokens);
            drop(head);
            Err(error)
        }
    }
}

/// The mark of the lines of a client.
fn mark_of(client: u32) -> &'static str {
    match client {
        0 => "0 ",
        1 => "1 ",
        2 => "2 ",
        _ => "3 ",
    }
}

/// Takes what a client may be sent.
fn take(gateway: &mut Gateway, client: u32, out: &mut Out) {
    let text = gateway.take(client);
    out.put_lines(mark_of(client), str::from_utf8(&text).unwrap_or("no text"));
    drop(text);
    if gateway.is_dropped(client) {
        out.put(mark_of(client));
        out.put("is to go\n");
    }
}

/// Which clients are listed as told.
fn told(gateway: &Gateway) -> [bool; 4] {
    let told = gateway.told();
    [
        told.contains(&0),
        told.contains(&1),
        told.contains(&2),
        told.contains(&3),
    ]
}

/// Syncs the journal, and takes what those may be sent who are listed as told.
fn sync(gateway: &mut Gateway, journal: &mut Kept, out: &mut Out) {
    if gateway.settle(journal).is_err() {
        out.put("not synced\n");
        return;
    }
    let told = told(gateway);
    for client in 0..MOST {
        if told[client as usize] {
            take(gateway, client, out);
        }
    }
}

/// What comes of the journal's lines in a gateway.
fn restored(gateway: &mut Gateway, journal: &Kept) -> Result<Result<(), RestoreFault>, AllocError> {
    let mut lines = Vec::new(journal.alloc);
    for line in &journal.lines {
        lines.push(Line {
            is_last: line.is_last,
            text: &line.text,
        })?;
    }
    Ok(gateway.restore(&lines))
}

/// Begins from the journal.
fn restore(gateway: &mut Gateway, journal: &Kept, out: &mut Out) {
    match restored(gateway, journal) {
        Ok(Ok(())) => out.put_place("restored to ", journal.lines.len()),
        Ok(Err(RestoreFault::Damaged(place))) => out.put_place("damaged at ", place),
        _ => out.refuse(),
    }
}

/// Has another gateway begin from the journal.
fn restart(
    gateway: &mut Gateway,
    journal: &Kept,
    other: Result<Gateway, AllocError>,
    out: &mut Out,
) {
    match other {
        Ok(other) => {
            drop(mem::replace(gateway, other));
            restore(gateway, journal, out);
        }
        Err(_) => out.refuse(),
    }
}

/// Adds that something is not so of a client, if it is not.
fn put_unless(is: Result<bool, GatewayFault>, client: u32, text: &str, out: &mut Out) {
    match is {
        Ok(true) => {}
        Ok(false) => {
            out.put(mark_of(client));
            out.put(text);
        }
        Err(_) => out.refuse(),
    }
}

/// Has something happen to a client.
fn happen_to(gateway: &mut Gateway, word: &str, client: u32, text: &str, out: &mut Out) {
    match word {
        "come" => {
            let is = gateway.admit(client, text.as_bytes());
            put_unless(is, client, "is not let in\n", out);
        }
        "say" => {
            let is = gateway.said(client, text.as_bytes());
            put_unless(is, client, "is not heard\n", out);
        }
        "go" => {
            if gateway.left(client).is_err() {
                out.refuse();
            }
        }
        _ => out.put("no such word\n"),
    }
}

/// A client's number, and what follows it.
fn numbered(text: &str) -> Option<(u32, &str)> {
    let (digits, rest) = text.split_once(' ').unwrap_or((text, ""));
    match digits.parse::<u32>() {
        Ok(client) => Some((client, rest)),
        Err(_) => None,
    }
}

/// Has other tokens be known.
fn know(gateway: &mut Gateway, names: &str, out: &mut Out) {
    match tokens_of(out.alloc(), names) {
        Ok(tokens) => gateway.know(tokens),
        Err(_) => out.refuse(),
    }
}

/// Has something happen to the gateway: to all clients, or to one.
fn happen(gateway: &mut Gateway, word: &str, text: &str, out: &mut Out) {
    match word {
        "tick" => {
            if gateway.tick().is_err() {
                out.refuse();
            }
        }
        "tokens" => know(gateway, text, out),
        "step" => step(gateway, text, out),
        "at" => put_position(gateway, out),
        _ => match numbered(text) {
            Some((client, text)) => happen_to(gateway, word, client, text, out),
            None => out.put("no such word\n"),
        },
    }
}

/// Adds a line to the journal.
fn append(journal: &mut Kept, is_last: bool, text: &str, out: &mut Out) {
    if journal.push(is_last, text.as_bytes()).is_err() {
        out.refuse();
    }
}

/// Adds the journal's lines.
fn put_journal(journal: &Kept, out: &mut Out) {
    for line in &journal.lines {
        out.put(if line.is_last { "| " } else { "+ " });
        out.put(str::from_utf8(&line.text).unwrap_or("no text"));
        out.put("\n");
    }
}

/// What viewd answers to the journal.
fn answers_to(journal: &Kept, rel: &str) -> Result<Vec<u8>, AllocError> {
    let requests = journal.requests()?;
    answers(
        journal.alloc,
        str::from_utf8(&requests).unwrap_or("no text"),
        rel,
    )
}

/// Adds what viewd answers to the journal.
fn put_answers(journal: &Kept, rel: &str, out: &mut Out) {
    match answers_to(journal, rel) {
        Ok(told) => out.put_lines("viewd ", str::from_utf8(&told).unwrap_or("no text")),
        Err(_) => out.refuse(),
    }
}

/// Has something happen to the journal, or tells of it; whether the word is one of these.
fn happens_to_journal(journal: &mut Kept, word: &str, text: &str, out: &mut Out) -> bool {
    match word {
        "journal" => put_journal(journal, out),
        "viewd" => put_answers(journal, text, out),
        "tear" => append(journal, false, text, out),
        "spoil" => append(journal, true, text, out),
        _ => return false,
    }
    true
}

/// Plays a line of a conversation.
fn play(gateway: &mut Gateway, journal: &mut Kept, what: &str, out: &mut Out) {
    let (word, text) = what.split_once(' ').unwrap_or((what, ""));
    match word {
        "sync" => sync(gateway, journal, out),
        "restart" => restart(gateway, journal, new_gateway(out.alloc()), out),
        "follow" => restart(gateway, journal, following_gateway(out.alloc()), out),
        _ => {
            if !happens_to_journal(journal, word, text, out) {
                happen(gateway, word, text, out);
            }
        }
    }
}

/// Plays the lines of a conversation.
fn play_all(gateway: &mut Gateway, journal: &mut Kept, conversation: &str, out: &mut Out) {
    for line in conversation.lines() {
        if let Some(what) = line.strip_prefix("> ") {
            out.put(line);
            out.put("\n");
            play(gateway, journal, what, out);
        }
    }
}

/// A conversation, played anew with a new gateway.
pub fn played(alloc: Global, conversation: &str) -> Result<Out, AllocError> {
    let mut gateway = new_gateway(alloc)?;
    let mut journal = Kept::new(alloc);
    let mut out = Out::new(alloc);
    play_all(&mut gateway, &mut journal, conversation, &mut out);
    drop(gateway);
    drop(journal);
    Ok(out)
}
