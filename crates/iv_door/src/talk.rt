//! `Talk`: how what a keeper says is heard, line by line.
ghost use Rattle.std.specs.Prelude.{◌≡◌, ◌≤◌, ◌++◌, ◌&&◌, not, false, true, Some, length, IfErr, IfOk, IfSome, OnOk, option_map};
ghost use Rattle.iv_door.specs.Said.{begins, brings, ends, goes_on, keeps, leads, recalls};
ghost use Rattle.iv_door.specs.Answers.{other_log};
ghost use Rattle.iv_door.specs.Talk as spec;
ghost use Rattle.iv_door.specs.Talk.{Hears, HearsLine, IsSaidBy, acts, at_start, fails, has_newline, has_room, is_same, most_line};
ghost use Rattle.iv_door.specs.Views.{IsFailingBy, IsPassed, act_of, fault_of, heard_of, said_of};
ghost use Rattle.iv_door.specs.declared.answers.Fault.TheVariants.{WrongTime};

use crate::answers::{Fault, push_step};
use crate::said::{Log, Said, cut_at, read_said};
use std::alloc::{AllocError, Global};
use std::marker::Model;
use std::mem;

/// Bytes of a line without its newline, at most.
const MOST_LINE: usize = 130_816;

/// Lines of a step before its last one, at most.
const MOST_LINES: usize = 1_048_576;

/// Bytes of these lines, at most.
const MOST_BYTES: usize = 268_435_456;

/// What a line asks.
#[derive(Drop)]
pub enum Act {
    /// The gateway is to follow the talk's log from its beginning on.
    Begun,
    /// The keeper goes on with the log that is followed.
    GoneOn,
    /// What the gateway holds is to be told.
    Recall,
    /// Nothing yet: it is of the step that is under way.
    Brought,
    /// The step from one position to another has these texts, of which the last one ends it.
    Ended(u64, u64, Vec<Vec<u8>>),
    /// Clients may come in.
    Opened,
    /// Nobody may.
    Shut,
    /// The gateway leads the log from here on.
    Led,
    /// What the gateway has decided is in the log, up to a position.
    Kept(u64),
}

/// A keeper's talk.
#[derive(Drop)]
pub struct Talk {
    /// The allocator of what it makes.
    alloc: Global,
    /// The bytes that came last.
    bytes: Vec<u8>,
    /// How many of them were heard.
    passed: usize,
    /// How many lines were heard.
    lines: u64,
    /// The log that the gateway follows, if it follows one.
    log: Option<Log>,
    /// Whether the keeper has begun it, or gone on with it.
    follows: bool,
    /// Whether the gateway leads it.
    leads: bool,
    /// The texts of the step that is under way.
    texts: Vec<Vec<u8>>,
    /// The bytes of their lines.
    size: usize,
}

impl Model for Talk {
    ghost use Rattle.std.specs.Prelude.{drop, map};
    ghost use Rattle.iv_door.specs.Talk.{Talk};

    ghost Value = { Talk };

    ghost view = { λ t. record {
      unread = drop t.passed t.bytes.items;
      lines = t.lines;
      log = t.log;
      follows = t.follows;
      leads = t.leads;
      texts = map (λ v. v.items) t.texts.items;
      size = t.size;
    } };
}

impl Talk {
    /// One in which nothing was said, to a gateway that follows this log, if it follows one.
    pub fn new(alloc: Global, log: Option<Log>) -> Talk
        ensures { result ≡ at_start log }
    {
        Talk {
            alloc,
            bytes: Vec::new(alloc),
            passed: 0,
            lines: 0,
            log,
            follows: false,
            leads: false,
            texts: Vec::new(alloc),
            size: 0,
        }
    }

    /// The log that the gateway follows.
    pub fn log(&self) -> &Option<Log>
        ensures { result.now ≡ self.now.log }
    {
        &self.log
    }

    /// Whether the keeper has begun a log, or gone on with it.
    pub fn follows(&self) -> bool
        ensures { result ≡ self.now.follows }
    {
        self.follows
    }

    /// Whether the keeper has said that the gateway leads.
    pub fn leads(&self) -> bool
        ensures { result ≡ self.now.leads }
    {
        self.leads
    }

    /// The bytes that were not heard yet.
    fn unread(&self) -> &[u8]
        ensures { result.now ≡ self.now.unread }
    {
        self.bytes.get(self.passed..).unwrap_or(&[])
    }

    /// Takes in bytes that came.
    ///
    /// # Errors
    /// `AllocError` if a growth of memory was refused.
    pub fn take(&mut self, bytes: &[u8]) -> Result<(), AllocError>
        ensures { OnOk result (self.new ≡ record self.old { unread = self.old.unread ++ bytes.now }) }
    {
        let mut all = Vec::from_slice(self.alloc, self.unread())?;
        all.extend_from_slice(bytes)?;
        self.bytes = all;
        self.passed = 0;
        Ok(())
    }
}

// ---- what is said

/// A copy of a log.
fn copied(alloc: Global, log: &Log) -> Result<Log, AllocError>
    ensures { IfOk result (λ l. l ≡ log.now) }
{
    Ok(Log {
        name: Vec::from_slice(alloc, &log.name)?,
        epoch: Vec::from_slice(alloc, &log.epoch)?,
    })
}

/// Whether two logs are one.
fn is_same(a: &Log, b: &Log) -> bool
    ensures { result ≡ is_same a.now b.now }
{
    a.name.as_slice() == b.name.as_slice() && a.epoch.as_slice() == b.epoch.as_slice()
}

impl Talk {
    /// That another log is followed.
    fn other(&self, log: &Log) -> Fault
        ensures { IfSome (fault_of result) (λ f. f ≡ other_log log.now) }
    {
        match copied(self.alloc, log) {
            Ok(log) => Fault::OtherLog(log),
            Err(_) => Fault::Memory,
        }
    }

    /// The keeper begins a log.
    fn begin(&mut self, log: Log) -> Result<Act, Fault>
        ensures says { IfOk result (λ a. spec.says self.old (begins log) ≡ (acts (act_of a), self.new)) }
        ensures fault { IfErr result (λ f. IfSome (fault_of f) (λ g. (spec.says self.old (begins log)).0 ≡ fails g)) }
    {
        if self.follows {
            drop(log);
            return Err(Fault::WrongTime(self.lines));
        }
        match &self.log {
            Some(followed) => {
                drop(log);
                Err(self.other(followed))
            }
            None => {
                self.log = Some(log);
                self.follows = true;
                Ok(Act::Begun)
            }
        }
    }

    /// It goes on with one.
    fn go_on(&mut self, log: Log) -> Result<Act, Fault>
        ensures says { IfOk result (λ a. spec.says self.old (goes_on log) ≡ (acts (act_of a), self.new)) }
        ensures fault { IfErr result (λ f. IfSome (fault_of f) (λ g. (spec.says self.old (goes_on log)).0 ≡ fails g)) }
    {
        if self.follows {
            return Err(Fault::WrongTime(self.lines));
        }
        match &self.log {
            None => Err(Fault::NoLog),
            Some(followed) => {
                if !is_same(followed, &log) {
                    return Err(self.other(followed));
                }
                self.follows = true;
                Ok(Act::GoneOn)
            }
        }
    }

    /// It asks what is held.
    fn recall(&self) -> Result<Act, Fault>
        ensures says { IfOk result (λ a. spec.says self.now recalls ≡ (acts (act_of a), self.now)) }
        ensures fault { IfErr result (λ f. IfSome (fault_of f) (λ g. (spec.says self.now recalls).0 ≡ fails g)) }
    {
        if self.follows {
            return Err(Fault::WrongTime(self.lines));
        }
        match &self.log {
            None => Err(Fault::NoLog),
            Some(_) => Ok(Act::Recall),
        }
    }

    /// Whether a step has room for the line of a text.
    fn has_room(&self, text: &[u8]) -> bool
        ensures { result ≡ has_room self.now text.now }
    {
        match self.size.checked_add(text.len() + 2) {
            None => false,
            Some(size) => self.texts.len() < MOST_LINES && size <= MOST_BYTES,
        }
    }

    /// Whether it brings steps: it does until the gateway leads.
    fn is_bringing(&self) -> bool
        ensures { result ≡ (self.now.follows && not self.now.leads) }
    {
        self.follows && !self.leads
    }

    /// It brings a text.
    fn bring(&mut self, text: Vec<u8>) -> Result<Act, Fault>
        ensures says { IfOk result (λ a. spec.says self.old (brings text.items) ≡ (acts (act_of a), self.new)) }
        ensures fault { IfErr result (λ f. IfSome (fault_of f) (λ g. (spec.says self.old (brings text.items)).0 ≡ fails g)) }
    {
        if !self.is_bringing() {
            return Err(Fault::WrongTime(self.lines));
        }
        if !self.has_room(&text) {
            return Err(Fault::NoRoom);
        }
        self.size += text.len() + 2;
        self.texts.push(text)?;
        Ok(Act::Brought)
    }

    /// It ends a step.
    fn end(&mut self, from: u64, to: u64) -> Result<Act, Fault>
        ensures says { IfOk result (λ a. spec.says self.old (ends from to) ≡ (acts (act_of a), self.new)) }
        ensures fault { IfErr result (λ f. IfSome (fault_of f) (λ g. (spec.says self.old (ends from to)).0 ≡ fails g)) }
    {
        if !self.is_bringing() {
            return Err(Fault::WrongTime(self.lines));
        }
        let mut text = Vec::new(self.alloc);
        push_step(&mut text, to)?;
        self.texts.push(text)?;
        self.size = 0;
        let texts = mem::replace(&mut self.texts, Vec::new(self.alloc));
        Ok(Act::Ended(from, to, texts))
    }

    /// It says an act that is one as it is said.
    fn say(&self, act: Act) -> Result<Act, Fault>
        ensures says { IfOk result (λ a. (a ≡ act) × (self.now.follows ≡ true)) }
        ensures fault { IfErr result (λ f. (f ≡ WrongTime self.now.lines) × (self.now.follows ≡ false)) }
    {
        if self.follows {
            Ok(act)
        } else {
            Err(Fault::WrongTime(self.lines))
        }
    }

    /// It says that the gateway leads.
    fn lead(&mut self) -> Result<Act, Fault>
        ensures says { IfOk result (λ a. spec.says self.old leads ≡ (acts (act_of a), self.new)) }
        ensures fault { IfErr result (λ f. IfSome (fault_of f) (λ g. (spec.says self.old leads).0 ≡ fails g)) }
    {
        if !self.is_bringing() {
            return Err(Fault::WrongTime(self.lines));
        }
        if !self.texts.is_empty() {
            return Err(Fault::WrongTime(self.lines));
        }
        self.leads = true;
        Ok(Act::Led)
    }

    /// It says up to where what was decided is in the log.
    fn keep(&self, position: u64) -> Result<Act, Fault>
        ensures says { IfOk result (λ a. spec.says self.now (keeps position) ≡ (acts (act_of a), self.now)) }
        ensures fault { IfErr result (λ f. IfSome (fault_of f) (λ g. (spec.says self.now (keeps position)).0 ≡ fails g)) }
    {
        if !self.leads {
            return Err(Fault::WrongTime(self.lines));
        }
        Ok(Act::Kept(position))
    }

    /// Does what is said.
    fn heed(&mut self, said: Said) -> Result<Act, Fault>
        ensures says { IfOk result (λ a. spec.says self.old (said_of said) ≡ (acts (act_of a), self.new)) }
        ensures fault { IfErr result (λ f. IfSome (fault_of f) (λ g. (spec.says self.old (said_of said)).0 ≡ fails g)) }
    {
        match said {
            Said::Begin(log) => self.begin(log),
            Said::GoOn(log) => self.go_on(log),
            Said::Recall => self.recall(),
            Said::Bring(text) => self.bring(text),
            Said::End(from, to) => self.end(from, to),
            Said::Open => self.say(Act::Opened),
            Said::Shut => self.say(Act::Shut),
            Said::Lead => self.lead(),
            Said::Keep(position) => self.keep(position),
        }
    }

    // ---- lines

    /// The first line of what is unread, which is passed then, if it has its end.
    fn next_line(&mut self) -> Result<Option<Vec<u8>>, AllocError>
        ensures { IfOk result (λ o. IsPassed self.old (option_map (λ l. l.items) o) self.new) }
    {
        let Some((line, rest)) = cut_at(self.unread(), b'\n') else {
            return Ok(None);
        };
        let Some(lines) = self.lines.checked_add(1) else {
            return Err(AllocError);
        };
        let passed = self.bytes.len().saturating_sub(rest.len());
        let line = Vec::from_slice(self.alloc, line)?;
        self.passed = passed;
        self.lines = lines;
        Ok(Some(line))
    }

    /// Hears what is said by a line.
    fn hear_said(&mut self, line: &[u8], said: Said) -> Result<Act, Fault>
        requires said { IsSaidBy line.now (Some (said_of said)) }
        requires short { length line.now ≤ most_line }
        ensures heard { IfOk result (λ a. HearsLine self.old line.now (acts (act_of a), self.new)) }
        ensures fault { IfErr result (λ f. IsFailingBy (HearsLine self.old line.now) (fault_of f)) }
    {
        match self.heed(said) {
            Ok(act) => Ok(act),
            Err(fault) => Err(fault),
        }
    }

    /// Hears a line.
    fn hear_line(&mut self, line: &[u8]) -> Result<Act, Fault>
        ensures heard { IfOk result (λ a. HearsLine self.old line.now (acts (act_of a), self.new)) }
        ensures fault { IfErr result (λ f. IsFailingBy (HearsLine self.old line.now) (fault_of f)) }
    {
        if line.len() > MOST_LINE {
            return Err(Fault::TooLong(self.lines));
        }
        match read_said(self.alloc, line)? {
            None => Err(Fault::NoLine(self.lines)),
            Some(said) => self.hear_said(line, said),
        }
    }

    /// No line has its end. More may come, if none is too long already.
    fn wait(&self) -> Result<Option<Act>, Fault>
        requires { has_newline self.now.unread ≡ false }
        ensures heard { IfOk result (λ o. Hears self.now (heard_of o, self.now)) }
        ensures fault { IfErr result (λ f. IsFailingBy (Hears self.now) (fault_of f)) }
    {
        if self.unread().len() <= MOST_LINE {
            return Ok(None);
        }
        match self.lines.checked_add(1) {
            None => Err(Fault::Memory),
            Some(line) => Err(Fault::TooLong(line)),
        }
    }

    /// Hears the line that was passed.
    fn hear_passed(&mut self, line: &[u8]) -> Result<Option<Act>, Fault>
        ensures heard { IfOk result (λ o. (t : spec.Talk) → IsPassed t (Some line.now) self.old → Hears t (heard_of o, self.new)) }
        ensures fault { IfErr result (λ f. (t : spec.Talk) → IsPassed t (Some line.now) self.old → IsFailingBy (Hears t) (fault_of f)) }
    {
        match self.hear_line(line) {
            Ok(act) => Ok(Some(act)),
            Err(fault) => Err(fault),
        }
    }

    /// Hears the next line, if its end has come. What it asks.
    ///
    /// # Errors
    /// Why nothing more is to be heard.
    pub fn hear(&mut self) -> Result<Option<Act>, Fault>
        ensures heard { IfOk result (λ o. Hears self.old (heard_of o, self.new)) }
        ensures fault { IfErr result (λ f. IsFailingBy (Hears self.old) (fault_of f)) }
    {
        match self.next_line()? {
            None => self.wait(),
            Some(line) => self.hear_passed(&line),
        }
    }
}
