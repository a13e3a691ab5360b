//! Requests with names: each is carried out once, over crashes, compaction and copies, though a holder's last names alone are kept.
//!
//! A gateway asks `verdict` with the holder of the client's token (a role and a user) before its machine. On `Carry` it asks the machine, and one
//! record of its journal has the request, the name and place, the digest and the answer; then it calls `push`. On `Ahead` a record gives the
//! holder the epoch that was drawn, and it calls `renew`. Whatever it tells waits for the journal, the first answer again too. A client is told its
//! holder's `epoch` and `count` as it comes, and with each answer to a name.
//!
//! At its start the gateway calls `new`, or goes by the first record of its journal: `new`, and of each holder there `begin`, and `push` of the
//! entries that are kept, the oldest first. Then it goes through the journal by `push` and `renew`, and calls `forgive`. Compaction goes through it in
//! the same way, and writes of each holder that it met its epoch, its `count` less the entries that are kept, and these (`entry`). A copy from
//! which a gateway is restored is written so too, with one new epoch in place of all.
//!
//! Names of 128 random bits, places written as EPOCH.COUNT, and how long an answer may be are the gateway's to see to: it bounds the memory by
//! `Limits` with that length.
//!
//! Who follows a journal may tell `Again`, and hands on all else: the order of the journal decides. A request that is ahead waits there.
#![tactic(auto)]

mod asks;
pub mod laws;
mod names;
mod owns;

pub use asks::{Ask, Named, Place, Verdict};
pub use names::{LIMITS, Limits, Names};
