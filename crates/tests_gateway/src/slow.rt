//! Tests of clients that do not read: they are heard no more, and are to go if others bring them more than they take; and of what waits.
use crate::out::Out;
use crate::playing::{Kept, new_gateway};
use iv_gateway::Gateway;
use std::alloc::{AllocError, Global};
use std::test::Fail;

/// What is said first, by client 0.
const FIRST: &str = r#"{"do":"create_role","name":"mia"}
{"do":"create_table","name":"notes","owner":"admin","columns":[["id","int"],["who","text"]]}
{"do":"grant","on":"notes","privileges":["select"],"to":"mia"}"#;

const SUBSCRIBE: &str = r#"{"do":"subscribe","on":"notes"}"#;

const INSERT: &str = r#"{"do":"write","entries":[{"on":"notes","insert":[1,"ann"]}]}"#;

/// Whether a client is let in by a token.
fn is_in(gateway: &mut Gateway, client: u32, token: &str) -> bool {
    matches!(gateway.admit(client, token.as_bytes()), Ok(true))
}

/// Whether a client is heard.
fn is_said(gateway: &mut Gateway, client: u32, text: &str) -> bool {
    matches!(gateway.said(client, text.as_bytes()), Ok(true))
}

/// Whether client 0, the administrator, says all of that.
fn are_said(gateway: &mut Gateway) -> bool {
    for line in FIRST.lines() {
        if !is_said(gateway, 0, line) {
            return false;
        }
    }
    true
}

/// Lets in client 0 and client 1, who subscribes to `notes`, and takes all. Whether all is done.
fn begin(gateway: &mut Gateway, journal: &mut Kept) -> bool {
    let are_in = is_in(gateway, 0, "admin") && are_said(gateway) && is_in(gateway, 1, "mia");
    let is_synced = are_in && is_said(gateway, 1, SUBSCRIBE) && gateway.settle(journal).is_ok();
    drop(gateway.take(0));
    drop(gateway.take(1));
    is_synced
}

/// A gateway at which both are.
fn begun(alloc: Global, journal: &mut Kept) -> Result<Gateway, AllocError> {
    let mut gateway = new_gateway(alloc)?;
    if begin(&mut gateway, journal) {
        Ok(gateway)
    } else {
        drop(gateway);
        Err(AllocError)
    }
}

/// Adds an entry on a row with this number and a text of 1,000 bytes.
fn put_row(text: &mut Out, what: &str, number: usize) {
    text.put("{\"on\":\"notes\",\"");
    text.put(what);
    text.put("\":[");
    text.put_number(number, ",\"");
    for _ in 0..100 {
        text.put("0123456789");
    }
    text.put("\"]}");
}

/// A write of 50 such rows, from number 10 on.
fn long_write(alloc: Global, what: &str) -> Out {
    let mut text = Out::new(alloc);
    text.put("{\"do\":\"write\",\"entries\":[");
    for number in 10..60 {
        if number > 10 {
            text.put(",");
        }
        put_row(&mut text, what, number);
    }
    text.put("]}");
    text
}

/// Client 0 says that, and takes its reply. Whether it is done, and whether client 1 is to go then.
fn is_written(gateway: &mut Gateway, journal: &mut Kept, text: &str) -> (bool, bool) {
    let is_done = is_said(gateway, 0, text) && gateway.settle(journal).is_ok();
    drop(gateway.take(0));
    (is_done, gateway.is_dropped(1))
}

/// Client 0 inserts such rows and deletes them, in turn, and takes its replies, while client 1 takes nothing. After how many syncs client
/// 1 is to go, at most 100.
fn syncs_until_dropped(
    gateway: &mut Gateway,
    journal: &mut Kept,
    inserts: &str,
    deletes: &str,
) -> u32 {
    for count in 0..100 {
        let text = if count % 2 == 0 { inserts } else { deletes };
        let (is_done, is_dropped) = is_written(gateway, journal, text);
        if !is_done || is_dropped {
            return if is_done { count + 1 } else { 0 };
        }
    }
    0
}

fn syncs_anew(alloc: Global) -> Result<u32, AllocError> {
    let inserts = long_write(alloc, "insert");
    let deletes = long_write(alloc, "delete");
    let mut journal = Kept::new(alloc);
    let mut gateway = begun(alloc, &mut journal)?;
    let count = syncs_until_dropped(&mut gateway, &mut journal, inserts.text(), deletes.text());
    drop(gateway);
    Ok(count)
}

/// Client 0 sends the same message again and again. How often it is heard before it takes its replies.
fn heard(gateway: &mut Gateway) -> u32 {
    let mut count: u32 = 0;
    for _ in 0..40 {
        if is_said(gateway, 0, "{}") {
            count = count.saturating_add(1);
        }
    }
    count
}

/// The same, and whether it is heard after that, and not before.
fn heard_again(gateway: &mut Gateway, journal: &mut Kept) -> (u32, bool) {
    let count = heard(gateway);
    let is_synced = gateway.settle(journal).is_ok();
    let before = gateway.is_heard(0);
    drop(gateway.take(0));
    (count, is_synced && !before && gateway.is_heard(0))
}

fn heard_anew(alloc: Global) -> Result<(u32, bool), AllocError> {
    let mut journal = Kept::new(alloc);
    let mut gateway = begun(alloc, &mut journal)?;
    let heard = heard_again(&mut gateway, &mut journal);
    drop(gateway);
    Ok(heard)
}

/// The bytes that are counted as waiting before client 0 says two things, after these, and after a sync.
fn counted(gateway: &mut Gateway, journal: &mut Kept) -> (u64, u64, u64) {
    let before = gateway.waiting();
    let are_said = is_said(gateway, 0, "{}") && is_said(gateway, 0, INSERT);
    let told = gateway.waiting();
    if are_said && gateway.settle(journal).is_ok() {
        (before, told, gateway.waiting())
    } else {
        (1, 0, 1)
    }
}

fn counted_anew(alloc: Global) -> Result<(u64, u64, u64), AllocError> {
    let mut journal = Kept::new(alloc);
    let mut gateway = begun(alloc, &mut journal)?;
    let counts = counted(&mut gateway, &mut journal);
    drop(gateway);
    Ok(counts)
}

/// Of a row that is inserted client 1 is told 1,011 bytes, so of a write 12 + 50 x 1,011 + 49 + 11 and the 17 that this is all: 50,639. Of
/// a row that is deleted it is told one more. The 83 first texts have 42 x 50,639 + 41 x 50,689 bytes, 4,205,087, which are more than
/// 4,194,304, and the 82 first have fewer. So the sync after the 83rd finds that the client does not take them.
#[test]
fn who_does_not_read_is_to_go(rt: HostRuntime) -> Result<(), Fail> {
    assert_eq!(rt; syncs_anew(rt.alloc())?, 84);
    Ok(())
}

#[test]
fn who_asks_much_is_not_heard(rt: HostRuntime) -> Result<(), Fail> {
    assert_eq!(rt; heard_anew(rt.alloc())?, (32, true));
    Ok(())
}

/// Client 0 is told `{"error":2,"key":"do","why":"missing"}` and `{"ok":true}`, which have 38 and 11 bytes, and client 1
/// `{"changes":[[1,[1,"ann"]]],"sub":1}`, which has 35. After each of the three comes a newline, and the 17 bytes of a line that this is all.
#[test]
fn what_waits_is_counted(rt: HostRuntime) -> Result<(), Fail> {
    assert_eq!(rt; counted_anew(rt.alloc())?, (0, 138, 0));
    Ok(())
}
