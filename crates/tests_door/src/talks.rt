//! `talks_are_heard`, `faults_are_told`: what is heard of a keeper's bytes, however these are cut.
use iv_door::{
    Act, Fault, Log, Talk, push_fault, push_hello, push_leads, push_on_disk, push_recalled,
    push_words,
};
use std::alloc::{AllocError, Global};

/// What is said, and what is heard: to a gateway that follows no log, and to one that follows the example.
const NEW: [(&str, &str); 10] = [
    (
        "{\"begin\":\"example\",\"epoch\":\"0123456789abcdef0123456789abcdef\"}
{\"as\":\"admin\",\"do\":\"create_role\",\"name\":\"mia\"}
{\"once\":\"x\"}
{\"from\":0,\"step\":12}
{\"open\":true}
{\"from\":12,\"step\":18446744073709551615}
{\"open\":false}
",
        "begun brought brought ended 0 12 [\"as\":\"admin\",\"do\":\"create_role\",\"name\":\"mia\"}] [\"once\":\"x\"}] [\"step\":12}] opened ended 12 18446744073709551615 [\"step\":18446744073709551615}] shut ",
    ),
    (
        "{\"begin\":\"example\",\"epoch\":\"0123456789abcdef0123456789abcdef\"}
{\"from\":0,\"step\":12}
{\"lead\":true}
{\"kept\":13}
{\"open\":true}
{\"from\":13,\"step\":14}
",
        "begun ended 0 12 [\"step\":12}] led kept 13 opened line 6 comes at the wrong time",
    ),
    (
        "{\"begin\":\"example\",\"epoch\":\"0123456789abcdef0123456789abcdef\"}
{\"lead\":true}
{\"lead\":true}
",
        "begun led line 3 comes at the wrong time",
    ),
    (
        "{\"begin\":\"example\",\"epoch\":\"0123456789abcdef0123456789abcdef\"}
{\"once\":\"x\"}
{\"lead\":true}
",
        "begun brought line 3 comes at the wrong time",
    ),
    (
        "{\"begin\":\"example\",\"epoch\":\"0123456789abcdef0123456789abcdef\"}
{\"kept\":0}
",
        "begun line 2 comes at the wrong time",
    ),
    ("{\"recall\":true}\n", "no log is followed yet: begin one"),
    (
        "{\"go_on\":\"example\",\"epoch\":\"0123456789abcdef0123456789abcdef\"}\n",
        "no log is followed yet: begin one",
    ),
    ("{\"open\":true}\n", "line 1 comes at the wrong time"),
    (
        "{\"from\":0,\"step\":12}\n",
        "line 1 comes at the wrong time",
    ),
    (
        "{\"begin\":\"\",\"epoch\":\"0123456789abcdef0123456789abcdef\"}\n",
        "line 1 is none that a keeper says",
    ),
];

const OLD: [(&str, &str); 12] = [
    (
        "{\"recall\":true}
{\"go_on\":\"example\",\"epoch\":\"0123456789abcdef0123456789abcdef\"}
{\"from\":3,\"step\":4}
",
        "recall gone_on ended 3 4 [\"step\":4}] ",
    ),
    (
        "{\"begin\":\"example\",\"epoch\":\"0123456789abcdef0123456789abcdef\"}\n",
        "the log example of epoch 0123456789abcdef0123456789abcdef is followed here: another one needs a new journal file",
    ),
    (
        "{\"go_on\":\"sample\",\"epoch\":\"0123456789abcdef0123456789abcdef\"}\n",
        "the log example of epoch 0123456789abcdef0123456789abcdef is followed here: another one needs a new journal file",
    ),
    (
        "{\"recall\":true}
{\"go_on\":\"example\",\"epoch\":\"0123456789abcdef0123456789abcdef\"}
{\"recall\":true}
",
        "recall gone_on line 3 comes at the wrong time",
    ),
    (
        "{\"from\":03,\"step\":4}\n",
        "line 1 is none that a keeper says",
    ),
    (
        "{\"from\":3,\"step\":18446744073709551616}\n",
        "line 1 is none that a keeper says",
    ),
    (
        "{\"from\":3,\"step\":+4}\n",
        "line 1 is none that a keeper says",
    ),
    (
        "{\"go_on\":\"example\",\"epoch\":\"0123456789ABCDEF0123456789abcdef\"}\n",
        "line 1 is none that a keeper says",
    ),
    (
        "{\"go_on\":\"exa\\\"mple\",\"epoch\":\"0123456789abcdef0123456789abcdef\"}\n",
        "line 1 is none that a keeper says",
    ),
    ("{\"open\":true} \n", "line 1 is none that a keeper says"),
    ("\n", "line 1 is none that a keeper says"),
    ("{\"open\":true}", ""),
];

/// The example.
fn example(alloc: Global) -> Result<Log, AllocError> {
    Ok(Log {
        name: Vec::from_slice(alloc, b"example")?,
        epoch: Vec::from_slice(alloc, b"0123456789abcdef0123456789abcdef")?,
    })
}

/// Appends where a step begins and ends, and its texts.
fn push_step(
    alloc: Global,
    out: &mut Vec<u8>,
    from: u64,
    to: u64,
    texts: &[Vec<u8>],
) -> Result<(), AllocError> {
    let ended = format!(in alloc; "ended {from} {to} ")?;
    out.extend_from_slice(ended.as_bytes())?;
    for text in texts {
        out.extend_from_slice(b"[")?;
        out.extend_from_slice(text)?;
        out.extend_from_slice(b"] ")?;
    }
    Ok(())
}

/// Appends what is heard by an act.
fn push_act(alloc: Global, out: &mut Vec<u8>, act: &Act) -> Result<(), AllocError> {
    let word = match act {
        Act::Begun => "begun ",
        Act::GoneOn => "gone_on ",
        Act::Recall => "recall ",
        Act::Brought => "brought ",
        Act::Opened => "opened ",
        Act::Shut => "shut ",
        Act::Led => "led ",
        Act::Ended(from, to, texts) => return push_step(alloc, out, *from, *to, texts),
        Act::Kept(position) => {
            let kept = format!(in alloc; "kept {position} ")?;
            out.extend_from_slice(kept.as_bytes())?;
            return Ok(());
        }
    };
    out.extend_from_slice(word.as_bytes())?;
    Ok(())
}

/// Appends what is heard of the lines that have come. Whether there was no fault.
fn push_heard(alloc: Global, out: &mut Vec<u8>, talk: &mut Talk) -> Result<bool, AllocError> {
    for _ in 0..64 {
        match talk.hear() {
            Ok(None) => return Ok(true),
            Ok(Some(act)) => push_act(alloc, out, &act)?,
            Err(fault) => {
                push_words(out, &fault)?;
                return Ok(false);
            }
        }
    }
    Ok(true)
}

/// What is heard of bytes that come in pieces of a size.
fn heard(alloc: Global, log: Option<Log>, said: &[u8], size: usize) -> Result<Vec<u8>, AllocError> {
    let mut talk = Talk::new(alloc, log);
    let mut out = Vec::new(alloc);
    let mut rest = said;
    for _ in 0..said.len() {
        let (piece, more) = rest.split_at(size.min(rest.len()));
        rest = more;
        talk.take(piece)?;
        if !push_heard(alloc, &mut out, &mut talk)? {
            return Ok(out);
        }
    }
    Ok(out)
}

/// Whether it is what is to be heard, in pieces of one byte, of seven, and at once.
fn is_heard(alloc: Global, follows: bool, said: &str, told: &str) -> Result<bool, AllocError> {
    for size in [1, 7, 4096] {
        let log = if follows { Some(example(alloc)?) } else { None };
        let heard = heard(alloc, log, said.as_bytes(), size)?;
        if heard.as_slice() != told.as_bytes() {
            return Ok(false);
        }
    }
    Ok(true)
}

#[test]
fn talks_are_heard(rt: HostRuntime) {
    for (said, told) in NEW {
        assert_eq!(rt; is_heard(rt.alloc(), false, said, told), Ok(true));
    }
    for (said, told) in OLD {
        assert_eq!(rt; is_heard(rt.alloc(), true, said, told), Ok(true));
    }
}

/// A line that is longer than may be, with its end or without.
fn long(alloc: Global, end: &[u8]) -> Result<Vec<u8>, AllocError> {
    let mut line = Vec::new(alloc);
    for _ in 0..130_817 {
        line.push(b'x')?;
    }
    line.extend_from_slice(end)?;
    heard(alloc, None, &line, 65_536)
}

/// What is told of faults that a talk has none of, and the other lines, one after another.
fn told(alloc: Global) -> Result<Vec<u8>, AllocError> {
    let mut out = Vec::new(alloc);
    push_fault(&mut out, &Fault::Gap(14, 13, 12))?;
    push_fault(&mut out, &Fault::NoEntry(2, 14))?;
    push_fault(&mut out, &Fault::NotAccepted(2, 14, 9))?;
    push_fault(&mut out, &Fault::NotNew(1, 14))?;
    push_fault(&mut out, &Fault::NoRoom)?;
    push_hello(&mut out, 65_536, &None, 0)?;
    push_hello(&mut out, 65_536, &Some(example(alloc)?), 12)?;
    push_on_disk(&mut out, 12)?;
    push_recalled(&mut out, 12)?;
    push_fault(&mut out, &Fault::NotDecided(15, 12, 14))?;
    push_leads(&mut out, 12)?;
    Ok(out)
}

const TOLD: &str =
    "{\"fault\":\"step 14 is from 13, and the position is 12\"}{\"fault\":\"line 2 of step 14 is no entry\"}{\"fault\":\"entry 2 of step 14 is refused by 9\"}{\"fault\":\"name 1 of step 14 may have an answer already\"}{\"fault\":\"a step is too long\"}{\"door\":1,\"rows\":65536}{\"door\":1,\"rows\":65536,\"log\":\"example\",\"epoch\":\"0123456789abcdef0123456789abcdef\",\"position\":12}{\"on_disk\":12}{\"recalled\":12}{\"fault\":\"kept 15 is not from 12 to 14\"}{\"leads\":12}";

/// Whether bytes are a text.
fn is(bytes: Result<Vec<u8>, AllocError>, text: &str) -> bool {
    match bytes {
        Ok(bytes) => bytes.as_slice() == text.as_bytes(),
        Err(_) => false,
    }
}

#[test]
fn faults_are_told(rt: HostRuntime) {
    assert!(rt; is(told(rt.alloc()), TOLD));
    assert!(rt; is(long(rt.alloc(), b"\n"), "line 1 is too long"));
    assert!(rt; is(long(rt.alloc(), b""), "line 1 is too long"));
}
