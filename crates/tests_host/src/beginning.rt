//! `what_came_before_is_read_back`, `other_lines_are_entries`, `names_stand_there`: what a journal says between its head and its first entry.
use iv_head::{Begun, Followed, Standing, epoch_in, names_in, push_begun, read_begun};
use iv_journal::Line;
use iv_once::Place;
use iv_records::OwnedLine;
use json::Scratch;
use std::alloc::{AllocError, Global};
use std::test::Fail;

/// An epoch.
const EPOCH: &str = "0123456789abcdef0123456789abcdef";

/// What is said there, as JSON objects without their first brace.
const LINES: [&[u8]; 3] = [
    b"\"log\":\"orders \\\"1\\\"\",\"epoch\":\"0123456789abcdef0123456789abcdef\",\"step\":18446744073709551615}",
    b"\"holder\":\"mia/Ann \\\"Lee\\\" \\\\ \xc3\xb6\",\"at\":\"0123456789abcdef0123456789abcdef.17\"}",
    b"\"holder\":\"bob/\",\"at\":\"0123456789abcdef0123456789abcdef.0\"}",
];

/// Texts that say nothing of it: an entry, other spellings, a wrong epoch, a wrong number.
const OTHERS: [&[u8]; 8] = [
    b"\"as\":\"mia\",\"do\":\"create_role\",\"name\":\"x\"}",
    b"\"holder\": \"bob/\",\"at\":\"0123456789abcdef0123456789abcdef.0\"}",
    b"\"holder\":\"b\\u006fb/\",\"at\":\"0123456789abcdef0123456789abcdef.0\"}",
    b"\"holder\":\"bob/\",\"at\":\"0123456789ABCDEF0123456789ABCDEF.0\"}",
    b"\"holder\":\"bob/\",\"at\":\"0123456789abcdef0123456789abcdef.00\"}",
    b"\"holder\":\"bob/\",\"at\":\"0123456789abcdef0123456789abcdef.18446744073709551616\"}",
    b"\"holder\":\"bob/\",\"at\":\"0123456789abcdef0123456789abcdef.0\"} ",
    b"",
];

fn place(alloc: Global, count: u64) -> Result<Place, AllocError> {
    Ok(Place {
        epoch: String::from_str(alloc, EPOCH)?,
        count,
    })
}

fn standing(alloc: Global, holder: &str, count: u64) -> Result<Standing, AllocError> {
    Ok(Standing {
        holder: String::from_str(alloc, holder)?,
        at: place(alloc, count)?,
    })
}

/// What the lines say.
fn begun(alloc: Global) -> Result<Begun, AllocError> {
    let mut standings = Vec::new(alloc);
    standings.push(standing(alloc, "mia/Ann \"Lee\" \\ \u{f6}", 17)?)?;
    standings.push(standing(alloc, "bob/", 0)?)?;
    let log = Followed {
        name: String::from_str(alloc, "orders \"1\"")?,
        epoch: String::from_str(alloc, EPOCH)?,
        position: u64::MAX,
    };
    Ok(Begun {
        log: Some(log),
        standings,
    })
}

fn line(text: &[u8]) -> Line<'_> {
    Line {
        is_last: true,
        text,
    }
}

/// How many of the lines say something of it, and whether what they say is written so.
fn read(alloc: Global, texts: &[&'static [u8]]) -> Result<(usize, bool), AllocError> {
    let mut lines = Vec::new(alloc);
    for text in texts {
        lines.push(line(*text))?;
    }
    let (begun, count) = read_begun(alloc, &lines, &mut Scratch::new(alloc))?;
    let mut again: Vec<OwnedLine> = Vec::new(alloc);
    push_begun(alloc, &mut again, &begun)?;
    let mut same = again.len() == count;
    for at in 0..again.len().min(texts.len()) {
        let line = &again[at];
        same = same && line.is_last && line.text.as_slice() == texts[at];
    }
    Ok((count, same))
}

#[test]
fn what_came_before_is_read_back(rt: HostRuntime) -> Result<(), Fail> {
    let alloc = rt.alloc();
    let mut lines = Vec::new(alloc);
    push_begun(alloc, &mut lines, &begun(alloc)?)?;
    assert_eq!(rt; lines.len(), 3, "lines");
    for at in 0..lines.len().min(3) {
        let line = &lines[at];
        assert_eq!(rt; line.text.as_slice(), LINES[at], "line {at}");
    }
    assert_eq!(rt; read(alloc, &LINES)?, (3, true), "read back");
    assert_eq!(rt;
        read(alloc, &[LINES[1], LINES[2], OTHERS[0]])?,
        (2, true),
        "without a log"
    );
    assert_eq!(rt;
        read(alloc, &[OTHERS[0], LINES[1]])?,
        (0, true),
        "behind an entry"
    );
    Ok(())
}

#[test]
fn other_lines_are_entries(rt: HostRuntime) -> Result<(), Fail> {
    for text in OTHERS {
        assert_eq!(rt; read(rt.alloc(), &[LINES[2], text])?, (1, true), "{text:?}");
    }
    Ok(())
}

#[test]
fn names_stand_there(rt: HostRuntime) -> Result<(), Fail> {
    let alloc = rt.alloc();
    let other = "f123456789abcdef0123456789abcdef";
    let names = names_in(alloc, other, &begun(alloc)?.standings)?;
    assert_eq!(rt;
        (names.epoch("bob/"), names.count("bob/")),
        (EPOCH, 0),
        "one that had none"
    );
    let mia = "mia/Ann \"Lee\" \\ \u{f6}";
    assert_eq!(rt;
        (names.epoch(mia), names.count(mia)),
        (EPOCH, 17),
        "one that had some"
    );
    assert_eq!(rt;
        (names.epoch("eve/"), names.count("eve/")),
        (other, 0),
        "another one"
    );
    assert!(rt; epoch_in(alloc, b"0123")?.is_none(), "a short epoch");
    Ok(())
}
