//! Journals that are written, cut and damaged. Expected bytes were made by another program, with its own SHA-256.
use iv_journal::{
    Chain, Head, Line, MOST_TEXT, PushFault, Reading, head_in, head_text, read_journal,
};
use std::alloc::{AllocError, Global};
use std::test::Fail;

/// The lines of a journal: a head, a record of one text, and one of a part and a last text.
const LINES: [&[u8]; 4] = [
    b"{\"last\":\"2693bb95ea47664d025642c3a3957e4ca42c5e10c2288bd9e533c91b1b7ac9ca\",\"journal\":1,\"epoch\":\"0123456789abcdef0123456789abcdef\",\"by\":\"a test\"}\n",
    b"{\"last\":\"da83935d9261ef0ad0c56a6ea343540ac50e48c7e9cc35fd84a210916a7c5562\",\"as\":\"ann\",\"do\":\"begin\"}\n",
    b"{\"part\":\"f43c711221601173d7887eb4a802cb78ff8662d353763cab7f4da1f39a89c16c\",\"as\":\"bob\"}\n",
    b"{\"last\":\"ee66a0f761c79f05405128a09f09363c6350d7279c524a4fa2eaed17009874c4\",\n",
];

/// The second line of a journal with the same texts, but for its epoch.
const FOREIGN: &[u8] =
    b"{\"last\":\"2a677fa5cea652d1148091cecf6db64ef04bb7b786f4e4d30d75ba4129ea138a\",\"as\":\"ann\",\"do\":\"begin\"}\n";

/// Their texts, and whether each is the last of its record.
const TEXTS: [(bool, &[u8]); 4] = [
    (
        true,
        b"\"journal\":1,\"epoch\":\"0123456789abcdef0123456789abcdef\",\"by\":\"a test\"}",
    ),
    (true, b"\"as\":\"ann\",\"do\":\"begin\"}"),
    (false, b"\"as\":\"bob\"}"),
    (true, b""),
];

/// Where each line begins, and where the last one ends.
const PLACES: [usize; 5] = [0, 145, 245, 332, 408];

/// Some of the lines after one another.
fn journal(alloc: Global, lines: &[usize]) -> Result<Vec<u8>, AllocError> {
    let mut out = Vec::new(alloc);
    for at in lines {
        if *at < LINES.len() {
            out.extend_from_slice(LINES[*at])?;
        }
    }
    Ok(out)
}

/// How many lines of whole records there are among so many.
fn whole(lines: usize) -> usize {
    if lines == 3 { 2 } else { lines }
}

/// Whether bytes read as so many lines of whole records, and as a fault at that byte.
fn reads(
    alloc: Global,
    bytes: &[u8],
    lines: usize,
    fault: Option<usize>,
) -> Result<bool, AllocError> {
    let read = read_journal(alloc, bytes)?;
    let lines_are = read.lines.len() == lines && read.end.lines == lines;
    let mut length = 0;
    let mut texts_are = true;
    for line in &read.lines {
        length = 76_usize
            .saturating_add(line.text.len())
            .saturating_add(length);
        texts_are = texts_are
            && TEXTS
                .iter()
                .any(|(last, text)| *last == line.is_last && *text == line.text);
    }
    Ok(lines_are && texts_are && read.end.length == length && read.fault == fault)
}

/// The byte at which a line begins.
fn place_of(line: usize) -> usize {
    match PLACES.get(line) {
        Some(place) => *place,
        None => 0,
    }
}

/// The line to which a byte belongs.
fn line_at(byte: usize) -> usize {
    let mut line = 0;
    for at in 1..4 {
        if PLACES[at] <= byte {
            line = at;
        }
    }
    line
}

#[test]
fn journals_are_written(rt: HostRuntime) -> Result<(), Fail> {
    let alloc = rt.alloc();
    let mut chain = Chain::new();
    let mut out = Vec::new(alloc);
    for (is_last, text) in &TEXTS {
        assert!(rt;
            chain
                .push(
                    &mut out,
                    &Line {
                        is_last: *is_last,
                        text
                    }
                )
                .is_ok()
        );
    }
    let wanted = journal(alloc, &[0, 1, 2, 3])?;
    assert_eq!(rt; out.as_slice(), wanted.as_slice());
    Ok(())
}

#[test]
fn what_is_no_text_is_not_written(rt: HostRuntime) -> Result<(), Fail> {
    let alloc = rt.alloc();
    let mut long = Vec::new(alloc);
    for _ in 0..MOST_TEXT {
        long.push(b'a')?;
    }
    let mut chain = Chain::new();
    let mut out = Vec::new(alloc);
    assert!(rt;
        chain
            .push(
                &mut out,
                &Line {
                    is_last: false,
                    text: &long
                }
            )
            .is_ok()
    );
    assert_eq!(rt; out.len(), MOST_TEXT + 76);
    long.push(b'a')?;
    for text in [long.as_slice(), b"a\nb", b"a\0"] {
        let pushed = chain.push(
            &mut out,
            &Line {
                is_last: true,
                text,
            },
        );
        assert!(rt; matches!(pushed, Err(PushFault::NotText)));
    }
    assert_eq!(rt; out.len(), MOST_TEXT + 76);
    Ok(())
}

#[test]
fn journals_are_written_on(rt: HostRuntime) -> Result<(), Fail> {
    let alloc = rt.alloc();
    let all = journal(alloc, &[0, 1, 2, 3])?;
    // cut within the last line, of which the part before it is cut, too
    let mut left = Vec::from_slice(alloc, &all)?;
    left.truncate(PLACES[4] - 1);
    let end = read_journal(alloc, &left)?.end;
    left.truncate(end.length);
    let mut chain = Chain::behind(end.digest);
    for (is_last, text) in &TEXTS[2..] {
        assert!(rt;
            chain
                .push(
                    &mut left,
                    &Line {
                        is_last: *is_last,
                        text
                    }
                )
                .is_ok()
        );
    }
    assert_eq!(rt; left.as_slice(), all.as_slice());
    Ok(())
}

#[test]
fn heads_are_told(rt: HostRuntime) -> Result<(), Fail> {
    let alloc = rt.alloc();
    let text = head_text(
        alloc,
        b"0123456789abcdef0123456789abcdef",
        b"\"by\":\"a test\"}",
    )?;
    assert_eq!(rt; text.as_slice(), TEXTS[0].1);
    let told = matches!(
        head_in(&text),
        Some(Head {
            epoch: b"0123456789abcdef0123456789abcdef",
            more: b"\"by\":\"a test\"}"
        })
    );
    assert!(rt; told);
    assert!(rt; head_in(TEXTS[1].1).is_none());
    // a journal begins with a head
    let mut out = Vec::new(alloc);
    assert!(rt;
        Chain::new()
            .push(
                &mut out,
                &Line {
                    is_last: true,
                    text: TEXTS[1].1
                }
            )
            .is_ok()
    );
    assert_eq!(rt; read_journal(alloc, &out)?.fault, Some(0));
    Ok(())
}

#[test]
fn cuts_leave_whole_records(rt: HostRuntime) -> Result<(), Fail> {
    let alloc = rt.alloc();
    let all = journal(alloc, &[0, 1, 2, 3])?;
    for cut in 0..=all.len() {
        let lines = if cut == all.len() {
            4
        } else {
            whole(line_at(cut))
        };
        assert!(rt; reads(alloc, &all[..cut], lines, None)?);
    }
    Ok(())
}

#[test]
fn changed_bytes_are_told(rt: HostRuntime) -> Result<(), Fail> {
    let alloc = rt.alloc();
    let mut all = journal(alloc, &[0, 1, 2, 3])?;
    for at in 0..all.len() {
        let line = line_at(at);
        let was = all[at];
        for byte in [0, b'\n', b'0', was ^ 1, was ^ 128] {
            all[at] = byte;
            // if the last newline is damaged alone, that line looks as one that is being written
            let told = if at + 1 == all.len() && byte != 0 {
                None
            } else {
                Some(place_of(line))
            };
            let same = byte == was;
            assert!(rt; same || reads(alloc, &all, whole(line), told)?);
        }
        all[at] = was;
    }
    Ok(())
}

#[test]
fn zeros_are_told(rt: HostRuntime) -> Result<(), Fail> {
    let alloc = rt.alloc();
    let mut all = journal(alloc, &[0, 1, 2, 3])?;
    all.push(0)?;
    assert!(rt; reads(alloc, &all, 4, Some(PLACES[4]))?);
    for at in (0..PLACES[4]).rev() {
        if let Some(byte) = all.get_mut(at) {
            *byte = 0;
        }
        let line = line_at(at);
        assert!(rt; reads(alloc, &all, whole(line), Some(place_of(line)))?);
    }
    Ok(())
}

/// Lines of the journal in another order, how many are read, and the byte of the fault.
const ORDERS: [(&[usize], usize, Option<usize>); 9] = [
    // lost
    (&[1, 2, 3], 0, Some(0)),
    (&[0, 2, 3], 1, Some(PLACES[1])),
    (&[0, 1, 3], 2, Some(PLACES[2])),
    // doubled
    (&[0, 0, 1, 2, 3], 1, Some(PLACES[1])),
    (&[0, 1, 1, 2, 3], 2, Some(PLACES[2])),
    (&[0, 1, 2, 2, 3], 2, Some(PLACES[3])),
    (&[0, 1, 2, 3, 3], 4, Some(PLACES[4])),
    // exchanged
    (&[0, 2, 1, 3], 1, Some(PLACES[1])),
    (&[0, 1, 3, 2], 2, Some(PLACES[2])),
];

#[test]
fn other_orders_are_told(rt: HostRuntime) -> Result<(), Fail> {
    let alloc = rt.alloc();
    for (lines, read, fault) in &ORDERS {
        let bytes = journal(alloc, lines)?;
        assert!(rt; reads(alloc, &bytes, *read, *fault)?);
    }
    let mut mixed = journal(alloc, &[0])?;
    mixed.extend_from_slice(FOREIGN)?;
    assert!(rt; reads(alloc, &mixed, 1, Some(PLACES[1]))?);
    Ok(())
}
