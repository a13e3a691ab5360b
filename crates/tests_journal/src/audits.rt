//! Journals with an audit that are written, read and damaged. Expected bytes were made by another program, with its own SHA-256.
use iv_audit::{
    AuditFault, Share, WriteFault, anew, push_head, push_records, read_audit, read_plain,
};
use iv_journal::{Chain, Line};
use std::alloc::{AllocError, Global};
use std::test::Fail;

/// What a gateway gives its journal: a request, and a step of a request, a name and a position. Each with whether it is the last of its record.
const GIVEN: [(bool, &[u8]); 4] = [
    (true, b"\"as\":\"ann\",\"do\":\"begin\"}"),
    (false, b"\"as\":\"bob\",\"x\":\"\\u0022\"}"),
    (
        false,
        b"\"once\":\"0123456789abcdefABCDEF\",\"at\":\"0.1\"}",
    ),
    (true, b"\"step\":7}"),
];

/// The journal after a head, with notes.
const NOTED: [&[u8]; 5] = [
    b"{\"last\":\"a9a097d6250b50a2decb055b4d6dd8a6c6f09c820b3a2ee99b490eb320c069b7\",\"journal\":1,\"epoch\":\"0123456789abcdef0123456789abcdef\",\"audit\":1}\n",
    b"{\"last\":\"ef0051b743fa7e6c5e1ac70f778c0b13bc3dbe19e97c2971aa3fb8448b4e810a\",\"at\":1764489600,\"by\":\"A\\u0022\\u005c\\u0007\xc3\xb6\",\"as\":\"ann\",\"do\":\"begin\"}\n",
    b"{\"part\":\"9823d6f12a9ee26dd176b9a17607164246e2b653f38bb051625d436dac1d64c0\",\"at\":1764489600,\"by\":\"\",\"as\":\"bob\",\"x\":\"\\u0022\"}\n",
    b"{\"part\":\"709426bdbd266056e9cb45243ab11035499a45be0a039566f2db528c24d78577\",\"once\":\"0123456789abcdefABCDEF\",\"at\":\"0.1\"}\n",
    b"{\"last\":\"fea7da2fec770146982bed35deaafa3ae2502b12b504106d4dfdfca187da02ad\",\"step\":7}\n",
];

/// The same lines without notes.
const PLAIN: [&[u8]; 5] = [
    b"{\"last\":\"a9a097d6250b50a2decb055b4d6dd8a6c6f09c820b3a2ee99b490eb320c069b7\",\"journal\":1,\"epoch\":\"0123456789abcdef0123456789abcdef\",\"audit\":1}\n",
    b"{\"last\":\"62ebb8622beb420c8d5864f8b2f887449bec6fb35a7b82f9ae146c4e3238fd42\",\"as\":\"ann\",\"do\":\"begin\"}\n",
    b"{\"part\":\"09eb875c47214cc2f2320ad143f06e180af555ff4ce680dfe3c5e62c59f9fc8a\",\"as\":\"bob\",\"x\":\"\\u0022\"}\n",
    b"{\"part\":\"76ca727826741c9d3068f466187080d37fd693130f5dfd6843ce41a7991131f2\",\"once\":\"0123456789abcdefABCDEF\",\"at\":\"0.1\"}\n",
    b"{\"last\":\"b587df506e5af3123986034895cd69292aec21b2bce2e039c0dc25ba138540a1\",\"step\":7}\n",
];

/// The digits of the epoch.
const EPOCH: &[u8; 32] = b"0123456789abcdef0123456789abcdef";

/// Lines after one another.
fn joined(alloc: Global, lines: &[&[u8]]) -> Result<Vec<u8>, AllocError> {
    let mut out = Vec::new(alloc);
    for line in lines {
        out.extend_from_slice(line)?;
    }
    Ok(out)
}

/// The first of the lines that a gateway gives.
fn given(alloc: Global, count: usize) -> Result<Vec<Line<'static>>, AllocError> {
    let mut lines = Vec::new(alloc);
    for (is_last, text) in GIVEN.iter().take(count) {
        lines.push(Line {
            is_last: *is_last,
            text: *text,
        })?;
    }
    Ok(lines)
}

/// The journal of what was given, of which the first line is of a holder whose name has each byte that is escaped.
fn noted(alloc: Global) -> Result<Vec<u8>, WriteFault> {
    let mut chain = Chain::new();
    let mut out = Vec::new(alloc);
    push_head(alloc, &mut chain, &mut out, EPOCH)?;
    let holder = String::from_str(alloc, "A\"\\\u{7}\u{f6}")?;
    let mut shares = Vec::new(alloc);
    let share = Share { end: 1, holder };
    if shares.push(share).is_err() {
        return Err(WriteFault::Memory);
    }
    let lines = given(alloc, 4)?;
    push_records(
        alloc,
        &mut chain,
        &mut out,
        Some(1_764_489_600),
        &shares,
        &lines,
    )?;
    Ok(out)
}

/// Whether lines are the first ones of what was given.
fn are_given(lines: &[Line], count: usize) -> bool {
    let mut same = lines.len() == count;
    for at in 0..lines.len() {
        let (is_last, text) = GIVEN[at.min(3)];
        let line = &lines[at];
        same = same && line.is_last == is_last && line.text == text;
    }
    same
}

/// What bytes are read as: how many lines of those that were given, if they are the first of these; where whole records end; and the byte of
/// the damage.
fn read(alloc: Global, bytes: &[u8]) -> (Option<usize>, usize, Option<usize>) {
    match read_audit(alloc, bytes) {
        Ok(audit) => {
            let count = audit.lines.len();
            let is_ours = count == 0 || audit.epoch == Some(EPOCH.as_slice());
            if is_ours && are_given(&audit.lines, count) {
                (Some(count), audit.end.length, None)
            } else {
                (None, audit.end.length, None)
            }
        }
        Err(AuditFault::Damaged(place)) => (None, 0, Some(place)),
        Err(AuditFault::Memory) => (None, 1, None),
    }
}

#[test]
fn lines_are_written_with_who_and_when(rt: HostRuntime) -> Result<(), Fail> {
    let alloc = rt.alloc();
    let wanted = joined(alloc, &NOTED)?;
    let is_written = match noted(alloc) {
        Ok(out) => out == wanted,
        Err(_) => false,
    };
    assert!(rt; is_written, "with notes");
    let plain = joined(alloc, &PLAIN)?;
    let is_renewed = match anew(alloc, EPOCH, &given(alloc, 4)?) {
        Ok(out) => out == plain,
        Err(_) => false,
    };
    assert!(rt; is_renewed, "without notes");
    Ok(())
}

#[test]
fn what_was_given_is_read_again(rt: HostRuntime) -> Result<(), Fail> {
    let alloc = rt.alloc();
    for lines in [NOTED, PLAIN] {
        let bytes = joined(alloc, &lines)?;
        assert_eq!(rt; read(alloc, &bytes), (Some(4), bytes.len(), None), "whole");
        let torn = bytes.get(..bytes.len().saturating_sub(1)).unwrap_or(&[]);
        let kept = lines[0].len().saturating_add(lines[1].len());
        assert_eq!(rt;
            read(alloc, torn),
            (Some(1), kept, None),
            "a step without its last line"
        );
        let headless = bytes.get(lines[0].len()..).unwrap_or(&[]);
        assert_eq!(rt;
            read(alloc, headless),
            (None, 0, Some(0)),
            "without its head"
        );
    }
    Ok(())
}

#[test]
fn a_journal_of_the_form_before_is_read(rt: HostRuntime) -> Result<(), Fail> {
    let alloc = rt.alloc();
    let bytes = b"{\"as\":\"ann\",\"do\":\"begin\"}\n[]\n\n{\"as\"";
    let plain = read_plain(alloc, bytes)?;
    assert_eq!(rt;
        (plain.lines.len(), plain.length),
        (3, 30),
        "lines that have an end"
    );
    assert!(rt;
        are_given(&plain.lines[..plain.lines.len().min(1)], 1),
        "the first one"
    );
    for line in plain.lines.get(1..).unwrap_or(&[]) {
        assert!(rt; line.is_last && line.text.is_empty(), "no object");
    }
    Ok(())
}

#[test]
fn what_is_no_line_is_not_written(rt: HostRuntime) -> Result<(), Fail> {
    let alloc = rt.alloc();
    for text in [
        b"\"at\":7}".as_slice(),
        b"\"as\":\"\0\"}",
        b"\"as\":\"\n\"}",
    ] {
        let mut lines = Vec::new(alloc);
        let line = Line {
            is_last: true,
            text,
        };
        lines.push(line)?;
        let is_refused = match anew(alloc, EPOCH, &lines) {
            Err(WriteFault::NotLines) => true,
            _ => false,
        };
        assert!(rt; is_refused, "a line that is none is written");
    }
    Ok(())
}
