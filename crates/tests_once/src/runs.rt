//! `requests_are_carried_out_once`, `old_places_are_told`: what becomes of requests with names, one after another.
use iv_once::{Ask, Limits, Named, Names, Place, Verdict};
use std::alloc::{AllocError, Global};

/// Of each holder two entries are kept, one may be refused, and two may have names.
const FEW: Limits = Limits {
    names: 2,
    refusals: 1,
    holders: 2,
};

/// Requests: a holder, a name, an epoch, a count, a digest; what the machine would say, behind a `-` if it refused; and what is told.
const REPEATED: &str = "ann|a|e|0|1|one|one
ann|a|e|0|1|two|again one
# other bytes, and another place
ann|a|e|0|2|two|101
ann|a|e|1|1|two|101
ann|b|x|1|1|two|103
# a refusal is an answer
ann|b|e|0|1|-no|no
ann|b|e|0|1|two|again no
ann|c|e|2|1|three|104
ann|a|e|0|1|four|again one
bob|a|e|0|1|five|five
# a third holder
cyn|a|e|0|1|six|104";

const OLD: &str = "ann|a|e|0|1|one|one
ann|b|e|1|1|two|two
ann|c|e|2|1|three|three
ann|a|e|0|1|four|102
ann|b|e|1|1|four|again two
ann|d|e|4|1|four|103 new
ann|d|e|3|1|four|103";

/// The new epoch is one that the holder is to blame for.
const BLAMED: &str = "ann|d|new|3|1|five|104";

const FORGIVEN: &str = "ann|d|new|3|1|six|six";

/// A cell of a line, between bars.
fn cell(line: &str, place: usize) -> &str {
    line.split('|').nth(place).unwrap_or("")
}

fn ask(alloc: Global, line: &str) -> Result<Ask, AllocError> {
    let count = cell(line, 3).parse::<u64>().unwrap_or(0);
    let digest = cell(line, 4).parse::<u8>().unwrap_or(0);
    Ok(Ask {
        holder: String::from_str(alloc, cell(line, 0))?,
        name: String::from_str(alloc, cell(line, 1))?,
        at: Place {
            epoch: String::from_str(alloc, cell(line, 2))?,
            count,
        },
        digest: [digest; 32],
    })
}

/// What the machine says, and whether it refuses.
fn said(line: &str) -> (&str, bool) {
    let text = cell(line, 5);
    match text.strip_prefix('-') {
        Some(refusal) => (refusal, true),
        None => (text, false),
    }
}

/// Carries a request out, and tells what the machine says.
fn carried(
    alloc: Global,
    names: &mut Names,
    ask: Ask,
    answer: &str,
    refused: bool,
) -> Result<String, AllocError> {
    let mut bytes = Vec::new(alloc);
    bytes.extend_from_slice(answer.as_bytes())?;
    names.push(Named {
        ask,
        refused,
        answer: bytes,
    })?;
    String::from_str(alloc, answer)
}

/// What a request is told that is not carried out.
fn uncarried(
    alloc: Global,
    names: &mut Names,
    holder: &str,
    verdict: Verdict,
) -> Result<String, AllocError> {
    let word = match verdict {
        Verdict::Again(first) => {
            let first = str::from_utf8(&first).unwrap_or("no text");
            return format!(in alloc; "again {first}");
        }
        Verdict::Ahead => {
            names.renew(holder, "new")?;
            "103 new"
        }
        Verdict::Another => "101",
        Verdict::Late => "102",
        Verdict::Foreign => "103",
        Verdict::Over => "104",
        Verdict::Carry => "",
    };
    String::from_str(alloc, word)
}

/// What the request of the line is told.
fn told(alloc: Global, names: &mut Names, line: &str) -> Result<String, AllocError> {
    let ask = ask(alloc, line)?;
    match names.verdict(&ask)? {
        Verdict::Carry => {
            let (answer, refused) = said(line);
            carried(alloc, names, ask, answer, refused)
        }
        verdict => uncarried(alloc, names, &ask.holder, verdict),
    }
}

/// Whether that is what the line has.
fn is_told(alloc: Global, names: &mut Names, line: &str) -> bool {
    match told(alloc, names, line) {
        Ok(told) => told.as_str() == cell(line, 6),
        Err(_) => false,
    }
}

/// The first line whose request is told otherwise, one after another.
fn first_other(alloc: Global, names: &mut Names, lines: &'static str) -> &'static str {
    for line in lines.lines() {
        if !line.starts_with("# ") && !is_told(alloc, names, line) {
            return line;
        }
    }
    "none"
}

/// The same of the repeated ones, and how many holders have names then.
fn repeated(alloc: Global) -> Result<(&'static str, usize), AllocError> {
    let mut names = Names::new(alloc, FEW, "e")?;
    let other = first_other(alloc, &mut names, REPEATED);
    let holders = names.len();
    drop(names);
    Ok((other, holders))
}

#[test]
fn requests_are_carried_out_once(rt: HostRuntime) {
    assert_eq!(rt; repeated(rt.alloc()), Ok(("none", 2)));
}

/// Whether the holder has the new epoch, and how many entries.
fn place(names: &Names) -> (bool, u64) {
    (names.epoch("ann") == "new", names.count("ann"))
}

/// The first other line of old places, the place of their holder then, and those of the new epoch, before and after refusals are forgiven.
fn old(alloc: Global, names: &mut Names) -> ([&'static str; 3], (bool, u64)) {
    let other = first_other(alloc, names, OLD);
    let place = place(names);
    let blamed = first_other(alloc, names, BLAMED);
    names.forgive();
    ([other, blamed, first_other(alloc, names, FORGIVEN)], place)
}

/// The same of new names.
fn old_anew(alloc: Global) -> Result<([&'static str; 3], (bool, u64)), AllocError> {
    let mut names = Names::new(alloc, FEW, "e")?;
    let seen = old(alloc, &mut names);
    drop(names);
    Ok(seen)
}

#[test]
fn old_places_are_told(rt: HostRuntime) {
    assert_eq!(rt; old_anew(rt.alloc()), Ok((["none"; 3], (true, 3))));
}
