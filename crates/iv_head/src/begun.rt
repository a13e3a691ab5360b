//! `Begun`: what a journal says before its first entry; `push_begun` writes its lines, `read_begun` reads them.
ghost use Rattle.std.specs.Prelude.{◌≡◌, ◌++◌, ◌∷◌, if◌then◌else◌, [], ◌≤◌, IfOk, OnOk, codes, decimal, drop, length, map, option_map, string_bytes};
ghost use Rattle.serde_json.specs.Data.{string};
ghost use Rattle.serde_json.specs.Written.{compact_text};
ghost use Rattle.iv_rows.specs.Options.{if_some};
ghost use Rattle.iv_records.specs.Names.{place_text};
ghost use Rattle.iv_head.specs.Begun as spec;
ghost use Rattle.iv_head.specs.Begun.{begun_in, epoch_in, followed_in, lines_of, log_in, log_text, member_in, place_in, said_log, said_standing};
ghost use Rattle.iv_head.specs.Begun.{standing_in, standing_text, standings_in};

use itoa::Buffer;
use iv_journal::Line;
use iv_message::quoted;
use iv_once::Place;
use iv_records::{OwnedLine, behind, between, count_in, cut_at, cut_quote, push_place, string_in};
use json::Scratch;
use std::alloc::{AllocError, Global};
use std::marker::Model;

/// Where names of a holder stand.
#[derive(Drop)]
pub struct Standing {
    /// Whose they are.
    pub holder: String,
    /// The epoch, and how many names came before those that follow.
    pub at: Place,
}

impl Model for Standing {
    ghost use Rattle.std.specs.Prelude.{string_bytes};
    ghost use Rattle.iv_head.specs.Begun.{Standing};

    ghost Value = { Standing };

    ghost view = { λ s. record { holder = string_bytes s.holder; at = s.at } };
}

/// A log that is followed.
#[derive(Drop)]
pub struct Followed {
    /// Its name.
    pub name: String,
    /// 32 digits that no other beginning of it has.
    pub epoch: String,
    /// Where it stood.
    pub position: u64,
}

impl Model for Followed {
    ghost use Rattle.std.specs.Prelude.{string_bytes};
    ghost use Rattle.iv_head.specs.Begun.{Followed};

    ghost Value = { Followed };

    ghost view = { λ f. record { name = string_bytes f.name; epoch = string_bytes f.epoch; position = f.position } };
}

/// What a journal says before its first entry.
#[derive(Drop)]
pub struct Begun {
    /// The log that is followed, if one is.
    pub log: Option<Followed>,
    /// Where names stand of holders that had some, each once.
    pub standings: Vec<Standing>,
}

impl Model for Begun {
    ghost use Rattle.iv_head.specs.Begun.{Begun};

    ghost Value = { Begun };

    ghost view = { λ b. record { log = b.log; standings = b.standings.items } };
}

// ---- written

/// Appends a key, and a text as JSON has it.
fn push_member(alloc: Global, text: &mut Vec<u8>, key: &[u8], value: &str) -> Result<(), AllocError>
    ensures { OnOk result (text.new.items ≡ text.old.items ++ (key.now ++ compact_text (string value.now))) }
{
    let value = quoted(alloc, value)?;
    text.extend_from_slice(key)?;
    text.extend_from_slice(value.as_bytes())?;
    Ok(())
}

/// Appends where names stand, after whose they are.
fn push_at(text: &mut Vec<u8>, at: &Place) -> Result<(), AllocError>
    ensures { OnOk result (text.new.items ≡ text.old.items ++ (codes ",\"at\":\"" ++ (place_text at.now ++ codes "\"}"))) }
{
    text.extend_from_slice(b",\"at\":\"")?;
    push_place(text, at)?;
    text.extend_from_slice(b"\"}")?;
    Ok(())
}

/// Appends the text of where names stand.
fn push_standing(alloc: Global, text: &mut Vec<u8>, standing: &Standing) -> Result<(), AllocError>
    ensures { OnOk result (text.new.items ≡ text.old.items ++ standing_text standing.now) }
{
    push_member(alloc, text, b"\"holder\":", standing.holder.as_str())?;
    push_at(text, &standing.at)?;
    Ok(())
}

/// Appends a position.
fn push_position(text: &mut Vec<u8>, position: u64) -> Result<(), AllocError>
    ensures { OnOk result (text.new.items ≡ text.old.items ++ (codes "\",\"step\":" ++ (decimal position ++ codes "}"))) }
{
    text.extend_from_slice(b"\",\"step\":")?;
    text.extend_from_slice(Buffer::new().format(position).as_bytes())?;
    text.push(b'}')?;
    Ok(())
}

/// Appends where a log stood, after its name.
fn push_stood(text: &mut Vec<u8>, log: &Followed) -> Result<(), AllocError>
    ensures { OnOk result (text.new.items ≡ text.old.items
        ++ (codes ",\"epoch\":\"" ++ (log.now.epoch ++ (codes "\",\"step\":" ++ (decimal log.now.position ++ codes "}"))))) }
{
    text.extend_from_slice(b",\"epoch\":\"")?;
    text.extend_from_slice(log.epoch.as_bytes())?;
    push_position(text, log.position)?;
    Ok(())
}

/// Appends the text of a log.
fn push_log(alloc: Global, text: &mut Vec<u8>, log: &Followed) -> Result<(), AllocError>
    ensures { OnOk result (text.new.items ≡ text.old.items ++ log_text log.now) }
{
    push_member(alloc, text, b"\"log\":", log.name.as_str())?;
    push_stood(text, log)?;
    Ok(())
}

/// Appends the line of where names stand.
fn push_standing_line(
    alloc: Global,
    lines: &mut Vec<OwnedLine>,
    standing: &Standing,
) -> Result<(), AllocError>
    ensures { OnOk result (lines.new.items ≡ lines.old.items ++ spec.line (standing_text standing.now) ∷ []) }
{
    let mut text = Vec::new(alloc);
    push_standing(alloc, &mut text, standing)?;
    lines.push(OwnedLine {
        is_last: true,
        text,
    })?;
    Ok(())
}

/// Appends the lines of where names stand.
fn push_standings(
    alloc: Global,
    lines: &mut Vec<OwnedLine>,
    standings: &[Standing],
) -> Result<(), AllocError>
    ensures { OnOk result (lines.new.items ≡ lines.old.items ++ map (λ s. spec.line (standing_text s)) standings.now) }
{
    for standing in standings {
        push_standing_line(alloc, lines, standing)?;
    }
    Ok(())
}

/// Appends the line of a log.
fn push_log_line(
    alloc: Global,
    lines: &mut Vec<OwnedLine>,
    log: &Followed,
) -> Result<(), AllocError>
    ensures { OnOk result (lines.new.items ≡ lines.old.items ++ spec.line (log_text log.now) ∷ []) }
{
    let mut text = Vec::new(alloc);
    push_log(alloc, &mut text, log)?;
    lines.push(OwnedLine {
        is_last: true,
        text,
    })?;
    Ok(())
}

/// Appends the line of a log, if one is followed.
fn push_log_lines(
    alloc: Global,
    lines: &mut Vec<OwnedLine>,
    log: &Option<Followed>,
) -> Result<(), AllocError>
    ensures { OnOk result (lines.new.items ≡ lines.old.items ++ if_some log.now [] (λ f. spec.line (log_text f) ∷ [])) }
{
    match log {
        None => Ok(()),
        Some(log) => push_log_line(alloc, lines, log),
    }
}

/// Appends the lines of what a journal says before its first entry.
///
/// # Errors
/// `AllocError` if a growth of memory was refused.
pub fn push_begun(
    alloc: Global,
    lines: &mut Vec<OwnedLine>,
    begun: &Begun,
) -> Result<(), AllocError>
    ensures { OnOk result (lines.new.items ≡ lines.old.items ++ lines_of begun.now) }
{
    push_log_lines(alloc, lines, &begun.log)?;
    push_standings(alloc, lines, &begun.standings)?;
    Ok(())
}

// ---- read

/// The epoch that a text is, of 32 digits, if it is one.
///
/// # Errors
/// `AllocError` if a growth of memory was refused.
pub fn epoch_in(alloc: Global, text: &[u8]) -> Result<Option<String>, AllocError>
    ensures { IfOk result (λ o. option_map string_bytes o ≡ epoch_in text.now) }
{
    match iv_records::epoch_in(text) {
        None => Ok(None),
        Some(epoch) => Ok(Some(String::from_str(alloc, epoch)?)),
    }
}

/// The place of a text `EPOCH.COUNT`.
fn place_in(alloc: Global, text: &[u8], scratch: &mut Scratch) -> Result<Option<Place>, AllocError>
    ensures { IfOk result (λ o. o ≡ place_in text.now) }
{
    let Some((epoch, digits)) = cut_at(text, b'.') else {
        return Ok(None);
    };
    let Some(epoch) = epoch_in(alloc, epoch)? else {
        return Ok(None);
    };
    let Some(count) = count_in(alloc, digits, scratch)? else {
        return Ok(None);
    };
    Ok(Some(Place { epoch, count }))
}

/// What a member of a text says between quotation marks, and what follows these.
fn member_in<'a>(text: &'a [u8], key: &[u8]) -> Option<(&'a [u8], &'a [u8])>
    ensures { option_map (λ p. (p.0.now, p.1.now)) result ≡ member_in key.now text.now }
{
    cut_quote(behind(text, key)?)
}

/// Where names stand that a text says.
fn said_standing(
    alloc: Global,
    text: &[u8],
    scratch: &mut Scratch,
) -> Result<Option<Standing>, AllocError>
    ensures { IfOk result (λ o. o ≡ said_standing text.now) }
{
    let Some((holder, rest)) = member_in(text, b"\"holder\":\"") else {
        return Ok(None);
    };
    let Some((place, _)) = between(rest, b",\"at\":\"", b'"') else {
        return Ok(None);
    };
    let Some(at) = place_in(alloc, place, scratch)? else {
        return Ok(None);
    };
    match string_in(alloc, holder, scratch)? {
        None => Ok(None),
        Some(holder) => Ok(Some(Standing { holder, at })),
    }
}

/// Where names stand, if a text says that as it is written.
fn standing_in(
    alloc: Global,
    text: &[u8],
    scratch: &mut Scratch,
) -> Result<Option<Standing>, AllocError>
    ensures { IfOk result (λ o. o ≡ standing_in text.now) }
{
    let Some(standing) = said_standing(alloc, text, scratch)? else {
        return Ok(None);
    };
    let mut again = Vec::new(alloc);
    push_standing(alloc, &mut again, &standing)?;
    if again.as_slice() == text {
        Ok(Some(standing))
    } else {
        Ok(None)
    }
}

/// The log that a text says.
fn said_log(
    alloc: Global,
    text: &[u8],
    scratch: &mut Scratch,
) -> Result<Option<Followed>, AllocError>
    ensures { IfOk result (λ o. o ≡ said_log text.now) }
{
    let Some((name, rest)) = member_in(text, b"\"log\":\"") else {
        return Ok(None);
    };
    let Some((epoch, rest)) = between(rest, b",\"epoch\":\"", b'"') else {
        return Ok(None);
    };
    let Some((digits, _)) = between(rest, b",\"step\":", b'}') else {
        return Ok(None);
    };
    let Some(epoch) = epoch_in(alloc, epoch)? else {
        return Ok(None);
    };
    let Some(position) = count_in(alloc, digits, scratch)? else {
        return Ok(None);
    };
    match string_in(alloc, name, scratch)? {
        None => Ok(None),
        Some(name) => Ok(Some(Followed {
            name,
            epoch,
            position,
        })),
    }
}

/// The log, if a text says one as it is written.
fn followed_in(
    alloc: Global,
    text: &[u8],
    scratch: &mut Scratch,
) -> Result<Option<Followed>, AllocError>
    ensures { IfOk result (λ o. o ≡ followed_in text.now) }
{
    let Some(log) = said_log(alloc, text, scratch)? else {
        return Ok(None);
    };
    let mut again = Vec::new(alloc);
    push_log(alloc, &mut again, &log)?;
    if again.as_slice() == text {
        Ok(Some(log))
    } else {
        Ok(None)
    }
}

/// Where names stand that the first lines say, as far as they do.
fn standings_in(
    alloc: Global,
    lines: &[Line],
    scratch: &mut Scratch,
) -> Result<Vec<Standing>, AllocError>
    ensures { IfOk result (λ out. out.items ≡ standings_in lines.now) }
{
    let mut out = Vec::new(alloc);
    for line in lines {
        if !line.is_last {
            return Ok(out);
        }
        let Some(standing) = standing_in(alloc, line.text, scratch)? else {
            return Ok(out);
        };
        out.push(standing)?;
    }
    Ok(out)
}

/// The log that the first line says, if it does.
fn log_in(
    alloc: Global,
    lines: &[Line],
    scratch: &mut Scratch,
) -> Result<Option<Followed>, AllocError>
    ensures { IfOk result (λ o. o ≡ log_in lines.now) }
{
    let Some(line) = lines.first() else {
        return Ok(None);
    };
    if line.is_last {
        followed_in(alloc, line.text, scratch)
    } else {
        Ok(None)
    }
}

/// The lines after that of the log, if there is one.
fn behind_log<'l, 'a>(lines: &'l [Line<'a>], has_log: bool) -> &'l [Line<'a>]
    ensures { result.now ≡ (if has_log then drop 1 lines.now else lines.now) }
{
    if has_log && !lines.is_empty() {
        return &lines[1..];
    }
    lines
}

/// What a journal's lines after its head say before its first entry, and how many of them say it.
///
/// # Errors
/// `AllocError` if a growth of memory was refused.
pub fn read_begun(
    alloc: Global,
    lines: &[Line],
    scratch: &mut Scratch,
) -> Result<(Begun, usize), AllocError>
    ensures within { IfOk result (λ p. p.1 ≤ length lines.now) }
    ensures read { IfOk result (λ p. (p.0, drop p.1 lines.now) ≡ begun_in lines.now) }
{
    let log = log_in(alloc, lines, scratch)?;
    let has_log = log.is_some();
    let standings = standings_in(alloc, behind_log(lines, has_log), scratch)?;
    let count = usize::from(has_log) + standings.len();
    Ok((Begun { log, standings }, count))
}
