//! Tests of steps: what readers are told of facts that are taken at once, and which fact is refused.
ghost use Rattle.std.specs.Prelude.{◌≡◌};
ghost use Rattle.std.specs.List.{list_all};
ghost use Rattle.iv_steps.specs.Steps.{is_well_fact};

use crate::commands::{texts, told};
use iv_command::{Line, Reply};
use iv_embedded::{read_line, well_fact};
use iv_engine::{Engine, Fact, StepFault};
use std::alloc::{AllocError, Global};
use std::test::Fail;

/// `ann` reads `notes` and a view of it, `bob` the notes that are his, and their sum.
const BEFORE: &str = r#"{"do":"begin","role":"admin","session":1}
{"do":"create_role","name":"ann","session":1}
{"do":"create_role","name":"bob","session":1}
{"do":"create_table","name":"notes","owner":"admin","columns":[["id","int"],["who","text"]],"session":1}
{"do":"create_view","name":"ids","owner":"admin","query":"select id from notes","session":1}
{"do":"grant","on":"notes","privileges":["select"],"to":"ann","session":1}
{"do":"grant","on":"notes","privileges":["select"],"to":"bob","session":1}
{"do":"create_view","name":"sums","owner":"admin","query":"select who, sum(id) as s, count(*) as n from notes group by who","session":1}
{"do":"grant","on":"ids","privileges":["select"],"to":"ann","session":1}
{"do":"grant","on":"sums","privileges":["select"],"to":"bob","session":1}
{"do":"create_policy","on":"notes","name":"every","to":["ann"],"using":"true","session":1}
{"do":"create_policy","on":"notes","name":"own","to":["bob"],"using":"who = current_user","session":1}
{"do":"row_security","on":"notes","enable":true,"force":false,"session":1}
{"do":"write","entries":[{"on":"notes","insert":[1,"ann"]}],"session":1}
{"do":"begin","role":"ann","session":2}
{"do":"begin","role":"bob","session":3}
{"do":"subscribe","on":"notes","session":2}
{"do":"subscribe","on":"ids","session":2}
{"do":"subscribe","on":"notes","session":3}
{"do":"subscribe","on":"sums","session":3}
"#;

/// Has the engine answer all requests.
fn ask_all(alloc: Global, engine: &mut Engine) {
    for line in BEFORE.lines() {
        drop(told(alloc, engine, line));
    }
}

/// Whether all facts keep the rules on shape.
fn are_well(facts: &[Fact]) -> bool
    ensures { result ≡ list_all is_well_fact facts.now }
{
    for fact in facts {
        if !well_fact(fact) {
            return false;
        }
    }
    true
}

/// The facts of lines, each with its role in front.
fn facts_of(alloc: Global, lines: &str) -> Result<Vec<Fact>, Fail> {
    let mut facts = Vec::new(alloc);
    for line in lines.lines() {
        let Some((role, text)) = line.split_once(' ') else {
            return Err(Fail::new("a line without a role"));
        };
        match read_line(alloc, text.as_bytes()) {
            Ok(command) => facts.push(Fact {
                role: String::from_str(alloc, role)?,
                act: command.act,
            })?,
            Err(_) => return Err(Fail::new("a line that is no request")),
        }
    }
    Ok(facts)
}

/// What is told of a step: its lines, or the place of the fact that is refused with the refusal as a line.
fn said(alloc: Global, told: Result<Vec<Line>, StepFault>) -> Result<Vec<u8>, AllocError> {
    match told {
        Ok(lines) => texts(alloc, &lines),
        Err(StepFault::Refused { fact, refusal }) => {
            let mut lines = Vec::new(alloc);
            lines.push(Line::Reply {
                session: 1,
                reply: Reply::Refused(refusal),
            })?;
            let mut text = format!(in alloc; "{fact} ")?.into_bytes();
            text.extend_from_slice(&texts(alloc, &lines)?)?;
            Ok(text)
        }
        Err(StepFault::Failed) => format!(in alloc; "failed\n").map(|text| text.into_bytes()),
        Err(StepFault::Memory) => Err(AllocError),
    }
}

/// What a step tells, if its facts keep the rules on shape.
fn stepped(alloc: Global, engine: &mut Engine, lines: &str) -> Result<Vec<u8>, Fail> {
    let facts = facts_of(alloc, lines)?;
    if !are_well(&facts) {
        return Err(Fail::new("a fact that breaks the rules on shape"));
    }
    let told = engine.step(facts);
    Ok(said(alloc, told)?)
}

/// What steps tell one after the other.
fn all_stepped(alloc: Global, engine: &mut Engine, steps: &[&str]) -> Result<Vec<u8>, Fail> {
    let mut text = Vec::new(alloc);
    for lines in steps {
        text.extend_from_slice(&stepped(alloc, engine, lines)?)?;
        text.extend_from_slice(b"--\n")?;
    }
    Ok(text)
}

/// What steps tell of an engine with the readers.
fn stepped_anew(alloc: Global, steps: &[&str]) -> Result<Vec<u8>, Fail> {
    let mut engine = Engine::new(alloc, 1_024)?;
    ask_all(alloc, &mut engine);
    let text = all_stepped(alloc, &mut engine, steps);
    drop(engine);
    text
}

/// Two rows are added and one is deleted; another is added and deleted.
const WRITES: &str =
    r#"admin {"do":"write","entries":[{"on":"notes","insert":[2,"bob"]},{"on":"notes","insert":[3,"ann"]}],"session":1}
admin {"do":"write","entries":[{"on":"notes","delete":[1,"ann"]},{"on":"notes","insert":[9,"bob"]}],"session":1}
admin {"do":"write","entries":[{"on":"notes","delete":[9,"bob"]}],"session":1}"#;

/// A right is taken and given again.
const TAKEN_AND_GIVEN: &str =
    r#"admin {"do":"revoke","on":"notes","privileges":["select"],"to":"ann","session":1}
admin {"do":"grant","on":"notes","privileges":["select"],"to":"ann","session":1}"#;

/// A row makes the sum of `bob` too large.
const BEYOND: &str =
    r#"admin {"do":"write","entries":[{"on":"notes","insert":[9223372036854775807,"bob"]}],"session":1}"#;

/// A row is added, the right of `ann` is revoked, and the policy of `bob` dropped.
const TAKEN: &str =
    r#"admin {"do":"write","entries":[{"on":"notes","insert":[4,"bob"]}],"session":1}
admin {"do":"revoke","on":"notes","privileges":["select"],"to":"ann","session":1}
admin {"do":"drop_policy","on":"notes","name":"own","session":1}"#;

/// What is told of these steps, one after the other: worked out by hand.
const TOLD: &str = r#"{"changes":[[-1,[1,"ann"]],[1,[2,"bob"]],[1,[3,"ann"]]],"session":2,"sub":1}
{"changes":[[-1,[1]],[1,[2]],[1,[3]]],"session":2,"sub":2}
{"changes":[[1,[2,"bob"]]],"session":3,"sub":3}
{"changes":[[1,["bob",2,1]]],"session":3,"sub":4}
--
--
{"changes":[[1,[9223372036854775807,"bob"]]],"session":2,"sub":1}
{"changes":[[1,[9223372036854775807]]],"session":2,"sub":2}
{"changes":[[1,[9223372036854775807,"bob"]]],"session":3,"sub":3}
{"changes":[[-1,["bob",2,1]]],"ended":"limit","session":3,"sub":4}
--
{"changes":[[-1,[2,"bob"]],[-1,[3,"ann"]],[-1,[9223372036854775807,"bob"]]],"ended":"privilege","session":2,"sub":1}
{"changes":[[-1,[2]],[-1,[3]],[-1,[9223372036854775807]]],"ended":"privilege","session":2,"sub":2}
{"changes":[[-1,[2,"bob"]],[-1,[9223372036854775807,"bob"]]],"session":3,"sub":3}
--
"#;

/// A fact of a role that may not do it, after one that is accepted.
const WITHOUT_RIGHT: &str =
    r#"admin {"do":"write","entries":[{"on":"notes","insert":[5,"bob"]}],"session":1}
bob {"do":"write","entries":[{"on":"notes","insert":[6,"bob"]}],"session":1}"#;

/// What is told of such a step, and of one after it.
const REFUSED: &str = r#"2 {"error":13,"on":"notes","privilege":"insert","session":1}
--
failed
--
"#;

#[test]
fn steps_are_told_once(rt: HostRuntime) -> Result<(), Fail> {
    let told = stepped_anew(rt.alloc(), &[WRITES, TAKEN_AND_GIVEN, BEYOND, TAKEN])?;
    assert_eq!(rt; str::from_utf8(&told), Ok(TOLD));
    Ok(())
}

#[test]
fn a_refused_fact_ends_the_engine(rt: HostRuntime) -> Result<(), Fail> {
    let told = stepped_anew(rt.alloc(), &[WITHOUT_RIGHT, WRITES])?;
    assert_eq!(rt; str::from_utf8(&told), Ok(REFUSED));
    Ok(())
}
