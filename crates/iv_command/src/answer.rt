//! `Answer`: the reply to a request and its lines of changes; `lines_of`: the lines of an answer or of a refusal.
ghost use Rattle.std.specs.Prelude.{◌≡◌, ◌∷◌, [], IfOk, map};
ghost use Rattle.iv_command.specs.Answers.{AreLinesOfAnswer};
ghost use Rattle.iv_command.specs.Views.{line_of};

use crate::command::{Line, Reply};
use crate::stop::Stop;
use std::alloc::{AllocError, Global};

/// The reply to an accepted request, and the lines of changes.
#[derive(Drop)]
pub struct Answer {
    /// The reply, which is no refusal.
    pub reply: Reply,
    /// What readers are sent.
    pub changes: Vec<Line>,
}

/// The lines of an answer, the reply and then the changes; or the one line of a refusal.
///
/// # Errors
/// `AllocError` if a growth of memory was refused, before or now.
pub fn lines_of(
    alloc: Global,
    session: u32,
    answer: Result<Answer, Stop>,
) -> Result<Vec<Line>, AllocError>
    ensures { IfOk result (λ lines. AreLinesOfAnswer session answer (map line_of lines.items)) }
{
    match answer {
        Ok(Answer { reply, mut changes }) => {
            changes.insert(0, Line::Reply { session, reply })?;
            Ok(changes)
        }
        Err(Stop::Refused(refusal)) => {
            let reply = Reply::Refused(refusal);
            one_line(alloc, Line::Reply { session, reply })
        }
        Err(Stop::Memory) => Err(AllocError),
    }
}

/// A list of one line, such as that of a refusal.
fn one_line(alloc: Global, line: Line) -> Result<Vec<Line>, AllocError>
    ensures { IfOk result (λ lines. lines.items ≡ line ∷ []) }
{
    let mut lines = Vec::new(alloc);
    lines.push(line)?;
    Ok(lines)
}
