//! What a step leaves: its names, which are learned, and the facts that its requests are.
ghost use Rattle.std.specs.Prelude.{◌≡◌, ◌++◌, IfOk, None, OnOk, flat_map, map, option_map};
ghost use Rattle.std.specs.List.{list_all};
ghost use Rattle.iv_command.specs.Views.{act_of};
ghost use Rattle.iv_records.specs.Names.{limits};
ghost use Rattle.iv_once.specs.Names.{is_new};
ghost use Rattle.iv_once.specs.Views.{names_of};
ghost use Rattle.iv_engine.specs.Stepped.{is_write};
ghost use Rattle.iv_gate.specs.Arriving.{fact_of, first_known, not_new};
ghost use Rattle.iv_arrivals.specs.Entering.{all_pushed, shape_in};

use crate::entering::push_shape;
use iv_command::Act;
use iv_engine::Fact;
use iv_once::{Named, Names};
use iv_records::Request;
use std::alloc::{AllocError, Global};

/// Whether an act writes rows, and does nothing else.
fn is_write(act: &Act) -> bool
    ensures { result ≡ is_write (act_of act.now) }
{
    matches!(act, Act::Write { .. })
}

/// Whether requests write rows alone.
pub fn are_writes(requests: &[Request]) -> bool
    ensures { result ≡ list_all (λ q. is_write q.act) requests.now }
{
    requests.iter().all(|request| is_write(&request.act))
}

/// Whether a name that has its answer has none here yet.
fn is_new(known: &Names, name: &Named) -> bool
    ensures { result ≡ is_new (names_of known.now).limits (names_of known.now).known name.now.ask }
{
    known.is_new(&name.ask)
}

/// Learns names that have their answers; or which of them, counted from 1, may have one already.
///
/// # Errors
/// `AllocError` if a growth of memory was refused; so it is of each of these functions.
pub fn learn(known: &mut Names, names: Vec<Named>) -> Result<Option<usize>, AllocError>
    ensures first { IfOk result (λ o. (names_of known.old).limits ≡ limits → first_known 1 names.items (names_of known.old).known ≡ option_map not_new o) }
    ensures learned { IfOk result (λ o. o ≡ None → names_of known.new ≡ all_pushed (names_of known.old) names.items) }
{
    let mut place = 0usize;
    for name in names {
        place += 1;
        if !is_new(known, &name) {
            return Ok(Some(place));
        }
        known.push(name)?;
    }
    Ok(None)
}

/// The facts of requests. What these make of the shape is appended.
pub fn facts_of(
    alloc: Global,
    made: &mut Vec<u8>,
    requests: Vec<Request>,
) -> Result<Vec<Fact>, AllocError>
    ensures facts { IfOk result (λ facts. facts.items ≡ map fact_of requests.items) }
    ensures made { OnOk result (made.new.items ≡ made.old.items ++ flat_map shape_in requests.items) }
{
    let mut facts = Vec::new(alloc);
    for request in requests {
        let Request { role, line, act } = request;
        push_shape(alloc, made, role.as_str(), &line, &act)?;
        let fact = Fact { role, act };
        facts.push(fact)?;
    }
    Ok(facts)
}
