//! `row_security`, `create_policy`, `drop_policy`: what readers of the table and of views over it are told; rows that a policy hid (`hidden`).
//!
//! A row that comes back when a restrictive policy goes is one of those of which its predicate does not hold. They are found by one pass
//! over the table for all readers, unless the predicate reads the name of the user.
ghost use Rattle.std.specs.Prelude.{◌≡◌, IfOk, IfSome, option_map, true};
ghost use Rattle.std.specs.List.{AllByRecursion};
ghost use Rattle.iv_algebra.specs.Shapes.{condition_of};
ghost use Rattle.iv_machine.specs.Act as machine;
ghost use Rattle.iv_store.specs.Answering.{IsStep};
ghost use Rattle.iv_store.specs.Concerned.{scanning};
ghost use Rattle.iv_store.specs.Store.{IsSoundStore, IsStored};
ghost use Rattle.iv_engine.specs.Restricted.{names_user, IsHidden, IsRestricted};
ghost use Rattle.iv_store.specs.Turned.{AreReadersTold, AreWaiting, IsNarrowed};

use iv_algebra::{Operand, Pred};
use iv_circuit::Hidden;
use iv_command::{Answer, PolicyText, Stop};
use iv_rows::RelId;
use iv_store::Store;
use iv_zset::Meter;
use std::alloc::AllocError;

/// Whether the predicate of a policy that is dropped reads the name of the user.
fn names_user(pred: &Pred) -> bool
    ensures { result ≡ names_user (condition_of pred.now) }
{
    match pred {
        Pred::True => false,
        Pred::False => false,
        Pred::Compare(Operand::User, _, _) => true,
        Pred::Compare(_, _, Operand::User) => true,
        Pred::Compare(_, _, _) => false,
        Pred::And(a, b) => names_user(a) || names_user(b),
        Pred::Or(a, b) => names_user(a) || names_user(b),
        Pred::Not(a) => names_user(a),
    }
}

/// Tells readers of a table and of views over it what they see more and less, once its policies are others; `within` tells whether
/// each may see no other row than those that it saw and the hidden ones.
fn tell_of(
    store: &mut Store,
    table: RelId,
    within: bool,
    hidden: Option<&Hidden>,
) -> Result<Answer, AllocError>
    requires waiting { AreWaiting store.old (scanning store.old table.0) }
    requires within { within ≡ true → AllByRecursion (IsNarrowed store.old (option_map (λ h. h.now) hidden)) store.old.circuits }
    ensures { IfOk result (λ answer. AreReadersTold store.old (scanning store.old table.0) answer store.new) }
{
    let concerned = store.scanning(table)?;
    store.tell_readers(&concerned, within, hidden)
}

/// Switches row security of a table, and tells readers of it and of views over it what they see more and less.
pub fn row_security(
    store: &mut Store,
    session: u32,
    rel: &str,
    enable: bool,
    force: bool,
) -> Result<Answer, Stop>
    requires { IsSoundStore store.old }
    ensures { IsStep store.old session (machine.row_security rel.now enable force) result store.new }
{
    let table = store.database.row_security(session, rel, enable, force)?;
    let answer = tell_of(store, table, false, None)?;
    Ok(answer)
}

/// Adds a policy to a table, and tells readers of it and of views over it what they see more and less: less alone, if it is
/// restrictive.
pub fn create_policy(store: &mut Store, session: u32, policy: PolicyText) -> Result<Answer, Stop>
    requires { IsSoundStore store.old }
    ensures { IsStep store.old session (machine.create_policy policy) result store.new }
{
    let narrows = policy.restrictive;
    let table = store.database.create_policy(session, policy)?;
    let answer = tell_of(store, table, narrows, None)?;
    Ok(answer)
}

/// The predicate of the policy that is to be dropped, if it is restrictive and does not read the user's name.
fn restriction(
    store: &Store,
    session: u32,
    rel: &str,
    name: &str,
) -> Result<Option<Pred>, AllocError>
    requires { IsStored store.now }
    ensures { IfOk result (λ pred. IfSome pred (λ p. IsRestricted store.now rel.now name.now (condition_of p))) }
{
    let table = match store.database.acting_on(session, rel) {
        Ok((_, table)) => table,
        Err(stop) => {
            drop(stop);
            return Ok(None);
        }
    };
    let Some(pred) = store.database.access().restriction(table, name) else {
        return Ok(None);
    };
    if names_user(pred) {
        return Ok(None);
    }
    Ok(Some(pred.copy(store.alloc)?))
}

/// The rows of the table that a dropped policy hid, by its predicate, if there is one.
fn hidden(store: &Store, table: RelId, pred: &Option<Pred>) -> Result<Option<Hidden>, AllocError>
    ensures { IfOk result (λ hidden. IfSome hidden (IsHidden store.now table.0 (option_map condition_of pred.now))) }
{
    let Some(pred) = pred else {
        return Ok(None);
    };
    let tables = store.database.tables();
    let hidden = Hidden::new(store.alloc, table, pred, tables, &mut Meter::new())?;
    Ok(Some(hidden))
}

/// Takes a policy of a table away, and tells readers of it and of views over it what they see more and less: more alone, if it is
/// restrictive.
pub fn drop_policy(store: &mut Store, session: u32, rel: &str, name: &str) -> Result<Answer, Stop>
    requires { IsSoundStore store.old }
    ensures { IsStep store.old session (machine.drop_policy rel.now name.now) result store.new }
{
    let restriction = restriction(store, session, rel, name)?;
    match store.database.drop_policy(session, rel, name) {
        Ok(table) => {
            let hidden = hidden(store, table, &restriction);
            drop(restriction);
            let hidden = hidden?;
            let answer = tell_of(store, table, hidden.is_some(), hidden.as_ref());
            drop(hidden);
            Ok(answer?)
        }
        Err(stop) => {
            drop(restriction);
            Err(stop)
        }
    }
}
