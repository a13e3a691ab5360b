//! `grant_role`, `revoke_role`: which readers a change of memberships concerns, and what they are told.
//!
//! Which readers a membership concerns is one flag for each circuit: a role reaches other roles than before exactly
//! if it comes to reach the membership's role, or ceases to. That is a law of iv_access.
ghost use Rattle.std.specs.Prelude.{◌≡◌, IfOk, length, string_bytes};
ghost use Rattle.iv_machine.specs.Act as machine;
ghost use Rattle.iv_store.specs.Answering.{IsStep};
ghost use Rattle.iv_readers.specs.Flags.{differing};
ghost use Rattle.iv_store.specs.Concerned.{reaching};
ghost use Rattle.iv_store.specs.Store.{IsSoundStore};
ghost use Rattle.iv_store.specs.Turned.{AreReadersTold, AreWaiting};

use iv_access::RoleId;
use iv_command::{Answer, Stop};
use iv_readers::differing;
use iv_store::Store;
use std::alloc::AllocError;

/// Tells readers what they see more and less whose role did not reach the group as it does now: `before` tells of each
/// circuit whether its role reached it.
fn tell_members(
    store: &mut Store,
    group: Option<RoleId>,
    before: &[bool],
) -> Result<Answer, AllocError>
    requires long { length before.now ≡ length store.old.circuits }
    requires waiting { AreWaiting store.old (differing before.now (reaching store.old group)) }
    ensures { IfOk result (λ answer. AreReadersTold store.old (differing before.now (reaching store.old group)) answer store.new) }
{
    let after = store.reaching(group)?;
    let concerned = differing(store.alloc, before, &after)?;
    store.tell_readers(&concerned, false, None)
}

/// Makes the role `to` a member of a role, and tells readers who reach other roles than before what they see
/// more and less.
pub fn grant_role(store: &mut Store, session: u32, role: String, to: &str) -> Result<Answer, Stop>
    requires { IsSoundStore store.old }
    ensures { IsStep store.old session (machine.grant_role (string_bytes role) to.now) result store.new }
{
    let group = store.database.access().role(role.as_str());
    let before = store.reaching(group)?;
    store.database.grant_role(session, role, to)?;
    let answer = tell_members(store, group, &before)?;
    Ok(answer)
}

/// Takes the role `to` out of the direct members of a role, tells readers who reach other roles than before
/// what they see more and less, and ends the subscriptions that may not be read any more.
pub fn revoke_role(store: &mut Store, session: u32, role: String, to: &str) -> Result<Answer, Stop>
    requires { IsSoundStore store.old }
    ensures { IsStep store.old session (machine.revoke_role (string_bytes role) to.now) result store.new }
{
    let group = store.database.access().role(role.as_str());
    let before = store.reaching(group)?;
    store.database.revoke_role(session, role, to)?;
    let answer = tell_members(store, group, &before)?;
    Ok(answer)
}
