//! `revoke`: takes privileges on a relation back, and ends the subscriptions that may not be read any more.
//!
//! A revoke shows no row more or less: it ends the subscriptions whose role lacks select on what they need, and takes
//! back what they showed. Each circuit is asked once, not each subscription.
ghost use Rattle.std.specs.Prelude.{string_bytes};
ghost use Rattle.iv_access.specs.Access.{name_given};
ghost use Rattle.iv_machine.specs.Act as machine;
ghost use Rattle.iv_store.specs.Answering.{IsStep};
ghost use Rattle.iv_store.specs.Store.{IsSoundStore};

use iv_access::Privilege;
use iv_command::{Answer, Stop};
use iv_store::Store;

/// Takes privileges on a relation from a role or from PUBLIC, and ends the subscriptions that may not be read any more.
pub fn revoke(
    store: &mut Store,
    session: u32,
    rel: String,
    privileges: &[Privilege],
    grantee: Option<&str>,
) -> Result<Answer, Stop>
    requires { IsSoundStore store.old }
    ensures { IsStep store.old session (machine.revoke (string_bytes rel) privileges.now (name_given grantee.entry)) result store.new }
{
    store.database.revoke(session, rel, privileges, grantee)?;
    let concerned = store.unreadable()?;
    let answer = store.tell_readers(&concerned, false, None)?;
    Ok(answer)
}
