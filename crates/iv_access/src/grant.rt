//! `Grant`: a privilege on a relation that was granted; `Grantee`: to whom a grant or a policy goes.
ghost use Rattle.std.specs.Prelude.{◌≡◌};
ghost use Rattle.iv_access.specs.Changing.{grant_eq};
ghost use Rattle.iv_access.specs.Given.{grant_to};
ghost use Rattle.iv_access.specs.Grants.{seen};

use crate::privilege::Privilege;
use iv_roles::RoleId;
use iv_rows::RelId;
use std::marker::Model;

/// To whom a grant or a policy goes.
#[derive(Clone, Copy, PartialEq, Eq)]
pub(crate) enum Grantee {
    /// All roles.
    Public,
    /// One role.
    Role(RoleId),
}

/// A privilege on a relation that was granted.
#[derive(Drop)]
pub(crate) struct Grant {
    pub(crate) grantee: Grantee,
    pub(crate) privilege: Privilege,
    pub(crate) rel: RelId,
}

impl Model for Grant {
    ghost use Rattle.iv_access.specs.Rights.{Grant};
    ghost use Rattle.iv_access.specs.Codes.{grant_code};

    ghost Value = { Grant };

    ghost coded = { grant_code };

    ghost use Rattle.iv_access.specs.Grants.{seen};

    ghost view = { λ g. record { grantee = seen g.grantee; privilege = g.privilege; rel = g.rel.0 } };
}

impl Grant {
    /// Whether it is the grant of the privilege on the relation to the grantee.
    pub(crate) fn is(&self, grantee: Grantee, privilege: Privilege, rel: RelId) -> bool
        ensures { result ≡ grant_eq (grant_to (seen grantee) privilege rel.0) self.now }
    {
        rel == self.rel && privilege == self.privilege && grantee == self.grantee
    }
}
