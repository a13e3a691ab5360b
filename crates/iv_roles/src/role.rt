//! `RoleId`: the number of a role; `ADMIN`, the superuser.
ghost use Rattle.std.specs.Prelude.{◌≡◌};
ghost use Rattle.iv_roles.specs.Roles.{is_admin};

/// The number of a role: its place in the order of creation.
#[derive(Clone, Copy, Debug, PartialEq, Eq, Hash)]
pub struct RoleId(pub u32);

/// The one superuser, the first role.
pub const ADMIN: RoleId = RoleId(0);

impl RoleId {
    /// Whether the role is `admin`.
    pub fn is_admin(self) -> bool
        ensures { result ≡ is_admin self.0 }
    {
        self == ADMIN
    }
}
