//! Laws of figures. Each is the contract of a function that does nothing.
ghost use Rattle.iv_host.specs.Figures.{RolesAddUp};

/// One client more of a role is one more in all.
pub fn roles_add_up()
    ensures { RolesAddUp }
{}
