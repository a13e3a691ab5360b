//! Laws of rights: what grants give and members hold, that memberships do not loop, and which rows policies let through.
//! Each is the contract of a function that does nothing.
//!
//! That what policies say of a row is the same whatever rows the tables hold needs no law: `check` is given the rights, the
//! role, the table's number, the test and the row, and no table. So it is with each look-up of a privilege.
ghost use Rattle.iv_access.specs.Laws.{GrantsGive, RevokesTake, HeldGrantsChangeNothing, RolesHaveTheirOwn, OwnersHaveAll};
ghost use Rattle.iv_access.specs.Laws.{HasByReach, MembersHold, NoLoops, SeesByReach};
ghost use Rattle.iv_access.specs.Laws.{RowsPassWherePermitted, NothingPassesWithoutPermissive, PoliciesRise, FirstByNameIsTold};
ghost use Rattle.iv_access.specs.Laws.{RestrictiveNarrow, PermissiveWiden, OtherTablesStay};

/// After a grant those are held that were held, and those that it names.
pub fn grants_give_what_they_name()
    ensures { GrantsGive }
{}

/// After a revoke those are held that were held, without those that it names.
pub fn revokes_take_what_they_name()
    ensures { RevokesTake }
{}

/// A grant of privileges that are all held changes nothing.
pub fn held_grants_change_nothing()
    ensures { HeldGrantsChangeNothing }
{}

/// A role has a privilege as `admin`, by a grant to all roles, or by one to a role that it reaches, as itself.
pub fn roles_have_their_own_and_the_public()
    ensures { RolesHaveTheirOwn }
{}

/// What a role holds each role holds that reaches it; what `admin` has as the superuser is not held.
pub fn members_hold_what_roles_hold()
    ensures { MembersHold }
{}

/// Whatever changes led to the rights, no two roles reach each other.
pub fn memberships_do_not_loop()
    ensures { NoLoops }
{}

/// The privileges of a role and the verdict on each row stay as they are if it reaches the same roles.
pub fn reach_decides()
    ensures has { HasByReach }
    ensures sees { SeesByReach }
{}

/// The owner of a new relation has each privilege on it.
pub fn owners_have_all()
    ensures { OwnersHaveAll }
{}

/// A row passes if the role is exempt, or some permissive policy that applies passes it and no restrictive one that
/// applies fails it.
pub fn rows_pass_where_permitted_and_not_forbidden()
    ensures { RowsPassWherePermitted }
{}

/// If no permissive policy applies to a role that is not exempt, no row passes.
pub fn nothing_passes_without_a_permissive_policy()
    ensures { NothingPassesWithoutPermissive }
{}

/// Whatever changes led to the rights, the policies of each table are in the byte order of their names, and no two
/// have one name.
pub fn policies_rise_by_name()
    ensures { PoliciesRise }
{}

/// Of the restrictive policies that fail, a verdict tells the first by name, whatever the order of creation.
pub fn first_by_name_is_told()
    ensures { FirstByNameIsTold }
{}

/// A further restrictive policy lets no more rows through.
pub fn restrictive_policies_narrow()
    ensures { RestrictiveNarrow }
{}

/// A further permissive policy lets no fewer rows through.
pub fn permissive_policies_widen()
    ensures { PermissiveWiden }
{}

/// The policies of a table say nothing of the rows of another.
pub fn other_tables_stay()
    ensures { OtherTablesStay }
{}
