//! Laws of memberships: which roles a role reaches.
//! Each is the contract of a function that does nothing.
ghost use Rattle.std.specs.Prelude.{ℕ, List};
ghost use Rattle.iv_roles.specs.Laws.{FollowsChains, ReachAlongChains, StaysUnless};
ghost use Rattle.iv_roles.specs.Memberships.{Membership, member_of, with_membership, without_membership};

/// The test whether a role reaches another follows each chain of direct memberships, and nothing else.
pub fn chains_are_followed()
    ensures { FollowsChains }
{}

/// Along a chain of any length each role reaches those before it and none after it.
pub fn chains_may_be_long()
    ensures { ReachAlongChains }
{}

/// A role reaches the same roles after a membership comes or goes, unless it comes to reach its role or ceases to.
pub fn few_reach_others()
    ensures come { (ms : List Membership) (role member : ℕ) → StaysUnless ms (with_membership (member_of role member) ms) role }
    ensures gone { (ms : List Membership) (role member : ℕ) → StaysUnless ms (without_membership (member_of role member) ms) role }
{}
