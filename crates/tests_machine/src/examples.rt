//! Worked examples of the machine: commands, with their texts, and their lines. Each is the contract of a function that
//! does nothing.
ghost use Rattle.std.specs.Prelude.{◌≡◌, ℕ, ◌-◌, ◌^◌, true, false, [], ◌∷◌, ◌++◌, map, Some, None};
ghost use Rattle.std.specs.List.{list_all, list_any};
ghost use Rattle.iv_query.specs.declared.fault.Why.TheVariants.{Unexpected};
ghost use Rattle.iv_bind.specs.BoundTexts.{Reading};
ghost use Rattle.iv_access.specs.declared.privilege.Privilege.TheVariants.{Select};
ghost use Rattle.iv_machine.specs.Act.{begin, create_role, create_table, subscribe, bad_query, limit, missing_privilege, name_taken, too_many, unknown_role};
ghost use Rattle.tests_machine.specs.Counts as counts;
ghost use Rattle.tests_machine.specs.OfCopies as copies;
ghost use Rattle.tests_machine.specs.OfGrants as grants;
ghost use Rattle.tests_machine.specs.OfLearning.{RowsAreNews, SubscriptionsAreNews, WithoutAnswer, WithoutBefore, WithoutFrame, WithoutLater};
ghost use Rattle.tests_machine.specs.OfPolicies as policies;
ghost use Rattle.tests_machine.specs.OfRoles as roles;
ghost use Rattle.tests_machine.specs.OfSteps as steps;
ghost use Rattle.tests_machine.specs.OfSoundness.{UnsoundIsLoud, UnsoundLeaves, UnsoundOrder, UnsoundReads, UnsoundSubscribes, UnsoundTells, watched};
ghost use Rattle.tests_machine.specs.OfViews as views;
ghost use Rattle.iv_machine.specs.Refusing.{frame_refusal, refusal};
ghost use Rattle.tests_machine.specs.Shapes as shapes;
ghost use Rattle.iv_machine.specs.Sound.{IsSoundState};
ghost use Rattle.iv_machine.specs.State.{start};
ghost use Rattle.iv_machine.specs.Well.{is_well_act, is_well_command};
ghost use Rattle.tests_machine.specs.Worked.{admin, after_steps, before_first, commands, Computes, first, first_change, least_cap, notes, opened, row_security_then_policy, secured, true_text};

use iv_machine::laws::steps_keep_sound;

/// A reader is sent what is written.
pub fn first_changes()
    ensures opened { Computes (start least_cap) opened }
    ensures first { Computes before_first first_change }
{}

/// Grants, revokes, and what they end.
pub fn grants_compute()
    ensures owners_grant { Computes (start least_cap) grants.owners_grant }
    ensures revoke_takes_back { Computes first grants.revoke_takes_back }
    ensures public_grant_and_revoke { Computes first grants.public_grant_and_revoke }
    ensures owner_revokes_own { Computes first grants.owner_revokes_own }
    ensures owners_have_all_four { Computes first grants.owners_have_all_four }
    ensures select_for_old_rows { Computes first grants.select_for_old_rows }
    ensures ended_with_no_rows { Computes before_first grants.ended_with_no_rows }
    ensures one_of_each_refusal { Computes first grants.one_of_each_refusal }
    ensures unsubscribe_twice { Computes first grants.unsubscribe_twice }
    ensures finished_sessions { Computes first grants.finished_sessions }
    ensures sixteen_subscriptions { Computes first grants.sixteen_subscriptions }
{}

/// Memberships: privileges, policies and ownership by chains of them.
pub fn memberships_compute()
    ensures membership_chain { Computes first roles.membership_chain }
    ensures membership_and_policy { Computes first roles.membership_and_policy }
    ensures membership_loop_and_owner { Computes first roles.membership_loop_and_owner }
    ensures two_chains { Computes first roles.two_chains }
    ensures policy_by_two_steps { Computes first roles.policy_by_two_steps }
    ensures revoke_ends_and_takes { Computes first roles.revoke_ends_and_takes }
    ensures members_keep_their_names { Computes first roles.members_keep_their_names }
    ensures membership_refusals { Computes first roles.membership_refusals }
{}

/// No premise of the law on what a role learns may go: without one of them, ann is told different lines. Each pair of states has
/// the other premises. `answered` is also what a limit tells: her own write is refused for a row that she may not see.
pub fn premises_are_needed()
    ensures frame { WithoutFrame }
    ensures before { WithoutBefore }
    ensures later { WithoutLater }
    ensures answered { WithoutAnswer }
{}

/// Nor may the premise go that states are sound: for each law on lines and refusals that has it, states that are not, and what is
/// told. The frames differ after `crowded` and `watched`, of which the second is sound: so each of two states must be.
pub fn soundness_is_needed()
    ensures told { UnsoundTells }
    ensures later { UnsoundLeaves }
    ensures sound { IsSoundState watched }
    ensures subscribe { UnsoundSubscribes }
    ensures quiet { UnsoundIsLoud }
    ensures readers { UnsoundReads }
    ensures ordered { UnsoundOrder }
{
    steps_keep_sound();
}

/// Without news a role is told nothing but a reply. Rows that it sees are news, and so is a subscription.
pub fn news_is_told()
    ensures rows { RowsAreNews }
    ensures subscription { SubscriptionsAreNews }
{}

/// Row security, policies and checked writes.
pub fn policies_compute()
    ensures row_security_then_policy { Computes first row_security_then_policy }
    ensures restrictive_alone { Computes first policies.restrictive_alone }
    ensures insert_check_refused { Computes secured policies.insert_check_refused }
    ensures restrictive_named_first { Computes (after_steps secured policies.insert_check_refused) policies.restrictive_named_first }
    ensures update_needs_select_on_new { Computes secured policies.update_needs_select_on_new }
    ensures hidden_row_delete { Computes secured policies.hidden_row_delete }
    ensures update_tests { Computes secured policies.update_tests }
    ensures unknown_policy { Computes secured policies.unknown_name }
    ensures policy_swap_same_rows { Computes secured policies.policy_swap_same_rows }
    ensures policy_adds_a_row { Computes secured policies.policy_adds_a_row }
    ensures refused_batch_leaves_nothing { Computes first policies.refused_batch_leaves_nothing }
    ensures owner_and_force { Computes first policies.owner_and_force }
    ensures check_in_place_of_using { Computes secured policies.check_in_place_of_using }
    ensures policies_by_command { Computes first policies.policies_by_command }
    ensures policy_texts { Computes first policies.policy_texts }
    ensures presence_in_batch_order { Computes first policies.presence_in_batch_order }
{}

/// Views.
pub fn views_compute()
    ensures grouped_sums { Computes first views.grouped_sums }
    ensures sum_limits { Computes first views.sum_limits }
    ensures table_limit { Computes (after_steps (start 1) (opened ++ first_change)) views.table_limit }
    ensures query_faults { Computes first views.query_faults }
    ensures join_both_sides_at_once { Computes (views.of_j least_cap) views.join_both_sides_at_once }
    ensures union_and_union_all { Computes views.of_unions views.union_and_union_all }
    ensures except_under_policy { Computes views.of_except views.except_under_policy }
    ensures node_row_limit { Computes (views.of_j 4) views.node_row_limit }
    ensures ended_by_limit { Computes (views.of_j 4) views.ended_by_limit }
{}

/// A reader of a view needs select on all that it reaches, and a view takes no rows.
pub fn views_and_grants_compute()
    ensures reader_needs_every_relation { Computes first grants.reader_needs_every_relation }
    ensures refusals_in_order { Computes first grants.refusals_in_order }
    ensures views_are_not_tables { Computes first grants.views_are_not_tables }
{}

/// There are at most 256 sessions, 256 roles, 64 tables, 64 views, 32 policies of a table, and no subscription is numbered
/// above 2^63 - 1.
pub fn counts_compute()
    ensures session { frame_refusal (counts.sessions 254) 3 (begin admin) ≡ None }
    ensures further_session { frame_refusal (counts.sessions 255) 3 (begin admin) ≡ Some too_many }
    ensures role { frame_refusal (counts.roles 254) 1 (create_role counts.one) ≡ None }
    ensures further_role { frame_refusal (counts.roles 255) 1 (create_role counts.one) ≡ Some too_many }
    ensures table { frame_refusal (counts.tables 63) 1 (create_table counts.two admin []) ≡ None }
    ensures further_table { frame_refusal (counts.tables 64) 1 (create_table counts.two admin []) ≡ Some too_many }
    ensures view { frame_refusal (counts.views 63) 1 (counts.new_view notes counts.good_text) ≡ None }
    ensures further_view { frame_refusal (counts.views 64) 1 (counts.new_view notes counts.good_text) ≡ Some too_many }
    ensures policy { frame_refusal (counts.policies 31) 1 (counts.new_policy counts.one true_text) ≡ None }
    ensures further_policy { frame_refusal (counts.policies 32) 1 (counts.new_policy counts.one true_text) ≡ Some too_many }
    ensures number { frame_refusal (counts.numbers (counts.last_number - 1)) 1 (subscribe counts.one) ≡ None }
    ensures further_number { frame_refusal (counts.numbers counts.last_number) 1 (subscribe counts.one) ≡ Some too_many }
{}

/// Counts are tested after names, privileges and texts, and before the limits of tables.
pub fn counts_come_late()
    ensures role { frame_refusal (counts.sessions 255) 3 (begin counts.stranger) ≡ Some unknown_role }
    ensures role_name { frame_refusal (counts.roles 255) 1 (create_role counts.stranger) ≡ Some name_taken }
    ensures table_name { frame_refusal (counts.tables 64) 1 (create_table counts.one admin []) ≡ Some name_taken }
    ensures view_name { frame_refusal (counts.views 64) 1 (counts.new_view counts.two []) ≡ Some name_taken }
    ensures query { frame_refusal (counts.views 64) 1 (counts.new_view notes []) ≡ Some (bad_query 0 (Reading Unexpected)) }
    ensures policy_name { frame_refusal (counts.policies 32) 1 (counts.new_policy counts.two []) ≡ Some name_taken }
    ensures using { frame_refusal (counts.policies 32) 1 (counts.new_policy counts.one []) ≡ Some (bad_query 0 (Reading Unexpected)) }
    ensures privilege { refusal (counts.over counts.strange_numbers) 1 (subscribe counts.one) ≡ Some (missing_privilege Select counts.one) }
    ensures number { refusal (counts.over (counts.numbers counts.last_number)) 1 (subscribe counts.one) ≡ Some too_many }
    ensures limit { refusal (counts.over (counts.numbers 0)) 1 (subscribe counts.one) ≡ Some limit }
{}

/// Names, lists, texts and numbers that are valid, and such that are not.
pub fn shapes_compute()
    ensures example { list_all is_well_command (commands (opened ++ first_change)) ≡ true }
    ensures good { list_all is_well_act shapes.good ≡ true }
    ensures bad { list_any is_well_act shapes.bad ≡ false }
    ensures first_session { map (λ n. is_well_command (shapes.of_session n)) (0 ∷ 1 ∷ []) ≡ false ∷ true ∷ [] }
    ensures last_session { map (λ n. is_well_command (shapes.of_session n)) ((2 ^ 32 - 1) ∷ 2 ^ 32 ∷ []) ≡ true ∷ false ∷ [] }
{}

/// A row may have 2^63 - 1 copies, a batch may add more that it takes away, and a sum is tested if a view has it.
pub fn many_copies_compute()
    ensures copies_limit { (c : ℕ) → c ≡ 2 ^ 63 - 1 → Computes copies.unread (copies.copies_limit c) }
    ensures sums_limit { (c : ℕ) → c ≡ 2 ^ 62 → Computes copies.summed (copies.sums_limit c) }
    ensures batch { (c : ℕ) → c ≡ 2 ^ 63 - 1 → Computes first (copies.batch c) }
    ensures no_sums { (c : ℕ) → c ≡ 2 ^ 62 → Computes copies.unread (copies.no_sums c) }
{}

/// A step is told by the states before and after it, and is not taken if a fact is refused: the first of these is told.
pub fn steps_compute()
    ensures nothing { steps.Tells [] (Some []) }
    ensures taken_and_given { steps.Tells steps.taken_and_given (Some []) }
    ensures in_and_out { steps.Tells steps.in_and_out (Some []) }
    ensures two_rows { steps.Tells steps.two_rows (Some steps.both_rows) }
    ensures row_then_revoke { steps.Tells steps.row_then_revoke (Some steps.end_of_ann) }
    ensures hidden_row { steps.Tells steps.hidden_row (Some []) }
    ensures without_right { steps.Tells steps.without_right None }
    ensures of_session { steps.Tells steps.of_session None }
    ensures accepted { steps.Refuses steps.two_rows None }
    ensures refused { steps.Refuses steps.without_right steps.second_lacks_insert }
    ensures of_nobody { steps.Refuses steps.of_nobody steps.first_has_no_role }
{}
