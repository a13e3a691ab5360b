//! Laws of which command a JSON value asks for, and requests worked out.
//! Each is the contract of a function that does nothing.
ghost use Rattle.std.specs.Prelude.{◌≡◌, ℕ, List, ◌∷◌, [], codes, Some, None, IfSome, true, false};
ghost use Rattle.iv_machine.specs.Act as machine;
ghost use Rattle.iv_machine.specs.Well.{is_well_command};
ghost use Rattle.iv_access.specs.declared.privilege.Privilege.TheVariants as privilege;
ghost use Rattle.iv_request.specs.Asked.{command_data, is_small_act};
ghost use Rattle.iv_request.specs.Order.{HaveTheSame, IsReordered};
ghost use Rattle.iv_request.specs.Reading.{reading_of, value_of};
ghost use Rattle.iv_request.specs.Request.{request};
ghost use Rattle.iv_request.specs.Worked.{IsAsked, IsNotAsked, ann, notes, notes_columns, first_row, table_line, grant_line, revoke_line, write_line};
ghost use Rattle.iv_request.specs.Worked.{membership_line, team};
ghost use Rattle.iv_request.specs.Worked.{row_security_line, own_line, own, few_line, few, give_line, give, entry_line, second_row, one_entry, policy_line};
ghost use Rattle.iv_request.specs.Worked.{view_line, view_of, unsubscribe_line};
ghost use Rattle.serde_json.specs.Data.{Data};

/// Each command that keeps the rules of commands, with whole numbers of 64 bits in its rows, is what its JSON value asks
/// for.
pub fn commands_are_asked()
    ensures { (c : machine.Command) → is_well_command c ≡ true → is_small_act c.act ≡ true → request (command_data c) ≡ Some c }
{}

/// The requests of the worked example `first_change` are its commands, and so are those of a revoke and of PUBLIC.
pub fn lines_are_read()
    ensures begin { IsAsked (codes "{\"do\":\"begin\",\"role\":\"admin\",\"session\":1}") 1 (machine.begin (codes "admin")) }
    ensures role { IsAsked (codes "{\"do\":\"create_role\",\"name\":\"ann\",\"session\":1}") 1 (machine.create_role ann) }
    ensures table { IsAsked table_line 1 (machine.create_table notes (codes "admin") notes_columns) }
    ensures grant { IsAsked (grant_line (codes "ann")) 1 (machine.grant notes (privilege.Select ∷ []) (Some ann)) }
    ensures public { IsAsked (grant_line (codes "public")) 1 (machine.grant notes (privilege.Select ∷ []) None) }
    ensures revoke { IsAsked revoke_line 1 (machine.revoke notes (privilege.Select ∷ privilege.Insert ∷ []) (Some ann)) }
    ensures subscribe { IsAsked (codes "{\"do\":\"subscribe\",\"on\":\"notes\",\"session\":2}") 2 (machine.subscribe notes) }
    ensures write { IsAsked write_line 1 (one_entry (machine.insert first_row) 1) }
{}

/// Requests worked out: row security, policies, and entries that remove or replace rows or have many copies.
pub fn policies_are_read()
    ensures row_security { IsAsked row_security_line 1 (machine.row_security notes true false) }
    ensures defaults { IsAsked own_line 1 (machine.create_policy own) }
    ensures restrictive { IsAsked few_line 1 (machine.create_policy few) }
    ensures both_texts { IsAsked give_line 1 (machine.create_policy give) }
    ensures drop { IsAsked (codes "{\"do\":\"drop_policy\",\"on\":\"notes\",\"name\":\"own\",\"session\":1}") 1 (machine.drop_policy notes (codes "own")) }
    ensures delete { IsAsked (entry_line (codes "\"delete\":[1,\"ann\"]")) 1 (one_entry (machine.delete first_row) 1) }
    ensures update { IsAsked (entry_line (codes "\"update\":[[1,\"ann\"],[2,\"ann\"]]")) 1 (one_entry (machine.update first_row second_row) 1) }
    ensures copies { IsAsked (entry_line (codes "\"delete\":[1,\"ann\"],\"copies\":7")) 1 (one_entry (machine.delete first_row) 7) }
{}

/// Requests worked out that make a view, of any text, and that close a subscription and a session.
pub fn views_are_read()
    ensures create_view { IsAsked (view_line (codes "\"select id from notes\"")) 1 (view_of (codes "select id from notes")) }
    ensures any_text { IsAsked (view_line (codes "\"\"")) 1 (view_of []) }
    ensures unsubscribe { IsAsked (unsubscribe_line (codes "1")) 2 (machine.unsubscribe 1) }
    ensures last { IsAsked (unsubscribe_line (codes "9223372036854775807")) 2 (machine.unsubscribe 9223372036854775807) }
    ensures finish { IsAsked (codes "{\"do\":\"finish\",\"session\":2}") 2 machine.finish }
{}

/// Requests worked out that grant a role to a member and revoke it; `admin` may be a member, and has none.
pub fn memberships_are_read()
    ensures grant { IsAsked (membership_line (codes "grant_role") team ann) 1 (machine.grant_role team ann) }
    ensures revoke { IsAsked (membership_line (codes "revoke_role") team ann) 1 (machine.revoke_role team ann) }
    ensures superuser { IsAsked (membership_line (codes "grant_role") team (codes "admin")) 1 (machine.grant_role team (codes "admin")) }
    ensures of_superuser { IsNotAsked (membership_line (codes "grant_role") (codes "admin") ann) }
    ensures no_longer_of_superuser { IsNotAsked (membership_line (codes "revoke_role") (codes "admin") ann) }
    ensures public { IsNotAsked (membership_line (codes "grant_role") team (codes "public")) }
    ensures no_member { IsNotAsked (codes "{\"do\":\"grant_role\",\"role\":\"team\",\"session\":1}") }
{}

/// Values that are no request: a session of 0, a further key, a number of copies that is 0, two things that one entry
/// does, an update of one row, a word that is never a name, policies that lack a text or have one that is not theirs or
/// no grantee, a view whose query is no text, and subscriptions without a number of theirs.
pub fn unshapely_values_are_refused()
    ensures zero { IsNotAsked (codes "{\"do\":\"begin\",\"role\":\"admin\",\"session\":0}") }
    ensures further { IsNotAsked (codes "{\"do\":\"begin\",\"role\":\"admin\",\"session\":1,\"x\":1}") }
    ensures copies { IsNotAsked (entry_line (codes "\"insert\":[1],\"copies\":0")) }
    ensures two { IsNotAsked (entry_line (codes "\"insert\":[1],\"delete\":[1]")) }
    ensures update { IsNotAsked (entry_line (codes "\"update\":[[1]]")) }
    ensures using { IsNotAsked (policy_line (codes "\"command\":\"insert\",\"using\":\"true\",\"check\":\"true\"")) }
    ensures check { IsNotAsked (policy_line (codes "\"command\":\"delete\",\"using\":\"true\",\"check\":\"true\"")) }
    ensures no_text { IsNotAsked (policy_line (codes "\"check\":\"true\"")) }
    ensures no_grantee { IsNotAsked (policy_line (codes "\"using\":\"true\",\"to\":[]")) }
    ensures reserved { IsNotAsked (grant_line (codes "select")) }
    ensures query { IsNotAsked (view_line (codes "7")) }
    ensures no_subscription { IsNotAsked (unsubscribe_line (codes "0")) }
    ensures beyond { IsNotAsked (unsubscribe_line (codes "9223372036854775808")) }
    ensures finish { IsNotAsked (codes "{\"do\":\"finish\",\"session\":1,\"sub\":1}") }
{}

/// The order of keys does not matter: two values in which each key has the same value, or is in neither, are the same
/// request, and so are two that differ in the order of keys alone, also of the keys of the values in them, as of entries.
/// Two lines of such values are read alike. Two lines whose keys are in the reverse of the usual order are worked out.
pub fn keys_stand_in_any_order()
    ensures of_requests { (d e : Data) → HaveTheSame d e → request d ≡ request e }
    ensures of_entries { (d e : Data) → IsReordered d e → request d ≡ request e }
    ensures of_lines { (a b : List ℕ) (d e : Data) → value_of a ≡ Some d → value_of b ≡ Some e → IsReordered d e → reading_of a ≡ reading_of b }
    ensures begin { IsAsked (codes "{\"session\":1,\"role\":\"admin\",\"do\":\"begin\"}") 1 (machine.begin (codes "admin")) }
    ensures write { IsAsked (codes "{\"session\":1,\"entries\":[{\"copies\":7,\"insert\":[1,\"ann\"],\"on\":\"notes\"}],\"do\":\"write\"}") 1 (one_entry (machine.insert first_row) 7) }
{}

/// Each command that a JSON value asks for keeps the rules of commands.
pub fn requests_are_well()
    ensures { (d : Data) → IfSome (request d) (λ c. is_well_command c ≡ true) }
{}
