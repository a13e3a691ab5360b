//! Laws of lines and answers as bytes, and cases computed from them.
//! Each is the contract of a function that does nothing.
ghost use Rattle.std.specs.Prelude.{◌≡◌, ◌≢◌, ◌≤◌, ◌<◌, ◌∷◌, ◌++◌, [], ℕ, List, All, length, codes, pos, negsuc};
ghost use Rattle.iv_machine.specs.Act as machine;
ghost use Rattle.iv_request.specs.Worked.{notes, first_row};
ghost use Rattle.iv_lines.specs.Cut.{cut, endless, last_line, line_room, whole};
ghost use Rattle.iv_lines.specs.Texts.{fault_text, line_text};
ghost use Rattle.iv_lines.specs.Worked.{refused_text, unexpected_line, missing_line, permissive_line, restrictive_line, update_refused_line, bad_policy_line, limit_line};
ghost use Rattle.iv_access.specs.declared.privilege.Privilege.TheVariants as privilege;
ghost use Rattle.iv_query.specs.declared.fault.Why.TheVariants as reading;
ghost use Rattle.iv_bind.specs.declared.fault.BindWhy.TheVariants as binding;
ghost use Rattle.iv_bind.specs.BoundTexts.{Reading, Binding};
ghost use Rattle.iv_access.specs.declared.policy.Check.TheVariants as check;
ghost use Rattle.iv_machine.specs.declared.Cause.TheVariants as cause;

/// A line of at most 65,536 bytes is cut again if a newline is after it, or nothing; a longer one has no end.
pub fn lines_are_cut()
    ensures line { (line rest : List ℕ) → All (λ b. b ≢ 10) line → length line < line_room → cut (line ++ 10 ∷ rest) ≡ whole line rest }
    ensures last { (line : List ℕ) → All (λ b. b ≢ 10) line → length line < line_room → cut line ≡ last_line line }
    ensures too_long { (line rest : List ℕ) → All (λ b. b ≢ 10) line → line_room ≤ length line → cut (line ++ rest) ≡ endless }
{}

/// The lines of the worked example `first_change`, last lines, refusals, and what lines are answered that are no request.
pub fn lines_are_written()
    ensures done { line_text (machine.reply 1 machine.done) ≡ codes "{\"ok\":true,\"session\":1}\n" }
    ensures subscribed { line_text (machine.reply 2 (machine.subscribed 1)) ≡ codes "{\"ok\":true,\"session\":2,\"sub\":1}\n" }
    ensures change { line_text (machine.change 2 1 ((first_row, pos 1) ∷ [])) ≡ codes "{\"changes\":[[1,[1,\"ann\"]]],\"session\":2,\"sub\":1}\n" }
    ensures ended { line_text (machine.ended 2 1 cause.Privilege []) ≡ codes "{\"changes\":[],\"ended\":\"privilege\",\"session\":2,\"sub\":1}\n" }
    ensures no_session { refused_text 9 machine.no_session ≡ codes "{\"error\":3,\"session\":9}\n" }
    ensures limit { line_text (machine.ended 2 1 cause.Limit ((first_row, negsuc 0) ∷ [])) ≡ limit_line }
    ensures not_a_table { refused_text 1 machine.not_a_table ≡ codes "{\"error\":8,\"session\":1}\n" }
    ensures bad_row { refused_text 1 (machine.bad_row 1) ≡ codes "{\"entry\":1,\"error\":9,\"session\":1}\n" }
    ensures bad_query { refused_text 1 (machine.bad_query 11 (Reading reading.Unexpected)) ≡ unexpected_line }
    ensures privilege { refused_text 2 (machine.missing_privilege privilege.Insert notes) ≡ missing_line }
    ensures permissive { refused_text 2 (machine.no_permissive notes check.Insert 1) ≡ permissive_line }
    ensures restrictive { refused_text 2 (machine.restrictive_failed (codes "b_pos") notes check.UpdateNew 1) ≡ restrictive_line }
    ensures update_old { refused_text 2 (machine.no_permissive notes check.UpdateOld 2) ≡ update_refused_line }
    ensures no_such_row { refused_text 1 (machine.no_such_row 3) ≡ codes "{\"entry\":3,\"error\":16,\"session\":1}\n" }
    ensures unknown_policy { refused_text 1 machine.unknown_policy ≡ codes "{\"error\":18,\"session\":1}\n" }
    ensures unknown_subscription { refused_text 2 machine.unknown_subscription ≡ codes "{\"error\":19,\"session\":2}\n" }
    ensures bad_policy { refused_text 1 (machine.bad_query 0 (Binding binding.UnknownColumn)) ≡ bad_policy_line }
    ensures membership_loop { refused_text 1 machine.membership_loop ≡ codes "{\"error\":23,\"session\":1}\n" }
    ensures fault { fault_text 22 ≡ codes "{\"error\":22}\n" }
{}
