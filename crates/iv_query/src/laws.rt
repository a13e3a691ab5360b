//! Laws of the grammar: each text has one tree or one fault; contracts of functions that do nothing.

ghost use Rattle.std.specs.Prelude.{ℕ, List};
ghost use Rattle.std.specs.Str.{IsUtf8};
ghost use Rattle.iv_query.specs.Texts.{IsPredText, HasPredFault, IsQueryText, HasQueryFault, IsOutcome, HasOneOutcome};
ghost use Rattle.iv_query.specs.TextReading.{read_pred, read_query};

/// What a text is read as from left to right is a tree that the grammar has for it, or a fault that it has by the grammar.
pub fn texts_are_read()
    ensures query { (bs : List ℕ) → IsUtf8 bs → IsOutcome IsQueryText HasQueryFault bs (read_query bs) }
    ensures pred { (bs : List ℕ) → IsUtf8 bs → IsOutcome IsPredText HasPredFault bs (read_pred bs) }
{}

/// Each text is a query with one tree, or has one fault, and not both.
pub fn each_query_text_has_one_outcome()
    ensures { (bs : List ℕ) → IsUtf8 bs → HasOneOutcome IsQueryText HasQueryFault bs }
{}

/// Each text is a policy's predicate with one tree, or has one fault, and not both.
pub fn each_policy_text_has_one_outcome()
    ensures { (bs : List ℕ) → IsUtf8 bs → HasOneOutcome IsPredText HasPredFault bs }
{}
