//! Laws of binding, and worked examples: bound queries are sound over a sound catalog.

ghost use Rattle.std.specs.Prelude.{ℕ, List, IfOk};
ghost use Rattle.iv_query.specs.Trees.{QueryTree};
ghost use Rattle.iv_query.specs.Well.{IsWellQuery};
ghost use Rattle.iv_bind.specs.Binding.{bound};
ghost use Rattle.iv_bind.specs.BoundTexts.{bound_query};
ghost use Rattle.iv_bind.specs.Catalogs.{CatalogEntry, Held, extended};
ghost use Rattle.iv_bind.specs.Sound.{IsSoundCatalog, IsSoundView, HeldIsSound, ReadsWell};
ghost use Rattle.iv_bind.specs.Examples.{JoinedTables, GroupedSums, ViewInUnion, UnknownColumn, OneSide, DuplicateName, NoSuchColumn, NoGroup};

/// Worked examples of binding, and of its faults: tables a (k, x) and b (k, y), and notes (id, who).
pub fn examples_are_bound()
    ensures joined_tables { JoinedTables }
    ensures grouped_sums { GroupedSums }
    ensures view_in_union { ViewInUnion }
    ensures unknown_column { UnknownColumn }
    ensures one_side { OneSide }
    ensures duplicate_name { DuplicateName }
    ensures no_such_column { NoSuchColumn }
    ensures no_group { NoGroup }
{}

/// What a query is bound to over a sound catalog is sound: its columns are those of a schema, its plan fits, and the
/// tables that it scans are among its needs.
pub fn bound_queries_are_sound()
    ensures tree { (es : List CatalogEntry) (q : QueryTree) → IsSoundCatalog es → IsWellQuery q → IfOk (bound es q) (λ a. IsSoundView es a) }
    ensures text { (es : List CatalogEntry) (text : List ℕ) → IsSoundCatalog es → ReadsWell text → IfOk (bound_query es text) (λ a. IsSoundView es a) }
{}

/// What is sound over a catalog stays so while relations are added after the others.
pub fn sound_catalogs_grow()
    ensures held { (es : List CatalogEntry) (name : List ℕ) (n : ℕ) (more held : Held) → HeldIsSound es held → HeldIsSound (extended es name n more) held }
    ensures catalog { (es : List CatalogEntry) (name : List ℕ) (n : ℕ) (held : Held) → IsSoundCatalog es → HeldIsSound es held
        → IsSoundCatalog (extended es name n held) }
{}
