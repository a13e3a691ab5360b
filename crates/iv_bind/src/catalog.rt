//! `Catalog`: the tables and views that queries may name, with their columns and plans; adds and finds them.
//!
//! `add_table` and `add_view` ask for a name and a number that are new; `is_new` is the test. `add_view` asks that
//! the plan fits, as what `bind` answers over the same catalog does. `schema` and `view` look for a number from the
//! first relation on; there are at most 128 in the engine.

ghost use Rattle.std.specs.Prelude.{◌≡◌, ◌&&◌, [], None, is_none, option_map, IfSome, OnOk, OnErr};
ghost use Rattle.iv_algebra.specs.Shapes.{scans};
ghost use Rattle.iv_bind.specs.Catalogs.{Table, View, AreAmong, bound_of, named, numbered, schema_of, view_of, extended};
ghost use Rattle.iv_bind.specs.Held.{entry_of, held_of, entries};
ghost use Rattle.iv_bind.specs.Sound.{IsSoundCatalog, HeldIsSound, IsTyped};

use crate::bound::Bound;
use iv_rows::{RelId, Schema};
use std::alloc::{AllocError, Global};
use std::marker::Model;

/// What a relation is.
#[derive(Drop)]
pub(crate) enum Held {
    Table(Schema),
    View(Bound),
}

/// A relation, by its name and its number.
#[derive(Drop)]
pub(crate) struct Relation {
    pub(crate) name: String,
    pub(crate) rel: RelId,
    pub(crate) held: Held,
}

/// The tables and views that queries may name, in the order of adding.
#[derive(Drop)]
pub struct Catalog {
    /// The tables and views, each at the place of its number.
    relations: Vec<Relation>,
}

impl Model for Catalog {
    ghost use Rattle.std.specs.Prelude.{List};
    ghost use Rattle.iv_bind.specs.Catalogs.{CatalogEntry};
    ghost use Rattle.iv_bind.specs.Codes.{entries_code};

    ghost Value = { List CatalogEntry };

    ghost coded = { entries_code };

    ghost use Rattle.iv_bind.specs.Held.{entries};

    ghost view = { λ c. entries c.relations.items };

    ghost use Rattle.iv_bind.specs.Sound.{IsSoundCatalog};

    ghost invariant = { λ c. IsSoundCatalog (entries c.relations.items) };
}

/// The first relation of a catalog that has the name.
fn named<'a>(relations: &'a [Relation], name: &str) -> Option<&'a Relation>
    ensures { option_map (λ r. entry_of r.now) result ≡ named (entries relations.now) name.now }
{
    for relation in relations {
        if name == relation.name.as_str() {
            return Some(relation);
        }
    }
    None
}

/// The first relation of a catalog that has the number.
fn numbered(relations: &[Relation], rel: RelId) -> Option<&Relation>
    ensures { option_map (λ r. entry_of r.now) result ≡ numbered (entries relations.now) rel.0 }
{
    for relation in relations {
        if rel.0 == relation.rel.0 {
            return Some(relation);
        }
    }
    None
}

impl Catalog {
    /// A catalog of nothing. It takes no memory.
    pub fn new(alloc: Global) -> Catalog
        ensures { result ≡ [] }
    {
        Catalog {
            relations: Vec::new(alloc),
        }
    }

    /// What the relations of a catalog keep, for proofs alone.
    pub(crate) fn keeps(&self)
        ensures { IsSoundCatalog self.now }
    {
        let _ = &self.relations;
    }

    /// Adds a relation to the catalog, after the others.
    fn add(&mut self, name: &str, rel: RelId, held: Held) -> Result<(), AllocError>
        requires { HeldIsSound self.old (held_of held) }
        ensures added { OnOk result (self.new ≡ extended self.old name.now rel.0 (held_of held)) }
        ensures unchanged { OnErr result (self.new ≡ self.old) }
    {
        match String::from_str(*self.relations.allocator(), name) {
            Ok(name) => Ok(self.relations.push(Relation { name, rel, held })?),
            Err(error) => {
                drop(held);
                Err(error)
            }
        }
    }

    /// Whether no relation of the catalog has the name, and none the number. It takes no memory.
    pub fn is_new(&self, name: &str, rel: RelId) -> bool
        ensures { result ≡ (is_none (named self.now name.now) && is_none (numbered self.now rel.0)) }
    {
        named(&self.relations, name).is_none() && numbered(&self.relations, rel).is_none()
    }

    /// Adds a table to the catalog, of a new name and number, after the relations that are there.
    ///
    /// # Errors
    /// `AllocError` if a growth of memory was refused; the catalog is unchanged then.
    pub fn add_table(&mut self, name: &str, rel: RelId, schema: Schema) -> Result<(), AllocError>
        requires name { named self.old name.now ≡ None }
        requires number { numbered self.old rel.0 ≡ None }
        ensures added { OnOk result (self.new ≡ extended self.old name.now rel.0 (Table schema)) }
        ensures unchanged { OnErr result (self.new ≡ self.old) }
    {
        let _ = schema.columns();
        self.add(name, rel, Held::Table(schema))
    }

    /// Adds a view to the catalog, of a new name and number, after the relations that are there.
    ///
    /// # Errors
    /// `AllocError` if a growth of memory was refused; the catalog is unchanged then.
    pub fn add_view(&mut self, name: &str, rel: RelId, bound: Bound) -> Result<(), AllocError>
        requires name { named self.old name.now ≡ None }
        requires number { numbered self.old rel.0 ≡ None }
        // Over all tables of the catalog's kinds the plan fits, and its rows have the kinds of the columns.
        requires typed { IsTyped self.old (bound_of bound) }
        requires scanned { AreAmong (scans (bound_of bound).plan) (bound_of bound).needs }
        ensures added { OnOk result (self.new ≡ extended self.old name.now rel.0 (View (bound_of bound))) }
        ensures unchanged { OnErr result (self.new ≡ self.old) }
    {
        let _ = bound.schema.columns();
        self.add(name, rel, Held::View(bound))
    }

    /// The relation of the catalog that has the name.
    pub(crate) fn named(&self, name: &str) -> Option<&Relation>
        ensures { option_map (λ r. entry_of r.now) result ≡ named self.now name.now }
    {
        named(&self.relations, name)
    }

    /// The columns of the catalog's table of a number; none if that is no table's. It takes no memory.
    pub fn schema(&self, rel: RelId) -> Option<&Schema>
        ensures { option_map (λ s. s.now) result ≡ schema_of self.now rel.0 }
    {
        match numbered(&self.relations, rel) {
            Some(relation) => match &relation.held {
                Held::Table(schema) => Some(schema),
                Held::View(_) => None,
            },
            None => None,
        }
    }

    /// The catalog's view of a number, as it was bound; none if that is no view's. It takes no memory.
    pub fn view(&self, rel: RelId) -> Option<&Bound>
        ensures found { option_map (λ b. bound_of b.now) result ≡ view_of self.now rel.0 }
        // Over all tables of the catalog's kinds the plan fits, and its rows have the kinds of the columns.
        ensures typed { IfSome result (λ b. IsTyped self.now (bound_of b.now)) }
        ensures scanned { IfSome result (λ b. AreAmong (scans (bound_of b.now).plan) (bound_of b.now).needs) }
    {
        match numbered(&self.relations, rel) {
            Some(relation) => match &relation.held {
                Held::Table(_) => None,
                Held::View(bound) => Some(bound),
            },
            None => None,
        }
    }
}
