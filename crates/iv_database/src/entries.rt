//! `placed`: the entries of a write at the numbers of their tables, and whether their rows have the right kinds.
//!
//! Each name is looked up once; all that comes after goes by number. `place` takes no memory, so it answers a bare `Refusal`, and
//! its caller makes the stop.
ghost use Rattle.std.specs.Prelude.{◌≡◌, ◌+◌, ◌<◌, IfOk, IfErr, IfSome, OnOk, None, Some, is_some, length};
ghost use Rattle.std.specs.List.{AllByRecursion, list_all};
ghost use Rattle.iv_bind.specs.Catalogs.{named, schema_of};
ghost use Rattle.iv_machine.specs.State.{name_of, rel_of, table_columns};
ghost use Rattle.iv_rows.specs.Columns.{accepts, kinds_of};
ghost use Rattle.iv_machine.specs.Refusing.{entry_shape, rows_in};
ghost use Rattle.iv_command.specs.Entries.{op_of};
ghost use Rattle.iv_database.specs.Database.{IsDatabase, frame_of};
ghost use Rattle.iv_database.specs.Placed.{IsPlaced, entry_of};
ghost use Rattle.iv_database.specs.Resolving.{AreEntries};
ghost use Rattle.iv_command.specs.Views.{refusal_of};

use crate::database::Database;
use iv_command::{Entry, Op, Refusal, Stop};
use iv_rows::{RelId, Schema};
use std::marker::Model;

/// An entry at the number of its table.
#[derive(Drop)]
pub(crate) struct Placement {
    pub rel: RelId,
    pub name: String,
    pub op: Op,
    pub copies: i64,
}

impl Model for Placement {
    ghost use Rattle.std.specs.Prelude.{string_bytes};
    ghost use Rattle.iv_command.specs.Entries.{copies_of, op_of};
    ghost use Rattle.iv_database.specs.Placed.{Placed};

    ghost Value = { Placed };

    ghost view = { λ p. record { rel = p.rel.0; name = string_bytes p.name; op = op_of p.op; copies = copies_of p.copies } };
}

/// Whether the rows of an entry have the number and the kinds of the columns.
fn accepts(schema: &Schema, op: &Op) -> bool
    ensures { result ≡ list_all (accepts (kinds_of schema.now)) (rows_in (op_of op.now)) }
{
    match op {
        Op::Insert(new) => schema.accepts(new),
        Op::Delete(old) => schema.accepts(old),
        Op::Update(old, new) => schema.accepts(old) && schema.accepts(new),
    }
}

impl Database {
    /// The relation that a write's entry names. If the entry before names it, it is not looked up again.
    fn relation_behind(&self, placed: &[Placement], name: &str) -> Option<RelId>
        requires stored { IsDatabase self.now }
        requires placed { AllByRecursion (IsPlaced (frame_of self.now)) placed.now }
        ensures known { is_some result ≡ is_some (named (frame_of self.now).catalog name.now) }
        ensures number { IfSome result (λ rel. rel_of (frame_of self.now).catalog name.now ≡ rel.0) }
        ensures name { IfSome result (λ rel. name_of (frame_of self.now).catalog rel.0 ≡ name.now) }
        ensures columns { IfSome result (λ rel. table_columns self.now.catalog name.now ≡ schema_of self.now.catalog rel.0) }
    {
        if let Some(last) = placed.last() {
            if last.name.as_str() == name {
                return Some(last.rel);
            }
        }
        self.relation(name)
    }

    /// The next entry at the number of its table, or the test that fails. Entries count from 1.
    fn place(&self, placed: &[Placement], entry: Entry) -> Result<Placement, Refusal>
        requires stored { IsDatabase self.now }
        requires placed { AllByRecursion (IsPlaced (frame_of self.now)) placed.now }
        ensures ok { OnOk result (entry_shape (frame_of self.now) (length placed.now + 1) entry ≡ None) }
        ensures entry { IfOk result (λ p. entry ≡ entry_of p) }
        ensures placed { IfOk result (λ p. IsPlaced (frame_of self.now) p) }
        ensures refused { IfErr result (λ r. entry_shape (frame_of self.now) (length placed.now + 1) entry ≡ Some (refusal_of r)) }
    {
        let Entry {
            rel: name,
            op,
            copies,
        } = entry;
        let Some(rel) = self.relation_behind(placed, name.as_str()) else {
            drop(op);
            return Err(Refusal::UnknownRelation);
        };
        let Some(schema) = self.catalog.schema(rel) else {
            drop(op);
            return Err(Refusal::NotATable);
        };
        if !accepts(schema, &op) {
            drop(op);
            return Err(Refusal::BadRow {
                entry: placed.len() + 1,
            });
        }
        Ok(Placement {
            rel,
            name,
            op,
            copies,
        })
    }

    /// The entries at the numbers of their tables.
    ///
    /// # Errors
    /// `Refused` with the first whose table or rows fail; `Memory` if a growth of memory was refused.
    pub(crate) fn placed(&self, entries: Vec<Entry>) -> Result<Vec<Placement>, Stop>
        requires { IsDatabase self.now }
        ensures { AreEntries (frame_of self.now) entries.items result }
    {
        let mut placed: Vec<Placement> = Vec::with_capacity(self.alloc, entries.len())?;
        for entry in entries {
            match self.place(&placed, entry) {
                Ok(placement) => placed.push(placement)?,
                Err(refusal) => return Err(Stop::Refused(refusal)),
            }
        }
        Ok(placed)
    }
}
