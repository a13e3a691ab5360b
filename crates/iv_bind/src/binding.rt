//! `bind`: from the tree of a query to its plan over a catalog, and its needs; `bind_pred`: from a policy's to a predicate over rows.
//!
//! The definition is a function from a tree and a catalog to a plan as plain data, by steps that may fail, in the
//! order in which faults are told. A view that is named is in the needs before what it reaches. Its own needs are
//! each once already, and the whole list is cut to first places at the end.

ghost use Rattle.std.specs.Prelude.{◌≡◌, ◌==◌, ◌-◌, ◌≤◌, [], true, Some, nat_le, SomeIff, IfOk};
ghost use Rattle.iv_zset.specs.Bags.{stands};
ghost use Rattle.iv_query.specs.Trees.{query_tree, pred_tree};
ghost use Rattle.iv_query.specs.Well.{IsWellQuery, IsWellPred};
ghost use Rattle.iv_query.specs.declared.tree.Dialect.TheVariants.{Policy};
ghost use Rattle.iv_rows.specs.Columns.{kinds_of};
ghost use Rattle.iv_algebra.specs.Fits.{condition_fits};
ghost use Rattle.iv_bind.specs.Faults.{Gives};
ghost use Rattle.iv_algebra.specs.Shapes.{shape_of, condition_of, nodes, scans};
ghost use Rattle.iv_bind.specs.Catalogs.{AreAmong, numbers, bound_of};
ghost use Rattle.iv_bind.specs.Parts.{part_of};
ghost use Rattle.iv_bind.specs.Sound.{is_schema, IsTyped};
ghost use Rattle.iv_bind.specs.Binding.{once, finished, bound, bound_pred};

use crate::bound::Bound;
use crate::catalog::Catalog;
use crate::fault::{BindFault, BindWhy};
use crate::predicate::pred;
use crate::scope::fault;
use crate::select::{Part, query};
use crate::sources::under;
use iv_algebra::{Plan, Pred};
use iv_query::{PredText, Query};
use iv_rows::{Column, Kind, RelId, Schema};
use std::alloc::{AllocError, Global};

/// How many nodes the plan of a view may have.
const NODES: usize = 256;

/// How many of `left` nodes the plan of a bound query leaves, if it has no more.
fn after_nodes(plan: &Plan, left: usize) -> Option<usize>
    ensures { SomeIff result (nodes (shape_of plan.now) ≤ left) (left - nodes (shape_of plan.now)) }
{
    let left = left.checked_sub(1)?;
    match plan {
        Plan::Scan(_) => Some(left),
        Plan::Filter(_, input) => after_nodes(input, left),
        Plan::Project(_, input) => after_nodes(input, left),
        Plan::Join {
            left: a,
            right: b,
            ..
        } => after_nodes(b, after_nodes(a, left)?),
        Plan::Union(a, b) => after_nodes(b, after_nodes(a, left)?),
        Plan::Distinct(input) => after_nodes(input, left),
        Plan::Except(a, b) => after_nodes(b, after_nodes(a, left)?),
        Plan::Group { input, .. } => after_nodes(input, left),
    }
}

/// Whether the relation is among the needs of a query that are listed so far.
fn stands(list: &[RelId], rel: RelId) -> bool
    ensures { result ≡ stands ◌==◌ rel.0 (numbers list.now) }
{
    for other in list {
        if rel.0 == other.0 {
            return true;
        }
    }
    false
}

/// The needs of a query: each relation that it reaches once, at its first place.
fn once(alloc: Global, reached: &[RelId]) -> Result<Vec<RelId>, AllocError>
    ensures { IfOk result (λ list. numbers list.items ≡ once [] (numbers reached.now)) }
{
    let mut list = Vec::new(alloc);
    for rel in reached {
        if !stands(&list, *rel) {
            list.push(*rel)?;
        }
    }
    Ok(list)
}

/// Whether the plan that a query is bound to has few enough nodes.
fn is_small(plan: &Plan) -> bool
    ensures { result ≡ nat_le (nodes (shape_of plan.now)) 256 }
{
    after_nodes(plan, NODES).is_some()
}

/// What a query is bound to, once its selects are: tests the nodes of its plan, and lists its needs.
#[tactic(auto, unfolding(crate::specs::Binding::finished))]
fn finished(alloc: Global, part: Part) -> Result<Bound, BindFault>
    requires { is_schema part.schema.items ≡ true }
    ensures { Gives bound_of result (finished (part_of part)) }
{
    if !is_small(&part.plan) {
        drop(part);
        return Err(fault(0, BindWhy::TooManyNodes));
    }
    let needs = once(alloc, &part.reached)?;
    Ok(Bound {
        plan: part.plan,
        schema: Schema::new(part.schema),
        needs,
    })
}

/// What a query is bound to over a catalog.
///
/// # Errors
/// `At` with the place and the reason of the first fault, in the order of binding; `Memory` if a growth of memory was
/// refused.
///
/// Source: PostgreSQL 16, SELECT, in the profile of docs/PROTOCOL.md, Queries.
#[tactic(auto, unfolding(crate::specs::Binding::bound))]
pub fn bind(alloc: Global, tree: &Query, catalog: &Catalog) -> Result<Bound, BindFault>
    requires { IsWellQuery (query_tree tree.now) }
    // The answer is the query's over the catalog, and a fault that is told is its first one; unless memory runs out.
    ensures bound { Gives bound_of result (bound catalog.now (query_tree tree.now)) }
    // Over all tables of the catalog's kinds the plan fits, and its rows have the kinds of the columns.
    ensures typed { IfOk result (λ b. IsTyped catalog.now (bound_of b)) }
    // Each table that the plan scans is among the needs.
    ensures scanned { IfOk result (λ b. AreAmong (scans (bound_of b).plan) (bound_of b).needs) }
{
    catalog.keeps();
    let part = query(alloc, catalog, tree)?;
    finished(alloc, part)
}

/// What a policy's predicate is bound to over the columns of its table. The user's name is a text.
///
/// # Errors
/// `At` with the place and the reason of the first fault; `Memory` if a growth of memory was refused.
///
/// Source: PostgreSQL 16, CREATE POLICY, in the profile of docs/PROTOCOL.md, Queries.
#[tactic(auto, unfolding(crate::specs::Binding::bound_pred))]
pub fn bind_pred(alloc: Global, tree: &PredText, schema: &Schema) -> Result<Pred, BindFault>
    requires { IsWellPred Policy (pred_tree tree.now.pred) }
    // The answer is the predicate's over the columns, and a fault that is told is its first one; unless memory runs out.
    ensures bound { Gives condition_of result (bound_pred schema.now (pred_tree tree.now.pred)) }
    // It fits rows of the columns' kinds.
    ensures fits { IfOk result (λ p. condition_fits (Some Kind.Text) (kinds_of schema.now) (condition_of p) ≡ true) }
{
    let scope = under(alloc, "", schema.columns())?;
    pred(alloc, &scope, &tree.pred)
}
