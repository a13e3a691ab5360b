//! `all_sources`: binds the sources of a select and its joins, with what they reach; `filter`: the rows that its predicate lets through.
//!
//! A pair of a join is kept with the earlier side first, in whichever order the text has the two.

ghost use Rattle.std.specs.Prelude.{◌≡◌, ◌++◌, length, map, option_map, IfOk};
ghost use Rattle.iv_query.specs.Trees.{name_tree, source_tree, pair_tree, join_tree, pred_tree};
ghost use Rattle.iv_bind.specs.Faults.{Gives};
ghost use Rattle.iv_algebra.specs.Shapes.{shape_of};
ghost use Rattle.iv_bind.specs.Catalogs.{numbers, columns_of, plan_of, reached_by};
ghost use Rattle.iv_bind.specs.Held.{held_of, entry_of, entries};
ghost use Rattle.iv_bind.specs.Parts.{from_of};
ghost use Rattle.iv_bind.specs.Binding.{called, under, source_of, source_bound, sides, pair_bound, pairs_bound, joined_bound, join_bound, from_bound, filter_bound};

use crate::catalog::{Catalog, Held, Relation};
use crate::copy::copy_plan;
use crate::fault::{BindFault, BindWhy};
use crate::predicate::{is_same, pred};
use crate::scope::{Named, column, fault, is_used};
use iv_algebra::Plan;
use iv_query::{Join, Name, Pair, Pred, Source};
use iv_rows::{Column, RelId, boxed_two};
use std::alloc::{AllocError, Global};

/// A plan, the columns of its rows, and the relations that it reaches.
#[derive(Drop)]
pub(crate) struct From {
    pub(crate) plan: Plan,
    pub(crate) scope: Vec<Named>,
    pub(crate) reached: Vec<RelId>,
}

/// The columns that a source brings to its select, each with the name that the source has there.
pub(crate) fn under(
    alloc: Global,
    source: &str,
    columns: &[Column],
) -> Result<Vec<Named>, AllocError>
    ensures { IfOk result (λ scope. scope.items ≡ under source.now columns.now) }
{
    let mut scope = Vec::with_capacity(alloc, columns.len())?;
    for column in columns {
        let source = String::from_str(alloc, source)?;
        let name = String::from_str(alloc, column.name.as_str())?;
        let kind = column.kind;
        scope.push(Named { source, name, kind })?;
    }
    Ok(scope)
}

/// The columns of a table or a view that is a source of a select.
fn columns_of(held: &Held) -> &[Column]
    ensures { result.now ≡ columns_of (held_of held.now) }
{
    match held {
        Held::Table(schema) => schema.columns(),
        Held::View(bound) => bound.schema.columns(),
    }
}

/// The plan of a source: a table is scanned, and a view is its whole plan.
fn plan_of(alloc: Global, rel: RelId, held: &Held) -> Result<Plan, AllocError>
    ensures { IfOk result (λ plan. shape_of plan ≡ plan_of rel.0 (held_of held.now)) }
{
    match held {
        Held::Table(_) => Ok(Plan::Scan(rel)),
        Held::View(bound) => copy_plan(alloc, &bound.plan),
    }
}

/// What a source of a select reaches: its relation, and then the needs of a view.
fn reached_by(alloc: Global, rel: RelId, held: &Held) -> Result<Vec<RelId>, AllocError>
    ensures { IfOk result (λ reached. numbers reached.items ≡ reached_by rel.0 (held_of held.now)) }
{
    let mut reached = Vec::new(alloc);
    reached.push(rel)?;
    if let Held::View(bound) = held {
        reached.extend_from_slice(&bound.needs)?;
    }
    Ok(reached)
}

/// A relation of the catalog as a source of a select, under the name that it has there.
fn source_of(alloc: Global, relation: &Relation, name: &str) -> Result<From, AllocError>
    ensures { IfOk result (λ from. from_of from ≡ source_of (entry_of relation.now) name.now) }
{
    let reached = reached_by(alloc, relation.rel, &relation.held)?;
    let scope = under(alloc, name, columns_of(&relation.held))?;
    let plan = plan_of(alloc, relation.rel, &relation.held)?;
    Ok(From {
        plan,
        scope,
        reached,
    })
}

/// The name under which a source of a select is bound: its alias, else the relation's.
fn called(source: &Source) -> &Name
    ensures { name_tree result.now ≡ called (source_tree source.now) }
{
    match &source.alias {
        Some(alias) => alias,
        None => &source.name,
    }
}

/// Binds a source of a select after those that have the columns of `scope`.
#[tactic(auto, unfolding(crate::specs::Binding::source_bound))]
fn source(
    alloc: Global,
    catalog: &Catalog,
    scope: &[Named],
    source: &Source,
) -> Result<From, BindFault>
    ensures { Gives from_of result (source_bound catalog.now scope.now (source_tree source.now)) }
{
    let Some(relation) = catalog.named(source.name.text.as_str()) else {
        return Err(fault(source.name.place, BindWhy::UnknownRelation));
    };
    let name = called(source);
    if is_used(scope, name.text.as_str()) {
        return Err(fault(name.place, BindWhy::DuplicateName));
    }
    Ok(source_of(alloc, relation, name.text.as_str())?)
}

/// The places of a join's pair: in the earlier sources, which have `n` columns, and in the new source.
fn sides(n: usize, i: usize, j: usize) -> Option<(usize, usize)>
    ensures { result ≡ sides n i j }
{
    if i < n && n <= j {
        return Some((i, j - n));
    }
    if j < n && n <= i {
        return Some((j, i - n));
    }
    None
}

/// Binds a pair of a join to the places of its two columns, the earlier side first.
#[tactic(auto, unfolding(crate::specs::Binding::pair_bound))]
fn pair(n: usize, scope: &[Named], pair: &Pair) -> Result<(usize, usize), BindFault>
    ensures { Gives (λ x. x) result (pair_bound n scope.now (pair_tree pair.now)) }
{
    let (i, kind) = column(scope, &pair.left)?;
    let (j, other) = column(scope, &pair.right)?;
    let Some(sides) = sides(n, i, j) else {
        return Err(fault(pair.right.place, BindWhy::UnknownColumn));
    };
    if !is_same(kind, other) {
        return Err(fault(pair.right.place, BindWhy::KindMismatch));
    }
    Ok(sides)
}

/// Binds each pair of a join to the places of its two columns, in their order.
#[tactic(auto, unfolding(crate::specs::Binding::pairs_bound))]
fn pairs(
    alloc: Global,
    n: usize,
    scope: &[Named],
    on: &[Pair],
) -> Result<Vec<(usize, usize)>, BindFault>
    ensures { Gives (λ pairs. pairs.items) result (pairs_bound n scope.now (map pair_tree on.now)) }
{
    let mut pairs = Vec::new(alloc);
    for text in on {
        let next = pair(n, scope, text)?;
        pairs.push(next)?;
    }
    Ok(pairs)
}

/// The columns of the sources on both sides of a join, and the pairs of them that are joined.
fn paired(
    alloc: Global,
    left: Vec<Named>,
    right: Vec<Named>,
    on: &[Pair],
) -> Result<(Vec<Named>, Vec<(usize, usize)>), BindFault>
    ensures columns { IfOk result (λ it. it.0.items ≡ left.items ++ right.items) }
    ensures pairs { Gives (λ it. it.1.items) result (pairs_bound (length left.items) (left.items ++ right.items) (map pair_tree on.now)) }
{
    let n = left.len();
    let mut scope = left;
    let mut more = right;
    scope.append(&mut more)?;
    let pairs = pairs(alloc, n, &scope, on)?;
    Ok((scope, pairs))
}

/// The relations that both sides of a join or a set operation reach.
pub(crate) fn reached_by_two(left: Vec<RelId>, right: Vec<RelId>) -> Result<Vec<RelId>, AllocError>
    ensures { IfOk result (λ reached. reached.items ≡ left.items ++ right.items) }
{
    let mut reached = left;
    let mut more = right;
    reached.append(&mut more)?;
    Ok(reached)
}

/// The sources so far and a new one, joined by pairs of columns.
#[tactic(auto, unfolding(crate::specs::Binding::joined_bound))]
fn joined(alloc: Global, left: From, right: From, on: &[Pair]) -> Result<From, BindFault>
    ensures { Gives from_of result (joined_bound (from_of left) (from_of right) (map pair_tree on.now)) }
{
    let plans = boxed_two(alloc, left.plan, right.plan);
    let columns = paired(alloc, left.scope, right.scope, on);
    let reached = reached_by_two(left.reached, right.reached);
    match columns {
        Ok((scope, pairs)) => {
            let reached = reached?;
            let (left, right) = plans?;
            let plan = Plan::Join { left, right, pairs };
            Ok(From {
                plan,
                scope,
                reached,
            })
        }
        Err(fault) => {
            drop(plans);
            Err(fault)
        }
    }
}

/// Binds a join of a select: the sources so far and one more.
#[tactic(auto, unfolding(crate::specs::Binding::join_bound))]
fn join(alloc: Global, catalog: &Catalog, left: From, join: &Join) -> Result<From, BindFault>
    ensures { Gives from_of result (join_bound catalog.now (from_of left) (join_tree join.now)) }
{
    match source(alloc, catalog, &left.scope, &join.source) {
        Ok(right) => joined(alloc, left, right, &join.on),
        Err(fault) => {
            drop(left);
            Err(fault)
        }
    }
}

/// The sources of a select, joined.
#[tactic(auto, unfolding(crate::specs::Binding::from_bound))]
pub(crate) fn all_sources(
    alloc: Global,
    catalog: &Catalog,
    first: &Source,
    joins: &[Join],
) -> Result<From, BindFault>
    ensures { Gives from_of result (from_bound catalog.now (source_tree first.now) (map join_tree joins.now)) }
{
    let mut all = source(alloc, catalog, &[], first)?;
    for next in joins {
        all = join(alloc, catalog, all, next)?;
    }
    Ok(all)
}

/// The rows that a select's predicate lets through.
#[tactic(auto, unfolding(crate::specs::Binding::filter_bound))]
pub(crate) fn filter(alloc: Global, from: From, filter: &Option<Pred>) -> Result<From, BindFault>
    ensures { Gives from_of result (filter_bound (from_of from) (option_map pred_tree filter.now)) }
{
    let Some(tree) = filter else {
        return Ok(from);
    };
    let pred = match pred(alloc, &from.scope, tree) {
        Ok(pred) => pred,
        Err(fault) => {
            drop(from);
            return Err(fault);
        }
    };
    let plan = Plan::Filter(pred, Box::new(alloc, from.plan)?);
    Ok(From {
        plan,
        scope: from.scope,
        reached: from.reached,
    })
}
