//! `query`: binds selects and set operations to plans, with grouping and distinct; `Part`, what each gives.

ghost use Rattle.std.specs.Prelude.{◌≡◌, map, IfOk};
ghost use Rattle.iv_rows.specs.Columns.{kinds_of};
ghost use Rattle.iv_query.specs.Trees.{column_tree, list_tree, select_tree, query_tree};
ghost use Rattle.iv_algebra.specs.Fits.{kinds_eq};
ghost use Rattle.iv_bind.specs.Faults.{Gives};
ghost use Rattle.iv_algebra.specs.Shapes.{shape_of};
ghost use Rattle.iv_bind.specs.Held.{entries};
ghost use Rattle.iv_bind.specs.Parts.{from_of, out_of, part_of, output_by};
ghost use Rattle.iv_bind.specs.Binding.{grouped_shape, distinctly, selected, select_bound, combined_plan, combined, query_bound};

use crate::catalog::Catalog;
use crate::fault::{BindFault, BindWhy};
use crate::items::{Out, keys, list, ungrouped};
use crate::predicate::is_same;
use crate::scope::fault;
use crate::sources::{From, all_sources, filter, reached_by_two};
use iv_algebra::{Agg, Plan};
use iv_query::{Query, Select, SetOp};
use iv_rows::{Column, RelId, boxed_two};
use std::alloc::{AllocError, Global};

/// How many columns a select may give.
const COLUMNS: usize = 16;

/// What a select or a query gives.
#[derive(Drop)]
pub(crate) struct Part {
    pub(crate) plan: Plan,
    pub(crate) schema: Vec<Column>,
    /// The relations that it reaches, each as often as it does.
    pub(crate) reached: Vec<RelId>,
}

/// The plan of a select's groups, if it has keys; else its plan as it is.
fn grouped(alloc: Global, keys: Vec<usize>, aggs: Vec<Agg>, plan: Plan) -> Result<Plan, AllocError>
    ensures { IfOk result (λ p. shape_of p ≡ grouped_shape keys.items aggs.items (shape_of plan)) }
{
    if keys.is_empty() {
        return Ok(plan);
    }
    let input = Box::new(alloc, plan)?;
    Ok(Plan::Group { keys, aggs, input })
}

/// The plan of a select, which gives each row once if the select is distinct.
fn distinctly(alloc: Global, distinct: bool, plan: Plan) -> Result<Plan, AllocError>
    ensures { IfOk result (λ p. shape_of p ≡ distinctly distinct (shape_of plan)) }
{
    if !distinct {
        return Ok(plan);
    }
    Ok(Plan::Distinct(Box::new(alloc, plan)?))
}

/// What a select gives, put together from its sources, its group and its output columns.
fn selected(
    alloc: Global,
    distinct: bool,
    from: From,
    keys: Vec<usize>,
    out: Out,
) -> Result<Part, AllocError>
    ensures { IfOk result (λ p. part_of p ≡ selected distinct (from_of from) keys.items (out_of out)) }
{
    let plan = grouped(alloc, keys, out.aggs, from.plan)?;
    let plan = Plan::Project(out.columns, Box::new(alloc, plan)?);
    let plan = distinctly(alloc, distinct, plan)?;
    Ok(Part {
        plan,
        schema: out.schema,
        reached: from.reached,
    })
}

/// What a select gives over its sources: binds its group and items, and tests the number of columns.
#[tactic(auto, unfolding(crate::specs::Binding::output_of))]
fn output_of(alloc: Global, select: &Select, from: From) -> Result<Part, BindFault>
    ensures { Gives part_of result (output_by select.now from) }
{
    let keys = match keys(alloc, &from.scope, &select.group) {
        Ok(keys) => keys,
        Err(fault) => {
            drop(from);
            return Err(fault);
        }
    };
    if let Some(place) = ungrouped(&keys, &select.columns) {
        drop(from);
        return Err(fault(place, BindWhy::NotGrouped));
    }
    let out = match list(alloc, &from.scope, &keys, &select.columns) {
        Ok(out) => out,
        Err(fault) => {
            drop(from);
            return Err(fault);
        }
    };
    if out.columns.len() > COLUMNS {
        drop(from);
        drop(out);
        return Err(fault(select.place, BindWhy::TooManyColumns));
    }
    Ok(selected(alloc, select.distinct, from, keys, out)?)
}

/// Binds one select: its sources and joins, its predicate, its group and its items.
#[tactic(auto, unfolding(crate::specs::Binding::select_bound))]
fn select(alloc: Global, catalog: &Catalog, select: &Select) -> Result<Part, BindFault>
    ensures { Gives part_of result (select_bound catalog.now (select_tree select.now)) }
{
    let all = all_sources(alloc, catalog, &select.source, &select.joins)?;
    let from = filter(alloc, all, &select.filter)?;
    output_of(alloc, select, from)
}

/// Whether the columns of both sides of a set operation are of the same number and kinds.
fn are_alike(a: &[Column], b: &[Column]) -> bool
    ensures { result ≡ kinds_eq (kinds_of a.now) (kinds_of b.now) }
{
    if a.len() != b.len() {
        return false;
    }
    for place in 0..a.len() {
        let left = &a[place];
        let right = &b[place];
        if !is_same(left.kind, right.kind) {
            return false;
        }
    }
    true
}

/// The plan of a set operation on two plans: union all, union or except.
fn combined_plan(alloc: Global, op: SetOp, left: Plan, right: Plan) -> Result<Plan, AllocError>
    ensures { IfOk result (λ p. shape_of p ≡ combined_plan op (shape_of left) (shape_of right)) }
{
    let (left, right) = boxed_two(alloc, left, right)?;
    match op {
        SetOp::UnionAll => Ok(Plan::Union(left, right)),
        SetOp::Union => Ok(Plan::Distinct(Box::new(alloc, Plan::Union(left, right))?)),
        SetOp::Except => Ok(Plan::Except(left, right)),
    }
}

/// What a set operation gives: its plan, the columns of its left side, and what both sides reach.
fn combined(alloc: Global, op: SetOp, left: Part, right: Part) -> Result<Part, AllocError>
    ensures { IfOk result (λ p. part_of p ≡ combined op (part_of left) (part_of right)) }
{
    let reached = reached_by_two(left.reached, right.reached);
    let plan = combined_plan(alloc, op, left.plan, right.plan)?;
    match reached {
        Ok(reached) => Ok(Part {
            plan,
            schema: left.schema,
            reached,
        }),
        Err(error) => {
            drop(plan);
            Err(error)
        }
    }
}

/// Binds a query, from the left: its selects and set operations.
#[tactic(auto, unfolding(crate::specs::Binding::query_bound))]
pub(crate) fn query(alloc: Global, catalog: &Catalog, tree: &Query) -> Result<Part, BindFault>
    ensures { Gives part_of result (query_bound catalog.now (query_tree tree.now)) }
{
    match tree {
        Query::Select(only) => select(alloc, catalog, only),
        Query::Combined(before, op, last) => {
            let left = query(alloc, catalog, before)?;
            let right = match select(alloc, catalog, last) {
                Ok(right) => right,
                Err(fault) => {
                    drop(left);
                    return Err(fault);
                }
            };
            if !are_alike(&left.schema, &right.schema) {
                drop(left);
                drop(right);
                return Err(fault(last.place, BindWhy::ColumnsDiffer));
            }
            Ok(combined(alloc, *op, left, right)?)
        }
    }
}
