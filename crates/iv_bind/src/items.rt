//! `list`, `keys`: binds the items of a select to its output columns and aggregates, and the columns of its group.

ghost use Rattle.std.specs.Prelude.{◌≡◌, ◌==◌, ◌+◌, map, length, bytes_eq, IfOk};
ghost use Rattle.std.specs.List.{list_any, position_from};
ghost use Rattle.iv_zset.specs.Bags.{stands};
ghost use Rattle.iv_query.specs.Trees.{name_tree, column_tree, item_tree, list_tree};
ghost use Rattle.iv_query.specs.Trees.{ItemOf, SumOf, CountOf, ItemsOf};
ghost use Rattle.std.specs.Prelude.{option_map};
ghost use Rattle.iv_bind.specs.Faults.{Gives};
ghost use Rattle.iv_bind.specs.Parts.{out_of};
ghost use Rattle.iv_bind.specs.Binding.{nothing, keys_bound, first_aggregate, ungrouped, output_bound, within_group, output_name, aggregated, item_bound, star_bound, list_bound};

use crate::fault::{BindFault, BindWhy};
use crate::predicate::is_same;
use crate::scope::{Named, column, fault};
use iv_algebra::Agg;
use iv_query::{Column, Columns, Item, Name};
use iv_rows::Kind;
use std::alloc::{AllocError, Global};

/// What a select gives: columns of the rows below, their names and kinds, and the aggregates of its group.
#[derive(Drop)]
pub(crate) struct Out {
    pub(crate) columns: Vec<usize>,
    pub(crate) schema: Vec<iv_rows::Column>,
    pub(crate) aggs: Vec<Agg>,
}

/// The output of a select before its first item: no columns and no aggregates.
fn nothing(alloc: Global) -> Out
    ensures { out_of result ≡ nothing }
{
    Out {
        columns: Vec::new(alloc),
        schema: Vec::new(alloc),
        aggs: Vec::new(alloc),
    }
}

/// Whether the column is among the keys of a select's group so far.
fn stands(keys: &[usize], k: usize) -> bool
    ensures { result ≡ stands ◌==◌ k keys.now }
{
    for key in keys {
        if k == *key {
            return true;
        }
    }
    false
}

/// The columns of a group, each once.
#[tactic(auto, unfolding(crate::specs::Binding::keys_bound))]
pub(crate) fn keys(
    alloc: Global,
    scope: &[Named],
    group: &[Column],
) -> Result<Vec<usize>, BindFault>
    ensures { Gives (λ keys. keys.items) result (keys_bound scope.now (map column_tree group.now)) }
{
    let mut keys = Vec::new(alloc);
    for text in group {
        let (k, _) = column(scope, text)?;
        if !stands(&keys, k) {
            keys.push(k)?;
        }
    }
    Ok(keys)
}

/// The place in the text of the first item of a select that is an aggregate.
fn first_aggregate(items: &[Item]) -> Option<usize>
    ensures { result ≡ first_aggregate (map item_tree items.now) }
{
    for item in items {
        match item {
            Item::Column { .. } => {}
            Item::Sum { place, .. } => return Some(*place),
            Item::Count { place, .. } => return Some(*place),
        }
    }
    None
}

/// The place of the first item that conflicts with `group by`: an aggregate without keys, `*` with some.
pub(crate) fn ungrouped(keys: &[usize], columns: &Columns) -> Option<usize>
    ensures { result ≡ ungrouped keys.now (list_tree columns.now) }
{
    match columns {
        Columns::All { place } => { if keys.is_empty() { None } else { Some(*place) } }
        Columns::Items(items) => {
            if keys.is_empty() {
                first_aggregate(items)
            } else {
                None
            }
        }
    }
}

/// Whether an output column has the name.
fn is_output(schema: &[iv_rows::Column], name: &str) -> bool
    ensures { result ≡ list_any (λ c. bytes_eq name.now c.name) schema.now }
{
    schema.iter().any(|column| name == column.name.as_str())
}

/// Adds an output column to a select, of the place `k` in the rows below, for the item at `place`.
#[tactic(auto, unfolding(crate::specs::Binding::output_bound))]
fn output(
    alloc: Global,
    place: usize,
    out: Out,
    k: usize,
    name: &str,
    kind: Kind,
) -> Result<Out, BindFault>
    ensures { Gives out_of result (output_bound place (out_of out) k name.now kind) }
{
    if is_output(&out.schema, name) {
        return Err(fault(place, BindWhy::DuplicateName));
    }
    let name = String::from_str(alloc, name)?;
    let mut columns = out.columns;
    columns.push(k)?;
    let mut schema = out.schema;
    schema.push(iv_rows::Column { name, kind })?;
    Ok(Out {
        columns,
        schema,
        aggs: out.aggs,
    })
}

/// The place of a column among the keys of a select's group.
fn position(keys: &[usize], k: usize) -> Option<usize>
    ensures { result ≡ position_from (λ j. k == j) 0 keys.now }
{
    for place in 0..keys.len() {
        if k == keys[place] {
            return Some(place);
        }
    }
    None
}

/// The place of a select's column in the rows of its group; without a group it keeps its own.
fn within_group(keys: &[usize], k: usize) -> Option<usize>
    ensures { result ≡ within_group keys.now k }
{
    if keys.is_empty() {
        return Some(k);
    }
    position(keys, k)
}

/// The name of an output column: the alias, else the column's.
fn output_name<'a>(column: &'a Column, alias: &'a Option<Name>) -> &'a str
    ensures { result.now ≡ output_name (column_tree column.now) (option_map name_tree alias.now) }
{
    match alias {
        Some(alias) => alias.text.as_str(),
        None => column.name.as_str(),
    }
}

/// The output of a select with one aggregate more.
fn aggregated(out: Out, agg: Agg) -> Result<Out, AllocError>
    ensures { IfOk result (λ o. out_of o ≡ aggregated (out_of out) agg) }
{
    let mut aggs = out.aggs;
    aggs.push(agg)?;
    Ok(Out {
        columns: out.columns,
        schema: out.schema,
        aggs,
    })
}

/// Binds an item that is a column to an output column; in a select with a group it must be a key.
#[tactic(auto, unfolding(crate::specs::Binding::item_bound))]
fn column_item(
    alloc: Global,
    scope: &[Named],
    keys: &[usize],
    out: Out,
    text: &Column,
    alias: &Option<Name>,
) -> Result<Out, BindFault>
    ensures { Gives out_of result (item_bound scope.now keys.now (out_of out) (ItemOf (column_tree text.now) (option_map name_tree alias.now))) }
{
    let (k, kind) = column(scope, text)?;
    let Some(k) = within_group(keys, k) else {
        return Err(fault(text.place, BindWhy::NotGrouped));
    };
    output(alloc, text.place, out, k, output_name(text, alias), kind)
}

/// Binds an item that is a sum, at `place`, to an aggregate and an output column.
#[tactic(auto, unfolding(crate::specs::Binding::item_bound))]
fn sum_item(
    alloc: Global,
    scope: &[Named],
    keys: &[usize],
    out: Out,
    place: usize,
    text: &Column,
    alias: &Name,
) -> Result<Out, BindFault>
    ensures { Gives out_of result (item_bound scope.now keys.now (out_of out) (SumOf place (column_tree text.now) (name_tree alias.now))) }
{
    let (k, kind) = column(scope, text)?;
    if !is_same(kind, Kind::Int) {
        return Err(fault(text.place, BindWhy::KindMismatch));
    }
    let behind = keys.len() + out.aggs.len();
    let out = aggregated(out, Agg::Sum(k))?;
    output(alloc, place, out, behind, alias.text.as_str(), Kind::Int)
}

/// Binds an item of a select, which is a column, a sum or a count, to an output column.
#[tactic(auto, unfolding(crate::specs::Binding::item_bound))]
fn item(
    alloc: Global,
    scope: &[Named],
    keys: &[usize],
    out: Out,
    item: &Item,
) -> Result<Out, BindFault>
    ensures { Gives out_of result (item_bound scope.now keys.now (out_of out) (item_tree item.now)) }
{
    match item {
        Item::Column { column, alias } => column_item(alloc, scope, keys, out, column, alias),
        Item::Sum {
            place,
            column,
            alias,
        } => sum_item(alloc, scope, keys, out, *place, column, alias),
        Item::Count { place, alias } => {
            let behind = keys.len() + out.aggs.len();
            let out = aggregated(out, Agg::Count)?;
            output(alloc, *place, out, behind, alias.text.as_str(), Kind::Int)
        }
    }
}

/// Binds the star at `place` to output columns, one for each column of the sources.
#[tactic(auto, unfolding(crate::specs::Binding::star_bound))]
fn star(alloc: Global, scope: &[Named], place: usize) -> Result<Out, BindFault>
    ensures { Gives out_of result (star_bound scope.now place) }
{
    let mut out = nothing(alloc);
    for named in scope {
        let k = out.columns.len();
        out = output(alloc, place, out, k, named.name.as_str(), named.kind)?;
    }
    Ok(out)
}

/// Binds each item of a select to an output column, from the left.
#[tactic(auto, unfolding(crate::specs::Binding::list_bound))]
fn all_items(
    alloc: Global,
    scope: &[Named],
    keys: &[usize],
    items: &[Item],
) -> Result<Out, BindFault>
    ensures { Gives out_of result (list_bound scope.now keys.now (ItemsOf (map item_tree items.now))) }
{
    let mut out = nothing(alloc);
    for next in items {
        out = item(alloc, scope, keys, out, next)?;
    }
    Ok(out)
}

/// The output columns of a select.
#[tactic(auto, unfolding(crate::specs::Binding::list_bound))]
pub(crate) fn list(
    alloc: Global,
    scope: &[Named],
    keys: &[usize],
    columns: &Columns,
) -> Result<Out, BindFault>
    ensures { Gives out_of result (list_bound scope.now keys.now (list_tree columns.now)) }
{
    match columns {
        Columns::All { place } => star(alloc, scope, *place),
        Columns::Items(items) => all_items(alloc, scope, keys, items),
    }
}
