//! Plans over the two tables: a scan, a join, and one with a node of each kind.
use iv_algebra::{Agg, Comparison, Operand, Plan, Pred};
use iv_rows::{RelId, Value};
use std::alloc::{AllocError, Global};

pub(crate) fn scan(alloc: Global, table: u32) -> Result<Box<Plan>, AllocError> {
    Ok(Box::new(alloc, Plan::Scan(RelId(table)))?)
}

/// The rows of tables 0 and 1 that have one k.
pub(crate) fn joined(alloc: Global) -> Result<Plan, AllocError> {
    let pairs = Vec::from_array(alloc, [(0, 0)])?;
    let left = scan(alloc, 0)?;
    let right = scan(alloc, 1)?;
    Ok(Plan::Join { left, right, pairs })
}

/// A plan with a node of each kind. First the pairs of rows with one k, of which the right one has a v above 0: the k, and the right
/// v. Then the rows that are in table 0 and not in table 1. Of both together, for each k, the sum of v and the number of rows.
pub(crate) fn of_each_kind(alloc: Global) -> Result<Plan, AllocError> {
    let input = both(alloc)?;
    let keys = Vec::from_array(alloc, [0])?;
    let aggs = Vec::from_array(alloc, [Agg::Sum(1), Agg::Count])?;
    Ok(Plan::Group { keys, aggs, input })
}

fn both(alloc: Global) -> Result<Box<Plan>, AllocError> {
    let pairs = pairs(alloc)?;
    let left_alone = left_alone(alloc)?;
    Ok(Box::new(alloc, Plan::Union(pairs, left_alone))?)
}

fn pairs(alloc: Global) -> Result<Box<Plan>, AllocError> {
    let columns = Vec::from_array(alloc, [0, 3])?;
    let input = Box::new(alloc, pairs_above(alloc)?)?;
    Ok(Box::new(alloc, Plan::Project(columns, input))?)
}

fn pairs_above(alloc: Global) -> Result<Plan, AllocError> {
    let pairs = Vec::from_array(alloc, [(0, 0)])?;
    let left = scan(alloc, 0)?;
    let right = above(alloc)?;
    Ok(Plan::Join { left, right, pairs })
}

fn above(alloc: Global) -> Result<Box<Plan>, AllocError> {
    let input = scan(alloc, 1)?;
    let above = Pred::Compare(
        Operand::Column(1),
        Comparison::Greater,
        Operand::Literal(Value::Int(0)),
    );
    Ok(Box::new(alloc, Plan::Filter(above, input))?)
}

fn left_alone(alloc: Global) -> Result<Box<Plan>, AllocError> {
    let once = Plan::Distinct(scan(alloc, 0)?);
    let left = Box::new(alloc, once)?;
    let right = scan(alloc, 1)?;
    Ok(Box::new(alloc, Plan::Except(left, right))?)
}
