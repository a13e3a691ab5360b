//! `column`: which column of the sources of a select a text means; `Named`, a column with its source; `fault`: a fault at a place.

ghost use Rattle.std.specs.Prelude.{◌≡◌};
ghost use Rattle.iv_query.specs.Trees.{column_tree};
ghost use Rattle.iv_bind.specs.Faults.{Gives};
ghost use Rattle.iv_bind.specs.Binding.{is_meant, is_used, column_bound};

use crate::fault::{BindFault, BindWhy};
use iv_query::Column;
use iv_rows::Kind;
use std::marker::Model;

/// A column of a source.
#[derive(Drop)]
pub(crate) struct Named {
    /// The name that the source has in the select.
    pub(crate) source: String,
    /// The column's name.
    pub(crate) name: String,
    pub(crate) kind: Kind,
}

impl Model for Named {
    ghost use Rattle.std.specs.Prelude.{string_bytes};
    ghost use Rattle.iv_bind.specs.Binding.{Named};

    ghost Value = { Named };

    ghost view = { λ n. record { source = string_bytes n.source; name = string_bytes n.name; kind = n.kind } };
}

/// The fault of binding at a place, such as that of a column which no source has.
pub(crate) fn fault(place: usize, why: BindWhy) -> BindFault
    ensures { result ≡ BindFault.At place why }
{
    BindFault::At { place, why }
}

/// Whether the text of a column means this column of a source.
fn is_meant(column: &Column, named: &Named) -> bool
    ensures { result ≡ is_meant (column_tree column.now) named.now }
{
    if column.name != named.name {
        return false;
    }
    match &column.source {
        Some(source) => *source == named.source,
        None => true,
    }
}

/// Whether one of the columns that a text may mean is of a source with the name.
pub(crate) fn is_used(scope: &[Named], name: &str) -> bool
    ensures { result ≡ is_used scope.now name.now }
{
    scope.iter().any(|named| name == named.source.as_str())
}

/// The place and the kind of the column that a text means.
///
/// # Errors
/// `UnknownColumn` if no column is meant, `AmbiguousColumn` if two are.
#[tactic(auto, unfolding(crate::specs::Binding::column_bound))]
pub(crate) fn column(scope: &[Named], column: &Column) -> Result<(usize, Kind), BindFault>
    ensures { Gives (λ x. x) result (column_bound scope.now (column_tree column.now)) }
{
    let mut found = None;
    for place in 0..scope.len() {
        let named = &scope[place];
        if is_meant(column, named) {
            if found.is_some() {
                return Err(fault(column.place, BindWhy::AmbiguousColumn));
            }
            found = Some((place, named.kind));
        }
    }
    match found {
        Some(found) => Ok(found),
        None => Err(fault(column.place, BindWhy::UnknownColumn)),
    }
}
