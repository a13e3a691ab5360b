//! `names_in`: the names that are known by what a journal says before its first entry.
ghost use Rattle.std.specs.Prelude.{◌≡◌, IfOk, OnOk};
ghost use Rattle.iv_records.specs.Names.{limits};
ghost use Rattle.iv_once.specs.Names.{begun};
ghost use Rattle.iv_once.specs.Runs.{nothing_known, unspent};
ghost use Rattle.iv_once.specs.Views.{names_of};
ghost use Rattle.iv_head.specs.Begun.{stood};

use crate::begun::Standing;
use iv_once::{LIMITS, Names};
use std::alloc::{AllocError, Global};

/// A holder's names stand where this says.
fn stand_one(names: &mut Names, standing: &Standing) -> Result<(), AllocError>
    ensures { OnOk result (names_of names.new ≡ record (names_of names.old)
        { known = begun (names_of names.old).known standing.now.holder standing.now.at.epoch standing.now.at.count }) }
{
    names.begin(
        standing.holder.as_str(),
        standing.at.epoch.as_str(),
        standing.at.count,
    )
}

/// Names stand where these say.
fn stand(names: &mut Names, standings: &[Standing]) -> Result<(), AllocError>
    ensures { OnOk result (names_of names.new ≡ record (names_of names.old) { known = stood (names_of names.old).known standings.now }) }
{
    for standing in standings {
        stand_one(names, standing)?;
    }
    Ok(())
}

/// What is known of names before the first entry of a journal of an epoch: where they stand, and in that epoch for holders that had none.
///
/// # Errors
/// `AllocError` if a growth of memory was refused.
pub fn names_in(alloc: Global, epoch: &str, standings: &[Standing]) -> Result<Names, AllocError>
    ensures { IfOk result (λ n. names_of n ≡ record { limits = limits; known = stood (nothing_known epoch.now) standings.now; spent = unspent }) }
{
    let mut names = Names::new(alloc, LIMITS, epoch)?;
    stand(&mut names, standings)?;
    Ok(names)
}
