//! `said_log`: the log that is followed, as a keeper says it; `copied`: a copy of it.
ghost use Rattle.std.specs.Prelude.{◌≡◌, IfOk, option_map};
ghost use Rattle.iv_following.specs.Following.{said_log};

use iv_arrivals::Log;
use std::alloc::{AllocError, Global};

/// A log as a keeper says it.
///
/// # Errors
/// `AllocError` if a growth of memory was refused.
pub(crate) fn said_log(alloc: Global, log: &Log) -> Result<iv_door::Log, AllocError>
    ensures { IfOk result (λ l. l ≡ said_log log.now) }
{
    Ok(iv_door::Log {
        name: Vec::from_slice(alloc, log.name.as_bytes())?,
        epoch: Vec::from_slice(alloc, log.epoch.as_bytes())?,
    })
}

/// A log as a keeper says it, if there is one.
///
/// # Errors
/// As of `said_log`.
pub(crate) fn said_logs(
    alloc: Global,
    log: &Option<Log>,
) -> Result<Option<iv_door::Log>, AllocError>
    ensures { IfOk result (λ l. l ≡ option_map said_log log.now) }
{
    match log {
        None => Ok(None),
        Some(log) => Ok(Some(said_log(alloc, log)?)),
    }
}

/// A copy of a log.
///
/// # Errors
/// As of `said_log`.
pub(crate) fn copied(alloc: Global, log: &Log) -> Result<Log, AllocError>
    ensures { IfOk result (λ l. l ≡ log.now) }
{
    Ok(Log {
        name: String::from_str(alloc, log.name.as_str())?,
        epoch: String::from_str(alloc, log.epoch.as_str())?,
    })
}
