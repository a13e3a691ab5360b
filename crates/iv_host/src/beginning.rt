//! `head_of`: what a gateway begins with, by what its journal says before its first entry.
ghost use Rattle.std.specs.Prelude.{◌≡◌, IfOk, option_map};
ghost use Rattle.iv_rows.specs.Options.{if_some};
ghost use Rattle.iv_gateway.specs.Views.{IsHead};
ghost use Rattle.iv_host.specs.Beginning.{head_with, log_of};

use iv_arrivals::Log;
use iv_gateway::Head;
use iv_head::{Begun, Followed, names_in};
use std::alloc::{AllocError, Global};

/// The log of a journal, and where it stood.
fn log_of(followed: Option<Followed>) -> (Option<Log>, u64)
    ensures { result ≡ (option_map log_of followed, if_some followed 0 (λ f. f.position)) }
{
    match followed {
        None => (None, 0),
        Some(followed) => {
            let Followed {
                name,
                epoch,
                position,
            } = followed;
            (Some(Log { name, epoch }), position)
        }
    }
}

/// The epoch in which names of those begin who had none: that of the log, if one is followed, else the journal's.
fn epoch_with<'a>(epoch: &'a str, log: &'a Option<Followed>) -> &'a str
    ensures { result.now ≡ if_some log.now epoch.now (λ f. f.epoch) }
{
    match log {
        None => epoch,
        Some(log) => log.epoch.as_str(),
    }
}

/// What a gateway begins with whose journal has this epoch, and says this before its first entry.
///
/// # Errors
/// `AllocError` if a growth of memory was refused.
pub fn head_of(alloc: Global, epoch: &str, begun: Begun) -> Result<Head, AllocError>
    ensures { IfOk result (λ x. IsHead (head_with epoch.now begun) x) }
{
    let Begun { log, standings } = begun;
    let names = names_in(alloc, epoch_with(epoch, &log), &standings)?;
    let (log, position) = log_of(log);
    Ok(Head {
        names,
        log,
        position,
    })
}
