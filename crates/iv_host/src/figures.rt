//! `figures_now`, `state_now`: what the program tells of itself, as Prometheus reads it, and as JSON.

ghost use Rattle.std.specs.Prelude.{◌≡◌, OnOk};
ghost use Rattle.iv_host.specs.Figures.{clients_in, one_more};
ghost use Rattle.iv_host.specs.Roles.{by_role, first_at, more_at};

use crate::counts::{BOUNDS, Counts, raise};
use crate::journal::{FileJournal, Syncs};
use iv_arrivals::{KINDS, Tally};
use iv_pages::{Bucket, Label, Metric, push_counter, push_gauge, push_histogram, push_sample};
use std::alloc::{AllocError, Global};
use std::fs;

/// What there is at a moment.
#[derive(Drop)]
pub struct Now {
    /// Sockets that are open.
    pub sockets: u64,
    /// Clients by their roles.
    pub roles: Vec<(String, u64)>,
    /// Bytes that wait for sockets to take them.
    pub pending: u64,
    /// Milliseconds since the start.
    pub time: u64,
}

/// Where a role is first.
fn first_at(roles: &[(String, u64)], role: &str) -> Option<usize>
    ensures { result ≡ first_at role.now (by_role roles.now) }
{
    for at in 0..roles.len() {
        if roles[at].0.as_str() == role {
            return Some(at);
        }
    }
    None
}

/// Counts one client more of the role at a place.
fn count_at(roles: &mut Vec<(String, u64)>, at: usize)
    ensures { by_role roles.new.items ≡ more_at at (by_role roles.old.items) }
{
    match roles.get_mut(at) {
        None => {}
        Some(one) => raise(&mut one.1, 1),
    }
}

/// How many clients there are.
fn clients_in(roles: &[(String, u64)]) -> u64
    ensures { result ≡ clients_in (by_role roles.now) }
{
    let mut clients = 0;
    for one in roles {
        raise(&mut clients, one.1);
    }
    clients
}

impl Now {
    /// Counts a client of a role.
    ///
    /// # Errors
    /// `AllocError` if a growth of memory was refused.
    pub fn count(&mut self, role: &str) -> Result<(), AllocError>
        ensures { OnOk result (by_role self.new.roles.items ≡ one_more role.now (by_role self.old.roles.items)) }
    {
        match first_at(&self.roles, role) {
            Some(at) => {
                count_at(&mut self.roles, at);
                Ok(())
            }
            None => {
                let name = String::from_str(*self.roles.allocator(), role)?;
                self.roles.push((name, 1))?;
                Ok(())
            }
        }
    }
}

/// Bytes of memory that the process has.
fn memory(rt: &HostRuntime) -> u64 {
    let Ok(text) = fs::read_to_string(rt, "/proc/self/statm") else {
        return 0;
    };
    let Some((_, rest)) = text.as_str().split_once(' ') else {
        return 0;
    };
    let pages = match rest.split_once(' ') {
        None => rest,
        Some((pages, _)) => pages,
    };
    match pages.parse::<u64>() {
        Ok(pages) => pages.saturating_mul(4096),
        Err(_) => 0,
    }
}

/// Appends a counter that has no label.
fn counter<'a>(
    out: &mut Vec<u8>,
    name: &'a str,
    help: &'a str,
    value: u64,
) -> Result<(), AllocError> {
    push_counter(out, &Metric { name, help }, &[], value)
}

/// Appends a gauge that has no label.
fn gauge<'a>(
    out: &mut Vec<u8>,
    name: &'a str,
    help: &'a str,
    value: u64,
) -> Result<(), AllocError> {
    push_gauge(out, &Metric { name, help }, &[], value)
}

/// Appends how many connections came.
fn push_came(out: &mut Vec<u8>, counts: &Counts) -> Result<(), AllocError> {
    counter(
        out,
        "gateway_accepted_total",
        "Connections that were accepted",
        counts.accepted,
    )?;
    counter(
        out,
        "gateway_no_room_total",
        "Connections for which there was no room",
        counts.no_room,
    )?;
    counter(
        out,
        "gateway_came_total",
        "Clients who came in",
        counts.came,
    )?;
    counter(
        out,
        "gateway_refused_total",
        "Connections at which no token was known",
        counts.refused,
    )?;
    Ok(())
}

/// Appends what was asked, read and sent.
fn push_bytes(out: &mut Vec<u8>, counts: &Counts) -> Result<(), AllocError> {
    counter(
        out,
        "gateway_asked_total",
        "Requests that asked for no WebSocket",
        counts.asked,
    )?;
    counter(
        out,
        "gateway_read_bytes_total",
        "Bytes that were read of clients",
        counts.read,
    )?;
    counter(
        out,
        "gateway_sent_bytes_total",
        "Bytes that clients' sockets took",
        counts.sent,
    )?;
    Ok(())
}

/// Appends how many connections ended by a further cause.
fn push_end(out: &mut Vec<u8>, why: &str, count: u64) -> Result<(), AllocError> {
    push_sample(
        out,
        "gateway_ends_total",
        &[Label {
            name: "why",
            value: why,
        }],
        count,
    )
}

/// Appends how connections ended.
fn push_ends(out: &mut Vec<u8>, counts: &Counts) -> Result<(), AllocError> {
    let metric = Metric {
        name: "gateway_ends_total",
        help: "Connections that ended, by why",
    };
    let closed = [Label {
        name: "why",
        value: "closed",
    }];
    push_counter(out, &metric, &closed, counts.closed)?;
    push_end(out, "late", counts.late)?;
    push_end(out, "stuck", counts.stuck)?;
    push_end(out, "told", counts.told)?;
    Ok(())
}

/// Appends what is counted of connections.
fn push_counts(out: &mut Vec<u8>, counts: &Counts) -> Result<(), AllocError> {
    push_came(out, counts)?;
    push_bytes(out, counts)?;
    push_ends(out, counts)?;
    Ok(())
}

/// Appends how many messages were heard, by their kinds.
fn push_heard(out: &mut Vec<u8>, tally: &Tally) -> Result<(), AllocError> {
    let metric = Metric {
        name: "gateway_requests_total",
        help: "Messages that were heard, by their words at do; none of what is no request",
    };
    let none = [Label {
        name: "kind",
        value: KINDS[0],
    }];
    push_counter(out, &metric, &none, tally.heard[0])?;
    for at in 1..14 {
        let kind = [Label {
            name: "kind",
            value: KINDS[at],
        }];
        push_sample(out, metric.name, &kind, tally.heard[at])?;
    }
    Ok(())
}

/// Appends how many messages were refused by a further number.
fn push_number(out: &mut Vec<u8>, number: usize, count: u64) -> Result<(), AllocError> {
    let text = format!(in *out.allocator(); "{number}")?;
    push_sample(
        out,
        "gateway_refusals_total",
        &[Label {
            name: "refusal",
            value: text.as_str(),
        }],
        count,
    )
}

/// Appends how many messages were refused, by the numbers of refusals. None has the number 21.
fn push_refused(out: &mut Vec<u8>, tally: &Tally) -> Result<(), AllocError> {
    let metric = Metric {
        name: "gateway_refusals_total",
        help: "Messages that were refused, by the number of the refusal",
    };
    let first = [Label {
        name: "refusal",
        value: "1",
    }];
    push_counter(out, &metric, &first, tally.refused[1])?;
    for number in 2..24 {
        if number != 21 {
            push_number(out, number, tally.refused[number])?;
        }
    }
    Ok(())
}

/// Bounds of times of syncs, each with how many syncs took at most so long.
fn buckets_of(alloc: Global, syncs: &Syncs) -> Result<Vec<Bucket<'static>>, AllocError> {
    let mut buckets = Vec::new(alloc);
    for at in 0..7 {
        buckets.push(Bucket {
            bound: BOUNDS[at].1,
            count: syncs.within[at],
        })?;
    }
    Ok(buckets)
}

/// Appends what is counted of the journal.
fn push_journal(out: &mut Vec<u8>, journal: &FileJournal) -> Result<(), AllocError> {
    counter(
        out,
        "gateway_journal_entries_total",
        "Entries of the journal",
        journal.entries(),
    )?;
    gauge(
        out,
        "gateway_journal_bytes",
        "Bytes of the journal",
        journal.len(),
    )?;
    let syncs = journal.syncs();
    let buckets = buckets_of(*out.allocator(), syncs)?;
    let metric = Metric {
        name: "gateway_sync_seconds",
        help: "Time of a write and sync of the journal",
    };
    push_histogram(out, &metric, &[], &buckets, syncs.count, syncs.time)
}

/// Appends how many clients further roles have.
fn push_further(out: &mut Vec<u8>, roles: &[(String, u64)]) -> Result<(), AllocError> {
    for one in roles {
        let labels = [Label {
            name: "role",
            value: one.0.as_str(),
        }];
        push_sample(out, "gateway_clients", &labels, one.1)?;
    }
    Ok(())
}

/// Appends who is there.
fn push_clients(out: &mut Vec<u8>, roles: &[(String, u64)]) -> Result<(), AllocError> {
    let [first, rest @ ..] = roles else {
        return Ok(());
    };
    let metric = Metric {
        name: "gateway_clients",
        help: "Clients who are there, by role",
    };
    let labels = [Label {
        name: "role",
        value: first.0.as_str(),
    }];
    push_gauge(out, &metric, &labels, first.1)?;
    push_further(out, rest)?;
    Ok(())
}

/// What the program tells of itself, as Prometheus reads it.
///
/// # Errors
/// `AllocError` if a growth of memory was refused.
pub fn figures_now(
    rt: &HostRuntime,
    counts: &Counts,
    tally: &Tally,
    journal: &FileJournal,
    now: &Now,
) -> Result<Vec<u8>, AllocError> {
    let mut out = Vec::new(rt.alloc());
    push_counts(&mut out, counts)?;
    push_heard(&mut out, tally)?;
    push_refused(&mut out, tally)?;
    push_journal(&mut out, journal)?;
    push_clients(&mut out, &now.roles)?;
    gauge(
        &mut out,
        "gateway_sockets",
        "Sockets that are open",
        now.sockets,
    )?;
    gauge(
        &mut out,
        "gateway_pending_bytes",
        "Bytes that wait for sockets to take them",
        now.pending,
    )?;
    gauge(
        &mut out,
        "gateway_uptime_seconds",
        "Seconds since the start",
        now.time / 1000,
    )?;
    gauge(
        &mut out,
        "gateway_memory_bytes",
        "Bytes of memory that the process has",
        memory(rt),
    )?;
    Ok(out)
}

/// What administrators are told.
///
/// # Errors
/// As of `figures_now`.
pub fn state_now(
    rt: &HostRuntime,
    counts: &Counts,
    journal: &FileJournal,
    now: &Now,
) -> Result<String, AllocError> {
    let clients = clients_in(&now.roles);
    let sockets = now.sockets;
    let dropped = counts.stuck.saturating_add(counts.told);
    let entries = journal.entries();
    let bytes = journal.len();
    format!(in rt.alloc();
        "{{\"ready\":true,\"sockets\":{sockets},\"clients\":{clients},\"dropped\":{dropped},\"journal\":{entries},\"bytes\":{bytes}}}\n"
    )
}
