//! What a gateway says before it ends, and the status with which it ends.
use crate::fault::Fault;
use iv_disk::KeepFault;
use iv_host::{FileJournal, OpenFault};

/// The status if the journal or the tokens are not usable.
pub const UNUSABLE: u8 = 1;
/// The status if the system refuses the network, or random bytes.
pub const SYSTEM: u8 = 2;
/// The status if the keeper of a log says what cannot be.
pub const KEEPER: u8 = 4;
/// The status if memory is refused.
const MEMORY: u8 = 3;

/// Says that memory is refused. The status to exit with.
pub fn out_of_memory(rt: &HostRuntime) -> u8 {
    let _ = eprintln!(rt; "gateway: out of memory");
    MEMORY
}

/// Says why a journal cannot be used.
pub(crate) fn no_journal(rt: &HostRuntime, path: &str, fault: &OpenFault) -> u8 {
    let _ = match fault {
        OpenFault::Taken => eprintln!(rt;
            "gateway: another process writes {path}: end it, or name another journal"
        ),
        OpenFault::NotLines => eprintln!(rt;
            "gateway: {path} has an entry that cannot be written: take the copy from before"
        ),
        OpenFault::System(error) => eprintln!(rt; "gateway: {path}: {error}"),
    };
    UNUSABLE
}

/// Says why the gateway does no more. The status to exit with.
pub fn failed(rt: &HostRuntime, journal: &FileJournal, fault: Fault) -> u8 {
    match fault {
        Fault::Memory => out_of_memory(rt),
        Fault::Journal => {
            let _ = match journal.why() {
                Some(KeepFault::System(error)) => {
                    eprintln!(rt;
                        "gateway: the journal could not be written: {error}. Nobody was told of what it does not have: mend its disk, and start again"
                    )
                }
                _ => eprintln!(rt;
                    "gateway: the journal could not be written. Nobody was told of what it does not have: start again"
                ),
            };
            UNUSABLE
        }
        Fault::Desk => {
            let _ = eprintln!(rt;
                "gateway: a number has two connections, which is a fault of this program: start again, and report it"
            );
            SYSTEM
        }
        Fault::Log => KEEPER,
        Fault::System => {
            let _ = eprintln!(rt; "gateway: the system has no clock, or does not tell of sockets");
            SYSTEM
        }
    }
}

/// Says that a journal has no place for a log.
pub fn no_log_in(rt: &HostRuntime, path: &str) -> u8 {
    let _ = eprintln!(rt;
        "gateway: {path}: the journal has entries of its own: a log needs a new journal file"
    );
    UNUSABLE
}

/// Says that the system gives no random bytes.
pub(crate) fn no_random_bytes(rt: &HostRuntime) -> u8 {
    let _ = eprintln!(rt; "gateway: no random bytes");
    SYSTEM
}

/// The byte at which a line begins, both counted from 0.
fn place_of(bytes: &[u8], line: usize) -> usize {
    let mut lines: usize = 0;
    for at in 0..bytes.len() {
        if lines == line {
            return at;
        }
        if bytes[at] == b'\n' {
            lines = lines.saturating_add(1);
        }
    }
    bytes.len()
}

/// The line, counted from 0, in which a byte is.
fn line_of(bytes: &[u8], place: usize) -> usize {
    bytes
        .iter()
        .take(place)
        .filter(|byte| **byte == b'\n')
        .count()
}

/// Says how much of a journal is cut off.
pub(crate) fn say_cut(rt: &HostRuntime, path: &str, count: usize) {
    let _ = eprintln!(rt;
        "gateway: cut {count} bytes off {path}, of an entry that was never acknowledged"
    );
}

/// Says at which byte a journal is damaged.
pub(crate) fn damaged_at(rt: &HostRuntime, path: &str, bytes: &[u8], place: usize) -> u8 {
    let line = line_of(bytes, place).saturating_add(1);
    let _ = eprintln!(rt;
        "gateway: damaged: {path}: line {line}, at byte {place}, is no entry that is accepted"
    );
    UNUSABLE
}

/// Says in which line, counted from 0, a journal is damaged.
pub(crate) fn damaged_in(rt: &HostRuntime, path: &str, bytes: &[u8], line: usize) -> u8 {
    damaged_at(rt, path, bytes, place_of(bytes, line))
}
