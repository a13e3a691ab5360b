//! The gateway as a program: browsers by WebSocket in front, one engine, and a journal behind.
#![tactic(auto)]

use iv_host::asked_for;
use iv_service::work;
use std::process::ExitCode;

fn main(rt: HostRuntime) -> ExitCode {
    match asked_for(&rt) {
        Err(status) => status,
        Ok(settings) => match work(&rt, &settings) {
            Ok(()) => ExitCode::SUCCESS,
            Err(status) => ExitCode::from(status),
        },
    }
}
