//! The program: request lines in, answer lines out, through one engine.
#![tactic(auto)]

use iv_arguments::{Fault, asked_for, random_seed};
use iv_lines::{FromRead, FromWrite};
use iv_program::work;
use std::process::ExitCode;

fn main(rt: HostRuntime) -> ExitCode {
    let settings = match asked_for(&rt) {
        Ok(settings) => settings,
        Err(status) => return status,
    };
    let done = match random_seed(&rt) {
        Ok(seed) => work(
            &rt,
            seed,
            settings,
            &mut FromRead::new(rt.stdin()),
            &mut FromWrite::new(rt.stdout()),
        ),
        Err(fault) => Err(fault),
    };
    match done {
        Ok(()) => ExitCode::SUCCESS,
        // told with its cause, where that is known
        Err(Fault::Network) => ExitCode::from(Fault::Network.status()),
        Err(fault) => {
            let _ = eprintln!(rt; "{fault}");
            ExitCode::from(fault.status())
        }
    }
}
