//! The station's program.
#![tactic(auto)]

mod words;

use crate::words::program_words;
use bay_host::HostBay;
use last_lines::say_memory;
use station_run::station;
use std::process::ExitCode;

fn main(rt: HostRuntime) -> ExitCode {
    let alloc = rt.alloc();
    let words = program_words(&rt, alloc);
    let mut bay = HostBay::new(rt, alloc);
    let status = match words {
        Ok(words) => station(alloc, &mut bay, &words),
        Err(_) => say_memory(&mut bay),
    };
    ExitCode::from(status)
}
