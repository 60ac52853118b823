//! One file of a card is copied whole to one to eight drives: what a copy leaves when it is turned to its end, and a
//! program that does just that, by which its speed is measured.
#![tactic(auto)]

mod copying;
mod program;
#[cfg(test)]
mod tests;
mod words;

use crate::words::{copy_and_say, program_words};
use bay_host::HostBay;
use std::process::ExitCode;

fn main(rt: HostRuntime) -> ExitCode {
    let alloc = rt.alloc();
    let words = program_words(&rt, alloc);
    let mut bay = HostBay::new(rt, alloc);
    let status = match words {
        Ok(words) => copy_and_say(alloc, &mut bay, &words),
        Err(_) => 9,
    };
    ExitCode::from(status)
}
