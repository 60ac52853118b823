//! Openings of an offload over a bay in memory, as tables.
#![tactic(auto)]

#[cfg(test)]
mod openings;
