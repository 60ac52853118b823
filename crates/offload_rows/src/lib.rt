//! Runs of `offload` over a bay in memory, from the words to the status, as tables whose rows were worked out by hand: what is
//! said, how the run ends, and what it leaves.
#![tactic(auto)]

#[cfg(test)]
mod bays;
#[cfg(test)]
mod blocks;
#[cfg(test)]
mod copies;
#[cfg(test)]
mod failures;
#[cfg(test)]
mod laws;
#[cfg(test)]
mod lies;
#[cfg(test)]
mod refusals;
#[cfg(test)]
mod written;
