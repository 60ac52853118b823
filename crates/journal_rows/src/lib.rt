//! Looks at a drive and the steps of its journal over a bay in memory, as tables.
#![tactic(auto)]

#[cfg(test)]
mod looks;
#[cfg(test)]
mod steps;
