//! Verifications of a drive over a bay in memory, as tables.
#![tactic(auto)]

#[cfg(test)]
mod verdicts;
