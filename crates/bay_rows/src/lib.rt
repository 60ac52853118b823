//! What a bay in memory answers, shows and keeps, as tables.
#![tactic(auto)]

#[cfg(test)]
mod rows;
#[cfg(test)]
mod steps;
