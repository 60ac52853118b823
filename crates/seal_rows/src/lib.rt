//! Lists that are sealed on a drive in memory, as tables.
#![tactic(auto)]

#[cfg(test)]
mod lists;
