//! Whole runs of the station over a bay in memory, as tables: words, files and failures, and what is called and said then.
#![tactic(auto)]

#[cfg(test)]
mod lists;
