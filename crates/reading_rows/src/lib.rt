//! Inventories of a card, files and copies, read over a bay in memory, as tables.
#![tactic(auto)]

#[cfg(test)]
mod copies;
#[cfg(test)]
mod files;
#[cfg(test)]
mod inventories;
