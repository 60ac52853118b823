//! The acts of an offload on one drive, over a bay in memory, as tables and as a worked case.
#![tactic(auto)]

#[cfg(test)]
mod acts;
#[cfg(test)]
mod first;
#[cfg(test)]
mod worked;
