//! Whole runs of an offload over a bay in memory: what they say, how they end, which calls they make and what they leave, in
//! tables whose rows were worked out by hand.
#![tactic(auto)]

#[cfg(test)]
mod cards;
#[cfg(test)]
mod each_call;
#[cfg(test)]
mod ends;
#[cfg(test)]
mod lies;
#[cfg(test)]
mod orders;
#[cfg(test)]
mod sizes;
#[cfg(test)]
mod starts;
#[cfg(test)]
mod telling;
#[cfg(test)]
mod written;
