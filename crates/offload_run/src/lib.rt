//! The run of an offload: a card's files are copied to one to eight drives and recorded on each, and each drive is sealed, one
//! act a turn.
#![tactic(auto)]

mod beginning;
mod choosing;
mod clearing;
mod copying;
mod dating;
mod drives;
mod offload;
mod recording_turn;
mod saying;
mod sealing;
mod turning;

pub use offload::Offload;
