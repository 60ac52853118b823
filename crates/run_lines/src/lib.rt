//! What the lines of a run say: of each of its drives one line each, all of them in the order of the run, and the card is called
//! clear where enough drives are called sealed.
#![tactic(auto)]

mod laws;

pub use laws::{clears_rightly, lines_in_order, one_line_each};
