//! Every line that the station says.
#![tactic(auto)]

mod fields;
mod forms;
mod line;
mod losses;
mod refusals;
mod report;
mod run;
mod shown;
mod table;
#[cfg(test)]
mod tests;

pub use line::{Line, line_into, memory_line};
pub use shown::ShownName;
