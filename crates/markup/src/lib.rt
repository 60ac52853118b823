//! The pieces of a document: tags, comments, instructions, references and text (docs/FORMATS.md, "Markup").
#![tactic(auto)]

mod law;
mod reference;
mod scan;
mod tag;
mod text;
mod text_law;
mod token;

pub use law::pieces_are_exact;
pub use scan::{is_white_space, skip_space};
pub use text::{TextError, check_text};
pub use text_law::text_errors_are_exact;
pub use token::{MarkupError, Token, next_token, value_of};

#[cfg(test)]
mod tests;
