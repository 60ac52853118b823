//! The law of the check of a text.
ghost use Rattle.std.specs.Prelude.{◌≡◌, ℕ, List, Some, None};
ghost use Rattle.markup.specs.declared.text.TextError.TheVariants.{Refused};
ghost use Rattle.markup.specs.Characters.{text_error, AllAllowed, FirstRefused};

/// A text with no error is UTF-8 and has only characters that XML 1.0 allows; a refused one has its first other
/// character at the place of the error.
pub fn text_errors_are_exact()
    ensures clean { (bytes : List ℕ) → text_error bytes ≡ None → AllAllowed bytes }
    ensures first { (bytes : List ℕ) (place : ℕ) → text_error bytes ≡ Some (Refused place) → FirstRefused bytes place }
{}
