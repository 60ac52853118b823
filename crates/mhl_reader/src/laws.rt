//! The laws of reading.
ghost use Rattle.std.specs.Prelude.{◌≡◌, ◌⊎◌, ℕ, List};
ghost use Rattle.mhl_writer.specs.ListText.{Values, IsCanonical, list_text};
ghost use Rattle.mhl_reader.specs.declared.error.ReadError.{ReadError};
ghost use Rattle.mhl_reader.specs.declared.error.ReadError.TheVariants.{Memory};
ghost use Rattle.mhl_reader.specs.Reading.{Reading, FirstFault};

/// Bytes have a meaning or a first fault, one of the two and one only, and want of memory is no fault; the text of a
/// canonical list reads as that list.
pub fn reading_is_exact()
    ensures one { (bytes : List ℕ) (a b : Values) → Reading bytes a → Reading bytes b → a ≡ b }
    ensures fault { (bytes : List ℕ) (e f : ReadError) → FirstFault bytes e → FirstFault bytes f → e ≡ f }
    ensures either { (bytes : List ℕ) → ((list : Values) × Reading bytes list) ⊎ ((fault : ReadError) × FirstFault bytes fault) }
    ensures none { (bytes : List ℕ) (fault : ReadError) (list : Values) → FirstFault bytes fault → Reading bytes list → ⊥ }
    ensures memory { (bytes : List ℕ) → FirstFault bytes Memory → ⊥ }
    ensures canonical { (list : Values) → IsCanonical list → Reading (list_text list) list }
{}
