//! The law of pieces.
ghost use Rattle.std.specs.Prelude.{◌≡◌, ◌<◌, ◌++◌, ℕ, List, length};
ghost use Rattle.markup.specs.Piece.{Piece, IsPiece, spelled};
ghost use Rattle.markup.specs.Mark.{marks_of};

/// Bytes begin with one piece at most.
pub fn pieces_are_exact()
    ensures one { (p q : Piece) (xs ys : List ℕ) → IsPiece p → IsPiece q → spelled p ++ xs ≡ spelled q ++ ys → (marks_of p ≡ marks_of q) × (xs ≡ ys) }
    ensures shorter { (p : Piece) → 0 < length (spelled p) }
{}
