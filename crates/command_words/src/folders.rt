// The words that name folders.
ghost use Rattle.std.specs.Prelude.{◌≡◌, ◌≤◌, ◌<◌, length, take, drop, slice_index_or, Contains, [], MatchBool};
ghost use Rattle.command_words.specs.Jobs.{AreFolders};

use crate::WordList;

// Whether a word is one of those between two places.
fn is_among(words: &WordList, first: usize, end: usize, word: &str) -> bool
    requires within { (first ≤ end) × (end ≤ length words.now) }
    ensures { MatchBool result (Contains (drop first (take end words.now)) word.now) (Contains (drop first (take end words.now)) word.now → ⊥) }
{
    for i in first..end {
        if words.word(i) == word {
            return true;
        }
    }
    false
}

// Whether the words from a place on name folders: none is empty, and no two are equal.
pub(crate) fn are_folders(words: &WordList, first: usize) -> bool
    requires within { first ≤ length words.now }
    ensures { MatchBool result (AreFolders (drop first words.now)) (AreFolders (drop first words.now) → ⊥) }
{
    for i in first..words.count() {
        let word = words.word(i);
        if word.is_empty() || is_among(words, first, i, word) {
            return false;
        }
    }
    true
}
