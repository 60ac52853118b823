// The words themselves.
ghost use Rattle.std.specs.Prelude.{◌≡◌, ◌<◌, ◌++◌, [], ◌∷◌, ℕ, List, length, slice_index_or, OnOk, OnErr, IfOk};

use std::alloc::{AllocError, Global};
use std::marker::Model;

// One word, seen as its bytes.
#[derive(Drop)]
struct Word {
    text: String,
}

impl Model for Word {
    ghost use Rattle.std.specs.Prelude.{List, ℕ, string_bytes};

    ghost Value = { List ℕ };

    ghost view = { λ a. string_bytes a.text };
}

impl Word {
    fn of(alloc: Global, text: &str) -> Result<Word, AllocError>
        ensures { IfOk result (λ word. word ≡ text.now) }
    {
        Ok(Word {
            text: text.to_owned(alloc)?,
        })
    }

    fn as_str(&self) -> &str
        ensures { result.now ≡ self.now }
    {
        &self.text
    }
}

/// The words of a command line behind the program's name, seen as the list of their bytes.
#[derive(Drop)]
pub struct WordList {
    alloc: Global,
    words: Vec<Word>,
}

impl Model for WordList {
    ghost use Rattle.std.specs.Prelude.{List, ℕ};

    ghost Value = { List (List ℕ) };

    ghost view = { λ a. a.words.items };
}

impl WordList {
    /// No words. Takes no memory.
    pub fn new(alloc: Global) -> WordList
        ensures { result ≡ [] }
    {
        WordList {
            alloc,
            words: Vec::new(alloc),
        }
    }

    /// Adds a copy of a word at the end.
    pub fn push(&mut self, word: &str) -> Result<(), AllocError>
        ensures ok { OnOk result (self.new ≡ self.old ++ word.now ∷ []) }
        ensures err { OnErr result (self.new ≡ self.old) }
    {
        let word = Word::of(self.alloc, word)?;
        self.words.push(word)?;
        Ok(())
    }

    pub fn count(&self) -> usize
        ensures { result ≡ length self.now }
    {
        self.words.len()
    }

    pub fn word(&self, i: usize) -> &str
        requires { i < length self.now }
        ensures { (d : List ℕ) → result.now ≡ slice_index_or self.now i d }
    {
        self.words[i].as_str()
    }
}
