// Which command words are.
ghost use Rattle.std.specs.Prelude.{◌≡◌, ◌≢◌, ℕ, List, [], length, slice_index_or, codes, MatchResult, true, false};
ghost use Rattle.path_text.specs.declared.path.PathError.TheVariants.{Memory as NoMemory};
ghost use Rattle.command_words.specs.declared.command.WordsError.TheVariants.{Words};
ghost use Rattle.command_words.specs.Words.{is_list_word, named, IsCommand, IsListRow, FitsNoRow, FitsNoListRow};

use crate::offload::offload_row;
use crate::{Command, WordList, WordsError};
use path_text::{PathError, PathText, is_control};
use std::alloc::Global;

// Why a word that is no path fits no row.
fn words_error(error: PathError) -> WordsError
    ensures { result ≡ Words → error ≢ NoMemory }
{
    match error {
        PathError::Memory => WordsError::Memory,
        _ => WordsError::Words,
    }
}

// The path of a list that a word is.
fn list_word(alloc: Global, word: &str) -> Result<PathText, WordsError>
    ensures { MatchResult result (λ list. (list ≡ word.now) × (is_list_word word.now ≡ true)) (λ e. e ≡ Words → is_list_word word.now ≡ false) }
{
    let list = match PathText::read(alloc, word) {
        Ok(list) => list,
        Err(e) => return Err(words_error(e)),
    };
    if is_control(&list) || word.as_bytes().contains(&b'/') {
        return Err(WordsError::Words);
    }
    Ok(list)
}

// What a first word does with a list; None for a word that does nothing with one.
fn named(name: &str, list: PathText) -> Option<Command>
    ensures { result ≡ named name.now list }
{
    if name == "verify" {
        Some(Command::Verify { list })
    } else if name == "print" {
        Some(Command::Print { list })
    } else {
        None
    }
}

// The command of a row with a list and a folder.
fn list_row(alloc: Global, words: &WordList) -> Result<Command, WordsError>
    ensures { MatchResult result (IsCommand words.now) (λ e. e ≡ Words → FitsNoListRow words.now) }
{
    if words.count() != 3 || words.word(2).is_empty() {
        return Err(WordsError::Words);
    }
    let list = match list_word(alloc, words.word(1)) {
        Ok(list) => list,
        Err(e) => return Err(e),
    };
    match named(words.word(0), list) {
        Some(command) => Ok(command),
        None => Err(WordsError::Words),
    }
}

/// The command that words are: `Words` exactly where they fit no row (docs/FORMATS.md, "Words").
pub fn read_words(alloc: Global, words: &WordList) -> Result<Command, WordsError>
    ensures { MatchResult result (IsCommand words.now) (λ e. e ≡ Words → FitsNoRow words.now) }
{
    if words.count() == 0 || words.word(0) != "offload" {
        return list_row(alloc, words);
    }
    match offload_row(words) {
        Some(command) => Ok(command),
        None => Err(WordsError::Words),
    }
}
