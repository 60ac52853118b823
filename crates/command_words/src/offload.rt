// The row of `offload`.
ghost use Rattle.std.specs.Prelude.{◌≡◌, ◌≢◌, ◌≤◌, ◌+◌, ◌++◌, ℕ, List, true, codes, decimal, slice_index_or, length, MatchOption};
ghost use Rattle.path_text.specs.Kinds.{has_kind};
ghost use Rattle.path_text.specs.Label.{is_label};
ghost use Rattle.path_text.specs.declared.kinds.Kinds.{Kinds};
ghost use Rattle.command_words.specs.declared.command.Command.{Command};
ghost use Rattle.command_words.specs.declared.command.Command.TheVariants.{Offload};
ghost use Rattle.command_words.specs.Jobs.{kinds_text, IsCopiesWord};
ghost use Rattle.command_words.specs.Words.{IsCommand, IsOffloadRow};

use crate::folders::are_folders;
use crate::{Command, WordList};
use path_text::{Kinds, Label};

// The words of a row before its DRIVE words.
const BEFORE_DRIVES: usize = 5;

// The most DRIVE words.
const MOST_DRIVES: usize = 8;

// The labels of a user and a host that a text gives, with `@` between.
fn user_and_host(text: &str) -> Option<(Label, Label)>
    ensures { MatchOption result ((user host : List ℕ) → is_label user ≡ true → is_label host ≡ true → text.now ≢ user ++ codes "@" ++ host) (λ both. (is_label both.0 ≡ true) × (is_label both.1 ≡ true) × (text.now ≡ both.0 ++ codes "@" ++ both.1)) }
{
    let Some((before, after)) = text.split_once('@') else {
        return None;
    };
    let Ok(user) = Label::read(before) else {
        return None;
    };
    let Ok(host) = Label::read(after) else {
        return None;
    };
    Some((user, host))
}

// The kinds that a text names: one or more, in this order, each at most once, joined by `+`.
fn kinds_of(text: &str) -> Option<Kinds>
    ensures { MatchOption result ((kinds : Kinds) → has_kind kinds ≡ true → text.now ≢ kinds_text kinds) (λ kinds. (has_kind kinds ≡ true) × (text.now ≡ kinds_text kinds)) }
{
    let (md5, sha1, xxh) = match text {
        "md5" => (true, false, false),
        "sha1" => (false, true, false),
        "xxh" => (false, false, true),
        "md5+sha1" => (true, true, false),
        "md5+xxh" => (true, false, true),
        "sha1+xxh" => (false, true, true),
        "md5+sha1+xxh" => (true, true, true),
        _ => return None,
    };
    Some(Kinds { md5, sha1, xxh })
}

// The number from 1 to `most` that a text is, without a sign or a leading zero.
fn number_up_to(text: &str, most: u32) -> Option<u32>
    requires { most ≤ 8 }
    ensures { MatchOption result ((n : ℕ) → 1 ≤ n → n ≤ most → text.now ≢ decimal n) (λ n. (1 ≤ n) × (n ≤ most) × (text.now ≡ decimal n)) }
{
    let &[digit] = text.as_bytes() else {
        return None;
    };
    if digit <= b'0' {
        return None;
    }
    let number = u32::from(digit - b'0');
    if number <= most { Some(number) } else { None }
}

// How many drives have to be sealed, of so many, and which kinds are shown: COPIES, which stands for all, or COPIES:KINDS.
fn copies_and_kinds(text: &str, drives: u32) -> Option<(u32, Kinds)>
    requires { drives ≤ 8 }
    ensures { MatchOption result ((copies : ℕ) (kinds : Kinds) → 1 ≤ copies → copies ≤ drives → IsCopiesWord kinds copies text.now → ⊥) (λ both. (1 ≤ both.0) × (both.0 ≤ drives) × IsCopiesWord both.1 both.0 text.now) }
{
    let Some((copies, kinds)) = text.split_once(':') else {
        let all = Kinds {
            md5: true,
            sha1: true,
            xxh: true,
        };
        let Some(copies) = number_up_to(text, drives) else {
            return None;
        };
        return Some((copies, all));
    };
    let Some(copies) = number_up_to(copies, drives) else {
        return None;
    };
    let Some(kinds) = kinds_of(kinds) else {
        return None;
    };
    Some((copies, kinds))
}

// How many DRIVE words there are, if they are one to eight.
fn count_drives(words: &WordList) -> Option<u32>
    ensures { MatchOption result ((drives : ℕ) → 1 ≤ drives → drives ≤ 8 → length words.now ≢ 5 + drives) (λ drives. (1 ≤ drives) × (drives ≤ 8) × (length words.now ≡ 5 + drives)) }
{
    if words.count() <= BEFORE_DRIVES {
        return None;
    }
    let drives = words.count() - BEFORE_DRIVES;
    if drives <= MOST_DRIVES {
        Some(drives as u32)
    } else {
        None
    }
}

/// The command of words of which the first is `offload`; None exactly where they do not fit the row.
pub(crate) fn offload_row(words: &WordList) -> Option<Command>
    requires { slice_index_or words.now 0 (codes "") ≡ codes "offload" }
    ensures { MatchOption result ((name user host : List ℕ) (copies drives : ℕ) (kinds : Kinds) → IsOffloadRow name user host copies kinds drives words.now → ⊥) (IsCommand words.now) }
{
    let Some(drives) = count_drives(words) else {
        return None;
    };
    let Ok(name) = Label::read(words.word(1)) else {
        return None;
    };
    let Some((user, host)) = user_and_host(words.word(2)) else {
        return None;
    };
    let Some((copies, kinds)) = copies_and_kinds(words.word(3), drives) else {
        return None;
    };
    if !are_folders(words, 4) {
        return None;
    }
    Some(Command::Offload {
        name,
        user,
        host,
        copies,
        kinds,
        drives,
    })
}
