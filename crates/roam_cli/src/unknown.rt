//! The first word of a command line, where no command begins with it.

ghost use Rattle.std.specs.Prelude.{◌≡◌, ◌↔◌, ℕ, List, map, slice_get, IsTrue, MatchOption};
ghost use Rattle.std.specs.Option.{option_copied};
ghost use Rattle.roam_cli.specs.CommandLine.{IsCommandWord, IsUnknown};

use std::convert::AsStr;

/// Returns whether a command begins with a word.
fn is_command_word(word: &str) -> bool
    ensures { IsTrue result ↔ IsCommandWord word.now }
{
    match word {
        "check" | "sim" | "serve" | "ctl" => true,
        "help" | "--help" | "-h" => true,
        "version" | "--version" | "-V" => true,
        _ => false,
    }
}

/// Returns the first word.
fn first_word<'a, S: AsStr>(words: &'a [S]) -> Option<&'a str>
    ensures { option_copied result ≡ slice_get (map S.text words.now) 0 }
{
    match words.first() {
        Some(word) => Some(word.as_str()),
        None => None,
    }
}

/// Returns the first word, where no command begins with it.
pub fn unknown_word<'a, S: AsStr>(words: &'a [S]) -> Option<&'a str>
    ensures { MatchOption result ((word : List ℕ) → ¬ (IsUnknown (map S.text words.now) word))
        (λ word. IsUnknown (map S.text words.now) word.now) }
{
    match first_word(words) {
        Some(word) => {
            if is_command_word(word) {
                None
            } else {
                Some(word)
            }
        }
        None => None,
    }
}
