//! The last word of a command line that would ask for a server, where it is no number of milliseconds.

ghost use Rattle.std.specs.Prelude.{ℕ, List, [], ◌∷◌, codes, map, MatchOption};
ghost use Rattle.roam_cli.specs.CommandLine.{IsUntimed};

use crate::command_line::LONGEST;
use roam_conf::decimal;
use std::convert::AsStr;

/// Returns the last word behind `serve` and a configuration, where it is no number of milliseconds.
fn of_serve<'a>(configuration: &str, last: &'a str) -> Option<&'a str>
    ensures { MatchOption result
        ((word : List ℕ) → ¬ (IsUntimed (codes "serve" ∷ configuration.now ∷ last.now ∷ []) word))
        (λ word. IsUntimed (codes "serve" ∷ configuration.now ∷ last.now ∷ []) word.now) }
{
    match (configuration, decimal(last, 1, LONGEST)) {
        ("--seed-of-file", _) | (_, Some(_)) => None,
        (_, None) => Some(last),
    }
}

/// Returns the last of three words, where it is no number of milliseconds for a server.
fn of_three<'a>(word: &str, configuration: &str, last: &'a str) -> Option<&'a str>
    ensures { MatchOption result
        ((other : List ℕ) → ¬ (IsUntimed (word.now ∷ configuration.now ∷ last.now ∷ []) other))
        (λ other. IsUntimed (word.now ∷ configuration.now ∷ last.now ∷ []) other.now) }
{
    match word {
        "serve" => of_serve(configuration, last),
        _ => None,
    }
}

/// Returns the last of four words, where it is no number of milliseconds for a server.
fn of_four<'a>(word: &str, option: &str, configuration: &str, last: &'a str) -> Option<&'a str>
    ensures { MatchOption result
        ((other : List ℕ) → ¬ (IsUntimed (word.now ∷ option.now ∷ configuration.now ∷ last.now ∷ []) other))
        (λ other. IsUntimed (word.now ∷ option.now ∷ configuration.now ∷ last.now ∷ []) other.now) }
{
    match (word, option, decimal(last, 1, LONGEST)) {
        ("serve", "--seed-of-file", None) => Some(last),
        _ => None,
    }
}

/// Returns the last word, where the words would ask for a server, but it is no number of milliseconds.
pub fn untimed_word<'a, S: AsStr>(words: &'a [S]) -> Option<&'a str>
    ensures { MatchOption result ((word : List ℕ) → ¬ (IsUntimed (map S.text words.now) word))
        (λ word. IsUntimed (map S.text words.now) word.now) }
{
    match words {
        [word, configuration, last] => of_three(
            word.as_str(),
            configuration.as_str(),
            last.as_str(),
        ),
        [word, option, configuration, last] => of_four(
            word.as_str(),
            option.as_str(),
            configuration.as_str(),
            last.as_str(),
        ),
        _ => None,
    }
}
