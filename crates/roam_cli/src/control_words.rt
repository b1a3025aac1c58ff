//! The meaning of the words of `ctl`.

ghost use Rattle.std.specs.Prelude.{◌↔◌, [], ◌∷◌, codes, IsTrue, MatchOption};
ghost use Rattle.roam_cli.specs.CommandLine.{
  Asks,
  AsksNothing,
  IsOption,
  IsOrder,
  IsOrderWord,
};
ghost use Rattle.roam_cli.specs.Shown.{shown};
ghost use Rattle.roam_cli.specs.declared.command_line.ControlOrder.{ControlOrder};

use crate::command_line::{Command, ControlOrder};
use roam_conf::decimal;

/// The path of the control socket where none is given: that of the unit.
const USUAL_PATH: &str = "/run/roam/control";

/// Returns whether an order begins with the word.
fn is_order_word(word: &str) -> bool
    ensures { IsTrue result ↔ IsOrderWord word.now }
{
    match word {
        "status" | "metrics" | "stop" | "reload" | "trace" => true,
        _ => false,
    }
}

/// Returns whether the word is an option: it begins with a hyphen.
fn is_option(word: &str) -> bool
    ensures { IsTrue result ↔ IsOption word.now }
{
    match word.as_bytes() {
        [b'-', ..] => true,
        _ => false,
    }
}

/// Returns the order of one word.
fn order_of_word<'a>(word: &str) -> Option<ControlOrder<'a>>
    ensures { MatchOption result ((order : ControlOrder) → ¬ (IsOrder (word.now ∷ []) order))
        (λ order. IsOrder (word.now ∷ []) order) }
{
    match word {
        "status" => Some(ControlOrder::Status),
        "metrics" => Some(ControlOrder::Metrics),
        "stop" => Some(ControlOrder::Stop),
        "reload" => Some(ControlOrder::Reload),
        _ => None,
    }
}

/// Returns the order of `status` and a word.
fn order_of_status<'a>(last: &'a str) -> Option<ControlOrder<'a>>
    ensures { MatchOption result
        ((order : ControlOrder) → ¬ (IsOrder (codes "status" ∷ last.now ∷ []) order))
        (λ order. IsOrder (codes "status" ∷ last.now ∷ []) order) }
{
    match last {
        "--json" => Some(ControlOrder::StatusAsJson),
        "--watch" => Some(ControlOrder::Watch),
        "--problems" => Some(ControlOrder::Problems),
        realms => {
            if is_option(realms) {
                None
            } else {
                Some(ControlOrder::StatusOf(realms))
            }
        }
    }
}

/// Returns the order of `reload` and a word.
fn order_of_reload<'a>(last: &str) -> Option<ControlOrder<'a>>
    ensures { MatchOption result
        ((order : ControlOrder) → ¬ (IsOrder (codes "reload" ∷ last.now ∷ []) order))
        (λ order. IsOrder (codes "reload" ∷ last.now ∷ []) order) }
{
    match last {
        "--lose" => Some(ControlOrder::ReloadAndLose),
        _ => None,
    }
}

/// Returns the order of `trace` and a word.
fn order_of_trace<'a>(last: &str) -> Option<ControlOrder<'a>>
    ensures { MatchOption result
        ((order : ControlOrder) → ¬ (IsOrder (codes "trace" ∷ last.now ∷ []) order))
        (λ order. IsOrder (codes "trace" ∷ last.now ∷ []) order) }
{
    match decimal(last, 0, 65535) {
        Some(shard) => Some(ControlOrder::Trace(shard as u16)),
        None => None,
    }
}

/// Returns the order of two words.
fn order_of_words<'a>(word: &str, last: &'a str) -> Option<ControlOrder<'a>>
    ensures { MatchOption result
        ((order : ControlOrder) → ¬ (IsOrder (word.now ∷ last.now ∷ []) order))
        (λ order. IsOrder (word.now ∷ last.now ∷ []) order) }
{
    match word {
        "status" => order_of_status(last),
        "reload" => order_of_reload(last),
        "trace" => order_of_trace(last),
        _ => None,
    }
}

/// Returns what `ctl` and one word ask for.
pub(crate) fn of_one_control_word<'a>(word: &str) -> Option<Command<'a>>
    ensures { MatchOption result (AsksNothing (codes "ctl" ∷ word.now ∷ []))
        (λ c. Asks (codes "ctl" ∷ word.now ∷ []) (shown c)) }
{
    match order_of_word(word) {
        Some(order) => Some(Command::Control {
            path: USUAL_PATH,
            order,
        }),
        None => None,
    }
}

/// Returns what `ctl`, a path and one word ask for.
fn of_path_and_word<'a>(path: &'a str, word: &str) -> Option<Command<'a>>
    requires { ¬ (IsOrderWord path.now) }
    ensures { MatchOption result (AsksNothing (codes "ctl" ∷ path.now ∷ word.now ∷ []))
        (λ c. Asks (codes "ctl" ∷ path.now ∷ word.now ∷ []) (shown c)) }
{
    match order_of_word(word) {
        Some(order) => Some(Command::Control { path, order }),
        None => None,
    }
}

/// Returns what `ctl` and an order of two words ask for.
fn of_two_order_words<'a>(word: &'a str, last: &'a str) -> Option<Command<'a>>
    requires { IsOrderWord word.now }
    ensures { MatchOption result (AsksNothing (codes "ctl" ∷ word.now ∷ last.now ∷ []))
        (λ c. Asks (codes "ctl" ∷ word.now ∷ last.now ∷ []) (shown c)) }
{
    match order_of_words(word, last) {
        Some(order) => Some(Command::Control {
            path: USUAL_PATH,
            order,
        }),
        None => None,
    }
}

/// Returns what `ctl` and two words ask for: the first one is a path, or an order begins with it.
pub(crate) fn of_control<'a>(first: &'a str, last: &'a str) -> Option<Command<'a>>
    ensures { MatchOption result (AsksNothing (codes "ctl" ∷ first.now ∷ last.now ∷ []))
        (λ c. Asks (codes "ctl" ∷ first.now ∷ last.now ∷ []) (shown c)) }
{
    if is_order_word(first) {
        of_two_order_words(first, last)
    } else {
        of_path_and_word(first, last)
    }
}

/// Returns what `ctl`, a path and two words ask for.
fn of_path_and_words<'a>(path: &'a str, word: &str, last: &'a str) -> Option<Command<'a>>
    requires { ¬ (IsOrderWord path.now) }
    ensures { MatchOption result
        (AsksNothing (codes "ctl" ∷ path.now ∷ word.now ∷ last.now ∷ []))
        (λ c. Asks (codes "ctl" ∷ path.now ∷ word.now ∷ last.now ∷ []) (shown c)) }
{
    match order_of_words(word, last) {
        Some(order) => Some(Command::Control { path, order }),
        None => None,
    }
}

/// Returns what `ctl` and three words ask for.
pub(crate) fn of_control_words<'a>(path: &'a str, word: &str, last: &'a str) -> Option<Command<'a>>
    ensures { MatchOption result
        (AsksNothing (codes "ctl" ∷ path.now ∷ word.now ∷ last.now ∷ []))
        (λ c. Asks (codes "ctl" ∷ path.now ∷ word.now ∷ last.now ∷ []) (shown c)) }
{
    if is_order_word(path) {
        None
    } else {
        of_path_and_words(path, word, last)
    }
}
