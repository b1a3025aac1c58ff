//! The meaning of the words of a command line.

ghost use Rattle.std.specs.Prelude.{[], ◌∷◌, map, MatchOption};
ghost use Rattle.roam_cli.specs.CommandLine.{Asks, AsksNothing};
ghost use Rattle.roam_cli.specs.Shown.{shown};

use crate::control_words::{of_control, of_control_words, of_one_control_word};
use roam_conf::decimal;
use std::convert::AsStr;

/// The most milliseconds for which a server can be asked: a day.
pub(crate) const LONGEST: u64 = 86_400_000;

/// The order to a server through its control socket.
#[derive(Clone, Copy)]
pub enum ControlOrder<'a> {
    /// The state of the server.
    Status,
    /// The state of the realms of these names, and of their home servers; between the names stand commas.
    StatusOf(&'a str),
    /// The part of the state that is bad.
    Problems,
    /// The same, as JSON.
    StatusAsJson,
    /// The same, anew each second.
    Watch,
    /// The counts, all of them.
    Metrics,
    /// To stop.
    Stop,
    /// To read its configuration again, and to serve that one, if nothing is lost by that.
    Reload,
    /// The same, whatever is lost.
    ReloadAndLose,
    /// The stored steps of a shard, as a script.
    Trace(u16),
}

/// The command that the program is given.
#[derive(Clone, Copy)]
pub enum Command<'a> {
    /// To say how much there is in a configuration: `check CONF`.
    Check {
        /// The path of the file with the configuration.
        configuration: &'a str,
    },
    /// To state a configuration with all its defaults: `check --all CONF`.
    CheckAll {
        /// The path of the file with the configuration.
        configuration: &'a str,
    },
    /// To say what becomes of each realm when a configuration follows another: `check OLD NEW`.
    Compare {
        /// The path of the file with the configuration that serves.
        configuration: &'a str,
        /// The path of the file with the one that is to follow it.
        next: &'a str,
    },
    /// To run a script over a configuration: `sim CONF SCRIPT`.
    Sim {
        /// The path of the file with the configuration.
        configuration: &'a str,
        /// The path of the file with the script.
        script: &'a str,
    },
    /// To serve a configuration with a seed that is drawn: `serve CONF [MS]`.
    Serve {
        /// The path of the file with the configuration.
        configuration: &'a str,
        /// The milliseconds for which it serves, from 1 to 86,400,000; without end where none are given.
        milliseconds: Option<u64>,
    },
    /// To serve a configuration with its own seed: `serve --seed-of-file CONF [MS]`.
    ServeWithItsSeed {
        /// The path of the file with the configuration.
        configuration: &'a str,
        /// The milliseconds for which it serves, as above.
        milliseconds: Option<u64>,
    },
    /// To ask a server something through its control socket: `ctl [PATH] ORDER`.
    Control {
        /// The path of the socket; that of the unit where none is given.
        path: &'a str,
        /// The order: `status`, `status` with `--json`, `--watch`, `--problems` or `REALM[,REALM..]`, `metrics`,
        /// `stop`, `reload`, `reload --lose` or `trace N`.
        order: ControlOrder<'a>,
    },
    /// To print the usage: `help`, `--help` or `-h`.
    Help,
    /// To print which program this is: `version`, `--version` or `-V`.
    Version,
}

/// Returns what one word asks for.
fn of_one_word<'a>(word: &str) -> Option<Command<'a>>
    ensures { MatchOption result (AsksNothing (word.now ∷ []))
        (λ c. Asks (word.now ∷ []) (shown c)) }
{
    match word {
        "help" | "--help" | "-h" => Some(Command::Help),
        "version" | "--version" | "-V" => Some(Command::Version),
        _ => None,
    }
}

/// Returns what two words ask for.
fn of_two_words<'a>(word: &str, last: &'a str) -> Option<Command<'a>>
    ensures { MatchOption result (AsksNothing (word.now ∷ last.now ∷ []))
        (λ c. Asks (word.now ∷ last.now ∷ []) (shown c)) }
{
    match (word, last) {
        ("check", "--all") | ("serve", "--seed-of-file") => None,
        ("check", configuration) => Some(Command::Check { configuration }),
        ("serve", configuration) => Some(Command::Serve {
            configuration,
            milliseconds: None,
        }),
        ("ctl", order) => of_one_control_word(order),
        _ => None,
    }
}

/// Returns what three words ask for.
fn of_three_words<'a>(word: &str, first: &'a str, last: &'a str) -> Option<Command<'a>>
    ensures { MatchOption result (AsksNothing (word.now ∷ first.now ∷ last.now ∷ []))
        (λ c. Asks (word.now ∷ first.now ∷ last.now ∷ []) (shown c)) }
{
    match (word, first, decimal(last, 1, LONGEST)) {
        ("check", "--all", _) => Some(Command::CheckAll {
            configuration: last,
        }),
        ("check", configuration, _) => Some(Command::Compare {
            configuration,
            next: last,
        }),
        ("sim", configuration, _) => Some(Command::Sim {
            configuration,
            script: last,
        }),
        ("serve", "--seed-of-file", _) => Some(Command::ServeWithItsSeed {
            configuration: last,
            milliseconds: None,
        }),
        ("serve", configuration, Some(milliseconds)) => Some(Command::Serve {
            configuration,
            milliseconds: Some(milliseconds),
        }),
        ("ctl", first, _) => of_control(first, last),
        _ => None,
    }
}

/// Returns what four words ask for.
fn of_four_words<'a>(
    word: &str,
    option: &'a str,
    configuration: &'a str,
    last: &'a str,
) -> Option<Command<'a>>
    ensures { MatchOption result
        (AsksNothing (word.now ∷ option.now ∷ configuration.now ∷ last.now ∷ []))
        (λ c. Asks (word.now ∷ option.now ∷ configuration.now ∷ last.now ∷ []) (shown c)) }
{
    match (word, option, decimal(last, 1, LONGEST)) {
        ("serve", "--seed-of-file", Some(milliseconds)) => Some(Command::ServeWithItsSeed {
            configuration,
            milliseconds: Some(milliseconds),
        }),
        ("ctl", path, _) => of_control_words(path, configuration, last),
        _ => None,
    }
}

impl<'a> Command<'a> {
    /// Returns the command that the words after the program's name ask for, or `None` where they ask for none.
    pub fn from_words<S: AsStr>(words: &'a [S]) -> Option<Command<'a>>
        ensures { MatchOption result (AsksNothing (map S.text words.now))
            (λ c. Asks (map S.text words.now) (shown c)) }
    {
        match words {
            [word] => of_one_word(word.as_str()),
            [word, configuration] => of_two_words(word.as_str(), configuration.as_str()),
            [word, first, last] => of_three_words(word.as_str(), first.as_str(), last.as_str()),
            [word, option, configuration, last] => of_four_words(
                word.as_str(),
                option.as_str(),
                configuration.as_str(),
                last.as_str(),
            ),
            _ => None,
        }
    }
}
