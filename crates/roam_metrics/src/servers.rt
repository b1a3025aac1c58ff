//! The state of the endpoints of home servers.

ghost use Rattle.std.specs.Prelude.{◌≡◌};
ghost use Rattle.roam_metrics.specs.Servers as spec;

use std::fmt;
use std::fmt::{Display, Formatter, Write};

/// The state of a home server's endpoint, as it was seen.
#[derive(Clone, Copy, PartialEq, Eq)]
pub struct Seen {
    /// The milliseconds for which it is marked dead still.
    pub rest: u64,
    /// The number of requests that were given up there since a reply was last taken.
    pub unanswered: u64,
    /// The number of packets that were sent there.
    pub asked: u64,
    /// The number of replies that came from there.
    pub replied: u64,
    /// The number of them that were taken.
    pub taken: u64,
}

/// The state of a home server's endpoint.
#[derive(Clone, Copy, PartialEq, Eq)]
pub enum Standing {
    /// It was asked, so many requests were given up there, and it never answered.
    NeverAnswered(u64),
    /// It kept silent, and no request goes there for so many seconds more where another server is left.
    Rests(u64),
    /// Replies came from there, and all were refused.
    IsRefused,
    /// So many requests were given up there since it last answered.
    Unanswered(u64),
    /// It answers.
    Answers,
    /// It was asked, and hasn't answered yet.
    Asked,
    /// It was never asked.
    NeverAsked,
}

impl Seen {
    /// Returns how it stands.
    pub fn standing(self) -> Standing
        ensures { result ≡ spec.standing_of self }
    {
        if self.replied == 0 && self.unanswered > 0 {
            Standing::NeverAnswered(self.unanswered)
        } else if self.rest > 0 {
            Standing::Rests(self.rest / 1000 + u64::from(self.rest % 1000 > 0))
        } else if self.taken == 0 && self.replied > 0 {
            Standing::IsRefused
        } else if self.unanswered > 0 {
            Standing::Unanswered(self.unanswered)
        } else if self.taken > 0 {
            Standing::Answers
        } else if self.asked > 0 {
            Standing::Asked
        } else {
            Standing::NeverAsked
        }
    }
}

impl Standing {
    /// Returns the standing as a word of JSON.
    pub fn word(self) -> &'static str {
        match self {
            Standing::NeverAnswered(_) => "never_answered",
            Standing::Rests(_) => "rests",
            Standing::IsRefused => "is_refused",
            Standing::Unanswered(_) => "unanswered",
            Standing::Answers => "answers",
            Standing::Asked => "asked",
            Standing::NeverAsked => "never_asked",
        }
    }
}

impl Display for Standing {
    fn fmt<W: Write>(&self, f: &mut Formatter<W>) -> fmt::Result {
        match self {
            Standing::NeverAnswered(requests) => write!(f, "never answered ({requests})"),
            Standing::Rests(seconds) => write!(f, "dead for {seconds} s more"),
            Standing::IsRefused => f.write_str("replies dropped"),
            Standing::Unanswered(requests) => write!(f, "{requests} unanswered"),
            Standing::Answers => f.write_str("answers"),
            Standing::Asked => f.write_str("asked"),
            Standing::NeverAsked => f.write_str("never asked"),
        }
    }
}
