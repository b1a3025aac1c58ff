//! The mark of a link to a home server that does not answer.

ghost use Rattle.std.specs.Prelude.{◌≡◌, ◌≤◌, ◌^◌};
ghost use Rattle.roam_realm.specs.Rests.{awake, is_resting, once_chosen, once_heard, once_silent, one_more};

use crate::realm_settings::RealmSettings;

/// The mark of a link whose home server does not answer: until when it is dead, and how often it left a request without
/// an answer.
#[derive(Clone, Copy)]
pub struct Rest {
    /// Until when, in milliseconds. `None` where it doesn't rest.
    pub until: Option<u64>,
    /// The number of requests that were given up there since it last gave a sign of life: at most 256.
    pub given_up: u16,
    /// The number of signs of life that it has given, modulo 2^64.
    pub signs: u64,
}

/// Returns how many requests were given up once one more was: at most 256.
fn one_more(count: u16) -> u16
    ensures { result ≡ one_more count }
{
    if count < 256 { count + 1 } else { count }
}

impl Rest {
    /// Makes the state of a link that isn't marked dead, at which no request was given up, and which has given no
    /// sign of life.
    pub fn awake() -> Rest
        ensures { result ≡ awake }
    {
        Rest {
            until: None,
            given_up: 0,
            signs: 0,
        }
    }

    /// Returns whether it rests at a moment.
    pub(crate) fn is_resting(self, now: u64) -> bool
        ensures { result ≡ is_resting now self }
    {
        match self.until {
            None => false,
            Some(until) => now < until,
        }
    }

    /// Returns the state once its link is chosen: where there is a moment, in the past or not, it is `now + rest`.
    pub(crate) fn once_chosen(self, settings: &RealmSettings<'_>, now: u64) -> Rest
        requires moment { now ≤ 2 ^ 62 }
        ensures { result ≡ once_chosen settings.now now self }
    {
        let until = match self.until {
            None => None,
            Some(_) => Some(now + u64::from(settings.rest())),
        };
        Rest {
            until,
            given_up: self.given_up,
            signs: self.signs,
        }
    }

    /// Returns the state once a request was given up at its link: that is counted, and where it was so for the
    /// `rest_after`th time or more, the link is marked dead until `now + rest`.
    pub(crate) fn once_silent(self, settings: &RealmSettings<'_>, now: u64) -> Rest
        requires moment { now ≤ 2 ^ 62 }
        ensures { result ≡ once_silent settings.now now self }
    {
        let given_up = one_more(self.given_up);
        let until = if given_up >= settings.rest_after() {
            Some(now + u64::from(settings.rest()))
        } else {
            self.until
        };
        Rest {
            until,
            given_up,
            signs: self.signs,
        }
    }

    /// Returns the state once its link gave a sign of life: the link isn't marked dead, and no request counts as
    /// given up.
    pub(crate) fn once_heard(self) -> Rest
        ensures { result ≡ once_heard self }
    {
        Rest {
            until: None,
            given_up: 0,
            signs: self.signs.wrapping_add(1),
        }
    }
}
