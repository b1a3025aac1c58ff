//! The line of an exchange that ended.

ghost use Rattle.std.specs.Prelude.{◌≡◌, Some, None, option_map, take};
ghost use Rattle.roam_log.specs.Exchanges as spec;
ghost use Rattle.roam_log.specs.Folded.{once_more, unsaid};
ghost use Rattle.roam_log.specs.Values.{no_value, octets_if, shown_value};

use crate::details::Details;
use roam_admission::RejectCause;
use roam_conf::{Endpoint, ExchangeLines};
use roam_wire::code;

/// The number of octets that an attribute's value has at most (RFC 2865, section 5).
const MOST: usize = 253;

/// The end of an exchange.
#[derive(Clone, Copy, PartialEq, Eq)]
pub enum ExchangeEnd {
    /// A reply of these codes was returned (RFC 2865 section 4, RFC 2866 section 4.2, RFC 5176 section 3).
    Accept,
    Reject,
    Challenge,
    Response,
    Ack,
    Nak,
    /// No server was left for the request.
    GivenUp,
    /// Another request of the same source, port and Identifier took its place.
    Replaced,
    /// The broker rejected it by itself.
    LocalReject,
    /// Its Challenge was returned, and no request went on from it while it was held.
    Abandoned,
}

/// The way in which a home server is silent.
#[derive(Clone, Copy, PartialEq, Eq)]
pub enum Silence {
    /// It has given no valid reply since its table counts.
    Never,
    /// It answered before.
    Stopped,
}

/// Returns how the home server of an exchange that was given up is silent.
pub(crate) fn silence_words(silence: Option<Silence>) -> &'static str
    ensures { result.now ≡ spec.silence_text silence }
{
    match silence {
        Some(Silence::Never) => " why=never_answered",
        Some(Silence::Stopped) => " why=stopped_answering",
        None => "",
    }
}

/// Returns what is usually wrong where a home server is silent so.
pub(crate) fn advice_words(silence: Option<Silence>) -> &'static str
    ensures { result.now ≡ spec.advice_text silence }
{
    match silence {
        Some(Silence::Never) => {
            " hint=\"wrong secret on either side, wrong port, or this proxy is not a client there\""
        }
        Some(Silence::Stopped) | None => "",
    }
}

/// A request's code, as a line names it.
#[derive(Clone, Copy, PartialEq, Eq)]
pub enum RequestWord {
    Access,
    Accounting,
    Disconnect,
    Coa,
    Other,
}

/// The value of an attribute, or that there is none: at most 253 octets, and of a longer one the first of them.
#[derive(Clone, Copy)]
pub struct Value {
    // These lie beside the first octets: whoever reads a short value reads one line of a cache.
    is_there: bool,
    len: u8,
    octets: [u8; MOST],
}

/// An exchange that ended.
#[derive(Clone, Copy)]
pub struct Exchange {
    pub outcome: ExchangeEnd,
    /// Of one that the broker rejected by itself.
    pub why: Option<RejectCause>,
    /// The Error-Cause of the NAK that was returned, where it has one (RFC 5176, section 3.5).
    pub error_cause: Option<u32>,
    /// Of one that was given up: how its home server is silent, where it is.
    pub silence: Option<Silence>,
    pub asked: RequestWord,
    /// The index of its realm; none where the broker rejected it before a realm was asked.
    pub realm: Option<u16>,
    /// The index of the peer that asked, or that a reverse request was sent to.
    pub peer: Option<u16>,
    /// The home server to which it was sent last, or that sent a reverse request: its endpoint there.
    pub server: Option<Endpoint>,
    /// From the request to its end.
    pub milliseconds: u64,
    /// The number of times that it was sent to that server or peer.
    pub tries: u8,
    /// The round of its conversation, from 1 on; 0 where no line tells that.
    pub rounds: u32,
    /// From the first request of its conversation to its end, in milliseconds.
    pub since_first: u64,
    /// The number that were like it within a second: local rejects, or replaced requests, that are alike are one line.
    pub times: u64,
    /// The User-Name and the Calling-Station-Id of the request.
    pub user: Value,
    pub station: Value,
    pub details: Details,
}

impl ExchangeEnd {
    /// Returns the end by a reply's code; none where the code is no such reply's.
    pub fn of(code: u8) -> Option<ExchangeEnd>
        ensures { result ≡ spec.outcome_of code }
    {
        match code {
            code::ACCESS_ACCEPT => Some(ExchangeEnd::Accept),
            code::ACCESS_REJECT => Some(ExchangeEnd::Reject),
            code::ACCESS_CHALLENGE => Some(ExchangeEnd::Challenge),
            code::ACCOUNTING_RESPONSE => Some(ExchangeEnd::Response),
            code::DISCONNECT_ACK | code::COA_ACK => Some(ExchangeEnd::Ack),
            code::DISCONNECT_NAK | code::COA_NAK => Some(ExchangeEnd::Nak),
            _ => None,
        }
    }
}

impl ExchangeEnd {
    /// Returns whether it ends a login or an order: not one of EAP's rounds, nor accounting.
    fn is_final(self) -> bool
        ensures { result ≡ spec.is_final self }
    {
        match self {
            ExchangeEnd::Challenge | ExchangeEnd::Response | ExchangeEnd::Replaced => false,
            ExchangeEnd::Accept
            | ExchangeEnd::Reject
            | ExchangeEnd::Ack
            | ExchangeEnd::Nak
            | ExchangeEnd::GivenUp
            | ExchangeEnd::LocalReject
            | ExchangeEnd::Abandoned => true,
        }
    }

    /// Returns whether a conversation was left.
    pub(crate) fn is_abandoned(self) -> bool
        ensures { result ≡ spec.is_abandoned self }
    {
        match self {
            ExchangeEnd::Abandoned => true,
            ExchangeEnd::Accept
            | ExchangeEnd::Reject
            | ExchangeEnd::Challenge
            | ExchangeEnd::Response
            | ExchangeEnd::Ack
            | ExchangeEnd::Nak
            | ExchangeEnd::GivenUp
            | ExchangeEnd::Replaced
            | ExchangeEnd::LocalReject => false,
        }
    }

    /// Returns whether a line tells of it, where these are told.
    pub fn is_told(self, lines: ExchangeLines) -> bool
        ensures { result ≡ spec.is_told lines self }
    {
        match lines {
            ExchangeLines::OfAll => true,
            ExchangeLines::OfFinal => self.is_final(),
            ExchangeLines::OfNone => false,
        }
    }
}

impl RequestWord {
    /// Returns the word of a request's code.
    pub fn of(code: u8) -> RequestWord
        ensures { result ≡ spec.asked_of code }
    {
        match code {
            code::ACCESS_REQUEST => RequestWord::Access,
            code::ACCOUNTING_REQUEST => RequestWord::Accounting,
            code::DISCONNECT_REQUEST => RequestWord::Disconnect,
            code::COA_REQUEST => RequestWord::Coa,
            _ => RequestWord::Other,
        }
    }
}

impl Exchange {
    /// Makes an exchange that ended so, of which no more is said.
    pub fn unsaid(outcome: ExchangeEnd) -> Exchange
        ensures { result ≡ unsaid outcome }
    {
        Exchange {
            outcome,
            why: None,
            error_cause: None,
            silence: None,
            asked: RequestWord::Other,
            realm: None,
            peer: None,
            server: None,
            user: Value::none(),
            station: Value::none(),
            milliseconds: 0,
            tries: 0,
            rounds: 0,
            since_first: 0,
            times: 1,
            details: Details::none(),
        }
    }

    /// Counts one more like it.
    pub(crate) fn count_one(&mut self)
        ensures { self.new ≡ once_more self.old }
    {
        self.times = self.times.saturating_add(1);
    }
}

impl Value {
    /// Makes the value that isn't there.
    pub fn none() -> Value
        ensures { result ≡ no_value }
    {
        Value {
            is_there: false,
            len: 0,
            octets: [0; MOST],
        }
    }

    /// Makes a value of these octets; of more than 253 the first ones.
    pub fn new(octets: &[u8]) -> Value
        ensures { octets_if result ≡ Some (take 253 octets.now) }
    {
        let mut value = Value::none();
        value.put(octets);
        value
    }

    /// Holds these octets from now on; of more than 253 the first ones.
    fn put(&mut self, octets: &[u8])
        ensures { octets_if self.new ≡ Some (take 253 octets.now) }
    {
        let len = octets.len().min(MOST);
        self.octets[..len].copy_from_slice(&octets[..len]);
        self.is_there = true;
        self.len = len as u8;
    }

    /// Holds these octets from now on, where there are any. Only as many octets are written as it has.
    pub(crate) fn set(&mut self, octets: Option<&[u8]>)
        ensures { octets_if self.new ≡ option_map (take 253) (shown_value octets.entry) }
    {
        match octets {
            Some(octets) => self.put(octets),
            None => self.is_there = false,
        }
    }

    /// Returns the octets, if there is a value.
    pub fn octets(&self) -> Option<&[u8]>
        ensures { shown_value result ≡ octets_if self.now }
    {
        if !self.is_there {
            return None;
        }
        let len = usize::from(self.len).min(MOST);
        Some(&self.octets[..len])
    }
}
