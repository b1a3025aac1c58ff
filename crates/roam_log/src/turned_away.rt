//! The line of a home server that answers, and whose replies are refused.

ghost use Rattle.std.specs.Prelude.{◌≡◌, Some};
ghost use Rattle.roam_conf.specs.Shown.{shown};
ghost use Rattle.roam_log.specs.Names.{name_of};
ghost use Rattle.roam_log.specs.Senders.{shown_sender, who_sent};
ghost use Rattle.roam_log.specs.TurnedAway as spec;

use crate::origin::Origin;
use crate::sender::{Sender, sender_of};
use crate::text::name_of;
use roam_conf::{Config, Endpoint, Place};
use roam_wire::Refusal;
use std::fmt;
use std::fmt::{Display, Formatter, Write};

/// The cause why a reply that is signed as it ought to be is dropped all the same.
#[derive(Clone, Copy, PartialEq, Eq)]
pub enum ReplyFault {
    /// It has no Message-Authenticator, and ought to.
    NoSeal,
    /// Its Message-Authenticator is wrong.
    WrongSeal,
    /// The packet that would be returned is too long.
    TooLong,
}

/// Replies that are refused: the realm, where they come from, and why.
#[derive(Clone, Copy, PartialEq, Eq)]
pub struct TurnedAway {
    pub realm: u16,
    /// The place, in the realm's `out`, of the socket where they come.
    pub out: u16,
    pub from: Endpoint,
    pub fault: ReplyFault,
}

/// Returns the replies that are refused by this, where it shows that their sender is there and has the right secret.
pub fn turned_away(refusal: Refusal, origin: Origin) -> Option<TurnedAway>
    ensures { result ≡ spec.turned_away refusal origin }
{
    let (realm, out, from, fault) = match (refusal, origin) {
        (Refusal::BadReplyMessageAuthenticator, Origin::Unsealed(Place::Out(realm, out), from)) => {
            (realm, out, from, ReplyFault::NoSeal)
        }
        (Refusal::BadReplyMessageAuthenticator, Origin::Datagram(Place::Out(realm, out), from)) => {
            (realm, out, from, ReplyFault::WrongSeal)
        }
        (Refusal::ReplyTooLong, Origin::Datagram(Place::Out(realm, out), from)) => {
            (realm, out, from, ReplyFault::TooLong)
        }
        _ => return None,
    };
    Some(TurnedAway {
        realm,
        out,
        from,
        fault,
    })
}

/// Returns which refusal it is.
fn fault_text(fault: ReplyFault) -> &'static str
    ensures { result.now ≡ spec.fault_text fault }
{
    match fault {
        ReplyFault::NoSeal | ReplyFault::WrongSeal => "17 BadReplyMessageAuthenticator",
        ReplyFault::TooLong => "18 ReplyTooLong",
    }
}

/// Returns what to do.
fn advice(fault: ReplyFault) -> &'static str
    ensures { result.now ≡ spec.advice_text fault }
{
    match fault {
        ReplyFault::NoSeal => {
            "its replies have no Message-Authenticator: update it, or set require_seal = false"
        }
        ReplyFault::WrongSeal => {
            "the Message-Authenticator of its replies is wrong: update it, or the proxy between"
        }
        ReplyFault::TooLong => "its replies are too long: have it send less",
    }
}

/// Returns who sent them: a home server, or an access server that answers a Disconnect- or CoA-Request.
fn who(sender: Sender<'_>) -> &'static str
    ensures { result.now ≡ spec.who_text sender.entry }
{
    match sender {
        Sender::HomeServer | Sender::Unknown => "home server",
        Sender::Peer(_) => "access server",
    }
}

/// Dropped replies as a line: `home server ADDRESS:PORT of REALM answers, and its replies are dropped (NUMBER NAME):
/// ADVICE`.
#[derive(Clone, Copy)]
pub struct TurnedAwayText<'n> {
    pub sender: Sender<'n>,
    pub from: Endpoint,
    /// The realm's name.
    pub realm: &'n str,
    pub fault: ReplyFault,
}

impl<'n> TurnedAwayText<'n> {
    /// Makes the line of these replies, where this is the configuration.
    pub fn new(config: &'n Config, replies: TurnedAway) -> TurnedAwayText<'n>
        ensures from { result.from ≡ replies.from }
        ensures realm { result.realm.now ≡ name_of (shown config.now).realms (Some replies.realm) }
        ensures fault { result.fault ≡ replies.fault }
        ensures sender { shown_sender result.sender ≡ who_sent (shown config.now)
            (Some (spec.origin_in replies)) }
    {
        let origin = Origin::Datagram(Place::Out(replies.realm, replies.out), replies.from);
        TurnedAwayText {
            sender: sender_of(config, Some(origin)),
            from: replies.from,
            realm: name_of(config, Some(replies.realm)),
            fault: replies.fault,
        }
    }
}

/// The home server that is meant, of its realm.
#[derive(Clone, Copy)]
struct ServerText<'n> {
    sender: Sender<'n>,
    from: Endpoint,
    realm: &'n str,
}

impl Display for ServerText<'_> {
    ghost output = { λ text. Some (spec.server_text text.sender text.from text.realm.now) };

    fn fmt<W: Write>(&self, f: &mut Formatter<W>) -> fmt::Result {
        let who = who(self.sender);
        let from = self.from;
        let realm = self.realm;
        write!(f, "{who} {from} of {realm}")
    }
}

impl Display for TurnedAwayText<'_> {
    ghost output = { λ text. Some (spec.turned_away_text text.sender text.from text.realm.now text.fault) };

    fn fmt<W: Write>(&self, f: &mut Formatter<W>) -> fmt::Result {
        let server = ServerText {
            sender: self.sender,
            from: self.from,
            realm: self.realm,
        };
        let fault = fault_text(self.fault);
        let advice = advice(self.fault);
        write!(
            f,
            "{server} answers, and its replies are dropped ({fault}): {advice}"
        )
    }
}
