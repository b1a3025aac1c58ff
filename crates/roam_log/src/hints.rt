//! The usual faults where something is dropped, and the part of a datagram that shows it.

ghost use Rattle.std.specs.Prelude.{◌≡◌, Some};
ghost use Rattle.roam_log.specs.Hints as spec;

use crate::clue::Clue;
use crate::origin::Origin;
use roam_conf::Place;
use roam_wire::Refusal;
use roam_wire::code::{
    ACCESS_REQUEST, ACCOUNTING_REQUEST, COA_REQUEST, DISCONNECT_REQUEST, STATUS_SERVER,
};
use std::fmt;
use std::fmt::{Display, Formatter, Write};

/// Returns what is wrong with the Message-Authenticator of a reply that was refused here.
fn seal_hint(origin: Option<Origin>) -> &'static str
    ensures { result.now ≡ spec.seal_hint origin }
{
    match origin {
        Some(Origin::Unsealed(_, _)) => ": no Message-Authenticator",
        Some(Origin::Datagram(_, _)) => ": wrong Message-Authenticator",
        Some(Origin::Explained(_, _, _) | Origin::Place(_) | Origin::Tick(_)) | None => "",
    }
}

/// Returns who isn't configured, where a datagram of an unknown source came to a place.
fn source_at(place: Place) -> &'static str
    ensures { result.now ≡ spec.source_at place }
{
    match place {
        Place::Auth(_) | Place::Acct(_) => ": no [[peer]] has this address",
        Place::Out(_, _) => {
            ": no home server of this realm, and no coa of a peer, has this address and port"
        }
        Place::Reverse(_, _) => {
            ": no home server and no coa_client of this realm has this address"
        }
    }
}

/// Returns who isn't configured, where a datagram of an unknown source was refused here.
fn source_hint(origin: Option<Origin>) -> &'static str
    ensures { result.now ≡ spec.source_hint origin }
{
    match origin {
        Some(Origin::Datagram(place, _)) => source_at(place),
        Some(
            Origin::Unsealed(_, _)
            | Origin::Explained(_, _, _)
            | Origin::Place(_)
            | Origin::Tick(_),
        )
        | None => "",
    }
}

/// Returns what is usually wrong where this is refused.
pub(crate) fn hint(refusal: Refusal, origin: Option<Origin>) -> &'static str
    ensures { result.now ≡ spec.hint_text refusal origin }
{
    match refusal {
        Refusal::UnknownSource => source_hint(origin),
        Refusal::BadReplyMessageAuthenticator => seal_hint(origin),
        Refusal::Short => ": fewer than 20 octets, so no RADIUS packet",
        Refusal::BadLength => ": its Length is not that of the datagram",
        Refusal::BadAttribute => ": the Length of an attribute is wrong",
        Refusal::BadAuthenticator | Refusal::BadMessageAuthenticator | Refusal::BadReply => {
            ": other secret?"
        }
        Refusal::MissingMessageAuthenticator => {
            ": no Message-Authenticator: update the sender, or see require_seal"
        }
        Refusal::TooLong | Refusal::ReplyTooLong => ": more than 4096 octets with what is added",
        Refusal::NoIdentifier => {
            ": all 256 Identifiers are in use: its servers do not answer or are slow, or it needs one more out"
        }
        Refusal::Busy => ": max_pending requests wait: its servers do not answer or are slow",
        Refusal::NoEntry => ": no request waits for it: too late, or twice",
        Refusal::WrongReply => ": its code does not answer the request",
        Refusal::TooManyHops => ": more Proxy-States than max_hops: is there a loop?",
        Refusal::NotForPeer => ": its realm does not take requests of this peer: see peers",
        Refusal::AccountingDropped => ": its realm has accounting = \"drop\"",
        Refusal::ShareTaken =>
            ": share or peer_share is taken: its servers do not answer or are slow",
        Refusal::TooManyAttributes => ": more attributes than max_attributes",
        _ => "",
    }
}

/// Returns where a request of a code goes that came to `auth` or `acct`.
fn other_code(code: u8) -> &'static str
    ensures { result.now ≡ spec.other_code code }
{
    match code {
        STATUS_SERVER => " (Status-Server): set status_server = true",
        DISCONNECT_REQUEST | COA_REQUEST => " (Disconnect or CoA): it goes to a realm's reverse",
        _ => "",
    }
}

/// Returns what a packet of a code is, and where it goes that came to a place where it isn't taken.
fn code_advice(place: Place, code: u8) -> &'static str
    ensures { result.now ≡ spec.code_advice place code }
{
    match (place, code) {
        (Place::Auth(_), ACCOUNTING_REQUEST) => " (Accounting-Request): accounting goes to acct",
        (Place::Acct(_), ACCESS_REQUEST) => " (Access-Request): logins go to auth",
        (Place::Auth(_) | Place::Acct(_), _) => other_code(code),
        (Place::Out(_, _) | Place::Reverse(_, _), _) => "",
    }
}

/// The realm that is asked for, as far as it is shown.
#[derive(Clone, Copy)]
struct AskedText<'n>(&'n str);

impl Display for AskedText<'_> {
    ghost output = { λ text. Some (spec.asked_text text.0.now) };

    fn fmt<W: Write>(&self, f: &mut Formatter<W>) -> fmt::Result {
        let asked = self.0;
        if asked.is_empty() {
            f.write_str(": its realm is not printable")
        } else {
            write!(f, ": no realm has the name {asked}")
        }
    }
}

/// The part of a datagram that shows what is wrong, with as much of the realm that it asks for as is shown.
#[derive(Clone, Copy)]
struct ShownText<'n> {
    place: Place,
    clue: Clue,
    asked: &'n str,
}

impl Display for ShownText<'_> {
    ghost output = { λ text. Some (spec.shown_text text.place text.clue text.asked.now) };

    fn fmt<W: Write>(&self, f: &mut Formatter<W>) -> fmt::Result {
        match self.clue {
            Clue::Attribute(kind) => write!(f, ": its type is {kind}"),
            Clue::Code(code) => {
                let advice = code_advice(self.place, code);
                write!(f, ": code {code}{advice}")
            }
            Clue::NoUserName => {
                f.write_str(": no User-Name: for Accounting-On and -Off set answer_unnamed = true")
            }
            Clue::NoRealmPart => f.write_str(": its User-Name names no realm"),
            Clue::AsksFor(_) => {
                let asked = AskedText(self.asked);
                write!(f, "{asked}")
            }
            Clue::Behind(seconds) => {
                write!(
                    f,
                    ": its Event-Timestamp is {seconds} s behind the clock here"
                )
            }
            Clue::Ahead(seconds) => {
                write!(
                    f,
                    ": its Event-Timestamp is {seconds} s ahead of the clock here"
                )
            }
        }
    }
}

/// The same of what was refused; nothing where it shows nothing.
#[derive(Clone, Copy)]
pub(crate) struct ClueText<'n> {
    pub origin: Option<Origin>,
    pub asked: &'n str,
}

impl Display for ClueText<'_> {
    ghost output = { λ text. Some (spec.clue_text text.origin text.asked.now) };

    fn fmt<W: Write>(&self, f: &mut Formatter<W>) -> fmt::Result {
        match self.origin {
            Some(Origin::Explained(place, _, clue)) => {
                let shown = ShownText {
                    place,
                    clue,
                    asked: self.asked,
                };
                write!(f, "{shown}")
            }
            _ => f.write_str(""),
        }
    }
}
