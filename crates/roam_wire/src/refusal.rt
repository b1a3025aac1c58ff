//! The causes why the proxy drops an event.

ghost use Rattle.std.specs.Prelude.{◌≡◌};

use std::alloc::{AllocError, AllocFailed};

/// A growth was refused: there was no memory (refusal 21). Nothing was changed.
#[derive(Clone, Copy, Debug, PartialEq, Eq)]
pub struct NoMemory;

impl From<AllocError> for NoMemory {
    fn from(_error: AllocError) -> NoMemory {
        NoMemory
    }
}

impl<T: Drop> From<AllocFailed<T>> for NoMemory {
    fn from(_error: AllocFailed<T>) -> NoMemory {
        NoMemory
    }
}

/// The cause why the proxy drops a datagram or an event (a refusal). Every refusal leaves the proxy as it was, but that
/// `BadReplyMessageAuthenticator` and `ReplyTooLong` show that a home server is there.
///
/// An arrival is refused by the first of `Short` to `TooLong` whose cause holds, where
/// `TooManyAttributes` stands between `WrongCode` and `BadAuthenticator`, `TooManyHops` between
/// `MissingMessageAuthenticator` and `NoRealm`, and `Stale`, `NotForPeer` and then `AccountingDropped`
/// between `NoRealm` and `TooLong`; and a tick by `NoShard`. Then comes `Moment`; then, for a request, the
/// first of `Exhausted` to `Busy`, where `ShareTaken` stands behind `Exhausted`, and for a reply the
/// first of `NoEntry` to `ReplyTooLong`. `NoMemory` comes wherever a growth was refused.
#[derive(Clone, Copy, Debug, PartialEq, Eq)]
pub enum Refusal {
    /// The datagram has fewer than 20 octets.
    Short,
    /// Length is below 20, above 4096 or above the datagram's size.
    BadLength,
    /// An attribute's Length is below 2 or passes the end.
    BadAttribute,
    /// The source has no shared secret at this place, or the place names no realm.
    UnknownSource,
    /// The code isn't taken at this place from this source.
    WrongCode,
    /// The Request Authenticator of an Accounting-, Disconnect- or CoA-Request is wrong.
    BadAuthenticator,
    /// A request has two Message-Authenticators, one that hasn't 16 octets, or a wrong one.
    BadMessageAuthenticator,
    /// An Access-Request has no Message-Authenticator, and holds EAP-Message or comes from a peer that
    /// is required to send one; or a Status-Server has none.
    MissingMessageAuthenticator,
    /// An Accounting-Request names no configured realm.
    NoRealm,
    /// The forwarded packet, or the local reject, would pass 4096 octets.
    TooLong,
    /// The realm's next ticket is 2^63.
    Exhausted,
    /// No target link has a free Identifier.
    NoIdentifier,
    /// The realm holds as many entries as it may, and all of them wait.
    Busy,
    /// No waiting entry on that link has that Identifier.
    NoEntry,
    /// The reply's code doesn't belong to the forwarded request's code.
    WrongReply,
    /// The Response Authenticator is wrong.
    BadReply,
    /// A reply has two Message-Authenticators, one that hasn't 16 octets, or a wrong one; or an
    /// Access-Accept, -Reject or -Challenge has none, and holds EAP-Message or comes from a home server
    /// that is required to send one.
    BadReplyMessageAuthenticator,
    /// The returned packet would pass 4096 octets.
    ReplyTooLong,
    /// The moment is above 2^62 milliseconds.
    Moment,
    /// The tick names no shard.
    NoShard,
    /// A growth was refused.
    NoMemory,
    /// The shard's trace holds as many steps as it may.
    TraceFull,
    /// The lock's trace is of another shard or opening.
    Misplaced,
    /// An Accounting-, Disconnect- or CoA-Request has more Proxy-States than proxies may have added.
    TooManyHops,
    /// The realm that an Accounting-Request names doesn't take requests of this peer.
    NotForPeer,
    /// The realm that an Accounting-Request names has its accounting dropped.
    AccountingDropped,
    /// As many requests of one code for one name, or of one peer, wait in the realm as may.
    ShareTaken,
    /// A request has more attributes than may be.
    TooManyAttributes,
    /// A Disconnect- or CoA-Request's Event-Timestamp is too far from the wall clock.
    Stale,
}

impl Refusal {
    ghost use Rattle.roam_wire.specs.Refusal.{number_of};

    /// Returns the number of the refusal, from 1 to 29, under which it is logged.
    pub fn number(self) -> u8
        ensures { result ≡ number_of self }
    {
        match self {
            Refusal::Short => 1,
            Refusal::BadLength => 2,
            Refusal::BadAttribute => 3,
            Refusal::UnknownSource => 4,
            Refusal::WrongCode => 5,
            Refusal::BadAuthenticator => 6,
            Refusal::BadMessageAuthenticator => 7,
            Refusal::MissingMessageAuthenticator => 8,
            Refusal::NoRealm => 9,
            Refusal::TooLong => 10,
            Refusal::Exhausted => 11,
            Refusal::NoIdentifier => 12,
            Refusal::Busy => 13,
            Refusal::NoEntry => 14,
            Refusal::WrongReply => 15,
            Refusal::BadReply => 16,
            Refusal::BadReplyMessageAuthenticator => 17,
            Refusal::ReplyTooLong => 18,
            Refusal::Moment => 19,
            Refusal::NoShard => 20,
            Refusal::NoMemory => 21,
            Refusal::TraceFull => 22,
            Refusal::Misplaced => 23,
            Refusal::TooManyHops => 24,
            Refusal::NotForPeer => 25,
            Refusal::AccountingDropped => 26,
            Refusal::ShareTaken => 27,
            Refusal::TooManyAttributes => 28,
            Refusal::Stale => 29,
        }
    }
}

impl From<NoMemory> for Refusal {
    ghost use Rattle.std.specs.Prelude.{◌≡◌};
    ghost use Rattle.roam_wire.specs.declared.refusal.Refusal.TheVariants as refusal;

    ghost from_gives = { λ _ e. e ≡ refusal.NoMemory };

    fn from(_error: NoMemory) -> Refusal {
        Refusal::NoMemory
    }
}
