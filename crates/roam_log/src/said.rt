//! The parts of a line of an exchange that come of its request, and of its Access-Accept.

ghost use Rattle.std.specs.Prelude.{◌≡◌, Ok, Err, None, option_and_then};
ghost use Rattle.roam_log.specs.Values.{octets_if};
ghost use Rattle.roam_log.specs.Said as spec;
ghost use Rattle.roam_wire.specs.Attributes.{first_value};
ghost use Rattle.roam_wire.specs.Reading.{reading};
ghost use Rattle.roam_wire.specs.declared.refusal.Refusal.{Refusal};

use crate::details::Details;
use crate::exchange::{Exchange, ExchangeEnd, RequestWord, Value};
use roam_wire::View;
use roam_wire::attribute_type::{
    ACCT_SESSION_ID, ACCT_STATUS_TYPE, ERROR_CAUSE, NAS_IDENTIFIER, USER_NAME,
};
use roam_wire::code::{ACCESS_ACCEPT, COA_NAK, DISCONNECT_NAK};

/// The station that is called, and the one that calls (RFC 2865, sections 5.30 and 5.31).
const CALLED_STATION_ID: u8 = 30;

const CALLING_STATION_ID: u8 = 31;

/// The Type of the attribute that says who is charged (RFC 4372, section 2.2).
const CHARGEABLE_USER_IDENTITY: u8 = 89;

/// The operator of the access network (RFC 5580, section 4.1).
const OPERATOR_NAME: u8 = 126;

/// Has a place keep the value of the first attribute of a type, where there is one.
fn keep(place: &mut Value, packet: &View<'_>, kind: u8)
    ensures { octets_if place.new ≡ spec.told_value kind packet.now }
{
    place.set(packet.first(kind));
}

/// Returns the number that four octets are, the high one first; other octets are none.
pub fn number_in(value: &[u8]) -> Option<u32>
    ensures { result ≡ spec.number_in value.now }
{
    let [a, b, c, d] = value else {
        return None;
    };
    Some(u32::from_be_bytes([*a, *b, *c, *d]))
}

/// Returns the number of the first Acct-Status-Type, where it is one.
fn status_in(request: &View<'_>) -> Option<u32>
    ensures { result ≡ option_and_then spec.number_in (first_value ACCT_STATUS_TYPE request.now.attributes) }
{
    number_in(request.first(ACCT_STATUS_TYPE)?)
}

/// Has details be what a request says.
fn keep_details(details: &mut Details, request: &View<'_>)
    ensures { spec.AreDetailsIn (Ok request.now) details.new }
{
    keep(&mut details.operator, request, OPERATOR_NAME);
    keep(&mut details.nas_id, request, NAS_IDENTIFIER);
    keep(&mut details.called, request, CALLED_STATION_ID);
    details.status = status_in(request);
    keep(&mut details.session, request, ACCT_SESSION_ID);
    details.charged.set(None);
}

/// Has details be none.
fn keep_no_details(details: &mut Details)
    ensures { (fault : Refusal) → spec.AreDetailsIn (Err fault) details.new }
{
    details.operator.set(None);
    details.nas_id.set(None);
    details.called.set(None);
    details.status = None;
    details.session.set(None);
    details.charged.set(None);
}

/// Has an exchange tell nothing but how it ended, and what else it may tell of its request.
fn begin(exchange: &mut Exchange, outcome: ExchangeEnd)
    ensures outcome { exchange.new.outcome ≡ outcome }
    ensures once { (exchange.new.why ≡ None) × (exchange.new.times ≡ 1) }
    ensures bare { (exchange.new.error_cause ≡ None) × (exchange.new.silence ≡ None) }
{
    exchange.outcome = outcome;
    exchange.why = None;
    exchange.error_cause = None;
    exchange.silence = None;
    exchange.realm = None;
    exchange.peer = None;
    exchange.server = None;
    exchange.milliseconds = 0;
    exchange.tries = 0;
    exchange.rounds = 0;
    exchange.since_first = 0;
    exchange.times = 1;
}

/// Has an exchange tell nothing of its request, which isn't read.
fn say_nothing(exchange: &mut Exchange)
    ensures says { (fault : Refusal) → spec.IsSaidBy (Err fault) exchange.new }
    ensures outcome { exchange.new.outcome ≡ exchange.old.outcome }
    ensures once { (exchange.new.why ≡ exchange.old.why) × (exchange.new.times ≡ exchange.old.times) }
    ensures bare { (exchange.new.error_cause ≡ exchange.old.error_cause)
        × (exchange.new.silence ≡ exchange.old.silence) }
{
    exchange.asked = RequestWord::Other;
    exchange.user.set(None);
    exchange.station.set(None);
    keep_no_details(&mut exchange.details);
}

/// Has an exchange tell what its request says.
fn say_of(exchange: &mut Exchange, request: &View<'_>)
    ensures says { spec.IsSaidBy (Ok request.now) exchange.new }
    ensures outcome { exchange.new.outcome ≡ exchange.old.outcome }
    ensures once { (exchange.new.why ≡ exchange.old.why) × (exchange.new.times ≡ exchange.old.times) }
    ensures bare { (exchange.new.error_cause ≡ exchange.old.error_cause)
        × (exchange.new.silence ≡ exchange.old.silence) }
{
    exchange.asked = RequestWord::of(request.code());
    keep(&mut exchange.user, request, USER_NAME);
    keep(&mut exchange.station, request, CALLING_STATION_ID);
    keep_details(&mut exchange.details, request);
}

/// Has an exchange be one that ended so, with what its request says: nothing of who it is for. No more octets of it are
/// written than it tells.
pub(crate) fn say(exchange: &mut Exchange, octets: &[u8], outcome: ExchangeEnd)
    ensures says { spec.IsSaidBy (reading octets.now) exchange.new }
    ensures outcome { exchange.new.outcome ≡ outcome }
    ensures once { (exchange.new.why ≡ None) × (exchange.new.times ≡ 1) }
    ensures bare { (exchange.new.error_cause ≡ None) × (exchange.new.silence ≡ None) }
{
    begin(exchange, outcome);
    match View::read(octets) {
        Ok(view) => say_of(exchange, &view),
        Err(_) => say_nothing(exchange),
    }
}

/// Returns what of an exchange a request says: nothing of who it is for and how it ended.
pub fn said_by(octets: &[u8], outcome: ExchangeEnd) -> Exchange
    ensures says { spec.IsSaidBy (reading octets.now) result }
    ensures outcome { result.outcome ≡ outcome }
    ensures once { (result.why ≡ None) × (result.times ≡ 1) }
    ensures bare { (result.error_cause ≡ None) × (result.silence ≡ None) }
{
    let mut exchange = Exchange::unsaid(outcome);
    say(&mut exchange, octets, outcome);
    exchange
}

/// Returns whether a reply is a NAK (RFC 5176, sections 3.1 and 3.2).
fn is_nak(reply: &View<'_>) -> bool
    ensures { result ≡ spec.is_nak reply.now.code }
{
    reply.code() == DISCONNECT_NAK || reply.code() == COA_NAK
}

/// Returns the number of the first Error-Cause, where it is one (RFC 5176, section 3.5).
fn cause_in(reply: &View<'_>) -> Option<u32>
    ensures { result ≡ option_and_then spec.number_in (first_value ERROR_CAUSE reply.now.attributes) }
{
    number_in(reply.first(ERROR_CAUSE)?)
}

/// Returns the Error-Cause of a reply, where it is a NAK that has one.
pub fn error_cause_of(reply: &[u8]) -> Option<u32>
    ensures { result ≡ spec.error_cause_in (reading reply.now) }
{
    match View::read(reply) {
        Ok(view) if is_nak(&view) => cause_in(&view),
        _ => None,
    }
}

/// Has a place keep who is charged by a reply, where it is an Access-Accept that says so.
pub(crate) fn keep_charged(place: &mut Value, reply: &[u8])
    ensures { octets_if place.new ≡ spec.charged_by (reading reply.now) }
{
    match View::read(reply) {
        Ok(view) if view.code() == ACCESS_ACCEPT => {
            keep(place, &view, CHARGEABLE_USER_IDENTITY);
        }
        _ => place.set(None),
    }
}
