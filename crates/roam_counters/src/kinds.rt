//! The kinds of requests and replies, by their codes (RFC 2865 section 3, RFC 2866 section 3, RFC 5176 section 2.3).

ghost use Rattle.std.specs.Prelude.{◌≡◌};
ghost use Rattle.roam_counters.specs.Kinds as spec;

use roam_wire::code;

/// A request.
#[derive(Clone, Copy, PartialEq, Eq)]
pub enum RequestKind {
    Access,
    Accounting,
    Disconnect,
    Coa,
}

/// A reply.
#[derive(Clone, Copy, PartialEq, Eq)]
pub enum ReplyKind {
    AccessAccept,
    AccessReject,
    AccessChallenge,
    AccountingResponse,
    DisconnectAck,
    DisconnectNak,
    CoaAck,
    CoaNak,
}

/// The cause of a NAK that the proxy itself answers, by its Error-Cause (RFC 5176, section 3.5).
#[derive(Clone, Copy, PartialEq, Eq)]
pub enum NakCause {
    /// 401: the request holds what the broker can't carry.
    UnsupportedAttribute,
    /// 404: it names more than one user, or more than one session.
    InvalidRequest,
    /// 502: there is no access server for it, or it isn't of this realm.
    RequestNotRoutable,
    /// 503: the session that it names isn't open.
    SessionNotFound,
    /// 505: the access server didn't answer.
    OtherProxyProcessingError,
    /// 508: more than one open session is the one that it names.
    MultipleSessions,
}

impl NakCause {
    /// Returns the cause of an Error-Cause; none where the proxy gives no such cause.
    pub fn of(cause: u32) -> Option<NakCause>
        ensures { result ≡ spec.cause_of cause }
    {
        match cause {
            401 => Some(NakCause::UnsupportedAttribute),
            404 => Some(NakCause::InvalidRequest),
            502 => Some(NakCause::RequestNotRoutable),
            503 => Some(NakCause::SessionNotFound),
            505 => Some(NakCause::OtherProxyProcessingError),
            508 => Some(NakCause::MultipleSessions),
            _ => None,
        }
    }

    /// Returns its place among the six.
    pub fn place(self) -> usize
        ensures { result ≡ spec.cause_place self }
    {
        match self {
            NakCause::UnsupportedAttribute => 0,
            NakCause::InvalidRequest => 1,
            NakCause::RequestNotRoutable => 2,
            NakCause::SessionNotFound => 3,
            NakCause::OtherProxyProcessingError => 4,
            NakCause::MultipleSessions => 5,
        }
    }
}

impl RequestKind {
    /// Returns the request of a code, or `None` where the code is no such request's.
    pub fn of(code: u8) -> Option<RequestKind>
        ensures { result ≡ spec.request_of code }
    {
        match code {
            code::ACCESS_REQUEST => Some(RequestKind::Access),
            code::ACCOUNTING_REQUEST => Some(RequestKind::Accounting),
            code::DISCONNECT_REQUEST => Some(RequestKind::Disconnect),
            code::COA_REQUEST => Some(RequestKind::Coa),
            _ => None,
        }
    }

    /// Returns its place among the four.
    pub fn place(self) -> usize
        ensures { result ≡ spec.request_place self }
    {
        match self {
            RequestKind::Access => 0,
            RequestKind::Accounting => 1,
            RequestKind::Disconnect => 2,
            RequestKind::Coa => 3,
        }
    }
}

impl ReplyKind {
    /// Returns the reply of a code, or `None` where the code is no such reply's.
    pub fn of(code: u8) -> Option<ReplyKind>
        ensures { result ≡ spec.reply_of code }
    {
        match code {
            code::ACCESS_ACCEPT => Some(ReplyKind::AccessAccept),
            code::ACCESS_REJECT => Some(ReplyKind::AccessReject),
            code::ACCESS_CHALLENGE => Some(ReplyKind::AccessChallenge),
            code::ACCOUNTING_RESPONSE => Some(ReplyKind::AccountingResponse),
            code::DISCONNECT_ACK => Some(ReplyKind::DisconnectAck),
            code::DISCONNECT_NAK => Some(ReplyKind::DisconnectNak),
            code::COA_ACK => Some(ReplyKind::CoaAck),
            code::COA_NAK => Some(ReplyKind::CoaNak),
            _ => None,
        }
    }

    /// Returns its place among the eight.
    pub fn place(self) -> usize
        ensures { result ≡ spec.reply_place self }
    {
        match self {
            ReplyKind::AccessAccept => 0,
            ReplyKind::AccessReject => 1,
            ReplyKind::AccessChallenge => 2,
            ReplyKind::AccountingResponse => 3,
            ReplyKind::DisconnectAck => 4,
            ReplyKind::DisconnectNak => 5,
            ReplyKind::CoaAck => 6,
            ReplyKind::CoaNak => 7,
        }
    }
}
