//! The codes of packets (RFC 2865 section 3, RFC 2866 section 3, RFC 5176 section 2.3, RFC 5997
//! section 3).

ghost use Rattle.std.specs.Prelude.{◌≡◌};
ghost use Rattle.roam_wire.specs.Codes.{is_access_reply};

pub const ACCESS_REQUEST: u8 = 1;

pub const ACCESS_ACCEPT: u8 = 2;

pub const ACCESS_REJECT: u8 = 3;

pub const ACCOUNTING_REQUEST: u8 = 4;

pub const ACCOUNTING_RESPONSE: u8 = 5;

pub const ACCESS_CHALLENGE: u8 = 11;

pub const STATUS_SERVER: u8 = 12;

pub const DISCONNECT_REQUEST: u8 = 40;

pub const DISCONNECT_ACK: u8 = 41;

pub const DISCONNECT_NAK: u8 = 42;

pub const COA_REQUEST: u8 = 43;

pub const COA_ACK: u8 = 44;

pub const COA_NAK: u8 = 45;

/// Returns whether a code is Access-Accept, Access-Reject or Access-Challenge (RFC 2865, section 4).
pub fn is_access_reply(code: u8) -> bool
    ensures { result ≡ is_access_reply code }
{
    code == ACCESS_ACCEPT || code == ACCESS_REJECT || code == ACCESS_CHALLENGE
}
