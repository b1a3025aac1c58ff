//! The attribute types that the broker looks at (RFC 2865 section 5, RFC 2866 section 5, RFC 2868,
//! RFC 2869, RFC 3579, RFC 4372, RFC 5176, RFC 5580). Every other type is carried as it stands.

pub const USER_NAME: u8 = 1;

pub const USER_PASSWORD: u8 = 2;

pub const CHAP_PASSWORD: u8 = 3;

pub const NAS_IP_ADDRESS: u8 = 4;

pub const STATE: u8 = 24;

pub const VENDOR_SPECIFIC: u8 = 26;

pub const NAS_IDENTIFIER: u8 = 32;

pub const PROXY_STATE: u8 = 33;

pub const ACCT_STATUS_TYPE: u8 = 40;

pub const ACCT_SESSION_ID: u8 = 44;

pub const EVENT_TIMESTAMP: u8 = 55;

pub const CHAP_CHALLENGE: u8 = 60;

pub const TUNNEL_PASSWORD: u8 = 69;

pub const EAP_MESSAGE: u8 = 79;

pub const MESSAGE_AUTHENTICATOR: u8 = 80;

pub const CHARGEABLE_USER_IDENTITY: u8 = 89;

pub const ERROR_CAUSE: u8 = 101;

pub const OPERATOR_NAME: u8 = 126;
