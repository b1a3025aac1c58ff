//! The things that stand in a sessions' file, looked at where they lie.

ghost use Rattle.std.specs.Prelude.{◌≡◌, ◌≤◌, ◌↔◌, IsSome, length, IfSome};

/// At most 255 octets, where they lie.
#[derive(Clone, Copy)]
pub struct Text<'a> {
    pub octets: &'a [u8],
    ghost size: { length octets.now ≤ 255 },
}

impl<'a> Text<'a> {
    /// Makes a text of the octets, if they are at most 255.
    pub fn new(octets: &'a [u8]) -> Option<Text<'a>>
        ensures few { IsSome result ↔ (length octets.entry.now ≤ 255) }
        ensures same { IfSome result (λ text. text.octets.now ≡ octets.entry.now) }
    {
        if octets.len() <= 255 {
            Some(Text { octets })
        } else {
            None
        }
    }
}

/// A session that was open, by names: of its peer, of its access server, where these are kept, and its
/// Acct-Session-Id.
#[derive(Clone, Copy)]
pub struct SessionItem<'a> {
    pub peer: Text<'a>,
    pub address: Option<Text<'a>>,
    pub identifier: Option<Text<'a>>,
    pub ipv6: Option<Text<'a>>,
    pub id: Text<'a>,
}

/// A thing that stands in a sessions' file.
#[derive(Clone, Copy)]
pub enum Item<'a> {
    /// A realm's name, and whether its sessions are told by their access servers.
    Realm(Text<'a>, bool),
    /// A session of the realm that stands last before it.
    Session(SessionItem<'a>),
}
