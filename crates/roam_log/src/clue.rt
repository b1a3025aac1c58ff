//! The part of a dropped datagram that shows what is wrong with it.

ghost use Rattle.std.specs.Prelude.{◌≡◌, take, true};
ghost use Rattle.std.specs.List.{list_all};
ghost use Rattle.roam_log.specs.Clues.{IsShown, octets_of};
ghost use Rattle.roam_log.specs.Values.{is_plain};

use crate::exchange_line::are_plain;
use std::str;

/// The number of octets of a realm's name that are kept at most: few names are longer.
const MOST: usize = 47;

/// The realm that a User-Name gives: its first 47 octets.
#[derive(Clone, Copy, PartialEq, Eq)]
pub struct AskedRealm {
    len: u8,
    octets: [u8; MOST],
}

/// The part of a dropped datagram that shows what is wrong with it.
#[derive(Clone, Copy, PartialEq, Eq)]
pub enum Clue {
    /// The Type of its first attribute whose Length is wrong.
    Attribute(u8),
    /// Its code, where that isn't taken.
    Code(u8),
    /// It has no User-Name.
    NoUserName,
    /// Its User-Name has no `@`.
    NoRealmPart,
    /// Its User-Name gives this realm, which isn't configured.
    AsksFor(AskedRealm),
    /// Its Event-Timestamp is so many seconds behind the clock here.
    Behind(u64),
    /// Its Event-Timestamp is so many seconds ahead of the clock here.
    Ahead(u64),
}

impl AskedRealm {
    /// Returns the first octets of a realm's name.
    pub fn new(name: &[u8]) -> AskedRealm
        ensures { octets_of result ≡ take 47 name.now }
    {
        let mut octets = [0; MOST];
        let len = name.len().min(MOST);
        octets[..len].copy_from_slice(&name[..len]);
        AskedRealm {
            len: len as u8,
            octets,
        }
    }

    /// Returns the octets.
    fn octets(&self) -> &[u8]
        ensures { result.now ≡ octets_of self.now }
    {
        let len = usize::from(self.len).min(MOST);
        &self.octets[..len]
    }

    /// Returns the name as a line shows it: nothing of one that isn't printable in ASCII.
    pub(crate) fn shown(&self) -> &str
        ensures same { IsShown (octets_of self.now) result.now }
        ensures plain { list_all is_plain result.now ≡ true }
    {
        let octets = self.octets();
        if !are_plain(octets) {
            return "";
        }
        match str::from_utf8(octets) {
            Ok(name) => name,
            Err(_) => "",
        }
    }
}
