//! The sessions of a realm that are kept from one run of a server to the next, and those that are taken up again.

ghost use Rattle.std.specs.Prelude.{◌≡◌, ◌≤◌, ◌&&◌, ◌∷◌, [], Some, IfSome, OnErr, OnOk, length, map, not, option_map};
ghost use Rattle.std.specs.Str.{bytes_eq};
ghost use Rattle.roam_conf.specs.Lookup.{first_place};
ghost use Rattle.roam_conf.specs.Parts.{shown_peer};
ghost use Rattle.roam_sessions.specs.ShownLedgers.{shown_session, shown_text};
ghost use Rattle.roam_sessions.specs.Parts.{shown_parts};
ghost use Rattle.roam_sessions.specs.ShownSessions.{shown_octets};
ghost use Rattle.roam_realm.specs.Saving.{saved_session, taken_up};
ghost use Rattle.roam_realm.specs.Stays.{KeepsButSessions};
ghost use Rattle.roam_realm.specs.Written.{GainsOpen, GainsRealm};

use crate::realm_numbers::RealmNumbers;
use crate::realm_settings::RealmSettings;
use roam_conf::Peer;
use roam_sessions::{Item, SessionItem, SessionParts, Text, Writing};
use roam_wire::NoMemory;
use std::alloc::{AllocError, Allocator};

/// Returns the octets of a text, where there is one.
fn octets_of<'a>(text: Option<Text<'a>>) -> Option<&'a [u8]>
    ensures { option_map shown_octets result ≡ option_map shown_text text.entry }
{
    match text {
        Some(text) => Some(text.octets),
        None => None,
    }
}

/// Returns whether a peer is here and has a name.
fn is_named(peer: &Peer, name: &[u8]) -> bool
    ensures { result ≡ (not (shown_peer peer.now).gone && bytes_eq (shown_peer peer.now).name name.now) }
{
    !peer.gone && peer.name.as_bytes() == name
}

/// Finds the first peer that isn't gone and has a name.
fn peer_named(peers: &[Peer], name: &[u8]) -> Option<u16>
    requires { length peers.now ≤ 1024 }
    ensures { result ≡ first_place (λ p. not p.gone && bytes_eq p.name name.now) (map shown_peer peers.now) }
{
    for (index, peer) in peers.iter().enumerate() {
        if is_named(peer, name) {
            return Some(index as u16);
        }
    }
    None
}

/// Makes a text of these octets, where there are any. Returns `None` where a file has no room for them.
fn text_if_any(octets: Option<&[u8]>) -> Option<Option<Text<'_>>>
    ensures { IfSome result (λ text. option_map shown_text text ≡ option_map shown_octets octets.entry) }
{
    match octets {
        None => Some(None),
        Some(octets) => match Text::new(octets) {
            Some(text) => Some(Some(text)),
            None => None,
        },
    }
}

/// Returns what a file of ledgers has of a session, by the name of its peer: nothing where it has no room for a part.
fn item_of<'a>(peers: &'a [Peer], parts: SessionParts<'a>) -> Option<SessionItem<'a>>
    ensures { IfSome result (λ item. saved_session (map shown_peer peers.entry.now) (shown_parts parts.entry)
        ≡ Some (shown_session item)) }
{
    let peer = peers.get(usize::from(parts.peer))?;
    Some(SessionItem {
        peer: Text::new(peer.name.as_bytes())?,
        address: text_if_any(parts.address)?,
        identifier: text_if_any(parts.identifier)?,
        ipv6: text_if_any(parts.ipv6)?,
        id: Text::new(parts.id)?,
    })
}

impl<A: Allocator + Copy> RealmNumbers<A> {
    /// Takes a session up again that was saved, where its peer's name is a peer's. `NoMemory` comes where a growth was
    /// refused, and the ledger is then as it was.
    pub fn restore(
        &mut self,
        settings: &RealmSettings<'_>,
        saved: SessionItem<'_>,
    ) -> Result<(), NoMemory>
        requires { self.old.sessions.limit ≡ settings.now.realm.max_sessions }
        ensures sessions { OnOk result (self.new.sessions.sessions
            ≡ taken_up settings.now (shown_session saved.entry ∷ []) self.old.sessions.sessions) }
        ensures err { OnErr result (self.new.sessions ≡ self.old.sessions) }
        ensures keeps { KeepsButSessions self.old self.new }
    {
        let Some(peer) = peer_named(settings.peers(), saved.peer.octets) else {
            return Ok(());
        };
        self.sessions.restore(SessionParts {
            peer,
            address: octets_of(saved.address),
            identifier: octets_of(saved.identifier),
            ipv6: octets_of(saved.ipv6),
            id: saved.id.octets,
        })
    }

    /// Adds the tickets of all sessions, which rise in the order in which these were opened.
    pub fn add_session_tickets(&self, tickets: &mut Vec<u64, A>) -> Result<(), NoMemory> {
        self.sessions.add_tickets(tickets)
    }

    /// Writes the session of a ticket, where it is still open.
    fn save_one(
        &self,
        settings: &RealmSettings<'_>,
        ticket: u64,
        writing: &mut Writing<A>,
    ) -> Result<(), AllocError>
        ensures { OnOk result (GainsOpen settings.now self.now.sessions.sessions writing.old writing.new) }
    {
        let Some(parts) = self.sessions.parts_of(ticket) else {
            return Ok(());
        };
        let Some(item) = item_of(settings.peers(), parts) else {
            return Ok(());
        };
        writing.put(Item::Session(item))
    }

    /// Writes the sessions of these tickets that are still open.
    pub fn save(
        &self,
        settings: &RealmSettings<'_>,
        tickets: &[u64],
        writing: &mut Writing<A>,
    ) -> Result<(), AllocError>
        ensures { OnOk result (GainsOpen settings.now self.now.sessions.sessions writing.old writing.new) }
    {
        for ticket in tickets {
            self.save_one(settings, *ticket, writing)?;
        }
        Ok(())
    }
}

/// Writes that the sessions of a realm follow.
pub fn save_realm<A: Allocator + Copy>(
    settings: &RealmSettings<'_>,
    writing: &mut Writing<A>,
) -> Result<(), AllocError>
    ensures { OnOk result (GainsRealm settings.now writing.old writing.new) }
{
    let realm = settings.realm();
    match Text::new(realm.name.as_bytes()) {
        Some(name) => writing.put(Item::Realm(name, realm.own_sessions)),
        None => unreachable!(),
    }
}
