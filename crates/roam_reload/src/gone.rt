//! The table that stands where a realm or a peer went.

ghost use Rattle.std.specs.Prelude.{◌≡◌, IfOk};
ghost use Rattle.roam_conf.specs.Parts.{shown_peer, shown_realm};
ghost use Rattle.roam_reload.specs.Numbers.{gone_peer, gone_realm};

use roam_conf::{Endpoint, Peer, Realm, SharedSecret};
use std::alloc::{AllocError, Global};

/// Returns what stands where a peer went: its name and addresses, which nothing means any more.
pub(crate) fn gone_peer(alloc: Global, peer: &Peer) -> Result<Peer, AllocError>
    ensures { IfOk result (λ gone. shown_peer gone ≡ gone_peer (shown_peer peer.now)) }
{
    let name = String::from_str(alloc, peer.name.as_str())?;
    let secret = SharedSecret::new(alloc, "-")?;
    let mut ips = Vec::new(alloc);
    ips.extend_from_slice(peer.ips.as_slice())?;
    Ok(Peer {
        gone: true,
        name,
        ips,
        secret,
        coa: None,
        nas_ip: None,
        nas_ipv6: None,
        nas_id: None,
        nas_ids: Vec::new(alloc),
        require_seal: peer.require_seal,
        limit_proxy_state: peer.limit_proxy_state,
        operator_name: None,
        ask_cui: peer.ask_cui,
        request_without: Vec::new(alloc),
        reply_without: Vec::new(alloc),
    })
}

/// Copies the endpoints.
fn copies_of(alloc: Global, endpoints: &[Endpoint]) -> Result<Vec<Endpoint>, AllocError>
    ensures { IfOk result (λ copies. copies.items ≡ endpoints.now) }
{
    let mut copies = Vec::new(alloc);
    copies.extend_from_slice(endpoints)?;
    Ok(copies)
}

/// Returns what stands where a realm went: its name, which nothing means any more, without sockets and servers.
pub(crate) fn gone_realm(alloc: Global, realm: &Realm) -> Result<Realm, AllocError>
    ensures { IfOk result (λ gone. shown_realm gone ≡ gone_realm (shown_realm realm.now)) }
{
    let name = String::from_str(alloc, realm.name.as_str())?;
    let out = copies_of(alloc, realm.out.as_slice())?;
    Ok(Realm {
        gone: true,
        name,
        also: Vec::new(alloc),
        peers: None,
        loop_prevention: realm.loop_prevention,
        accounting: realm.accounting,
        request_without: Vec::new(alloc),
        reply_without: Vec::new(alloc),
        share: realm.share,
        peer_share: realm.peer_share,
        own_names: realm.own_names,
        conversations: realm.conversations,
        by_user: realm.by_user,
        own_sessions: realm.own_sessions,
        coa_clients: Vec::new(alloc),
        out,
        reverse: Vec::new(alloc),
        tries: realm.tries,
        wait: realm.wait,
        hold: realm.hold,
        max_pending: realm.max_pending,
        max_sessions: realm.max_sessions,
        rest: realm.rest,
        rest_after: realm.rest_after,
        servers: Vec::new(alloc),
    })
}
