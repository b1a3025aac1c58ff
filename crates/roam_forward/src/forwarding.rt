//! The forwarded packet's octets, written where the request's were copied to.

ghost use Rattle.std.specs.Prelude.{◌≡◌, ◌≢◌};
ghost use Rattle.roam_wire.specs.Packet.{packet_text};
ghost use Rattle.roam_wire.specs.Secret.{IsSecret};
ghost use Rattle.roam_wire.specs.declared.code.TheConstants.{ACCESS_REQUEST};
ghost use Rattle.roam_forward.specs.Forwarded.{forwarded};
ghost use Rattle.roam_forward.specs.Rewriting.{shown, request_in, IsRewritable};

use crate::access::rewrite_access;
use crate::places::{front_packet, put_header, put_ticket};
use crate::terms::Forwarding;
use roam_crypto::{ZERO_OCTETS, seal, sign_request};
use roam_wire::code::ACCESS_REQUEST;

/// Rewrites the octets of a request that is signed, and so isn't an Access-Request, to those of the
/// packet that is forwarded for it (RFC 2866, section 3; RFC 5176, section 2.3).
fn rewrite_signed(octets: &mut [u8], len: usize, forwarding: &Forwarding<'_>)
    requires rewritable { IsRewritable len octets.old }
    requires other_code { (request_in len octets.old).code ≢ ACCESS_REQUEST }
    requires secret { IsSecret forwarding.now.to_secret.now }
    ensures { octets.new
        ≡ packet_text (forwarded (shown forwarding.now) (request_in len octets.old)) }
{
    put_ticket(octets, len, forwarding.ticket);
    put_header(octets, forwarding.id, &ZERO_OCTETS);
    seal(octets, forwarding.to_secret, ZERO_OCTETS);
    sign_request(octets, forwarding.to_secret.octets());
}

/// Rewrites a request's octets to those of the packet that is forwarded for it (RFC 2865, section 2.3),
/// where they lie. The first `len` octets are the request's; behind them is room for what is added, and
/// what stands there doesn't count. Takes no memory.
pub fn rewrite(octets: &mut [u8], len: usize, forwarding: &Forwarding<'_>)
    requires rewritable { IsRewritable len octets.old }
    requires secret { IsSecret forwarding.now.to_secret.now }
    ensures { octets.new
        ≡ packet_text (forwarded (shown forwarding.now) (request_in len octets.old)) }
{
    if front_packet(octets, len).code() == ACCESS_REQUEST {
        rewrite_access(octets, len, forwarding);
    } else {
        rewrite_signed(octets, len, forwarding);
    }
}
