//! The home server in a line.

ghost use Rattle.std.specs.Prelude.{◌≡◌, ◌++◌, OnOk};
ghost use Rattle.std.specs.Net.Text.{ipv4_text};
ghost use Rattle.roam_address.specs.Endpoints.{endpoint_text};
ghost use Rattle.roam_log.specs.Exchanges.{server_text};

use crate::exchange_line::{push, push_number};
use roam_conf::Endpoint;
use std::alloc::AllocError;
use std::io::Write;

/// Adds the four numbers of an IPv4 address, with dots between them.
fn push_dotted(line: &mut Vec<u8>, octets: &[u8; 4]) -> Result<(), AllocError>
    ensures { OnOk result (line.new.items ≡ line.old.items ++ ipv4_text octets.now) }
{
    let [a, b, c, d] = *octets;
    push_number(line, "", u64::from(a))?;
    push_number(line, ".", u64::from(b))?;
    push_number(line, ".", u64::from(c))?;
    push_number(line, ".", u64::from(d))
}

/// Adds an endpoint, as it is printed.
fn push_printed(line: &mut Vec<u8>, endpoint: Endpoint) -> Result<(), AllocError>
    ensures { OnOk result (line.new.items ≡ line.old.items ++ endpoint_text endpoint) }
{
    match write!(line, "{endpoint}") {
        Ok(()) => Ok(()),
        Err(_) => Err(AllocError),
    }
}

/// Adds an endpoint: one of IPv4 without the printing of texts, which takes longer.
fn push_endpoint(line: &mut Vec<u8>, endpoint: Endpoint) -> Result<(), AllocError>
    ensures { OnOk result (line.new.items ≡ line.old.items ++ endpoint_text endpoint) }
{
    let Some(octets) = endpoint.ip.ipv4_octets() else {
        return push_printed(line, endpoint);
    };
    push_dotted(line, &octets)?;
    push_number(line, ":", u64::from(endpoint.port))
}

/// Adds the endpoint of a server, or a hyphen where there is none.
pub(crate) fn push_server(line: &mut Vec<u8>, server: Option<Endpoint>) -> Result<(), AllocError>
    ensures { OnOk result (line.new.items ≡ line.old.items ++ server_text server) }
{
    push(line, b" server=")?;
    let Some(endpoint) = server else {
        return push(line, b"-");
    };
    push_endpoint(line, endpoint)
}
