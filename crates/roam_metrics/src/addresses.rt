//! The addresses of a peer in the state of a server.

use roam_conf::Prefix;
use std::fmt;
use std::fmt::{Display, Formatter, Write};

/// The prefixes of a peer as a value of JSON (RFC 8259): one as a string, several as an array of them.
#[derive(Clone, Copy, Drop)]
pub(crate) struct AddressesJson<'a>(pub(crate) &'a [Prefix]);

impl<'a> Display for AddressesJson<'a> {
    fn fmt<W: Write>(&self, f: &mut Formatter<W>) -> fmt::Result {
        let is_array = self.0.len() != 1;
        if is_array {
            f.write_str("[")?;
        }
        for (place, prefix) in self.0.iter().enumerate() {
            let comma = if place == 0 { "" } else { "," };
            write!(f, "{comma}\"{prefix}\"")?;
        }
        if is_array {
            f.write_str("]")?;
        }
        Ok(())
    }
}

/// The prefixes of a peer as a cell of a table: with commas between them.
#[derive(Clone, Copy, Drop)]
pub(crate) struct AddressesCell<'a>(pub(crate) &'a [Prefix]);

impl<'a> Display for AddressesCell<'a> {
    fn fmt<W: Write>(&self, f: &mut Formatter<W>) -> fmt::Result {
        for (place, prefix) in self.0.iter().enumerate() {
            let comma = if place == 0 { "" } else { "," };
            write!(f, "{comma}{prefix}")?;
        }
        Ok(())
    }
}
