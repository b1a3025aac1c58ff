//! The system's reasons.

ghost use Rattle.std.specs.Prelude.{Some};
ghost use Rattle.roam_cli.specs.Report as spec;

use roam_sockets::words_of;
use std::fmt;
use std::fmt::{Display, Formatter, Write};

/// The system's reason: the words of an error, or its number.
#[derive(Clone, Copy)]
pub(crate) struct ReasonText(pub(crate) u32);

impl Display for ReasonText {
    ghost output = { λ reason. Some (spec.reason_text reason.0) };

    fn fmt<W: Write>(&self, f: &mut Formatter<W>) -> fmt::Result {
        let reason = self.0;
        match words_of(reason) {
            Some(words) => write!(f, "{words}"),
            None => write!(f, "error {reason}"),
        }
    }
}
