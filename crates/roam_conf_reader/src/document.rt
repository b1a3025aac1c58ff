//! The TOML document that a text is.

ghost use Rattle.std.specs.Prelude.{◌≡◌, ◌⊎◌, Some, None, Err, IfOk, IfErr};
ghost use Rattle.toml.specs.Parse.{parse_document};
ghost use Rattle.toml.specs.View.{table_view};

use crate::ConfFault;
use std::alloc::Global;
use toml::Table;

/// Reads the document that a text is.
pub(crate) fn document(alloc: Global, text: &str) -> Result<Table, ConfFault>
    ensures ok { IfOk result (λ t. parse_document text.now ≡ Some (table_view t)) }
    ensures syntax { result ≡ Err ConfFault.Syntax → parse_document text.now ≡ None }
    ensures causes { IfErr result (λ f. (f ≡ ConfFault.Syntax) ⊎ (f ≡ ConfFault.Memory)) }
{
    match toml::table_from_str(alloc, text) {
        Ok(table) => Ok(table),
        Err(error) => {
            if error.is_memory() {
                Err(ConfFault::Memory)
            } else {
                Err(ConfFault::Syntax)
            }
        }
    }
}
