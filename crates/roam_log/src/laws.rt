//! Laws: no octet of a packet forges a line.

ghost use Rattle.roam_log.specs.Printable.{ValuesArePrintable};
ghost use Rattle.roam_log.specs.Quoted.{ReadsBack};

/// States that a value is read back as itself, whatever octets it has, and behind it what was written behind it.
pub fn values_read_back()
    ensures { ReadsBack }
{}

/// States that a value in a line of an exchange is printable in ASCII: no line feed, and nothing that a terminal acts
/// on. Beside the values stand words, numbers and endpoints.
pub fn values_are_printable()
    ensures { ValuesArePrintable }
{}
