//! Laws: no octet of a name forges a line.

ghost use Rattle.roam_metrics.specs.Labels.{ReadsBack};

/// States that a label's value is read back as itself, whatever octets it has, and behind it what was written behind
/// it.
pub fn label_values_read_back()
    ensures { ReadsBack }
{}
