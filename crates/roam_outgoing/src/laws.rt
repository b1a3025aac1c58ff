//! Laws of the packets that a thread is given to send.

ghost use Rattle.roam_outgoing.specs.Sending.{GivenGoesOrWaits};

/// States that each packet that a thread was given to send was handed to its port in its turn and is gone, or waits
/// for it, or is lost; and that it is counted as that.
pub fn given_goes_or_waits()
    ensures { GivenGoesOrWaits }
{}
