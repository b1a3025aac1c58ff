//! Laws: sessions that are written are read.

ghost use Rattle.roam_sessions.specs.LedgerLaws.{CutIsRefused, ReadWasWritten, WrittenIsRead};

/// States that written sessions are read.
pub fn written_is_read()
    ensures { WrittenIsRead }
{}

/// States that sessions which are read were so written: no other octets are read for them.
pub fn read_was_written()
    ensures { ReadWasWritten }
{}

/// States that nothing is read of octets that were cut, wherever that is.
pub fn cut_is_refused()
    ensures { CutIsRefused }
{}
