//! Laws of cutting, and of all that may happen on a connection.
//! These functions do nothing: their contracts hold of all octets and events.

ghost use Rattle.roam_streams.specs.Laws.{OneCutting, PiecesDoNotMatter, FaultStays};
ghost use Rattle.roam_streams.specs.Laws.{RequestsAreNotRepeated, SendsWhatCame, UsesAreSpaced, WritesWhatWasPut};

/// States how octets are cut.
pub fn cutting()
    ensures one { OneCutting }
    ensures pieces { PiecesDoNotMatter }
    ensures fault { FaultStays }
{}

/// States what is sent of a stream.
pub fn sending()
    ensures { SendsWhatCame }
{}

/// States what is written on a stream.
pub fn writing()
    ensures { WritesWhatWasPut }
{}

/// States how often an Identifier is used toward the proxy.
pub fn spacing()
    ensures { UsesAreSpaced }
{}

/// States how often a request is put on a dialed connection.
pub fn repeating()
    ensures { RequestsAreNotRepeated }
{}
