//! The manner in which a configuration is served, beside what the proxy does by it.

use roam_admin::FileOrder;
use roam_conf::ExchangeLines;
use roam_log::StationForm;

/// The file by which ledgers of sessions outlast a server.
#[derive(Drop)]
pub struct StateFile {
    pub path: String,
    /// The milliseconds between two writings of it.
    pub every: u64,
}

/// The manner in which a configuration is served.
pub struct Manner {
    /// Of which exchanges that end a line tells.
    pub told_exchanges: ExchangeLines,
    /// The form of a Calling-Station-Id in these lines.
    pub stations: StationForm,
    /// The place where session tables outlast the server, if anywhere.
    pub state: Option<StateFile>,
    /// The place that its file has for each realm; none where that is by the numbers that the server has for them.
    pub order: Option<FileOrder>,
}

// By hand, so that a proof sees one call wherever it ends, and not each of its parts.
impl Drop for Manner {
    fn drop(self) {
        let Self {
            told_exchanges: _,
            stations: _,
            state,
            order,
        } = self;
        drop(state);
        drop(order);
    }
}
