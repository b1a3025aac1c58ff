//! Ledgers of sessions as octets, as a file keeps them from one run of a server to the next.
//!
//! Nothing here touches a file: it makes the octets, and reads them. What a disk does isn't known here.
//!
//! Session control (RFC 5176): for which access server a reverse request is, why it can't be
//! forwarded, and the ledger of a realm's open sessions.
//!
//! Nothing here builds a packet, looks at a clock or knows of more than one realm. Only the ledger
//! takes memory, and a change of it can be prepared: then all its growth is made before anything
//! changes.
//!
//! The ledger is the list of the sessions that are open. Its rows (`chain`) may be more: those that an Accounting-On ended
//! are marked by it (`ended`), aren't found any more (`table`), and are freed by the changes that follow, two by each
//! (`freeing`). So an Accounting-On takes the time of one request, however many sessions it ends.
//!
//! # Proved
//!
//! - what was written is read, and no other octets are read for it; of a file that was cut nothing is read | `write`,
//!   `read`, laws `written_is_read`, `read_was_written`, `cut_is_refused`
//! - which access server a reverse request is for: the one that its Operator-Name names, else the one that its
//!   NAS-IP-Address, NAS-Identifier and NAS-IPv6-Address name | `target`, law `target_is_named`
//! - why it isn't forwarded: the first cause that holds; without one there is a target among the realm's peers, no
//!   salted string, and a User-Name names this realm; with `own_sessions` just one session of the realm's own
//!   agrees with it | `route_of`, laws `forwarded_has_target`, `forwarded_is_of_one_session`
//! - the numbers of status types and of Error-Causes are those of the RFCs | law
//!   `numbers_of_statuses_and_causes`
//! - the ledger of a realm's sessions: what an Accounting-Request does to it, no session twice, never more than
//!   its limit; a peer loses a session to another only where it has more; all allocation comes before the change, and
//!   none is needed where nothing changes | `Sessions`; laws `ledgers_stay_ledgers`, `opened_sessions`,
//!   `closed_sessions`, `sessions_of_a_peer`, `peers_have_shares`
#![tactic(auto)]

mod accounting;
mod asked;
mod bucket_ends;
mod bucketed;
mod buckets;
mod chain;
mod counting;
mod ended;
mod ends;
pub mod error_cause;
mod facets;
mod fault;
mod fields;
mod finding;
mod freeing;
mod groups;
mod item;
mod kept_row;
mod ledger;
mod ledger_laws;
mod linked;
mod links;
mod nas_target;
mod neighbours;
mod newest;
mod open_session;
mod packed_session;
mod parts;
mod reading;
mod row;
mod session;
mod session_laws;
mod session_map;
mod session_rows;
mod short;
mod short_copies;
mod table;
mod writing;

pub use error_cause::route_of;
pub use fault::{LedgerFault, ReadError};
pub use item::{Item, SessionItem, Text};
pub use ledger::Sessions;
pub use ledger_laws::{cut_is_refused, read_was_written, written_is_read};
pub use nas_target::target;
pub use parts::SessionParts;
pub use reading::read;
pub use session::PreparedChange;
pub use session_laws::{
    closed_sessions, forwarded_has_target, forwarded_is_of_one_session, ledgers_stay_ledgers,
    named_requests_need_no_session, numbers_of_statuses_and_causes, opened_sessions,
    peers_have_shares, sessions_of_a_peer, target_is_named,
};
pub use writing::{Writing, write};
