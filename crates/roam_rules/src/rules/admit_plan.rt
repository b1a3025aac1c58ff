//! The way that is made for a new request.

use crate::rules::replaced::Replaced;
use roam_conf::Link;

/// The way that is made for a new request: the entry of its key goes, and the done one of least ticket, where there are
/// such, and it is forwarded to a link.
#[derive(Clone, Copy)]
pub(crate) struct AdmitPlan {
    pub replaced: Option<Replaced>,
    pub done: Option<u64>,
    pub link: Link,
    /// True where its conversation goes on there: the mark of its link stays as it is then.
    pub bound: bool,
}

/// A link that is chosen for a new request, and whether its conversation goes on there.
#[derive(Clone, Copy)]
pub(crate) struct LinkChoice {
    pub link: Link,
    pub bound: bool,
}
