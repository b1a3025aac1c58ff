//! The effects of a request, a reply and a tick on a realm.

pub mod admit;
pub mod admit_plan;
pub mod conversations;
pub mod courses;
pub mod evict_done;
pub mod new_requests;
pub mod replaced;
pub mod replies;
pub mod requests;
pub mod share;
pub mod targets;
pub mod ticks;
