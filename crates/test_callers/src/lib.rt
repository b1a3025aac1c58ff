//! A proved caller of each crate, as a server above would write it.
//!
//! They stand above all that they call.
#![tactic(auto)]

pub mod broker_callers;
pub mod callers;
pub mod run_callers;
