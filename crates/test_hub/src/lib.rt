//! Hubs by example: calls at once, the end of one and its audit, the hub that goes on from there, and the growths of
//! opening, closing and changing one refused in turn. Calls with and without memory, and steps that are let go of, are
//! played with rows (`test_rows`).
//!
//! What a hub is played for is a case: a function that is lent an open hub of its own, and answers whether all is as it
//! says. One test plays all cases, since a test costs the proof more than a case.
#![tactic(auto)]

#[cfg(test)]
mod at_once;
#[cfg(test)]
mod audits;
#[cfg(test)]
mod caller;
#[cfg(test)]
mod cases;
#[cfg(test)]
mod changes;
#[cfg(test)]
mod configuration;
#[cfg(test)]
mod growths;
#[cfg(test)]
mod growths_of_changes;
#[cfg(test)]
mod limits;
