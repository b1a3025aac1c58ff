//! Tests of calls that no row makes: rows (`test_rows`) show what the broker answers to events. Beside two of a realm they
//! are what is told of refusals, of exchanges and by the program, the seats of callers, and a clock and a source of seeds
//! that fail.
#![tactic(auto)]

#[cfg(test)]
mod configuration;
#[cfg(test)]
mod examples;
#[cfg(test)]
mod exchange_tests;
#[cfg(test)]
mod fault_tests;
#[cfg(test)]
mod last_ticket;
#[cfg(test)]
mod line_tests;
#[cfg(test)]
mod realm;
#[cfg(test)]
mod seat_tests;
#[cfg(test)]
mod system_tests;
#[cfg(test)]
mod tick_room;
#[cfg(test)]
mod told_tests;
