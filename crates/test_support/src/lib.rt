//! An allocator for tests, that refuses one growth of a call and lets all others through.
//!
//! A call that allocates answers "no memory" when a growth is refused, and promises in what state
//! it then leaves things. [`Refusing`] stands round another allocator and refuses the growth that
//! a test names: the first of a call, then the second alone, and so on until a run meets no
//! refusal. A `&Refusing` is itself an allocator, and is `Copy`, so it goes wherever
//! `A: Allocator + Copy` is asked for.
//!
//! ```
//! let refusing = Refusing::new(rt.alloc());
//! for n in refusing.each_growth() {
//!     // What the call needs is built first: until `refuse_nth` nothing is refused.
//!     let mut names = Names::new(&refusing);
//!     names.add("first")?;
//!     refusing.refuse_nth(n);
//!     let result = names.add("second");
//!     // An error comes just where a growth was refused.
//!     assert_eq!(rt; result.is_err(), refusing.was_refused(), "at growth {n}");
//!     if result.is_err() {
//!         // Nothing changed, and the same call succeeds now.
//!         assert_eq!(rt; names.len(), 1, "at growth {n}");
//!         names.add("second")?;
//!     }
//!     assert_eq!(rt; names.len(), 2, "at growth {n}");
//! }
//! ```
//!
//! A growth is any block that is asked for: a first one, a larger one, and the smaller one that
//! `shrink_to_fit` asks for. To give a block back is none. Each is counted, whether it is refused,
//! let through, or fails in the allocator below.
//!
//! In the last run the refusal is still to come when the call returns, and the next growth over
//! the same allocator could meet it. So what a run compares with is read from what is there, or
//! built over another allocator.
//!
//! # What is proved, and what is not
//!
//! A `Refusing` is proved to be an allocator: it answers a block of the size and alignment asked
//! for, or an error and no block, and gives back to the allocator below only what came from there.
//! Which growth is refused is proved of the count as a value. A contract can't say what a cell
//! holds, so it is tested and not proved that this count is kept from one growth to the next: no
//! contract says what `refuse_nth`, `was_refused` and `growths` do.
//!
//! It isn't promised that a growth that is let through finds memory. A `Refusing` isn't `Sync`: a
//! test with threads takes another allocator.
//!
//! The beginnings of several crates of tests: the parts of a configuration, and octets of hexadecimal digits.
//!
//! Nothing here ends a test: no crate but a test itself may stop where something is wrong.
#![tactic(auto)]

pub mod configuration;
mod digits;
mod each_growth;
mod plan;
mod refusing;

pub use digits::{octets, octets_mut};
pub use each_growth::EachGrowth;
pub use refusing::Refusing;
