//! Lines of a script, and why a script isn't read.

use roam_core::Event;
use std::alloc::Allocator;

/// A line of a script.
#[derive(Drop)]
pub(crate) enum ScriptLine<A: Allocator> {
    /// Empty, or begins with `#`.
    Skipped,
    /// States an event.
    Event(Event<A>),
    /// Anything else.
    Faulty,
}

/// The cause why a script isn't read.
#[derive(Clone, Copy, Debug)]
pub enum ScriptFault {
    /// The first faulty line. Lines are counted from 1, those that are skipped too.
    Line(u64),
    /// Want of memory, of a script without a faulty line.
    Memory,
}
