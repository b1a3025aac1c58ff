//! The count of what was played, and how much of it differed.

use std::io;

/// The count of what was played, and how much of it differed.
#[derive(Clone, Copy)]
pub struct Tally {
    rows: u64,
    events: u64,
    /// The growths that were refused.
    growths: u64,
    /// The stored steps that were looked at.
    stored: u64,
    /// The faulty lines that were looked at.
    faulty_lines: u64,
    /// The number of answers that weren't as the rows say.
    differences: u64,
}

impl Tally {
    pub fn new() -> Tally {
        Tally {
            rows: 0,
            events: 0,
            growths: 0,
            stored: 0,
            faulty_lines: 0,
            differences: 0,
        }
    }

    /// Counts a row and its events.
    pub fn count_row(&mut self, events: usize) {
        self.rows = self.rows.saturating_add(1);
        self.events = self.events.saturating_add(events as u64);
    }

    /// Counts a refused growth.
    pub fn count_growth(&mut self) {
        self.growths = self.growths.saturating_add(1);
    }

    /// Counts stored steps.
    pub fn count_stored(&mut self, steps: usize) {
        self.stored = self.stored.saturating_add(steps as u64);
    }

    /// Counts a faulty line.
    pub fn count_faulty_line(&mut self) {
        self.faulty_lines = self.faulty_lines.saturating_add(1);
    }

    /// Counts a difference: how many there are with it.
    pub fn count_difference(&mut self) -> u64 {
        self.differences = self.differences.saturating_add(1);
        self.differences
    }

    /// Returns whether all is as the rows say.
    pub fn is_clean(&self) -> bool {
        self.differences == 0
    }

    /// Prints the line of counts.
    pub fn print(&self, rt: &impl Print) -> io::Result<()> {
        let counts = [
            (self.rows, " rows, "),
            (self.events, " events, "),
            (self.growths, " refused growths, "),
            (self.stored, " stored steps, "),
            (self.faulty_lines, " faulty lines, "),
            (self.differences, " differences\n"),
        ];
        for (count, what) in counts {
            rt.print(count)?;
            rt.print(what)?;
        }
        Ok(())
    }
}
