//! A row, and how it is read.
//!
//! A row is a script whose comments say what each event gives. Behind an event or a probe, `#> LINE` names a line of its
//! answer: a packet as it is printed, or `refused N`. Where there is none, nothing is sent. `#! growths N` says that
//! the event before it asks for at most that many growths. `#? EVENT` is a probe of the event before it: it is
//! given only between a call of that event which was refused memory and the same call made again. `# WORDS` says in
//! words what comes next.

use roam_conf::decimal;
use roam_core::Event;
use roam_sim::{ScriptFault, read_script};
use std::alloc::{AllocError, AllocFailed, Allocator, Global};

/// An event or a probe, and what it gives.
#[derive(Drop)]
pub struct Step<A: Allocator> {
    /// The line in the row's file, from 1.
    pub line: usize,
    /// The number of events before it; for a probe, before the event that it belongs to.
    pub place: usize,
    pub event: Event<A>,
    /// The lines of the answer.
    pub answer: String,
    /// The number of growths that it asks for at most, where the row says so.
    pub most_growths: Option<u64>,
}

/// A row, with events that grow over `A`.
#[derive(Drop)]
pub struct Row<A: Allocator> {
    /// The line of its head in its file, from 1.
    pub line: usize,
    pub steps: Vec<Step<A>>,
    pub probes: Vec<Step<A>>,
    /// The lines of all packets that the events give.
    pub packets: String,
    /// True where the last line with an event was a probe.
    is_at_probe: bool,
}

/// The cause why a row isn't read.
#[derive(Drop)]
pub enum RowFault {
    /// The line is none of a row.
    Line(usize),
    Memory,
}

impl From<AllocError> for RowFault {
    fn from(_: AllocError) -> RowFault {
        RowFault::Memory
    }
}

impl<T: Drop> From<AllocFailed<T>> for RowFault {
    fn from(_: AllocFailed<T>) -> RowFault {
        RowFault::Memory
    }
}

/// A line of a row.
#[derive(Clone, Copy)]
enum Line<'t> {
    /// Empty, or a comment in words.
    Words,
    Event(&'t str),
    Probe(&'t str),
    Answer(&'t str),
    Growths(&'t str),
    /// A comment of another form.
    Unknown,
}

impl Line<'_> {
    fn of(text: &str) -> Line<'_> {
        if let Some(answer) = text.strip_prefix("#> ") {
            return Line::Answer(answer);
        }
        if let Some(probe) = text.strip_prefix("#? ") {
            return Line::Probe(probe);
        }
        if let Some(growths) = text.strip_prefix("#! growths ") {
            return Line::Growths(growths);
        }
        if text.is_empty() || text.starts_with("# ") {
            return Line::Words;
        }
        if text.starts_with("#") {
            return Line::Unknown;
        }
        Line::Event(text)
    }
}

/// Appends a line.
fn push_line(text: &mut String, line: &str) -> Result<(), AllocError> {
    text.push_str(line)?;
    text.push('\n')
}

/// The event that a line states.
fn read_event<A: Allocator + Copy>(over: A, line: usize, text: &str) -> Result<Event<A>, RowFault> {
    match read_script(over, text) {
        Ok(mut events) => events.pop().ok_or(RowFault::Line(line)),
        Err(ScriptFault::Line(_)) => Err(RowFault::Line(line)),
        Err(ScriptFault::Memory) => Err(RowFault::Memory),
    }
}

impl<A: Allocator + Copy> Row<A> {
    /// A row without events.
    fn empty(alloc: Global, line: usize) -> Row<A> {
        Row {
            line,
            steps: Vec::new(alloc),
            probes: Vec::new(alloc),
            packets: String::new(alloc),
            is_at_probe: false,
        }
    }

    /// The event or the probe that was read last.
    fn last(&mut self) -> Option<&mut Step<A>> {
        if self.is_at_probe {
            self.probes.last_mut()
        } else {
            self.steps.last_mut()
        }
    }

    /// Takes an event.
    fn push_event(
        &mut self,
        alloc: Global,
        line: usize,
        event: Event<A>,
    ) -> Result<(), AllocFailed<Step<A>>> {
        self.is_at_probe = false;
        self.steps.push(Step {
            line,
            place: self.steps.len(),
            event,
            answer: String::new(alloc),
            most_growths: None,
        })
    }

    /// Takes a probe of the last event.
    fn push_probe(
        &mut self,
        alloc: Global,
        line: usize,
        event: Event<A>,
    ) -> Result<(), AllocFailed<Step<A>>> {
        self.is_at_probe = true;
        self.probes.push(Step {
            line,
            place: self.steps.len().saturating_sub(1),
            event,
            answer: String::new(alloc),
            most_growths: None,
        })
    }

    /// Takes a line of an answer.
    fn push_answer(&mut self, line: usize, answer: &str) -> Result<(), RowFault> {
        if !self.is_at_probe && !answer.starts_with("refused ") {
            push_line(&mut self.packets, answer)?;
        }
        match self.last() {
            Some(step) => Ok(push_line(&mut step.answer, answer)?),
            None => Err(RowFault::Line(line)),
        }
    }

    /// Takes how many growths the last event asks for at most.
    fn bound_growths(&mut self, line: usize, number: &str) -> Result<(), RowFault> {
        match (self.last(), decimal(number, 0, 65535)) {
            (Some(step), Some(most)) => {
                step.most_growths = Some(most);
                Ok(())
            }
            _ => Err(RowFault::Line(line)),
        }
    }

    /// Takes a line.
    fn take(&mut self, alloc: Global, over: A, line: usize, text: &str) -> Result<(), RowFault> {
        match Line::of(text) {
            Line::Words => Ok(()),
            Line::Event(text) => {
                let event = read_event(over, line, text)?;
                Ok(self.push_event(alloc, line, event)?)
            }
            Line::Probe(text) => {
                let event = read_event(over, line, text)?;
                Ok(self.push_probe(alloc, line, event)?)
            }
            Line::Answer(answer) => self.push_answer(line, answer),
            Line::Growths(number) => self.bound_growths(line, number),
            Line::Unknown => Err(RowFault::Line(line)),
        }
    }

    /// Reads a row, whose head stands in this line of its file.
    pub fn read(alloc: Global, over: A, head: usize, script: &str) -> Result<Row<A>, RowFault> {
        let mut row = Row::empty(alloc, head);
        let mut line = head;
        for text in script.split('\n') {
            line = line.saturating_add(1);
            row.take(alloc, over, line, text)?;
        }
        Ok(row)
    }
}
