//! The progress of a search, as it is reported on standard error. Errors of the error stream are ignored.

use crate::messages::{Messages, report_keyboard};
use lotos_outcome::NumberText;
use std::fmt;
use std::io::Write;

/// What a search visits.
#[derive(Clone, Copy, Debug)]
pub enum Visited {
    Prefixes,
    States,
    /// The beginnings of a sequence.
    Labels,
    /// Sets of normal forms.
    Sets,
    /// Sets of normal forms, by a command that writes all at once.
    AllSets,
    /// Pairs of sets of normal forms.
    Pairs,
}

/// The number of visits at the first report.
const FIRST_REPORT: usize = 1 << 10;

/// The greatest number of visits between two reports.
const MAX_INTERVAL: usize = 1 << 20;

/// So many terms that a prefix reaches count as one visit more.
const TERMS_OF_VISIT: usize = 1 << 6;

/// Reports to an error stream how far a search is. A terminal has one line, which is renewed, and
/// which is cleared before a line of the output; another stream has a line for each report.
#[derive(Drop)]
pub struct ProgressReport<'a, E> {
    messages: &'a mut Messages<E>,
    /// Whether the terminal shows a report.
    shown: bool,
    counts: Counts,
    /// The number of visits, with those that terms count as.
    work: usize,
    /// That number at the next report.
    next: usize,
}

impl<'a, E: Write> ProgressReport<'a, E> {
    /// A report of a search that has visited nothing. Nothing is written yet.
    pub fn new(messages: &'a mut Messages<E>, visited: Visited) -> ProgressReport<'a, E> {
        ProgressReport {
            messages,
            shown: false,
            counts: Counts {
                visited,
                visits: 0,
                length: 0,
                with_length: 0,
                with_one_less: 0,
                steps: 0,
                dead_ends: 0,
                lines: 0,
            },
            work: 0,
            next: FIRST_REPORT,
        }
    }

    /// The error stream.
    pub fn stream(&mut self) -> &mut E {
        &mut self.messages.stream
    }

    /// Says that the specification is read from the keyboard, if it is.
    pub fn before_text(&mut self) {
        report_keyboard(self.messages);
    }

    /// Notes a visit of a prefix, a state or a set of this length, and reports when it is time to.
    pub fn visit(&mut self, length: usize) {
        self.counts.note(length);
        self.add_work(1);
    }

    /// Notes a visit without a report.
    pub fn count(&mut self, length: usize) {
        self.counts.note(length);
    }

    /// Notes how many steps lead on from a prefix, a state or a set.
    pub fn expand(&mut self, steps: usize) {
        self.counts.steps = self.counts.steps.saturating_add(steps);
        if steps == 0 {
            self.counts.dead_ends = self.counts.dead_ends.saturating_add(1);
        }
    }

    /// How far the search is.
    pub fn counts(&self) -> Counts {
        self.counts
    }

    /// Notes how many terms a prefix reaches, and reports when it is time to.
    pub fn reach(&mut self, terms: usize) {
        self.add_work(terms / TERMS_OF_VISIT);
    }

    fn add_work(&mut self, more: usize) {
        self.work = self.work.saturating_add(more);
        if self.work >= self.next {
            self.report();
            self.next = next_report(self.work);
        }
    }

    /// Notes that a line of the output is written next, and clears the line that a terminal shows.
    pub fn before_line(&mut self) {
        self.counts.lines = self.counts.lines.saturating_add(1);
        self.clear();
    }

    /// Clears the line that a terminal shows.
    pub fn clear(&mut self) {
        if self.shown {
            let _ = write!(self.messages.stream, "\r\x1b[K");
            let _ = self.messages.stream.flush();
            self.shown = false;
        }
    }

    /// What a longer line has left after a renewed one is cleared. The line of a terminal has no line feed, so it is
    /// flushed.
    fn report(&mut self) {
        let _ = if self.messages.terminal {
            write!(self.messages.stream, "\rlotosseq: {}\x1b[K", self.counts)
        } else {
            writeln!(self.messages.stream, "lotosseq: {}", self.counts)
        };
        let _ = self.messages.stream.flush();
        self.shown = self.messages.terminal;
    }
}

/// The number of visits for the report after the one at `visits`: twice as many, up to `MAX_INTERVAL` more.
fn next_report(visits: usize) -> usize {
    visits.saturating_add(visits.min(MAX_INTERVAL))
}

/// Says how far a search was when it ended.
pub fn report_counts<E: Write>(err: &mut E, counts: Counts) {
    let _ = writeln!(err, "lotosseq: at the end: {}", AtTheEnd(counts));
}

/// A number of things that have this name.
#[derive(Clone, Copy, Debug)]
struct Counted(usize, &'static str);

impl fmt::Display for Counted {
    fn fmt<W: fmt::Write>(&self, f: &mut fmt::Formatter<W>) -> fmt::Result {
        write!(f, "{} {}", NumberText(self.0), self.1)?;
        if self.0 != 1 {
            f.write_char('s')?;
        }
        Ok(())
    }
}

/// How far a search is.
#[derive(Clone, Copy, Debug)]
pub struct Counts {
    visited: Visited,
    /// The number of visits.
    visits: usize,
    /// The greatest length of what was visited: of prefixes in labels, of states in steps, of sets in the labels of the
    /// first sequence that reaches each.
    length: usize,
    /// The number of visits of that length.
    with_length: usize,
    /// The number of visits of the length that was the greatest before: of states, whose lengths never fall and grow by
    /// one, the number with one step less.
    with_one_less: usize,
    /// The number of steps that lead on.
    steps: usize,
    /// The number of prefixes, states or sets from which no step leads on.
    dead_ends: usize,
    /// The number of lines.
    lines: usize,
}

impl Counts {
    /// Counts a visit of this length.
    fn note(&mut self, length: usize) {
        self.visits = self.visits.saturating_add(1);
        if length > self.length {
            self.with_one_less = self.with_length;
            self.with_length = 0;
            self.length = length;
        }
        if length == self.length {
            self.with_length = self.with_length.saturating_add(1);
        }
    }
}

/// How far a search was when it ended.
#[derive(Clone, Copy, Debug)]
struct AtTheEnd(Counts);

impl fmt::Display for AtTheEnd {
    /// The set of the empty sequence is counted though it is not visited. Each prefix is visited by one step, so steps are
    /// not counted beside prefixes; and a comparison says itself how many pairs it looked at.
    fn fmt<W: fmt::Write>(&self, f: &mut fmt::Formatter<W>) -> fmt::Result {
        let counts = self.0;
        let length = NumberText(counts.length);
        let sets = Counted(counts.visits.saturating_add(1), "set");
        let steps = Counted(counts.steps, "step");
        let ends = Counted(counts.dead_ends, "dead end");
        let lines = Counted(counts.lines, "line");
        match counts.visited {
            Visited::Prefixes => {
                let prefixes = if counts.visits == 1 {
                    "prefix"
                } else {
                    "prefixes"
                };
                let visits = NumberText(counts.visits);
                write!(f, "length {length}, {visits} {prefixes}, {ends}, {lines}")
            }
            Visited::States => {
                let states = Counted(counts.visits, "state");
                write!(f, "depth {length}, {states}, {steps}, {ends}")
            }
            Visited::Labels => write!(f, "{}", Counted(counts.length, "label")),
            Visited::Sets => write!(f, "length {length}, {sets}, {steps}, {ends}, {lines}"),
            Visited::AllSets => write!(f, "length {length}, {sets}, {steps}, {ends}"),
            Visited::Pairs => write!(f, "length {length}, {steps}, {ends}"),
        }
    }
}

impl fmt::Display for Counts {
    fn fmt<W: fmt::Write>(&self, f: &mut fmt::Formatter<W>) -> fmt::Result {
        let length = NumberText(self.length);
        let visits = NumberText(self.visits);
        match self.visited {
            Visited::Prefixes => {
                let lines = NumberText(self.lines);
                write!(f, "length {length}, {visits} prefixes, {lines} lines")
            }
            Visited::States => {
                let before = NumberText(self.length.saturating_sub(1));
                let (with_one_less, with_length) = (
                    NumberText(self.with_one_less),
                    NumberText(self.with_length),
                );
                write!(
                    f,
                    "{length} steps, {visits} states; {with_one_less} with {before} steps, {with_length} with {length} so far"
                )
            }
            Visited::Labels => write!(f, "{length} labels"),
            Visited::Sets => {
                let lines = NumberText(self.lines);
                write!(f, "length {length}, {visits} sets, {lines} lines")
            }
            Visited::AllSets => write!(f, "length {length}, {visits} sets"),
            Visited::Pairs => write!(f, "length {length}, {visits} pairs of sets"),
        }
    }
}
