//! The observer of a command that searches. What it writes to the error stream changes neither output nor status.

use lotos_check::AcceptedText;
use lotos_command::Interface;
use lotos_listing::{Progress, Searched};
use lotos_outcome::{OutputProgress, unknown_names};
use lotos_report::{
    AskedWords, Counts, Messages, NameHint, NamePlaces, ProgressReport, Visited, first_name_hint,
    warn_of_names,
};
use std::alloc::Global;
use std::io::Write;

/// What an observer has to know of a request.
#[derive(Clone, Copy, Debug)]
pub struct Observed<'a> {
    /// The words that may name gates, if the command has any.
    pub words: Option<AskedWords<'a>>,
    /// Which gates of the specification's own list the question is about.
    pub interface: &'a Interface,
    /// Whether reports of progress are asked for.
    pub reports_progress: bool,
    /// Whether a terminal is told no more than another stream.
    pub brief: bool,
    pub visited: Visited,
}

/// An observer that writes to an error stream: whether a specification is read from the keyboard; when it is accepted,
/// which names in the words are none of its gates, if such words are not refused; and how far the search is, if that is
/// asked for.
#[derive(Drop)]
pub(crate) struct SearchObserver<'w, 'm, E> {
    alloc: Global,
    observed: Observed<'w>,
    progress: ProgressReport<'m, E>,
    /// What is to be said if a word is refused because it names no gate.
    hint: Option<NameHint>,
    /// How much was looked at, if no match was found.
    searched: Option<Searched>,
    /// The text, if it is refused.
    text: Vec<u8>,
    /// Whether more is said than elsewhere, since the error stream is a terminal.
    explains: bool,
}

/// What an observer has noted.
#[derive(Drop)]
pub(crate) struct Noted {
    /// What is to be said if a word is refused because it names no gate.
    pub hint: Option<NameHint>,
    /// How much was looked at, if no match was found.
    pub searched: Option<Searched>,
    /// The text if it is refused, or a name of the interface for it; otherwise nothing.
    pub text: Vec<u8>,
    /// How far the search was.
    pub counts: Counts,
    /// Whether more is said than elsewhere, since the error stream is a terminal.
    pub explains: bool,
}

impl<'w, 'm, E: Write> SearchObserver<'w, 'm, E> {
    /// An observer of a command that has read nothing.
    pub fn new(
        alloc: Global,
        observed: Observed<'w>,
        messages: &'m mut Messages<E>,
    ) -> SearchObserver<'w, 'm, E> {
        let explains = messages.terminal && !observed.brief;
        SearchObserver {
            alloc,
            observed,
            progress: ProgressReport::new(messages, observed.visited),
            hint: None,
            searched: None,
            text: Vec::new(alloc),
            explains,
        }
    }

    /// Clears the line that a terminal shows, and returns what was noted.
    pub fn finish(mut self) -> Noted {
        self.progress.clear();
        Noted {
            hint: self.hint.take(),
            searched: self.searched,
            text: self.text,
            counts: self.progress.counts(),
            explains: self.explains,
        }
    }
}

impl<E: Write> Progress for SearchObserver<'_, '_, E> {
    #[inline(always)]
    fn visit(&mut self, length: usize) {
        if self.observed.reports_progress {
            self.progress.visit(length);
        } else if self.explains {
            self.progress.count(length);
        }
    }

    #[inline(always)]
    fn reached(&mut self, terms: usize) {
        if self.observed.reports_progress {
            self.progress.reach(terms);
        }
    }

    #[inline(always)]
    fn expanded(&mut self, steps: usize) {
        if self.explains {
            self.progress.expand(steps);
        }
    }

    fn found_none(&mut self, searched: Searched) {
        self.searched = Some(searched);
    }
}

impl<E: Write> OutputProgress for SearchObserver<'_, '_, E> {
    fn before_text(&mut self) {
        self.progress.before_text();
    }

    fn accepted(&mut self, text: &[u8], accepted_text: &AcceptedText) {
        let Some(asked) = self.observed.words else {
            return;
        };
        let gates = accepted_text.system.gates();
        let Ok(names) = unknown_names(self.alloc, asked.words, gates) else {
            return;
        };
        let places = NamePlaces {
            gates,
            text,
            specification: &accepted_text.specification,
            interface: self.observed.interface,
        };
        if asked.refuses_unknown {
            self.hint = first_name_hint(self.alloc, names.as_slice(), &places);
        } else {
            warn_of_names(
                self.alloc,
                names.as_slice(),
                &places,
                self.progress.stream(),
            );
        }
    }

    fn refused(&mut self, text: Vec<u8>) {
        self.text = text;
    }

    #[inline(always)]
    fn before_line(&mut self) {
        if self.observed.reports_progress {
            self.progress.before_line();
        }
    }
}
