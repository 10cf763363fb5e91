//! Names in the words of a pattern that are no gates of a specification: warnings of them, and what could be meant. What
//! there is no memory for is left out.

use crate::element_hints::write_element_hint;
use lotos_check::{AcceptedText, accept};
use lotos_command::Interface;
use lotos_explain::{formal_gate, hidden_gate, similar_name};
use lotos_outcome::{NumberText, UnknownName};
use lotos_text::{Name, Specification, line_column};
use std::alloc::{AllocError, Global};
use std::fmt;
use std::io::Write;

/// The most names for which hints are looked for: each walk goes through the whole specification.
const MOST_HINTS: usize = 8;

/// Where it is looked for what could be meant by a name: the gates that the question is about, the text of the
/// specification, the specification, and the interface that leaves these gates of its own list.
#[derive(Clone, Copy, Drop)]
pub struct NamePlaces<'a, 'b, 'c, 'd> {
    pub gates: &'a [Name],
    pub text: &'b [u8],
    pub specification: &'c Specification,
    pub interface: &'d Interface,
}

/// What could be meant by a name that is no gate of the specification.
#[derive(Debug, Drop)]
pub struct NameHint {
    /// The name in upper case.
    name: String,
    /// The most similar gate that the question is about.
    similar: Option<Name>,
    inside: Option<Inside>,
}

/// What a name is in the specification, though the question is about no gate of this name.
#[derive(Debug, Drop)]
enum Inside {
    /// A gate in the specification's own list that `--hide` names.
    Named,
    /// A gate in the specification's own list that `--only` does not name.
    Unnamed,
    /// A gate in the list of a `hide`, at this line and this column.
    Hidden(usize, usize),
    /// A formal gate of the process with this name.
    Formal(Name),
}

/// Warns of each of these names that are no gates, and says what could be meant: an element, or a gate.
pub fn warn_of_names<E: Write>(
    alloc: Global,
    names: &[UnknownName<'_>],
    places: &NamePlaces<'_, '_, '_, '_>,
    err: &mut E,
) {
    for k in 0..names.len() {
        warn_of_name(&names[k], err);
        if k < MOST_HINTS {
            if names[k].alone {
                write_element_hint(alloc, names[k].word, names[k].name, err);
            }
            if let Ok(hint) = hint_for(alloc, names[k].name, places) {
                write_name_hint(&hint, err);
            }
        }
    }
}

/// The hint for the first of these names that are no gates; none if there is no such name, or no memory for it.
pub fn first_name_hint(
    alloc: Global,
    names: &[UnknownName<'_>],
    places: &NamePlaces<'_, '_, '_, '_>,
) -> Option<NameHint> {
    let first = names.first()?;
    hint_for(alloc, first.name, places).ok()
}

/// The hint for a name that is no gate in the own list of the specification that a text spells; none if the text spells
/// none that is accepted, or there is no memory for it.
pub(crate) fn hint_in_text(alloc: Global, text: &[u8], name: &str) -> Option<NameHint> {
    let AcceptedText {
        specification,
        system,
    } = accept(alloc, text).ok()?;
    let places = NamePlaces {
        gates: system.gates(),
        text,
        specification: &specification,
        interface: &Interface::Whole,
    };
    hint_for(alloc, name, &places).ok()
}

impl NameHint {
    /// The name in upper case.
    pub(crate) fn name(&self) -> &str {
        self.name.as_str()
    }
}

/// Writes a line for each thing that could be meant.
pub fn write_name_hint<E: Write>(hint: &NameHint, err: &mut E) {
    let _ = write!(err, "{hint}");
}

fn warn_of_name<E: Write>(unknown: &UnknownName<'_>, err: &mut E) {
    let number = NumberText(unknown.word);
    let name = unknown.name;
    let _ = writeln!(
        err,
        "lotosseq: word {number}, {name}, is no gate of the specification and never matches"
    );
}

/// What could be meant by a name that is no gate.
fn hint_for(
    alloc: Global,
    name: &str,
    places: &NamePlaces<'_, '_, '_, '_>,
) -> Result<NameHint, AllocError> {
    let name = name.to_ascii_uppercase(alloc)?;
    if let Some(inside) = left_out(name.as_str(), places) {
        return Ok(NameHint {
            name,
            similar: None,
            inside: Some(inside),
        });
    }
    let similar = match similar_name(alloc, name.as_str(), places.gates)? {
        Some(gate) => Some(gate.copy(alloc)?),
        None => None,
    };
    let inside = find_inside(alloc, name.as_str(), places.text, places.specification)?;
    Ok(NameHint {
        name,
        similar,
        inside,
    })
}

/// What the name is if it is in the specification's own list, where the question is about no gate of this name.
fn left_out(name: &str, places: &NamePlaces<'_, '_, '_, '_>) -> Option<Inside> {
    let inside = match places.interface {
        Interface::Whole => return None,
        Interface::Hide(_) => Inside::Named,
        Interface::Only(_) => Inside::Unnamed,
    };
    for gate in &places.specification.whole.formals {
        if gate.name.text() == name {
            return Some(inside);
        }
    }
    None
}

/// What the name is inside the specification: a hidden gate, or else a formal gate of a process.
fn find_inside(
    alloc: Global,
    name: &str,
    text: &[u8],
    specification: &Specification,
) -> Result<Option<Inside>, AllocError> {
    if let Some(at) = hidden_gate(specification, name) {
        if at > text.len() {
            return Ok(None);
        }
        let (line, column) = line_column(text, at);
        return Ok(Some(Inside::Hidden(line, column)));
    }
    match formal_gate(specification, name) {
        Some(process) => Ok(Some(Inside::Formal(process.copy(alloc)?))),
        None => Ok(None),
    }
}

impl fmt::Display for NameHint {
    fn fmt<W: fmt::Write>(&self, f: &mut fmt::Formatter<W>) -> fmt::Result {
        if let Some(gate) = &self.similar {
            let gate = gate.text();
            writeln!(
                f,
                "lotosseq: a gate of the specification has a similar name: {gate}"
            )?;
        }
        let name = self.name.as_str();
        match &self.inside {
            Some(Inside::Named) => writeln!(f, "lotosseq: {name} is hidden by --hide"),
            Some(Inside::Unnamed) => writeln!(f, "lotosseq: {name} is not in --only"),
            Some(Inside::Hidden(line, column)) => {
                let line = NumberText(*line);
                let column = NumberText(*column);
                writeln!(
                    f,
                    "lotosseq: {name} is hidden at {line}:{column}, so it is not observed"
                )
            }
            Some(Inside::Formal(process)) => {
                let process = process.text();
                writeln!(
                    f,
                    "lotosseq: {name} is a formal gate of the process {process}, and stands for the gate that a call gives"
                )
            }
            None => Ok(()),
        }
    }
}
