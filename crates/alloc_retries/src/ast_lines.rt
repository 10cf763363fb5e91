//! ASTs as text, with every parenthesis and with the offsets of names.

use crate::lines::{Line, put};
use crate::retry_heap::Stop;
use lotos_text::{Action, Behaviour, Definition, Functionality, Placed, SyncSet};
use std::fmt::Write;

/// Writes a definition with its gates, functionality and body, and its inner definitions in braces.
pub fn write_definition(line: &mut Line, of: &Definition) -> Result<(), Stop> {
    write_call(line, &of.name, of.formals.as_slice())?;
    write!(line, " {} := ", functionality_word(of.functionality))?;
    write_behaviour(line, &of.body)?;
    for inner in &of.inner {
        put(line, " {")?;
        write_definition(line, inner)?;
        put(line, "}")?;
    }
    Ok(())
}

pub fn functionality_word(functionality: Functionality) -> &'static str {
    match functionality {
        Functionality::Exit => "exit",
        Functionality::NoExit => "noexit",
    }
}

fn write_behaviour(line: &mut Line, tree: &Behaviour) -> Result<(), Stop> {
    write_front(line, tree)?;
    match tree {
        Behaviour::Stop | Behaviour::Exit | Behaviour::Call { .. } => Ok(()),
        Behaviour::Prefix { body, .. } | Behaviour::Hide { body, .. } => {
            write_behaviour(line, body)?;
            put(line, ")")
        }
        Behaviour::Choice { left, right }
        | Behaviour::Par { left, right, .. }
        | Behaviour::Enable { left, right, .. }
        | Behaviour::Disable { left, right } => {
            write_behaviour(line, left)?;
            write_sign(line, tree)?;
            write_behaviour(line, right)?;
            put(line, ")")
        }
    }
}

/// Writes what stands in front of the operands of a behaviour, or all of one that has none.
fn write_front(line: &mut Line, tree: &Behaviour) -> Result<(), Stop> {
    match tree {
        Behaviour::Stop => put(line, "stop"),
        Behaviour::Exit => put(line, "exit"),
        Behaviour::Prefix { action, .. } => write_prefix(line, action),
        Behaviour::Hide { gates, .. } => write_names(line, "(hide", gates.as_slice(), " in "),
        Behaviour::Call { name, gates } => write_call(line, name, gates.as_slice()),
        _ => put(line, "("),
    }
}

fn write_prefix(line: &mut Line, action: &Action) -> Result<(), Stop> {
    match action {
        Action::Internal => put(line, "(i; "),
        Action::Gate(gate) => Ok(write!(line, "({}@{}; ", gate.name.text(), gate.at)?),
    }
}

/// Writes what stands between the operands of a behaviour.
fn write_sign(line: &mut Line, tree: &Behaviour) -> Result<(), Stop> {
    match tree {
        Behaviour::Choice { .. } => put(line, " [] "),
        Behaviour::Par { sync, .. } => write_sync(line, sync),
        Behaviour::Enable { at, .. } => Ok(write!(line, " >>@{at} ")?),
        Behaviour::Disable { .. } => put(line, " [> "),
        _ => Ok(()),
    }
}

fn write_sync(line: &mut Line, sync: &SyncSet) -> Result<(), Stop> {
    match sync {
        SyncSet::All => put(line, " || "),
        SyncSet::Gates(gates) => write_names(line, " |[", gates.as_slice(), " ]| "),
    }
}

/// Writes a name, and gates in brackets if there are some.
fn write_call(line: &mut Line, name: &Placed, gates: &[Placed]) -> Result<(), Stop> {
    write!(line, "{}@{}", name.name.text(), name.at)?;
    if gates.is_empty() {
        return Ok(());
    }
    write_names(line, "[", gates, " ]")
}

/// Writes names, each after a blank, between two texts.
fn write_names(line: &mut Line, before: &str, names: &[Placed], after: &str) -> Result<(), Stop> {
    put(line, before)?;
    for placed in names {
        write!(line, " {}@{}", placed.name.text(), placed.at)?;
    }
    put(line, after)
}
