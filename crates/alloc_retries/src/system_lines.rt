//! Checked specifications as text, with every parenthesis and with calls by number.

use crate::ast_lines::functionality_word;
use crate::lines::{Line, put, put_names};
use crate::retry_heap::Stop;
use lotos_check::{CheckFault, Checked, Code, Process};
use lotos_text::Name;
use std::fmt::Write;

/// Writes the gates and the behaviour, then each process.
pub fn write_system(line: &mut Line, system: &Checked) -> Result<(), Stop> {
    put_names(line, "", system.gates(), " := ")?;
    write_code(line, system.start())?;
    for process in system.processes() {
        write_process(line, process)?;
    }
    Ok(())
}

/// Writes a process with its gates, functionality and body.
fn write_process(line: &mut Line, process: &Process) -> Result<(), Stop> {
    write!(line, "; {}", process.name.text())?;
    put_names(line, "", process.formals.as_slice(), " ")?;
    write!(line, "{} := ", functionality_word(process.functionality))?;
    write_code(line, &process.body)
}

/// Writes a fault, its offset, and the processes that it carries.
pub fn write_fault(line: &mut Line, fault: &CheckFault) -> Result<(), Stop> {
    write!(line, " {fault}")?;
    if let Some(at) = fault.at() {
        write!(line, " at {at}")?;
    }
    if let CheckFault::E27 { set, .. } = fault {
        write!(line, " {set:?}")?;
    }
    Ok(())
}

fn write_code(line: &mut Line, code: &Code) -> Result<(), Stop> {
    write_front(line, code)?;
    match code {
        Code::Stop | Code::Exit | Code::Call { .. } => Ok(()),
        Code::Prefix { body, .. } | Code::Hide { body, .. } => {
            write_code(line, body)?;
            put(line, ")")
        }
        Code::Choice { left, right }
        | Code::Par { left, right, .. }
        | Code::Enable { left, right }
        | Code::Disable { left, right } => {
            write_code(line, left)?;
            write_sign(line, code)?;
            write_code(line, right)?;
            put(line, ")")
        }
    }
}

/// Writes what stands in front of the operands of a behaviour, or all of one that has none.
fn write_front(line: &mut Line, code: &Code) -> Result<(), Stop> {
    match code {
        Code::Stop => put(line, "stop"),
        Code::Exit => put(line, "exit"),
        Code::Prefix { action, .. } => write_prefix(line, action),
        Code::Hide { gates, .. } => put_names(line, "(hide", gates.as_slice(), " in "),
        Code::Call { process, gates } => write_call(line, *process, gates.as_slice()),
        _ => put(line, "("),
    }
}

fn write_prefix(line: &mut Line, action: &Option<Name>) -> Result<(), Stop> {
    let action = action.as_ref().map_or("i", |gate| gate.text());
    Ok(write!(line, "({action}; ")?)
}

fn write_call(line: &mut Line, process: usize, gates: &[Name]) -> Result<(), Stop> {
    write!(line, "{process}")?;
    put_names(line, "", gates, "")
}

/// Writes what stands between the operands of a behaviour.
fn write_sign(line: &mut Line, code: &Code) -> Result<(), Stop> {
    match code {
        Code::Choice { .. } => put(line, " [] "),
        Code::Par { sync, .. } => write_sync(line, sync),
        Code::Enable { .. } => put(line, " >> "),
        Code::Disable { .. } => put(line, " [> "),
        _ => Ok(()),
    }
}

fn write_sync(line: &mut Line, sync: &Option<Vec<Name>>) -> Result<(), Stop> {
    match sync {
        Some(gates) => put_names(line, " |[", gates.as_slice(), " ]| "),
        None => put(line, " || "),
    }
}
