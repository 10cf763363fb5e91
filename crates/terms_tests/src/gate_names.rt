//! The names of the gates that occur in a specification.
use lotos_check::{Checked, Code};
use lotos_text::Name;
use std::alloc::{AllocError, Global};

/// The names of the gates of a specification, in order and each once.
pub fn names_of(alloc: Global, checked: &Checked) -> Result<Vec<String>, AllocError> {
    let mut names = Vec::new(alloc);
    add_names(alloc, &mut names, checked.gates())?;
    add_gates(alloc, &mut names, checked.start())?;
    for process in checked.processes() {
        add_names(alloc, &mut names, process.formals.as_slice())?;
        add_gates(alloc, &mut names, &process.body)?;
    }
    names.sort_unstable();
    names.dedup();
    Ok(names)
}

/// The texts of names.
pub fn texts_of(alloc: Global, names: &[Name]) -> Result<Vec<String>, AllocError> {
    let mut texts = Vec::new(alloc);
    add_names(alloc, &mut texts, names)?;
    Ok(texts)
}

fn add_names(alloc: Global, into: &mut Vec<String>, names: &[Name]) -> Result<(), AllocError> {
    for name in names {
        add_name(alloc, into, name)?;
    }
    Ok(())
}

fn add_name(alloc: Global, into: &mut Vec<String>, name: &Name) -> Result<(), AllocError> {
    into.push(String::from_str(alloc, name.text())?)?;
    Ok(())
}

/// Appends the names of the gates that occur in a behaviour.
fn add_gates(alloc: Global, into: &mut Vec<String>, code: &Code) -> Result<(), AllocError> {
    add_own_gates(alloc, into, code)?;
    match code {
        Code::Stop | Code::Exit | Code::Call { .. } => Ok(()),
        Code::Prefix { body, .. } | Code::Hide { body, .. } => add_gates(alloc, into, body),
        Code::Choice { left, right }
        | Code::Par { left, right, .. }
        | Code::Enable { left, right }
        | Code::Disable { left, right } => {
            add_gates(alloc, into, left)?;
            add_gates(alloc, into, right)
        }
    }
}

/// Appends the names of the gates of a behaviour that do not stand in its operands.
fn add_own_gates(alloc: Global, into: &mut Vec<String>, code: &Code) -> Result<(), AllocError> {
    match code {
        Code::Prefix {
            action: Some(gate),
            ..
        } => add_name(alloc, into, gate),
        Code::Par {
            sync: Some(gates),
            ..
        } => add_names(alloc, into, gates.as_slice()),
        Code::Hide { gates, .. } | Code::Call { gates, .. } => {
            add_names(alloc, into, gates.as_slice())
        }
        _ => Ok(()),
    }
}
