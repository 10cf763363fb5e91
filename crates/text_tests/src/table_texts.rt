//! ASTs and faults in a form that fits in tables.
use lotos_text::{
    Action, Behaviour, Definition, Functionality, Placed, Specification, SyncSet, TextFault, parse,
    parse_pair,
};
use std::alloc::{AllocError, Global};
use std::process::Abort;

/// A text up to its behaviour expression, which begins at offset 35.
pub const FRONT: &str = "specification S : noexit behaviour ";

/// The parts as one text.
pub fn joined(alloc: Global, parts: &[&str]) -> Result<String, AllocError> {
    let mut out = String::new(alloc);
    for part in parts {
        out.push_str(part)?;
    }
    Ok(out)
}

/// Asserts the number of a fault and its offset.
pub fn assert_fault(rt: &impl Abort, words: &str, found: (u8, usize), expected: (u8, usize)) {
    assert_eq!(rt; found, expected, "{}", words);
}

/// The number of a text's fault and its offset, 0 if it has none; two zeros if there is no fault.
pub fn fault_of_text(alloc: Global, text: &[u8]) -> (u8, usize) {
    match parse(alloc, text) {
        Ok(_) => (0, 0),
        Err(fault) => number_and_offset(&fault),
    }
}

/// As `fault_of_text`, of a text of two specifications.
pub fn fault_of_pair(alloc: Global, text: &[u8]) -> (u8, usize) {
    match parse_pair(alloc, text) {
        Ok(_) => (0, 0),
        Err(fault) => number_and_offset(&fault),
    }
}

fn number_and_offset(fault: &TextFault) -> (u8, usize) {
    match fault {
        TextFault::E01(at) => (1, *at),
        TextFault::E02(at) => (2, *at),
        TextFault::E03 => (3, 0),
        TextFault::E04(at) => (4, *at),
        TextFault::E05(at) => (5, *at),
        TextFault::E06(at) => (6, *at),
        TextFault::E07(at) => (7, *at),
        TextFault::E99(_) => (99, 0),
    }
}

/// The specification of a text.
pub fn accepted(alloc: Global, text: &[u8]) -> Result<Box<Specification>, TextFault> {
    let tree = parse(alloc, text)?;
    Ok(Box::new(alloc, tree)?)
}

/// The definition that a text spells, as `write_definition` writes it.
pub fn definition_text(alloc: Global, text: &[u8]) -> Result<String, TextFault> {
    let tree = accepted(alloc, text)?;
    Ok(written(alloc, &tree.whole)?)
}

/// The two definitions that a text spells, as `write_definition` writes them, with ` and ` between them.
pub fn pair_text(alloc: Global, text: &[u8]) -> Result<String, TextFault> {
    let (first, second) = parse_pair(alloc, text)?;
    let mut out = written(alloc, &first.whole)?;
    out.push_str(" and ")?;
    write_definition(alloc, &mut out, &second.whole)?;
    Ok(out)
}

fn written(alloc: Global, of: &Definition) -> Result<String, AllocError> {
    let mut out = String::new(alloc);
    write_definition(alloc, &mut out, of)?;
    Ok(out)
}

/// Writes a definition with its gates, functionality and body, and its inner definitions in braces.
fn write_definition(alloc: Global, out: &mut String, of: &Definition) -> Result<(), AllocError> {
    write_own(alloc, out, of)?;
    for inner in &of.inner {
        out.push_str(" {")?;
        write_definition(alloc, out, inner)?;
        out.push_str("}")?;
    }
    Ok(())
}

/// Writes a definition without its inner ones.
fn write_own(alloc: Global, out: &mut String, of: &Definition) -> Result<(), AllocError> {
    write_header(alloc, out, of)?;
    write_behaviour(alloc, out, &of.body)
}

fn write_header(alloc: Global, out: &mut String, of: &Definition) -> Result<(), AllocError> {
    write_name(alloc, out, &of.name)?;
    write_list(alloc, out, of.formals.as_slice())?;
    out.push_str(match of.functionality {
        Functionality::Exit => " exit := ",
        Functionality::NoExit => " noexit := ",
    })
}

/// Writes a behaviour expression with every parenthesis, and with the offsets of its names and of each `>>`.
fn write_behaviour(alloc: Global, out: &mut String, tree: &Behaviour) -> Result<(), AllocError> {
    write_front(alloc, out, tree)?;
    let first = match tree {
        Behaviour::Prefix { body, .. } => write_behaviour(alloc, out, body),
        Behaviour::Hide { body, .. } => write_behaviour(alloc, out, body),
        Behaviour::Choice { left, .. } => write_behaviour(alloc, out, left),
        Behaviour::Par { left, .. } => write_behaviour(alloc, out, left),
        Behaviour::Enable { left, .. } => write_behaviour(alloc, out, left),
        Behaviour::Disable { left, .. } => write_behaviour(alloc, out, left),
        _ => Ok(()),
    };
    first?;
    write_sign(alloc, out, tree)?;
    let second = match tree {
        Behaviour::Choice { right, .. } => write_behaviour(alloc, out, right),
        Behaviour::Par { right, .. } => write_behaviour(alloc, out, right),
        Behaviour::Enable { right, .. } => write_behaviour(alloc, out, right),
        Behaviour::Disable { right, .. } => write_behaviour(alloc, out, right),
        _ => Ok(()),
    };
    second?;
    out.push_str(end_of(tree))
}

/// What stands after the operands.
fn end_of(tree: &Behaviour) -> &'static str {
    match tree {
        Behaviour::Stop => "",
        Behaviour::Exit => "",
        Behaviour::Call { .. } => "",
        _ => ")",
    }
}

/// Writes what stands before the first operand; all of an expression that has none.
fn write_front(alloc: Global, out: &mut String, tree: &Behaviour) -> Result<(), AllocError> {
    match tree {
        Behaviour::Stop => out.push_str("stop"),
        Behaviour::Exit => out.push_str("exit"),
        Behaviour::Prefix { action, .. } => write_prefix(alloc, out, action),
        Behaviour::Hide { gates, .. } => write_hide(alloc, out, gates.as_slice()),
        Behaviour::Call { name, gates } => {
            write_name(alloc, out, name)?;
            write_list(alloc, out, gates.as_slice())
        }
        _ => out.push_str("("),
    }
}

fn write_prefix(alloc: Global, out: &mut String, action: &Action) -> Result<(), AllocError> {
    out.push_str("(")?;
    write_action(alloc, out, action)?;
    out.push_str("; ")
}

fn write_hide(alloc: Global, out: &mut String, gates: &[Placed]) -> Result<(), AllocError> {
    out.push_str("(hide ")?;
    write_names(alloc, out, gates)?;
    out.push_str(" in ")
}

/// Writes the sign between two operands, if there are two.
fn write_sign(alloc: Global, out: &mut String, tree: &Behaviour) -> Result<(), AllocError> {
    match tree {
        Behaviour::Choice { .. } => out.push_str(" [] "),
        Behaviour::Par { sync, .. } => write_sync(alloc, out, sync),
        Behaviour::Enable { at, .. } => {
            out.push_str(" >>@")?;
            write_number(alloc, out, *at)?;
            out.push_str(" ")
        }
        Behaviour::Disable { .. } => out.push_str(" [> "),
        _ => Ok(()),
    }
}

fn write_action(alloc: Global, out: &mut String, action: &Action) -> Result<(), AllocError> {
    match action {
        Action::Internal => out.push_str("i"),
        Action::Gate(gate) => write_name(alloc, out, gate),
    }
}

fn write_sync(alloc: Global, out: &mut String, sync: &SyncSet) -> Result<(), AllocError> {
    match sync {
        SyncSet::All => out.push_str(" || "),
        SyncSet::Gates(gates) => {
            out.push_str(" |[")?;
            write_names(alloc, out, gates.as_slice())?;
            out.push_str("]| ")
        }
    }
}

/// Writes names in brackets, or nothing if there are none.
fn write_list(alloc: Global, out: &mut String, names: &[Placed]) -> Result<(), AllocError> {
    if names.is_empty() {
        return Ok(());
    }
    out.push_str("[")?;
    write_names(alloc, out, names)?;
    out.push_str("]")
}

fn write_names(alloc: Global, out: &mut String, names: &[Placed]) -> Result<(), AllocError> {
    let mut first = true;
    for name in names {
        if !first {
            out.push_str(",")?;
        }
        write_name(alloc, out, name)?;
        first = false;
    }
    Ok(())
}

fn write_name(alloc: Global, out: &mut String, name: &Placed) -> Result<(), AllocError> {
    out.push_str(name.name.text())?;
    out.push_str("@")?;
    write_number(alloc, out, name.at)
}

fn write_number(alloc: Global, out: &mut String, number: usize) -> Result<(), AllocError> {
    out.push_str(number.to_string(alloc)?.as_str())
}
