//! The lines that explain a static rule that is broken. Errors of the writer are ignored, and what there is no memory for
//! is left out.

use crate::advice::{CALL_A_PROCESS, HAND_ON, MOVE_OUT, PUT_SEMICOLON, check_advice};
use crate::body_ends::end_among_others;
use crate::call_bindings::called_definition;
use crate::first_declarations::{first_gate, first_process};
use crate::functionality_causes::{Cause, Leaf, functionality_cause};
use crate::inner_gates::specification_gate;
use crate::inner_processes::process_inside;
use crate::shown_text::{Position, show_line};
use crate::similar_gates::{similar_gate_at_call, similar_gate_in_scope};
use crate::similar_processes::similar_process_in_scope;
use crate::unguarded_calls::unguarded_ring;
use lotos_check::CheckFault;
use lotos_text::{Definition, Functionality, Placed, Specification};
use std::alloc::Global;
use std::fmt;
use std::io::Write;

/// The most bytes of a text of which a functionality or an unguarded call is explained: each call is looked up among all
/// visible processes.
const CAUSE_LIMIT: usize = 1 << 16;

/// The most gates of a definition, and the most calls that go round, that are shown.
const SHOWN_GATES: usize = 12;

const SHOWN_CALLS: usize = 12;

/// Explains a static rule that the specification of a text breaks: the line of its place, what else there is to say about
/// it, and what to do.
///
/// Said is which name could be meant where one is not declared, and whether it is a gate, or a process that is not visible;
/// which gates the definition has that is called with another number; where what is declared twice is declared first;
/// what makes a functionality that is not the declared one, and where that is if it could be elsewhere; and which
/// unguarded calls go round.
pub fn explain_check_fault<E: Write>(
    alloc: Global,
    text: &[u8],
    specification: &Specification,
    fault: &CheckFault,
    err: &mut E,
) {
    if let Some(at) = fault.at() {
        show_line(text, at, err);
    }
    let advice = match fault {
        CheckFault::E21(gate) => report_gate(alloc, text, specification, gate, err),
        CheckFault::E22(name) => report_process(alloc, text, specification, name, err),
        _ => {
            report_details(alloc, text, specification, fault, err);
            None
        }
    };
    let _ = writeln!(err, "  {}", advice.unwrap_or(check_advice(fault)));
}

/// Writes what there is to say about a fault that is not about a name that is not declared.
fn report_details<E: Write>(
    alloc: Global,
    text: &[u8],
    specification: &Specification,
    fault: &CheckFault,
    err: &mut E,
) {
    let first = match fault {
        CheckFault::E20(gate) => first_gate(alloc, specification, gate),
        CheckFault::E24(process) => first_process(alloc, specification, process),
        _ => Ok(None),
    };
    if let Ok(Some(at)) = first {
        let _ = writeln!(err, "  it is declared first at {}", Position(text, at));
    }
    match fault {
        CheckFault::E23 { call, .. } => {
            if let Ok(Some(definition)) = called_definition(alloc, specification, call) {
                report_formals(text, definition, err);
            }
        }
        CheckFault::E25 { name, .. } => report_cause(alloc, text, specification, name.at, err),
        CheckFault::E27 { name, set } => {
            report_ring(alloc, text, specification, name.at, set.as_slice(), err);
        }
        _ => {}
    }
}

/// Writes the name of a gate that could be meant, if one is found, and whether the name is that of a gate of the
/// specification. Returns what to do about that.
fn report_gate<E: Write>(
    alloc: Global,
    text: &[u8],
    specification: &Specification,
    gate: &Placed,
    err: &mut E,
) -> Option<&'static str> {
    let name = gate.name.text();
    let found = similar_gate_in_scope(alloc, specification, gate.at, name);
    if let Ok(Some(similar)) = found {
        let _ = writeln!(
            err,
            "  a gate in scope has a similar name: {}",
            similar.text()
        );
    }
    let at = specification_gate(specification, name)?;
    let place = Position(text, at);
    let _ = writeln!(
        err,
        "  {name} is a gate of the specification, at {place}, and not of the process here"
    );
    Some(HAND_ON)
}

/// Writes whether the name is that of a gate in scope, the name of a process that could be meant, if one is found, and
/// whether a process that is not visible has the name. Returns what to do about that.
fn report_process<E: Write>(
    alloc: Global,
    text: &[u8],
    specification: &Specification,
    called: &Placed,
    err: &mut E,
) -> Option<&'static str> {
    let name = called.name.text();
    let found = similar_process_in_scope(alloc, specification, called.at, name);
    if let Ok(Some(similar)) = found {
        let _ = writeln!(
            err,
            "  a process that is visible here has a similar name: {}",
            similar.text()
        );
    }
    match similar_gate_at_call(alloc, specification, called.at, name) {
        Ok(Some(gate)) if gate.text() == name => {
            let _ = writeln!(err, "  {name} is a gate here");
            Some(PUT_SEMICOLON)
        }
        _ => report_invisible(text, specification, called, err),
    }
}

/// Writes where a process of the name is defined that is not visible at the call, if there is one, or that it is the name
/// of the specification. Returns what to do about that.
fn report_invisible<E: Write>(
    text: &[u8],
    specification: &Specification,
    called: &Placed,
    err: &mut E,
) -> Option<&'static str> {
    let whole = &specification.whole;
    if whole.name.name == called.name {
        return Some(CALL_A_PROCESS);
    }
    let (process, around) = process_inside(whole, &called.name)?;
    let name = called.name.text();
    let place = Position(text, process.name.at);
    let outer = around.name.name.text();
    let _ = writeln!(
        err,
        "  {name} is defined at {place}, in the `where` of {outer}, and is not visible here"
    );
    Some(MOVE_OUT)
}

/// Writes the formal gates of a definition, and where it is.
fn report_formals<E: Write>(text: &[u8], definition: &Definition, err: &mut E) {
    let place = Position(text, definition.name.at);
    let formals = definition.formals.as_slice();
    let _ = if formals.is_empty() {
        writeln!(err, "  it is defined at {place} without gates")
    } else {
        writeln!(
            err,
            "  it is defined at {place} with the gates{}",
            GateList(formals)
        )
    };
}

/// Writes unguarded calls that go round, if they are found and the text is not too long.
fn report_ring<E: Write>(
    alloc: Global,
    text: &[u8],
    specification: &Specification,
    at: usize,
    set: &[usize],
    err: &mut E,
) {
    if text.len() > CAUSE_LIMIT {
        return;
    }
    if let Ok(ring) = unguarded_ring(alloc, specification, at, set) {
        for call in ring.as_slice().iter().take(SHOWN_CALLS) {
            let caller = call.caller.name.text();
            let place = Position(text, call.called.at);
            let _ = if call.caller.at == call.callee.at {
                writeln!(err, "  {caller} calls itself at {place}")
            } else {
                let callee = call.callee.name.text();
                writeln!(err, "  {caller} calls {callee} at {place}")
            };
        }
        if ring.as_slice().len() > SHOWN_CALLS {
            let _ = writeln!(err, "  and so on, until a process comes again");
        }
    }
}

/// Writes what makes the functionality of the definition whose name has the offset, if it is found and the text is not
/// too long.
fn report_cause<E: Write>(
    alloc: Global,
    text: &[u8],
    specification: &Specification,
    at: usize,
    err: &mut E,
) {
    if text.len() > CAUSE_LIMIT {
        return;
    }
    if let Ok(Some(cause)) = functionality_cause(alloc, specification, at) {
        let place = end_among_others(alloc, text, at, cause.before);
        write_cause(text, &cause, place.unwrap_or(None), err);
    }
}

/// Writes the cause. `place` is the offset of its `stop` or `exit`, if that is said.
fn write_cause<E: Write>(text: &[u8], cause: &Cause, place: Option<usize>, err: &mut E) {
    let functionality = match cause.functionality {
        Functionality::Exit => "exit",
        Functionality::NoExit => "noexit",
    };
    let _ = match (cause.leaf, place) {
        (Leaf::Stop, None) => writeln!(err, "  it is `{functionality}` because of a `stop`"),
        (Leaf::Stop, Some(at)) => writeln!(
            err,
            "  it is `{functionality}` because of the `stop` at {}",
            Position(text, at)
        ),
        (Leaf::Exit, None) => writeln!(err, "  it is `{functionality}` because of an `exit`"),
        (Leaf::Exit, Some(at)) => writeln!(
            err,
            "  it is `{functionality}` because of the `exit` at {}",
            Position(text, at)
        ),
        (Leaf::Call(called), _) => writeln!(
            err,
            "  it is `{functionality}` because of the call of {} at {}",
            called.name.text(),
            Position(text, called.at)
        ),
    };
}

/// The names of gates, after a blank each; of many the first ones.
#[derive(Clone, Copy, Drop)]
struct GateList<'a>(&'a [Placed]);

impl fmt::Display for GateList<'_> {
    fn fmt<W: fmt::Write>(&self, f: &mut fmt::Formatter<W>) -> fmt::Result {
        for gate in self.0.iter().take(SHOWN_GATES) {
            write!(f, " {}", gate.name.text())?;
        }
        if self.0.len() > SHOWN_GATES {
            f.write_str(" ..")?;
        }
        Ok(())
    }
}
