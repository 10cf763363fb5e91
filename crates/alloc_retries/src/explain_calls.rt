//! Explanations of texts that are refused, and names that are similar to one that is no gate.

use crate::front_end::{accepted, checked, parsed};
use crate::lines::{Lines, shown};
use crate::retry_heap::{Heap, Stop};
use lotos_check::CheckFault;
use lotos_explain::{explain_check_fault, explain_text_fault, similar_name};
use lotos_text::{Name, Specification, TextFault};
use std::alloc::{AllocError, Global};

/// Texts that spell no specification, and texts of specifications that break a static rule. If a similar name is looked
/// for in one of these, it is found, or no name has a similar length: else an explanation that memory ran out for would
/// be the same.
const ROWS: &[&str] = &[
    "\u{feff}specification S : noexit behaviour stop endspec",
    "specification S-T : noexit behaviour stop endspec",
    "(* a",
    "specificaton S : noexit behaviour stop endspec",
    "specification S [a] : noexit behaviour a stop endspec",
    "specification S [] : noexit behaviour stop endspec",
    "specification S : noexit behaviour (stop endspec",
    DEEP,
    "specification S : noexit behaviour stop",
    "specification S [accept] : noexit behaviour stop endspec",
    "specification S [a,b,a] : noexit behaviour stop endspec",
    "specification S [put] : noexit\nbehaviour P[put]\nwhere process P [pat] : noexit := put; P[pat] endproc\nendspec",
    "specification S [send] : noexit\nbehaviour send\nwhere process Sends [x] : noexit := x; stop endproc\nendspec",
    "specification S [a] : noexit\nbehaviour P[a]\nwhere process P [x,y] : noexit := x; y; stop endproc\nendspec",
    "specification S : noexit behaviour stop where\nprocess P : noexit := stop endproc\nprocess P : noexit := stop endproc\nendspec",
    "specification S [a] : exit behaviour a; stop endspec",
    "specification S [a] : noexit behaviour a; exit endspec",
    "specification S [a] : exit\nbehaviour P[a]\nwhere process P [x] : noexit := x; P[x] endproc\nendspec",
    "specification S [a,b] : noexit behaviour a; stop >> b; stop endspec",
    "specification S [a] : noexit\nbehaviour P[a] where\nprocess P [x] : noexit := x; R[x] [] Q[x] endproc\nprocess Q [x] : noexit := R[x] endproc\nprocess R [x] : noexit := P[x] endproc\nendspec",
];

/// A parenthesis inside two hundred others.
const DEEP: &str =
    "specification S : noexit behaviour (((((((((((((((((((((((((((((((((((((((((((((((((((((((((((((((((((((((((((((((((((((((((((((((((((((((((((((((((((((((((((((((((((((((((((((((((((((((((((((((((((((((((((((((((((((((((((((((((((((((((";

/// The last line of an explanation of a text for which there was no memory.
const NO_MEMORY: &[u8] = b"  There is no memory to say more.\n";

const GATES: &str = "specification S [put, get, gets, a] : noexit behaviour stop endspec";

/// Names that are looked for among these gates.
const NAMES: &[&str] = &["GES", "PAGE"];

pub fn rows(rt: &impl Print, heap: &Heap) -> Result<(), Stop> {
    write_refused(rt, heap, "", &TextFault::E03)?;
    write_refused(rt, heap, "", &TextFault::E99(AllocError))?;
    for text in ROWS {
        write_row(rt, heap, text)?;
    }
    let system = accepted(heap, GATES)?;
    for name in NAMES {
        write_similar(rt, heap, name, system.gates())?;
    }
    Ok(())
}

/// Writes the explanation of a text that is refused.
fn write_row(rt: &impl Print, heap: &Heap, text: &str) -> Result<(), Stop> {
    match parsed(heap, text) {
        Ok(specification) => write_broken(rt, heap, text, &specification),
        Err(TextFault::E99(_)) => Err(Stop::Memory),
        Err(fault) => write_refused(rt, heap, text, &fault),
    }
}

/// Writes the explanation of a fault of the parser.
fn write_refused(rt: &impl Print, heap: &Heap, text: &str, fault: &TextFault) -> Result<(), Stop> {
    let lines = heap.retried(|| text_fault_lines(heap.alloc, text, fault))?;
    write_lines(rt, &lines)
}

/// The lines that explain a fault of the parser. They end with what says so if memory runs out.
fn text_fault_lines(alloc: Global, text: &str, fault: &TextFault) -> Result<Lines, AllocError> {
    let mut lines = Lines::new();
    explain_text_fault(alloc, text.as_bytes(), fault, &mut lines);
    if lines.as_slice().ends_with(NO_MEMORY) {
        return Err(AllocError);
    }
    Ok(lines)
}

/// Writes the explanation of the static rule that a specification breaks.
fn write_broken(
    rt: &impl Print,
    heap: &Heap,
    text: &str,
    specification: &Specification,
) -> Result<(), Stop> {
    match checked(heap, specification) {
        Ok(_) => Err(Stop::Row),
        Err(CheckFault::E99(_)) => Err(Stop::Memory),
        Err(fault) => {
            let lines = heap.retried(|| rule_lines(heap.alloc, text, specification, &fault))?;
            write_lines(rt, &lines)
        }
    }
}

/// The lines that explain a broken static rule. What there is no memory for is left out, so they are made twice: if
/// they differ, memory ran out.
fn rule_lines(
    alloc: Global,
    text: &str,
    specification: &Specification,
    fault: &CheckFault,
) -> Result<Lines, AllocError> {
    let mut first = Lines::new();
    explain_check_fault(alloc, text.as_bytes(), specification, fault, &mut first);
    let mut second = Lines::new();
    explain_check_fault(alloc, text.as_bytes(), specification, fault, &mut second);
    if first.as_slice() == second.as_slice() {
        Ok(first)
    } else {
        Err(AllocError)
    }
}

fn write_lines(rt: &impl Print, lines: &Lines) -> Result<(), Stop> {
    let text = shown(lines)?;
    Ok(println!(rt; "explained:\n{text}")?)
}

/// Writes the gate whose name is similar to this one.
fn write_similar(rt: &impl Print, heap: &Heap, name: &str, gates: &[Name]) -> Result<(), Stop> {
    let found = heap.retried(|| similar_name(heap.alloc, name, gates))?;
    let gate = found.map_or("none", |gate| gate.text());
    Ok(println!(rt; "similar: {gate}")?)
}
