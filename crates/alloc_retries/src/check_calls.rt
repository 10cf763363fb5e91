//! Texts of specifications: their ASTs, their systems, and the steps, the normal forms and the regrouping of their terms.

use crate::ast_lines::write_definition;
use crate::front_end::{accepted, accepted_pair, hidden, normal_table_of, parsed};
use crate::lines::Line;
use crate::retry_heap::{Heap, Stop};
use crate::system_lines::{write_fault, write_system};
use crate::table_calls::{Asked, Explored};
use lotos_check::{AcceptFault, CheckFault, Checked};
use lotos_text::Definition;

const ROWS: &[&str] = &[
    "specification S [a,b] : exit behaviour a; (i; exit [] b; exit) endspec",
    "specification S [a] : exit behaviour hide c in a; c; exit |[c]| c; exit endspec",
    "specification S [a,b] : exit behaviour a; exit >> b; exit [> stop ||| exit endspec",
    "specification S [a,b] : noexit behaviour P[a,b] || Q[a,b]
where process P [x,y] : noexit := x; y; stop where process R : exit := exit endproc endproc
process Q [x,y] : exit := x; exit [] y; exit endproc endspec",
    "specification S [a,b] : noexit behaviour P[a,b] where process P [x,y] : noexit := x; P[y,x] endproc endspec",
    "specification S [a] : noexit behaviour a; (stop [] P[a]",
    "specification S [a] : noexit behaviour a; choice",
    "specification S [a,A] : noexit behaviour stop endspec",
    "specification S [a] : noexit behaviour b; stop endspec",
    "specification S [a] : noexit behaviour Q[a] endspec",
    "specification S [a] : noexit behaviour P[a] where process P [x,y] : noexit := stop endproc endspec",
    "specification S : noexit behaviour stop where process P : noexit := stop endproc process p : noexit := stop endproc endspec",
    "specification S [a] : exit behaviour P[a] where process P [x] : exit := x; stop endproc endspec",
    "specification S [a] : noexit behaviour a; stop >> stop endspec",
    "specification S : noexit behaviour P where process P : noexit := Q endproc process Q : noexit := P [] stop endproc endspec",
];

/// Specifications of which a gate is hidden.
const HIDDEN: &[&str] = &[
    "specification S [a,b] : noexit behaviour P[a,b] where process P [x,y] : noexit := x; P[y,x] endproc endspec",
];

/// Texts of two specifications.
const PAIRS: &[&str] = &[
    "specification S [a] : noexit behaviour a; stop endspec specification T [b] : exit behaviour b; exit endspec",
    "specification S [a] : noexit behaviour a; stop endspec specification T [b] : noexit behaviour a; stop endspec",
];

/// What is asked of the first terms of a system, and what its line begins with. The steps to normal forms are first as the
/// table keeps them, and then taken out of it.
const ASKED: &[(&str, Asked)] = &[
    ("steps", Asked::Steps),
    ("again", Asked::Steps),
    ("forms", Asked::NormalForm),
    ("regrouped", Asked::Regrouping),
    ("kept", Asked::NormalSteps),
    ("taken", Asked::TakenSteps),
];

pub fn rows(rt: &impl Print, heap: &Heap) -> Result<(), Stop> {
    for text in ROWS {
        write_tree(rt, heap, text)?;
        write_answer(rt, heap, text)?;
    }
    for text in HIDDEN {
        let system = hidden(heap, text)?;
        write_checked(rt, "hidden", &system)?;
    }
    for text in PAIRS {
        write_pair(rt, heap, text)?;
    }
    Ok(())
}

/// Writes the AST of a text, or why there is none.
fn write_tree(rt: &impl Print, heap: &Heap, text: &str) -> Result<(), Stop> {
    match parsed(heap, text) {
        Ok(tree) => write_ast(rt, heap, &tree.whole),
        Err(fault) => Ok(println!(rt; "tree: {fault:?}")?),
    }
}

fn write_ast(rt: &impl Print, heap: &Heap, whole: &Definition) -> Result<(), Stop> {
    let mut line = Line::new();
    write_definition(&mut line, whole)?;
    println!(rt; "tree: {line}")?;
    let name = heap.retried(|| whole.name.name.copy(heap.alloc))?;
    let name = name.text();
    Ok(println!(rt; "copy: {name}")?)
}

/// Writes the system of a text that spells a specification, and what follows of it, or the static rule that it breaks.
fn write_answer(rt: &impl Print, heap: &Heap, text: &str) -> Result<(), Stop> {
    match accepted(heap, text) {
        Ok(system) => {
            write_checked(rt, "system", &system)?;
            follow(rt, heap, text)
        }
        Err(AcceptFault::Text(_)) => Ok(()),
        Err(AcceptFault::Check(fault)) => write_broken(rt, &fault),
        Err(AcceptFault::Memory) => Err(Stop::Memory),
    }
}

/// Writes the systems of a text of two specifications, or the static rule that one of them breaks.
fn write_pair(rt: &impl Print, heap: &Heap, text: &str) -> Result<(), Stop> {
    match accepted_pair(heap, text) {
        Ok((first, second)) => {
            write_checked(rt, "first", &first.system)?;
            write_checked(rt, "second", &second.system)
        }
        Err(AcceptFault::Text(_)) => Ok(()),
        Err(AcceptFault::Check(fault)) => write_broken(rt, &fault),
        Err(AcceptFault::Memory) => Err(Stop::Memory),
    }
}

fn write_broken(rt: &impl Print, fault: &CheckFault) -> Result<(), Stop> {
    let mut line = Line::new();
    write_fault(&mut line, fault)?;
    Ok(println!(rt; "system:{line}")?)
}

fn write_checked(rt: &impl Print, what: &str, system: &Checked) -> Result<(), Stop> {
    let mut line = Line::new();
    write_system(&mut line, system)?;
    Ok(println!(rt; "{what}:{line}")?)
}

/// Writes what is asked of the first terms of a system.
fn follow(rt: &impl Print, heap: &Heap, text: &str) -> Result<(), Stop> {
    let table = normal_table_of(heap, text)?;
    let mut explored = Explored::new(heap, table)?;
    for (what, asked) in ASKED {
        let mut line = Line::new();
        explored.write_first(heap, &mut line, *asked)?;
        println!(rt; "{what}:{line}")?;
    }
    Ok(())
}
