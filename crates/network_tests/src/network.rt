//! What the behaviour of a text offers as a shape that is filled with its parts.
use super::shape_parts::{add_parts, check_below, left_after};
use lotos_check::{Checked, accept};
use lotos_network::{Offer, offers_of_shape};
use lotos_normal::NormalTable;
use lotos_store::{Label, Step, Term, TermStore};
use lotos_text::Name;
use std::alloc::{AllocError, Global};
use std::test::Fail;

/// The table of a text.
pub fn table_of(alloc: Global, text: &str) -> Result<Box<NormalTable>, Fail> {
    let checked = accept(alloc, text.as_bytes())?.system;
    Ok(boxed_table(alloc, checked)?)
}

fn boxed_table(alloc: Global, checked: Checked) -> Result<Box<NormalTable>, AllocError> {
    Ok(Box::new(alloc, NormalTable::new(alloc, checked)?)?)
}

/// The parts of a term.
pub fn parts_of(alloc: Global, nodes: &TermStore, term: Term) -> Result<Vec<Term>, Fail> {
    check_below(term.number(), nodes.len())?;
    let mut parts = Vec::new(alloc);
    add_parts(nodes, term, &mut parts)?;
    Ok(parts)
}

/// A copy of the normal steps of a term.
pub fn normal_steps(alloc: Global, table: &mut NormalTable, term: Term) -> Result<Vec<Step>, Fail> {
    check_below(term.number(), table.len())?;
    let steps = Vec::from_slice(alloc, table.normal_steps(term)?)?;
    Ok(steps)
}

/// What the shape of a term offers from the normal steps of these parts.
pub fn offers_of(
    alloc: Global,
    table: &mut NormalTable,
    term: Term,
    parts: &[Term],
) -> Result<Vec<Offer>, Fail> {
    let mut moves = Vec::new(alloc);
    for part in parts {
        moves.push(normal_steps(alloc, table, *part)?)?;
    }
    fitting_offers(alloc, table.nodes(), term, &moves)
}

/// What a shape offers if there is one list of moves for each of its parts.
fn fitting_offers(
    alloc: Global,
    nodes: &TermStore,
    shape: Term,
    moves: &[Vec<Step>],
) -> Result<Vec<Offer>, Fail> {
    check_below(shape.number(), nodes.len())?;
    let rest = left_after(nodes, shape, moves.len())?;
    check_below(rest, 1)?;
    let offers = offers_of_shape(alloc, nodes, shape, moves)?;
    Ok(offers)
}

/// The text of a label, by the names of the gates.
pub fn label_text(names: &[Name], label: Label) -> &str {
    match label {
        Label::Gate(gate) => match names.get(gate.number()) {
            Some(name) => name.text(),
            None => "no gate",
        },
        Label::Exit => "exit",
        Label::Internal => "i",
    }
}

/// The label of an offer, and the numbers of the parts that move.
pub fn offer_line(alloc: Global, names: &[Name], offer: &Offer) -> Result<String, AllocError> {
    let mut line = String::from_str(alloc, label_text(names, offer.label))?;
    for moved in &offer.moved {
        line.push_str(" ")?;
        line.push_str(moved.slot.to_string(alloc)?.as_str())?;
    }
    Ok(line)
}

/// The label of an offer, and the numbers of the terms in the vector that it leads to.
pub fn vector_line(
    alloc: Global,
    names: &[Name],
    parts: &[Term],
    offer: &Offer,
) -> Result<String, AllocError> {
    let mut line = String::from_str(alloc, label_text(names, offer.label))?;
    for (slot, part) in parts.iter().enumerate() {
        line.push_str(" ")?;
        let number = item_at(offer, slot, *part).number();
        line.push_str(number.to_string(alloc)?.as_str())?;
    }
    Ok(line)
}

/// What the offer puts in place of a part.
fn item_at(offer: &Offer, slot: usize, part: Term) -> Term {
    for moved in &offer.moved {
        if moved.slot == slot {
            return moved.target;
        }
    }
    part
}
