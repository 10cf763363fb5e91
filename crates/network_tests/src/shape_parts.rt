//! The parts of the shapes of terms.
ghost use Rattle.std.specs.Prelude.{◌≡◌, ◌+◌, ◌<◌, IfOk, length, true};
ghost use Rattle.lotos_store.specs.StoreView.{term_with};
ghost use Rattle.lotos_network.specs.Shapes.{part_count, shape_of};
ghost use Rattle.lotos_network.specs.VectorOffers.{is_static};

use lotos_store::{Node, Term, TermStore};
use std::alloc::AllocError;

/// There are other numbers of terms or of lists, or there is `>>` or `[>` where a shape is looked at.
#[derive(Clone, Copy, Debug)]
pub struct Misfit;

/// Appends the parts of a term, from left to right. What has neither a parallel composition at its top, nor one below
/// hidings and relabellings, is a part.
pub fn add_parts(nodes: &TermStore, term: Term, parts: &mut Vec<Term>) -> Result<(), AllocError>
    requires { term < length nodes.now.terms }
{
    match nodes.node(term) {
        Node::Par { left, right, .. } => {
            add_parts(nodes, left, parts)?;
            add_parts(nodes, right, parts)?;
        }
        Node::Hide { body, .. } | Node::Relabel { body, .. } if is_composed(nodes, body) => {
            add_parts(nodes, body, parts)?;
        }
        _ => parts.push(term)?,
    }
    Ok(())
}

/// Whether a term has a parallel composition at its top, or below hidings and relabellings.
fn is_composed(nodes: &TermStore, term: Term) -> bool
    requires { term < length nodes.now.terms }
{
    match nodes.node(term) {
        Node::Par { .. } => true,
        Node::Hide { body, .. } | Node::Relabel { body, .. } => is_composed(nodes, body),
        _ => false,
    }
}

/// Fails unless the number is below the other one.
pub fn check_below(number: usize, count: usize) -> Result<(), Misfit>
    ensures { IfOk result (λ n. number < count) }
{
    if number >= count {
        return Err(Misfit);
    }
    Ok(())
}

/// How many of this number of lists are left when each part of the shape has taken one.
pub fn left_after(nodes: &TermStore, shape: Term, count: usize) -> Result<usize, Misfit>
    requires { shape < length nodes.now.terms }
    ensures count { IfOk result (λ n. n + part_count (shape_of (term_with nodes.now shape)) ≡ count) }
    ensures stays { IfOk result (λ n. is_static (shape_of (term_with nodes.now shape)) ≡ true) }
{
    match nodes.node(shape) {
        Node::Par { left, right, .. } => {
            let rest = left_after(nodes, left, count)?;
            let rest = left_after(nodes, right, rest)?;
            Ok(rest)
        }
        Node::Hide { body, .. } => {
            let rest = left_after(nodes, body, count)?;
            Ok(rest)
        }
        Node::Relabel { body, .. } => {
            let rest = left_after(nodes, body, count)?;
            Ok(rest)
        }
        Node::Enable { .. } => Err(Misfit),
        Node::Disable { .. } => Err(Misfit),
        _ => {
            check_below(0, count)?;
            Ok(count - 1)
        }
    }
}
