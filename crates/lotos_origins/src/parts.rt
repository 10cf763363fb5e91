//! The parts of terms.
ghost use Rattle.std.specs.Prelude.{◌<◌, IfSome, length};
ghost use Rattle.lotos_store.specs.StoreView.{term_with};
ghost use Rattle.lotos_origins.specs.Parts.{IsPart, first_part_of, second_part_of};

use lotos_store::{Node, Term, TermStore};

/// The left operand or the body of a parallel composition, a hiding, an enabling, a disabling or a relabelling; of
/// others the term itself.
pub(crate) fn first_part(nodes: &TermStore, term: Term) -> Term
    requires { term < length nodes.now.terms }
    ensures { IfSome (first_part_of (term_with nodes.now term))
        (λ t. IsPart nodes.now.terms term t result) }
{
    match nodes.node(term) {
        Node::Par { left, .. } => left,
        Node::Hide { body, .. } => body,
        Node::Enable { left, .. } => left,
        Node::Disable { left, .. } => left,
        Node::Relabel { body, .. } => body,
        Node::Stop | Node::Exit | Node::Prefix { .. } | Node::Choice { .. } | Node::Call { .. } =>
            term,
    }
}

/// The right operand of a parallel composition; of others the term itself.
pub(crate) fn second_part(nodes: &TermStore, term: Term) -> Term
    requires { term < length nodes.now.terms }
    ensures { IfSome (second_part_of (term_with nodes.now term))
        (λ t. IsPart nodes.now.terms term t result) }
{
    match nodes.node(term) {
        Node::Par { right, .. } => right,
        Node::Stop
        | Node::Exit
        | Node::Prefix { .. }
        | Node::Choice { .. }
        | Node::Hide { .. }
        | Node::Enable { .. }
        | Node::Disable { .. }
        | Node::Call { .. }
        | Node::Relabel { .. } => term,
    }
}
