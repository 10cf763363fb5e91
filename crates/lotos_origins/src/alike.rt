//! Whether terms have the same steps, with the same origins of the internal ones.
ghost use Rattle.std.specs.Prelude.{◌≡◌, ◌<◌, ℕ, IfOk, IfSome, List, Some, length, slice_get, true};
ghost use Rattle.lotos_store.specs.StoreView.{term_with};
ghost use Rattle.lotos_store.specs.Terms.{Process, Term as TermOf};
ghost use Rattle.lotos_origins.specs.Contexts.{AreAlikeIn, DoAlike, bare};
ghost use Rattle.lotos_origins.specs.Likenesses.{AddsParts, IsComposition, IsLikeness};
ghost use Rattle.lotos_origins.specs.Wrappers.{IsUnwrapped, IsWrapping, within};
ghost use Rattle.lotos_origins.specs.declared.alike.Operator.TheVariants as operators;

use crate::laws::alike_steps_have_the_same_origins;
use crate::wrappers::{Wrapped, have_the_same_images, make_the_same, unwrapped};
use lotos_normal::NormalTable;
use lotos_store::{Node, SyncGates, TermStore};
use lotos_terms::Term;
use std::alloc::{AllocError, Global};

/// What is known of whether two terms do alike.
#[derive(Clone, Copy)]
enum Likeness {
    /// They do.
    Alike,
    /// They do if the terms of both pairs do.
    IfParts {
        lefts: (Term, Term),
        rights: (Term, Term),
    },
    /// Nothing.
    Unknown,
}

/// An operator of which both operands may stay after a step.
#[derive(Clone, Copy)]
enum Operator {
    /// Parallel composition on these gates.
    Parallel(SyncGates),
    /// Enabling.
    Enabling,
    /// Disabling.
    Disabling,
}

/// A term with such an operator.
#[derive(Clone, Copy)]
struct Composition {
    operator: Operator,
    left: Term,
    right: Term,
}

/// Whether two terms are the same but for relabellings and hidings that make the same of their steps. If they are, the
/// terms have the same steps, with the same origins of the internal ones, and go on so. `false` says nothing.
pub(crate) fn are_alike(
    alloc: Global,
    table: &NormalTable,
    first: Term,
    second: Term,
) -> Result<bool, AllocError>
    requires first { first < length table.now.terms }
    requires second { second < length table.now.terms }
    ensures { IfOk result (λ b. b ≡ true → (t u : TermOf) → slice_get table.now.terms first ≡ Some t →
        slice_get table.now.terms second ≡ Some u → DoAlike table.now.processes t u) }
{
    let mut pairs = Vec::new(alloc);
    pairs.push((first, second))?;
    let mut index = 0;
    while index < pairs.len() {
        let (left, right) = pairs[index];
        let likeness = compare(alloc, table, left, right)?;
        if !add_parts(&mut pairs, likeness)? {
            return Ok(false);
        }
        index += 1;
    }
    Ok(true)
}

/// Adds the pairs on which it depends whether two terms do alike. Whether that is known.
fn add_parts(pairs: &mut Vec<(Term, Term)>, likeness: Likeness) -> Result<bool, AllocError>
    ensures { IfOk result (λ b. b ≡ true → AddsParts likeness pairs.old.items pairs.new.items) }
{
    match likeness {
        Likeness::Alike => Ok(true),
        Likeness::IfParts { lefts, rights } => {
            pairs.push(lefts)?;
            pairs.push(rights)?;
            Ok(true)
        }
        Likeness::Unknown => Ok(false),
    }
}

/// Compares two terms down to their operands.
fn compare(
    alloc: Global,
    table: &NormalTable,
    first: Term,
    second: Term,
) -> Result<Likeness, AllocError>
    requires first { first < length table.now.terms }
    requires second { second < length table.now.terms }
    ensures { IfOk result (IsLikeness table.now.processes table.now.terms first second) }
{
    if first.number() == second.number() {
        return Ok(Likeness::Alike);
    }
    let nodes = table.nodes();
    let first_inside = unwrapped(alloc, nodes, first)?;
    let second_inside = unwrapped(alloc, nodes, second)?;
    Ok(compare_unwrapped(table, nodes, &first_inside, &second_inside))
}

/// Compares the terms that are these with the relabellings and hidings around them.
fn compare_unwrapped(
    table: &NormalTable,
    nodes: &TermStore,
    first: &Wrapped,
    second: &Wrapped,
) -> Likeness
    requires nodes { nodes.now.terms ≡ table.now.terms }
    requires first { IsWrapping nodes.now first.now }
    requires second { IsWrapping nodes.now second.now }
    ensures { (n m : ℕ) → IsUnwrapped nodes.now n first.now → IsUnwrapped nodes.now m second.now →
        IsLikeness table.now.processes nodes.now.terms n m result }
{
    alike_steps_have_the_same_origins();
    if are_alike_calls(table, nodes, first, second) {
        return Likeness::Alike;
    }
    if make_the_same(nodes, first.wrappers.as_slice(), second.wrappers.as_slice()) {
        compare_cores(nodes, first.core, second.core)
    } else {
        Likeness::Unknown
    }
}

/// Whether both are calls of one process with actual gates of which the relabellings and hidings make the same.
fn are_alike_calls(
    table: &NormalTable,
    nodes: &TermStore,
    first: &Wrapped,
    second: &Wrapped,
) -> bool
    requires nodes { nodes.now.terms ≡ table.now.terms }
    requires first { IsWrapping nodes.now first.now }
    requires second { IsWrapping nodes.now second.now }
    ensures { result ≡ true → AreAlikeIn table.now.processes
        (within nodes.now bare first.now.wrappers.items) (term_with nodes.now first.now.core)
        (within nodes.now bare second.now.wrappers.items) (term_with nodes.now second.now.core) }
{
    table.recall_sound();
    let Node::Call { process, gates } = nodes.node(first.core) else {
        return false;
    };
    let Node::Call {
        process: other,
        gates: others,
    } = nodes.node(second.core)
    else {
        return false;
    };
    if process.number() != other.number() {
        return false;
    }
    let actual = nodes.gates(gates);
    if actual.len() != table.formals(process).len() {
        return false;
    }
    have_the_same_images(
        nodes,
        first.wrappers.as_slice(),
        actual,
        second.wrappers.as_slice(),
        nodes.gates(others),
    )
}

/// Compares two terms without anything around them.
fn compare_cores(nodes: &TermStore, first: Term, second: Term) -> Likeness
    requires first { first < length nodes.now.terms }
    requires second { second < length nodes.now.terms }
    ensures { (system : List Process) → IsLikeness system nodes.now.terms first second result }
{
    if first.number() == second.number() {
        return Likeness::Alike;
    }
    let Some(one) = composition_of(nodes, first) else {
        return Likeness::Unknown;
    };
    let Some(other) = composition_of(nodes, second) else {
        return Likeness::Unknown;
    };
    if is_same_operator(one.operator, other.operator) {
        Likeness::IfParts {
            lefts: (one.left, other.left),
            rights: (one.right, other.right),
        }
    } else {
        Likeness::Unknown
    }
}

/// The operator and the operands of a term, if it has such an operator.
fn composition_of(nodes: &TermStore, term: Term) -> Option<Composition>
    requires { term < length nodes.now.terms }
    ensures { IfSome result (IsComposition nodes.now term) }
{
    match nodes.node(term) {
        Node::Par { left, sync, right } => Some(Composition {
            operator: Operator::Parallel(sync),
            left,
            right,
        }),
        Node::Enable { left, right } => Some(Composition {
            operator: Operator::Enabling,
            left,
            right,
        }),
        Node::Disable { left, right } => Some(Composition {
            operator: Operator::Disabling,
            left,
            right,
        }),
        Node::Stop
        | Node::Exit
        | Node::Prefix { .. }
        | Node::Choice { .. }
        | Node::Hide { .. }
        | Node::Call { .. }
        | Node::Relabel { .. } => None,
    }
}

/// Whether the operators are the same.
fn is_same_operator(first: Operator, second: Operator) -> bool
    ensures { result ≡ true → first ≡ second }
{
    match first {
        Operator::Parallel(sync) => is_parallel_on(second, sync),
        Operator::Enabling => matches!(second, Operator::Enabling),
        Operator::Disabling => matches!(second, Operator::Disabling),
    }
}

/// Whether the operator is parallel composition on these gates.
fn is_parallel_on(operator: Operator, sync: SyncGates) -> bool
    ensures { result ≡ true → operators.Parallel sync ≡ operator }
{
    match operator {
        Operator::Parallel(other) => sync.is_same(other),
        _ => false,
    }
}
