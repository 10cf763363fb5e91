//! The origin of an internal step, down from the step to steps of parts.
ghost use Rattle.std.specs.Prelude.{◌<◌, IfOk, length};
ghost use Rattle.lotos_terms.specs.TableView.{Grows, IsSoundView};
ghost use Rattle.lotos_origins.specs.OriginSearch.{IsFinding, IsFirstOf, IsInEnabling, IsInOperand, IsOriginIn};
ghost use Rattle.lotos_origins.specs.OriginSearch.{LeadsInternally};

use crate::hidden_steps::look_in_hiding;
use crate::internal_steps::leads_internally;
use crate::origin::Origin;
use crate::parts::{first_part, second_part};
use lotos_normal::NormalTable;
use lotos_store::{Node, Term};
use std::alloc::{AllocError, Global};

/// What is found of an internal step.
#[derive(Clone, Copy)]
pub(crate) enum Finding {
    /// What makes it.
    Made(Origin),
    /// An internal step between parts, each origin of which is one of the step.
    Inner { from: Term, to: Term },
}

/// An origin of an internal step from the term to the target. Terms without a number get one. If an allocation fails,
/// the table may have grown all the same.
// A loop goes down the terms, as the chain of relabellings that a run leaves may be as long as it likes. A table knows
// the steps of parts, so that no step is computed anew.
pub fn internal_origin(
    alloc: Global,
    table: &mut NormalTable,
    term: Term,
    target: Term,
) -> Result<Origin, AllocError>
    requires { LeadsInternally table.old term target }
    ensures grows { Grows table.old table.new }
    ensures sound { IsSoundView table.new }
    ensures origin { IfOk result (IsOriginIn table.old term target) }
{
    table.recall_sound();
    table.recall_bodies();
    let mut from = term;
    let mut to = target;
    loop {
        let found = look_inside(alloc, table, from, to)?;
        match found {
            Finding::Made(origin) => return Ok(origin),
            Finding::Inner {
                from: part,
                to: inner,
            } => {
                from = part;
                to = inner;
            }
        }
    }
}

/// What makes an internal step from the term to the target, or an internal step of a part that makes it. The name of a
/// hidden gate stays what it is above the hiding: no other operator changes the origin of a step.
fn look_inside(
    alloc: Global,
    table: &mut NormalTable,
    from: Term,
    to: Term,
) -> Result<Finding, AllocError>
    requires { LeadsInternally table.old from to }
    ensures grows { Grows table.old table.new }
    ensures sound { IsSoundView table.new }
    ensures found { IfOk result (IsFinding table.new from to) }
{
    table.recall_sound();
    let nodes = table.nodes();
    let inner = first_part(nodes, to);
    match nodes.node(from) {
        Node::Stop => unreachable!(),
        Node::Exit => unreachable!(),
        Node::Prefix { .. } => Ok(Finding::Made(Origin::Text)),
        Node::Choice { left, right } => first_of(table, left, to, right, to),
        Node::Par { left, right, .. } => {
            let other = second_part(nodes, to);
            look_in_parallel(table, left, inner, right, other)
        }
        Node::Hide { gates, body } => {
            let hidden = Vec::from_slice(alloc, nodes.gates(gates))?;
            look_in_hiding(table, hidden.as_slice(), body, inner)
        }
        Node::Enable { left, right } => Ok(look_in_enabling(left, inner, right, to)),
        Node::Disable { left, right } => first_of(table, right, to, left, inner),
        Node::Call { process, .. } => Ok(Finding::Inner {
            from: table.body(process),
            to: inner,
        }),
        Node::Relabel { body, .. } => Ok(Finding::Inner {
            from: body,
            to: inner,
        }),
    }
}

/// The first of the two pairs of terms, if an internal step leads from its first term to its second one; otherwise the
/// other pair.
fn first_of(
    table: &mut NormalTable,
    from: Term,
    to: Term,
    other_from: Term,
    other_to: Term,
) -> Result<Finding, AllocError>
    requires { from < length table.old.terms }
    ensures grows { Grows table.old table.new }
    ensures sound { IsSoundView table.new }
    ensures found { IfOk result (IsFirstOf table.new from to other_from other_to) }
{
    if leads_internally(table, from, to)? {
        Ok(Finding::Inner { from, to })
    } else {
        Ok(Finding::Inner {
            from: other_from,
            to: other_to,
        })
    }
}

/// The internal step of the left operand, if there is one that leaves the right operand as it is; otherwise that of the
/// right operand.
fn look_in_parallel(
    table: &mut NormalTable,
    left: Term,
    left_target: Term,
    right: Term,
    right_target: Term,
) -> Result<Finding, AllocError>
    requires { left < length table.old.terms }
    ensures grows { Grows table.old table.new }
    ensures sound { IsSoundView table.new }
    ensures found { IfOk result (IsInOperand table.new left left_target right right_target) }
{
    table.recall_sound();
    if right_target.number() == right.number() {
        first_of(table, left, left_target, right, right_target)
    } else {
        Ok(Finding::Inner {
            from: right,
            to: right_target,
        })
    }
}

/// The termination of the left operand, if the step leads to the right one; otherwise the internal step of the left
/// operand.
fn look_in_enabling(left: Term, left_target: Term, right: Term, target: Term) -> Finding
    ensures { IsInEnabling left left_target right target result }
{
    if target.number() == right.number() {
        Finding::Made(Origin::Termination)
    } else {
        Finding::Inner {
            from: left,
            to: left_target,
        }
    }
}
