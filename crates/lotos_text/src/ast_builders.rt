//! Behaviour expressions from their parts.
ghost use Rattle.std.specs.Prelude.{◌≡◌, IfOk};
ghost use Rattle.lotos_text.specs.AstView as view;
ghost use Rattle.lotos_text.specs.Grammar.{apply};
ghost use Rattle.lotos_text.specs.AstOf.{behaviour_view, operator_view};

use crate::ast::{Action, Behaviour, Placed, SyncSet};
use std::alloc::{AllocError, Global};

/// A binary operator between two behaviour expressions.
#[derive(Drop)]
pub(crate) enum BinaryOperator {
    /// `>>`, with its offset.
    Enable(usize),
    Disable,
    Synchronize(SyncSet),
    Choose,
}

/// Puts a behaviour expression on the heap.
pub(crate) fn box_behaviour(
    alloc: Global,
    behaviour: Behaviour,
) -> Result<Box<Behaviour>, AllocError>
    ensures { IfOk result (λ b. b.value ≡ behaviour) }
{
    Ok(Box::new(alloc, behaviour)?)
}

pub(crate) fn apply_operator(
    alloc: Global,
    operator: BinaryOperator,
    left: Box<Behaviour>,
    right: Box<Behaviour>,
) -> Result<Box<Behaviour>, AllocError>
    ensures { IfOk result (λ b. behaviour_view b.value ≡
        apply (operator_view operator) (behaviour_view left.value) (behaviour_view right.value)) }
{
    let whole = match operator {
        BinaryOperator::Enable(at) => Behaviour::Enable { left, at, right },
        BinaryOperator::Disable => Behaviour::Disable { left, right },
        BinaryOperator::Synchronize(sync) => Behaviour::Par { left, sync, right },
        BinaryOperator::Choose => Behaviour::Choice { left, right },
    };
    box_behaviour(alloc, whole)
}

pub(crate) fn make_prefix(
    alloc: Global,
    action: Action,
    body: Box<Behaviour>,
) -> Result<Box<Behaviour>, AllocError>
    ensures { IfOk result (λ b. behaviour_view b.value ≡ view.prefix action (behaviour_view body.value)) }
{
    box_behaviour(alloc, Behaviour::Prefix { action, body })
}

pub(crate) fn make_hide(
    alloc: Global,
    gates: Vec<Placed>,
    body: Box<Behaviour>,
) -> Result<Box<Behaviour>, AllocError>
    ensures { IfOk result (λ b. behaviour_view b.value ≡ view.hide gates.items (behaviour_view body.value)) }
{
    box_behaviour(alloc, Behaviour::Hide { gates, body })
}
