//! Gates inside a specification: those that it hides, and the formal ones of its processes.
ghost use Rattle.std.specs.Prelude.{ℕ, List, IfSome};
ghost use Rattle.lotos_text.specs.AstOf.{behaviour_view, definition_view};
ghost use Rattle.lotos_text.specs.AstView.{formals_of};
ghost use Rattle.lotos_check.specs.NameLists.{Name as AnyName};
ghost use Rattle.lotos_check.specs.Scope.{Scope, definition_in_scope};
ghost use Rattle.lotos_explain.specs.InnerGates.{HasFormalInAny, HidesAt, HidesInAny, IsFormalGateOf, IsHiddenAt, IsNamedAt};

use lotos_text::{Behaviour, Definition, Name, Placed, Specification};

/// The offset of a gate of this name in the list of a `hide`: of the first one in the text. There may be one although
/// none is returned. The name is in upper case.
pub fn hidden_gate(specification: &Specification, name: &str) -> Option<usize>
    ensures { IfSome result (IsHiddenAt (definition_view specification.now.whole) name.now) }
{
    hidden_in_definition(&specification.whole, name)
}

/// The name of a process that has a formal gate of this name, or of the specification if that has one: of the first one
/// in the text. There may be one although none is returned. The name is in upper case.
pub fn formal_gate<'a>(specification: &'a Specification, name: &str) -> Option<&'a Name>
    ensures { IfSome result (λ n. IsFormalGateOf (definition_view specification.now.whole) name.now n.now) }
{
    formal_in_definition(&specification.whole, name)
}

/// The offset of the gate of this name in the specification's own list. The name is in upper case.
pub fn specification_gate(specification: &Specification, name: &str) -> Option<usize>
    ensures { IfSome result (IsNamedAt (formals_of (definition_view specification.now.whole)) name.now) }
{
    offset_of(specification.whole.formals.as_slice(), name)
}

/// Such an offset in the body of the definition, or else in those inside it.
fn hidden_in_definition(definition: &Definition, name: &str) -> Option<usize>
    ensures { (scope : Scope) (first : ℕ) → IfSome result
        (HidesInAny (definition_in_scope scope first (definition_view definition.now)) name.now) }
{
    if let Some(at) = hidden_in_behaviour(&definition.body, name) {
        return Some(at);
    }
    for inner in &definition.inner {
        if let Some(at) = hidden_in_definition(inner, name) {
            return Some(at);
        }
    }
    None
}

/// The name of the definition, or else of one inside it, that has such a formal gate.
fn formal_in_definition<'a>(definition: &'a Definition, name: &str) -> Option<&'a Name>
    ensures { (scope : Scope) (first : ℕ) → IfSome result (λ n.
        HasFormalInAny (definition_in_scope scope first (definition_view definition.now)) name.now n.now) }
{
    if let Some(_) = offset_of(definition.formals.as_slice(), name) {
        return Some(&definition.name.name);
    }
    for inner in &definition.inner {
        if let Some(found) = formal_in_definition(inner, name) {
            return Some(found);
        }
    }
    None
}

/// Such an offset in the behaviour.
fn hidden_in_behaviour(behaviour: &Behaviour, name: &str) -> Option<usize>
    ensures { (around : List AnyName) →
        IfSome result (HidesAt around (behaviour_view behaviour.now) name.now) }
{
    match behaviour {
        Behaviour::Stop | Behaviour::Exit | Behaviour::Call { .. } => None,
        Behaviour::Prefix { body, .. } => hidden_in_behaviour(body, name),
        Behaviour::Hide { gates, body } => match offset_of(gates.as_slice(), name) {
            Some(at) => Some(at),
            None => hidden_in_behaviour(body, name),
        },
        Behaviour::Par { left, right, .. }
        | Behaviour::Choice { left, right }
        | Behaviour::Enable { left, right, .. }
        | Behaviour::Disable { left, right } => match hidden_in_behaviour(left, name) {
            Some(at) => Some(at),
            None => hidden_in_behaviour(right, name),
        },
    }
}

/// The offset of the first of the gates that has this name.
pub(crate) fn offset_of(gates: &[Placed], name: &str) -> Option<usize>
    ensures { IfSome result (IsNamedAt gates.now name.now) }
{
    for gate in gates {
        if gate.name.text() == name {
            return Some(gate.at);
        }
    }
    None
}
