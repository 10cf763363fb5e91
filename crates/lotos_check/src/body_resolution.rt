//! The resolution of all bodies, in the order of the text.
ghost use Rattle.std.specs.Prelude.{◌≡◌, ◌+◌, ◌<◌, ◌^◌, [], IfErr, IfOk, MatchResult, OnOk};
ghost use Rattle.lotos_text.specs.AstView.{body_of, formals_of, inner_of};
ghost use Rattle.lotos_text.specs.AstOf.{definition_view};
ghost use Rattle.lotos_check.specs.NameLists.{texts};
ghost use Rattle.lotos_check.specs.Scope.{Scope, all_definitions, count, definition_in_scope};
ghost use Rattle.lotos_check.specs.ProcessScopes.{HasNames, IsScopeStack};
ghost use Rattle.lotos_check.specs.Resolution.{AddsBodies, IsNameFault, IsNameFaultIn, IsResolved};

use crate::fault::CheckFault;
use crate::gate_scope::add_gates;
use crate::process_scope::{Binding, bind_definitions};
use crate::resolution::resolve;
use crate::resolved_body::ResolvedBody;
use indexmap::{IndexMap, IndexSet};
use lotos_text::Definition;
use std::alloc::{AllocError, Global};

/// The resolutions of the body of a specification and of the bodies of its processes, in the order of the text. Fails
/// at the first name that breaks a rule.
pub(crate) fn resolve_specification(
    alloc: Global,
    whole: &Definition,
) -> Result<Vec<ResolvedBody>, CheckFault>
    requires { count (inner_of (definition_view whole.now)) < 2 ^ 63 }
    ensures adds { IfOk result (λ found.
        AddsBodies (all_definitions (definition_view whole.now)) [] found.items) }
    ensures name_fault { IfErr result (IsNameFaultIn (all_definitions (definition_view whole.now))) }
{
    let mut scopes = Vec::new(alloc);
    let mut found = Vec::new(alloc);
    resolve_bodies(alloc, &mut scopes, whole, 0, &mut found)?;
    Ok(found)
}

/// Appends the resolutions of a definition's body and of those of its inner definitions, which are numbered from
/// `first` on, and returns the number that comes after theirs. `scopes` are the processes visible around the
/// definition; they are unchanged unless it fails.
fn resolve_bodies<'a>(
    alloc: Global,
    scopes: &mut Vec<IndexMap<&'a str, Binding<'a>>>,
    definition: &'a Definition,
    first: usize,
    into: &mut Vec<ResolvedBody>,
) -> Result<usize, CheckFault>
    requires { first + count (inner_of (definition_view definition.now)) < 2 ^ 63 }
    ensures next { IfOk result (λ number.
        number ≡ first + count (inner_of (definition_view definition.now))) }
    ensures stack { OnOk result (scopes.new.items ≡ scopes.old.items) }
    ensures adds { OnOk result ((scope : Scope) → IsScopeStack (λ k. k.now) scopes.old.items scope →
        AddsBodies (definition_in_scope scope first (definition_view definition.now))
        into.old.items into.new.items) }
    ensures name_fault { IfErr result (λ fault. (scope : Scope) →
        IsScopeStack (λ k. k.now) scopes.old.items scope →
        IsNameFaultIn (definition_in_scope scope first (definition_view definition.now)) fault) }
{
    let outer = scopes.len();
    let own = bind_definitions(alloc, definition.inner.as_slice(), first)?;
    scopes.push(own)?;
    let found = resolve_body(alloc, scopes.as_slice(), definition)?;
    into.push(found)?;
    let mut number = first;
    for inner in &definition.inner {
        number = resolve_bodies(alloc, scopes, inner, number + 1, into)?;
    }
    scopes.truncate(outer);
    Ok(number)
}

/// Resolves the body of a definition, given the processes that are visible in it.
fn resolve_body<'a>(
    alloc: Global,
    scopes: &[IndexMap<&'a str, Binding<'a>>],
    definition: &'a Definition,
) -> Result<ResolvedBody, CheckFault>
    ensures { (scope : Scope) → IsScopeStack (λ k. k.now) scopes.now scope → MatchResult result
        (IsResolved scope (texts (formals_of (definition_view definition.now)))
        (body_of (definition_view definition.now)))
        (IsNameFault scope (texts (formals_of (definition_view definition.now)))
        (body_of (definition_view definition.now))) }
{
    let mut gates_in_scope = formal_gates(alloc, definition)?;
    resolve(alloc, scopes, &mut gates_in_scope, &definition.body)
}

/// The gates in scope where no gate is hidden: the formal gates of the definition.
fn formal_gates<'a>(
    alloc: Global,
    definition: &'a Definition,
) -> Result<IndexSet<&'a str>, AllocError>
    ensures { IfOk result (λ gates.
        HasNames (λ k. k.now) gates.keys (texts (formals_of (definition_view definition.now)))) }
{
    let mut gates = IndexSet::new(alloc);
    add_gates(&mut gates, definition.formals.as_slice())?;
    Ok(gates)
}
