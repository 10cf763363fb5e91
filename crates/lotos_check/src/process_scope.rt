//! The bindings of process names: a map for each `where`, and a stack of these, the innermost last.
ghost use Rattle.std.specs.Prelude.{◌≡◌, ◌+◌, ◌<◌, ◌^◌, ℕ, IfOk, MatchOption};
ghost use Rattle.lotos_text.specs.AstView.{DefinitionView, inner_of};
ghost use Rattle.lotos_text.specs.AstOf.{definition_view, definitions_view};
ghost use Rattle.lotos_check.specs.Scope.{Binds, Scope, count};
ghost use Rattle.lotos_check.specs.ProcessScopes.{IsScopeStack, BindsAll};

use indexmap::IndexMap;
use lotos_text::Definition;
use std::alloc::{AllocError, Global};

/// What a process name is bound to: the number of a process, and its definition.
#[derive(Clone, Copy)]
pub(crate) struct Binding<'a> {
    pub process: usize,
    pub definition: &'a Definition,
}

/// The number of definitions inside this one.
pub(crate) fn count_inner(definition: &Definition) -> usize
    requires { count (inner_of (definition_view definition.now)) < 2 ^ 63 }
    ensures { result ≡ count (inner_of (definition_view definition.now)) }
{
    let mut total = 0;
    for inner in &definition.inner {
        total += 1 + count_inner(inner);
    }
    total
}

/// The bindings of the names that one `where` declares, whose first definition has the number `first`.
pub(crate) fn bind_definitions<'a>(
    alloc: Global,
    definitions: &'a [Definition],
    first: usize,
) -> Result<IndexMap<&'a str, Binding<'a>>, AllocError>
    requires { first + count (definitions_view definitions.now) < 2 ^ 63 }
    ensures { IfOk result (λ t. BindsAll (λ k. k.now) (definitions_view definitions.now) first t) }
{
    let mut bindings: IndexMap<&'a str, Binding<'a>> = IndexMap::new(alloc);
    let mut process = first;
    for definition in definitions {
        let binding = Binding {
            process,
            definition,
        };
        bindings.insert(definition.name.name.text(), binding)?;
        process += 1 + count_inner(definition);
    }
    Ok(bindings)
}

/// The binding of a name in the innermost `where` that declares it; the stack has the innermost one last.
pub(crate) fn find_binding<'a>(
    scopes: &[IndexMap<&'a str, Binding<'a>>],
    name: &str,
) -> Option<Binding<'a>>
    ensures { (scope : Scope) → IsScopeStack (λ k. k.now) scopes.now scope →
        MatchOption result ((k : ℕ) (d : DefinitionView) → Binds scope name.now k d → ⊥)
        (λ m. Binds scope name.now m.process (definition_view m.definition.now)) }
{
    match scopes.split_last() {
        None => None,
        Some((nearest, outer)) => match nearest.get(name) {
            Some(binding) => Some(*binding),
            None => find_binding(outer, name),
        },
    }
}
