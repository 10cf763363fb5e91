//! All definitions of a specification, in the order of the text.
ghost use Rattle.std.specs.Prelude.{◌≡◌, ◌++◌, OnOk, map};
ghost use Rattle.lotos_text.specs.AstOf.{definition_view};
ghost use Rattle.lotos_check.specs.Scope.{definitions_in};

use lotos_text::Definition;
use std::alloc::AllocError;

/// Appends a definition and all definitions inside it, each followed at once by its inner ones.
pub fn add_definitions<'a>(
    definition: &'a Definition,
    into: &mut Vec<&'a Definition>,
) -> Result<(), AllocError>
    ensures { OnOk result (map (λ d. definition_view d.now) into.new.items
        ≡ map (λ d. definition_view d.now) into.old.items ++
        definitions_in (definition_view definition.now)) }
{
    into.push(definition)?;
    for inner in &definition.inner {
        add_definitions(inner, into)?;
    }
    Ok(())
}
