//! Processes that are defined inside others.

use lotos_text::{Definition, Name};

/// The first definition of a process of this name inside the definition, and the one whose `where` has it.
pub(crate) fn process_inside<'a>(
    definition: &'a Definition,
    name: &Name,
) -> Option<(&'a Definition, &'a Definition)> {
    for inner in &definition.inner {
        if inner.name.name == *name {
            return Some((inner, definition));
        }
        if let Some(found) = process_inside(inner, name) {
            return Some(found);
        }
    }
    None
}
