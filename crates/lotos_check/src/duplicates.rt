//! Formal gates and process names that are declared twice.
ghost use Rattle.std.specs.Prelude.{◌≡◌, [], IfOk, IfErr, Option, MatchOption};
ghost use Rattle.lotos_text.specs.AstView.{formals_of};
ghost use Rattle.lotos_text.specs.AstOf.{definition_view};
ghost use Rattle.lotos_check.specs.NameLists.{AreDistinct, IsDuplicate};
ghost use Rattle.lotos_check.specs.StaticFaults.{IsDistinct};
ghost use Rattle.lotos_check.specs.Acceptance.{IsDuplicateFault};

use crate::fault::CheckFault;
use indexmap::IndexSet;
use lotos_text::{Definition, Placed};
use std::alloc::{AllocError, Global};

/// Fails at the first name in the order of the text that is declared twice: with E20 if it is a formal gate of one
/// list, with E24 if it is a process of one `where`.
#[cycle(check_distinct)]
pub(crate) fn check_distinct(alloc: Global, whole: &Definition) -> Result<(), CheckFault>
    ensures distinct { IfOk result (λ _. IsDistinct (definition_view whole.now)) }
    ensures fails { IfErr result (IsDuplicateFault (definition_view whole.now)) }
{
    if let Some(gate) = first_duplicate(alloc, whole.formals.as_slice())? {
        return Err(CheckFault::E20(gate));
    }
    let mut names = IndexSet::new(alloc);
    check_inner(alloc, &mut names, whole)
}

/// As [`check_distinct`], but without the definition's own formal gates. `names` is the set for the names of its
/// `where`, and is empty.
#[cycle(check_distinct)]
fn check_inner<'a>(
    alloc: Global,
    names: &mut IndexSet<&'a str>,
    whole: &'a Definition,
) -> Result<(), CheckFault>
    requires { names.old.keys ≡ [] }
    ensures distinct { AreDistinct (formals_of (definition_view whole.now)) →
        IfOk result (λ _. IsDistinct (definition_view whole.now)) }
    ensures fails { IfErr result (IsDuplicateFault (definition_view whole.now)) }
{
    for inner in &whole.inner {
        if !names.insert(inner.name.name.text())? {
            return Err(CheckFault::E24(inner.name.copy(alloc)?));
        }
        check_distinct(alloc, inner)?;
    }
    Ok(())
}

/// The first name that occurs earlier in the list too.
fn first_duplicate(alloc: Global, names: &[Placed]) -> Result<Option<Placed>, AllocError>
    ensures { IfOk result (λ r. MatchOption r (AreDistinct names.now) (λ p. IsDuplicate p names.now)) }
{
    let mut seen = IndexSet::new(alloc);
    find_repeated(alloc, &mut seen, names)
}

/// The first name that occurs earlier in the list too, given the set for the names before it, which is empty.
fn find_repeated<'a>(
    alloc: Global,
    seen: &mut IndexSet<&'a str>,
    names: &'a [Placed],
) -> Result<Option<Placed>, AllocError>
    requires { seen.old.keys ≡ [] }
    ensures { IfOk result (λ r. MatchOption r (AreDistinct names.now) (λ p. IsDuplicate p names.now)) }
{
    for placed in names {
        if !seen.insert(placed.name.text())? {
            return Ok(Some(placed.copy(alloc)?));
        }
    }
    Ok(None)
}
