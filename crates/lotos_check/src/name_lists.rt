//! Lists of names: in the order of the text, as sets, and without some names.
ghost use Rattle.std.specs.Prelude.{◌≡◌, ◌↔◌, IfOk};
ghost use Rattle.lotos_check.specs.NameLists.{In, IsAscendingNames, IsSetOf, Name as AnyName, texts};
ghost use Rattle.lotos_check.specs.HiddenGates.{IsWithout};

use lotos_text::{Name, Placed};
use std::alloc::{AllocError, Global};

/// The names of a list, in its order.
pub(crate) fn copy_names(alloc: Global, placed: &[Placed]) -> Result<Vec<Name>, AllocError>
    ensures { IfOk result (λ v. v.items ≡ texts placed.now) }
{
    let mut names = Vec::new(alloc);
    for one in placed {
        names.push(one.name.copy(alloc)?)?;
    }
    Ok(names)
}

/// The names of a list in the order of their bytes, without repeats.
pub(crate) fn name_set(alloc: Global, placed: &[Placed]) -> Result<Vec<Name>, AllocError>
    ensures { IfOk result (λ v. IsSetOf v.items placed.now) }
{
    let mut set = copy_names(alloc, placed)?;
    make_set(&mut set);
    Ok(set)
}

/// Copies of the names, in the order of their bytes, without repeats.
pub(crate) fn copy_as_set(alloc: Global, names: &[Name]) -> Result<Vec<Name>, AllocError>
    ensures ascends { IfOk result (λ v. IsAscendingNames v.items) }
    ensures same { IfOk result (λ v. (n : AnyName) → In n v.items ↔ In n names.now) }
{
    let mut set = Vec::new(alloc);
    for name in names {
        set.push(name.copy(alloc)?)?;
    }
    make_set(&mut set);
    Ok(set)
}

/// Puts names in the order of their bytes, without repeats.
fn make_set(names: &mut Vec<Name>)
    ensures ascends { IsAscendingNames names.new.items }
    ensures same { (n : AnyName) → In n names.new.items ↔ In n names.old.items }
{
    names.sort_unstable();
    names.dedup();
}

/// Removes those of the names that are in the second list.
pub(crate) fn remove_names(names: &mut Vec<Name>, removed: &[Name])
    ensures { IsWithout removed.now names.old.items names.new.items }
{
    names.retain(|name| !removed.contains(name));
}
