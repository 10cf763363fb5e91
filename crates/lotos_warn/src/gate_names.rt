//! Sets of gate names.
ghost use Rattle.std.specs.Prelude.{◌≡◌, ◌≤◌, ◌↔◌, ◌⊎◌, [], IfOk, MatchBool, OnOk, Some, map, zip};
ghost use Rattle.lotos_text.specs.AstOf.{sync_view};
ghost use Rattle.lotos_check.specs.NameLists.{In, Name as AnyName, texts};
ghost use Rattle.lotos_warn.specs.Additions.{AddsNames, IsActionNamed, IsListed, IsVisible, KeepsShared, LacksName};
ghost use Rattle.lotos_warn.specs.LabelSets.{IsJoint, IsRenamed};

use indexmap::IndexSet;
use lotos_text::{Action, Name, Placed, SyncSet};
use std::alloc::{AllocError, Global};
use std::mem::replace;

/// Adds a name.
pub(crate) fn insert_name<'a>(
    into: &mut IndexSet<&'a str>,
    name: &'a Name,
) -> Result<(), AllocError>
    ensures { OnOk result (AddsNames (λ k. k.now) into.old.keys into.new.keys (λ n. name.now ≡ n)) }
{
    into.insert(name.text())?;
    Ok(())
}

/// Adds a name. Returns whether it was not there.
pub(crate) fn insert_new<'a>(
    into: &mut IndexSet<&'a str>,
    name: &'a Name,
) -> Result<bool, AllocError>
    ensures adds { OnOk result (AddsNames (λ k. k.now) into.old.keys into.new.keys (λ n. name.now ≡ n)) }
    ensures new { IfOk result (λ new. MatchBool new (In name.now (map (λ k. k.now) into.old.keys) → ⊥)
        (In name.now (map (λ k. k.now) into.old.keys))) }
{
    let new = into.insert(name.text())?;
    Ok(new)
}

/// Adds the names of a list.
pub(crate) fn insert_names<'a>(
    into: &mut IndexSet<&'a str>,
    gates: &'a [Placed],
) -> Result<(), AllocError>
    ensures { OnOk result (AddsNames (λ k. k.now) into.old.keys into.new.keys (λ n. In n (texts gates.now))) }
{
    for gate in gates {
        insert_name(into, &gate.name)?;
    }
    Ok(())
}

/// Adds the gate of an action, if it has one.
pub(crate) fn insert_action<'a>(
    into: &mut IndexSet<&'a str>,
    action: &'a Action,
) -> Result<(), AllocError>
    ensures { OnOk result (AddsNames (λ k. k.now) into.old.keys into.new.keys (IsActionNamed action.now)) }
{
    match action {
        Action::Internal => Ok(()),
        Action::Gate(gate) => insert_name(into, &gate.name),
    }
}

/// Adds the gates in the list of a parallel composition.
pub(crate) fn insert_list<'a>(
    into: &mut IndexSet<&'a str>,
    sync: &'a SyncSet,
) -> Result<(), AllocError>
    ensures { OnOk result (AddsNames (λ k. k.now) into.old.keys into.new.keys
        (IsListed (sync_view sync.now))) }
{
    match sync {
        SyncSet::All => Ok(()),
        SyncSet::Gates(gates) => insert_names(into, gates.as_slice()),
    }
}

/// Adds all names of two sets.
pub(crate) fn insert_both<'a>(
    into: &mut IndexSet<&'a str>,
    first: IndexSet<&'a str>,
    second: IndexSet<&'a str>,
) -> Result<(), AllocError>
    ensures { OnOk result (AddsNames (λ k. k.now) into.old.keys into.new.keys
        (λ n. In n (map (λ k. k.now) first.entry.keys) ⊎ In n (map (λ k. k.now) second.entry.keys))) }
{
    merge(into, first)?;
    merge(into, second)
}

/// Adds all names of a set. The names of the smaller set go into the larger one, so that a name that goes through many
/// sets is moved at most as often as their sizes double.
pub(crate) fn merge<'a>(
    into: &mut IndexSet<&'a str>,
    from: IndexSet<&'a str>,
) -> Result<(), AllocError>
    ensures { OnOk result (AddsNames (λ k. k.now) into.old.keys into.new.keys
        (λ n. In n (map (λ k. k.now) from.entry.keys))) }
{
    if into.len() < from.len() {
        let fewer = replace(into, from);
        insert_all(into, fewer.as_slice())
    } else {
        insert_all(into, from.as_slice())
    }
}

/// Adds all names of a set.
fn insert_all<'a>(into: &mut IndexSet<&'a str>, from: &[&'a str]) -> Result<(), AllocError>
    ensures { OnOk result (AddsNames (λ k. k.now) into.old.keys into.new.keys
        (λ n. In n (map (λ k. k.now) from.now))) }
{
    for name in from {
        insert_text(into, *name)?;
    }
    Ok(())
}

fn insert_text<'a>(into: &mut IndexSet<&'a str>, name: &'a str) -> Result<(), AllocError>
    ensures { OnOk result (AddsNames (λ k. k.now) into.old.keys into.new.keys (λ n. name.now ≡ n)) }
{
    into.insert(name)?;
    Ok(())
}

/// Adds the names of a set that a hide form with these gates leaves visible.
pub(crate) fn insert_visible<'a>(
    alloc: Global,
    into: &mut IndexSet<&'a str>,
    from: &[&'a str],
    gates: &'a [Placed],
) -> Result<(), AllocError>
    ensures { OnOk result (AddsNames (λ k. k.now) into.old.keys into.new.keys
        (λ n. IsVisible (texts gates.now) (map (λ k. k.now) from.now) n)) }
{
    let mut hidden = IndexSet::new(alloc);
    insert_names(&mut hidden, gates)?;
    insert_others(into, from, &hidden)
}

/// Adds the names that are not hidden.
fn insert_others<'a>(
    into: &mut IndexSet<&'a str>,
    from: &[&'a str],
    hidden: &IndexSet<&'a str>,
) -> Result<(), AllocError>
    ensures { OnOk result (AddsNames (λ k. k.now) into.old.keys into.new.keys
        (λ n. IsVisible (map (λ k. k.now) hidden.now.keys) (map (λ k. k.now) from.now) n)) }
{
    for name in from {
        insert_other(into, *name, hidden)?;
    }
    Ok(())
}

/// Adds the name if it is not hidden.
fn insert_other<'a>(
    into: &mut IndexSet<&'a str>,
    name: &'a str,
    hidden: &IndexSet<&'a str>,
) -> Result<(), AllocError>
    ensures { OnOk result (AddsNames (λ k. k.now) into.old.keys into.new.keys
        (λ n. (In n (map (λ k. k.now) hidden.now.keys) → ⊥) × (name.now ≡ n))) }
{
    if !hidden.contains(name) {
        insert_text(into, name)?;
    }
    Ok(())
}

/// The names that both sets have.
pub(crate) fn common_names<'a>(
    alloc: Global,
    first: &IndexSet<&'a str>,
    second: &IndexSet<&'a str>,
) -> Result<IndexSet<&'a str>, AllocError>
    ensures { IfOk result (λ common. (n : AnyName) → In n (map (λ k. k.now) common.keys)
        ↔ (In n (map (λ k. k.now) first.now.keys) × In n (map (λ k. k.now) second.now.keys))) }
{
    let mut common = IndexSet::new(alloc);
    insert_common(&mut common, first, second)?;
    Ok(common)
}

/// Adds the names that both sets have.
pub(crate) fn insert_common<'a>(
    into: &mut IndexSet<&'a str>,
    first: &IndexSet<&'a str>,
    second: &IndexSet<&'a str>,
) -> Result<(), AllocError>
    ensures { OnOk result (AddsNames (λ k. k.now) into.old.keys into.new.keys
        (λ n. In n (map (λ k. k.now) first.now.keys) × In n (map (λ k. k.now) second.now.keys))) }
{
    if first.len() < second.len() {
        insert_shared(into, first.as_slice(), second)
    } else {
        insert_shared(into, second.as_slice(), first)
    }
}

/// Adds the names that are in a set.
fn insert_shared<'a>(
    into: &mut IndexSet<&'a str>,
    from: &[&'a str],
    others: &IndexSet<&'a str>,
) -> Result<(), AllocError>
    ensures { OnOk result (AddsNames (λ k. k.now) into.old.keys into.new.keys
        (λ n. In n (map (λ k. k.now) others.now.keys) × In n (map (λ k. k.now) from.now))) }
{
    for name in from {
        insert_if_shared(into, *name, others)?;
    }
    Ok(())
}

/// Adds the name if it is in a set.
fn insert_if_shared<'a>(
    into: &mut IndexSet<&'a str>,
    name: &'a str,
    others: &IndexSet<&'a str>,
) -> Result<(), AllocError>
    ensures { OnOk result (AddsNames (λ k. k.now) into.old.keys into.new.keys
        (λ n. In n (map (λ k. k.now) others.now.keys) × (name.now ≡ n))) }
{
    if others.contains(name) {
        insert_text(into, name)?;
    }
    Ok(())
}

/// Removes a name. Returns whether it was there.
pub(crate) fn remove_name(from: &mut IndexSet<&str>, name: &Name) -> bool
    ensures removes { LacksName (λ k. k.now) from.old.keys from.new.keys name.now }
    ensures there { MatchBool result (In name.now (map (λ k. k.now) from.old.keys))
        (In name.now (map (λ k. k.now) from.old.keys) → ⊥) }
{
    from.swap_remove(name.text())
}

/// Removes the names of a list.
pub(crate) fn remove_names(from: &mut IndexSet<&str>, gates: &[Placed])
    ensures { KeepsShared (map (λ k. k.now) from.old.keys) (map (λ k. k.now) from.new.keys) []
        (λ n. In n (texts gates.now)) }
{
    for gate in gates {
        remove_name(from, &gate.name);
    }
}

/// The names of both sets, but for those of the list that are not in both.
pub(crate) fn joint_names<'a>(
    first: IndexSet<&'a str>,
    list: &[Name],
    second: IndexSet<&'a str>,
) -> Result<IndexSet<&'a str>, AllocError>
    ensures { IfOk result (λ joint. (n : AnyName) → In n (map (λ k. k.now) joint.keys)
        ↔ IsJoint (Some list.now) (map (λ k. k.now) first.entry.keys)
        (map (λ k. k.now) second.entry.keys) n) }
{
    let mut joint = first;
    let mut others = second;
    remove_unshared(&mut joint, &mut others, list);
    merge(&mut joint, others)?;
    Ok(joint)
}

/// Removes from two sets the names of the list that are not in both.
fn remove_unshared(first: &mut IndexSet<&str>, second: &mut IndexSet<&str>, list: &[Name])
    ensures first { KeepsShared (map (λ k. k.now) first.old.keys) (map (λ k. k.now) first.new.keys)
        (map (λ k. k.now) second.old.keys) (λ n. In n list.now) }
    ensures second { KeepsShared (map (λ k. k.now) second.old.keys) (map (λ k. k.now) second.new.keys)
        (map (λ k. k.now) first.old.keys) (λ n. In n list.now) }
{
    for name in list {
        remove_if_unshared(first, second, name);
    }
}

/// Removes the name from two sets if it is not in both.
fn remove_if_unshared(first: &mut IndexSet<&str>, second: &mut IndexSet<&str>, name: &Name)
    ensures first { KeepsShared (map (λ k. k.now) first.old.keys) (map (λ k. k.now) first.new.keys)
        (map (λ k. k.now) second.old.keys) (λ n. name.now ≡ n) }
    ensures second { KeepsShared (map (λ k. k.now) second.old.keys) (map (λ k. k.now) second.new.keys)
        (map (λ k. k.now) first.old.keys) (λ n. name.now ≡ n) }
{
    if !is_in_both(first, second, name) {
        remove_name(first, name);
        remove_name(second, name);
    }
}

/// Whether the name is in both sets.
fn is_in_both(first: &IndexSet<&str>, second: &IndexSet<&str>, name: &Name) -> bool
    ensures { MatchBool result
        (In name.now (map (λ k. k.now) first.now.keys) × In name.now (map (λ k. k.now) second.now.keys))
        ((In name.now (map (λ k. k.now) first.now.keys) → ⊥)
        ⊎ (In name.now (map (λ k. k.now) second.now.keys) → ⊥)) }
{
    first.contains(name.text()) && second.contains(name.text())
}

/// The names with each that is a formal gate replaced by the actual one beside it: by that of the first formal gate of the
/// name.
pub(crate) fn renamed_names<'a>(
    alloc: Global,
    formals: &'a [Name],
    actuals: &'a [Name],
    names: &IndexSet<&'a str>,
) -> Result<IndexSet<&'a str>, AllocError>
    ensures { IfOk result (λ renamed. (n : AnyName) → In n (map (λ k. k.now) renamed.keys)
        ↔ IsRenamed (zip formals.now actuals.now) (map (λ k. k.now) names.now.keys) n) }
{
    let mut seen = IndexSet::new(alloc);
    let mut renamed = IndexSet::new(alloc);
    for index in 0..smaller(formals.len(), actuals.len()) {
        rename(
            &mut renamed,
            &formals[index],
            &actuals[index],
            names,
            &mut seen,
        )?;
    }
    insert_others(&mut renamed, names.as_slice(), &seen)?;
    Ok(renamed)
}

/// The smaller of two lengths.
fn smaller(first: usize, second: usize) -> usize
    ensures first { result ≤ first }
    ensures second { result ≤ second }
    ensures one { (result ≡ first) ⊎ (result ≡ second) }
{
    if first < second { first } else { second }
}

/// Adds the actual gate if the formal one is among the names and was not seen. Adds the formal gate to those seen.
fn rename<'a>(
    into: &mut IndexSet<&'a str>,
    formal: &'a Name,
    actual: &'a Name,
    names: &IndexSet<&'a str>,
    seen: &mut IndexSet<&'a str>,
) -> Result<(), AllocError>
    ensures sees { OnOk result (AddsNames (λ k. k.now) seen.old.keys seen.new.keys (λ n. formal.now ≡ n)) }
    ensures adds { OnOk result (AddsNames (λ k. k.now) into.old.keys into.new.keys
        (λ n. (In formal.now (map (λ k. k.now) seen.old.keys) → ⊥)
        × In formal.now (map (λ k. k.now) names.now.keys) × (actual.now ≡ n))) }
{
    if insert_new(seen, formal)? {
        if names.contains(formal.text()) {
            insert_name(into, actual)?;
        }
    }
    Ok(())
}
