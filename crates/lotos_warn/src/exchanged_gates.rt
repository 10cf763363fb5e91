//! The calls whose gates have changed places.
ghost use Rattle.std.specs.Prelude.{◌≡◌, ◌↔◌, ◌<◌, ◌⊎◌, ℕ, IfOk, MatchBool, OnOk, Some, length, map, slice_get};
ghost use Rattle.lotos_text.specs.AstOf.{definition_view};
ghost use Rattle.lotos_check.specs.CheckedView.{process_of, system_of};
ghost use Rattle.lotos_check.specs.NameLists.{In, Name as AnyName, texts};
ghost use Rattle.lotos_warn.specs.Additions.{Adds, AddsNames, Includes};
ghost use Rattle.lotos_warn.specs.CallSites.{Site, IsApart, IsExchangeAlone, IsExchangeAt, IsExchangeListed, IsExchangeOf, IsExchangeOfAny, IsMovedAt, IsOuterAt, IsPeerAt, numbers_of, site_of, sites_from};
ghost use Rattle.lotos_warn.specs.ShownNames.{shown_names};
ghost use Rattle.lotos_warn.specs.Warnings.{IsExchanged};
ghost use Rattle.lotos_warn.specs.declared.warning.Warning.TheVariants.{ExchangedGates};

use crate::call_sites::{CallSite, add_numbers, add_numbers_of_all, add_sites_of_all};
use crate::gate_names::{insert_name, insert_names};
use crate::process_calls::{number_at, reached_from};
use crate::shown_name::ShownNames;
use crate::warning::Warning;
use indexmap::IndexSet;
use lotos_check::{Checked, Process};
use lotos_text::{Definition, Name, Placed};
use std::alloc::{AllocError, Global};

/// Appends the warnings about calls from outside of their processes whose actual gates are the formal ones of the process
/// in another order, if no call from outside has them in their own. The definitions are the specification and its
/// processes.
pub(crate) fn warn_of_exchanges(
    alloc: Global,
    definitions: &[&Definition],
    system: &Checked,
    warnings: &mut Vec<Warning>,
) -> Result<(), AllocError>
    ensures { OnOk result (Adds warnings.old.items warnings.new.items
        (IsExchangeOfAny (system_of system.now).processes
        (sites_from 0 (map (λ d. definition_view d.now) definitions.now))
        (numbers_of (system_of system.now)))) }
{
    let mut sites = Vec::new(alloc);
    add_sites_of_all(definitions, &mut sites)?;
    let numbers = call_numbers(alloc, system)?;
    warn_of_sites(
        alloc,
        system.processes(),
        sites.as_slice(),
        numbers.as_slice(),
        warnings,
    )
}

/// The numbers of the processes that the calls of a specification go to.
fn call_numbers(alloc: Global, system: &Checked) -> Result<Vec<usize>, AllocError>
    ensures { IfOk result (λ numbers. numbers.items ≡ numbers_of (system_of system.now)) }
{
    let mut numbers = Vec::new(alloc);
    add_numbers(system.start(), &mut numbers)?;
    add_numbers_of_all(system.processes(), &mut numbers)?;
    Ok(numbers)
}

/// Appends the warnings about these calls, each of which goes to the process with the number at its index.
///
/// Only what is reached from a process is searched, and only if some call has its gates in another order.
fn warn_of_sites(
    alloc: Global,
    processes: &[Process],
    sites: &[CallSite],
    numbers: &[usize],
    warnings: &mut Vec<Warning>,
) -> Result<(), AllocError>
    ensures { OnOk result (Adds warnings.old.items warnings.new.items
        (IsExchangeOfAny (map process_of processes.now) (map site_of sites.now) numbers.now)) }
{
    let moved = moved_processes(alloc, processes, sites, numbers)?;
    warn_of_listed(alloc, processes, sites, numbers, &moved, warnings)?;
    Ok(())
}

/// Appends the warnings about the calls of the processes with these numbers.
fn warn_of_listed(
    alloc: Global,
    processes: &[Process],
    sites: &[CallSite],
    numbers: &[usize],
    moved: &IndexSet<usize>,
    warnings: &mut Vec<Warning>,
) -> Result<(), AllocError>
    ensures { OnOk result (Adds warnings.old.items warnings.new.items (λ w. (index : ℕ)
        × IsExchangeListed (map process_of processes.now) (map site_of sites.now) numbers.now
        moved.now.keys index w)) }
{
    for index in 0..moved.len() {
        let process = number_at(moved, index);
        warn_of_calls_of(alloc, processes, sites, numbers, process, warnings)?;
    }
    Ok(())
}

/// The processes that some call has with their formal gates in another order, by number.
fn moved_processes(
    alloc: Global,
    processes: &[Process],
    sites: &[CallSite],
    numbers: &[usize],
) -> Result<IndexSet<usize>, AllocError>
    ensures { IfOk result (λ moved. (k : ℕ) → In k moved.keys ↔ ((index : ℕ)
        × IsMovedAt (map process_of processes.now) (map site_of sites.now) numbers.now index k)) }
{
    let mut moved = IndexSet::new(alloc);
    for index in 0..sites.len() {
        add_if_moved(alloc, processes, sites, numbers, index, &mut moved)?;
    }
    Ok(moved)
}

/// Adds the process of the call at the index, if that has its formal gates in another order.
fn add_if_moved(
    alloc: Global,
    processes: &[Process],
    sites: &[CallSite],
    numbers: &[usize],
    index: usize,
    moved: &mut IndexSet<usize>,
) -> Result<(), AllocError>
    requires { index < length sites.now }
    ensures { OnOk result (Adds moved.old.keys moved.new.keys
        (IsMovedAt (map process_of processes.now) (map site_of sites.now) numbers.now index)) }
{
    if index < numbers.len() {
        let process = numbers[index];
        if process < processes.len() {
            let own = processes[process].formals.as_slice();
            if is_exchanged(alloc, sites[index].actuals, own)? {
                moved.insert(process)?;
            }
        }
    }
    Ok(())
}

/// Appends the warnings about the calls of the process with this number.
fn warn_of_calls_of(
    alloc: Global,
    processes: &[Process],
    sites: &[CallSite],
    numbers: &[usize],
    process: usize,
    warnings: &mut Vec<Warning>,
) -> Result<(), AllocError>
    ensures { OnOk result (Adds warnings.old.items warnings.new.items
        (IsExchangeOf (map process_of processes.now) (map site_of sites.now) numbers.now process)) }
{
    if process < processes.len() {
        let inside = reached_from(alloc, processes, process)?;
        let own = processes[process].formals.as_slice();
        warn_unless_peer(alloc, sites, numbers, process, own, &inside, warnings)?;
    }
    Ok(())
}

/// Appends the warnings about calls of the process from outside, unless one has its formal gates in their own order.
fn warn_unless_peer(
    alloc: Global,
    sites: &[CallSite],
    numbers: &[usize],
    process: usize,
    own: &[Name],
    inside: &IndexSet<usize>,
    warnings: &mut Vec<Warning>,
) -> Result<(), AllocError>
    ensures { OnOk result (Adds warnings.old.items warnings.new.items
        (IsExchangeAlone (map site_of sites.now) numbers.now (λ k. In k inside.now.keys) process own.now)) }
{
    if has_peer(sites, numbers, process, own, inside) {
        Ok(())
    } else {
        warn_of_calls(alloc, sites, numbers, process, own, inside, warnings)?;
        Ok(())
    }
}

/// Whether a call of the process from outside has its formal gates in their own order.
fn has_peer(
    sites: &[CallSite],
    numbers: &[usize],
    process: usize,
    own: &[Name],
    inside: &IndexSet<usize>,
) -> bool
    ensures { MatchBool result
        ((index : ℕ) × IsPeerAt (map site_of sites.now) numbers.now (λ k. In k inside.now.keys)
        process own.now index)
        ((index : ℕ) → IsPeerAt (map site_of sites.now) numbers.now (λ k. In k inside.now.keys)
        process own.now index → ⊥) }
{
    for index in 0..sites.len() {
        if is_peer(sites, numbers, process, own, inside, index) {
            return true;
        }
    }
    false
}

/// Whether the call at the index is such a call.
fn is_peer(
    sites: &[CallSite],
    numbers: &[usize],
    process: usize,
    own: &[Name],
    inside: &IndexSet<usize>,
    index: usize,
) -> bool
    requires { index < length sites.now }
    ensures { MatchBool result
        (IsPeerAt (map site_of sites.now) numbers.now (λ k. In k inside.now.keys) process own.now index)
        (IsPeerAt (map site_of sites.now) numbers.now (λ k. In k inside.now.keys) process own.now index → ⊥) }
{
    is_outer(sites, numbers, process, inside, index) && are_names(sites[index].actuals, own)
}

/// Whether the call at the index is one of the process from outside.
fn is_outer(
    sites: &[CallSite],
    numbers: &[usize],
    process: usize,
    inside: &IndexSet<usize>,
    index: usize,
) -> bool
    requires { index < length sites.now }
    ensures { (site : Site) → slice_get (map site_of sites.now) index ≡ Some site → MatchBool result
        (IsOuterAt (map site_of sites.now) numbers.now (λ k. In k inside.now.keys) process index site)
        (IsOuterAt (map site_of sites.now) numbers.now (λ k. In k inside.now.keys) process index site → ⊥) }
{
    if index < numbers.len() && numbers[index] == process {
        is_apart(sites[index].caller, inside)
    } else {
        false
    }
}

/// Whether the definition with this index is the specification, or a process that is not inside.
fn is_apart(caller: usize, inside: &IndexSet<usize>) -> bool
    ensures { MatchBool result (IsApart (λ k. In k inside.now.keys) caller)
        (IsApart (λ k. In k inside.now.keys) caller → ⊥) }
{
    if caller == 0 {
        true
    } else {
        !inside.contains(&(caller - 1))
    }
}

/// Appends the warnings about calls of the process from outside with its formal gates in another order.
fn warn_of_calls(
    alloc: Global,
    sites: &[CallSite],
    numbers: &[usize],
    process: usize,
    own: &[Name],
    inside: &IndexSet<usize>,
    warnings: &mut Vec<Warning>,
) -> Result<(), AllocError>
    ensures { OnOk result (Adds warnings.old.items warnings.new.items (λ w. (index : ℕ)
        × IsExchangeAt (map site_of sites.now) numbers.now (λ k. In k inside.now.keys)
        process own.now index w)) }
{
    for index in 0..sites.len() {
        if is_outer(sites, numbers, process, inside, index) {
            warn_if_exchanged(alloc, &sites[index], own, warnings)?;
        }
    }
    Ok(())
}

/// Appends the warning about a call, if it has the formal gates of its process in another order.
fn warn_if_exchanged(
    alloc: Global,
    site: &CallSite,
    own: &[Name],
    warnings: &mut Vec<Warning>,
) -> Result<(), AllocError>
    ensures { OnOk result (Adds warnings.old.items warnings.new.items (λ w.
        IsExchanged (texts site.now.actuals.now) own.now
        × (w ≡ ExchangedGates site.now.callee.now (shown_names own.now)))) }
{
    if is_exchanged(alloc, site.actuals, own)? {
        let process = site.callee.copy(alloc)?;
        let gates = ShownNames::of(alloc, own)?;
        warnings.push(Warning::ExchangedGates { process, gates })?;
    }
    Ok(())
}

/// Whether the gates have the names, in another order.
fn is_exchanged(alloc: Global, gates: &[Placed], names: &[Name]) -> Result<bool, AllocError>
    ensures { IfOk result (λ exchanged. MatchBool exchanged (IsExchanged (texts gates.now) names.now)
        (IsExchanged (texts gates.now) names.now → ⊥)) }
{
    if are_names(gates, names) {
        Ok(false)
    } else {
        let same = have_same_names(alloc, gates, names)?;
        Ok(same)
    }
}

/// Whether the gates have exactly the names, each any number of times.
fn have_same_names(alloc: Global, gates: &[Placed], names: &[Name]) -> Result<bool, AllocError>
    ensures { IfOk result (λ same. MatchBool same ((n : AnyName) → In n (texts gates.now) ↔ In n names.now)
        (((n : AnyName) → In n (texts gates.now) ↔ In n names.now) → ⊥)) }
{
    let mut given = IndexSet::new(alloc);
    insert_names(&mut given, gates)?;
    let mut own = IndexSet::new(alloc);
    insert_each(&mut own, names)?;
    Ok(have_names(gates, &own) && are_among(names, &given))
}

/// Whether the gates are these names, in this order.
fn are_names(gates: &[Placed], names: &[Name]) -> bool
    ensures { MatchBool result (texts gates.now ≡ names.now) (texts gates.now ≡ names.now → ⊥) }
{
    if gates.len() != names.len() {
        return false;
    }
    for index in 0..gates.len() {
        if gates[index].name != names[index] {
            return false;
        }
    }
    true
}

/// Whether each name of the gates is in the set.
fn have_names(gates: &[Placed], set: &IndexSet<&str>) -> bool
    ensures { MatchBool result (Includes (map (λ k. k.now) set.now.keys) (texts gates.now))
        (Includes (map (λ k. k.now) set.now.keys) (texts gates.now) → ⊥) }
{
    for gate in gates {
        if !set.contains(gate.name.text()) {
            return false;
        }
    }
    true
}

/// Whether each of the names is in the set.
fn are_among(names: &[Name], set: &IndexSet<&str>) -> bool
    ensures { MatchBool result (Includes (map (λ k. k.now) set.now.keys) names.now)
        (Includes (map (λ k. k.now) set.now.keys) names.now → ⊥) }
{
    for name in names {
        if !set.contains(name.text()) {
            return false;
        }
    }
    true
}

/// Adds the names.
fn insert_each<'a>(into: &mut IndexSet<&'a str>, names: &'a [Name]) -> Result<(), AllocError>
    ensures { OnOk result (AddsNames (λ k. k.now) into.old.keys into.new.keys (λ n. In n names.now)) }
{
    for name in names {
        insert_name(into, name)?;
    }
    Ok(())
}
