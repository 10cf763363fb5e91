//! The gates that a behaviour offers, the lists of parallel compositions with gates that a side never offers, and the
//! hidden gates on which both sides of a composition do not synchronize.
ghost use Rattle.std.specs.Prelude.{◌≡◌, ◌∷◌, [], IfOk, OnOk, map};
ghost use Rattle.lotos_text.specs.AstOf.{behaviour_view, sync_view};
ghost use Rattle.lotos_check.specs.NameLists.{In, texts};
ghost use Rattle.lotos_warn.specs.Additions.{Adds, AddsNames, IsApartOfHiding, IsMissing, IsMissingGate, IsMissingOn, IsMissingUnseen, IsVisible};
ghost use Rattle.lotos_warn.specs.Warnings.{IsListWarning, IsOfferedApart, OffersFree, SynchronizesOn};

use crate::gate_names::{
    insert_action, insert_both, insert_common, insert_names, insert_new, insert_visible, merge,
    remove_names,
};
use crate::warning::{Side, Warning};
use indexmap::IndexSet;
use lotos_text::{Behaviour, Placed, SyncSet};
use std::alloc::{AllocError, Global};

/// Appends the warnings about the lists of parallel compositions and of hidings in the behaviour, and adds the gates that
/// it offers: in a prefix or in a call, and not hidden there. Adds the gates that both sides of a composition in it offer
/// without synchronization.
#[cycle(lists)]
pub(crate) fn warn_of_lists<'a>(
    alloc: Global,
    behaviour: &'a Behaviour,
    offered: &mut IndexSet<&'a str>,
    apart: &mut IndexSet<&'a str>,
    warnings: &mut Vec<Warning>,
) -> Result<(), AllocError>
    ensures offers { OnOk result (AddsNames (λ k. k.now) offered.old.keys offered.new.keys
        (OffersFree (behaviour_view behaviour.now))) }
    ensures apart { OnOk result (AddsNames (λ k. k.now) apart.old.keys apart.new.keys
        (λ n. IsOfferedApart n (behaviour_view behaviour.now))) }
    ensures warns { OnOk result (Adds warnings.old.items warnings.new.items
        (IsListWarning (behaviour_view behaviour.now))) }
{
    match behaviour {
        Behaviour::Stop | Behaviour::Exit => Ok(()),
        Behaviour::Prefix { action, body } => {
            insert_action(offered, action)?;
            warn_of_lists(alloc, body, offered, apart, warnings)
        }
        Behaviour::Choice { left, right }
        | Behaviour::Enable { left, right, .. }
        | Behaviour::Disable { left, right } => {
            warn_of_lists(alloc, left, offered, apart, warnings)?;
            warn_of_lists(alloc, right, offered, apart, warnings)
        }
        Behaviour::Par { left, sync, right } => {
            let mut inside = IndexSet::new(alloc);
            let by_left = warn_of_lists_in(alloc, left, &mut inside, warnings)?;
            let by_right = warn_of_lists_in(alloc, right, &mut inside, warnings)?;
            warn_of_list(alloc, sync, &by_left, &by_right, warnings)?;
            insert_common(&mut inside, &by_left, &by_right)?;
            insert_unsynchronized(apart, inside, sync)?;
            insert_both(offered, by_left, by_right)
        }
        Behaviour::Hide { gates, body } => {
            let mut inside = IndexSet::new(alloc);
            let by_body = warn_of_lists_in(alloc, body, &mut inside, warnings)?;
            warn_of_unsynchronized(alloc, gates.as_slice(), &inside, warnings)?;
            insert_unlisted(apart, inside, gates.as_slice())?;
            insert_visible(alloc, offered, by_body.as_slice(), gates.as_slice())
        }
        Behaviour::Call { gates, .. } => insert_names(offered, gates.as_slice()),
    }
}

/// Appends the warnings about the lists inside a part, adds the gates that both sides of a composition in it offer without
/// synchronization, and returns the gates that the part offers.
#[cycle(lists)]
fn warn_of_lists_in<'a>(
    alloc: Global,
    part: &'a Behaviour,
    apart: &mut IndexSet<&'a str>,
    warnings: &mut Vec<Warning>,
) -> Result<IndexSet<&'a str>, AllocError>
    ensures offers { IfOk result (λ offered. AddsNames (λ k. k.now) [] offered.keys
        (OffersFree (behaviour_view part.now))) }
    ensures apart { OnOk result (AddsNames (λ k. k.now) apart.old.keys apart.new.keys
        (λ n. IsOfferedApart n (behaviour_view part.now))) }
    ensures warns { OnOk result (Adds warnings.old.items warnings.new.items
        (IsListWarning (behaviour_view part.now))) }
{
    let mut offered = IndexSet::new(alloc);
    warn_of_lists(alloc, part, &mut offered, apart, warnings)?;
    Ok(offered)
}

/// Adds the gates of a set on which the parallel composition does not synchronize.
fn insert_unsynchronized<'a>(
    into: &mut IndexSet<&'a str>,
    from: IndexSet<&'a str>,
    sync: &SyncSet,
) -> Result<(), AllocError>
    ensures { OnOk result (AddsNames (λ k. k.now) into.old.keys into.new.keys
        (λ n. (SynchronizesOn (sync_view sync.now) n → ⊥) × In n (map (λ k. k.now) from.entry.keys))) }
{
    match sync {
        SyncSet::All => Ok(()),
        SyncSet::Gates(gates) => insert_unlisted(into, from, gates.as_slice()),
    }
}

/// Adds the gates of a set that are not in a list.
// The smaller set goes into the larger one, so a gate that goes up through many compositions is moved seldom.
fn insert_unlisted<'a>(
    into: &mut IndexSet<&'a str>,
    from: IndexSet<&'a str>,
    gates: &[Placed],
) -> Result<(), AllocError>
    ensures { OnOk result (AddsNames (λ k. k.now) into.old.keys into.new.keys
        (λ n. IsVisible (texts gates.now) (map (λ k. k.now) from.entry.keys) n)) }
{
    let mut left = from;
    remove_names(&mut left, gates);
    merge(into, left)
}

/// Appends the warnings about the list of a hiding, given the gates that both sides of a composition inside offer without
/// synchronization.
fn warn_of_unsynchronized(
    alloc: Global,
    gates: &[Placed],
    apart: &IndexSet<&str>,
    warnings: &mut Vec<Warning>,
) -> Result<(), AllocError>
    ensures { OnOk result (Adds warnings.old.items warnings.new.items
        (IsApartOfHiding (map (λ k. k.now) apart.now.keys) gates.now)) }
{
    for gate in gates {
        warn_if_unsynchronized(alloc, gate, apart, warnings)?;
    }
    Ok(())
}

/// Appends the warning about a gate of the list of a hiding if it is among those that both sides offer without
/// synchronization.
fn warn_if_unsynchronized(
    alloc: Global,
    gate: &Placed,
    apart: &IndexSet<&str>,
    warnings: &mut Vec<Warning>,
) -> Result<(), AllocError>
    ensures { OnOk result (Adds warnings.old.items warnings.new.items
        (IsApartOfHiding (map (λ k. k.now) apart.now.keys) (gate.now ∷ []))) }
{
    if apart.contains(gate.name.text()) {
        let gate = gate.copy(alloc)?;
        warnings.push(Warning::UnsynchronizedHidden(gate))?;
    }
    Ok(())
}

/// Appends the warnings about one list, given the gates that each side offers.
fn warn_of_list(
    alloc: Global,
    sync: &SyncSet,
    by_left: &IndexSet<&str>,
    by_right: &IndexSet<&str>,
    warnings: &mut Vec<Warning>,
) -> Result<(), AllocError>
    ensures { OnOk result (Adds warnings.old.items warnings.new.items
        (IsMissing (map (λ k. k.now) by_left.now.keys) (map (λ k. k.now) by_right.now.keys)
        (sync_view sync.now))) }
{
    match sync {
        SyncSet::All => Ok(()),
        SyncSet::Gates(gates) => warn_of_unoffered(
            alloc,
            gates.as_slice(),
            by_left,
            by_right,
            warnings,
        ),
    }
}

/// Appends the warnings about the gates of one list, given the gates that each side offers. Of gates with one name in the
/// list only the first has warnings.
fn warn_of_unoffered(
    alloc: Global,
    gates: &[Placed],
    by_left: &IndexSet<&str>,
    by_right: &IndexSet<&str>,
    warnings: &mut Vec<Warning>,
) -> Result<(), AllocError>
    ensures { OnOk result (Adds warnings.old.items warnings.new.items
        (IsMissingGate (map (λ k. k.now) by_left.now.keys) (map (λ k. k.now) by_right.now.keys) []
        gates.now)) }
{
    let mut seen = IndexSet::new(alloc);
    for gate in gates {
        warn_if_unseen(alloc, gate, by_left, by_right, &mut seen, warnings)?;
    }
    Ok(())
}

/// Appends the warnings about a gate, given the gates that each side offers, unless its name was seen. Adds its name to
/// those seen.
fn warn_if_unseen<'a>(
    alloc: Global,
    gate: &'a Placed,
    by_left: &IndexSet<&str>,
    by_right: &IndexSet<&str>,
    seen: &mut IndexSet<&'a str>,
    warnings: &mut Vec<Warning>,
) -> Result<(), AllocError>
    ensures sees { OnOk result (AddsNames (λ k. k.now) seen.old.keys seen.new.keys (λ n. gate.now.name ≡ n)) }
    ensures warns { OnOk result (Adds warnings.old.items warnings.new.items
        (IsMissingUnseen (map (λ k. k.now) by_left.now.keys) (map (λ k. k.now) by_right.now.keys)
        (map (λ k. k.now) seen.old.keys) gate.now)) }
{
    if insert_new(seen, &gate.name)? {
        warn_if_unoffered(alloc, gate, Side::Left, by_left, warnings)?;
        warn_if_unoffered(alloc, gate, Side::Right, by_right, warnings)?;
    }
    Ok(())
}

/// Appends the warning about a gate and a side, unless it is among the gates that the side offers.
fn warn_if_unoffered(
    alloc: Global,
    gate: &Placed,
    side: Side,
    offered: &IndexSet<&str>,
    warnings: &mut Vec<Warning>,
) -> Result<(), AllocError>
    ensures { OnOk result (Adds warnings.old.items warnings.new.items
        (IsMissingOn (map (λ k. k.now) offered.now.keys) side gate.now)) }
{
    if !offered.contains(gate.name.text()) {
        let gate = gate.copy(alloc)?;
        warnings.push(Warning::UnofferedGate { gate, side })?;
    }
    Ok(())
}
