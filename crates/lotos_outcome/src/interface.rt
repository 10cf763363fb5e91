//! The specification that a question is about, or the two: with the gates hidden that an interface leaves out.
ghost use Rattle.std.specs.Prelude.{◌≡◌, ◌∷◌, ◌++◌, [], IfErr, IfOk, OnOk, false, map};
ghost use Rattle.std.specs.Char.{to_ascii_uppercase};
ghost use Rattle.lotos_check.specs.CheckedView.{system_of};
ghost use Rattle.lotos_check.specs.HiddenGates.{IsWithout};
ghost use Rattle.lotos_check.specs.NameLists.{In};
ghost use Rattle.lotos_pattern.specs.Spelling.{parts_of};
ghost use Rattle.lotos_outcome.specs.Interfaces.{AreGatesOf, AreInterfacesOf, IsInterfaceOf, IsOnly, IsSeenThrough, gates_named, gates_of_both, names_given};
ghost use Rattle.lotos_outcome.specs.RefusalCauses.{IsNameRefusal};
ghost use Rattle.lotos_outcome.specs.Rejections.{IsRejectionBy, is_input_failure};

use crate::refusal::Refusal;
use crate::rejection::Rejection;
use crate::unknown_gates::find_gate;
use lotos_check::Checked;
use lotos_command::Interface;
use lotos_pattern::split_names;
use lotos_text::Name;
use std::alloc::{AllocError, Global};

/// The specification with the gates hidden that the interface leaves out. An interface with a name that is no gate of
/// the specification's own list is refused with E52 and the first such name.
pub fn seen_through(
    alloc: Global,
    interface: &Interface,
    own: Checked,
) -> Result<Checked, Rejection>
    ensures asked { IfOk result (λ system. IsInterfaceOf interface.now (system_of own) (system_of system)) }
    ensures rejected { IfErr result
        (IsRejectionBy (IsNameRefusal (system_of own).formals (names_given interface.now))) }
    ensures unread { is_input_failure result ≡ false }
{
    let named = given_gates(alloc, interface, own.gates())?;
    Ok(leave(alloc, interface, named.as_slice(), own)?)
}

/// Both specifications with the gates hidden that the interface leaves out. An interface with a name that is a gate of
/// neither's own list is refused with E52 and the first such name.
pub fn both_seen_through(
    alloc: Global,
    interface: &Interface,
    first: Checked,
    second: Checked,
) -> Result<(Checked, Checked), Rejection>
    ensures asked { IfOk result (λ systems. AreInterfacesOf interface.now (system_of first, system_of second)
        (system_of systems.0, system_of systems.1)) }
    ensures rejected { IfErr result (IsRejectionBy
        (IsNameRefusal (gates_of_both (system_of first, system_of second)) (names_given interface.now))) }
    ensures unread { is_input_failure result ≡ false }
{
    let gates = joined_names(alloc, first.gates(), second.gates())?;
    let named = given_gates(alloc, interface, gates.as_slice())?;
    let one = leave(alloc, interface, named.as_slice(), first)?;
    let other = leave(alloc, interface, named.as_slice(), second)?;
    Ok((one, other))
}

/// The names of both lists, one list after the other.
fn joined_names(alloc: Global, firsts: &[Name], seconds: &[Name]) -> Result<Vec<Name>, AllocError>
    ensures { IfOk result (λ v. v.items ≡ firsts.now ++ seconds.now) }
{
    let mut all = Vec::new(alloc);
    append_names(alloc, firsts, &mut all)?;
    append_names(alloc, seconds, &mut all)?;
    Ok(all)
}

/// Appends copies of the names.
fn append_names(alloc: Global, names: &[Name], all: &mut Vec<Name>) -> Result<(), AllocError>
    ensures { OnOk result (all.new.items ≡ all.old.items ++ names.now) }
{
    for name in names {
        all.push(name.copy(alloc)?)?;
    }
    Ok(())
}

/// The gates that the interface names, in its order. Each has to be one of these.
fn given_gates(alloc: Global, interface: &Interface, gates: &[Name]) -> Result<Vec<Name>, Rejection>
    ensures named { IfOk result (λ v. v.items ≡ gates_named (names_given interface.now)) }
    ensures known { OnOk result (AreGatesOf gates.now (names_given interface.now)) }
    ensures rejected { IfErr result (IsRejectionBy (IsNameRefusal gates.now (names_given interface.now))) }
    ensures unread { is_input_failure result ≡ false }
{
    match interface {
        Interface::Whole => Ok(Vec::new(alloc)),
        Interface::Hide(names) => named_gates(alloc, names.as_str(), gates),
        Interface::Only(names) => named_gates(alloc, names.as_str(), gates),
    }
}

/// The specification with the gates hidden that the interface leaves out, which names these gates.
fn leave(
    alloc: Global,
    interface: &Interface,
    named: &[Name],
    own: Checked,
) -> Result<Checked, AllocError>
    ensures { IfOk result (λ system. named.now ≡ gates_named (names_given interface.now) →
        IsSeenThrough interface.now (system_of own) (system_of system)) }
{
    match interface {
        Interface::Whole => Ok(own),
        Interface::Hide(_) => own.with_hidden(alloc, named),
        Interface::Only(_) => hide_others(alloc, named, own),
    }
}

/// The specification with all gates of its own list hidden but these.
fn hide_others(alloc: Global, kept: &[Name], own: Checked) -> Result<Checked, AllocError>
    ensures { IfOk result (λ system. IsOnly kept.now (system_of own) (system_of system)) }
{
    let others = other_gates(alloc, kept, own.gates())?;
    own.with_hidden(alloc, others.as_slice())
}

/// The gates of the names that are in a list, joined by commas, in its order.
fn named_gates(alloc: Global, list: &str, gates: &[Name]) -> Result<Vec<Name>, Rejection>
    ensures named { IfOk result (λ v. v.items ≡ gates_named (parts_of list.now)) }
    ensures known { OnOk result (AreGatesOf gates.now (parts_of list.now)) }
    ensures rejected { IfErr result (IsRejectionBy (IsNameRefusal gates.now (parts_of list.now))) }
    ensures unread { is_input_failure result ≡ false }
{
    let names = split_names(alloc, list)?;
    let mut found = Vec::new(alloc);
    for name in &names {
        let gate = named_gate(alloc, name, gates)?;
        match found.push(gate) {
            Ok(()) => {}
            Err(_) => return Err(Rejection::Memory),
        }
    }
    Ok(found)
}

/// The one of the gates that has this name, in any mix of cases.
fn named_gate(alloc: Global, name: &str, gates: &[Name]) -> Result<Name, Rejection>
    ensures named { IfOk result (λ gate. gate ≡ map to_ascii_uppercase name.now) }
    ensures known { OnOk result (In (map to_ascii_uppercase name.now) gates.now) }
    ensures rejected { IfErr result (IsRejectionBy (IsNameRefusal gates.now (name.now ∷ []))) }
    ensures unread { is_input_failure result ≡ false }
{
    let upper = name.to_ascii_uppercase(alloc)?;
    match find_gate(gates, upper.as_str()) {
        Some(gate) => Ok(gate.copy(alloc)?),
        None => Err(Rejection::Refused(Refusal::E52(String::from_str(alloc, name)?))),
    }
}

/// The gates that are none of the kept ones, in their order.
fn other_gates(alloc: Global, kept: &[Name], gates: &[Name]) -> Result<Vec<Name>, AllocError>
    ensures { IfOk result (λ v. IsWithout kept.now gates.now v.items) }
{
    let mut others = Vec::new(alloc);
    append_names(alloc, gates, &mut others)?;
    others.retain(|gate| !kept.contains(gate));
    Ok(others)
}
