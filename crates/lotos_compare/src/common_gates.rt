//! The gates that two tables have in common.
ghost use Rattle.std.specs.Prelude.{◌≡◌, ℕ, true, IfOk, List, MatchBool, MatchOption, Option};
ghost use Rattle.std.specs.List.Sorted.{IsStrictlySortedBy};
ghost use Rattle.std.specs.declared.cmp.Ordering.{Ordering};
ghost use Rattle.lotos_check.specs.NameLists.{In, IsAscendingNames, Name as NameOf};
ghost use Rattle.lotos_store.specs.declared.label.Label.{Label as LabelOf};
ghost use Rattle.lotos_terms.specs.TableView.{AreGateNames};
ghost use Rattle.lotos_compare.specs.CommonLabels.{ArePartners, HasPartner, IsAloneIfAny, IsGateLabel};
ghost use Rattle.lotos_compare.specs.CommonLabels.{IsAloneIfAsked, IsGateNamed, IsLabelOver, IsPartnerLabel};

use lotos_store::{Gate, Label};
use lotos_terms::laws::label_text_is_unique;
use lotos_text::Name;
use std::alloc::{AllocError, Global};

/// For each gate of two tables, by its number, the gate of the other table with the same name, if there is one.
#[derive(Drop)]
pub(crate) struct CommonGates {
    /// Those of the second table, for the gates of the first.
    pub seconds: Vec<Option<Gate>>,
    /// Those of the first table, for the gates of the second.
    pub firsts: Vec<Option<Gate>>,
}

impl CommonGates {
    /// The gates that the tables with these names of gates have in common.
    pub fn new(alloc: Global, firsts: &[Name], seconds: &[Name]) -> Result<CommonGates, AllocError>
        requires firsts { IsAscendingNames firsts.now }
        requires seconds { IsAscendingNames seconds.now }
        ensures seconds { IfOk result (λ g. ArePartners firsts.now seconds.now g.seconds.items) }
        ensures firsts { IfOk result (λ g. ArePartners seconds.now firsts.now g.firsts.items) }
    {
        let partners_of_firsts = partners(alloc, firsts, seconds)?;
        let partners_of_seconds = partners(alloc, seconds, firsts)?;
        Ok(CommonGates {
            seconds: partners_of_firsts,
            firsts: partners_of_seconds,
        })
    }
}

/// For each name the gate with this name among others, if there is one.
fn partners(alloc: Global, names: &[Name], others: &[Name]) -> Result<Vec<Option<Gate>>, AllocError>
    requires { IsAscendingNames others.now }
    ensures { IfOk result (λ v. ArePartners names.now others.now v.items) }
{
    let mut list = Vec::new(alloc);
    for name in names {
        list.push(gate_of(others, name))?;
    }
    Ok(list)
}

/// The gate with this name, if there is one: its number is the index of the name.
fn gate_of(names: &[Name], name: &Name) -> Option<Gate>
    requires { IsAscendingNames names.now }
    ensures { IsGateNamed names.now name.now result }
{
    match names.binary_search(name) {
        Ok(index) => Some(Gate::of_number(index)),
        Err(_) => None,
    }
}

/// The label of the other table with the same text, if there is one.
pub(crate) fn partner_label(partners: &[Option<Gate>], label: Label) -> Option<Label>
    requires { (own : List NameOf) × (other : List NameOf) × ArePartners own other partners.now ×
        IsLabelOver own label }
    ensures { (own other : List NameOf) → AreGateNames own → AreGateNames other →
        ArePartners own other partners.now → IsLabelOver own label → IsPartnerLabel own other label result }
{
    label_text_is_unique();
    match label {
        Label::Gate(gate) => {
            let number = gate.number();
            let partner = partners[number];
            gate_label(partner)
        }
        Label::Exit => Some(Label::Exit),
        Label::Internal => Some(Label::Internal),
    }
}

/// The label of the gate, if there is one.
fn gate_label(gate: Option<Gate>) -> Option<Label>
    ensures { IsGateLabel gate result }
{
    match gate {
        Some(gate) => Some(Label::Gate(gate)),
        None => None,
    }
}

/// The first label of a list whose text no label of the other list has.
pub(crate) fn first_alone(
    partners: &[Option<Gate>],
    labels: &[Label],
    others: &[Label],
) -> Option<Label>
    requires valid { (own : List NameOf) × (other : List NameOf) × ArePartners own other partners.now ×
        ((k : LabelOf) → In k labels.now → IsLabelOver own k) }
    requires sorted { IsStrictlySortedBy ⟦<Label as Ord>⟧.cmp others.now }
    ensures { (own other : List NameOf) → AreGateNames own → AreGateNames other →
        ArePartners own other partners.now → ((k : LabelOf) → In k labels.now → IsLabelOver own k) →
        IsAloneIfAny own other labels.now others.now result }
{
    for label in labels {
        if !has_partner(partners, *label, others) {
            return Some(*label);
        }
    }
    None
}

/// The same, if it is asked for: not if the first system is to be within the second.
pub(crate) fn alone_if_asked(
    within: bool,
    partners: &[Option<Gate>],
    labels: &[Label],
    others: &[Label],
) -> Option<Label>
    requires valid { (own : List NameOf) × (other : List NameOf) × ArePartners own other partners.now ×
        ((k : LabelOf) → In k labels.now → IsLabelOver own k) }
    requires sorted { IsStrictlySortedBy ⟦<Label as Ord>⟧.cmp others.now }
    ensures { (own other : List NameOf) → AreGateNames own → AreGateNames other →
        ArePartners own other partners.now → ((k : LabelOf) → In k labels.now → IsLabelOver own k) →
        IsAloneIfAsked within own other labels.now others.now result }
{
    if within {
        None
    } else {
        first_alone(partners, labels, others)
    }
}

/// Whether a label of the other list has the text of this one.
fn has_partner(partners: &[Option<Gate>], label: Label, others: &[Label]) -> bool
    requires valid { (own : List NameOf) × (other : List NameOf) × ArePartners own other partners.now ×
        IsLabelOver own label }
    requires sorted { IsStrictlySortedBy ⟦<Label as Ord>⟧.cmp others.now }
    ensures { (own other : List NameOf) → AreGateNames own → AreGateNames other →
        ArePartners own other partners.now → IsLabelOver own label →
        MatchBool result (HasPartner own other label others.now) (HasPartner own other label others.now → ⊥) }
{
    label_text_is_unique();
    match partner_label(partners, label) {
        Some(other) => is_listed(others, other),
        None => false,
    }
}

/// Whether the label is in the ascending list.
fn is_listed(labels: &[Label], label: Label) -> bool
    requires { IsStrictlySortedBy ⟦<Label as Ord>⟧.cmp labels.now }
    ensures { MatchBool result (In label labels.now) (In label labels.now → ⊥) }
{
    equal_labels();
    labels.binary_search(&label).is_ok()
}

/// Labels that compare as equal are the same label.
fn equal_labels()
    ensures { (k j : LabelOf) → ⟦<Label as Ord>⟧.cmp k j ≡ Ordering.Equal → k ≡ j }
{}
