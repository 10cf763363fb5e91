//! Elements of a pattern, and their transitions on labels.
ghost use Rattle.std.specs.Prelude.{◌≡◌, ◌↔◌, ◌≤◌, ℕ, IfOk, MatchBool, [], drop, map, option_map};
ghost use Rattle.lotos_pattern.specs.Patterns.{IsJoin, Segment, last_refusal, refusal_of};
ghost use Rattle.lotos_pattern.specs.Spelling.{texts_of};
ghost use Rattle.lotos_pattern.specs.ExactPatterns.{exact_elements, label_element};
ghost use Rattle.lotos_pattern.specs.ElementView.{element_of, elements_of, lent_set_of};
ghost use Rattle.lotos_pattern.specs.Transitions.{IsTransition};

use crate::label_set::LabelSet;
use std::alloc::{AllocError, Global};

/// An element of a pattern.
#[derive(Debug, Drop)]
pub(crate) enum Element {
    /// One label of the set.
    One(LabelSet),
    /// Any number of labels outside of the set, and then one of the set.
    Until(LabelSet),
    /// Any number of labels, all of the set.
    While(LabelSet),
    /// No label; the end must refuse the set.
    Refuses(LabelSet),
    /// Any number of labels; the end must refuse the set.
    UntilRefuses(LabelSet),
}

/// What a label does at the start of an element's segment.
pub(crate) enum Transition {
    /// It is the complete segment.
    Advance,
    /// It belongs to the segment, and what follows may again be any segment of the element.
    Stay,
    /// No segment starts with it.
    Reject,
}

impl Element {
    /// What the label, given by its printed text, does at the start of this element's segment.
    pub(crate) fn transition_on(&self, label: &str) -> Transition
        ensures { IsTransition (element_of self.now) label.now result }
    {
        match self {
            Element::One(set) => {
                if set.contains(label) {
                    Transition::Advance
                } else {
                    Transition::Reject
                }
            }
            Element::Until(set) => {
                if set.contains(label) {
                    Transition::Advance
                } else {
                    Transition::Stay
                }
            }
            Element::While(set) => {
                if set.contains(label) {
                    Transition::Stay
                } else {
                    Transition::Reject
                }
            }
            Element::Refuses(_) => Transition::Reject,
            Element::UntilRefuses(_) => Transition::Stay,
        }
    }

    /// Whether the empty sequence is a segment of the element.
    pub(crate) fn may_be_empty(&self) -> bool
        ensures { MatchBool result (Segment (element_of self.now) []) (Segment (element_of self.now) [] → ⊥) }
    {
        match self {
            Element::One(_) => false,
            Element::Until(_) => false,
            Element::While(_) => true,
            Element::Refuses(_) => true,
            Element::UntilRefuses(_) => true,
        }
    }

    /// The set that the end must refuse, if the element demands that.
    pub(crate) fn refusal(&self) -> Option<&LabelSet>
        ensures { option_map lent_set_of result ≡ refusal_of (element_of self.now) }
    {
        match self {
            Element::One(_) => None,
            Element::Until(_) => None,
            Element::While(_) => None,
            Element::Refuses(set) => Some(set),
            Element::UntilRefuses(set) => Some(set),
        }
    }

    /// A copy of the element.
    fn copied(&self, alloc: Global) -> Result<Element, AllocError>
        ensures { IfOk result (λ copy. element_of copy ≡ element_of self.now) }
    {
        match self {
            Element::One(labels) => {
                let set = labels.copied(alloc)?;
                Ok(Element::One(set))
            }
            Element::Until(labels) => {
                let set = labels.copied(alloc)?;
                Ok(Element::Until(set))
            }
            Element::While(labels) => {
                let set = labels.copied(alloc)?;
                Ok(Element::While(set))
            }
            Element::Refuses(labels) => {
                let set = labels.copied(alloc)?;
                Ok(Element::Refuses(set))
            }
            Element::UntilRefuses(labels) => {
                let set = labels.copied(alloc)?;
                Ok(Element::UntilRefuses(set))
            }
        }
    }
}

/// A copy of the elements.
pub(crate) fn copied_elements(
    alloc: Global,
    elements: &[Element],
) -> Result<Vec<Element>, AllocError>
    ensures { IfOk result (λ copy. elements_of copy.items ≡ elements_of elements.now) }
{
    let mut copy = Vec::new(alloc);
    for element in elements {
        copy.push(element.copied(alloc)?)?;
    }
    Ok(copy)
}

/// The elements that match the sequence of these labels alone, and demand that its end refuses the set, if there is one.
pub(crate) fn exact_elements(
    alloc: Global,
    labels: &[&str],
    refused: Option<&LabelSet>,
) -> Result<Vec<Element>, AllocError>
    ensures { IfOk result (λ elements. elements_of elements.items ≡
        exact_elements (option_map lent_set_of refused.entry) (texts_of labels.now)) }
{
    let mut elements = label_elements(alloc, labels)?;
    if let Some(set) = refused {
        elements.push(Element::Refuses(set.copied(alloc)?))?;
    }
    Ok(elements)
}

/// One element for each label, which is that label.
fn label_elements(alloc: Global, labels: &[&str]) -> Result<Vec<Element>, AllocError>
    ensures { IfOk result (λ elements. elements_of elements.items ≡ map label_element (texts_of labels.now)) }
{
    let mut elements = Vec::new(alloc);
    for label in labels {
        elements.push(label_element(alloc, label)?)?;
    }
    Ok(elements)
}

/// The element that is one label, this one.
fn label_element(alloc: Global, label: &str) -> Result<Element, AllocError>
    ensures { IfOk result (λ element. element_of element ≡ label_element label.now) }
{
    let mut labels = Vec::new(alloc);
    labels.push(String::from_str(alloc, label)?)?;
    Ok(Element::One(LabelSet::These(labels)))
}

/// The set that the end must refuse, if the last of the elements demands that.
pub(crate) fn last_refusal(elements: &[Element]) -> Option<&LabelSet>
    ensures { option_map lent_set_of result ≡ last_refusal (elements_of elements.now) }
{
    elements.last()?.refusal()
}

/// The least accepting NFA state: each element after the first so many may have an empty segment.
pub(crate) fn min_accepting_state(elements: &[Element]) -> usize
    ensures { (k : ℕ) → IsJoin Segment (drop k (elements_of elements.now)) [] ↔ (result ≤ k) }
{
    for index in (0..elements.len()).rev() {
        if !elements[index].may_be_empty() {
            return index + 1;
        }
    }
    0
}
