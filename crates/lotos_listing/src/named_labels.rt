//! The labels of a system that words name.
ghost use Rattle.std.specs.Prelude.{◌≡◌, Bool, IfOk, List, MatchOption, Some, map, slice_get, string_bytes};
ghost use Rattle.lotos_check.specs.NameLists.{In};
ghost use Rattle.lotos_pattern.specs.Spelling.{IsNamed, NamesEach};
ghost use Rattle.lotos_terms.specs.TableView.{IsPrintedAs};
ghost use Rattle.lotos_listing.specs.NamedLabels.{HasGate, HaveGates};
ghost use Rattle.lotos_listing.specs.Order.{Label as Text};
ghost use Rattle.lotos_listing.specs.Question.{ArePrinted};

use lotos_terms::{Gate, Label};
use lotos_text::Name;
use std::alloc::{AllocError, Global};

/// The labels that the words name, by the gates with these names. Each word names a label, and each gate that they name
/// is one of these.
pub fn labels_of_words(
    alloc: Global,
    gates: &[Name],
    words: &[String],
) -> Result<Vec<Label>, AllocError>
    requires gates { HaveGates gates.now (map string_bytes words.now) }
    ensures { IfOk result (λ labels. (strong : Bool) (s : List Text) →
        NamesEach strong (map string_bytes words.now) s → ArePrinted gates.now labels.items s) }
{
    let mut labels = Vec::new(alloc);
    for word in words {
        match label_of_word(alloc, gates, word.as_str())? {
            Some(label) => labels.push(label)?,
            None => unreachable!(),
        }
    }
    Ok(labels)
}

/// The label that the word names; `None` if it names a gate that is none of these.
fn label_of_word(alloc: Global, gates: &[Name], word: &str) -> Result<Option<Label>, AllocError>
    ensures { IfOk result (λ o. MatchOption o (HasGate gates.now word.now → ⊥)
        (λ k. (text : Text) → IsNamed word.now text → IsPrintedAs gates.now k text)) }
{
    if word.eq_ignore_ascii_case("exit") {
        return Ok(Some(Label::Exit));
    }
    if word.eq_ignore_ascii_case("i") {
        return Ok(Some(Label::Internal));
    }
    let name = word.to_ascii_uppercase(alloc)?;
    match find_gate(gates, name.as_str()) {
        Some(gate) => Ok(Some(Label::Gate(gate))),
        None => Ok(None),
    }
}

/// The gate with this name, if it is one of these.
fn find_gate(gates: &[Name], name: &str) -> Option<Gate>
    ensures { MatchOption result (In name.now gates.now → ⊥) (λ g. slice_get gates.now g ≡ Some name.now) }
{
    for number in 0..gates.len() {
        if gates[number].text() == name {
            return Some(Gate::of_number(number));
        }
    }
    None
}
