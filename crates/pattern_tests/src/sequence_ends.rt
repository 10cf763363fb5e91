//! Where a sequence of labels leads in a pattern.
use lotos_pattern::{End, Pattern, Place};
use std::alloc::{AllocError, Global};
use std::process::Abort;

/// The place of the sequence in the pattern, if it has one.
pub fn place_after(pattern: &Pattern, labels: &[&str]) -> Option<Place> {
    let mut place = pattern.begin();
    for label in labels {
        place = pattern.step(place, label)?;
    }
    Some(place)
}

/// Whether the sequence may end at its place in the pattern; none if it has no place.
pub fn end_after(pattern: &Pattern, labels: &[&str]) -> Option<End> {
    Some(pattern.accepts(place_after(pattern, labels)?))
}

/// Whether the end must refuse the label; none if it need not refuse a set.
pub fn is_refused(pattern: &Pattern, label: &str) -> Option<bool> {
    Some(pattern.refusal()?.contains(label))
}

/// Asserts whether the sequence may end in the pattern of the words; none if it has no place.
pub fn assert_end(
    rt: &impl Abort,
    words: &[&str],
    labels: &[&str],
    found: Option<End>,
    expected: Option<End>,
) {
    assert_eq!(rt; found, expected, "{:?} at {:?}", words, labels);
}

/// The parts as one text.
pub fn joined(alloc: Global, parts: &[&str]) -> Result<String, AllocError> {
    let mut out = String::new(alloc);
    for part in parts {
        out.push_str(part)?;
    }
    Ok(out)
}

/// Asserts that a text is the expected one.
pub fn assert_text(rt: &impl Abort, subject: &str, found: &str, expected: &str) {
    assert_eq!(rt; found, expected, "{}", subject);
}
