//! Sequences that are followed, and what can come after them.
ghost use Rattle.std.specs.Prelude.{◌≡◌, IfOk, List, map, string_bytes, true};
ghost use Rattle.lotos_check.specs.NameLists.{In};
ghost use Rattle.lotos_listing.specs.NamedLabels.{HasGate, HaveGates};
ghost use Rattle.lotos_listing.specs.Order.{Label as Text};
ghost use Rattle.lotos_listing.specs.Question.{ArePrinted};

use crate::lines::{Line, print_rows, put, put_labels};
use crate::match_calls::Row;
use crate::retry_heap::{Heap, Stop};
use crate::set_calls::{HIDDEN_LOOP, HIDDEN_STOP, SAME_PREFIX, sets_of};
use lotos_listing::{NoProgress, labels_of_words};
use lotos_pattern::check_label_words;
use lotos_sets::{FollowFault, Followed, FormSets, follow};
use lotos_terms::Label;
use lotos_text::Name;
use std::alloc::{AllocError, Global};
use std::fmt::Write;

/// Rows whose words are a sequence, and whose bound is the most terms of a set.
const ROWS: &[Row] = &[
    (HIDDEN_LOOP, &[], false, 9),
    (HIDDEN_LOOP, &["a", "A"], false, 9),
    (HIDDEN_LOOP, &["A", "B", "A"], false, 9),
    (HIDDEN_STOP, &["A", "A"], false, 9),
    (HIDDEN_STOP, &["A"], true, 9),
    (HIDDEN_STOP, &["A", "I"], true, 9),
    // A bound that the sets reach, and the next ones.
    (SAME_PREFIX, &["a", "exit"], false, 2),
    (SAME_PREFIX, &["a", "exit"], false, 1),
    (SAME_PREFIX, &["B"], false, 1),
    (SAME_PREFIX, &["A"], false, 0),
];

pub fn rows(rt: &impl Print, heap: &Heap) -> Result<(), Stop> {
    print_rows(rt, heap, "after: ", ROWS, write_row)
}

/// Writes how far a sequence can be observed, and what can come then.
fn write_row(heap: &Heap, line: &mut Line, row: &Row) -> Result<(), Stop> {
    let (text, words, strong, terms) = *row;
    let words = heap.retried(|| strings(heap.alloc, words))?;
    let words = words.as_slice();
    let mut sets = sets_of(heap, text, strong, terms)?;
    let gates = sets.table().gates();
    let labels = heap.retried(|| labels(heap.alloc, gates, words, strong))?;
    write_followed(heap, line, &mut sets, labels.as_slice(), terms)
}

/// The same for the sequence of these labels.
fn write_followed(
    heap: &Heap,
    line: &mut Line,
    sets: &mut FormSets,
    labels: &[Label],
    terms: usize,
) -> Result<(), Stop>
    requires { (s : List Text) × ArePrinted sets.old.table.names labels.now s }
{
    match heap.retried_on(sets, |sets| follow(sets, labels, &mut NoProgress)) {
        Ok(followed) => write_next(line, sets.table().gates(), &followed, labels.len()),
        Err(FollowFault::TooManyTerms(length)) => {
            Ok(write!(line, "more than {terms} terms at {length}")?)
        }
        Err(FollowFault::Memory) => Err(Stop::Memory),
    }
}

fn strings(alloc: Global, words: &[&str]) -> Result<Vec<String>, AllocError> {
    let mut strings = Vec::new(alloc);
    for word in words {
        strings.push(String::from_str(alloc, word)?)?;
    }
    Ok(strings)
}

/// The labels that the words name, by the gates with these names, if each word names a label that can be observed, and
/// no gate but these.
fn labels(alloc: Global, gates: &[Name], words: &[String], strong: bool) -> Result<Vec<Label>, Stop>
    ensures { IfOk result (λ labels. (s : List Text) × ArePrinted gates.now labels.items s) }
{
    let Ok(()) = check_label_words(words, strong) else {
        return Err(Stop::Row);
    };
    if !have_gates(alloc, gates, words)? {
        return Err(Stop::Row);
    }
    Ok(labels_of_words(alloc, gates, words)?)
}

/// Whether each word that names a gate names one of these.
fn have_gates(alloc: Global, gates: &[Name], words: &[String]) -> Result<bool, AllocError>
    ensures { IfOk result (λ b. b ≡ true → HaveGates gates.now (map string_bytes words.now)) }
{
    for word in words {
        if !has_gate(alloc, gates, word.as_str())? {
            return Ok(false);
        }
    }
    Ok(true)
}

/// Whether the word names one of the gates, or no gate.
fn has_gate(alloc: Global, gates: &[Name], word: &str) -> Result<bool, AllocError>
    ensures { IfOk result (λ b. b ≡ true → HasGate gates.now word.now) }
{
    if word.eq_ignore_ascii_case("exit") {
        return Ok(true);
    }
    if word.eq_ignore_ascii_case("i") {
        return Ok(true);
    }
    let name = word.to_ascii_uppercase(alloc)?;
    Ok(is_among(gates, name.as_str()))
}

/// Whether one of the gates has this name.
fn is_among(gates: &[Name], name: &str) -> bool
    ensures { result ≡ true → In name.now gates.now }
{
    for gate in gates {
        if gate.text() == name {
            return true;
        }
    }
    false
}

/// Writes how many labels of a sequence of `count` can be observed, the labels that can come then, and whether there can
/// be a deadlock.
fn write_next(line: &mut Line, gates: &[Name], found: &Followed, count: usize) -> Result<(), Stop> {
    let length = found.length;
    write!(line, "{length} of {count}(")?;
    put_labels(line, gates, found.next.as_slice())?;
    if found.deadlock {
        put(line, " <deadlock>")?;
    }
    put(line, " )")
}
