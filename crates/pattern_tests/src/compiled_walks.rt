//! Where a sequence of labels leads in a compiled pattern.
ghost use Rattle.std.specs.Prelude.{◌<◌, IfOk, IfSome, length};

use lotos_pattern::{CompiledPattern, End, Pattern, PlaceNumber};
use std::alloc::{AllocError, Global};

/// The pattern, compiled against these labels.
pub fn compiled(
    alloc: Global,
    pattern: Pattern,
    labels: &[&str],
) -> Result<Box<CompiledPattern>, AllocError> {
    boxed(alloc, pattern, texts_of(alloc, labels)?)
}

/// The same, in a box, as a compiled pattern is large.
pub fn boxed(
    alloc: Global,
    pattern: Pattern,
    labels: Vec<String>,
) -> Result<Box<CompiledPattern>, AllocError> {
    Ok(Box::new(alloc, CompiledPattern::new(alloc, pattern, labels)?)?)
}

fn texts_of(alloc: Global, labels: &[&str]) -> Result<Vec<String>, AllocError> {
    let mut texts = Vec::new(alloc);
    for label in labels {
        texts.push(String::from_str(alloc, label)?)?;
    }
    Ok(texts)
}

/// The numbers of the labels in a list, for each the first; the list's length for one that is not there.
pub fn numbers_of(alloc: Global, labels: &[&str], list: &[&str]) -> Result<Vec<usize>, AllocError> {
    let mut numbers = Vec::new(alloc);
    for label in labels {
        numbers.push(number_of(label, list))?;
    }
    Ok(numbers)
}

fn number_of(label: &str, list: &[&str]) -> usize {
    for index in 0..list.len() {
        if list[index] == label {
            return index;
        }
    }
    list.len()
}

/// The number of the place of the sequence, whose labels are given by their numbers, if it has a place.
pub fn number_after(
    pattern: &mut CompiledPattern,
    labels: &[usize],
) -> Result<Option<PlaceNumber>, AllocError>
    ensures { IfOk result (λ place. IfSome place (λ n. n < length pattern.new.places)) }
{
    let mut place = first_number(pattern);
    for label in labels {
        let Some(next) = next_number(pattern, place, *label)? else {
            return Ok(None);
        };
        place = next;
    }
    Ok(Some(place))
}

/// The number of the first place.
fn first_number(pattern: &CompiledPattern) -> PlaceNumber
    ensures { result < length pattern.now.places }
{
    pattern.begin()
}

/// The number of the place after one more label, if there is one.
fn next_number(
    pattern: &mut CompiledPattern,
    place: PlaceNumber,
    label: usize,
) -> Result<Option<PlaceNumber>, AllocError>
    requires { place < length pattern.old.places }
    ensures { IfOk result (λ next. IfSome next (λ n. n < length pattern.new.places)) }
{
    if label >= pattern.label_count() {
        return Ok(None);
    }
    let next = pattern.step(place, label)?;
    Ok(next)
}

/// Whether the sequence may end at its place in the compiled pattern; none if it has no place.
pub fn compiled_end_after(
    pattern: &mut CompiledPattern,
    labels: &[usize],
) -> Result<Option<End>, AllocError> {
    match number_after(pattern, labels)? {
        Some(place) => Ok(Some(pattern.accepts(place))),
        None => Ok(None),
    }
}
