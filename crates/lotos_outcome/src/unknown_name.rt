//! The names in the words of a pattern that are no gates of a specification.
ghost use Rattle.std.specs.Prelude.{IfOk, OnOk, map, string_bytes};
ghost use Rattle.lotos_outcome.specs.UnknownGates.{NamesUnknownGate};
ghost use Rattle.lotos_outcome.specs.UnknownNames.{AddsFirst, AddsUnknown, BeginWithFirst};

use crate::unknown_gates::is_unknown_gate;
use indexmap::IndexSet;
use lotos_pattern::split_names;
use lotos_text::Name;
use std::alloc::{AllocError, Global};

/// A name in a word that is no gate of the specification.
#[derive(Debug, Drop)]
pub struct UnknownName<'a> {
    /// The number of the word, counted from 1.
    pub word: usize,
    /// The name as the word has it.
    pub name: &'a str,
    /// Whether the word has no other name.
    pub alone: bool,
}

/// The names in the words that are no gates, in the order of the words, each once, in whatever case it is first.
pub fn unknown_names<'a>(
    alloc: Global,
    words: &'a [String],
    gates: &[Name],
) -> Result<Vec<UnknownName<'a>>, AllocError>
    ensures { IfOk result (λ v. BeginWithFirst gates.now (map string_bytes words.now) v.items) }
{
    let mut unknown = Vec::new(alloc);
    let mut seen = IndexSet::new(alloc);
    for number in 0..words.len() {
        add_unknown(
            alloc,
            number + 1,
            words[number].as_str(),
            gates,
            &mut seen,
            &mut unknown,
        )?;
    }
    Ok(unknown)
}

/// Appends the names in a word that are no gates and that were not seen before.
fn add_unknown<'a>(
    alloc: Global,
    number: usize,
    word: &'a str,
    gates: &[Name],
    seen: &mut IndexSet<String>,
    unknown: &mut Vec<UnknownName<'a>>,
) -> Result<(), AllocError>
    ensures { OnOk result (AddsUnknown (NamesUnknownGate gates.now word.now) number unknown.old.items
        unknown.new.items) }
{
    let names = split_names(alloc, word)?;
    for name in &names {
        if is_unknown_gate(alloc, name, gates)? {
            let alone = name.len() == word.len();
            let one = UnknownName {
                word: number,
                name,
                alone,
            };
            add_name(alloc, one, seen, unknown)?;
        }
    }
    Ok(())
}

/// Appends the name, unless it was seen before.
fn add_name<'a>(
    alloc: Global,
    one: UnknownName<'a>,
    seen: &mut IndexSet<String>,
    unknown: &mut Vec<UnknownName<'a>>,
) -> Result<(), AllocError>
    ensures { OnOk result (AddsFirst one.entry.word unknown.old.items unknown.new.items) }
{
    let is_new = seen.insert(one.name.to_ascii_uppercase(alloc)?)?;
    if is_new || unknown.is_empty() {
        unknown.push(one)?;
    }
    Ok(())
}
