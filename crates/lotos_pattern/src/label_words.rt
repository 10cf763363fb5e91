//! Words that each name a label.
ghost use Rattle.std.specs.Prelude.{◌≡◌, IfErr, List, MatchBool, OnOk, false, map, string_bytes};
ghost use Rattle.lotos_pattern.specs.PatternLabels.{Label, internal};
ghost use Rattle.lotos_pattern.specs.Spelling.{EqualsIgnoringCase, NamesEach};
ghost use Rattle.lotos_pattern.specs.LabelWords.{IsWordCause};

use crate::label_names::is_word;

/// Why words do not each name a label that can be observed. The number is that of the first word that does not, counted
/// from 1.
#[derive(Clone, Copy, Debug, PartialEq, Eq)]
pub enum WordFault {
    /// The word names no label.
    NoLabel(usize),
    /// The word is `i`, and internal steps are not observed.
    Internal(usize),
}

/// Looks at words of which each is to name one label, in any mix of cases. If internal steps are observed (`strong`),
/// the internal action is a label like others. Nothing is allocated.
///
/// # Errors
///
/// The fault of the first word that names no label, or none that can be observed.
pub fn check_label_words(words: &[String], strong: bool) -> Result<(), WordFault>
    ensures named { OnOk result ((s : List Label) × NamesEach strong (map string_bytes words.now) s) }
    ensures cause { IfErr result (IsWordCause strong (map string_bytes words.now)) }
    ensures nothing { IfErr result (λ _. (s : List Label) →
        NamesEach strong (map string_bytes words.now) s → ⊥) }
{
    for index in 0..words.len() {
        let word = words[index].as_str();
        if !is_word(word.as_bytes()) {
            return Err(WordFault::NoLabel(index + 1));
        }
        if is_unobserved_internal(word, strong) {
            return Err(WordFault::Internal(index + 1));
        }
    }
    Ok(())
}

/// Whether the word is `i`, and internal steps are not observed.
fn is_unobserved_internal(word: &str, strong: bool) -> bool
    ensures { MatchBool result ((strong ≡ false) × EqualsIgnoringCase word.now internal)
        (strong ≡ false → EqualsIgnoringCase word.now internal → ⊥) }
{
    !strong && word.eq_ignore_ascii_case("i")
}
