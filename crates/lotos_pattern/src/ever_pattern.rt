//! Patterns whose demand on the end may be about what can come after it.
ghost use Rattle.std.specs.Prelude.{◌≡◌, ◌≢◌, IfErr, IfOk, MatchBool, map};
ghost use Rattle.lotos_pattern.specs.EverPatterns.{kind_of_word, kind_of_words, word_for_refusal};
ghost use Rattle.lotos_pattern.specs.PatternFaults.{IsCause, SpellsNone};
ghost use Rattle.lotos_pattern.specs.Spelling.{PatternOf, texts_of};
ghost use Rattle.lotos_pattern.specs.declared.ever_pattern.EndKind.TheVariants as kinds;

use crate::fault::PatternFault;
use crate::pattern::Pattern;
use std::alloc::{AllocError, Global};

/// What a demand on the end says of the set of labels in it.
#[derive(Clone, Copy, Debug, PartialEq, Eq)]
pub enum EndKind {
    /// The end refuses the set: it has no internal step, and none with a label of the set.
    Refuses,
    /// Internal steps that never end begin at the end. The set does not matter.
    Livelock,
    /// Steps that never end begin at the end, each internal or with a label of the set.
    Forever,
    /// No steps, however many, begin at the end with a label of the set among them.
    Never,
}

/// A pattern, and what its demand on the end says, if it has one.
#[derive(Debug, Drop)]
pub struct EverPattern {
    /// The pattern. Its refusal is the set of labels in the demand.
    pub pattern: Pattern,
    /// What the demand says.
    pub kind: EndKind,
}

impl EverPattern {
    /// The pattern that the words spell, where `<livelock>` may stand in the place of `<deadlock>`, and `<forever>` and
    /// `<never>` in that of `<refuses>`; otherwise as [`Pattern::read`].
    ///
    /// # Errors
    ///
    /// Those of [`Pattern::read`], but for E51.
    pub fn read(alloc: Global, words: &[&str], strong: bool) -> Result<EverPattern, PatternFault>
        ensures pattern { IfOk result (λ q.
            PatternOf strong (map word_for_refusal (texts_of words.now)) q.pattern) }
        ensures kind { IfOk result (λ q. q.kind ≡ kind_of_words (texts_of words.now)) }
        ensures cause { IfErr result (IsCause strong (map word_for_refusal (texts_of words.now))) }
        ensures nothing { IfErr result (SpellsNone strong (map word_for_refusal (texts_of words.now))) }
    {
        let kind = kind_of_words(words);
        let for_refusal = words_for_refusal(alloc, words)?;
        let pattern = Pattern::read(alloc, for_refusal.as_slice(), strong)?;
        Ok(EverPattern { pattern, kind })
    }
}

/// What the first word that demands something of what can come after the end says; that a set is refused if there is
/// none.
fn kind_of_words(words: &[&str]) -> EndKind
    ensures { result ≡ kind_of_words (texts_of words.now) }
{
    for word in words {
        let kind = kind_of_word(word);
        if is_of_future(kind) {
            return kind;
        }
    }
    EndKind::Refuses
}

/// Whether this is said of what can come after the end.
fn is_of_future(kind: EndKind) -> bool
    ensures { MatchBool result (kind ≢ kinds.Refuses) (kind ≡ kinds.Refuses) }
{
    match kind {
        EndKind::Refuses => false,
        EndKind::Livelock => true,
        EndKind::Forever => true,
        EndKind::Never => true,
    }
}

/// What the word demands of what can come after the end; that a set is refused if it demands nothing of that.
fn kind_of_word(word: &str) -> EndKind
    ensures { result ≡ kind_of_word word.now }
{
    if word.eq_ignore_ascii_case("<livelock>") {
        EndKind::Livelock
    } else if word.eq_ignore_ascii_case("<forever>") {
        EndKind::Forever
    } else if word.eq_ignore_ascii_case("<never>") {
        EndKind::Never
    } else {
        EndKind::Refuses
    }
}

/// The words that stand in the place of these where the end must refuse a set.
fn words_for_refusal<'a>(alloc: Global, words: &[&'a str]) -> Result<Vec<&'a str>, AllocError>
    ensures { IfOk result (λ v. texts_of v.items ≡ map word_for_refusal (texts_of words.now)) }
{
    let mut for_refusal = Vec::new(alloc);
    for word in words {
        for_refusal.push(word_for_refusal(word))?;
    }
    Ok(for_refusal)
}

/// The word that stands in the place of this one where the end must refuse a set.
fn word_for_refusal(word: &str) -> &str
    ensures { result.now ≡ word_for_refusal word.now }
{
    match kind_of_word(word) {
        EndKind::Refuses => word,
        EndKind::Livelock => "<deadlock>",
        EndKind::Forever => "<refuses>",
        EndKind::Never => "<refuses>",
    }
}
