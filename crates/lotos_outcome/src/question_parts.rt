//! The parts of a question that the words of a command give: the pattern, the mark, and that its gates are known.
ghost use Rattle.std.specs.Prelude.{◌≡◌, ◌≢◌, IfErr, IfOk, None, OnErr, OnOk, false, map, string_bytes, true};
ghost use Rattle.lotos_check.specs.CheckedView.{system_of};
ghost use Rattle.lotos_pattern.specs.EverPatterns.{kind_of_words};
ghost use Rattle.lotos_pattern.specs.Spelling.{PatternOf, texts_of};
ghost use Rattle.lotos_outcome.specs.QuestionParts.{IsMarkOf, IsSignedMarkOf, ever_words_of, without_sign, words_of};
ghost use Rattle.lotos_outcome.specs.RefusalCauses.{IsGateRefusal, IsMarkRefusal, IsPatternRefusal, IsSignedMarkRefusal};
ghost use Rattle.lotos_outcome.specs.Rejections.{IsRejectionBy, is_input_failure};
ghost use Rattle.lotos_outcome.specs.UnknownGates.{HasNoUnknownGate};

use crate::refusal::Refusal;
use crate::rejection::Rejection;
use crate::unknown_name::unknown_names;
use lotos_check::Checked;
use lotos_listing::Mark;
use lotos_pattern::{EverPattern, Pattern};
use std::alloc::{AllocError, Global};

/// The pattern that the words spell, which observes internal steps if `strong` is set. Words that spell none are
/// refused with the fault of [`Pattern::read`].
pub fn read_pattern(alloc: Global, words: &Vec<String>, strong: bool) -> Result<Pattern, Rejection>
    ensures pattern { IfOk result (PatternOf strong (words_of words.now)) }
    ensures rejected { IfErr result (IsRejectionBy (IsPatternRefusal strong (words_of words.now))) }
    ensures unread { is_input_failure result ≡ false }
{
    let texts = borrow_texts(alloc, words.as_slice())?;
    Ok(Pattern::read(alloc, texts.as_slice(), strong)?)
}

/// The pattern that the words of `ever` spell, which observes internal steps if `strong` is set. Words that spell none
/// are refused with the fault of [`EverPattern::read`].
pub fn read_ever_pattern(
    alloc: Global,
    words: &Vec<String>,
    strong: bool,
) -> Result<EverPattern, Rejection>
    ensures pattern { IfOk result (λ q. PatternOf strong (ever_words_of words.now) q.pattern) }
    ensures kind { IfOk result (λ q. q.kind ≡ kind_of_words (words_of words.now)) }
    ensures rejected { IfErr result (IsRejectionBy (IsPatternRefusal strong (ever_words_of words.now))) }
    ensures unread { is_input_failure result ≡ false }
{
    let texts = borrow_texts(alloc, words.as_slice())?;
    Ok(EverPattern::read(alloc, texts.as_slice(), strong)?)
}

/// The mark of the line, if one is given. A line that is not one of a listing is refused with E46.
pub fn read_mark(
    alloc: Global,
    line: &Option<String>,
    strong: bool,
) -> Result<Option<Mark>, Rejection>
    ensures mark { IfOk result (IsMarkOf strong line.now) }
    ensures given { OnErr result (line.now ≢ None) }
    ensures rejected { IfErr result (IsRejectionBy (IsMarkRefusal strong line.now)) }
    ensures unread { is_input_failure result ≡ false }
{
    match line {
        Some(line) => Ok(Some(Mark::read(alloc, line.as_str(), strong)?)),
        None => Ok(None),
    }
}

/// The mark of the line, which may begin with a sign, if one is given. A line that is not one of a suite is refused with
/// E46.
pub fn read_signed_mark(
    alloc: Global,
    line: &Option<String>,
    strong: bool,
) -> Result<Option<Mark>, Rejection>
    ensures mark { IfOk result (IsSignedMarkOf strong line.now) }
    ensures given { OnErr result (line.now ≢ None) }
    ensures rejected { IfErr result (IsRejectionBy (IsSignedMarkRefusal strong line.now)) }
    ensures unread { is_input_failure result ≡ false }
{
    let Some(line) = line else {
        return Ok(None);
    };
    let bare = without_sign(line.as_str());
    Ok(Some(Mark::read(alloc, bare, strong)?))
}

/// The line without its sign, `+` or `-` and a blank, if it begins with one.
fn without_sign(line: &str) -> &str
    ensures { result.now ≡ without_sign line.now }
{
    match line.strip_prefix("+ ") {
        Some(rest) => rest,
        None => line.strip_prefix("- ").unwrap_or(line),
    }
}

/// Refuses words of which one names no gate of the system that is asked, with E49 and the number of the first, if
/// `refuses` is set.
pub fn refuse_unknown_gates(
    alloc: Global,
    words: &Vec<String>,
    refuses: bool,
    system: &Checked,
) -> Result<(), Rejection>
    ensures known { OnOk result (refuses ≡ true →
        HasNoUnknownGate (system_of system.now).formals (words_of words.now)) }
    ensures asked { OnErr result (refuses ≡ true) }
    ensures rejected { IfErr result
        (IsRejectionBy (IsGateRefusal (system_of system.now).formals (words_of words.now))) }
    ensures unread { is_input_failure result ≡ false }
{
    if !refuses {
        return Ok(());
    }
    let names = unknown_names(alloc, words.as_slice(), system.gates())?;
    if names.is_empty() {
        return Ok(());
    }
    Err(Rejection::Refused(Refusal::E49(names[0].word)))
}

/// The words as borrowed texts.
pub fn borrow_texts<'a>(alloc: Global, words: &'a [String]) -> Result<Vec<&'a str>, AllocError>
    ensures { IfOk result (λ v. texts_of v.items ≡ map string_bytes words.now) }
{
    let mut texts = Vec::new(alloc);
    for word in words {
        texts.push(word.as_str())?;
    }
    Ok(texts)
}
