//! The most similar of several names.
ghost use Rattle.std.specs.Prelude.{◌≡◌, ◌∷◌, ◌≤◌, [], IfOk, IfSome, map, option_map, true};
ghost use Rattle.lotos_text.specs.AstOf.{definitions_view};
ghost use Rattle.lotos_check.specs.NameLists.{In, texts};
ghost use Rattle.lotos_check.specs.Scope.{declared_names};
ghost use Rattle.lotos_explain.specs.SimilarNames.{IsFrom, IsSimilar, edits};

use lotos_text::{Definition, Name, Placed};
use std::alloc::{AllocError, Global};
use strsim::levenshtein;

/// The most edits of one byte that lead from a name to a similar one. They are also fewer than its bytes.
const MOST_EDITS: usize = 2;

/// The most bytes of a name for which a similar one is looked for.
const LONGEST: usize = 64;

/// Of the names, one that is similar to this one: at most two edits of a byte lead to it, and fewer than this one has
/// bytes. It is the most similar one, of equally similar ones the first. None is returned for a name of more than 64
/// bytes.
///
/// # Errors
///
/// If an allocation fails.
pub fn similar_name<'a>(
    alloc: Global,
    name: &str,
    names: &'a [Name],
) -> Result<Option<&'a Name>, AllocError>
    ensures among { IfOk result (λ found. IfSome found (λ n. In n.now names.now)) }
    ensures similar { IfOk result (λ found. IfSome found (λ n. IsSimilar name.now n.now)) }
{
    let mut closest = None;
    for other in names {
        closest = more_similar(alloc, name, closest, other)?;
    }
    Ok(closest)
}

/// Of `best` and the gates, the one that is most similar to the name; of equally similar ones the first. All are similar
/// enough, `best` included.
pub(crate) fn similar_gate<'a>(
    alloc: Global,
    name: &str,
    best: Option<&'a Name>,
    gates: &'a [Placed],
) -> Result<Option<&'a Name>, AllocError>
    ensures { IfOk result (λ found. IfSome found
        (λ n. IsFrom (option_map (λ m. m.now) best.entry) (texts gates.now) n.now)) }
{
    let mut closest = best;
    for gate in gates {
        closest = more_similar(alloc, name, closest, &gate.name)?;
    }
    Ok(closest)
}

/// Of `best` and the names of the definitions, the one that is most similar to the name; of equally similar ones the
/// first. All are similar enough, `best` included.
pub(crate) fn similar_process<'a>(
    alloc: Global,
    name: &str,
    best: Option<&'a Name>,
    definitions: &'a [Definition],
) -> Result<Option<&'a Name>, AllocError>
    ensures { IfOk result (λ found. IfSome found
        (λ n. IsFrom (option_map (λ m. m.now) best.entry)
        (texts (declared_names (definitions_view definitions.now))) n.now)) }
{
    let mut closest = best;
    for definition in definitions {
        closest = more_similar(alloc, name, closest, &definition.name.name)?;
    }
    Ok(closest)
}

/// Of the words, one that is similar to the name, as a name is in [`similar_name`]. It is the most similar one, of equally
/// similar ones the first.
///
/// # Errors
///
/// If an allocation fails.
pub fn similar_word(
    alloc: Global,
    name: &str,
    words: &[&'static str],
) -> Result<Option<&'static str>, AllocError>
    ensures among { IfOk result (λ found. IfSome found (λ w. In w.now (map (λ v. v.now) words.now))) }
    ensures similar { IfOk result (λ found. IfSome found (λ w. IsSimilar name.now w.now)) }
{
    let mut closest = None;
    for word in words {
        closest = more_similar_word(alloc, name, closest, *word)?;
    }
    Ok(closest)
}

/// The word if it is similar to the name, and more than `best` if there is one; else `best`.
fn more_similar_word(
    alloc: Global,
    name: &str,
    best: Option<&'static str>,
    word: &'static str,
) -> Result<Option<&'static str>, AllocError>
    ensures from { IfOk result (λ found. IfSome found
        (λ w. IsFrom (option_map (λ v. v.now) best.entry) (word.now ∷ []) w.now)) }
    ensures similar { IfSome best.entry (λ w. IsSimilar name.now w.now) →
        IfOk result (λ found. IfSome found (λ w. IsSimilar name.now w.now)) }
{
    if is_more_similar(alloc, name, best, word)? {
        Ok(Some(word))
    } else {
        Ok(best)
    }
}

/// The other name if it is similar to the name, and more than `best` if there is one; else `best`.
fn more_similar<'a>(
    alloc: Global,
    name: &str,
    best: Option<&'a Name>,
    other: &'a Name,
) -> Result<Option<&'a Name>, AllocError>
    ensures from { IfOk result (λ found. IfSome found
        (λ n. IsFrom (option_map (λ m. m.now) best.entry) (other.now ∷ []) n.now)) }
    ensures similar { IfSome best.entry (λ n. IsSimilar name.now n.now) →
        IfOk result (λ found. IfSome found (λ n. IsSimilar name.now n.now)) }
{
    let closest = match best {
        Some(best) => Some(best.text()),
        None => None,
    };
    if is_more_similar(alloc, name, closest, other.text())? {
        Ok(Some(other))
    } else {
        Ok(best)
    }
}

/// Whether the other text is similar to the name, and more than `best` if there is one.
fn is_more_similar(
    alloc: Global,
    name: &str,
    best: Option<&str>,
    other: &str,
) -> Result<bool, AllocError>
    ensures { IfOk result (λ yes. yes ≡ true → IsSimilar name.now other.now) }
{
    let edits = edits_to(alloc, name, other)?;
    let most = (MOST_EDITS + 1).min(name.len());
    let bound = match best {
        Some(best) => edits_to(alloc, name, best)?.min(most),
        None => most,
    };
    Ok(edits < bound)
}

/// The number of edits of one byte that lead from one text to the other; the largest number if it is too large, or if
/// the first is too long.
fn edits_to(alloc: Global, name: &str, other: &str) -> Result<usize, AllocError>
    ensures { IfOk result (λ n. n ≤ 2 → n ≡ edits name.now other.now) }
{
    if name.len() > LONGEST || name.len().abs_diff(other.len()) > MOST_EDITS {
        return Ok(usize::MAX);
    }
    levenshtein(alloc, name, other)
}
