//! What is said of a word that is almost an element. A hint for which there is no memory is left out.

use lotos_outcome::NumberText;
use std::alloc::{AllocError, Global};
use std::io::Write;
use strsim::levenshtein;

/// The words of elements that are not labels.
const ELEMENT_WORDS: [&str; 9] = [
    "<any>",
    "<not>",
    "<until>",
    "<while>",
    "<deadlock>",
    "<refuses>",
    "<livelock>",
    "<forever>",
    "<never>",
];

/// The most bytes of a word that may be almost an element.
const LONGEST: usize = 16;

/// The most bytes of a word that may lack a blank.
const LONGEST_JOINED: usize = 80;

/// Says which element a word may be meant as, or after which one it lacks a blank. The number is that of the word. A word
/// that is an element, or that is not printed as it is, gets no hint. Returns whether there was one.
pub(crate) fn write_element_hint<E: Write>(
    alloc: Global,
    number: usize,
    word: &str,
    err: &mut E,
) -> bool {
    if word.len() > LONGEST_JOINED || !word.as_bytes().iter().all(|byte| byte.is_ascii_graphic()) {
        return false;
    }
    let Ok(lower) = word.to_ascii_lowercase(alloc) else {
        return false;
    };
    let number = NumberText(number);
    for element in ELEMENT_WORDS {
        if lower.as_str() == element {
            return false;
        }
        if lower.as_str().starts_with(element) {
            let _ = writeln!(
                err,
                "lotosseq: word {number}, {word}, lacks a blank after {element}"
            );
            return true;
        }
    }
    if let Ok(Some(element)) = similar_element(alloc, lower.as_str()) {
        let _ = writeln!(
            err,
            "lotosseq: word {number}, {word}, may be meant as {element}"
        );
        return true;
    }
    false
}

/// The first element's word that this one, in lower case, almost is: between the signs, at most two bytes are wrong and
/// at most half of them; at most a quarter if the word has no sign, since it may be a name.
fn similar_element(alloc: Global, word: &str) -> Result<Option<&'static str>, AllocError> {
    if word.len() > LONGEST {
        return Ok(None);
    }
    let name = word.trim_matches(is_sign);
    for element in ELEMENT_WORDS {
        let meant = element.trim_matches(is_sign);
        let most = if name.len() < word.len() {
            (meant.len() / 2).min(2)
        } else {
            meant.len() / 4
        };
        if levenshtein(alloc, name, meant)? <= most {
            return Ok(Some(element));
        }
    }
    Ok(None)
}

fn is_sign(letter: char) -> bool {
    letter == '<' || letter == '>'
}
