//! What explains a fault of a text. Errors of the error stream are ignored.

use lotos_check::parse_text;
use lotos_explain::{explain_check_fault, explain_text_fault};
use lotos_outcome::Refusal;
use lotos_text::Specification;
use std::alloc::Global;
use std::io::Write;

/// Explains a refusal, if there is one and a fault of the text is why. `specification` is what the text spells, if that is
/// known; otherwise the text is parsed once more, and if there is no memory for that nothing is said.
pub fn explain_fault<E: Write>(
    alloc: Global,
    text: &[u8],
    specification: Option<&Specification>,
    refusal: Option<&Refusal>,
    err: &mut E,
) {
    match refusal {
        Some(Refusal::Text { fault, .. }) => explain_text_fault(alloc, text, fault, err),
        Some(Refusal::Check { fault, .. }) => match specification {
            Some(specification) => explain_check_fault(alloc, text, specification, fault, err),
            None => {
                if let Ok(specification) = parse_text(alloc, text) {
                    explain_check_fault(alloc, text, &specification, fault, err);
                }
            }
        },
        _ => {}
    }
}
