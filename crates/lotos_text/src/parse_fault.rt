//! The fault of a parse error.
ghost use Rattle.std.specs.Prelude.{◌≡◌};
ghost use Rattle.lotos_text.specs.ConstructOpenings.{is_full_lotos, is_full_lotos_word};
ghost use Rattle.lotos_text.specs.ParserContracts.{fault_of_error};

use crate::fault::TextFault;
use crate::parse_primitives::ParseError;
use crate::token::{TokenKind, Word};

/// The fault of a parse error in a text of `length` bytes.
pub(crate) fn fault_of_error(error: ParseError<'_>, length: usize) -> TextFault
    ensures { result ≡ fault_of_error error.entry length }
{
    match error {
        ParseError::Unexpected([]) => TextFault::E06(length),
        ParseError::Unexpected([first, ..]) => {
            if is_full_lotos(first.kind) {
                TextFault::E07(first.at)
            } else {
                TextFault::E04(first.at)
            }
        }
        ParseError::TooDeep(token) => TextFault::E05(token.at),
        ParseError::Memory(error) => TextFault::E99(error),
    }
}

/// Whether a token of the kind is a keyword of full LOTOS that the profile does not use.
fn is_full_lotos(kind: TokenKind) -> bool
    ensures { result ≡ is_full_lotos kind }
{
    match kind {
        TokenKind::Reserved(word) => is_full_lotos_word(word),
        TokenKind::Identifier | TokenKind::Sign(_) => false,
    }
}

fn is_full_lotos_word(word: Word) -> bool
    ensures { result ≡ is_full_lotos_word word }
{
    matches!(
        word,
        Word::AcceptWord
            | Word::ChoiceWord
            | Word::LetWord
            | Word::ParWord
            | Word::LibraryWord
            | Word::TypeWord
    )
}
