//! The names of labels in a word.
ghost use Rattle.std.specs.Prelude.{◌≡◌, ◌↔◌, IfOk, IsTrue};
ghost use Rattle.lotos_pattern.specs.Spelling.{IsWord, is_word_byte as word_byte, parts_of, texts_of};

use std::alloc::{AllocError, Global};

/// The parts of a word between its commas: where it names labels, the name of each.
pub fn split_names(alloc: Global, word: &str) -> Result<Vec<&str>, AllocError>
    ensures { IfOk result (λ names. texts_of names.items ≡ parts_of word.now) }
{
    let mut names = Vec::new(alloc);
    for name in word.split(',') {
        names.push(name)?;
    }
    Ok(names)
}

/// Whether the bytes are an ASCII letter followed by ASCII letters, digits and underscores.
pub fn is_word(bytes: &[u8]) -> bool
    ensures { IsTrue result ↔ IsWord bytes.now }
{
    match bytes.split_first() {
        Some((first, rest)) => first.is_ascii_alphabetic() && rest.iter().all(|b| is_word_byte(*b)),
        None => false,
    }
}

fn is_word_byte(byte: u8) -> bool
    ensures { result ≡ word_byte byte }
{
    byte.is_ascii_alphanumeric() || byte == b'_'
}
