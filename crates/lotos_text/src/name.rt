//! Names of gates, processes and specifications.
ghost use Rattle.std.specs.Prelude.{◌≡◌, IfOk, Some, bytes_eq, map, refl};
ghost use Rattle.std.specs.Char.{to_ascii_uppercase};
ghost use Rattle.std.specs.Cmp.{partial_equiv_from_equiv};
ghost use Rattle.std.specs.Cmp.Lexicographic.{nat_list_cmp_total, nat_list_eq_equiv, slice_cmp, texts_po, texts_ties};
ghost use Rattle.std.specs.Ordering.{nat_cmp};
ghost use Rattle.lotos_text.specs.Names.{IsName};
ghost use Rattle.lotos_text.specs.Lexing.{IsWord};

use std::alloc::{AllocError, Global};
use std::cmp::Ordering;
use std::marker::Model;

/// An identifier in upper case: a letter `A` to `Z`, then letters `A` to `Z`, digits and underscores.
///
/// Case is not significant in a text (this project's profile), so all spellings of an identifier are one name. Names
/// are equal and ordered as the bytes of their texts, a proper prefix first. Contracts see a name as its bytes.
#[derive(Debug, Drop)]
pub struct Name {
    text: String,
}

impl Model for Name {
    ghost use Rattle.std.specs.Prelude.{List, ℕ, string_bytes};
    ghost use Rattle.std.specs.Coded.{coded_list, coded_ℕ};
    ghost use Rattle.lotos_text.specs.Names.{IsName};

    ghost Value = { List ℕ };

    ghost coded = { coded_list coded_ℕ };

    ghost view = { λ n. string_bytes n.text };

    ghost invariant = { λ n. IsName (string_bytes n.text) };
}

impl Name {
    /// The name that a word of a text spells.
    pub(crate) fn from_word(alloc: Global, word: &[u8]) -> Result<Name, AllocError>
        requires { IsWord word.now }
        ensures { IfOk result (λ n. n ≡ map to_ascii_uppercase word.now) }
    {
        match str::from_utf8(word) {
            Ok(text) => {
                let text = text.to_ascii_uppercase(alloc)?;
                Ok(Name { text })
            }
            Err(_) => unreachable!(),
        }
    }

    /// A copy of the name. Fails if an allocation fails.
    pub fn copy(&self, alloc: Global) -> Result<Name, AllocError>
        ensures { IfOk result (λ n. n ≡ self.now) }
    {
        let text = String::from_str(alloc, self.text.as_str())?;
        Ok(Name { text })
    }

    /// The identifier in upper case.
    pub fn text(&self) -> &str
        ensures bytes { result.now ≡ self.now }
        ensures identifier { IsName result.now }
    {
        self.text.as_str()
    }
}

impl PartialEq for Name {
    ghost eq = { bytes_eq };

    ghost laws = { partial_equiv_from_equiv nat_list_eq_equiv };

    fn eq(&self, other: &Name) -> bool {
        self.text() == other.text()
    }
}

impl Eq for Name {
    ghost laws = { nat_list_eq_equiv };
}

impl PartialOrd for Name {
    ghost partial_cmp = { λ left right. Some (slice_cmp nat_cmp left right) };

    ghost laws = { texts_po };

    fn partial_cmp(&self, other: &Name) -> Option<Ordering> {
        Some(self.cmp(other))
    }
}

impl Ord for Name {
    ghost cmp = { slice_cmp nat_cmp };

    ghost total = { nat_list_cmp_total };

    ghost matches_partial_cmp = { λ left right. refl };

    ghost matches_eq = { texts_ties };

    fn cmp(&self, other: &Name) -> Ordering {
        self.text().cmp(other.text())
    }
}
