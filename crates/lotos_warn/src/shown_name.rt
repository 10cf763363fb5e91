//! Names as warnings show them.
ghost use Rattle.std.specs.Prelude.{◌≡◌, ◌<◌, ◌++◌, IfOk, OnOk, length, string_bytes, take};
ghost use Rattle.lotos_warn.specs.ShownNames.{shown_name, shown_names, with_shown};

use lotos_text::Name;
use std::alloc::{AllocError, Global};
use std::fmt;
use std::marker::Model;

/// How many bytes of a name are shown.
const LONGEST: usize = 64;

/// A name as a warning shows it: of one with more than 64 bytes the first 64, and three dots. Contracts see it as its
/// bytes.
///
/// A warning for each gate of a definition has the definition's name, which may be as long as all the gates.
#[derive(Debug, Drop)]
pub struct ShownName {
    text: String,
}

impl Model for ShownName {
    ghost use Rattle.std.specs.Prelude.{List, ℕ, string_bytes};
    ghost use Rattle.std.specs.Coded.{coded_list, coded_ℕ};

    ghost Value = { List ℕ };

    ghost coded = { coded_list coded_ℕ };

    ghost view = { λ n. string_bytes n.text };
}

impl ShownName {
    /// A name as it is shown. Fails if an allocation fails.
    pub(crate) fn of(alloc: Global, name: &Name) -> Result<ShownName, AllocError>
        ensures { IfOk result (λ n. n ≡ shown_name name.now) }
    {
        let text = shown_text(alloc, name)?;
        Ok(ShownName { text })
    }

    /// What is shown.
    pub fn text(&self) -> &str
        ensures { result.now ≡ self.now }
    {
        self.text.as_str()
    }
}

/// Names as a warning shows them: each as [`ShownName`] shows one, with a comma and a blank between two. Contracts see
/// them as their bytes.
#[derive(Debug, Drop)]
pub struct ShownNames {
    text: String,
}

impl Model for ShownNames {
    ghost use Rattle.std.specs.Prelude.{List, ℕ, string_bytes};
    ghost use Rattle.std.specs.Coded.{coded_list, coded_ℕ};

    ghost Value = { List ℕ };

    ghost coded = { coded_list coded_ℕ };

    ghost view = { λ n. string_bytes n.text };
}

impl ShownNames {
    /// Names as they are shown. Fails if an allocation fails.
    pub(crate) fn of(alloc: Global, names: &[Name]) -> Result<ShownNames, AllocError>
        ensures { IfOk result (λ n. n ≡ shown_names names.now) }
    {
        let mut text = String::new(alloc);
        for index in 0..names.len() {
            push_shown(index, &names[index], &mut text)?;
        }
        Ok(ShownNames { text })
    }

    /// What is shown.
    pub fn text(&self) -> &str
        ensures { result.now ≡ self.now }
    {
        self.text.as_str()
    }
}

/// Appends a name as it is shown, and what separates it from the one before it, if it is not the first.
fn push_shown(index: usize, name: &Name, text: &mut String) -> Result<(), AllocError>
    ensures { OnOk result (string_bytes text.new ≡ with_shown index (string_bytes text.old) name.now) }
{
    if 0 < index {
        text.push_str(", ")?;
    }
    push_cut(name, text)
}

/// Appends a name as it is shown.
fn push_cut(name: &Name, text: &mut String) -> Result<(), AllocError>
    ensures { OnOk result (string_bytes text.new ≡ string_bytes text.old ++ shown_name name.now) }
{
    if name.text().len() <= LONGEST {
        text.push_str(name.text())
    } else {
        text.push_str(front(name))?;
        text.push_str("...")
    }
}

fn shown_text(alloc: Global, name: &Name) -> Result<String, AllocError>
    ensures { IfOk result (λ s. string_bytes s ≡ shown_name name.now) }
{
    if LONGEST < name.text().len() {
        let mut text = String::from_str(alloc, front(name))?;
        text.push_str("...")?;
        Ok(text)
    } else {
        String::from_str(alloc, name.text())
    }
}

/// The first bytes of a long name.
fn front(name: &Name) -> &str
    requires { 64 < length name.now }
    ensures { result.now ≡ take 64 name.now }
{
    &name.text()[..LONGEST]
}

/// Writes a name as it is shown.
#[derive(Drop)]
pub(crate) struct Shown<'a>(pub &'a Name);

impl fmt::Display for Shown<'_> {
    fn fmt<W: fmt::Write>(&self, f: &mut fmt::Formatter<W>) -> fmt::Result {
        if LONGEST < self.0.text().len() {
            f.write_str(front(self.0))?;
            f.write_str("...")
        } else {
            f.write_str(self.0.text())
        }
    }
}
