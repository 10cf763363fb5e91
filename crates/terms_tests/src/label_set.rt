//! Sets of labels by name.
use lotos_listing::LabelFlags;
use lotos_text::Name;
use std::alloc::{AllocError, Global};

/// The labels with these names, or all others. Termination is named `exit`, and the internal action `i`.
#[derive(Clone, Copy)]
pub struct LabelSet {
    pub names: &'static [&'static str],
    pub is_complement: bool,
}

impl LabelSet {
    /// Whether the set has the label with this name.
    pub fn contains(&self, name: &str) -> bool {
        is_named(self.names, name) != self.is_complement
    }

    /// The set as flags of the gates with these names.
    pub fn flags(&self, alloc: Global, gates: &[Name]) -> Result<LabelFlags, AllocError> {
        let flags = self.gate_flags(alloc, gates)?;
        Ok(LabelFlags {
            gates: flags,
            others: self.is_complement,
            exit: self.contains("exit"),
            internal: self.contains("i"),
        })
    }

    /// The flags of the gates up to the last one that is named.
    fn gate_flags(&self, alloc: Global, gates: &[Name]) -> Result<Vec<bool>, AllocError> {
        let count = self.count_to_last_named(gates);
        let mut flags = Vec::new(alloc);
        for (number, gate) in gates.iter().enumerate() {
            if number < count {
                flags.push(self.contains(gate.text()))?;
            }
        }
        Ok(flags)
    }

    /// The number of gates up to the last one that is named.
    fn count_to_last_named(&self, gates: &[Name]) -> usize {
        let mut count: usize = 0;
        for (number, gate) in gates.iter().enumerate() {
            if is_named(self.names, gate.text()) {
                count = number.saturating_add(1);
            }
        }
        count
    }
}

/// Whether the name is among these.
pub fn is_named(names: &[&str], name: &str) -> bool {
    for one in names {
        if *one == name {
            return true;
        }
    }
    false
}
