//! Tables of specifications that are accepted.
use lotos_check::{Checked, accept};
use lotos_normal::NormalTable;
use lotos_terms::Table;
use std::alloc::{AllocError, Global};
use std::test::Fail;

/// The parts as one text.
pub fn joined(alloc: Global, parts: &[&str]) -> Result<String, AllocError> {
    let mut out = String::new(alloc);
    for part in parts {
        out.push_str(part)?;
    }
    Ok(out)
}

/// The checked specification of a text.
pub fn checked(alloc: Global, text: &str) -> Result<Checked, Fail> {
    Ok(accept(alloc, text.as_bytes())?.system)
}

/// The table of a text.
pub fn table_of_text(alloc: Global, text: &str) -> Result<Box<Table>, Fail> {
    Ok(boxed_table(alloc, checked(alloc, text)?)?)
}

fn boxed_table(alloc: Global, checked: Checked) -> Result<Box<Table>, AllocError> {
    Ok(Box::new(alloc, Table::new(alloc, checked)?)?)
}

/// The normal table of a text.
pub fn normal_table_of_text(alloc: Global, text: &str) -> Result<Box<NormalTable>, Fail> {
    Ok(boxed_normal_table(alloc, checked(alloc, text)?)?)
}

fn boxed_normal_table(alloc: Global, checked: Checked) -> Result<Box<NormalTable>, AllocError> {
    Ok(Box::new(alloc, NormalTable::new(alloc, checked)?)?)
}
