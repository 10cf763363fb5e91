//! The help of the program and of each command. Made of share/help.txt by tools/help-texts.

pub(crate) mod after;
pub(crate) mod check;
pub(crate) mod compare;
pub(crate) mod cover;
pub(crate) mod ever;
pub(crate) mod graph;
pub(crate) mod program;
pub(crate) mod search;
pub(crate) mod suite;
