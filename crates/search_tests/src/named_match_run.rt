//! First matches with what makes the internal steps of their runs.
use lotos_ever::laws::matches_end_as_demanded;
use lotos_ever::{EndedMatch, Halt, NamedRun, find_shortest_match_with_end, name_run};
use lotos_listing::NoProgress;
use lotos_normal::NormalTable;
use lotos_pattern::EverPattern;
use std::alloc::Global;
use std::test::Fail;

/// A first match, and what makes the internal steps of its run.
#[derive(Drop)]
pub struct NamedMatch {
    pub ended: EndedMatch,
    pub named: NamedRun,
}

/// The first match in a table; `None` if there is no match.
pub fn named_match(
    alloc: Global,
    table: &mut NormalTable,
    pattern: &EverPattern,
) -> Result<Option<NamedMatch>, Fail> {
    matches_end_as_demanded();
    table.recall_sound();
    match find_shortest_match_with_end(alloc, table, pattern, usize::MAX, &mut NoProgress) {
        Ok(Some(ended)) => {
            let named = name_run(alloc, table, pattern, ended.found.word.as_slice())?;
            Ok(Some(NamedMatch { ended, named }))
        }
        Ok(None) => Ok(None),
        Err(Halt::TooManyStates) => Err("too many states")?,
        Err(Halt::Memory) => Err("out of memory")?,
    }
}
