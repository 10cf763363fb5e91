//! Searches for a match begin with the start regrouped. Their answers do not show it; how many terms the table has
//! afterwards does.

use super::accepted_text::normal_table_of_text;
use lotos_ever::{find_shortest_match, find_shortest_match_with_end};
use lotos_listing::NoProgress;
use lotos_normal::NormalTable;
use lotos_pattern::{EverPattern, Pattern};
use std::alloc::Global;
use std::test::Fail;

/// A chain of eight operands, each of which has one step.
const CHAIN: &str =
    "specification S [a,b,c,d,e,f,g,h] : noexit behaviour a; stop ||| b; stop ||| c; stop ||| d; stop ||| e; stop ||| f; stop ||| g; stop ||| h; stop endspec";

/// What no derivation of the chain matches, so that a search goes through all its states.
const WORDS: &[&str] = &["<until>", "exit"];

/// Each operand has had its step, or has not.
const STATES: usize = 256;

/// The terms of the table after such a search, by hand: `stop` and the eight prefixes; the seven compositions of the
/// chain; the six of its halves that are not among them. Then what the steps lead to: of each of four pairs two
/// compositions, and one that all have; of each of two halves fourteen, and one that both have; of the whole 255. If the
/// search went through the chain as the text has it, there were 4, 8, 16 and so on up to 256 compositions of its last
/// two, three, four and so on up to eight operands, 508 in all, and 517 terms.
const TERMS: usize = 9 + 7 + 6 + (4 * 2 + 1) + (2 * 14 + 1) + 255;

/// The number of terms after a search for a match.
fn terms_after_search(alloc: Global) -> Result<usize, Fail> {
    let mut table = normal_table_of_text(alloc, CHAIN)?;
    search(alloc, &mut table)?;
    Ok(table.len())
}

fn search(alloc: Global, table: &mut NormalTable) -> Result<(), Fail> {
    let pattern = Pattern::read(alloc, WORDS, false)?;
    match find_shortest_match(alloc, table, &pattern, STATES) {
        Ok(None) => Ok(()),
        _ => Err("another answer than that there is no match")?,
    }
}

/// The number of terms after a search for a match whose end a pattern may demand something of.
fn terms_after_ended_search(alloc: Global) -> Result<usize, Fail> {
    let mut table = normal_table_of_text(alloc, CHAIN)?;
    search_ended(alloc, &mut table)?;
    Ok(table.len())
}

fn search_ended(alloc: Global, table: &mut NormalTable) -> Result<(), Fail> {
    let pattern = EverPattern::read(alloc, WORDS, false)?;
    match find_shortest_match_with_end(alloc, table, &pattern, STATES, &mut NoProgress) {
        Ok(None) => Ok(()),
        _ => Err("another answer than that there is no match")?,
    }
}

#[test]
fn begins_with_the_start_regrouped(rt: HostRuntime) -> Result<(), Fail> {
    assert_eq!(rt; terms_after_search(rt.alloc())?, TERMS);
    assert_eq!(rt; terms_after_ended_search(rt.alloc())?, TERMS);
    Ok(())
}
