//! Single items of a listing, by `lotos_search`.
ghost use Rattle.std.specs.Prelude.{◌≤◌, IfErr, IfOk};
ghost use Rattle.lotos_search.specs.SearchSteps.{IsBegun};
ghost use Rattle.uses.specs.ResumedListings.{IsItemAfter, IsFirstItem, IsSecondItem, IsHaltOf, IsItemFault, IsSecondHalt};

use lotos_listing::{Found, Halt, Mark, MarkFault};
use lotos_pattern::Pattern;
use lotos_search::Search;
use lotos_terms::Table;
use std::alloc::{AllocError, Global};

/// Why no item was returned.
#[derive(Debug, Drop)]
pub enum ItemFault {
    /// The line is not one of a listing.
    Line,
    /// The search halted.
    Halt(Halt),
}

impl From<Halt> for ItemFault {
    ghost use Rattle.std.specs.Prelude.{◌≡◌};
    ghost use Rattle.uses.specs.declared.resumed_listing.ItemFault.TheVariants as fault;

    ghost from_gives = { λ halt given. given ≡ fault.Halt halt };

    fn from(halt: Halt) -> ItemFault {
        ItemFault::Halt(halt)
    }
}

/// The first item of the listing after a line, if there is one, with the search that returned it, which goes on after
/// the item. The line need not be in the listing.
///
/// # Errors
///
/// The line is not one of a listing; a prefix reaches more than `terms` terms; or an allocation fails.
pub fn item_after(
    alloc: Global,
    table: Box<Table>,
    pattern: Pattern,
    depth: u8,
    line: &str,
    terms: usize,
) -> Result<(Box<Search>, Option<Found>), ItemFault>
    requires { 1 ≤ terms }
    ensures found { IfOk result (λ r. IsItemAfter table.value pattern depth terms line.now (r.0.value, r.1)) }
    ensures stopped { IfErr result (IsItemFault table.value pattern depth terms line.now) }
{
    let mark = match Mark::read(alloc, line, pattern.strong()) {
        Ok(mark) => mark,
        Err(MarkFault::E46) => return Err(ItemFault::Line),
        Err(MarkFault::E99(_)) => return Err(ItemFault::Halt(Halt::Memory)),
    };
    Ok(first_item(alloc, table, pattern, depth, Some(mark), terms)?)
}

/// The second item of the whole listing, if there are two, with the search that returned it.
///
/// # Errors
///
/// A prefix reaches more than `terms` terms, or an allocation fails.
pub fn second_item(
    alloc: Global,
    table: Box<Table>,
    pattern: Pattern,
    depth: u8,
    terms: usize,
) -> Result<(Box<Search>, Option<Found>), Halt>
    requires { 1 ≤ terms }
    ensures found { IfOk result (λ r. IsSecondItem table.value pattern depth terms (r.0.value, r.1)) }
    ensures stopped { IfErr result (IsSecondHalt table.value pattern depth terms) }
{
    let (mut search, first) = first_item(alloc, table, pattern, depth, None, terms)?;
    match first {
        Some(_) => {
            let second = search.next()?;
            Ok((search, second))
        }
        None => Ok((search, None)),
    }
}

/// The first item after the mark, if one is given, with the search that returned it.
fn first_item(
    alloc: Global,
    table: Box<Table>,
    pattern: Pattern,
    depth: u8,
    mark: Option<Mark>,
    terms: usize,
) -> Result<(Box<Search>, Option<Found>), Halt>
    requires { 1 ≤ terms }
    ensures found { IfOk result (λ r. IsFirstItem table.value pattern depth terms mark (r.0.value, r.1)) }
    ensures stopped { IfErr result (IsHaltOf table.value pattern depth terms mark) }
{
    let mut search = begin(alloc, table, pattern, depth, mark, terms)?;
    let found = search.next()?;
    Ok((search, found))
}

/// A search that has not been asked for an item. It is in a box, as the table is, because each is large.
fn begin(
    alloc: Global,
    table: Box<Table>,
    pattern: Pattern,
    depth: u8,
    mark: Option<Mark>,
    terms: usize,
) -> Result<Box<Search>, AllocError>
    requires { 1 ≤ terms }
    ensures begun { IfOk result (λ s. IsBegun table.value pattern depth mark terms s.value) }
{
    let table = Box::into_inner(table);
    let search = Search::begin(alloc, table, pattern, depth, mark, terms)?;
    Ok(Box::new(alloc, search)?)
}
