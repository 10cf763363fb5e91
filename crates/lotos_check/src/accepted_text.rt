//! The way from a text to a checked specification.
ghost use Rattle.std.specs.Prelude.{◌≡◌, ◌≤◌, IfErr, IfOk, IfSome, length};
ghost use Rattle.lotos_text.specs.AstOf.{definition_view, specifications_view};
ghost use Rattle.lotos_text.specs.Spelled.{Spelled, SpelledPair};
ghost use Rattle.lotos_check.specs.AcceptedText.{Accepted, AcceptedPair, AreAccepted, ArePairParsed, IsParsed, IsRejectedFor};
ghost use Rattle.lotos_check.specs.AcceptedText.{IsRejectedForPair, accept_offset, for_check_fault, for_text_fault};
ghost use Rattle.lotos_check.specs.AcceptedText.{is_memory_fault};
ghost use Rattle.lotos_check.specs.Acceptance.{AreRanks, IsAccepted};
ghost use Rattle.lotos_check.specs.CheckedView.{ranks_of, system_of};

use crate::checked::Checked;
use crate::fault::CheckFault;
use crate::static_check::check;
use lotos_text::{Specification, TextFault, parse, parse_pair};
use std::alloc::Global;
use thiserror::Error;

/// A text that is accepted.
#[derive(Debug, Drop)]
pub struct AcceptedText {
    /// The AST of the specification that it spells.
    pub specification: Specification,
    /// The checked specification.
    pub system: Checked,
}

/// Why a text is not accepted.
#[derive(Debug, Drop, Error)]
pub enum AcceptFault {
    /// The text spells no specification. The fault is never E99.
    #[error(transparent)]
    Text(TextFault),
    /// The text spells a specification that breaks a static rule. The fault is never E99.
    #[error(transparent)]
    Check(CheckFault),
    /// Out of memory.
    #[error("E99 out of memory")]
    Memory,
}

impl AcceptFault {
    /// The offset of the fault, in bytes from the start of the text; `None` for a text that is too long, and out of
    /// memory.
    pub fn at(&self) -> Option<usize>
        ensures { result ≡ accept_offset self.now }
    {
        match self {
            AcceptFault::Text(fault) => fault.at(),
            AcceptFault::Check(fault) => fault.at(),
            AcceptFault::Memory => None,
        }
    }
}

/// Parses a text and checks the specification that it spells.
///
/// # Errors
///
/// The fault of [`parse`], else that of [`check`]; [`AcceptFault::Memory`] if an allocation fails.
pub fn accept(alloc: Global, text: &[u8]) -> Result<AcceptedText, AcceptFault>
    ensures spelled { IfOk result (λ found. Spelled text.now (definition_view found.specification.whole)) }
    ensures checked { IfOk result (λ found.
        IsAccepted (definition_view found.specification.whole) (system_of found.system)) }
    ensures accepted { IfOk result (λ found. Accepted text.now (system_of found.system)) }
    ensures ranks { IfOk result (λ found.
        AreRanks (system_of found.system).processes (ranks_of found.system)) }
    ensures rejected { IfErr result (IsRejectedFor text.now) }
    ensures inside { IfErr result (λ fault. IfSome (accept_offset fault) (λ at. at ≤ length text.now)) }
{
    let specification = parse_text(alloc, text)?;
    let system = check_parsed(alloc, text, &specification)?;
    Ok(AcceptedText {
        specification,
        system,
    })
}

/// The AST of the specification that a text spells. This is the first half of [`accept`].
///
/// # Errors
///
/// The fault of [`parse`]; [`AcceptFault::Memory`] if an allocation fails.
pub fn parse_text(alloc: Global, text: &[u8]) -> Result<Specification, AcceptFault>
    ensures parsed { IfOk result (λ found. IsParsed text.now (definition_view found.whole)) }
    ensures rejected { IfErr result (IsRejectedFor text.now) }
    ensures inside { IfErr result (λ fault. IfSome (accept_offset fault) (λ at. at ≤ length text.now)) }
{
    match parse(alloc, text) {
        Ok(specification) => Ok(specification),
        Err(fault) => Err(text_rejection(fault)),
    }
}

/// Checks the specification that a text spells, which is what [`parse_text`] returns for it. This is the second half of
/// [`accept`]; who calls it still has the AST of a specification that breaks a static rule.
///
/// # Errors
///
/// The fault of [`check`]; [`AcceptFault::Memory`] if an allocation fails.
pub fn check_parsed(
    alloc: Global,
    text: &[u8],
    specification: &Specification,
) -> Result<Checked, AcceptFault>
    requires { IsParsed text.now (definition_view specification.now.whole) }
    ensures checked { IfOk result (λ system.
        IsAccepted (definition_view specification.now.whole) (system_of system)) }
    ensures ranks { IfOk result (λ system. AreRanks (system_of system).processes (ranks_of system)) }
    ensures rejected { IfErr result (IsRejectedFor text.now) }
    ensures inside { IfErr result (λ fault. IfSome (accept_offset fault) (λ at. at ≤ length text.now)) }
{
    match check(alloc, specification) {
        Ok(system) => Ok(system),
        Err(fault) => Err(check_rejection(fault)),
    }
}

/// Parses a text and checks the two specifications that it spells, one after the other: first the first.
///
/// # Errors
///
/// The fault of [`parse_pair`], else that of [`check`] for the first specification, else for the second one;
/// [`AcceptFault::Memory`] if an allocation fails.
pub fn accept_pair(alloc: Global, text: &[u8]) -> Result<(AcceptedText, AcceptedText), AcceptFault>
    ensures spelled { IfOk result (λ found.
        SpelledPair text.now (specifications_view (found.0.specification, found.1.specification))) }
    ensures checked { IfOk result (λ found.
        AreAccepted (specifications_view (found.0.specification, found.1.specification))
        (system_of found.0.system, system_of found.1.system)) }
    ensures accepted { IfOk result (λ found.
        AcceptedPair text.now (system_of found.0.system, system_of found.1.system)) }
    ensures first_ranks { IfOk result (λ found.
        AreRanks (system_of found.0.system).processes (ranks_of found.0.system)) }
    ensures second_ranks { IfOk result (λ found.
        AreRanks (system_of found.1.system).processes (ranks_of found.1.system)) }
    ensures rejected { IfErr result (IsRejectedForPair text.now) }
    ensures inside { IfErr result (λ fault. IfSome (accept_offset fault) (λ at. at ≤ length text.now)) }
{
    let (first, second) = parse_pair_text(alloc, text)?;
    let first_system = match check(alloc, &first) {
        Ok(system) => system,
        Err(fault) => return Err(check_rejection(fault)),
    };
    let second_system = match check(alloc, &second) {
        Ok(system) => system,
        Err(fault) => return Err(check_rejection(fault)),
    };
    Ok((
        AcceptedText {
            specification: first,
            system: first_system,
        },
        AcceptedText {
            specification: second,
            system: second_system,
        },
    ))
}

/// The ASTs of the two specifications that a text spells.
fn parse_pair_text(
    alloc: Global,
    text: &[u8],
) -> Result<(Specification, Specification), AcceptFault>
    ensures parsed { IfOk result (λ found. ArePairParsed text.now (specifications_view found)) }
    ensures rejected { IfErr result (IsRejectedForPair text.now) }
    ensures inside { IfErr result (λ fault. IfSome (accept_offset fault) (λ at. at ≤ length text.now)) }
{
    match parse_pair(alloc, text) {
        Ok(specifications) => Ok(specifications),
        Err(fault) => Err(text_rejection(fault)),
    }
}

/// The fault of a text, for a fault of its parse.
fn text_rejection(fault: TextFault) -> AcceptFault
    ensures { result ≡ for_text_fault fault }
{
    if is_memory_fault(&fault) {
        return AcceptFault::Memory;
    }
    AcceptFault::Text(fault)
}

fn is_memory_fault(fault: &TextFault) -> bool
    ensures { result ≡ is_memory_fault fault.now }
{
    matches!(fault, TextFault::E99(_))
}

/// The fault of a text, for a fault of its static check.
fn check_rejection(fault: CheckFault) -> AcceptFault
    ensures { result ≡ for_check_fault fault }
{
    if fault.at().is_none() {
        return AcceptFault::Memory;
    }
    AcceptFault::Check(fault)
}
