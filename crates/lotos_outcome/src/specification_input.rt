//! The input: the text is read and parsed, and its specification is checked, or the two that it has.
ghost use Rattle.std.specs.Prelude.{◌≡◌, ◌+◌, ◌≤◌, ◌⊎◌, IfOk, IfErr, IfSome, false, length};
ghost use Rattle.lotos_text.specs.Limits.{max_text_length};
ghost use Rattle.lotos_check.specs.AcceptedText.{Accepted, AcceptedPair, IsRejectedFor, IsRejectedForPair, accept_offset};
ghost use Rattle.lotos_check.specs.declared.accepted_text.AcceptFault.TheVariants.{Check};
ghost use Rattle.lotos_check.specs.CheckedView.{system_of};
ghost use Rattle.lotos_check.specs.FaultOffsets.{offset_of};
ghost use Rattle.lotos_outcome.specs.QuestionParts.{ReadsAccepted, ReadsAsked, ReadsAskedPair};
ghost use Rattle.lotos_outcome.specs.RefusalCauses.{IsAskedPairRefusal, IsAskedRefusal, IsInputRefusal, IsInterfaceRefusal, IsPairInterfaceRefusal, IsPairRefusal, IsPositionOf, IsTextRefusal, IsUnreadInput};
ghost use Rattle.lotos_device.specs.TextInput.{ReadsAll, TakesWithin};
ghost use Rattle.lotos_outcome.specs.Rejections.{AreAskedOf, IsAskedOf, IsRejectionBy, is_input_failure};

use crate::interface::{both_seen_through, seen_through};
use crate::output_progress::OutputProgress;
use crate::refusal::Refusal;
use crate::rejection::Rejection;
use lotos_check::{AcceptFault, AcceptedText, CheckFault, Checked, accept, accept_pair};
use lotos_command::Interface;
use lotos_device::{ReadFault, Source, read_text};
use lotos_text::{TEXT_LIMIT, TextFault, line_column};
use std::alloc::Global;

/// Reads a whole text and returns its specification if it is accepted. At most one byte more than a text may have is
/// taken from the reader, whatever it returns. The text is refused with E47 if the reader fails, with E03 if it is too
/// long, and otherwise with the fault of the parser or of the static check.
pub fn read_specification<R: Source>(alloc: Global, reader: &mut R) -> Result<Checked, Rejection>
    requires { (R.state reader.old).has_failed ≡ false }
    ensures accepted { IfOk result (λ system.
        ReadsAccepted (R.state reader.old).remaining (R.state reader.new).remaining (system_of system)) }
    ensures refused { IfErr result
        (IsRejectionBy (IsInputRefusal (R.state reader.old).remaining (R.state reader.new).remaining)) }
    ensures takes { TakesWithin (R.state reader.old) (R.state reader.new) (max_text_length + 1) }
    ensures failed { (R.state reader.new).has_failed ≡ is_input_failure result }
{
    let text = read_input(alloc, reader)?;
    let accepted_text = accept_text(alloc, text.as_slice())?;
    Ok(accepted_text.system)
}

/// Reads a whole text as [`read_specification`] does, and returns its specification with the gates hidden that the
/// interface leaves out. If the text is accepted, the interface is refused with E52 where it has a name that is no gate
/// of the specification's own list. The observer is told before the text is read, then of the text, and, if nothing is
/// refused, of the specification that is returned.
pub fn read_asked<R: Source, P: OutputProgress>(
    alloc: Global,
    interface: &Interface,
    reader: &mut R,
    progress: &mut P,
) -> Result<Checked, Rejection>
    requires { (R.state reader.old).has_failed ≡ false }
    ensures accepted { IfOk result (λ system.
        ReadsAsked interface.now (R.state reader.old).remaining (R.state reader.new).remaining
        (system_of system)) }
    ensures refused { IfErr result (IsRejectionBy (IsInterfaceRefusal interface.now
        (R.state reader.old).remaining (R.state reader.new).remaining)) }
    ensures takes { TakesWithin (R.state reader.old) (R.state reader.new) (max_text_length + 1) }
    ensures failed { (R.state reader.new).has_failed ≡ is_input_failure result }
{
    progress.before_text();
    let text = read_input(alloc, reader)?;
    match accept_asked(alloc, text.as_slice(), interface) {
        Ok(asked_text) => {
            progress.accepted(text.as_slice(), &asked_text);
            Ok(asked_text.system)
        }
        Err(rejection) => {
            progress.refused(text);
            Err(rejection)
        }
    }
}

/// Reads a whole text as [`read_specification`] does, but one of two specifications, and returns both with the gates
/// hidden that the interface leaves out. If the text is accepted, the interface is refused with E52 where it has a name
/// that is a gate of neither's own list. The observer is told before the text is read.
pub fn read_asked_pair<R: Source, P: OutputProgress>(
    alloc: Global,
    interface: &Interface,
    reader: &mut R,
    progress: &mut P,
) -> Result<(Checked, Checked), Rejection>
    requires { (R.state reader.old).has_failed ≡ false }
    ensures accepted { IfOk result (λ systems.
        ReadsAskedPair interface.now (R.state reader.old).remaining (R.state reader.new).remaining
        (system_of systems.0, system_of systems.1)) }
    ensures refused { IfErr result (IsRejectionBy (IsPairInterfaceRefusal interface.now
        (R.state reader.old).remaining (R.state reader.new).remaining)) }
    ensures takes { TakesWithin (R.state reader.old) (R.state reader.new) (max_text_length + 1) }
    ensures failed { (R.state reader.new).has_failed ≡ is_input_failure result }
{
    progress.before_text();
    let text = read_input(alloc, reader)?;
    accept_asked_pair(alloc, text.as_slice(), interface)
}

/// Reads a whole text. At most one byte more than a text may have is taken from the reader, whatever it returns. The
/// text is refused with E47 if the reader fails, and with E03 if it is too long.
pub fn read_input<R: Source>(alloc: Global, reader: &mut R) -> Result<Vec<u8>, Rejection>
    requires { (R.state reader.old).has_failed ≡ false }
    ensures whole { IfOk result (λ text.
        ReadsAll (R.state reader.old).remaining (R.state reader.new).remaining max_text_length text.items) }
    ensures refused { IfErr result
        (IsRejectionBy (IsUnreadInput (R.state reader.old).remaining (R.state reader.new).remaining)) }
    ensures takes { TakesWithin (R.state reader.old) (R.state reader.new) (max_text_length + 1) }
    ensures failed { (R.state reader.new).has_failed ≡ is_input_failure result }
{
    match read_text(alloc, reader, TEXT_LIMIT) {
        Ok(text) => Ok(text),
        Err(ReadFault::Device) => Err(Rejection::Refused(Refusal::E47)),
        Err(ReadFault::TooLong) => Err(Rejection::Refused(Refusal::Text {
            fault: TextFault::E03,
            place: None,
        })),
        Err(ReadFault::Memory) => Err(Rejection::Memory),
    }
}

/// Accepts a text; the rejection of one that is not accepted has the line and the column of its fault.
fn accept_text(alloc: Global, text: &[u8]) -> Result<AcceptedText, Rejection>
    requires { length text.now ≤ max_text_length }
    ensures accepted { IfOk result (λ accepted_text. Accepted text.now (system_of accepted_text.system)) }
    ensures refused { IfErr result (IsRejectionBy (IsTextRefusal text.now)) }
{
    match accept(alloc, text) {
        Ok(accepted_text) => Ok(accepted_text),
        Err(fault) => Err(reject(text, fault)),
    }
}

/// Accepts a text of two specifications, as [`accept_text`] one of a single specification.
fn accept_pair_text(alloc: Global, text: &[u8]) -> Result<(AcceptedText, AcceptedText), Rejection>
    requires { length text.now ≤ max_text_length }
    ensures accepted { IfOk result (λ both.
        AcceptedPair text.now (system_of both.0.system, system_of both.1.system)) }
    ensures refused { IfErr result (IsRejectionBy (IsPairRefusal text.now)) }
{
    match accept_pair(alloc, text) {
        Ok(both) => Ok(both),
        Err(fault) => Err(reject(text, fault)),
    }
}

/// Accepts a text of two specifications, and hides the gates of both that the interface leaves out.
fn accept_asked_pair(
    alloc: Global,
    text: &[u8],
    interface: &Interface,
) -> Result<(Checked, Checked), Rejection>
    requires { length text.now ≤ max_text_length }
    ensures accepted { IfOk result (λ systems.
        AreAskedOf interface.now text.now (system_of systems.0, system_of systems.1)) }
    ensures refused { IfErr result (IsRejectionBy (IsAskedPairRefusal interface.now text.now)) }
    ensures unread { is_input_failure result ≡ false }
{
    let (first, second) = accept_pair_text(alloc, text)?;
    both_seen_through(alloc, interface, first.system, second.system)
}

/// Accepts a text, and hides the gates of its specification that the interface leaves out.
fn accept_asked(
    alloc: Global,
    text: &[u8],
    interface: &Interface,
) -> Result<AcceptedText, Rejection>
    requires { length text.now ≤ max_text_length }
    ensures accepted { IfOk result (λ asked_text.
        IsAskedOf interface.now text.now (system_of asked_text.system)) }
    ensures refused { IfErr result (IsRejectionBy (IsAskedRefusal interface.now text.now)) }
    ensures unread { is_input_failure result ≡ false }
{
    let AcceptedText {
        specification,
        system: own,
    } = accept_text(alloc, text)?;
    let system = seen_through(alloc, interface, own)?;
    Ok(AcceptedText {
        specification,
        system,
    })
}

/// The rejection for a fault of a text, be it one of a specification or of two, at the fault's position if it has one.
pub fn reject(text: &[u8], fault: AcceptFault) -> Rejection
    requires fault { IsRejectedFor text.now fault ⊎ IsRejectedForPair text.now fault }
    requires inside { IfSome (accept_offset fault) (λ at. at ≤ length text.now) }
    ensures one { IsRejectedFor text.now fault → IsRejectionBy (IsTextRefusal text.now) result }
    ensures pair { IsRejectedForPair text.now fault → IsRejectionBy (IsPairRefusal text.now) result }
{
    let position = position_of(text, &fault);
    match fault {
        AcceptFault::Text(fault) => Rejection::Refused(Refusal::Text {
            fault,
            place: position,
        }),
        AcceptFault::Check(fault) => reject_check(text, fault, position),
        AcceptFault::Memory => Rejection::Memory,
    }
}

/// The rejection for a fault of the static check, which has a position.
fn reject_check(text: &[u8], fault: CheckFault, position: Option<(usize, usize)>) -> Rejection
    requires fault { IsRejectedFor text.now (Check fault) ⊎ IsRejectedForPair text.now (Check fault) }
    requires position { IsPositionOf text.now (offset_of fault) position }
    ensures one { IsRejectedFor text.now (Check fault) → IsRejectionBy (IsTextRefusal text.now) result }
    ensures pair { IsRejectedForPair text.now (Check fault) → IsRejectionBy (IsPairRefusal text.now) result }
{
    match position {
        Some((line, column)) => Rejection::Refused(Refusal::Check {
            fault,
            line,
            column,
        }),
        None => unreachable!(),
    }
}

/// The line and column of a fault, if it has an offset.
fn position_of(text: &[u8], fault: &AcceptFault) -> Option<(usize, usize)>
    requires { IfSome (accept_offset fault.now) (λ at. at ≤ length text.now) }
    ensures { IsPositionOf text.now (accept_offset fault.now) result }
{
    match fault.at() {
        Some(at) => Some(line_column(text, at)),
        None => None,
    }
}
