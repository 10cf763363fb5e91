//! Sequences and processes as text.
ghost use Rattle.std.specs.Prelude.{◌≡◌, ◌≤◌, ◌∷◌, [], ◌++◌, IfOk, IfSome, IsUtf8, List, OnOk, drop, flat_map, length, map, string_bytes, take, true};
ghost use Rattle.lotos_check.specs.CheckedView.{process_of};
ghost use Rattle.lotos_listing.specs.Order.{Label as Text};
ghost use Rattle.lotos_listing.specs.Question.{ArePrinted};
ghost use Rattle.lotos_store.specs.declared.label.Label.{Label as TermLabel};
ghost use Rattle.lotos_output.specs.OutputLines.{HasText, IsLabelOfBoth, IsLeft, IsTextOf, functionality_text, next_lines};
ghost use Rattle.lotos_output.specs.OutputLines.{marked_line, process_line, round_text, row_text, run_text, sequence_text};

use itoa::Buffer;
use lotos_check::Process;
use lotos_terms::{Label, label_text};
use lotos_text::{Functionality, Name};
use std::alloc::{AllocError, Global};

/// The most bytes of a text that is copied byte by byte.
const SHORT_TEXT: usize = 8;

/// A sequence as text: its printed labels, separated by one blank each, or `<empty>`. The gates have these names.
pub fn format_sequence(
    alloc: Global,
    gates: &[Name],
    labels: &[Label],
) -> Result<String, AllocError>
    requires { (s : List Text) × ArePrinted gates.now labels.now s }
    ensures { IfOk result (λ text. (s : List Text) → ArePrinted gates.now labels.now s →
        string_bytes text ≡ sequence_text s) }
{
    let Some((first, rest)) = labels.split_first() else {
        return String::from_str(alloc, "<empty>");
    };
    let shown = label_text(gates, *first);
    // Enough for the text and a line feed if no label is longer than the first, nor than what is short.
    let each = shown.len().min(SHORT_TEXT) + 1;
    let capacity = rest
        .len()
        .saturating_mul(each)
        .saturating_add(shown.len() + 1);
    let mut bytes = Vec::with_capacity(alloc, capacity)?;
    append_text(&mut bytes, shown)?;
    append_labels(gates, rest, bytes)
}

/// As [`format_sequence`], for a sequence that may begin as another one, whose labels (`known`) and text are given: what
/// both begin with is copied. Without labels the text may be any.
pub fn format_sequence_after(
    alloc: Global,
    gates: &[Name],
    known: &[Label],
    text: &str,
    labels: &[Label],
) -> Result<String, AllocError>
    requires printed { (s : List Text) × ArePrinted gates.now labels.now s }
    requires known { HasText gates.now known.now text.now }
    ensures { IfOk result (λ text. (s : List Text) → ArePrinted gates.now labels.now s →
        string_bytes text ≡ sequence_text s) }
{
    let Some(first) = label_of_both(known, labels, 0) else {
        return format_sequence(alloc, gates, labels);
    };
    let (count, end) = part_of_both(gates, first, known, labels, text);
    let begun = &text.as_bytes()[..end];
    let left = labels.len() - count;
    // Enough for the text and a line feed if no label is longer than what is short, or the text is no longer than the
    // one that is known.
    let capacity = left.saturating_mul(SHORT_TEXT + 1).saturating_add(end);
    let mut bytes = Vec::with_capacity(alloc, capacity.max(text.len()).saturating_add(1))?;
    bytes.extend_from_slice(begun)?;
    append_labels(gates, &labels[count..], bytes)
}

/// The label of both lists at this index, if it is the same.
fn label_of_both(known: &[Label], labels: &[Label], index: usize) -> Option<Label>
    ensures { IfSome result (IsLabelOfBoth known.now labels.now index) }
{
    equal_labels();
    let label = labels.get(index)?;
    let other = known.get(index)?;
    if *label == *other { Some(*label) } else { None }
}

/// The number of labels that both lists begin with, the first of which is given, and the length of their text.
fn part_of_both(
    gates: &[Name],
    first: Label,
    known: &[Label],
    labels: &[Label],
    text: &str,
) -> (usize, usize)
    requires first { IsLabelOfBoth known.now labels.now 0 first }
    requires printed { (s : List Text) × ArePrinted gates.now labels.now s }
    requires known { HasText gates.now known.now text.now }
    ensures count { result.0 ≤ length labels.now }
    ensures end { result.1 ≤ length text.now }
    ensures utf8 { IsUtf8 (take result.1 text.now) }
    ensures left { (s : List Text) → ArePrinted gates.now labels.now s →
        IsLeft gates.now (drop result.0 labels.now) (take result.1 text.now) (sequence_text s) }
{
    let mut end = label_text(gates, first).len();
    let mut count = 1;
    while let Some(label) = label_of_both(known, labels, count) {
        end += 1 + label_text(gates, label).len();
        count += 1;
    }
    (count, end)
}

/// Appends a blank and the text of each label, and returns all as text.
fn append_labels(gates: &[Name], labels: &[Label], mut bytes: Vec<u8>) -> Result<String, AllocError>
    requires utf8 { IsUtf8 bytes.items }
    requires printed { (s : List Text) × ArePrinted gates.now labels.now s }
    ensures { IfOk result (λ text. (s : List Text) → ArePrinted gates.now labels.now s →
        string_bytes text ≡ bytes.items ++ flat_map (λ m. 32 ∷ m) s) }
{
    for label in labels {
        bytes.push(b' ')?;
        append_text(&mut bytes, label_text(gates, *label))?;
    }
    Ok(String::from_utf8(bytes).unwrap())
}

/// Labels that compare as equal are the same label.
fn equal_labels()
    ensures same { (k j : TermLabel) → ⟦<Label as PartialEq>⟧.eq k j ≡ true → k ≡ j }
{}

/// Appends a label's text. A short one is copied byte by byte: that takes less time than a call for the whole.
pub(crate) fn append_text(bytes: &mut Vec<u8>, text: &str) -> Result<(), AllocError>
    ensures { OnOk result (bytes.new.items ≡ bytes.old.items ++ text.now) }
{
    if SHORT_TEXT < text.len() {
        return bytes.extend_from_slice(text.as_bytes());
    }
    for byte in text.as_bytes() {
        bytes.push(*byte)?;
    }
    Ok(())
}

/// Appends ` : ` and the run. The gates have these names.
pub fn append_run(
    alloc: Global,
    gates: &[Name],
    run: &[Label],
    line: &mut String,
) -> Result<(), AllocError>
    requires { (w : List Text) × ArePrinted gates.now run.now w }
    ensures { OnOk result ((w : List Text) → ArePrinted gates.now run.now w →
        string_bytes line.new ≡ string_bytes line.old ++ run_text true w) }
{
    let text = format_sequence(alloc, gates, run)?;
    line.push_str(" : ")?;
    line.push_str(text.as_str())
}

/// Appends steps that go round: ` <forever> `, the labels of a row and a blank, if there are any, and in brackets those
/// of a loop. The gates have these names.
pub fn append_round(
    alloc: Global,
    gates: &[Name],
    row: &[Label],
    turn: &[Label],
    line: &mut String,
) -> Result<(), AllocError>
    requires row { (r : List Text) × ArePrinted gates.now row.now r }
    requires turn { (s : List Text) × ArePrinted gates.now turn.now s }
    ensures { OnOk result ((r s : List Text) →
        ArePrinted gates.now row.now r → ArePrinted gates.now turn.now s →
        string_bytes line.new ≡ string_bytes line.old ++ round_text r s) }
{
    line.push_str(" <forever> ")?;
    append_row(alloc, gates, row, line)?;
    let text = format_sequence(alloc, gates, turn)?;
    line.push_str("[")?;
    line.push_str(text.as_str())?;
    line.push_str("]")?;
    Ok(())
}

/// Appends the labels of a row and a blank, if there are any labels.
fn append_row(
    alloc: Global,
    gates: &[Name],
    row: &[Label],
    line: &mut String,
) -> Result<(), AllocError>
    requires { (r : List Text) × ArePrinted gates.now row.now r }
    ensures { OnOk result ((r : List Text) → ArePrinted gates.now row.now r →
        string_bytes line.new ≡ string_bytes line.old ++ row_text r) }
{
    match format_labels(alloc, gates, row)? {
        None => Ok(()),
        Some(text) => {
            line.push_str(text.as_str())?;
            line.push_str(" ")
        }
    }
}

/// The line of a sequence with a label after it, whose text is given: the mark, the labels, separated by one blank each,
/// and a line feed. The gates have these names.
pub fn format_marked_line(
    alloc: Global,
    mark: &str,
    gates: &[Name],
    sequence: &[Label],
    last: &str,
) -> Result<Vec<u8>, AllocError>
    requires { (s : List Text) × ArePrinted gates.now sequence.now s }
    ensures { IfOk result (λ line. (s : List Text) → ArePrinted gates.now sequence.now s →
        line.items ≡ marked_line mark.now (s ++ last.now ∷ [])) }
{
    let mut line = String::from_str(alloc, mark)?;
    append_row(alloc, gates, sequence, &mut line)?;
    line.push_str(last)?;
    line.push('\n')?;
    Ok(line.into_bytes())
}

/// A sequence of which something is said by the mark before it: the mark, and the sequence as text. The gates have these
/// names.
pub fn format_marked(
    alloc: Global,
    mark: &str,
    gates: &[Name],
    sequence: &[Label],
) -> Result<String, AllocError>
    requires { (s : List Text) × ArePrinted gates.now sequence.now s }
    ensures { IfOk result (λ text. (s : List Text) → ArePrinted gates.now sequence.now s →
        string_bytes text ≡ mark.now ++ sequence_text s) }
{
    let text = format_sequence(alloc, gates, sequence)?;
    let mut line = String::from_str(alloc, mark)?;
    line.push_str(text.as_str())?;
    Ok(line)
}

/// The lines of what can come after a sequence: these labels, and then `<deadlock>` if it can end in one (`dead`). The
/// gates have these names.
pub fn format_next(
    alloc: Global,
    gates: &[Name],
    labels: &[Label],
    dead: bool,
) -> Result<Vec<u8>, AllocError>
    requires { (next : List Text) × ArePrinted gates.now labels.now next }
    ensures { IfOk result (λ lines. (next : List Text) → ArePrinted gates.now labels.now next →
        lines.items ≡ next_lines next dead) }
{
    let mut lines = Vec::new(alloc);
    for label in labels {
        append_text(&mut lines, label_text(gates, *label))?;
        lines.push(b'\n')?;
    }
    if dead {
        lines.extend_from_slice(b"<deadlock>\n")?;
    }
    Ok(lines)
}

/// The labels as text, as that of a sequence; `None` if there are none. The gates have these names.
pub fn format_labels(
    alloc: Global,
    gates: &[Name],
    labels: &[Label],
) -> Result<Option<String>, AllocError>
    requires { (next : List Text) × ArePrinted gates.now labels.now next }
    ensures { IfOk result (λ text. (next : List Text) → ArePrinted gates.now labels.now next →
        IsTextOf next text) }
{
    if labels.is_empty() {
        return Ok(None);
    }
    Ok(Some(format_sequence(alloc, gates, labels)?))
}

/// The lines of the processes, in their order.
pub fn format_processes(alloc: Global, processes: &[Process]) -> Result<Vec<u8>, AllocError>
    ensures { IfOk result (λ lines. lines.items ≡ flat_map process_line (map process_of processes.now)) }
{
    let mut lines = Vec::new(alloc);
    for process in processes {
        append_process(process, &mut lines)?;
    }
    Ok(lines)
}

fn append_process(process: &Process, lines: &mut Vec<u8>) -> Result<(), AllocError>
    ensures { OnOk result (lines.new.items ≡ lines.old.items ++ process_line (process_of process.now)) }
{
    let mut digits = Buffer::new();
    lines.extend_from_slice(process.name.text().as_bytes())?;
    lines.extend_from_slice(b" ")?;
    lines.extend_from_slice(digits.format(process.formals.len()).as_bytes())?;
    lines.extend_from_slice(b" ")?;
    lines.extend_from_slice(functionality_text(process.functionality).as_bytes())?;
    lines.extend_from_slice(b"\n")
}

fn functionality_text(functionality: Functionality) -> &'static str
    ensures { result.now ≡ functionality_text functionality }
{
    match functionality {
        Functionality::Exit => "exit",
        Functionality::NoExit => "noexit",
    }
}
