//! Runs as text, with what makes their internal steps.
ghost use Rattle.std.specs.Prelude.{◌≡◌, ◌++◌, ◌∷◌, [], IfOk, List, OnOk, drop, flat_map, string_bytes, true};
ghost use Rattle.lotos_listing.specs.Order.{Label as Text};
ghost use Rattle.lotos_origins.specs.declared.origin.Origin.{Origin as OriginOf};
ghost use Rattle.lotos_output.specs.NamedRuns.{AreNamed, AreRoundNamed, IsNamedStep, IsOriginText};
ghost use Rattle.lotos_output.specs.OutputLines.{round_text, row_text, run_text, sequence_text};

use lotos_origins::{Origin, Round};
use lotos_terms::{Label, label_text};
use lotos_text::Name;
use std::alloc::AllocError;

/// Appends ` : ` and the run. An internal step is written by what makes it: `i` for the internal action of the text, the
/// gate of a hiding as `i(S)`, and termination as `i(exit)`. The gates have these names.
pub fn append_named_run(
    gates: &[Name],
    run: &[Label],
    origins: &[Origin],
    line: &mut String,
) -> Result<(), AllocError>
    requires { (w : List Text) × AreNamed gates.now run.now origins.now w [] }
    ensures { OnOk result ((w : List Text) → AreNamed gates.now run.now origins.now w [] →
        string_bytes line.new ≡ string_bytes line.old ++ run_text true w) }
{
    line.push_str(" : ")?;
    append_sequence(gates, run, origins, 0, line)?;
    Ok(())
}

/// Appends steps that go round, as [`crate::append_round`] does, where internal steps are written by what makes them.
pub fn append_named_round(
    gates: &[Name],
    round: &Round,
    line: &mut String,
) -> Result<(), AllocError>
    requires { (r s : List Text) × AreRoundNamed gates.now round.now r s }
    ensures { OnOk result ((r s : List Text) → AreRoundNamed gates.now round.now r s →
        string_bytes line.new ≡ string_bytes line.old ++ round_text r s) }
{
    line.push_str(" <forever> ")?;
    append_row(
        gates,
        round.row.as_slice(),
        round.row_origins.as_slice(),
        line,
    )?;
    line.push_str("[")?;
    append_sequence(
        gates,
        round.turn.as_slice(),
        round.turn_origins.as_slice(),
        0,
        line,
    )?;
    line.push_str("]")?;
    Ok(())
}

/// Appends the steps of a row and a blank, if there are any steps.
fn append_row(
    gates: &[Name],
    row: &[Label],
    origins: &[Origin],
    line: &mut String,
) -> Result<(), AllocError>
    requires { (r : List Text) × AreNamed gates.now row.now origins.now r [] }
    ensures { OnOk result ((r : List Text) → AreNamed gates.now row.now origins.now r [] →
        string_bytes line.new ≡ string_bytes line.old ++ row_text r) }
{
    if row.is_empty() {
        return Ok(());
    }
    append_sequence(gates, row, origins, 0, line)?;
    line.push_str(" ")?;
    Ok(())
}

/// Appends the steps of a run, as the text of a sequence. The first origins are used; returns how many are used then.
fn append_sequence(
    gates: &[Name],
    run: &[Label],
    origins: &[Origin],
    used: usize,
    line: &mut String,
) -> Result<usize, AllocError>
    requires { (w : List Text) × (rest : List OriginOf) ×
        AreNamed gates.now run.now (drop used origins.now) w rest }
    ensures { IfOk result (λ now. (w : List Text) (rest : List OriginOf) →
        AreNamed gates.now run.now (drop used origins.now) w rest →
        (drop now origins.now ≡ rest) × (string_bytes line.new ≡ string_bytes line.old ++ sequence_text w)) }
{
    let Some((first, others)) = run.split_first() else {
        line.push_str("<empty>")?;
        return Ok(used);
    };
    let now = append_step(gates, *first, origins, used, line)?;
    append_other_steps(gates, others, origins, now, line)
}

/// Appends a blank and the text of each step. The first origins are used; returns how many are used then.
fn append_other_steps(
    gates: &[Name],
    labels: &[Label],
    origins: &[Origin],
    used: usize,
    line: &mut String,
) -> Result<usize, AllocError>
    requires { (w : List Text) × (rest : List OriginOf) ×
        AreNamed gates.now labels.now (drop used origins.now) w rest }
    ensures { IfOk result (λ now. (w : List Text) (rest : List OriginOf) →
        AreNamed gates.now labels.now (drop used origins.now) w rest → (drop now origins.now ≡ rest) ×
        (string_bytes line.new ≡ string_bytes line.old ++ flat_map (λ m. 32 ∷ m) w)) }
{
    let mut now = used;
    for label in labels {
        line.push_str(" ")?;
        now = append_step(gates, *label, origins, now, line)?;
    }
    Ok(now)
}

/// Appends the text of a step. The first origins are used; returns how many are used then.
fn append_step(
    gates: &[Name],
    label: Label,
    origins: &[Origin],
    used: usize,
    line: &mut String,
) -> Result<usize, AllocError>
    requires { (text : Text) × (rest : List OriginOf) ×
        IsNamedStep gates.now label (drop used origins.now) text rest }
    ensures { IfOk result (λ now. (text : Text) (rest : List OriginOf) →
        IsNamedStep gates.now label (drop used origins.now) text rest →
        (drop now origins.now ≡ rest) × (string_bytes line.new ≡ string_bytes line.old ++ text)) }
{
    if let Label::Internal = label {
        if origins.len() <= used {
            unreachable!()
        }
        append_origin(gates, origins[used], line)?;
        return Ok(used + 1);
    }
    line.push_str(label_text(gates, label))?;
    Ok(used)
}

/// Appends an internal step with this origin.
fn append_origin(gates: &[Name], origin: Origin, line: &mut String) -> Result<(), AllocError>
    requires { (text : Text) × IsOriginText gates.now origin text }
    ensures { OnOk result ((text : Text) → IsOriginText gates.now origin text →
        string_bytes line.new ≡ string_bytes line.old ++ text) }
{
    match origin {
        Origin::Text => line.push_str("i"),
        Origin::Hidden(gate) => {
            line.push_str("i(")?;
            line.push_str(label_text(gates, Label::Gate(gate)))?;
            line.push_str(")")
        }
        Origin::Termination => line.push_str("i(exit)"),
    }
}
