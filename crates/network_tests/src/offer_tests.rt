//! What shapes offer.
use super::network::{
    label_text, normal_steps, offer_line, offers_of, parts_of, table_of, vector_line,
};
use lotos_network::Offer;
use lotos_normal::NormalTable;
use lotos_store::{Step, Term};
use lotos_text::Name;
use std::alloc::{AllocError, Global};
use std::process::Abort;
use std::test::Fail;

/// Behaviours without termination, and what they offer by the inference rules: labels, each with the numbers of the parts
/// that move.
const COMPOSITIONS: &[(&str, &str)] = &[
    ("a; b; stop |[a]| a; c; stop", "A 0 1"),
    (
        "(a; stop [] b; stop) |[a]| (c; stop [] a; stop)",
        "A 0 1, B 0, C 1",
    ),
    ("a; stop ||| (b; stop ||| a; b; stop)", "A 0, A 2, B 1"),
    (
        "(a; stop [] i; b; stop) || (a; stop [] c; stop)",
        "A 0 1, i 0",
    ),
    (
        "(a; stop |[a]| a; b; stop) |[a]| (b; stop [] a; stop)",
        "A 0 1 2, B 2",
    ),
    ("(a; stop |[a,b]| b; a; stop) |[a]| a; stop", ""),
    ("exit ||| a; stop", "A 1"),
    ("(a; b; stop [] a; c; stop) ||| a; stop", "A 0, A 0, A 1"),
    (
        "(a; stop [] a; b; stop) |[a]| (a; stop [] a; b; stop)",
        "A 0 1, A 0 1, A 0 1, A 0 1",
    ),
    (
        "hide a in (a; stop |[a]| (a; b; stop [] b; stop))",
        "B 1, i 0 1",
    ),
    (
        "(hide a in (a; stop ||| b; stop)) |[a,b]| (a; stop [] b; stop)",
        "B 1 2, i 0",
    ),
    ("(hide a in a; stop) ||| b; stop", "B 1, i 0"),
    ("a; stop [] b; stop", "A 0, B 0"),
    ("stop", ""),
];

/// Behaviours that can terminate.
const TERMINATIONS: &[(&str, &str)] = &[
    ("exit ||| exit", "exit 0 1"),
    ("(a; exit [] exit) ||| (exit ||| exit)", "A 0, exit 0 1 2"),
];

/// Behaviours whose normal forms are or have relabelled bodies of `P` or `Q`, and what these offer.
const CALLS: &[(&str, &str)] = &[
    ("P[b,a]", "A 1, B 0"),
    ("Q[b,a]", "A 1, B 0 1"),
    ("P[a,a]", "A 0, A 1"),
    ("P[b,a] |[b]| b; stop", "A 1, B 0 2"),
];

/// The table of a behaviour.
fn table(alloc: Global, behaviour: &str, functionality: &str) -> Result<Box<NormalTable>, Fail> {
    let text = format!(in alloc;
        "specification S [a,b,c] : {functionality} behaviour {behaviour} where process P [x,y] : noexit := x; stop ||| y; stop endproc process Q [x,y] : noexit := x; stop |[x]| (x; stop [] y; stop) endproc endspec"
    )?;
    table_of(alloc, text.as_str())
}

/// The lines of the offers, ascending, as one text. Offers of the same parts with the same label and targets are one.
fn offers_text(
    alloc: Global,
    names: &[Name],
    parts: &[Term],
    offers: &[Offer],
) -> Result<String, AllocError> {
    let mut seen = Vec::new(alloc);
    let mut lines = Vec::new(alloc);
    for offer in offers {
        let line = offer_line(alloc, names, offer)?;
        let vector = vector_line(alloc, names, parts, offer)?;
        let both = format!(in alloc; "{line},{vector}")?;
        if !seen.as_slice().contains(&both) {
            seen.push(both)?;
            lines.push(line)?;
        }
    }
    lines.sort_unstable();
    joined(alloc, &lines)
}

fn joined(alloc: Global, lines: &[String]) -> Result<String, AllocError> {
    let mut out = String::new(alloc);
    for line in lines {
        if !out.is_empty() {
            out.push_str(", ")?;
        }
        out.push_str(line.as_str())?;
    }
    Ok(out)
}

/// What a term offers.
fn text_of(alloc: Global, table: &mut NormalTable, term: Term) -> Result<String, Fail> {
    let parts = parts_of(alloc, table.nodes(), term)?;
    let offers = offers_of(alloc, table, term, &parts)?;
    Ok(offers_text(alloc, table.gates(), &parts, &offers)?)
}

/// The normal form of the behaviour of a table.
fn form_of(table: &mut NormalTable) -> Result<Term, AllocError> {
    let start = table.start();
    let form = table.normal_form(start)?;
    Ok(form)
}

fn found(alloc: Global, behaviour: &str, functionality: &str) -> Result<String, Fail> {
    let mut table = table(alloc, behaviour, functionality)?;
    let start = table.start();
    text_of(alloc, &mut table, start)
}

fn found_of_form(alloc: Global, behaviour: &str) -> Result<String, Fail> {
    let mut table = table(alloc, behaviour, "noexit")?;
    let form = form_of(&mut table)?;
    text_of(alloc, &mut table, form)
}

fn assert_text(rt: &impl Abort, behaviour: &str, found: &str, expected: &str) {
    assert_eq!(rt; found, expected, "{}", behaviour);
}

#[test]
fn behaviours_offer_their_steps(rt: HostRuntime) -> Result<(), Fail> {
    for (behaviour, expected) in COMPOSITIONS {
        let found = found(rt.alloc(), behaviour, "noexit")?;
        assert_text(&rt, behaviour, found.as_str(), expected);
    }
    Ok(())
}

#[test]
fn terminations_are_joint(rt: HostRuntime) -> Result<(), Fail> {
    for (behaviour, expected) in TERMINATIONS {
        let found = found(rt.alloc(), behaviour, "exit")?;
        assert_text(&rt, behaviour, found.as_str(), expected);
    }
    Ok(())
}

#[test]
fn called_bodies_offer_their_steps(rt: HostRuntime) -> Result<(), Fail> {
    for (behaviour, expected) in CALLS {
        let found = found_of_form(rt.alloc(), behaviour)?;
        assert_text(&rt, behaviour, found.as_str(), expected);
    }
    Ok(())
}

/// The lines, each once.
fn distinct(mut lines: Vec<String>) -> Vec<String> {
    lines.sort_unstable();
    lines.dedup();
    lines
}

/// The number of pairs of a label and a vector, and the labels.
fn pairs_of_offers(
    alloc: Global,
    names: &[Name],
    parts: &[Term],
    offers: &[Offer],
) -> Result<String, AllocError> {
    let mut pairs = Vec::new(alloc);
    let mut labels = Vec::new(alloc);
    for offer in offers {
        pairs.push(vector_line(alloc, names, parts, offer)?)?;
        labels.push(String::from_str(alloc, label_text(names, offer.label))?)?;
    }
    let count = distinct(pairs).len();
    let labels = joined(alloc, &distinct(labels))?;
    format!(in alloc; "{count}: {labels}")
}

/// The number of steps, and the labels.
fn pairs_of_steps(alloc: Global, names: &[Name], steps: &[Step]) -> Result<String, AllocError> {
    let mut labels = Vec::new(alloc);
    for step in steps {
        labels.push(String::from_str(alloc, label_text(names, step.label))?)?;
    }
    let count = steps.len();
    let labels = joined(alloc, &distinct(labels))?;
    format!(in alloc; "{count}: {labels}")
}

fn offered_pairs(alloc: Global, table: &mut NormalTable) -> Result<String, Fail> {
    let form = form_of(table)?;
    let parts = parts_of(alloc, table.nodes(), form)?;
    let offers = offers_of(alloc, table, form, &parts)?;
    Ok(pairs_of_offers(alloc, table.gates(), &parts, &offers)?)
}

fn stepped_pairs(alloc: Global, table: &mut NormalTable) -> Result<String, Fail> {
    let form = form_of(table)?;
    let steps = normal_steps(alloc, table, form)?;
    Ok(pairs_of_steps(alloc, table.gates(), &steps)?)
}

/// Both of them for the normal form of a behaviour.
fn both_pairs(alloc: Global, behaviour: &str) -> Result<(String, String), Fail> {
    let mut table = table(alloc, behaviour, "noexit")?;
    let offered = offered_pairs(alloc, &mut table)?;
    let stepped = stepped_pairs(alloc, &mut table)?;
    Ok((offered, stepped))
}

#[test]
fn offers_are_the_normal_steps(rt: HostRuntime) -> Result<(), Fail> {
    for (behaviour, _) in COMPOSITIONS {
        let (offered, stepped) = both_pairs(rt.alloc(), behaviour)?;
        assert_text(&rt, behaviour, offered.as_str(), stepped.as_str());
    }
    for (behaviour, _) in CALLS {
        let (offered, stepped) = both_pairs(rt.alloc(), behaviour)?;
        assert_text(&rt, behaviour, offered.as_str(), stepped.as_str());
    }
    Ok(())
}
