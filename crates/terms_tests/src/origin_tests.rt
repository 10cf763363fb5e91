//! What makes internal steps: worked rows.
use super::gate_names::texts_of;
use super::term_list::TermList;
use super::texts::assert_text;
use lotos_listing::LabelFlags;
use lotos_origins::Origin;
use lotos_terms::{Gate, Label};
use std::alloc::{AllocError, Global};
use std::process::Abort;
use std::test::Fail;

/// What is tested, a specification, steps from its start, and the steps that come after these. An internal step is
/// written by what makes it: `i`, `i(` and the name of a hidden gate and `)`, or `i(exit)`.
type Row = (
    &'static str,
    &'static str,
    &'static [&'static str],
    &'static str,
);

/// A hiding above an enabling: an internal step of each kind but that of the text.
const PHASES: &str =
    "specification G [a, b, c] : exit behaviour hide s in ((a; s; exit) |[s]| (s; b; exit)) >> c; exit endspec";

/// A hiding above a call, whose process has the gate by another name.
const CALLED: &str =
    "specification S [a] : noexit behaviour hide b in P [b] where process P [x] : noexit := x; P [x] endproc endspec";

/// A hiding in a process that is called with the gate of the hiding.
const INSIDE: &str =
    "specification S [h] : noexit behaviour P [h] where process P [x] : noexit := hide h in (x; h; P [x]) endproc endspec";

/// Worked out by hand.
const ROWS: &[Row] = &[
    (
        "the internal action of the text",
        "specification S [a] : noexit behaviour i; a; stop endspec",
        &[],
        "i",
    ),
    ("no internal step yet", PHASES, &[], "A"),
    ("a hidden gate of both sides", PHASES, &["A"], "i(S)"),
    (
        "termination of both sides",
        PHASES,
        &["A", "i(S)", "B"],
        "i(exit)",
    ),
    (
        "none after these",
        PHASES,
        &["A", "i(S)", "B", "i(exit)"],
        "C",
    ),
    (
        "two hidings of different gates",
        "specification S [a] : noexit behaviour hide s in hide t in (s; stop [] t; a; stop) endspec",
        &[],
        "i(S) i(T)",
    ),
    (
        "two hidings of the same gate",
        "specification S [a] : noexit behaviour hide s in ((hide s in s; a; stop) ||| s; stop) endspec",
        &[],
        "i(S) i(S)",
    ),
    (
        "a hiding of two gates",
        "specification S [a] : noexit behaviour hide s, t in (s; stop [] t; a; stop) endspec",
        &[],
        "i(S) i(T)",
    ),
    ("a hiding above a call", CALLED, &[], "i(B)"),
    (
        "and above the relabellings that calls leave",
        CALLED,
        &["i(B)", "i(B)", "i(B)"],
        "i(B)",
    ),
    (
        "a hiding above calls of two processes",
        "specification S [a] : noexit behaviour hide c in Q [c] where process Q [y] : noexit := P [y] endproc process P [x] : noexit := x; stop endproc endspec",
        &[],
        "i(C)",
    ),
    ("a gate by the name of a hidden one", INSIDE, &[], "H"),
    (
        "a hiding in a process that is called with other gates",
        INSIDE,
        &["H"],
        "i(H)",
    ),
    (
        "a formal gate that its process hides",
        "specification S [a] : noexit behaviour P [a] where process P [x] : noexit := hide x in x; stop endproc endspec",
        &[],
        "i(X)",
    ),
    (
        "the internal action beside a hidden gate",
        "specification S [a] : noexit behaviour hide s in (i; a; stop [] s; stop) endspec",
        &[],
        "i i(S)",
    ),
    (
        "the internal action of either operand of a choice",
        "specification S [a] : noexit behaviour i; stop [] hide s in s; stop endspec",
        &[],
        "i i(S)",
    ),
    (
        "an internal step of either side",
        "specification S [a] : noexit behaviour (i; stop) ||| (hide s in s; stop) endspec",
        &[],
        "i i(S)",
    ),
    (
        "an internal step of the other side",
        "specification S [a] : noexit behaviour (hide s in s; stop) ||| (hide t in t; stop) endspec",
        &["i(S)"],
        "i(T)",
    ),
    (
        "a side whose internal steps go on for ever",
        "specification S [a] : noexit behaviour L ||| (hide t in t; stop) where process L : noexit := i; L endproc endspec",
        &["i", "i"],
        "i i(T)",
    ),
    (
        "an internal step of either operand of a disabling",
        "specification S [a] : noexit behaviour (i; a; stop) [> (hide t in t; stop) endspec",
        &[],
        "i i(T)",
    ),
    (
        "a disabling after a step of its left operand",
        "specification S [a] : noexit behaviour (i; a; stop) [> (hide t in t; stop) endspec",
        &["i"],
        "A i(T)",
    ),
    (
        "an internal step of the left operand of an enabling",
        "specification S [a] : noexit behaviour (i; exit) >> i; stop endspec",
        &[],
        "i",
    ),
    (
        "and then its termination",
        "specification S [a] : noexit behaviour (i; exit) >> i; stop endspec",
        &["i"],
        "i(exit)",
    ),
    (
        "and then an internal step of the right operand",
        "specification S [a] : noexit behaviour (i; exit) >> i; stop endspec",
        &["i", "i(exit)"],
        "i",
    ),
    (
        "termination of a called process",
        "specification S [a] : noexit behaviour P [a] >> a; stop where process P [x] : exit := x; exit endproc endspec",
        &["A"],
        "i(exit)",
    ),
    (
        "termination in a called process",
        "specification S [a] : noexit behaviour P [a] where process P [x] : noexit := exit >> x; stop endproc endspec",
        &[],
        "i(exit)",
    ),
];

/// Appends the text of an internal step, by what makes it.
pub fn add_text(names: &[String], origin: Origin, into: &mut String) -> Result<(), AllocError> {
    match origin {
        Origin::Text => into.push_str("i"),
        Origin::Termination => into.push_str("i(exit)"),
        Origin::Hidden(gate) => {
            into.push_str("i(")?;
            match names.get(gate.number()) {
                Some(name) => into.push_str(name.as_str())?,
                None => into.push_str("no gate")?,
            }
            into.push_str(")")
        }
    }
}

/// The texts of the steps of the term at an index, each with the index of the term that it leads to.
fn step_texts(
    alloc: Global,
    list: &mut TermList,
    index: usize,
) -> Result<Vec<(String, usize)>, Fail> {
    let names = texts_of(alloc, list.gates())?;
    let steps = list.printed_steps(alloc, index)?;
    let origins = list.origins(alloc, index)?;
    let mut internal = 0;
    let mut texts = Vec::new(alloc);
    for step in &steps {
        let mut text = String::new(alloc);
        match origins.get(internal) {
            Some(origin) if step.text.as_str() == "i" => {
                add_text(names.as_slice(), *origin, &mut text)?;
                internal += 1;
            }
            _ => text.push_str(step.text.as_str())?,
        }
        texts.push((text, step.to))?;
    }
    texts.sort_unstable();
    Ok(texts)
}

/// The index of the term to which the first step with this text leads.
fn target_of(texts: &[(String, usize)], word: &str) -> Option<usize> {
    for (text, to) in texts {
        if text.as_str() == word {
            return Some(*to);
        }
    }
    None
}

/// The texts of the steps after those of a way from the start, in order.
fn texts_after(alloc: Global, text: &str, way: &[&str]) -> Result<String, Fail> {
    let mut list = TermList::new(alloc, text)?;
    let mut index = 0;
    for word in way {
        let texts = step_texts(alloc, &mut list, index)?;
        match target_of(texts.as_slice(), word) {
            Some(to) => index = to,
            None => return Ok(String::from_str(alloc, "no such step")?),
        }
    }
    let mut joined = String::new(alloc);
    for (text, _) in &step_texts(alloc, &mut list, index)? {
        if !joined.is_empty() {
            joined.push_str(" ")?;
        }
        joined.push_str(text.as_str())?;
    }
    Ok(joined)
}

#[test]
fn internal_steps_have_their_origins(rt: HostRuntime) -> Result<(), Fail> {
    for (subject, text, way, expected) in ROWS {
        let found = texts_after(rt.alloc(), text, way)?;
        assert_text(&rt, subject, found.as_str(), expected);
    }
    Ok(())
}

/// What is tested, a specification, a run, the labels that its last term must not have, and the run with its internal
/// steps written by what makes them.
type RunRow = (
    &'static str,
    &'static str,
    &'static [&'static str],
    &'static [&'static str],
    &'static str,
);

/// Two ways to an end, one with a hidden gate and one with the internal action.
const TWO_WAYS: &str =
    "specification S [a, b] : noexit behaviour hide s in (s; a; stop [] i; b; stop) endspec";

/// Worked out by hand.
const RUNS: &[RunRow] = &[
    ("the empty run", PHASES, &[], &[], ""),
    (
        "a run to the end",
        PHASES,
        &["A", "i", "B", "i", "C", "exit"],
        &[],
        "A i(S) B i(exit) C exit",
    ),
    (
        "a run through calls",
        CALLED,
        &["i", "i", "i", "i"],
        &[],
        "i(B) i(B) i(B) i(B)",
    ),
    (
        "a run through a process that hides",
        INSIDE,
        &["H", "i", "H", "i"],
        &[],
        "H i(H) H i(H)",
    ),
    (
        "the end has no step by one label",
        TWO_WAYS,
        &["i"],
        &["A"],
        "i",
    ),
    (
        "the end has no step by another label",
        TWO_WAYS,
        &["i"],
        &["B"],
        "i(S)",
    ),
    ("the way to a label", TWO_WAYS, &["i", "A"], &[], "i(S) A"),
    (
        "the way to another label",
        TWO_WAYS,
        &["i", "B"],
        &[],
        "i B",
    ),
    (
        "a run that is not possible",
        TWO_WAYS,
        &["i", "A", "B"],
        &[],
        "no such run",
    ),
    (
        "a run whose end is refused",
        TWO_WAYS,
        &["i"],
        &["A", "B"],
        "no such run",
    ),
];

/// The label with this text.
fn label_of(names: &[String], word: &str) -> Label {
    for (index, name) in names.iter().enumerate() {
        if name.as_str() == word {
            return Label::Gate(Gate::of_number(index));
        }
    }
    if word == "exit" {
        Label::Exit
    } else {
        Label::Internal
    }
}

/// The labels with these texts.
pub fn labels_of(
    alloc: Global,
    names: &[String],
    words: &[&str],
) -> Result<Vec<Label>, AllocError> {
    let mut labels = Vec::new(alloc);
    for word in words {
        labels.push(label_of(names, word))?;
    }
    Ok(labels)
}

/// The set of the labels with these texts.
fn flags_of(alloc: Global, names: &[String], words: &[&str]) -> Result<LabelFlags, AllocError> {
    let mut flags = LabelFlags::none(alloc);
    for name in names {
        flags.gates.push((&*words).contains(&name.as_str()))?;
    }
    Ok(flags)
}

/// The run with its internal steps written by what makes them.
fn described_run(
    alloc: Global,
    names: &[String],
    words: &[&str],
    origins: &[Origin],
) -> Result<String, AllocError> {
    let mut joined = String::new(alloc);
    let mut internal = 0;
    for word in words {
        if !joined.is_empty() {
            joined.push_str(" ")?;
        }
        match origins.get(internal) {
            Some(origin) if *word == "i" => {
                add_text(names, *origin, &mut joined)?;
                internal += 1;
            }
            _ => joined.push_str(word)?,
        }
    }
    Ok(joined)
}

#[test]
fn runs_have_the_origins_of_their_steps(rt: HostRuntime) -> Result<(), Fail> {
    let alloc = rt.alloc();
    for (subject, text, words, refused, expected) in RUNS {
        let mut list = TermList::new(alloc, text)?;
        let names = texts_of(alloc, list.gates())?;
        let run = labels_of(alloc, names.as_slice(), words)?;
        let flags = flags_of(alloc, names.as_slice(), refused)?;
        let found = match list.run_origins(alloc, run.as_slice(), &flags)? {
            Some(origins) => described_run(alloc, names.as_slice(), words, origins.as_slice())?,
            None => String::from_str(alloc, "no such run")?,
        };
        assert_text(&rt, subject, found.as_str(), expected);
    }
    Ok(())
}

#[test]
fn runs_are_followed_after_others(rt: HostRuntime) -> Result<(), Fail> {
    let alloc = rt.alloc();
    for (subject, text, words, _, _) in RUNS {
        let mut list = TermList::new(alloc, text)?;
        let names = texts_of(alloc, list.gates())?;
        let run = labels_of(alloc, names.as_slice(), words)?;
        let same = list.has_same_ends_after_another(alloc, run.as_slice())?;
        assert!(rt; same, "{subject}");
    }
    Ok(())
}
