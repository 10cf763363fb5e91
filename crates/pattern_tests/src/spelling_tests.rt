//! Words that spell patterns.
use super::sequence_ends::{assert_text, joined};
use lotos_pattern::{Pattern, PatternFault};
use std::alloc::{AllocError, Global};
use std::process::Abort;
use std::test::Fail;

/// What is tried, whether internal steps are observed, the words, and the elements that they spell.
type Spelled = (&'static str, bool, &'static [&'static str], &'static str);

/// Words that spell labels.
const SPELLED_LABELS: &[Spelled] = &[
    ("no word", false, &[], ""),
    ("a gate's name in lower case", false, &["a"], "A;"),
    ("a gate's name in mixed case", false, &["aB_1"], "AB_1;"),
    ("a gate's name that begins with `i`", false, &["i1"], "I1;"),
    ("`exit` in lower case", false, &["exit"], "exit;"),
    ("`exit` in mixed case", false, &["Exit"], "exit;"),
    ("`exit` in upper case", false, &["EXIT"], "exit;"),
    (
        "a name that begins with `exit`",
        false,
        &["exit1"],
        "EXIT1;",
    ),
    ("reserved words", false, &["stop", "Hide"], "STOP; HIDE;"),
];

/// Words that spell other elements.
const SPELLED_ELEMENTS: &[Spelled] = &[
    ("any label", false, &["<any>"], "any;"),
    (
        "any label in upper case",
        false,
        &["<ANY>", "<Any>"],
        "any; any;",
    ),
    ("up to a label", false, &["<Until>", "b"], "until B;"),
    ("up to `exit`", false, &["<until>", "EXIT"], "until exit;"),
    ("an end", false, &["a", "<Deadlock>"], "A; refuses any;"),
    ("an end alone", false, &["<deadlock>"], "refuses any;"),
    (
        "any labels before an end",
        false,
        &["<UNTIL>", "<Deadlock>"],
        "until refuses any;",
    ),
    (
        "all kinds",
        false,
        &[
            "a",
            "<any>",
            "<until>",
            "b",
            "exit",
            "<until>",
            "<deadlock>",
        ],
        "A; any; until B; exit; until refuses any;",
    ),
];

/// Words that spell repetitions, and words where internal steps are observed.
const SPELLED_REPETITIONS: &[Spelled] = &[
    (
        "a label, then repeats of one",
        false,
        &["A", "<while>", "b"],
        "A; while B;",
    ),
    (
        "repeats of any label",
        false,
        &["<While>", "<ANY>"],
        "while any;",
    ),
    (
        "repeats of any label, then one",
        false,
        &["<while>", "<any>", "B"],
        "while any; B;",
    ),
    (
        "repeats twice, then any label",
        false,
        &["<while>", "A", "<while>", "A", "<any>"],
        "while A; while A; any;",
    ),
    (
        "repeats before an end",
        false,
        &["<while>", "<any>", "<deadlock>"],
        "while any; refuses any;",
    ),
    (
        "repeats of `exit`",
        false,
        &["<while>", "Exit"],
        "while exit;",
    ),
    (
        "the internal action, observed",
        true,
        &["i", "I", "A"],
        "i; i; A;",
    ),
    (
        "up to the internal action",
        true,
        &["<until>", "i"],
        "until i;",
    ),
    (
        "repeats of the internal action",
        true,
        &["<while>", "I"],
        "while i;",
    ),
    (
        "all kinds, observed",
        true,
        &["a", "<any>", "<while>", "i", "<until>", "<deadlock>"],
        "A; any; while i; until refuses any;",
    ),
];

/// Words that spell sets of labels.
const SPELLED_SETS: &[Spelled] = &[
    ("labels", false, &["a,B,Exit"], "A,B,exit;"),
    ("a label twice", false, &["A,a"], "A,A;"),
    ("all labels but two", false, &["<NOT>", "a,b"], "not A,B;"),
    (
        "all labels but `exit`",
        false,
        &["<not>", "EXIT"],
        "not exit;",
    ),
    (
        "up to one of two labels",
        false,
        &["<until>", "A,b"],
        "until A,B;",
    ),
    (
        "up to a label but one",
        false,
        &["<until>", "<Not>", "A"],
        "until not A;",
    ),
    (
        "repeats of two labels",
        false,
        &["<while>", "A,B"],
        "while A,B;",
    ),
    (
        "repeats of all labels but two, then one of two",
        false,
        &["<while>", "<not>", "A,B", "B,C"],
        "while not A,B; B,C;",
    ),
    (
        "all labels but one before an end",
        false,
        &["<not>", "A", "<until>", "<deadlock>"],
        "not A; until refuses any;",
    ),
    (
        "the internal action among labels, observed",
        true,
        &["A,I", "<until>", "i,i"],
        "A,i; until i,i;",
    ),
    (
        "all labels but the internal action, observed",
        true,
        &["<not>", "i", "<while>", "<not>", "A,i"],
        "not i; while not A,i;",
    ),
];

/// Words that spell demands that the end refuses a set.
const SPELLED_REFUSALS: &[Spelled] = &[
    ("a refused label", false, &["<refuses>", "a"], "refuses A;"),
    (
        "refused labels",
        false,
        &["<refuses>", "a,Exit"],
        "refuses A,exit;",
    ),
    (
        "a refused label twice",
        false,
        &["<refuses>", "A,a"],
        "refuses A,A;",
    ),
    (
        "all labels refused, in mixed case",
        false,
        &["<ReFuSeS>", "<aNy>"],
        "refuses any;",
    ),
    (
        "all labels but one refused",
        false,
        &["<refuses>", "<not>", "A"],
        "refuses not A;",
    ),
    (
        "all labels but two refused, after a label",
        false,
        &["b", "<REFUSES>", "<NOT>", "a,b"],
        "B; refuses not A,B;",
    ),
    (
        "repeats before refused labels",
        false,
        &["<while>", "A,B", "<refuses>", "A,B"],
        "while A,B; refuses A,B;",
    ),
    (
        "a refused gate named as the word",
        false,
        &["refuses", "<refuses>", "Refuses"],
        "REFUSES; refuses REFUSES;",
    ),
    (
        "the internal action refused, observed",
        true,
        &["<refuses>", "I"],
        "refuses i;",
    ),
];

/// Words that spell any labels before such a demand.
const SPELLED_UNTIL_REFUSALS: &[Spelled] = &[
    (
        "any labels before a refused label",
        false,
        &["<until>", "<refuses>", "b"],
        "until refuses B;",
    ),
    (
        "any labels before all labels refused",
        false,
        &["<until>", "<refuses>", "<any>"],
        "until refuses any;",
    ),
    (
        "any labels before all labels but `exit` refused",
        false,
        &["<UNTIL>", "<rEfUsEs>", "<Not>", "Exit"],
        "until refuses not exit;",
    ),
    (
        "up to a label, then any labels before refused labels",
        false,
        &["<until>", "A", "<until>", "<refuses>", "A,B"],
        "until A; until refuses A,B;",
    ),
    (
        "any labels before all labels but the internal action refused, observed",
        true,
        &["i", "<until>", "<refuses>", "<not>", "A,I"],
        "i; until refuses not A,i;",
    ),
];

/// An element of the table, as `Debug` writes it.
fn element_text(alloc: Global, element: &str) -> Result<String, AllocError> {
    let (front, set) = front_and_set(element);
    let set = set_text(alloc, set)?;
    joined(alloc, &[front, set.as_str(), ")"])
}

/// How `Debug` begins an element of the table, and the set of the element.
fn front_and_set(element: &str) -> (&'static str, &str) {
    if let Some(set) = element.strip_prefix("until refuses ") {
        ("UntilRefuses(", set)
    } else if let Some(set) = element.strip_prefix("refuses ") {
        ("Refuses(", set)
    } else if let Some(set) = element.strip_prefix("until ") {
        ("Until(", set)
    } else if let Some(set) = element.strip_prefix("while ") {
        ("While(", set)
    } else {
        ("One(", element)
    }
}

/// A set of labels of the table, as `Debug` writes it.
fn set_text(alloc: Global, set: &str) -> Result<String, AllocError> {
    if set == "any" {
        return joined(alloc, &["Others([])"]);
    }
    let (front, names) = front_and_names(set);
    let names = names_text(alloc, names)?;
    joined(alloc, &[front, names.as_str(), "])"])
}

/// How `Debug` begins a set of the table, and the names in it.
fn front_and_names(set: &str) -> (&'static str, &str) {
    match set.strip_prefix("not ") {
        Some(names) => ("Others([", names),
        None => ("These([", set),
    }
}

/// The names, each in quotes.
fn names_text(alloc: Global, names: &str) -> Result<String, AllocError> {
    let mut text = String::new(alloc);
    let mut is_first = true;
    for name in names.split(',') {
        text.push_str(if is_first { "" } else { ", " })?;
        add_quoted(&mut text, name)?;
        is_first = false;
    }
    Ok(text)
}

/// Appends the name in quotes.
fn add_quoted(text: &mut String, name: &str) -> Result<(), AllocError> {
    text.push_str("\"")?;
    text.push_str(name)?;
    text.push_str("\"")
}

/// Appends the elements of the table, as `Debug` writes them.
fn write_elements(alloc: Global, text: &mut String, spelled: &str) -> Result<(), AllocError> {
    let mut is_first = true;
    for element in spelled.split_terminator(';') {
        if !is_first {
            text.push_str(", ")?;
        }
        text.push_str(element_text(alloc, element.trim())?.as_str())?;
        is_first = false;
    }
    Ok(())
}

/// A pattern with the elements of the table, as `Debug` writes it.
fn pattern_text(alloc: Global, spelled: &str, strong: bool) -> Result<String, AllocError> {
    let mut text = String::from_str(alloc, "Pattern { elements: [")?;
    write_elements(alloc, &mut text, spelled)?;
    text.push_str(if strong {
        "], strong: true }"
    } else {
        "], strong: false }"
    })?;
    Ok(text)
}

/// The pattern of the words, as `Debug` writes it.
fn text_of(alloc: Global, words: &[&str], strong: bool) -> Result<String, PatternFault> {
    let pattern = Pattern::read(alloc, words, strong)?;
    Ok(format!(in alloc; "{pattern:?}")?)
}

fn assert_spelled(
    rt: &impl Abort,
    alloc: Global,
    name: &str,
    words: &[&str],
    strong: bool,
    spelled: &str,
) -> Result<(), PatternFault> {
    let found = text_of(alloc, words, strong)?;
    let expected = pattern_text(alloc, spelled, strong)?;
    assert_text(rt, name, found.as_str(), expected.as_str());
    Ok(())
}

fn assert_each_spelled(
    rt: &impl Abort,
    alloc: Global,
    rows: &[Spelled],
) -> Result<(), PatternFault> {
    for (name, strong, words, spelled) in rows {
        assert_spelled(rt, alloc, name, words, *strong, spelled)?;
    }
    Ok(())
}

#[test]
fn reads_labels(rt: HostRuntime) -> Result<(), Fail> {
    Ok(assert_each_spelled(&rt, rt.alloc(), SPELLED_LABELS)?)
}

#[test]
fn reads_elements(rt: HostRuntime) -> Result<(), Fail> {
    Ok(assert_each_spelled(&rt, rt.alloc(), SPELLED_ELEMENTS)?)
}

#[test]
fn reads_repetitions(rt: HostRuntime) -> Result<(), Fail> {
    Ok(assert_each_spelled(&rt, rt.alloc(), SPELLED_REPETITIONS)?)
}

#[test]
fn reads_sets(rt: HostRuntime) -> Result<(), Fail> {
    Ok(assert_each_spelled(&rt, rt.alloc(), SPELLED_SETS)?)
}

#[test]
fn reads_refusals(rt: HostRuntime) -> Result<(), Fail> {
    Ok(assert_each_spelled(&rt, rt.alloc(), SPELLED_REFUSALS)?)
}

#[test]
fn reads_any_labels_before_refusals(rt: HostRuntime) -> Result<(), Fail> {
    Ok(assert_each_spelled(&rt, rt.alloc(), SPELLED_UNTIL_REFUSALS)?)
}
