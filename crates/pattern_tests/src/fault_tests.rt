//! Words that spell no pattern, with their faults and the text of each fault.
use super::sequence_ends::assert_text;
use lotos_pattern::{Pattern, PatternFault};
use std::alloc::{AllocError, Global};
use std::process::Abort;
use std::test::Fail;

/// What is tried, whether internal steps are observed, the words, and their fault.
pub type Refused = (&'static str, bool, &'static [&'static str], PatternFault);

/// Words that are nearly labels.
const REFUSED_LABELS: &[Refused] = &[
    ("a digit first", false, &["1a"], PatternFault::E41(1)),
    ("an underscore first", false, &["_a"], PatternFault::E41(1)),
    ("an empty word", false, &[""], PatternFault::E41(1)),
    (
        "an empty word after a label",
        false,
        &["a", ""],
        PatternFault::E41(2),
    ),
    (
        "a letter that is not ASCII",
        false,
        &["é"],
        PatternFault::E41(1),
    ),
    (
        "such a letter after another",
        false,
        &["aé"],
        PatternFault::E41(1),
    ),
    ("a hyphen inside", false, &["A-B"], PatternFault::E41(1)),
    ("a blank inside", false, &["A B"], PatternFault::E41(1)),
    ("a blank before", false, &[" <any>"], PatternFault::E41(1)),
    ("no closing bracket", false, &["<any"], PatternFault::E41(1)),
    (
        "a sequence without labels",
        false,
        &["<empty>"],
        PatternFault::E41(1),
    ),
    ("the internal action", false, &["i"], PatternFault::E45(1)),
    (
        "the internal action in upper case",
        false,
        &["a", "I"],
        PatternFault::E45(2),
    ),
    (
        "two faults, the first of which counts",
        false,
        &["1", "i"],
        PatternFault::E41(1),
    ),
    (
        "`i` with a letter after it, observed",
        true,
        &["i-"],
        PatternFault::E41(1),
    ),
];

/// Words of other elements that do not fit together.
const REFUSED_ELEMENTS: &[Refused] = &[
    ("`<until>` alone", false, &["<until>"], PatternFault::E42(1)),
    (
        "`<until>` before `<any>`",
        false,
        &["<until>", "<any>"],
        PatternFault::E42(1),
    ),
    (
        "`<until>` before `<until>`",
        false,
        &["A", "<until>", "<until>"],
        PatternFault::E42(2),
    ),
    (
        "`<until>` before what means nothing",
        false,
        &["<until>", "1"],
        PatternFault::E42(1),
    ),
    (
        "`<until>` before `i`",
        false,
        &["<until>", "i"],
        PatternFault::E45(2),
    ),
    (
        "a label after an end",
        false,
        &["<deadlock>", "A"],
        PatternFault::E43(2),
    ),
    (
        "an end after an end",
        false,
        &["<deadlock>", "<deadlock>"],
        PatternFault::E43(2),
    ),
    (
        "a label after any labels before an end",
        false,
        &["<until>", "<deadlock>", "A"],
        PatternFault::E43(3),
    ),
    (
        "`i` after an end",
        false,
        &["<deadlock>", "i"],
        PatternFault::E43(2),
    ),
    (
        "what means nothing after an end",
        false,
        &["<deadlock>", "1"],
        PatternFault::E43(2),
    ),
    (
        "`<until>` before `<while>`",
        false,
        &["<until>", "<while>"],
        PatternFault::E42(1),
    ),
    (
        "`<while>` after an end",
        false,
        &["<deadlock>", "<while>", "A"],
        PatternFault::E43(2),
    ),
    (
        "`<until>` alone, `i` shown",
        true,
        &["i", "<until>"],
        PatternFault::E42(2),
    ),
];

/// Words of repetitions that do not fit together.
const REFUSED_REPETITIONS: &[Refused] = &[
    (
        "`<while>` alone",
        false,
        &["A", "<while>"],
        PatternFault::E48(2),
    ),
    (
        "`<while>` before `<deadlock>`",
        false,
        &["<while>", "<deadlock>"],
        PatternFault::E48(1),
    ),
    (
        "`<while>` before `<while>`",
        false,
        &["<while>", "<while>", "A"],
        PatternFault::E48(1),
    ),
    (
        "`<while>` before `<until>`",
        true,
        &["<while>", "<until>", "A"],
        PatternFault::E48(1),
    ),
    (
        "`<while>` before what means nothing",
        false,
        &["A", "B", "<while>", "1"],
        PatternFault::E48(3),
    ),
    (
        "`<while>` before `i`",
        false,
        &["<while>", "i"],
        PatternFault::E45(2),
    ),
];

/// Words that nearly spell sets of labels.
const REFUSED_SETS: &[Refused] = &[
    (
        "a comma after a label",
        false,
        &["A,"],
        PatternFault::E41(1),
    ),
    (
        "a comma before a label",
        false,
        &[",A"],
        PatternFault::E41(1),
    ),
    ("a comma alone", false, &[","], PatternFault::E41(1)),
    ("two commas", false, &["B", "A,,B"], PatternFault::E41(2)),
    (
        "an element in a set",
        false,
        &["A,<any>"],
        PatternFault::E41(1),
    ),
    (
        "a blank after a comma",
        false,
        &["A, B"],
        PatternFault::E41(1),
    ),
    ("`i` and a comma", false, &["i,"], PatternFault::E41(1)),
    ("`i` in a set", false, &["A,i"], PatternFault::E45(1)),
    (
        "`i` in a set after `<until>`",
        false,
        &["<until>", "I,A"],
        PatternFault::E45(2),
    ),
    (
        "`i` in a set after `<while>`",
        false,
        &["B", "<while>", "A,i"],
        PatternFault::E45(3),
    ),
    (
        "`i` after `<not>`",
        false,
        &["<not>", "i"],
        PatternFault::E45(2),
    ),
    (
        "`i` after `<until>` and `<not>`",
        false,
        &["<until>", "<not>", "A,i,B"],
        PatternFault::E45(3),
    ),
    (
        "`<until>` before a comma after a label",
        false,
        &["<until>", "A,"],
        PatternFault::E42(1),
    ),
    (
        "`<while>` before a comma",
        false,
        &["A", "<while>", ","],
        PatternFault::E48(2),
    ),
];

/// Words that nearly spell complements of sets.
const REFUSED_COMPLEMENTS: &[Refused] = &[
    ("`<not>` alone", false, &["<not>"], PatternFault::E50(1)),
    (
        "`<not>` alone, `i` shown",
        true,
        &["i", "<not>"],
        PatternFault::E50(2),
    ),
    (
        "`<not>` alone after `<until>`",
        false,
        &["A", "<until>", "<not>"],
        PatternFault::E50(3),
    ),
    (
        "`<not>` alone after `<while>`",
        false,
        &["<while>", "<not>"],
        PatternFault::E50(2),
    ),
    (
        "`<not>` before two commas",
        false,
        &["<not>", "A,,B"],
        PatternFault::E50(1),
    ),
    (
        "`<not>` before `<any>`",
        false,
        &["<not>", "<any>"],
        PatternFault::E50(1),
    ),
    (
        "`<not>` before `<not>`",
        false,
        &["<while>", "<not>", "<not>", "A"],
        PatternFault::E50(2),
    ),
    (
        "`<not>` before `<until>`",
        false,
        &["<not>", "<until>", "A"],
        PatternFault::E50(1),
    ),
    (
        "`<not>` before `<while>`",
        false,
        &["<not>", "<while>", "A"],
        PatternFault::E50(1),
    ),
    (
        "`<not>` before `<deadlock>`",
        false,
        &["<until>", "<not>", "<deadlock>"],
        PatternFault::E50(2),
    ),
    (
        "`<not>` after an end",
        false,
        &["<deadlock>", "<not>", "A"],
        PatternFault::E43(2),
    ),
];

/// What is tried, words repeated a number of times, the words after them, and their fault, if any.
const LONG: &[(&str, &[&str], usize, &[&str], Option<PatternFault>)] = &[
    ("256 labels", &["A"], 256, &[], None),
    ("257 labels", &["A"], 257, &[], Some(PatternFault::E44(257))),
    (
        "256 elements of two words",
        &["<until>", "B"],
        256,
        &[],
        None,
    ),
    (
        "257 elements of two words",
        &["<until>", "B"],
        257,
        &[],
        Some(PatternFault::E44(513)),
    ),
    ("256 repeats", &["<while>", "A"], 256, &[], None),
    (
        "257 repeats",
        &["<while>", "A"],
        257,
        &[],
        Some(PatternFault::E44(513)),
    ),
    (
        "256 repeats of any label, then a label",
        &["<while>", "<any>"],
        256,
        &["A"],
        Some(PatternFault::E44(513)),
    ),
    ("256 complements", &["<not>", "A"], 256, &[], None),
    (
        "257 elements of three words",
        &["<while>", "<not>", "A"],
        257,
        &[],
        Some(PatternFault::E44(769)),
    ),
    (
        "256 elements, an end the last",
        &["A"],
        255,
        &["<deadlock>"],
        None,
    ),
    (
        "a word after 256 elements, an end the last",
        &["A"],
        255,
        &["<deadlock>", "A"],
        Some(PatternFault::E43(257)),
    ),
    (
        "256 elements, a refused set the last",
        &["A"],
        255,
        &["<refuses>", "A"],
        None,
    ),
    (
        "a word after 256 elements, a refused set the last",
        &["A"],
        255,
        &["<refuses>", "A", "A"],
        Some(PatternFault::E43(258)),
    ),
    (
        "a refused set as the 257th element",
        &["A"],
        256,
        &["<refuses>", "A"],
        Some(PatternFault::E44(257)),
    ),
    (
        "`<refuses>` alone as the 256th element",
        &["A"],
        255,
        &["<refuses>"],
        Some(PatternFault::E50(256)),
    ),
    (
        "`<refuses>` alone as the 257th element",
        &["A"],
        256,
        &["<refuses>"],
        Some(PatternFault::E44(257)),
    ),
    (
        "an end as the 257th element",
        &["A"],
        256,
        &["<deadlock>"],
        Some(PatternFault::E44(257)),
    ),
    (
        "`i` after 256 elements",
        &["A"],
        256,
        &["i"],
        Some(PatternFault::E44(257)),
    ),
    (
        "what means nothing after 256 elements",
        &["A"],
        256,
        &["1"],
        Some(PatternFault::E44(257)),
    ),
    (
        "what means nothing as the 256th element",
        &["A"],
        255,
        &["1"],
        Some(PatternFault::E41(256)),
    ),
];

const PRINTED: &[(PatternFault, &str)] = &[
    (
        PatternFault::E41(3),
        "E41 word 3 is neither a label nor an element",
    ),
    (
        PatternFault::E42(10),
        "E42 word 10 needs a label or <deadlock> after it",
    ),
    (PatternFault::E43(2), "E43 word 2 follows an end element"),
    (PatternFault::E44(257), "E44 pattern is over 256 elements"),
    (
        PatternFault::E45(1),
        "E45 word 1 is i, which cannot be observed",
    ),
    (
        PatternFault::E48(2),
        "E48 word 2 needs a label or <any> after it",
    ),
    (PatternFault::E50(3), "E50 word 3 needs a label after it"),
    (PatternFault::E51(2), "E51 word 2 is answered by ever alone"),
    (PatternFault::E99(AllocError), "E99 out of memory"),
];

/// The fault of the words, if they have one.
fn fault_of(alloc: Global, words: &[&str], strong: bool) -> Option<PatternFault> {
    match Pattern::read(alloc, words, strong) {
        Ok(_) => None,
        Err(fault) => Some(fault),
    }
}

fn assert_fault(
    rt: &impl Abort,
    name: &str,
    found: Option<PatternFault>,
    expected: Option<PatternFault>,
) {
    assert_eq!(rt; found, expected, "{}", name);
}

/// Asserts that the words of each row have its fault.
pub fn assert_each_refused(rt: &impl Abort, alloc: Global, rows: &[Refused]) {
    for (name, strong, words, fault) in rows {
        assert_fault(rt, name, fault_of(alloc, words, *strong), Some(*fault));
    }
}

#[test]
fn rejects_labels(rt: HostRuntime) {
    assert_each_refused(&rt, rt.alloc(), REFUSED_LABELS);
}

#[test]
fn rejects_elements(rt: HostRuntime) {
    assert_each_refused(&rt, rt.alloc(), REFUSED_ELEMENTS);
}

#[test]
fn rejects_repetitions(rt: HostRuntime) {
    assert_each_refused(&rt, rt.alloc(), REFUSED_REPETITIONS);
}

#[test]
fn rejects_sets(rt: HostRuntime) {
    assert_each_refused(&rt, rt.alloc(), REFUSED_SETS);
}

#[test]
fn rejects_complements(rt: HostRuntime) {
    assert_each_refused(&rt, rt.alloc(), REFUSED_COMPLEMENTS);
}

/// The words, repeated a number of times, with the words after them.
fn repeated(
    alloc: Global,
    words: &[&'static str],
    count: usize,
    after: &[&'static str],
) -> Result<Vec<&'static str>, AllocError> {
    let mut all = Vec::new(alloc);
    for _ in 0..count {
        all.extend_from_slice(words)?;
    }
    all.extend_from_slice(after)?;
    Ok(all)
}

fn fault_of_repeated(
    alloc: Global,
    words: &[&'static str],
    count: usize,
    after: &[&'static str],
) -> Result<Option<PatternFault>, AllocError> {
    let all = repeated(alloc, words, count, after)?;
    Ok(fault_of(alloc, all.as_slice(), false))
}

#[test]
fn limits_the_elements(rt: HostRuntime) -> Result<(), Fail> {
    for (name, words, count, after, fault) in LONG {
        let found = fault_of_repeated(rt.alloc(), words, *count, after)?;
        assert_fault(&rt, name, found, *fault);
    }
    Ok(())
}

fn assert_printed(
    rt: &impl Abort,
    alloc: Global,
    fault: PatternFault,
    printed: &str,
) -> Result<(), AllocError> {
    let text = fault.to_string(alloc)?;
    assert_text(rt, printed, text.as_str(), printed);
    Ok(())
}

#[test]
fn prints_faults(rt: HostRuntime) -> Result<(), Fail> {
    for (fault, printed) in PRINTED {
        assert_printed(&rt, rt.alloc(), *fault, printed)?;
    }
    Ok(())
}
