//! Small patterns, compared with the definition of what they match.
use super::sequence_ends::{end_after, is_refused};
use lotos_pattern::{End, Pattern, PatternFault};
use std::alloc::{AllocError, Global};
use std::process::Abort;
use std::test::Fail;

/// A set of labels that the end must refuse, as the definition has it.
#[derive(Clone, Copy)]
enum Refused {
    These(&'static [&'static str]),
    Others(&'static [&'static str]),
}

/// All labels.
const ALL_LABELS: Refused = Refused::Others(&[]);

impl Refused {
    fn has(self, label: &str) -> bool {
        match self {
            Refused::These(labels) => labels.contains(&label),
            Refused::Others(labels) => !labels.contains(&label),
        }
    }
}

/// An element, as the definition has it.
enum Part {
    One(&'static str),
    Any,
    Until(&'static str),
    While(&'static str),
    WhileAny,
    OneOf(&'static [&'static str]),
    OneOutside(&'static [&'static str]),
    UntilOneOf(&'static [&'static str]),
    UntilOutside(&'static [&'static str]),
    WhileInside(&'static [&'static str]),
    WhileOutside(&'static [&'static str]),
    Refuses(Refused),
    UntilRefuses(Refused),
}

/// A small pattern: its words, and its elements. At most two elements need a label.
type Row = (&'static [&'static str], &'static [Part]);

/// Patterns that repeat nothing but what `<until>` passes over.
const WITHOUT_REPETITIONS: &[Row] = &[
    (&[], &[]),
    (&["A"], &[Part::One("A")]),
    (&["<any>"], &[Part::Any]),
    (&["<until>", "B"], &[Part::Until("B")]),
    (&["<deadlock>"], &[Part::Refuses(ALL_LABELS)]),
    (
        &["<until>", "<deadlock>"],
        &[Part::UntilRefuses(ALL_LABELS)],
    ),
    (&["A", "B"], &[Part::One("A"), Part::One("B")]),
    (&["<any>", "exit"], &[Part::Any, Part::One("exit")]),
    (
        &["<until>", "A", "<until>", "A"],
        &[Part::Until("A"), Part::Until("A")],
    ),
    (
        &["<until>", "exit", "<any>"],
        &[Part::Until("exit"), Part::Any],
    ),
    (&["<until>", "B", "A"], &[Part::Until("B"), Part::One("A")]),
    (
        &["A", "<deadlock>"],
        &[Part::One("A"), Part::Refuses(ALL_LABELS)],
    ),
    (
        &["<until>", "B", "<deadlock>"],
        &[Part::Until("B"), Part::Refuses(ALL_LABELS)],
    ),
    (
        &["<any>", "<until>", "<deadlock>"],
        &[Part::Any, Part::UntilRefuses(ALL_LABELS)],
    ),
    (
        &["B", "<until>", "A", "<until>", "<deadlock>"],
        &[
            Part::One("B"),
            Part::Until("A"),
            Part::UntilRefuses(ALL_LABELS),
        ],
    ),
];

/// Patterns whose end must refuse a set.
const REFUSALS: &[Row] = &[
    (
        &["<refuses>", "A"],
        &[Part::Refuses(Refused::These(&["A"]))],
    ),
    (
        &["<refuses>", "A,exit"],
        &[Part::Refuses(Refused::These(&["A", "exit"]))],
    ),
    (
        &["<refuses>", "<not>", "B"],
        &[Part::Refuses(Refused::Others(&["B"]))],
    ),
    (&["<refuses>", "<any>"], &[Part::Refuses(ALL_LABELS)]),
    (
        &["<until>", "<refuses>", "B"],
        &[Part::UntilRefuses(Refused::These(&["B"]))],
    ),
    (
        &["<until>", "<refuses>", "<not>", "A,B"],
        &[Part::UntilRefuses(Refused::Others(&["A", "B"]))],
    ),
    (
        &["<until>", "<refuses>", "<any>"],
        &[Part::UntilRefuses(ALL_LABELS)],
    ),
];

/// Patterns with other elements before the demand that the end refuses a set.
const REFUSALS_AFTER_OTHERS: &[Row] = &[
    (
        &["A", "<refuses>", "A"],
        &[Part::One("A"), Part::Refuses(Refused::These(&["A"]))],
    ),
    (
        &["<until>", "B", "<refuses>", "A,B"],
        &[Part::Until("B"), Part::Refuses(Refused::These(&["A", "B"]))],
    ),
    (
        &["<while>", "A", "<refuses>", "<not>", "A"],
        &[Part::While("A"), Part::Refuses(Refused::Others(&["A"]))],
    ),
    (
        &["<while>", "<any>", "B", "<refuses>", "exit"],
        &[
            Part::WhileAny,
            Part::One("B"),
            Part::Refuses(Refused::These(&["exit"])),
        ],
    ),
    (
        &["<not>", "B", "<until>", "<refuses>", "B"],
        &[
            Part::OneOutside(&["B"]),
            Part::UntilRefuses(Refused::These(&["B"])),
        ],
    ),
    (
        &["B", "<until>", "A", "<until>", "<refuses>", "<not>", "B"],
        &[
            Part::One("B"),
            Part::Until("A"),
            Part::UntilRefuses(Refused::Others(&["B"])),
        ],
    ),
];

/// Patterns with repetitions.
const REPETITIONS: &[Row] = &[
    (&["<while>", "A"], &[Part::While("A")]),
    (&["<while>", "<any>"], &[Part::WhileAny]),
    (
        &["<while>", "<any>", "B"],
        &[Part::WhileAny, Part::One("B")],
    ),
    (&["A", "<while>", "B"], &[Part::One("A"), Part::While("B")]),
    (
        &["<while>", "A", "<while>", "A", "<any>"],
        &[Part::While("A"), Part::While("A"), Part::Any],
    ),
    (
        &["<while>", "<any>", "<deadlock>"],
        &[Part::WhileAny, Part::Refuses(ALL_LABELS)],
    ),
    (
        &["<while>", "A", "<deadlock>"],
        &[Part::While("A"), Part::Refuses(ALL_LABELS)],
    ),
    (&["<while>", "A", "A"], &[Part::While("A"), Part::One("A")]),
    (
        &["<while>", "A", "B", "<while>", "A"],
        &[Part::While("A"), Part::One("B"), Part::While("A")],
    ),
    (
        &["<while>", "A", "<while>", "B", "<while>", "A"],
        &[Part::While("A"), Part::While("B"), Part::While("A")],
    ),
];

/// Patterns with repetitions before and after other elements.
const LONGER_REPETITIONS: &[Row] = &[
    (
        &["<while>", "A", "<until>", "A", "<while>", "B"],
        &[Part::While("A"), Part::Until("A"), Part::While("B")],
    ),
    (
        &["<until>", "B", "<while>", "B", "B"],
        &[Part::Until("B"), Part::While("B"), Part::One("B")],
    ),
    (
        &["<any>", "<while>", "exit", "<any>"],
        &[Part::Any, Part::While("exit"), Part::Any],
    ),
    (
        &["<while>", "<any>", "<while>", "A", "B", "<deadlock>"],
        &[
            Part::WhileAny,
            Part::While("A"),
            Part::One("B"),
            Part::Refuses(ALL_LABELS),
        ],
    ),
    (
        &["<while>", "A", "<while>", "B", "<deadlock>"],
        &[
            Part::While("A"),
            Part::While("B"),
            Part::Refuses(ALL_LABELS),
        ],
    ),
    (
        &["<while>", "B", "<until>", "<deadlock>"],
        &[Part::While("B"), Part::UntilRefuses(ALL_LABELS)],
    ),
    (
        &["<while>", "<any>", "<any>", "<while>", "<any>"],
        &[Part::WhileAny, Part::Any, Part::WhileAny],
    ),
    (
        &["A", "<while>", "A", "B", "<while>", "B", "<deadlock>"],
        &[
            Part::One("A"),
            Part::While("A"),
            Part::One("B"),
            Part::While("B"),
            Part::Refuses(ALL_LABELS),
        ],
    ),
    (
        &["<while>", "exit", "exit"],
        &[Part::While("exit"), Part::One("exit")],
    ),
    (
        &["<while>", "A", "B", "<while>", "<any>", "A"],
        &[
            Part::While("A"),
            Part::One("B"),
            Part::WhileAny,
            Part::One("A"),
        ],
    ),
];

/// Patterns of sets of labels.
const SETS: &[Row] = &[
    (&["A,exit"], &[Part::OneOf(&["A", "exit"])]),
    (&["B,B,b"], &[Part::OneOf(&["B"])]),
    (&["<not>", "A"], &[Part::OneOutside(&["A"])]),
    (&["<not>", "exit,A"], &[Part::OneOutside(&["A", "exit"])]),
    (&["<until>", "A,exit"], &[Part::UntilOneOf(&["A", "exit"])]),
    (&["<until>", "<not>", "B"], &[Part::UntilOutside(&["B"])]),
    (&["<while>", "A,B"], &[Part::WhileInside(&["A", "B"])]),
    (&["<while>", "<not>", "B"], &[Part::WhileOutside(&["B"])]),
    (
        &["<while>", "<not>", "A", "A,B"],
        &[Part::WhileOutside(&["A"]), Part::OneOf(&["A", "B"])],
    ),
    (
        &["A", "<while>", "<not>", "B,exit", "exit"],
        &[
            Part::One("A"),
            Part::WhileOutside(&["B", "exit"]),
            Part::One("exit"),
        ],
    ),
];

/// Patterns of sets of labels before and after other elements.
const SETS_AMONG_OTHERS: &[Row] = &[
    (
        &["<while>", "<any>", "A", "<while>", "<not>", "B", "A"],
        &[
            Part::WhileAny,
            Part::One("A"),
            Part::WhileOutside(&["B"]),
            Part::One("A"),
        ],
    ),
    (
        &["<until>", "A,B", "<until>", "<not>", "A"],
        &[Part::UntilOneOf(&["A", "B"]), Part::UntilOutside(&["A"])],
    ),
    (
        &["<while>", "A,B", "<not>", "A", "<deadlock>"],
        &[
            Part::WhileInside(&["A", "B"]),
            Part::OneOutside(&["A"]),
            Part::Refuses(ALL_LABELS),
        ],
    ),
    (
        &["<not>", "B", "<until>", "<deadlock>"],
        &[Part::OneOutside(&["B"]), Part::UntilRefuses(ALL_LABELS)],
    ),
];

/// Patterns of sets of labels, where internal steps are observed.
const SETS_OF_INTERNAL_STEPS: &[Row] = &[
    (&["A,i"], &[Part::OneOf(&["A", "i"])]),
    (&["<not>", "i"], &[Part::OneOutside(&["i"])]),
    (
        &["<not>", "A,B,exit"],
        &[Part::OneOutside(&["A", "B", "exit"])],
    ),
    (
        &["<until>", "<not>", "i,A"],
        &[Part::UntilOutside(&["i", "A"])],
    ),
    (
        &["<while>", "<not>", "i", "i"],
        &[Part::WhileOutside(&["i"]), Part::One("i")],
    ),
    (
        &["<while>", "A,i", "<while>", "<not>", "A"],
        &[Part::WhileInside(&["A", "i"]), Part::WhileOutside(&["A"])],
    ),
];

/// Patterns of internal steps, which are observed.
const INTERNAL_STEPS: &[Row] = &[
    (&["i"], &[Part::One("i")]),
    (&["<until>", "i"], &[Part::Until("i")]),
    (&["<while>", "i"], &[Part::While("i")]),
    (&["<while>", "i", "A"], &[Part::While("i"), Part::One("A")]),
    (
        &["<any>", "<while>", "i", "i"],
        &[Part::Any, Part::While("i"), Part::One("i")],
    ),
    (
        &["A", "<while>", "i", "<deadlock>"],
        &[Part::One("A"), Part::While("i"), Part::Refuses(ALL_LABELS)],
    ),
    (
        &["<until>", "i", "<while>", "A", "<until>", "<deadlock>"],
        &[
            Part::Until("i"),
            Part::While("A"),
            Part::UntilRefuses(ALL_LABELS),
        ],
    ),
    (
        &["<while>", "A", "i", "<while>", "A"],
        &[Part::While("A"), Part::One("i"), Part::While("A")],
    ),
];

/// Patterns whose end must refuse a set, where internal steps are observed.
const REFUSALS_OF_INTERNAL_STEPS: &[Row] = &[
    (
        &["<refuses>", "i"],
        &[Part::Refuses(Refused::These(&["i"]))],
    ),
    (
        &["<refuses>", "<not>", "i"],
        &[Part::Refuses(Refused::Others(&["i"]))],
    ),
    (
        &["<until>", "<refuses>", "A,i"],
        &[Part::UntilRefuses(Refused::These(&["A", "i"]))],
    ),
    (
        &["<while>", "i", "<refuses>", "<not>", "A,i"],
        &[
            Part::While("i"),
            Part::Refuses(Refused::Others(&["A", "i"])),
        ],
    ),
    (
        &["A", "<while>", "i", "<until>", "<refuses>", "<not>", "i"],
        &[
            Part::One("A"),
            Part::While("i"),
            Part::UntilRefuses(Refused::Others(&["i"])),
        ],
    ),
];

pub const LABELS: [&str; 4] = ["A", "B", "exit", "i"];

/// Lengths, with the number of sequences of that length.
const COUNTS: [(usize, usize); 5] = [(0, 1), (1, 4), (2, 16), (3, 64), (4, 256)];

/// The most labels that complete a sequence: no small pattern has more elements that need one.
const MOST_MORE: usize = 2;

/// The language of a pattern, by the definition.
#[derive(Clone, Copy)]
struct Language<'p> {
    parts: &'p [Part],
    strong: bool,
}

impl<'p> Language<'p> {
    /// Whether the sequence may end; none if neither it nor an extension of it is matched.
    fn end_behind(
        self,
        alloc: Global,
        labels: &[&'static str],
        more: &[Vec<&'static str>],
    ) -> Result<Option<End>, AllocError> {
        if self.has(labels) {
            return Ok(Some(self.end()));
        }
        let mut whole = Vec::new(alloc);
        for others in more {
            if others.len() <= MOST_MORE {
                whole.clear();
                whole.extend_from_slice(labels)?;
                whole.extend_from_slice(others.as_slice())?;
                if self.has(whole.as_slice()) {
                    return Ok(Some(End::No));
                }
            }
        }
        Ok(None)
    }

    fn has(self, labels: &[&str]) -> bool {
        (self.strong || !labels.contains(&"i")) && is_matched(self.parts, labels)
    }

    fn end(self) -> End {
        match self.refused() {
            Some(_) => End::IfRefuses,
            None => End::Yes,
        }
    }

    /// The set that the end must refuse, if there is one.
    fn refused(self) -> Option<Refused> {
        match self.parts.last() {
            Some(Part::Refuses(set)) => Some(*set),
            Some(Part::UntilRefuses(set)) => Some(*set),
            _ => None,
        }
    }

    /// Whether the end must refuse the label; none if it need not refuse a set.
    fn refuses(self, label: &str) -> Option<bool> {
        Some(self.refused()?.has(label))
    }
}

/// Whether the labels can be split into a segment for each of the parts in turn.
fn is_matched(parts: &[Part], labels: &[&str]) -> bool {
    let Some((first, others)) = parts.split_first() else {
        return labels.is_empty();
    };
    for cut in 0..=labels.len() {
        if is_segment(first, &labels[..cut]) && is_matched(others, &labels[cut..]) {
            return true;
        }
    }
    false
}

fn is_segment(part: &Part, labels: &[&str]) -> bool {
    match part {
        Part::One(own) => labels.len() == 1 && labels[0] == *own,
        Part::Any => labels.len() == 1,
        Part::Until(own) => match labels.split_last() {
            Some((last, others)) => *last == *own && !others.contains(own),
            None => false,
        },
        Part::While(own) => labels.iter().all(|label| *label == *own),
        Part::WhileAny => true,
        Part::OneOf(set) => labels.len() == 1 && set.contains(&labels[0]),
        Part::OneOutside(set) => labels.len() == 1 && !set.contains(&labels[0]),
        Part::UntilOneOf(set) => match labels.split_last() {
            Some((last, before)) => {
                set.contains(last) && !before.iter().any(|label| set.contains(label))
            }
            None => false,
        },
        Part::UntilOutside(set) => match labels.split_last() {
            Some((last, before)) => {
                !set.contains(last) && before.iter().all(|label| set.contains(label))
            }
            None => false,
        },
        Part::WhileInside(set) => labels.iter().all(|label| set.contains(label)),
        Part::WhileOutside(set) => !labels.iter().any(|label| set.contains(label)),
        Part::Refuses(_) => labels.is_empty(),
        Part::UntilRefuses(_) => true,
    }
}

/// The sequences of up to four labels.
pub fn sequences(alloc: Global) -> Result<Vec<Vec<&'static str>>, AllocError> {
    let mut all = Vec::new(alloc);
    for (length, count) in COUNTS {
        for number in 0..count {
            all.push(sequence(alloc, length, number)?)?;
        }
    }
    Ok(all)
}

/// The sequence of this length whose labels are the digits of the number in base 4, the least first.
fn sequence(alloc: Global, length: usize, number: usize) -> Result<Vec<&'static str>, AllocError> {
    let mut labels = Vec::new(alloc);
    let mut left = number;
    for _ in 0..length {
        labels.push(LABELS[left % 4])?;
        left /= 4;
    }
    Ok(labels)
}

/// The first sequence at which the pattern of the words answers otherwise than the definition, and the first label that
/// its end must refuse otherwise; none if there is none.
fn first_differences(
    alloc: Global,
    words: &[&str],
    language: Language,
    all: &[Vec<&'static str>],
) -> Result<(Option<usize>, Option<usize>), PatternFault> {
    let pattern = Pattern::read(alloc, words, language.strong)?;
    let refusal = first_other_refusal(&pattern, language);
    Ok((first_other_end(alloc, &pattern, language, all)?, refusal))
}

fn first_other_end(
    alloc: Global,
    pattern: &Pattern,
    language: Language,
    all: &[Vec<&'static str>],
) -> Result<Option<usize>, AllocError> {
    for index in 0..all.len() {
        let labels = all[index].as_slice();
        if end_after(pattern, labels) != language.end_behind(alloc, labels, all)? {
            return Ok(Some(index));
        }
    }
    Ok(None)
}

fn first_other_refusal(pattern: &Pattern, language: Language) -> Option<usize> {
    for index in 0..LABELS.len() {
        if is_refused(pattern, LABELS[index]) != language.refuses(LABELS[index]) {
            return Some(index);
        }
    }
    None
}

/// Asserts that each sequence of up to four labels has a place exactly if it or an extension by up to two labels is
/// matched, and may end exactly if it is matched itself, and that each label must be refused exactly if it is in the
/// set that the last element demands.
fn assert_language(
    rt: &impl Abort,
    alloc: Global,
    words: &[&str],
    language: Language,
    all: &[Vec<&'static str>],
) -> Result<(), PatternFault> {
    let differences = first_differences(alloc, words, language, all)?;
    assert_eq!(rt;
        differences,
        (None, None),
        "{:?}, internal steps observed: {}",
        words,
        language.strong
    );
    Ok(())
}

/// Asserts it for each pattern, where internal steps are observed if `strong` is set.
fn assert_languages(
    rt: &impl Abort,
    alloc: Global,
    rows: &[Row],
    strong: bool,
) -> Result<(), PatternFault> {
    let all = sequences(alloc)?;
    for (words, parts) in rows {
        let language = Language { parts, strong };
        assert_language(rt, alloc, words, language, all.as_slice())?;
    }
    Ok(())
}

/// Asserts it for each pattern, where internal steps are not observed, and where they are.
fn assert_both(rt: &impl Abort, alloc: Global, rows: &[Row]) -> Result<(), PatternFault> {
    assert_languages(rt, alloc, rows, false)?;
    assert_languages(rt, alloc, rows, true)
}

#[test]
fn matches_without_repetitions(rt: HostRuntime) -> Result<(), Fail> {
    Ok(assert_both(&rt, rt.alloc(), WITHOUT_REPETITIONS)?)
}

#[test]
fn matches_refusals(rt: HostRuntime) -> Result<(), Fail> {
    Ok(assert_both(&rt, rt.alloc(), REFUSALS)?)
}

#[test]
fn matches_refusals_after_others(rt: HostRuntime) -> Result<(), Fail> {
    Ok(assert_both(&rt, rt.alloc(), REFUSALS_AFTER_OTHERS)?)
}

#[test]
fn matches_refusals_of_internal_steps(rt: HostRuntime) -> Result<(), Fail> {
    Ok(assert_languages(&rt, rt.alloc(), REFUSALS_OF_INTERNAL_STEPS, true)?)
}

#[test]
fn matches_repetitions(rt: HostRuntime) -> Result<(), Fail> {
    Ok(assert_both(&rt, rt.alloc(), REPETITIONS)?)
}

#[test]
fn matches_longer_repetitions(rt: HostRuntime) -> Result<(), Fail> {
    Ok(assert_both(&rt, rt.alloc(), LONGER_REPETITIONS)?)
}

#[test]
fn matches_internal_steps(rt: HostRuntime) -> Result<(), Fail> {
    Ok(assert_languages(&rt, rt.alloc(), INTERNAL_STEPS, true)?)
}

#[test]
fn matches_sets(rt: HostRuntime) -> Result<(), Fail> {
    Ok(assert_both(&rt, rt.alloc(), SETS)?)
}

#[test]
fn matches_sets_among_others(rt: HostRuntime) -> Result<(), Fail> {
    Ok(assert_both(&rt, rt.alloc(), SETS_AMONG_OTHERS)?)
}

#[test]
fn matches_sets_of_internal_steps(rt: HostRuntime) -> Result<(), Fail> {
    Ok(assert_languages(&rt, rt.alloc(), SETS_OF_INTERNAL_STEPS, true)?)
}
