//! First differences of two specifications, where a comparison stops, and how many pairs of sets come up.
use super::accepted_text::normal_table_of_text;
use super::cover_run::{label_text, label_texts};
use super::listing_run::spell;
use super::progress_tests::NONE;
use super::set_texts::{HIDDEN_LOOP, LINK, MEETING, SERVER};
use lotos_compare::{CompareFault, Comparison, DifferenceLine, Side, find_first_difference};
use lotos_normal::NormalTable;
use lotos_sets::FormSets;
use lotos_terms::Label;
use lotos_text::Name;
use std::alloc::{AllocError, Global};
use std::process::Abort;
use std::test::Fail;

/// More normal forms and pairs than any of these has.
const ALL: usize = 1_000;

/// What the link is to provide.
const SERVICE: &str =
    "specification S [put, get] : noexit behaviour P [put, get] where process P [put, get] : noexit := put; get; P [put, get] endproc endspec";

/// A server that offers both answers.
const CHOICE_SERVER: &str =
    "specification D [req, rsp, nak] : noexit behaviour S [req, rsp, nak] where process S [req, rsp, nak] : noexit := req; (rsp; S [req, rsp, nak] [] nak; S [req, rsp, nak]) endproc endspec";

/// A server that never refuses.
const SURE_SERVER: &str =
    "specification D [req, rsp] : noexit behaviour S [req, rsp] where process S [req, rsp] : noexit := req; rsp; S [req, rsp] endproc endspec";

const LATE_CHOICE: &str =
    "specification T [a, b, c] : noexit behaviour a; (b; stop [] c; stop) endspec";

const EARLY_CHOICE: &str =
    "specification T [a, b, c] : noexit behaviour a; b; stop [] a; c; stop endspec";

const PLAIN_MEETING: &str = "specification G [a, b, c] : exit behaviour a; b; c; exit endspec";

const LONGER_MEETING: &str =
    "specification G [a, b, c] : exit behaviour a; b; (c; exit [] i; b; exit) endspec";

const STOPPING_LOOP: &str =
    "specification V [a, b] : noexit behaviour P [a, b] where process P [a, b] : noexit := a; (i; P [a, b] [] b; stop) endproc endspec";

/// Two specifications, whether internal steps are observed, whether the first is to be within the second, and the first
/// line.
type Row = (&'static str, &'static str, bool, bool, &'static str);

const LINES: &[Row] = &[
    (LINK, SERVICE, false, false, "< PUT GET GET"),
    (SERVICE, LINK, false, false, "> PUT GET GET"),
    (SERVICE, LINK, false, true, "3 pairs"),
    (LINK, SERVICE, false, true, "< PUT GET GET"),
    (SERVER, CHOICE_SERVER, false, false, "2 pairs"),
    (SERVER, SURE_SERVER, false, false, "< REQ NAK"),
    (SURE_SERVER, SERVER, false, true, "2 pairs"),
    (LATE_CHOICE, EARLY_CHOICE, false, false, "3 pairs"),
    (MEETING, PLAIN_MEETING, false, false, "5 pairs"),
    (MEETING, PLAIN_MEETING, true, false, "> A B"),
    (MEETING, LONGER_MEETING, false, false, "> A B B"),
    (HIDDEN_LOOP, STOPPING_LOOP, false, false, "3 pairs"),
    (STOPPING_LOOP, HIDDEN_LOOP, false, true, "3 pairs"),
];

/// Two specifications, whether internal steps are observed, whether the first is to be within the second, and the first
/// line, if there is one; as sets of terms give them, which the inference rules lead to.
const RANDOM_LINES: &[Row] = &[
    (
        "specification S [a,b,c] : noexit behaviour b; c; stop endspec",
        "specification S [a,b,c] : exit behaviour b; c; (exit [] exit) endspec",
        false,
        false,
        "> B C exit",
    ),
    (
        "specification S [a,b,c] : exit behaviour (c; (exit [] exit)) >> (a; (exit >> exit)) endspec",
        "specification S [a,b,c] : noexit behaviour ((c; (stop [> (exit [> stop))) >> (((exit ||| exit) [] (exit |[a,c]| exit)) [] stop)) >> (a; stop) endspec",
        true,
        false,
        "< C i A",
    ),
    (
        "specification S [a,b,c] : exit behaviour P1 [b,c] >> (a; ((b; b; exit) [] P0 [a,c])) where process P0 [y,z] : exit := z; ((y; (stop [] exit)) >> P1 [z,y]) endproc process P1 [y,x] : exit := y; x; (exit [] exit) endproc endspec",
        "specification S [a,b,c] : exit behaviour P1 [b,c] >> (a; ((b; b; exit) [] P0 [a,c])) where process P0 [y,z] : exit := z; P0 [z,y] endproc process P1 [y,x] : exit := y; x; (exit [] exit) endproc endspec",
        true,
        true,
        "< B C i A C A i",
    ),
    (
        "specification S [a,b,c] : noexit behaviour (((exit >> stop) [] (c; stop)) ||| ((hide a,b in stop) |[a]| P0 [c])) where process P0 [x] : exit := x; x; x; exit endproc endspec",
        "specification S [a,b,c] : noexit behaviour (((exit >> stop) [] (c; stop)) ||| ((hide a,b in stop) |[a]| P0 [c])) where process P0 [x] : exit := x; i; (exit >> exit) endproc endspec",
        false,
        false,
        "< C C C",
    ),
    (
        "specification S [a,b,c] : exit behaviour c; P1 [b,c] where process P1 [z,x] : exit := z; (exit ||| exit) endproc endspec",
        "specification S [a,b,c] : exit behaviour c; P1 [b,c] where process P1 [z,x] : exit := z; P1 [x,z] endproc endspec",
        false,
        false,
        "> C B C",
    ),
    (
        "specification S [a,b,c] : noexit behaviour a; (((c; P1 [a]) [> (i; (stop [> stop))) [> (((hide b in stop) ||| (a; stop)) [] P0 [a])) where process P0 [y] : noexit := i; y; ((hide y in stop) |[y]| P0 [y]) endproc process P1 [x] : noexit := (x; P1 [x]) [> (P0 [x] [] (hide x in stop)) endproc endspec",
        "specification S [a,b,c] : noexit behaviour a; (((c; P1 [a]) [> (i; (stop [> stop))) [> (((hide b in stop) ||| (a; stop)) [] P0 [a])) where process P0 [y] : noexit := i; y; ((hide y in stop) |[y]| P0 [y]) endproc process P1 [x] : noexit := P0 [x] endproc endspec",
        false,
        true,
        "< A C A A A",
    ),
];

/// A specification, and how many sets of normal forms its sequences reach.
const SAME: &[(&str, &str)] = &[
    (LINK, "5 pairs"),
    (SERVICE, "2 pairs"),
    (SERVER, "2 pairs"),
    (HIDDEN_LOOP, "3 pairs"),
    (MEETING, "5 pairs"),
    (EARLY_CHOICE, "3 pairs"),
];

/// Specifications whose gates are not the same, so that a gate has another number in each.
const OTHER_GATES: &[Row] = &[
    (ONE_GATE, TWO_GATES, false, false, "> A"),
    (ONE_GATE, TWO_GATES, false, true, "2 pairs"),
    (TWO_GATES, ONE_GATE, false, true, "< A"),
    (ONE_GATE, LAST_GATE, false, false, "< B"),
    (LAST_GATE, ONE_GATE, false, false, "> B"),
    (LAST_GATE, ONE_GATE, false, true, "< Z"),
    (LAST_GATE, TERMINATION, false, false, "< Z"),
    (TERMINATION, LAST_GATE, false, false, "> Z"),
    (TERMINATION, LAST_GATE, false, true, "< exit"),
    (FIRST_INTERNAL, ONE_GATE, true, false, "> B"),
    (FIRST_INTERNAL, ONE_GATE, true, true, "< i"),
    (FIRST_INTERNAL, ONE_GATE, false, false, "2 pairs"),
];

const ONE_GATE: &str = "specification S [b] : noexit behaviour b; stop endspec";

const TWO_GATES: &str = "specification S [a,b] : noexit behaviour a; stop [] b; stop endspec";

const LAST_GATE: &str = "specification S [z] : noexit behaviour z; stop endspec";

const TERMINATION: &str = "specification S : exit behaviour exit endspec";

const FIRST_INTERNAL: &str = "specification S [b] : noexit behaviour i; b; stop endspec";

/// Two specifications, the bounds on their normal forms and on the pairs, and what is returned.
type Bounded = (
    &'static str,
    &'static str,
    usize,
    usize,
    usize,
    &'static str,
);

const STOPS: &[Bounded] = &[
    (LINK, SERVICE, 0, 0, 0, "over terms of the first <empty>"),
    (LINK, SERVICE, ALL, 0, 0, "over terms of the second <empty>"),
    (LINK, SERVICE, ALL, ALL, 0, "over pairs <empty>"),
    (LINK, SERVICE, ALL, ALL, 2, "over pairs PUT GET"),
    (LINK, SERVICE, ALL, 1, 3, "< PUT GET GET"),
    (
        HIDDEN_LOOP,
        STOPPING_LOOP,
        1,
        1,
        ALL,
        "over terms of the first A",
    ),
    (
        HIDDEN_LOOP,
        STOPPING_LOOP,
        2,
        1,
        ALL,
        "over terms of the second A",
    ),
    (HIDDEN_LOOP, STOPPING_LOOP, 2, 2, 1, "over pairs A"),
    (HIDDEN_LOOP, STOPPING_LOOP, 2, 2, 2, "over pairs A B"),
    (HIDDEN_LOOP, STOPPING_LOOP, 2, 2, 3, "3 pairs"),
];

/// The sets of a specification, none of which is made yet.
fn sets_of(alloc: Global, text: &str, strong: bool, terms: usize) -> Result<Box<FormSets>, Fail> {
    let table = normal_table_of_text(alloc, text)?;
    Ok(boxed_sets(alloc, table, strong, terms)?)
}

fn boxed_sets(
    alloc: Global,
    table: Box<NormalTable>,
    strong: bool,
    terms: usize,
) -> Result<Box<FormSets>, AllocError> {
    let sets = FormSets::new(alloc, Box::into_inner(table), strong, terms);
    Ok(Box::new(alloc, sets)?)
}

/// A line as text.
fn line_text(
    alloc: Global,
    firsts: &[Name],
    seconds: &[Name],
    line: &DifferenceLine,
) -> Result<String, Fail> {
    let (mark, gates) = match line.side {
        Side::First => ("< ", firsts),
        Side::Second => ("> ", seconds),
    };
    let mut texts = label_texts(alloc, firsts, line.sequence.as_slice())?;
    texts.push(label_text(gates, line.label)?)?;
    let mut out = String::from_str(alloc, mark)?;
    spell(&mut out, texts.as_slice())?;
    Ok(out)
}

/// These words and the sequence of these labels.
fn stop_text(alloc: Global, gates: &[Name], words: &str, labels: &[Label]) -> Result<String, Fail> {
    let mut text = String::from_str(alloc, words)?;
    let labels = label_texts(alloc, gates, labels)?;
    spell(&mut text, labels.as_slice())?;
    Ok(text)
}

/// What a comparison returns, as text.
fn compared(
    alloc: Global,
    first: &mut FormSets,
    second: &mut FormSets,
    within: bool,
    pairs: usize,
) -> Result<String, Fail> {
    let mut visits = NONE;
    let found = find_first_difference(alloc, first, second, within, pairs, &mut visits);
    let gates = first.table().gates();
    match found {
        Ok(Comparison::Alike(count)) => Ok(format!(in alloc; "{count} pairs")?),
        Ok(Comparison::Differs(line)) => { line_text(alloc, gates, second.table().gates(), &line) }
        Err(CompareFault::OverTerms(Side::First, labels)) => {
            stop_text(alloc, gates, "over terms of the first ", labels.as_slice())
        }
        Err(CompareFault::OverTerms(Side::Second, labels)) => {
            stop_text(alloc, gates, "over terms of the second ", labels.as_slice())
        }
        Err(CompareFault::OverPairs(labels)) => {
            stop_text(alloc, gates, "over pairs ", labels.as_slice())
        }
        Err(CompareFault::Memory) => Err("memory is wanting")?,
    }
}

fn assert_line(rt: &impl Abort, alloc: Global, row: &Row) -> Result<(), Fail> {
    let (one, other, strong, within, expected) = *row;
    let mut first = sets_of(alloc, one, strong, ALL)?;
    let mut second = sets_of(alloc, other, strong, ALL)?;
    let found = compared(alloc, &mut first, &mut second, within, ALL)?;
    assert_eq!(rt;
        found.as_str(),
        expected,
        "{one} and {other}, internal steps observed: {strong}, the first within the second: {within}"
    );
    Ok(())
}

#[test]
fn finds_first_differences(rt: HostRuntime) -> Result<(), Fail> {
    for row in LINES {
        assert_line(&rt, rt.alloc(), row)?;
    }
    Ok(())
}

#[test]
fn finds_first_differences_of_random_pairs(rt: HostRuntime) -> Result<(), Fail> {
    for row in RANDOM_LINES {
        assert_line(&rt, rt.alloc(), row)?;
    }
    Ok(())
}

#[test]
fn compares_labels_by_their_texts(rt: HostRuntime) -> Result<(), Fail> {
    for row in OTHER_GATES {
        assert_line(&rt, rt.alloc(), row)?;
    }
    Ok(())
}

#[test]
fn has_no_line_with_itself(rt: HostRuntime) -> Result<(), Fail> {
    for (text, expected) in SAME {
        assert_line(&rt, rt.alloc(), &(text, text, false, false, expected))?;
    }
    Ok(())
}

fn assert_stop(rt: &impl Abort, alloc: Global, row: &Bounded) -> Result<(), Fail> {
    let (one, other, terms, other_terms, pairs, expected) = *row;
    let mut first = sets_of(alloc, one, false, terms)?;
    let mut second = sets_of(alloc, other, false, other_terms)?;
    let found = compared(alloc, &mut first, &mut second, false, pairs)?;
    assert_eq!(rt;
        found.as_str(),
        expected,
        "{one} and {other}, at most {terms} and {other_terms} terms and {pairs} pairs"
    );
    Ok(())
}

#[test]
fn stops_at_the_first_sequence_beyond_a_bound(rt: HostRuntime) -> Result<(), Fail> {
    for row in STOPS {
        assert_stop(&rt, rt.alloc(), row)?;
    }
    Ok(())
}
