//! Words that nearly spell demands on the end, with their faults.
use super::fault_tests::{Refused, assert_each_refused};
use lotos_pattern::PatternFault;

/// Words that ask for what can come after the end.
const REFUSED_FUTURES: &[Refused] = &[
    ("`<livelock>`", false, &["<livelock>"], PatternFault::E51(1)),
    (
        "`<never>`, `i` shown",
        true,
        &["i", "<never>", "A"],
        PatternFault::E51(2),
    ),
    (
        "`<forever>` after `<until>`",
        false,
        &["A", "<until>", "<ForEver>"],
        PatternFault::E51(3),
    ),
    (
        "`<never>` after `<while>`",
        false,
        &["<while>", "<never>"],
        PatternFault::E48(1),
    ),
    (
        "`<livelock>` after `<not>`",
        false,
        &["<not>", "<livelock>"],
        PatternFault::E50(1),
    ),
    (
        "`<livelock>` after a deadlock",
        false,
        &["<deadlock>", "<livelock>"],
        PatternFault::E43(2),
    ),
];

/// Words that nearly spell demands that the end refuses a set.
const REFUSED_DEMANDS: &[Refused] = &[
    (
        "`<refuses>` alone",
        false,
        &["<refuses>"],
        PatternFault::E50(1),
    ),
    (
        "`<refuses>` last, in mixed case",
        false,
        &["A", "<ReFuSeS>"],
        PatternFault::E50(2),
    ),
    (
        "`<refuses>` last, `i` shown",
        true,
        &["i", "<refuses>"],
        PatternFault::E50(2),
    ),
    (
        "`<refuses>` before `<while>`",
        false,
        &["<refuses>", "<while>", "A"],
        PatternFault::E50(1),
    ),
    (
        "`<refuses>` before `<until>`",
        false,
        &["B", "<refuses>", "<until>", "A"],
        PatternFault::E50(2),
    ),
    (
        "`<refuses>` before `<deadlock>`",
        false,
        &["<refuses>", "<deadlock>"],
        PatternFault::E50(1),
    ),
    (
        "`<refuses>` before `<refuses>`",
        false,
        &["<refuses>", "<refuses>", "A"],
        PatternFault::E50(1),
    ),
    (
        "`<refuses>` before what means nothing",
        false,
        &["<refuses>", "1"],
        PatternFault::E50(1),
    ),
    (
        "`<refuses>` before two commas",
        false,
        &["A", "B", "<refuses>", "A,,B"],
        PatternFault::E50(3),
    ),
    (
        "`<refuses>` before `i` and a comma",
        false,
        &["<refuses>", "i,"],
        PatternFault::E50(1),
    ),
    (
        "`<not>` last after `<refuses>`",
        false,
        &["<refuses>", "<not>"],
        PatternFault::E50(2),
    ),
    (
        "`<not>` before `<any>` after `<refuses>`",
        false,
        &["<refuses>", "<not>", "<any>"],
        PatternFault::E50(2),
    ),
    (
        "`<not>` before `<refuses>`",
        false,
        &["<not>", "<refuses>", "A"],
        PatternFault::E50(1),
    ),
    (
        "`<while>` before `<refuses>`",
        false,
        &["<while>", "<refuses>", "A"],
        PatternFault::E48(1),
    ),
    (
        "nearly `<refuses>`",
        false,
        &["<refuse>", "A"],
        PatternFault::E41(1),
    ),
    (
        "`<refuses>` in a set",
        false,
        &["B", "A,<refuses>"],
        PatternFault::E41(2),
    ),
    (
        "`<refuses>` with a label in one word",
        false,
        &["<refuses>A"],
        PatternFault::E41(1),
    ),
];

/// Words that nearly spell any labels before such a demand.
const REFUSED_UNTIL_DEMANDS: &[Refused] = &[
    (
        "`<until>`, and `<refuses>` last",
        false,
        &["<until>", "<refuses>"],
        PatternFault::E50(2),
    ),
    (
        "`<until>`, and `<refuses>` before `<deadlock>`",
        false,
        &["A", "<until>", "<refuses>", "<deadlock>"],
        PatternFault::E50(3),
    ),
    (
        "`<until>`, and `<refuses>` before `<until>`",
        false,
        &["<until>", "<refuses>", "<until>", "A"],
        PatternFault::E50(2),
    ),
    (
        "`<until>`, and `<refuses>` before `<while>`",
        false,
        &["<until>", "<refuses>", "<while>", "A"],
        PatternFault::E50(2),
    ),
    (
        "`<until>`, and `<refuses>` before `<refuses>`",
        false,
        &["<until>", "<refuses>", "<refuses>", "A"],
        PatternFault::E50(2),
    ),
    (
        "`<until>`, `<refuses>`, and `<not>` before `<refuses>`",
        false,
        &["<until>", "<refuses>", "<not>", "<refuses>"],
        PatternFault::E50(3),
    ),
    (
        "`<until>`, and `<not>` before `<refuses>`",
        false,
        &["<until>", "<not>", "<refuses>", "A"],
        PatternFault::E50(2),
    ),
    (
        "`<until>` before what is nearly `<refuses>`",
        false,
        &["<until>", "refuses>", "A"],
        PatternFault::E42(1),
    ),
];

/// Such demands of sets that have the internal action, which is not observed.
const UNOBSERVED_DEMANDS: &[Refused] = &[
    (
        "`i` after `<refuses>`",
        false,
        &["<refuses>", "i"],
        PatternFault::E45(2),
    ),
    (
        "`i` in a set after `<refuses>`",
        false,
        &["A", "<refuses>", "A,I"],
        PatternFault::E45(3),
    ),
    (
        "`i` after `<refuses>` and `<not>`",
        false,
        &["<refuses>", "<not>", "i"],
        PatternFault::E45(3),
    ),
    (
        "`i` after `<until>` and `<refuses>`",
        false,
        &["<until>", "<refuses>", "i"],
        PatternFault::E45(3),
    ),
    (
        "`i` after `<until>`, `<refuses>` and `<not>`",
        false,
        &["B", "<until>", "<refuses>", "<not>", "A,i,B"],
        PatternFault::E45(5),
    ),
];

/// Words after such a demand.
const AFTER_DEMANDS: &[Refused] = &[
    (
        "a label after a refused label",
        false,
        &["<refuses>", "A", "B"],
        PatternFault::E43(3),
    ),
    (
        "`<deadlock>` after a refused label",
        false,
        &["<refuses>", "A", "<deadlock>"],
        PatternFault::E43(3),
    ),
    (
        "a refused label after another",
        false,
        &["<refuses>", "A", "<refuses>", "B"],
        PatternFault::E43(3),
    ),
    (
        "a refused label after `<deadlock>`",
        false,
        &["<deadlock>", "<refuses>", "A"],
        PatternFault::E43(2),
    ),
    (
        "`<refuses>` after `<deadlock>`",
        false,
        &["<deadlock>", "<refuses>"],
        PatternFault::E43(2),
    ),
    (
        "a label after all labels but one refused",
        false,
        &["<refuses>", "<not>", "A", "A"],
        PatternFault::E43(4),
    ),
    (
        "any label after all labels refused",
        false,
        &["A", "<refuses>", "<any>", "<any>"],
        PatternFault::E43(4),
    ),
    (
        "`<while>` after any labels before refused labels",
        false,
        &["<until>", "<refuses>", "A,B", "<while>", "A"],
        PatternFault::E43(4),
    ),
    (
        "`<not>` after a refused label",
        false,
        &["<refuses>", "A", "<not>"],
        PatternFault::E43(3),
    ),
    (
        "`<until>` after a refused label",
        true,
        &["<refuses>", "i", "<until>", "A"],
        PatternFault::E43(3),
    ),
    (
        "`i` after a refused label",
        false,
        &["<refuses>", "A", "i"],
        PatternFault::E43(3),
    ),
    (
        "`i` after a refused label, observed",
        true,
        &["<refuses>", "A", "i"],
        PatternFault::E43(3),
    ),
    (
        "what means nothing after a refused label",
        false,
        &["<until>", "<refuses>", "A", "1"],
        PatternFault::E43(4),
    ),
];

#[test]
fn rejects_futures(rt: HostRuntime) {
    assert_each_refused(&rt, rt.alloc(), REFUSED_FUTURES);
}

#[test]
fn rejects_demands(rt: HostRuntime) {
    assert_each_refused(&rt, rt.alloc(), REFUSED_DEMANDS);
}

#[test]
fn rejects_demands_after_any_labels(rt: HostRuntime) {
    assert_each_refused(&rt, rt.alloc(), REFUSED_UNTIL_DEMANDS);
}

#[test]
fn rejects_unobserved_demands(rt: HostRuntime) {
    assert_each_refused(&rt, rt.alloc(), UNOBSERVED_DEMANDS);
}

#[test]
fn rejects_words_after_demands(rt: HostRuntime) {
    assert_each_refused(&rt, rt.alloc(), AFTER_DEMANDS);
}
