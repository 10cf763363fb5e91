//! Messages at a terminal: that a specification is read from the keyboard, what explains a refusal, which word it is for, and
//! what an answer means. Elsewhere, and with `--brief`, there is none of this.

use super::memory_devices::ArrayWriter;
use super::rows::words_of;
use super::runs::{RUN, Ran, Run};
use std::alloc::{AllocError, Global};
use std::process::Abort;

/// A specification in which `a` and then `exit` can be observed, and nothing else.
const TEXT: &[u8] = b"specification S [a] : exit behaviour a; exit endspec";

/// What is said before the text is read.
const KEYBOARD: &[u8] =
    b"lotosseq: the specification is read from the keyboard; Ctrl-D at the beginning of a line ends it\n";

/// Words of each command, and the status for the specification.
const READ: &[(&[&str], u8)] = &[
    (&["lotosseq", "check"], 0),
    (&["lotosseq", "check", "--warn"], 0),
    (&["lotosseq", "search", "--depth", "2", "A", "exit"], 0),
    (&["lotosseq", "ever", "--brief", "A", "exit"], 0),
    (&["lotosseq", "after", "A"], 0),
    (&["lotosseq", "cover"], 0),
    (&["lotosseq", "graph"], 0),
    (&["lotosseq", "suite"], 0),
];

/// Runs the words with an error stream and a reader that are terminals or are none, and expects this message.
fn expect_said(
    rt: &impl Abort,
    alloc: Global,
    run: &Run<'_, '_>,
    terminals: (bool, bool),
    expected: (&[u8], u8),
) {
    let ran = run.finish_with_terminals(alloc, terminals.0, terminals.1);
    assert_eq!(rt; ran.message.got(), expected.0);
    assert_eq!(rt; ran.status, expected.1);
}

#[test]
fn a_text_from_the_keyboard(rt: HostRuntime) {
    for (words, status) in READ {
        let run = Run {
            words: *words,
            text: TEXT,
            ..RUN
        };
        expect_said(&rt, rt.alloc(), &run, (true, true), (KEYBOARD, *status));
        expect_said(&rt, rt.alloc(), &run, (true, false), (b"", *status));
        expect_said(&rt, rt.alloc(), &run, (false, true), (b"", *status));
    }
}

/// Words for which nothing is read, and the message with `--brief`.
const UNREAD: &[(&[&str], &[u8])] = &[
    (
        &["lotosseq", "ever", "--brief", "A", "B-C"],
        b"lotosseq: E41 word 2 is neither a label nor an element\n",
    ),
    (
        &[
            "lotosseq", "search", "--depth", "2", "--after", "-", "--brief", "A",
        ],
        b"lotosseq: E46 mark is no line of a listing\n",
    ),
    (
        &["lotosseq", "after", "--brief", "i"],
        b"lotosseq: E45 word 1 is i, which cannot be observed\n",
    ),
];

#[test]
fn words_that_are_refused_before_the_keyboard_is_read(rt: HostRuntime) {
    for (words, message) in UNREAD {
        let run = Run {
            words: *words,
            text: TEXT,
            ..RUN
        };
        expect_said(&rt, rt.alloc(), &run, (true, true), (*message, 2));
    }
}

/// Words of each command.
const COMMANDS: &[&str] = &[
    "check",
    "check --warn",
    "search --depth 2 A",
    "ever A",
    "after A",
    "cover",
    "graph",
    "suite",
];

/// A run, and what is said of it: everywhere, and at a terminal besides.
#[derive(Clone, Copy)]
struct Said {
    text: &'static [u8],
    /// The words after the name of the program.
    words: &'static str,
    message: &'static [u8],
    more: &'static [u8],
    status: u8,
}

/// A run that is refused.
const REFUSED: Said = Said {
    text: TEXT,
    words: "",
    message: b"",
    more: b"",
    status: 2,
};

/// A question of `ever` with a match.
const MATCH: Said = Said {
    status: 0,
    ..REFUSED
};

/// Runs the words over the text, with an error stream that is a terminal or is none.
fn run_said(alloc: Global, said: &Said, words: &[&str], terminal: bool) -> Ran {
    let run = Run {
        words,
        text: said.text,
        ..RUN
    };
    run.finish_with_terminal(alloc, terminal)
}

/// Asserts that the message is the one and then the other.
fn assert_message(rt: &impl Abort, said: &Said, message: &ArrayWriter, more: &[u8]) {
    let got = message.got();
    let (front, back) = got.split_at(said.message.len().min(got.len()));
    assert_eq!(rt; front, said.message, "{}", said.words);
    assert_eq!(rt; back, more, "{}", said.words);
}

/// Asserts what is said of a run at a terminal, elsewhere, and with `--brief`, and that output and status are the same.
fn assert_said(rt: &impl Abort, alloc: Global, said: &Said) -> Result<(), AllocError> {
    let mut words = words_of(alloc, said.words)?;
    let elsewhere = run_said(alloc, said, words.as_slice(), false);
    let explained = run_said(alloc, said, words.as_slice(), true);
    words.push("--brief")?;
    let brief = run_said(alloc, said, words.as_slice(), true);
    let brief_elsewhere = run_said(alloc, said, words.as_slice(), false);
    assert_message(rt, said, &elsewhere.message, b"");
    assert_message(rt, said, &explained.message, said.more);
    assert_message(rt, said, &brief.message, b"");
    assert_message(rt, said, &brief_elsewhere.message, b"");
    assert_eq!(rt; elsewhere.status, said.status, "{}", said.words);
    for other in [&explained, &brief, &brief_elsewhere] {
        assert_eq!(rt; other.status, said.status, "{}", said.words);
        assert_eq!(rt;
            other.output.got(),
            elsewhere.output.got(),
            "{}",
            said.words
        );
    }
    Ok(())
}

fn assert_all_said(rt: &impl Abort, alloc: Global, all: &[Said]) -> Result<(), AllocError> {
    for said in all {
        assert_said(rt, alloc, said)?;
    }
    Ok(())
}

/// Texts with a fault, the message, and the explanation.
#[rattlefmt::skip]
const FAULTS: &[Said] = &[
    Said { text: b"specification S [a] : exit behaviour b; exit endspec",
        message: b"lotosseq: 1:38: E21 gate B is not declared\n",
        more: b"  specification S [a] : exit behaviour b; exit endspec\n                                       ^\n  Correct the name, or add the gate to the definition and to its calls: a process sees its own gates alone.\n",
        ..REFUSED },
    Said { text: b"specification S [a] : noexit\nbehaviour a stop\nendspec\n",
        message: b"lotosseq: 2:13: E04 token is not expected\n",
        more: b"  behaviour a stop\n              ^\n  `stop` is a reserved word\n  a `;` may be missing between `a` and it\n  Put `;` after `a` if it is a gate, or an operator as `[]` if it is a process.\n",
        ..REFUSED },
    Said { text: b"specification S [a] : exit\nbehaviour a; stop\nendspec",
        message: b"lotosseq: 1:15: E25 S is declared exit and is noexit\n",
        more: b"  specification S [a] : exit\n                ^\n  it is `noexit` because of a `stop`\n  Declare it `noexit`, or end the behaviour with `exit`; a call has what its process declares.\n",
        ..REFUSED },
];

#[test]
fn a_text_with_a_fault(rt: HostRuntime) -> Result<(), AllocError> {
    for words in COMMANDS {
        for said in FAULTS {
            assert_said(
                &rt,
                rt.alloc(),
                &Said {
                    words: *words,
                    ..*said
                },
            )?;
        }
    }
    Ok(())
}

/// The input cannot be read, so there is nothing to explain.
#[test]
fn a_text_that_cannot_be_read(rt: HostRuntime) -> Result<(), AllocError> {
    for words in COMMANDS {
        let words = words_of(rt.alloc(), words)?;
        let run = Run {
            words: words.as_slice(),
            text: TEXT,
            failing_read: Some(1),
            ..RUN
        };
        let message = b"lotosseq: E47 input cannot be read\n";
        expect_said(
            &rt,
            rt.alloc(),
            &run,
            (true, false),
            (message.as_slice(), 2),
        );
    }
    Ok(())
}

/// Words that spell no pattern and no sequence.
#[rattlefmt::skip]
const WORDS: &[Said] = &[
    Said { words: "ever <eventually> A", message: b"lotosseq: E41 word 1 is neither a label nor an element\n",
        more: b"lotosseq: word 1, <eventually>, is no element; elements are <any>, <not> A, <until> SET, <while> SET, <deadlock>, <refuses> SET, <livelock>, <forever> SET and <never> SET\nlotosseq: an A and later a B is: A <while> <any> B\n",
        ..REFUSED },
    Said { words: "search --depth 2 A <always>", message: b"lotosseq: E41 word 2 is neither a label nor an element\n",
        more: b"lotosseq: word 2, <always>, is no element; elements are <any>, <not> A, <until> SET, <while> SET, <deadlock> and <refuses> SET\nlotosseq: an A and later a B is: A <while> <any> B\n",
        ..REFUSED },
    Said { words: "ever '[] (PUT -> <> GET)'", message: b"lotosseq: E41 word 1 is neither a label nor an element\n",
        more: b"lotosseq: word 1, [], has `[`, which no name has; one label of several is A,B\nlotosseq: an A and later a B is: A <while> <any> B\n",
        ..REFUSED },
    Said { words: "ever PUT, GET", message: b"lotosseq: E41 word 1 is neither a label nor an element\n",
        more: b"lotosseq: word 1, PUT,, has a comma without a name beside it; one label of several is A,B\nlotosseq: an A and later a B is: A <while> <any> B\n",
        ..REFUSED },
    Said { words: "ever A B,1C", message: b"lotosseq: E41 word 2 is neither a label nor an element\n",
        more: b"lotosseq: word 2, B,1C, has a name that does not begin with a letter\nlotosseq: an A and later a B is: A <while> <any> B\n",
        ..REFUSED },
    Said { words: "ever A ''", message: b"lotosseq: E41 word 2 is neither a label nor an element\n",
        more: b"lotosseq: word 2, \"\", has a comma without a name beside it; one label of several is A,B\nlotosseq: an A and later a B is: A <while> <any> B\n",
        ..REFUSED },
    Said { words: "ever <until> LEAD*", message: b"lotosseq: E42 word 1 needs a label or <deadlock> after it\n",
        more: b"lotosseq: word 2, LEAD*, has `*`, which no name has; one label of several is A,B\nlotosseq: after <until> comes A, A,B, <not> A,B or an end as <deadlock>; any one label is <any>, any number of them <while> <any>\n",
        ..REFUSED },
    Said { words: "ever <until> <any>", message: b"lotosseq: E42 word 1 needs a label or <deadlock> after it\n",
        more: b"lotosseq: word 2, <any>, is no set of labels\nlotosseq: after <until> comes A, A,B, <not> A,B or an end as <deadlock>; any one label is <any>, any number of them <while> <any>\n",
        ..REFUSED },
    Said { words: "ever A <while> PUT|GET", message: b"lotosseq: E48 word 2 needs a label or <any> after it\n",
        more: b"lotosseq: word 3, PUT|GET, has `|`, which no name has; one label of several is A,B\nlotosseq: after <while> comes A, A,B, <not> A,B or <any>\n",
        ..REFUSED },
    Said { words: "ever A <NOT>", message: b"lotosseq: E50 word 2 needs a label after it\n",
        more: b"lotosseq: no word comes after word 2, <NOT>\nlotosseq: after <NOT> comes A or A,B\n", ..REFUSED },
    Said { words: "ever <never>", message: b"lotosseq: E50 word 1 needs a label after it\n",
        more: b"lotosseq: no word comes after word 1, <never>\nlotosseq: after <never> comes A, A,B, <not> A,B or <any>\n",
        ..REFUSED },
    Said { words: "ever <deadlock> A", message: b"lotosseq: E43 word 2 follows an end element\n",
        more: b"lotosseq: word 2, A, comes after an end, which is the last element\n", ..REFUSED },
    Said { words: "search --length 2 <never> A", message: b"lotosseq: E51 word 1 is answered by ever alone\n",
        more: b"lotosseq: word 1, <never>, is answered by: lotosseq ever .. <FILE\n", ..REFUSED },
    Said { words: "ever A i", message: b"lotosseq: E45 word 2 is i, which cannot be observed\n",
        more: b"lotosseq: word 2, i, needs --strong, with which internal steps are observed as i\n", ..REFUSED },
    Said { words: "after A I", message: b"lotosseq: E45 word 2 is i, which cannot be observed\n",
        more: b"lotosseq: word 2, I, needs --strong, with which internal steps are observed as i\n", ..REFUSED },
    Said { words: "after A <any>", message: b"lotosseq: E41 word 2 is no label\n",
        more: b"lotosseq: word 2, <any>, is no label; a sequence has labels alone, and the words of ever and search may be elements\n",
        ..REFUSED },
    Said { words: "after A,B", message: b"lotosseq: E41 word 1 is no label\n",
        more: b"lotosseq: word 1, A,B, has `,`, which no name has\n", ..REFUSED },
    Said { words: "ever <untill> A",
        message: b"lotosseq: E41 word 1 is neither a label nor an element\nlotosseq: word 1, <untill>, may be meant as <until>\n",
        ..REFUSED },
    Said { words: "ever A ring.lotos",
        message: b"lotosseq: E41 word 2 is neither a label nor an element\nlotosseq: a specification is read from standard input: lotosseq ever .. <FILE\n",
        ..REFUSED },
];

#[test]
fn a_refused_word(rt: HostRuntime) -> Result<(), AllocError> {
    assert_all_said(&rt, rt.alloc(), WORDS)
}

/// A word of control characters and of more characters than are shown.
#[test]
fn a_long_word(rt: HostRuntime) -> Result<(), AllocError> {
    let said = Said {
        words: "ever \x1b[7m\n1234567890123456789012345678901234567890123456789012345678901234567890",
        message: b"lotosseq: E41 word 1 is neither a label nor an element\n",
        more: b"lotosseq: word 1, \\x1b[7m, has `\\x1b`, which no name has; one label of several is A,B\nlotosseq: an A and later a B is: A <while> <any> B\n",
        ..REFUSED
    };
    assert_said(&rt, rt.alloc(), &said)?;
    let long = Said {
        words: "after -- =123456789012345678901234567890123456789012345678901234567890123456",
        message: b"lotosseq: E41 word 1 is no label\n",
        more: b"lotosseq: word 1, =123456789012345678901234567890123456789012345678901234567890123.., has `=`, which no name has\n",
        ..REFUSED
    };
    let words = words_of(rt.alloc(), long.words)?;
    let ran = run_said(rt.alloc(), &long, words.as_slice(), true);
    assert_message(&rt, &long, &ran.message, long.more);
    Ok(())
}

/// A specification with gates that have similar names, one that is hidden, and one of a process.
const NAMES: &[u8] =
    b"specification S [a,take] : noexit behaviour hide b in P[a]\nwhere process P [x] : noexit := x; P[x] endproc endspec";

/// Names that are no gates.
#[rattlefmt::skip]
const GATES: &[Said] = &[
    Said { text: NAMES, words: "ever A a,foo", message: b"lotosseq: E49 word 2 is no gate of the specification\n",
        more: b"lotosseq: word 2, a,foo: FOO is no gate of the specification\n", ..REFUSED },
    Said { text: NAMES, words: "after foo", message: b"lotosseq: E49 word 1 is no gate of the specification\n",
        more: b"lotosseq: word 1 is foo\n", ..REFUSED },
    Said { text: NAMES, words: "search --length 1 --known A <not> c1,a",
        message: b"lotosseq: E49 word 3 is no gate of the specification\n",
        more: b"lotosseq: word 3, c1,a: C1 is no gate of the specification\n", ..REFUSED },
    Said { text: NAMES, words: "cover --only a,tak", message: b"lotosseq: E52 tak is no gate of the specification\n",
        more: b"lotosseq: a gate of the specification has a similar name: TAKE\n", ..REFUSED },
    Said { text: NAMES, words: "graph --hide b", message: b"lotosseq: E52 b is no gate of the specification\n",
        more: b"lotosseq: B is hidden at 1:50, so it is not observed\n", ..REFUSED },
    Said { text: NAMES, words: "ever --only X A", message: b"lotosseq: E52 X is no gate of the specification\n",
        more: b"lotosseq: X is a formal gate of the process P, and stands for the gate that a call gives\n", ..REFUSED },
    Said { text: NAMES, words: "after --only foo", message: b"lotosseq: E52 foo is no gate of the specification\n", ..REFUSED },
];

#[test]
fn a_name_that_is_no_gate(rt: HostRuntime) -> Result<(), AllocError> {
    assert_all_said(&rt, rt.alloc(), GATES)
}

/// A specification in which `a`, `b`, `a` and `a` can be observed, and nothing else: five states.
const ROW_OF_FOUR: &[u8] = b"specification S [a,b] : noexit behaviour a; b; a; a; stop endspec";

/// Answers, and what they mean. After `<until> A` the second label is `B`, so that nothing that needs an `A` next has a
/// match: two states are looked at. A step counts whether the pattern lets it or not, and the steps of the last state count
/// too: after `a`, `b`, `a` and `a` it is a dead end. The prefix `A` of two labels at most is visited for the length 1, of
/// which it is the one sequence, and for the length 2, where no label is tried after it.
#[rattlefmt::skip]
const ANSWERS: &[Said] = &[
    Said { text: ROW_OF_FOUR, words: "ever <until> A <while> <not> B A",
        message: b"lotosseq: it happens at no depth; 2 states; words 1 to 5 can be matched, and then nothing that word 6 wants\n",
        more: b"lotosseq: word 1, <until>, goes to the first A alone; for any A write: <while> <any> A\nlotosseq: at the end: depth 1, 2 states, 2 steps, 0 dead ends\n",
        status: 1, ..REFUSED },
    Said { text: ROW_OF_FOUR, words: "search --length 4 <any> <UNTIL> <not> B,exit A A",
        more: b"lotosseq: word 2, <until>, goes to the first <not> B,exit alone; for any <not> B,exit write: <while> <any> <not> B,exit\n",
        status: 1, ..REFUSED },
    Said { text: ROW_OF_FOUR, words: "search --length 4 <until> A <until> exit", status: 1, ..REFUSED },
    Said { text: ROW_OF_FOUR, words: "search --length 4 <until> A <while> <any> exit", status: 1, ..REFUSED },
    Said { text: ROW_OF_FOUR, words: "search --length 2 <until> <deadlock>", status: 1, ..REFUSED },
    Said { text: ROW_OF_FOUR, words: "search --length 2 <until> A <deadlock>",
        more: b"lotosseq: word 1, <until>, goes to the first A alone; for any A write: <while> <any> A\n",
        status: 1, ..REFUSED },
    Said { text: ROW_OF_FOUR, words: "search --length 2 <until> A exit --limit 1",
        more: b"lotosseq: word 1, <until>, goes to the first A alone; for any A write: <while> <any> A\n",
        status: 1, ..REFUSED },
    Said { text: ROW_OF_FOUR, words: "ever",
        more: b"lotosseq: a pattern without words matches the empty sequence alone, which can always happen\nlotosseq: at the end: depth 0, 1 state, 1 step, 0 dead ends\n",
        ..MATCH },
    Said { text: ROW_OF_FOUR, words: "search --length 3",
        more: b"lotosseq: a pattern without words matches the empty sequence alone, which can always happen\n", ..MATCH },
    Said { text: ROW_OF_FOUR, words: "ever A B", more: b"lotosseq: at the end: depth 2, 3 states, 3 steps, 0 dead ends\n", ..MATCH },
    Said { text: ROW_OF_FOUR, words: "ever <until> <deadlock>",
        more: b"lotosseq: at the end: depth 4, 5 states, 4 steps, 1 dead end\n", ..MATCH },
    Said { text: ROW_OF_FOUR, words: "ever --states 2 A B",
        message: b"lotosseq: stopped: more than 2 states; --states N allows more\n",
        more: b"lotosseq: at the end: depth 1, 2 states, 2 steps, 0 dead ends\n", status: 4, ..REFUSED },
    Said { text: ROW_OF_FOUR, words: "after A B", ..MATCH },
    Said { text: ROW_OF_FOUR, words: "cover", ..MATCH },
    Said { text: ROW_OF_FOUR, words: "graph", ..MATCH },
    Said { text: ROW_OF_FOUR, words: "check", ..MATCH },
    Said { text: ROW_OF_FOUR, words: "search --length 1 --progress A",
        more: b"lotosseq: at the end: length 1, 1 prefix, 0 dead ends, 1 line\n", ..MATCH },
    Said { text: ROW_OF_FOUR, words: "search --length 2 --progress A",
        more: b"lotosseq: at the end: length 1, 2 prefixes, 1 dead end, 1 line\n", ..MATCH },
    Said { text: ROW_OF_FOUR, words: "cover --progress",
        more: b"lotosseq: at the end: length 4, 5 sets, 4 steps, 1 dead end, 1 line\n", ..MATCH },
    Said { text: ROW_OF_FOUR, words: "suite", ..MATCH },
    Said { text: ROW_OF_FOUR, words: "suite --progress",
        more: b"lotosseq: at the end: length 4, 5 sets, 4 steps, 1 dead end\n", ..MATCH },
    Said { text: ROW_OF_FOUR, words: "graph --progress",
        more: b"lotosseq: at the end: length 4, 5 sets, 4 steps, 1 dead end\n", ..MATCH },
];

#[test]
fn what_an_answer_means(rt: HostRuntime) -> Result<(), AllocError> {
    assert_all_said(&rt, rt.alloc(), ANSWERS)
}

/// A specification in which nothing comes after `a`, and `b` after `b`.
const TWO_ENDS: &[u8] = b"specification S [a,b] : noexit behaviour a; stop [] b; b; stop endspec";

/// A specification with two states after `a`: nothing comes after one, and `b` after the other.
const ONE_BRANCH_ENDS: &[u8] =
    b"specification S [a,b] : noexit behaviour a; stop [] a; b; stop endspec";

/// Two specifications with `b` and with `c` after `a`.
const PARTING: &[u8] = b"specification S [a,b] : noexit behaviour a; b; stop endspec
specification S [a,c] : noexit behaviour a; c; stop endspec";

/// Searches that come to dead ends. Three labels never come. `ever` has the first state, two states after one label, one
/// of which is a dead end, and one after two, which is another. `search` visits `A` and `B` for the length 1; for the length
/// 2 `A`, after which nothing comes, `B` and `B B`; and for the length 3 these again, and nothing comes after `B B` either.
/// The automaton has one state for what can come after `A` and after `B B`. Two comparisons go on with `A` alone. After it
/// one finds a difference, and the other, for which `b` and `c` are hidden, nothing.
#[rattlefmt::skip]
const DEAD_ENDS: &[Said] = &[
    Said { text: TWO_ENDS, words: "ever <any> <any> <any>",
        message: b"lotosseq: it happens at no depth; 4 states; words 1 to 2 can be matched, and then nothing that word 3 wants\n",
        more: b"lotosseq: at the end: depth 2, 4 states, 3 steps, 2 dead ends\n", status: 1, ..REFUSED },
    Said { text: ONE_BRANCH_ENDS, words: "ever <any> <any> <any>",
        message: b"lotosseq: it happens at no depth; 4 states; words 1 to 2 can be matched, and then nothing that word 3 wants\n",
        more: b"lotosseq: at the end: depth 2, 4 states, 3 steps, 2 dead ends\n", status: 1, ..REFUSED },
    Said { text: TWO_ENDS, words: "search --length 3 --progress <any> <any> <any>",
        more: b"lotosseq: at the end: length 2, 8 prefixes, 3 dead ends, 0 lines\n", status: 1, ..REFUSED },
    Said { text: TWO_ENDS, words: "search --depth 3 --progress <any> <any> <any>",
        more: b"lotosseq: at the end: length 2, 8 prefixes, 3 dead ends, 0 lines\n", status: 1, ..REFUSED },
    Said { text: TWO_ENDS, words: "graph --progress",
        more: b"lotosseq: at the end: length 1, 3 sets, 3 steps, 1 dead end\n", ..MATCH },
    Said { text: PARTING, words: "compare --progress",
        more: b"lotosseq: at the end: length 1, 1 step, 0 dead ends\n", status: 1, ..REFUSED },
    Said { text: PARTING, words: "compare --only A --progress", message: b"lotosseq: no difference; 2 pairs of sets\n",
        more: b"lotosseq: at the end: length 1, 1 step, 1 dead end\n", ..MATCH },
];

#[test]
fn dead_ends(rt: HostRuntime) -> Result<(), AllocError> {
    assert_all_said(&rt, rt.alloc(), DEAD_ENDS)
}
