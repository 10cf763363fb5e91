//! Texts that are rejected, with the numbers and the offsets of their faults.
use super::table_texts::{FRONT, assert_fault, fault_of_text, joined};
use lotos_text::TEXT_LIMIT;
use std::alloc::{AllocError, Global};
use std::process::Abort;
use std::test::Fail;

/// A text up to the first process definition, which begins at offset 46.
const WHERE: &str = "specification S : noexit behaviour stop where ";

/// What is wrong, the rest of the text, and the number and the offset of the fault.
type Row = (&'static str, &'static str, u8, usize);

/// The fault of a text in two parts.
fn joined_fault(alloc: Global, front: &str, rest: &str) -> Result<(u8, usize), AllocError> {
    let text = joined(alloc, &[front, rest])?;
    Ok(fault_of_text(alloc, text.as_bytes()))
}

/// Operands that do not fit together, and operands before what does not follow them.
const OPERANDS: &[Row] = &[
    ("two operands", "stop stop endspec", 4, 40),
    ("no operand", "endspec", 4, 35),
    ("an action with no semicolon", "i stop endspec", 4, 37),
    ("a call before an operand", "a stop endspec", 4, 37),
    ("two semicolons", "a; ; stop endspec", 4, 38),
    ("an action before nothing", "a; endspec", 4, 38),
    ("an operand before a semicolon", "stop; stop endspec", 4, 39),
    ("`exit` before a semicolon", "exit; stop endspec", 4, 39),
    ("`exit` before a gate list", "exit [a] endspec", 4, 40),
    ("parentheses before a gate list", "(P) [a] endspec", 4, 39),
    ("parentheses before a semicolon", "(a); stop endspec", 4, 38),
    ("`stop` before a gate list", "stop [a] endspec", 4, 40),
];

/// Operators without an operand, and parentheses that do not match.
const OPERATORS: &[Row] = &[
    ("a choice of nothing", "stop [] endspec", 4, 43),
    (
        "a choice that begins with its sign",
        "[] stop endspec",
        4,
        35,
    ),
    ("two signs of choice", "stop [] [] stop endspec", 4, 43),
    ("an enabling of nothing", "exit >> endspec", 4, 43),
    (
        "a disabling that begins with its sign",
        "[> stop endspec",
        4,
        35,
    ),
    ("two parallel signs", "stop || ||| stop endspec", 4, 43),
    ("parentheses that stay open", "(stop endspec", 4, 41),
    ("parentheses about nothing", "() endspec", 4, 36),
    ("parentheses that nothing opened", "stop) endspec", 4, 39),
];

/// Lists of gates, of calls, of hiding and of synchronization.
const GATE_LISTS: &[Row] = &[
    ("the sign of choice as a gate list", "P[] endspec", 4, 39),
    ("a gate list without names", "P[ ] endspec", 4, 38),
    ("a gate list of a sign", "P[;] endspec", 4, 37),
    ("a gate list that stays open", "P[a endspec", 4, 39),
    ("two gate lists", "P[a][b] endspec", 4, 39),
    ("a call before a semicolon", "P[a]; stop endspec", 4, 39),
    ("an internal action with gates", "i[a]; stop endspec", 4, 36),
    ("an internal action alone", "i endspec", 4, 37),
    ("`hide` before nothing", "hide endspec", 4, 40),
    ("`hide` without gates", "hide in stop endspec", 4, 40),
    (
        "`hide` of a list in brackets",
        "hide [a] in stop endspec",
        4,
        40,
    ),
    ("`hide` without `in`", "hide a stop endspec", 4, 42),
    (
        "`hide` with a comma too many",
        "hide a, in stop endspec",
        4,
        43,
    ),
    ("`hide` of nothing", "hide a in endspec", 4, 45),
    (
        "a hide form in parentheses before a gate list",
        "(hide a in P) [b] endspec",
        4,
        49,
    ),
    (
        "a hide form before a semicolon",
        "hide a in stop; stop endspec",
        4,
        49,
    ),
    ("`|[` without `]`", "stop |[a| stop endspec", 4, 43),
    ("`|[` with `]` and no `|`", "stop |[a] stop endspec", 4, 45),
    ("`|[` with two `]`", "stop |[]] stop endspec", 4, 43),
    ("`|[` before a comma", "stop |[,]| stop endspec", 4, 42),
    (
        "`|[` of the sign of choice",
        "stop |[[]]| stop endspec",
        4,
        42,
    ),
    ("a bar alone", "stop | stop endspec", 4, 40),
];

/// Words in the wrong place, and bytes that begin no token.
const WORDS_AND_BYTES: &[Row] = &[
    ("`where` before nothing", "stop where endspec", 4, 46),
    ("`where` before no behaviour", "where endspec", 4, 35),
    ("a word of full LOTOS", "choice endspec", 7, 35),
    (
        "a word of full LOTOS after an operand",
        "stop let endspec",
        7,
        40,
    ),
    (
        "a word of full LOTOS in a gate list",
        "P[type] endspec",
        7,
        37,
    ),
    (
        "a word of full LOTOS after `where`",
        "stop where library endspec",
        7,
        46,
    ),
    (
        "a word of full LOTOS after the end",
        "stop endspec par",
        7,
        48,
    ),
    ("a token after the end", "stop endspec endspec", 4, 48),
    (
        "a byte that begins no token after a token that is not expected",
        "stop stop $ endspec",
        1,
        45,
    ),
    (
        "a byte that begins no token after the end",
        "stop endspec #",
        1,
        48,
    ),
    ("an open comment after the end", "stop endspec (* *", 2, 48),
    (
        "an open comment after a token that is not expected",
        "stop stop (*",
        2,
        45,
    ),
];

/// Texts that end too early.
const ENDS: &[Row] = &[
    ("a text that ends before the operand", "", 6, 35),
    ("a text that ends after a name", "a", 6, 36),
    ("a text that ends after a semicolon", "a;", 6, 37),
    ("a text that ends after an operand", "stop", 6, 39),
    ("a text that ends after a choice", "stop []", 6, 42),
    ("a text that ends in parentheses", "(stop ", 6, 41),
    ("a text that ends in a gate list", "P[a,", 6, 39),
    ("a text that ends after `hide`", "hide", 6, 39),
    ("a text that ends after a hidden gate", "hide a", 6, 41),
    ("a text that ends after `in`", "hide a in", 6, 44),
    ("a text that ends after `|[`", "stop |[", 6, 42),
    ("a text that ends after `|[` and a gate", "stop |[a", 6, 43),
    ("a text that ends after `|[` and `]`", "stop |[]", 6, 43),
    ("a text that ends after `where`", "stop where", 6, 45),
    ("a text that ends after a comment", "stop (* *)", 6, 45),
];

/// Expects the fault of each text that begins so.
fn assert_rejected(
    rt: &impl Abort,
    alloc: Global,
    front: &str,
    rows: &[Row],
) -> Result<(), AllocError> {
    for (words, rest, number, at) in rows {
        let found = joined_fault(alloc, front, rest)?;
        assert_fault(rt, words, found, (*number, *at));
    }
    Ok(())
}

#[test]
fn rejects_operands(rt: HostRuntime) -> Result<(), Fail> {
    Ok(assert_rejected(&rt, rt.alloc(), FRONT, OPERANDS)?)
}

#[test]
fn rejects_operators(rt: HostRuntime) -> Result<(), Fail> {
    Ok(assert_rejected(&rt, rt.alloc(), FRONT, OPERATORS)?)
}

#[test]
fn rejects_gate_lists(rt: HostRuntime) -> Result<(), Fail> {
    Ok(assert_rejected(&rt, rt.alloc(), FRONT, GATE_LISTS)?)
}

#[test]
fn rejects_words_and_bytes(rt: HostRuntime) -> Result<(), Fail> {
    Ok(assert_rejected(&rt, rt.alloc(), FRONT, WORDS_AND_BYTES)?)
}

#[test]
fn rejects_texts_that_end_too_early(rt: HostRuntime) -> Result<(), Fail> {
    Ok(assert_rejected(&rt, rt.alloc(), FRONT, ENDS)?)
}

/// What follows the keyword `where`.
const DEFINITIONS: &[Row] = &[
    ("the end", "endspec", 4, 46),
    ("a name", "P : noexit := stop endproc endspec", 4, 46),
    (
        "a specification",
        "specification P : noexit := stop endproc",
        4,
        46,
    ),
    ("no name", "process : noexit := stop endproc endspec", 4, 54),
    (
        "no colon",
        "process P noexit := stop endproc endspec",
        4,
        56,
    ),
    (
        "`:=` for the colon",
        "process P := stop endproc endspec",
        4,
        56,
    ),
    (
        "a colon for `:=`",
        "process P : noexit : stop endproc endspec",
        4,
        65,
    ),
    (
        "`behaviour` for `:=`",
        "process P : noexit behaviour stop endproc",
        4,
        65,
    ),
    ("no body", "process P : noexit := endproc endspec", 4, 68),
    (
        "`endspec` for `endproc`",
        "process P : noexit := stop endspec",
        4,
        73,
    ),
    (
        "a name after a process",
        "process P : noexit := stop endproc x endspec",
        4,
        81,
    ),
    (
        "a second `where`",
        "process P : noexit := stop endproc where",
        4,
        81,
    ),
    (
        "a second `endproc`",
        "process P : noexit := stop endproc endproc",
        4,
        81,
    ),
    (
        "a word of full LOTOS after a process",
        "process P : noexit := stop endproc type",
        7,
        81,
    ),
    ("a text that ends after `process`", "process", 6, 53),
    (
        "a text that ends in the body",
        "process P : noexit := a;",
        6,
        70,
    ),
    (
        "a text that ends after a process",
        "process P : noexit := stop endproc",
        6,
        80,
    ),
];

#[test]
fn rejects_definitions(rt: HostRuntime) -> Result<(), Fail> {
    Ok(assert_rejected(&rt, rt.alloc(), WHERE, DEFINITIONS)?)
}

#[test]
fn rejects_words_of_full_lotos(rt: HostRuntime) -> Result<(), Fail> {
    for word in ["accept", "Choice", "LET", "pAr", "librarY", "Type"] {
        let found = joined_fault(rt.alloc(), word, " T is")?;
        assert_fault(&rt, word, found, (7, 0));
    }
    Ok(())
}

/// What is wrong, a text, and the number and the offset of the fault.
const TEXTS: &[(&str, &str, u8, usize)] = &[
    ("an opening that looks closed", "(*)", 2, 0),
    ("a comment alone", "(**)", 6, 4),
    ("a comment with a parenthesis alone", "(*)*)", 6, 5),
    (
        "a comment that stays open",
        "specification S (* open",
        2,
        16,
    ),
    (
        "`P[]`",
        "specification S [a] : noexit behaviour P[] endspec",
        4,
        43,
    ),
    (
        "an end after a semicolon",
        "specification S [a] : noexit behaviour a;",
        6,
        41,
    ),
    (
        "a choice of full LOTOS",
        "specification S [a] : noexit behaviour choice endspec",
        7,
        39,
    ),
];

/// Complete texts: comments alone, and specifications.
#[test]
fn rejects_whole_texts(rt: HostRuntime) {
    for (words, text, number, at) in TEXTS {
        let found = fault_of_text(rt.alloc(), text.as_bytes());
        assert_fault(&rt, words, found, (*number, *at));
    }
}

/// What is wrong, a text, and the number and the offset of the fault.
const HEADERS: &[(&str, &str, u8, usize)] = &[
    ("the empty text", "", 6, 0),
    ("blanks alone", " \n ", 6, 3),
    (
        "no word `specification`",
        "S : exit behaviour exit endspec",
        4,
        0,
    ),
    (
        "no name",
        "specification : exit behaviour exit endspec",
        4,
        14,
    ),
    (
        "a reserved word as the name",
        "specification stop : exit behaviour exit endspec",
        4,
        14,
    ),
    (
        "the sign of choice as a gate list",
        "specification S [] : noexit behaviour stop endspec",
        4,
        16,
    ),
    (
        "a gate list without names",
        "specification S [ ] : noexit behaviour stop endspec",
        4,
        18,
    ),
    (
        "a comma before the bracket",
        "specification S [a,] : noexit behaviour stop endspec",
        4,
        19,
    ),
    (
        "two gates without a comma",
        "specification S [a b] : noexit behaviour stop endspec",
        4,
        19,
    ),
    (
        "the internal action as a gate",
        "specification S [a,i] : noexit behaviour stop endspec",
        4,
        19,
    ),
    (
        "two gate lists",
        "specification S [a][b] : noexit behaviour stop endspec",
        4,
        19,
    ),
    (
        "no colon",
        "specification S noexit behaviour stop endspec",
        4,
        16,
    ),
    (
        "`:=` as the colon",
        "specification S := noexit behaviour stop endspec",
        4,
        16,
    ),
    (
        "no functionality",
        "specification S : behaviour stop endspec",
        4,
        18,
    ),
    (
        "a name as the functionality",
        "specification S : never behaviour stop endspec",
        4,
        18,
    ),
    (
        "no word `behaviour`",
        "specification S : noexit stop endspec",
        4,
        25,
    ),
    ("an end in the gate list", "specification S [a", 6, 18),
    ("an end after a comma", "specification S [a, ", 6, 20),
    (
        "an end after the semicolon",
        "specification S [a] : noexit behaviour a;",
        6,
        41,
    ),
];

#[test]
fn rejects_headers(rt: HostRuntime) {
    for (words, text, number, at) in HEADERS {
        let found = fault_of_text(rt.alloc(), text.as_bytes());
        assert_fault(&rt, words, found, (*number, *at));
    }
}

/// A specification.
const WHOLE: &[u8] = b"specification S [a,b] : exit behaviour a; b; exit endspec";

/// The fault of its first bytes.
fn beginning_fault(end: usize) -> (u8, usize) {
    match end {
        1..=12 => (4, 0),
        25..=27 => (4, 24),
        30..=37 => (4, 29),
        51..=56 => (4, 50),
        _ => (6, end),
    }
}

#[test]
fn rejects_each_beginning(rt: HostRuntime) {
    for end in 0..WHOLE.len() {
        let found = fault_of_text(rt.alloc(), &WHOLE[..end]);
        assert_fault(&rt, "a beginning", found, beginning_fault(end));
    }
}

fn fault_of_repeated(alloc: Global, byte: u8, count: usize) -> Result<(u8, usize), AllocError> {
    let text = vec![in alloc; byte; count]?;
    Ok(fault_of_text(alloc, text.as_slice()))
}

#[test]
fn rejects_a_text_that_is_too_long(rt: HostRuntime) -> Result<(), Fail> {
    let longest = fault_of_repeated(rt.alloc(), b' ', TEXT_LIMIT)?;
    assert_fault(&rt, "as long as a text may be", longest, (6, TEXT_LIMIT));
    let longer = fault_of_repeated(rt.alloc(), 255, TEXT_LIMIT + 1)?;
    assert_fault(&rt, "one byte too long", longer, (3, 0));
    Ok(())
}
