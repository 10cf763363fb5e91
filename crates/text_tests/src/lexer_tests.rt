//! Tokens of texts with their offsets, and bytes that begin no token.
use super::table_texts::assert_fault;
use lotos_text::{Sign, TextFault, TokenKind, Word, tokens};
use std::alloc::{AllocError, Global};
use std::process::Abort;
use std::test::Fail;

const NAME: TokenKind = TokenKind::Identifier;

const BAR: TokenKind = TokenKind::Sign(Sign::Bar);

const LEFT: TokenKind = TokenKind::Sign(Sign::LeftBracket);

const RIGHT: TokenKind = TokenKind::Sign(Sign::RightBracket);

const SYNC: TokenKind = TokenKind::Sign(Sign::LeftSync);

const FULL: TokenKind = TokenKind::Sign(Sign::Full);

const INTERLEAVE: TokenKind = TokenKind::Sign(Sign::Interleave);

const fn sign(sign: Sign) -> TokenKind {
    TokenKind::Sign(sign)
}

fn kinds(alloc: Global, text: &[u8]) -> Result<Vec<TokenKind>, TextFault> {
    let mut kinds = Vec::new(alloc);
    for token in &tokens(alloc, text)? {
        kinds.push(token.kind)?;
    }
    Ok(kinds)
}

/// Asserts the kinds of the tokens of a text.
fn assert_kinds(
    rt: &impl Abort,
    alloc: Global,
    words: &str,
    text: &[u8],
    expected: &[TokenKind],
) -> Result<(), TextFault> {
    let found = kinds(alloc, text)?;
    assert_eq!(rt; found.as_slice(), expected, "{}", words);
    Ok(())
}

/// The text of each sign, and the sign.
const SIGNS: &[(&[u8], Sign)] = &[
    (b";", Sign::Semicolon),
    (b":", Sign::Colon),
    (b":=", Sign::Define),
    (b",", Sign::Comma),
    (b"(", Sign::LeftParenthesis),
    (b")", Sign::RightParenthesis),
    (b"[", Sign::LeftBracket),
    (b"]", Sign::RightBracket),
    (b"[]", Sign::Choice),
    (b"[>", Sign::Disable),
    (b">>", Sign::Enable),
    (b"|[", Sign::LeftSync),
    (b"||", Sign::Full),
    (b"|||", Sign::Interleave),
    (b"|", Sign::Bar),
];

#[test]
fn lexes_each_sign(rt: HostRuntime) -> Result<(), Fail> {
    for (text, want) in SIGNS {
        let expected = [sign(*want)];
        assert_kinds(&rt, rt.alloc(), str::from_utf8(text)?, text, &expected)?;
    }
    Ok(())
}

/// What is tested, a text, and its tokens.
const LONGEST: &[(&str, &[u8], &[TokenKind])] = &[
    ("four bars", b"||||", &[INTERLEAVE, BAR]),
    ("three bars before a bracket", b"|||[", &[INTERLEAVE, LEFT]),
    (
        "disabling before enabling",
        b"[>>>",
        &[
            TokenKind::Sign(Sign::Disable),
            TokenKind::Sign(Sign::Enable),
        ],
    ),
    (
        "a colon before a definition",
        b"::=",
        &[TokenKind::Sign(Sign::Colon), TokenKind::Sign(Sign::Define)],
    ),
    (
        "a bracket before a choice",
        b"[[]",
        &[LEFT, TokenKind::Sign(Sign::Choice)],
    ),
    ("an empty list of gates", b"|[]|", &[SYNC, RIGHT, BAR]),
    (
        "full synchronization without blanks",
        b"P[A]||Q[A]",
        &[NAME, LEFT, NAME, RIGHT, FULL, NAME, LEFT, NAME, RIGHT],
    ),
    (
        "interleaving without blanks",
        b"P[A]|||Q[B]",
        &[NAME, LEFT, NAME, RIGHT, INTERLEAVE, NAME, LEFT, NAME, RIGHT],
    ),
    (
        "synchronization without blanks",
        b"P[A]|[B]|Q[B]",
        &[
            NAME, LEFT, NAME, RIGHT, SYNC, NAME, RIGHT, BAR, NAME, LEFT, NAME, RIGHT,
        ],
    ),
];

#[test]
fn takes_the_longest_sign(rt: HostRuntime) -> Result<(), Fail> {
    for (row, text, want) in LONGEST {
        assert_kinds(&rt, rt.alloc(), row, text, want)?;
    }
    Ok(())
}

/// A word, and its token.
const WORDS: &[(&[u8], TokenKind)] = &[
    (
        b"Specification",
        TokenKind::Reserved(Word::SpecificationWord),
    ),
    (b"endSPEC", TokenKind::Reserved(Word::EndspecWord)),
    (b"behaviouR", TokenKind::Reserved(Word::BehaviourWord)),
    (b"BehavioR", TokenKind::Reserved(Word::BehaviourWord)),
    (b"PROCESS", TokenKind::Reserved(Word::ProcessWord)),
    (b"endProc", TokenKind::Reserved(Word::EndprocWord)),
    (b"Where", TokenKind::Reserved(Word::WhereWord)),
    (b"sTOP", TokenKind::Reserved(Word::StopWord)),
    (b"eXiT", TokenKind::Reserved(Word::ExitWord)),
    (b"noExit", TokenKind::Reserved(Word::NoexitWord)),
    (b"Hide", TokenKind::Reserved(Word::HideWord)),
    (b"In", TokenKind::Reserved(Word::InWord)),
    (b"I", TokenKind::Reserved(Word::IWord)),
    (b"accepT", TokenKind::Reserved(Word::AcceptWord)),
    (b"chOIce", TokenKind::Reserved(Word::ChoiceWord)),
    (b"Let", TokenKind::Reserved(Word::LetWord)),
    (b"pAr", TokenKind::Reserved(Word::ParWord)),
    (b"Library", TokenKind::Reserved(Word::LibraryWord)),
    (b"tyPe", TokenKind::Reserved(Word::TypeWord)),
    (b"i", TokenKind::Reserved(Word::IWord)),
    (b"stop1", NAME),
    (b"exit_", NAME),
    (b"in_", NAME),
    (b"ii", NAME),
    (b"i0", NAME),
    (b"behaviou", NAME),
    (b"endspe", NAME),
    (b"a", NAME),
    (b"Z", NAME),
    (b"z_9", NAME),
];

#[test]
fn knows_each_word(rt: HostRuntime) -> Result<(), Fail> {
    for (text, want) in WORDS {
        let expected = [*want];
        assert_kinds(&rt, rt.alloc(), str::from_utf8(text)?, text, &expected)?;
    }
    Ok(())
}

/// The offsets of the beginning and the end of each token.
fn places(alloc: Global, text: &[u8]) -> Result<Vec<(usize, usize)>, TextFault> {
    let mut places = Vec::new(alloc);
    for token in &tokens(alloc, text)? {
        places.push((token.at, token.end))?;
    }
    Ok(places)
}

fn assert_places(
    rt: &impl Abort,
    alloc: Global,
    words: &str,
    text: &[u8],
    expected: &[(usize, usize)],
) -> Result<(), TextFault> {
    let found = places(alloc, text)?;
    assert_eq!(rt; found.as_slice(), expected, "{}", words);
    Ok(())
}

/// What is tested, a text, and the offsets of the beginning and the end of each token.
const OFFSETS: &[(&str, &[u8], &[(usize, usize)])] = &[
    ("no text", b"", &[]),
    ("blanks alone", b"\t\n\x0b\x0c\r ", &[]),
    ("a blank on each side", b" ab ", &[(1, 3)]),
    ("a tabulator", b"a\tb", &[(0, 1), (2, 3)]),
    ("a line feed", b"a\nb", &[(0, 1), (2, 3)]),
    ("a vertical tabulator", b"a\x0bb", &[(0, 1), (2, 3)]),
    ("a form feed", b"a\x0cb", &[(0, 1), (2, 3)]),
    ("a carriage return", b"a\rb", &[(0, 1), (2, 3)]),
    (
        "signs and words",
        b"a1; stop|||b",
        &[(0, 2), (2, 3), (4, 8), (8, 11), (11, 12)],
    ),
];

#[test]
fn places_tokens(rt: HostRuntime) -> Result<(), Fail> {
    for (row, text, want) in OFFSETS {
        assert_places(&rt, rt.alloc(), row, text, want)?;
    }
    Ok(())
}

/// What is tested, a text with comments, and its tokens.
const COMMENTS: &[(&str, &[u8], &[TokenKind])] = &[
    ("an empty comment", b"(**)", &[]),
    ("stars alone", b"(****)", &[]),
    ("a parenthesis after the opening", b"(*)*)", &[]),
    ("parentheses around a star", b"(*(*)", &[]),
    ("a comment at the end", b"a (* b *)", &[NAME]),
    ("a comment between two letters", b"a(**)b", &[NAME, NAME]),
    (
        "a comment inside a reserved word",
        b"st(**)op",
        &[NAME, NAME],
    ),
    ("a comment inside a sign", b"[(**)]", &[LEFT, RIGHT]),
    ("words and signs in a comment", b"(*stop;[]*)a", &[NAME]),
    (
        "a comment in parentheses",
        b"((*a*))",
        &[
            TokenKind::Sign(Sign::LeftParenthesis),
            TokenKind::Sign(Sign::RightParenthesis),
        ],
    ),
    (
        "a parenthesis after the closing",
        b"(**))",
        &[TokenKind::Sign(Sign::RightParenthesis)],
    ),
];

#[test]
fn separates_by_comments(rt: HostRuntime) -> Result<(), Fail> {
    for (row, text, want) in COMMENTS {
        assert_kinds(&rt, rt.alloc(), row, text, want)?;
    }
    Ok(())
}

/// What is tested, a text with comments, and the offsets of the beginning and the end of each token.
const OFFSETS_AFTER_COMMENTS: &[(&str, &[u8], &[(usize, usize)])] = &[
    ("after a comment", b"(*a*)b", &[(5, 6)]),
    ("on each side", b"a(**)b", &[(0, 1), (5, 6)]),
    ("after two comments", b"(*a*)(*b*);", &[(10, 11)]),
    (
        "between comments and blanks",
        b"(* a *) b (* c *) d",
        &[(8, 9), (18, 19)],
    ),
    ("after a line feed", b"(*\n*)a", &[(5, 6)]),
    ("after bytes of no text", b"(*\xff\x00*)a", &[(6, 7)]),
    ("after a second opening", b"a(* (* *)b", &[(0, 1), (9, 10)]),
    (
        "after a star before the closing",
        b"(***)a1;",
        &[(5, 7), (7, 8)],
    ),
];

#[test]
fn places_tokens_after_comments(rt: HostRuntime) -> Result<(), Fail> {
    for (row, text, want) in OFFSETS_AFTER_COMMENTS {
        assert_places(&rt, rt.alloc(), row, text, want)?;
    }
    Ok(())
}

/// The number of a text's fault and its offset, 0 if it has none; two zeros if there is no fault.
fn fault_of(alloc: Global, text: &[u8]) -> (u8, usize) {
    match tokens(alloc, text) {
        Err(TextFault::E01(at)) => (1, at),
        Err(TextFault::E02(at)) => (2, at),
        Err(TextFault::E03) => (3, 0),
        Err(_) => (99, 0),
        Ok(_) => (0, 0),
    }
}

/// What is tested, a text, and the offset of the comment that is not closed.
const OPEN_COMMENTS: &[(&str, &[u8], usize)] = &[
    ("an opening alone", b"(*", 0),
    ("an opening and a star", b"(**", 0),
    ("an opening and a parenthesis", b"(*)", 0),
    ("a star at the end", b"(* *", 0),
    ("a blank inside the closing", b"(* * )", 0),
    ("the closing's bytes in turn", b"(* )*", 0),
    ("an opening after a token", b"a (* b", 2),
    (
        "a byte that begins no token after the opening",
        b"; (* ?",
        2,
    ),
    ("a token after the opening", b"(*)a", 0),
    ("the second of two", b"(**)(*", 4),
    ("the first of two", b"a(*(*", 1),
    ("an opening on the second line", b"(* a *)\n(* b", 8),
];

#[test]
fn rejects_a_comment_that_is_not_closed(rt: HostRuntime) {
    for (row, text, want) in OPEN_COMMENTS {
        assert_fault(&rt, row, fault_of(rt.alloc(), text), (2, *want));
    }
}

/// What is tested, a text, and the offset at which no token begins.
const NO_TOKENS: &[(&str, &[u8], usize)] = &[
    ("an asterisk", b"*", 0),
    ("an asterisk after a parenthesis and a blank", b"( *", 2),
    ("an asterisk before an opening", b"* (*", 0),
    ("a closing alone", b"*)", 0),
    ("a second closing", b"(**)*)", 4),
    ("an outer closing", b"(*(*a*)b*)", 8),
    ("a byte after a comment", b"(* x *) ?", 8),
    ("the end of a sign after a comment", b":(**)=", 5),
    ("the greatest byte after a comment", b"(*\xff*)\xff", 5),
    ("the least byte after a comment", b"(*\x00*)\x00", 5),
    ("an arrow's head alone", b"a > b", 2),
    ("an odd arrow's head", b">>>", 2),
    ("an equals sign", b"=", 0),
    ("an equals sign after a definition", b":==", 2),
    ("a digit", b"a 1", 2),
    ("an underscore", b"stop _", 5),
    ("the greatest byte", b"a\xff", 1),
    ("the least byte", b"\x00", 0),
    ("the byte before the blanks", b"\x08", 0),
    ("the byte after the blanks of control", b"\x0e", 0),
    ("the byte before the blank", b"\x1f", 0),
    ("the byte before the letters in upper case", b"a@", 1),
    ("the byte after the small letters", b"{", 0),
    ("a byte after a name of other letters", b"caf\xc3\xa9", 3),
    ("the first of two", b"; ? ;\n?", 2),
];

#[test]
fn rejects_what_begins_no_token(rt: HostRuntime) {
    for (row, text, want) in NO_TOKENS {
        assert_fault(&rt, row, fault_of(rt.alloc(), text), (1, *want));
    }
}

/// A text with this beginning, filled with a byte up to this length.
fn filled(alloc: Global, front: &[u8], byte: u8, length: usize) -> Result<Vec<u8>, AllocError> {
    let mut text = Vec::from_slice(alloc, front)?;
    for _ in front.len()..length {
        text.push(byte)?;
    }
    Ok(text)
}

fn fault_of_filled(
    alloc: Global,
    front: &[u8],
    byte: u8,
    length: usize,
) -> Result<(u8, usize), AllocError> {
    let text = filled(alloc, front, byte, length)?;
    Ok(fault_of(alloc, text.as_slice()))
}

/// What is tested, the beginning of a text, the byte that fills it, its length, and the number and the offset of its
/// fault; two zeros if it has none.
const LENGTHS: &[(&str, &[u8], u8, usize, u8, usize)] = &[
    ("the longest text, of blanks", b"", b' ', 1_048_576, 0, 0),
    (
        "the longest text, of an opening and stars",
        b"(*",
        b'*',
        1_048_576,
        2,
        0,
    ),
    ("a text one byte too long", b"", 255, 1_048_577, 3, 0),
];

#[test]
fn limits_the_length(rt: HostRuntime) -> Result<(), Fail> {
    for (row, front, byte, length, number, at) in LENGTHS {
        let found = fault_of_filled(rt.alloc(), front, *byte, *length)?;
        assert_fault(&rt, row, found, (*number, *at));
    }
    Ok(())
}

fn count_tokens(alloc: Global, length: usize) -> Result<usize, TextFault> {
    let text = filled(alloc, b"", b' ', length)?;
    Ok(tokens(alloc, text.as_slice())?.len())
}

#[test]
fn finds_no_token_in_the_longest_text_of_blanks(rt: HostRuntime) -> Result<(), Fail> {
    assert_eq!(rt; count_tokens(rt.alloc(), 1_048_576)?, 0);
    Ok(())
}
