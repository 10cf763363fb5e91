//! The reserved words, in a table from which `tools/editor-syntax` makes the syntax files of editors. The tests compare
//! it with the words of the lexer and the parser.
use lotos_text::{TextFault, TokenKind, Word, parse, tokens};
use std::alloc::Global;
use std::test::Fail;

/// What an editor shows a reserved word as.
#[derive(Clone, Copy, Debug, PartialEq, Eq)]
enum Group {
    /// A word of the frame of a definition.
    Definition,
    /// A word of a behaviour or of a functionality.
    Behaviour,
    /// A word of full LOTOS, which this project's profile refuses with E07.
    Full,
}

/// Each reserved word in lower case, with its token and its group.
const RESERVED: &[(&str, Word, Group)] = &[
    ("specification", Word::SpecificationWord, Group::Definition),
    ("endspec", Word::EndspecWord, Group::Definition),
    ("behaviour", Word::BehaviourWord, Group::Definition),
    ("behavior", Word::BehaviourWord, Group::Definition),
    ("process", Word::ProcessWord, Group::Definition),
    ("endproc", Word::EndprocWord, Group::Definition),
    ("where", Word::WhereWord, Group::Definition),
    ("stop", Word::StopWord, Group::Behaviour),
    ("exit", Word::ExitWord, Group::Behaviour),
    ("noexit", Word::NoexitWord, Group::Behaviour),
    ("hide", Word::HideWord, Group::Behaviour),
    ("in", Word::InWord, Group::Behaviour),
    ("i", Word::IWord, Group::Behaviour),
    ("accept", Word::AcceptWord, Group::Full),
    ("choice", Word::ChoiceWord, Group::Full),
    ("let", Word::LetWord, Group::Full),
    ("par", Word::ParWord, Group::Full),
    ("library", Word::LibraryWord, Group::Full),
    ("type", Word::TypeWord, Group::Full),
];

/// The first row of a reserved word. A word that is new to the lexer has none, and this match then does not compile.
fn first_row(word: Word) -> usize {
    match word {
        Word::SpecificationWord => 0,
        Word::EndspecWord => 1,
        Word::BehaviourWord => 2,
        Word::ProcessWord => 4,
        Word::EndprocWord => 5,
        Word::WhereWord => 6,
        Word::StopWord => 7,
        Word::ExitWord => 8,
        Word::NoexitWord => 9,
        Word::HideWord => 10,
        Word::InWord => 11,
        Word::IWord => 12,
        Word::AcceptWord => 13,
        Word::ChoiceWord => 14,
        Word::LetWord => 15,
        Word::ParWord => 16,
        Word::LibraryWord => 17,
        Word::TypeWord => 18,
    }
}

/// The kind of the first token of a text, if it has one.
fn first_kind(alloc: Global, text: &[u8]) -> Result<Option<TokenKind>, TextFault> {
    let found = tokens(alloc, text)?;
    Ok(found.first().map(|token| token.kind))
}

#[test]
fn the_table_has_the_words_of_the_lexer(rt: HostRuntime) -> Result<(), Fail> {
    for (text, word, _) in RESERVED {
        let found = first_kind(rt.alloc(), text.as_bytes())?;
        assert!(rt;
            found == Some(TokenKind::Reserved(*word)),
            "the word {text}"
        );
        let row = RESERVED.get(first_row(*word));
        assert!(rt;
            matches!(row, Some((_, other, _)) if other == word),
            "the row of {text}"
        );
    }
    Ok(())
}

/// Whether a text is refused as a word of full LOTOS.
fn is_refused_as_full(alloc: Global, text: &[u8]) -> bool {
    matches!(parse(alloc, text), Err(TextFault::E07(0)))
}

#[test]
fn the_table_marks_the_words_of_full_lotos(rt: HostRuntime) {
    for (text, _, group) in RESERVED {
        let full = is_refused_as_full(rt.alloc(), text.as_bytes());
        assert_eq!(rt; full, *group == Group::Full, "the word {text}");
    }
}
