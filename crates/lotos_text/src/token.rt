//! Tokens: the keywords, identifiers and signs of a text.

/// A keyword. `behaviour` and `behavior` are the same one.
///
/// Those from `AcceptWord` on are keywords of full LOTOS that this project's profile does not use.
#[derive(Clone, Copy, Debug, PartialEq, Eq)]
pub enum Word {
    SpecificationWord,
    EndspecWord,
    BehaviourWord,
    ProcessWord,
    EndprocWord,
    WhereWord,
    StopWord,
    ExitWord,
    NoexitWord,
    HideWord,
    InWord,
    IWord,
    AcceptWord,
    ChoiceWord,
    LetWord,
    ParWord,
    LibraryWord,
    TypeWord,
}

/// A sign: a token that is no word.
#[derive(Clone, Copy, Debug, PartialEq, Eq)]
pub enum Sign {
    /// `;`
    Semicolon,
    /// `:`
    Colon,
    /// `:=`
    Define,
    /// `,`
    Comma,
    /// `(`
    LeftParenthesis,
    /// `)`
    RightParenthesis,
    /// `[`
    LeftBracket,
    /// `]`
    RightBracket,
    /// `[]`
    Choice,
    /// `[>`
    Disable,
    /// `>>`
    Enable,
    /// `|[`
    LeftSync,
    /// `||`
    Full,
    /// `|||`
    Interleave,
    /// `|`
    Bar,
}

/// What a token is.
#[derive(Clone, Copy, Debug, PartialEq, Eq)]
pub enum TokenKind {
    /// A word that is no keyword: the name of a gate, a process or the specification.
    Identifier,
    /// A keyword.
    Reserved(Word),
    Sign(Sign),
}

/// A token, whose text is `text[at..end]`. Both offsets count bytes from the start of the text.
#[derive(Clone, Copy, Debug, PartialEq, Eq)]
pub struct Token {
    pub at: usize,
    pub end: usize,
    pub kind: TokenKind,
}
