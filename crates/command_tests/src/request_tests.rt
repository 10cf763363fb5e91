//! Which requests and faults words make, as long as memory lasts.
use lotos_command::{CommandFault, Request, request};
use std::alloc::{AllocError, Global};
use std::test::Fail;

/// What is tested, words, and their request as `Debug` writes it.
const REQUESTS: &[(&str, &[&str], &str)] = &[
    ("a check", &["lotosseq", "check"], "Check"),
    (
        "a check that explains a fault",
        &["lotosseq", "check", "--explain"],
        "Diagnose(DiagnoseRequest { explain: true, warn: false, brief: false })",
    ),
    (
        "a check that warns",
        &["lotosseq", "check", "--warn"],
        "Diagnose(DiagnoseRequest { explain: false, warn: true, brief: false })",
    ),
    (
        "a check with all diagnostics",
        &["lotosseq", "check", "--warn", "--explain"],
        "Diagnose(DiagnoseRequest { explain: true, warn: true, brief: false })",
    ),
    (
        "a check that says no more at a terminal than elsewhere",
        &["lotosseq", "check", "--brief"],
        "Diagnose(DiagnoseRequest { explain: false, warn: false, brief: true })",
    ),
    (
        "a check that explains and says no more at a terminal than elsewhere",
        &["lotosseq", "check", "--brief", "--explain"],
        "Diagnose(DiagnoseRequest { explain: true, warn: false, brief: true })",
    ),
    (
        "a search that says no more at a terminal than elsewhere",
        &["lotosseq", "search", "--brief", "--length=1"],
        "Search(SearchRequest { extent: Length(1), limit: None, terms: 100000, after: None, runs: Omitted, interface: Whole, strong: false, known: false, progress: false, brief: true, words: [] })",
    ),
    (
        "a question that says no more at a terminal than elsewhere",
        &["lotosseq", "ever", "A", "--brief"],
        "Ever(EverRequest { states: 1000000, runs: Omitted, interface: Whole, strong: false, progress: false, brief: true, words: [\"A\"] })",
    ),
    (
        "a sequence of which no more is said at a terminal than elsewhere",
        &["lotosseq", "after", "--brief", "--", "--brief"],
        "After(AfterRequest { terms: 100000, interface: Whole, strong: false, progress: false, brief: true, words: [\"--brief\"] })",
    ),
    (
        "a cover of which no more is said at a terminal than elsewhere",
        &["lotosseq", "cover", "--brief"],
        "Cover(CoverRequest { limit: None, after: None, terms: 100000, states: 1000000, interface: Whole, strong: false, progress: false, brief: true })",
    ),
    (
        "an automaton of which no more is said at a terminal than elsewhere",
        &["lotosseq", "graph", "--brief"],
        "Graph(GraphRequest { terms: 100000, states: 1000000, interface: Whole, strong: false, progress: false, brief: true })",
    ),
    (
        "a suite of which no more is said at a terminal than elsewhere",
        &["lotosseq", "suite", "--brief"],
        "Suite(SuiteRequest { extra: 0, limit: None, after: None, terms: 100000, states: 1000000, interface: Whole, strong: false, progress: false, brief: true })",
    ),
    (
        "a search with all that it may have but a run",
        &[
            "lotosseq",
            "search",
            "--after=A : i A",
            "--depth",
            "+7",
            "--strong",
            "--limit",
            "3",
            "--known",
            "--progress",
            "--",
            "-x",
            "A",
        ],
        "Search(SearchRequest { extent: Depth(7), limit: Some(3), terms: 100000, after: Some(\"A : i A\"), runs: Omitted, interface: Whole, strong: true, known: true, progress: true, brief: false, words: [\"-x\", \"A\"] })",
    ),
    (
        "flags that are not given",
        &["lotosseq", "search", "--depth", "0", "--", "--known"],
        "Search(SearchRequest { extent: Depth(0), limit: None, terms: 100000, after: None, runs: Omitted, interface: Whole, strong: false, known: false, progress: false, brief: false, words: [\"--known\"] })",
    ),
    (
        "runs",
        &["lotosseq", "search", "--explain", "--depth", "2", "A"],
        "Search(SearchRequest { extent: Depth(2), limit: None, terms: 100000, after: None, runs: Labels, interface: Whole, strong: false, known: false, progress: false, brief: false, words: [\"A\"] })",
    ),
    (
        "runs that have what makes their internal steps",
        &[
            "lotosseq",
            "search",
            "A",
            "--length=2",
            "--explain",
            "--hidden",
        ],
        "Search(SearchRequest { extent: Length(2), limit: None, terms: 100000, after: None, runs: Origins, interface: Whole, strong: false, known: false, progress: false, brief: false, words: [\"A\"] })",
    ),
    (
        "a length in place of a depth",
        &["lotosseq", "search", "A", "--length", "255"],
        "Search(SearchRequest { extent: Length(255), limit: None, terms: 100000, after: None, runs: Omitted, interface: Whole, strong: false, known: false, progress: false, brief: false, words: [\"A\"] })",
    ),
    (
        "a question with options among its words",
        &["lotosseq", "ever", "A", "--states", "7", "--explain", "B"],
        "Ever(EverRequest { states: 7, runs: Labels, interface: Whole, strong: false, progress: false, brief: false, words: [\"A\", \"B\"] })",
    ),
    (
        "a question that has what makes the internal steps",
        &["lotosseq", "ever", "--hidden", "A"],
        "Ever(EverRequest { states: 1000000, runs: Origins, interface: Whole, strong: false, progress: false, brief: false, words: [\"A\"] })",
    ),
    (
        "a question with both options about the run",
        &["lotosseq", "ever", "--hidden", "--explain", "A"],
        "Ever(EverRequest { states: 1000000, runs: Origins, interface: Whole, strong: false, progress: false, brief: false, words: [\"A\"] })",
    ),
    (
        "a question that tells how far it is",
        &["lotosseq", "ever", "--progress", "A"],
        "Ever(EverRequest { states: 1000000, runs: Omitted, interface: Whole, strong: false, progress: true, brief: false, words: [\"A\"] })",
    ),
    (
        "a question without words",
        &["lotosseq", "ever"],
        "Ever(EverRequest { states: 1000000, runs: Omitted, interface: Whole, strong: false, progress: false, brief: false, words: [] })",
    ),
    (
        "a sequence without labels",
        &["lotosseq", "after"],
        "After(AfterRequest { terms: 100000, interface: Whole, strong: false, progress: false, brief: false, words: [] })",
    ),
    (
        "a sequence with options among its labels",
        &["lotosseq", "after", "put", "--strong", "i", "--terms", "1"],
        "After(AfterRequest { terms: 1, interface: Whole, strong: true, progress: false, brief: false, words: [\"put\", \"i\"] })",
    ),
    (
        "a sequence with the greatest number of terms, that tells how far it is",
        &[
            "lotosseq",
            "after",
            "--progress",
            "--terms=1000000",
            "--",
            "A",
        ],
        "After(AfterRequest { terms: 1000000, interface: Whole, strong: false, progress: true, brief: false, words: [\"A\"] })",
    ),
    (
        "a cover without options",
        &["lotosseq", "cover"],
        "Cover(CoverRequest { limit: None, after: None, terms: 100000, states: 1000000, interface: Whole, strong: false, progress: false, brief: false })",
    ),
    (
        "a cover with all that it may have",
        &[
            "lotosseq",
            "cover",
            "--states=+7",
            "--progress",
            "--after",
            "A B",
            "--limit",
            "1",
            "--strong",
            "--terms",
            "2",
        ],
        "Cover(CoverRequest { limit: Some(1), after: Some(\"A B\"), terms: 2, states: 7, interface: Whole, strong: true, progress: true, brief: false })",
    ),
    (
        "a cover with the greatest numbers",
        &[
            "lotosseq",
            "cover",
            "--limit=1000000000",
            "--terms=1000000",
            "--states=100000000",
        ],
        "Cover(CoverRequest { limit: Some(1000000000), after: None, terms: 1000000, states: 100000000, interface: Whole, strong: false, progress: false, brief: false })",
    ),
    (
        "an automaton without options",
        &["lotosseq", "graph"],
        "Graph(GraphRequest { terms: 100000, states: 1000000, interface: Whole, strong: false, progress: false, brief: false })",
    ),
    (
        "an automaton with all that it may have",
        &[
            "lotosseq",
            "graph",
            "--states=+7",
            "--progress",
            "--only",
            "A,b",
            "--strong",
            "--terms",
            "2",
        ],
        "Graph(GraphRequest { terms: 2, states: 7, interface: Only(\"A,b\"), strong: true, progress: true, brief: false })",
    ),
    (
        "a suite without options",
        &["lotosseq", "suite"],
        "Suite(SuiteRequest { extra: 0, limit: None, after: None, terms: 100000, states: 1000000, interface: Whole, strong: false, progress: false, brief: false })",
    ),
    (
        "a suite with all that it may have",
        &[
            "lotosseq",
            "suite",
            "--after=- A b",
            "--states=+7",
            "--progress",
            "--extra",
            "3",
            "--hide",
            "A,b",
            "--strong",
            "--limit=4",
            "--terms",
            "2",
        ],
        "Suite(SuiteRequest { extra: 3, limit: Some(4), after: Some(\"- A b\"), terms: 2, states: 7, interface: Hide(\"A,b\"), strong: true, progress: true, brief: false })",
    ),
    (
        "a comparison without options",
        &["lotosseq", "compare"],
        "Compare(CompareRequest { within: false, terms: 100000, states: 1000000, interface: Whole, strong: false, progress: false, brief: false })",
    ),
    (
        "a comparison with all that it may have",
        &[
            "lotosseq",
            "compare",
            "--states=8",
            "--within",
            "--hide=a,B",
            "--progress",
            "--strong",
            "--terms=+3",
            "--brief",
        ],
        "Compare(CompareRequest { within: true, terms: 3, states: 8, interface: Hide(\"a,B\"), strong: true, progress: true, brief: true })",
    ),
];

/// The request of the words as `Debug` writes it, or `help` or `wrong`.
pub(crate) fn answer(alloc: Global, words: &[&str]) -> Result<String, AllocError> {
    match request(alloc, words) {
        Ok(asked) => format!(in alloc; "{asked:?}"),
        Err(CommandFault::Help(_)) => format!(in alloc; "help"),
        Err(CommandFault::Wrong(_)) => format!(in alloc; "wrong"),
        Err(CommandFault::Memory) => format!(in alloc; "memory"),
    }
}

#[test]
fn reads_requests(rt: HostRuntime) -> Result<(), Fail> {
    for (subject, words, expected) in REQUESTS {
        let found = answer(rt.alloc(), words)?;
        assert_eq!(rt; found.as_str(), *expected, "{}", subject);
    }
    Ok(())
}

/// What is tested, words, and the words of their pattern as `Debug` writes them.
const QUOTED: &[(&str, &[&str], &str)] = &[
    (
        "a question in one pair of quotes",
        &[
            "lotosseq",
            "ever",
            "<while> <any> R1_IN <while> <not> R1_OUT W_IN",
        ],
        "[\"<while>\", \"<any>\", \"R1_IN\", \"<while>\", \"<not>\", \"R1_OUT\", \"W_IN\"]",
    ),
    (
        "words in quotes before, between and after words alone",
        &["lotosseq", "ever", "A B", "C", "D E", "F"],
        "[\"A\", \"B\", \"C\", \"D\", \"E\", \"F\"]",
    ),
    (
        "blanks before, after and repeated",
        &["lotosseq", "search", "--depth=1", "  A   B "],
        "[\"A\", \"B\"]",
    ),
    (
        "each blank",
        &["lotosseq", "search", "--depth=1", "A B\tC\nD\r\u{c}E\n"],
        "[\"A\", \"B\", \"C\", \"D\", \"E\"]",
    ),
    (
        "white space that is no blank",
        &["lotosseq", "ever", "A\u{b}B\u{a0}C\u{2003}D"],
        "[\"A\\u{b}B\\u{a0}C\\u{2003}D\"]",
    ),
    (
        "the labels of a log, one a line",
        &["lotosseq", "after", "PUT\nGET\nPUT\n"],
        "[\"PUT\", \"GET\", \"PUT\"]",
    ),
    (
        "an empty word among labels",
        &["lotosseq", "after", "A B", "", "\n"],
        "[\"A\", \"B\", \"\", \"\\n\"]",
    ),
    (
        "an empty word",
        &["lotosseq", "ever", "A", "", "B"],
        "[\"A\", \"\", \"B\"]",
    ),
    (
        "words of blanks only",
        &["lotosseq", "ever", " ", "A B", "\t \n"],
        "[\" \", \"A\", \"B\", \"\\t \\n\"]",
    ),
    (
        "what would be an option, after a word in quotes",
        &["lotosseq", "ever", "A --strong --states 7"],
        "[\"A\", \"--strong\", \"--states\", \"7\"]",
    ),
    (
        "words in quotes after `--`",
        &["lotosseq", "search", "--depth", "1", "--", "-x A"],
        "[\"-x\", \"A\"]",
    ),
];

/// The words of the pattern for which these words ask as `Debug` writes them, or `no pattern`.
fn pattern_words(alloc: Global, words: &[&str]) -> Result<String, AllocError> {
    match request(alloc, words) {
        Ok(Request::Search(asked)) => format!(in alloc; "{:?}", asked.words),
        Ok(Request::Ever(asked)) => format!(in alloc; "{:?}", asked.words),
        Ok(Request::After(asked)) => format!(in alloc; "{:?}", asked.words),
        _ => format!(in alloc; "no pattern"),
    }
}

#[test]
fn splits_words_at_blanks(rt: HostRuntime) -> Result<(), Fail> {
    for (subject, words, expected) in QUOTED {
        let found = pattern_words(rt.alloc(), words)?;
        assert_eq!(rt; found.as_str(), *expected, "{}", subject);
    }
    Ok(())
}

/// Words of `after`, and whether they ask for help, or fit no command.
const SEQUENCES: &[(&[&str], &str)] = &[
    (&["lotosseq", "after", "--help"], "help"),
    (&["lotosseq", "help", "after"], "help"),
    (&["lotosseq", "after", "A", "-h"], "help"),
    (&["lotosseq", "after", "-V"], "wrong"),
    (&["lotosseq", "after", "--terms", "0"], "wrong"),
    (&["lotosseq", "after", "--terms", "1000001"], "wrong"),
    (&["lotosseq", "after", "--terms=1", "--terms=1"], "wrong"),
    (&["lotosseq", "after", "--strong", "--strong"], "wrong"),
    (&["lotosseq", "after", "--strong=true"], "wrong"),
    (&["lotosseq", "after", "--explain", "A"], "wrong"),
    (&["lotosseq", "after", "--hidden", "A"], "wrong"),
    (&["lotosseq", "after", "--known", "A"], "wrong"),
    (&["lotosseq", "after", "--depth", "3"], "wrong"),
    (&["lotosseq", "after", "--length", "3"], "wrong"),
    (&["lotosseq", "after", "--states", "3"], "wrong"),
    (&["lotosseq", "after", "--limit", "3"], "wrong"),
    (&["lotosseq", "after", "--after", "A"], "wrong"),
];

/// Words of `cover`, and whether they ask for help, or fit no command.
const COVERS: &[(&[&str], &str)] = &[
    (&["lotosseq", "cover", "--help"], "help"),
    (&["lotosseq", "help", "cover"], "help"),
    (&["lotosseq", "cover", "--strong", "-h"], "help"),
    (&["lotosseq", "cover", "-V"], "wrong"),
    (&["lotosseq", "cover", "A"], "wrong"),
    (&["lotosseq", "cover", ""], "wrong"),
    (&["lotosseq", "cover", "--", "--strong"], "wrong"),
    (&["lotosseq", "cover", "--limit", "0"], "wrong"),
    (&["lotosseq", "cover", "--limit", "1000000001"], "wrong"),
    (&["lotosseq", "cover", "--terms", "0"], "wrong"),
    (&["lotosseq", "cover", "--terms", "1000001"], "wrong"),
    (&["lotosseq", "cover", "--states", "0"], "wrong"),
    (&["lotosseq", "cover", "--states", "100000001"], "wrong"),
    (&["lotosseq", "cover", "--limit=1", "--limit=1"], "wrong"),
    (&["lotosseq", "cover", "--terms=1", "--terms=1"], "wrong"),
    (&["lotosseq", "cover", "--states=1", "--states=1"], "wrong"),
    (&["lotosseq", "cover", "--after=A", "--after=A"], "wrong"),
    (&["lotosseq", "cover", "--strong", "--strong"], "wrong"),
    (&["lotosseq", "cover", "--progress", "--progress"], "wrong"),
    (&["lotosseq", "cover", "--brief", "--brief"], "wrong"),
    (&["lotosseq", "cover", "--brief=true"], "wrong"),
    (&["lotosseq", "cover", "--after"], "wrong"),
    (&["lotosseq", "cover", "--explain"], "wrong"),
    (&["lotosseq", "cover", "--hidden"], "wrong"),
    (&["lotosseq", "cover", "--known"], "wrong"),
    (&["lotosseq", "cover", "--depth", "3"], "wrong"),
    (&["lotosseq", "cover", "--length", "3"], "wrong"),
];

/// Words of `graph`, and whether they ask for help, or fit no command.
const GRAPHS: &[(&[&str], &str)] = &[
    (&["lotosseq", "graph", "--help"], "help"),
    (&["lotosseq", "help", "graph"], "help"),
    (&["lotosseq", "graph", "--strong", "-h"], "help"),
    (&["lotosseq", "graph", "-V"], "wrong"),
    (&["lotosseq", "graph", "A"], "wrong"),
    (&["lotosseq", "graph", "--", "--strong"], "wrong"),
    (&["lotosseq", "graph", "--terms", "0"], "wrong"),
    (&["lotosseq", "graph", "--terms", "1000001"], "wrong"),
    (&["lotosseq", "graph", "--states", "0"], "wrong"),
    (&["lotosseq", "graph", "--states", "100000001"], "wrong"),
    (&["lotosseq", "graph", "--terms=1", "--terms=1"], "wrong"),
    (&["lotosseq", "graph", "--strong", "--strong"], "wrong"),
    (&["lotosseq", "graph", "--limit", "3"], "wrong"),
    (&["lotosseq", "graph", "--after", "A"], "wrong"),
    (&["lotosseq", "graph", "--explain"], "wrong"),
    (&["lotosseq", "graph", "--known"], "wrong"),
    (&["lotosseq", "graph", "--length", "3"], "wrong"),
];

/// Words of `suite`, and whether they ask for help, or fit no command.
const SUITES: &[(&[&str], &str)] = &[
    (&["lotosseq", "suite", "--help"], "help"),
    (&["lotosseq", "help", "suite"], "help"),
    (&["lotosseq", "suite", "--extra=1", "-h"], "help"),
    (&["lotosseq", "suite", "-V"], "wrong"),
    (&["lotosseq", "suite", "A"], "wrong"),
    (&["lotosseq", "suite", "--", "--strong"], "wrong"),
    (&["lotosseq", "suite", "--extra", "4"], "wrong"),
    (&["lotosseq", "suite", "--extra=1", "--extra=1"], "wrong"),
    (&["lotosseq", "suite", "--limit", "0"], "wrong"),
    (&["lotosseq", "suite", "--terms", "0"], "wrong"),
    (&["lotosseq", "suite", "--states", "100000001"], "wrong"),
    (&["lotosseq", "suite", "--after", "- A"], "wrong"),
    (&["lotosseq", "suite", "--explain"], "wrong"),
    (&["lotosseq", "suite", "--known"], "wrong"),
    (&["lotosseq", "suite", "--length", "3"], "wrong"),
    (&["lotosseq", "cover", "--extra", "1"], "wrong"),
];

/// Words of `compare`, and whether they ask for help, or fit no command.
const COMPARISONS: &[(&[&str], &str)] = &[
    (&["lotosseq", "compare", "--help"], "help"),
    (&["lotosseq", "help", "compare"], "help"),
    (&["lotosseq", "compare", "--within", "-h"], "help"),
    (&["lotosseq", "compare", "-V"], "wrong"),
    (&["lotosseq", "compare", "A"], "wrong"),
    (&["lotosseq", "compare", "--", "--within"], "wrong"),
    (&["lotosseq", "compare", "--terms", "0"], "wrong"),
    (&["lotosseq", "compare", "--terms", "1000001"], "wrong"),
    (&["lotosseq", "compare", "--states", "0"], "wrong"),
    (&["lotosseq", "compare", "--states", "100000001"], "wrong"),
    (
        &["lotosseq", "compare", "--states=1", "--states=1"],
        "wrong",
    ),
    (&["lotosseq", "compare", "--within", "--within"], "wrong"),
    (&["lotosseq", "compare", "--within=true"], "wrong"),
    (&["lotosseq", "compare", "--limit", "3"], "wrong"),
    (&["lotosseq", "compare", "--known"], "wrong"),
    (&["lotosseq", "graph", "--within"], "wrong"),
];

/// Words, and whether they ask for help or for the version, or fit no command.
const OTHERS: &[(&[&str], &str)] = &[
    (&["lotosseq", "--help"], "help"),
    (&["lotosseq", "help", "search"], "help"),
    (&["lotosseq", "check", "-h"], "help"),
    (&["lotosseq", "ever", "--help"], "help"),
    (&["lotosseq", "--version"], "help"),
    (&["lotosseq", "-V"], "help"),
    (&["lotosseq", "-V", "check", "A"], "help"),
    (&["lotosseq", "check", "--version"], "wrong"),
    (&["lotosseq", "search", "--depth=1", "-V"], "wrong"),
    (&["lotosseq", "ever", "-V"], "wrong"),
    (&["lotosseq", "--warn"], "wrong"),
    (&["lotosseq", "check", "--explain", "A"], "wrong"),
    (&["lotosseq", "check", "--warn", "--warn"], "wrong"),
    (&["lotosseq", "check", "--explain=false"], "wrong"),
    (&["lotosseq", "check", "--progress"], "wrong"),
    (&["lotosseq", "check", "--hidden"], "wrong"),
    (&["lotosseq", "ever", "--hidden", "--hidden"], "wrong"),
    (&["lotosseq", "ever", "--hidden=true", "A"], "wrong"),
    (&["lotosseq", "search", "--depth=1", "--warn"], "wrong"),
    (&["lotosseq", "ever", "--warn"], "wrong"),
    (&["lotosseq"], "wrong"),
    (&["lotosseq", "ever", "--states", "0"], "wrong"),
    (&["lotosseq", "ever", "--depth", "3"], "wrong"),
    (&["lotosseq", "search", "A"], "wrong"),
    (&["lotosseq", "search", "--depth", "256"], "wrong"),
    (&["lotosseq", "search", "--length", "256"], "wrong"),
    (&["lotosseq", "search", "--length", "-1"], "wrong"),
    (&["lotosseq", "search", "--length=1", "--depth=1"], "wrong"),
    (
        &["lotosseq", "search", "--depth=1", "A", "--length", "0"],
        "wrong",
    ),
    (&["lotosseq", "search", "--length=1", "--length=1"], "wrong"),
    (&["lotosseq", "ever", "--length", "3"], "wrong"),
    (&["lotosseq", "search", "--depth=1", "--limit=0"], "wrong"),
    (&["lotosseq", "check", "A"], "wrong"),
    (&["lotosseq", "ever", "--known", "A"], "wrong"),
    (
        &["lotosseq", "search", "--depth=1", "--known=true"],
        "wrong",
    ),
    (
        &["lotosseq", "search", "--depth=1", "--known", "--known"],
        "wrong",
    ),
];

#[test]
fn distinguishes_help_from_faults(rt: HostRuntime) -> Result<(), Fail> {
    for (words, expected) in OTHERS {
        let found = answer(rt.alloc(), words)?;
        assert_eq!(rt; found.as_str(), *expected, "{:?}", words);
    }
    Ok(())
}

#[test]
fn distinguishes_help_from_faults_of_after(rt: HostRuntime) -> Result<(), Fail> {
    for (words, expected) in SEQUENCES {
        let found = answer(rt.alloc(), words)?;
        assert_eq!(rt; found.as_str(), *expected, "{:?}", words);
    }
    Ok(())
}

#[test]
fn distinguishes_help_from_faults_of_cover(rt: HostRuntime) -> Result<(), Fail> {
    for (words, expected) in COVERS {
        let found = answer(rt.alloc(), words)?;
        assert_eq!(rt; found.as_str(), *expected, "{:?}", words);
    }
    Ok(())
}

#[test]
fn distinguishes_help_from_faults_of_compare(rt: HostRuntime) -> Result<(), Fail> {
    for (words, expected) in COMPARISONS {
        let found = answer(rt.alloc(), words)?;
        assert_eq!(rt; found.as_str(), *expected, "{:?}", words);
    }
    Ok(())
}

#[test]
fn distinguishes_help_from_faults_of_graph(rt: HostRuntime) -> Result<(), Fail> {
    for (words, expected) in GRAPHS {
        let found = answer(rt.alloc(), words)?;
        assert_eq!(rt; found.as_str(), *expected, "{:?}", words);
    }
    Ok(())
}

#[test]
fn distinguishes_help_from_faults_of_suite(rt: HostRuntime) -> Result<(), Fail> {
    for (words, expected) in SUITES {
        let found = answer(rt.alloc(), words)?;
        assert_eq!(rt; found.as_str(), *expected, "{:?}", words);
    }
    Ok(())
}

/// The text for words that ask for help or for the version; for others no text.
fn help_text(alloc: Global, words: &[&str]) -> String {
    match request(alloc, words) {
        Err(CommandFault::Help(text)) => text,
        _ => String::new(alloc),
    }
}

#[test]
fn names_version_and_logic(rt: HostRuntime) {
    for word in ["--version", "-V"] {
        let text = help_text(rt.alloc(), &["lotosseq", word]);
        assert_eq!(rt;
            text.as_str(),
            "lotosseq 0.1.0 (proved, logic dac8208d650f15bf)\n"
        );
    }
}

/// What is given, and the text of the fault: clap's, with the usage line of `search`.
const EXTENTS: &[(&[&str], &str)] = &[
    (
        &["lotosseq", "search", "--length=1", "--depth=1"],
        "error: the argument '--depth <N>' cannot be used with '--length <N>'

Usage: lotosseq search [OPTIONS] <--depth <N>|--length <N>> [WORD]...

For more information, try '--help'.
",
    ),
    (
        &["lotosseq", "search", "A"],
        "error: the following required arguments were not provided:
  <--depth <N>|--length <N>>

Usage: lotosseq search [OPTIONS] <--depth <N>|--length <N>> [WORD]...

For more information, try '--help'.
",
    ),
];

/// The text for words that fit no command; for others no text.
pub(crate) fn wrong_text(alloc: Global, words: &[&str]) -> String {
    match request(alloc, words) {
        Err(CommandFault::Wrong(text)) => text,
        _ => String::new(alloc),
    }
}

#[test]
fn says_that_one_extent_is_needed(rt: HostRuntime) {
    for (words, expected) in EXTENTS {
        let text = wrong_text(rt.alloc(), words);
        assert_eq!(rt; text.as_str(), *expected);
    }
}

#[test]
fn says_that_a_cover_has_no_words(rt: HostRuntime) {
    let text = wrong_text(rt.alloc(), &["lotosseq", "cover", "A"]);
    assert_eq!(rt;
        text.as_str(),
        "error: unexpected argument 'A' found

Usage: lotosseq cover [OPTIONS]

For more information, try '--help'.
"
    );
}
