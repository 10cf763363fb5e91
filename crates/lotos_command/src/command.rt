//! Requests: what the words of the command line ask for.

use std::alloc::AllocError;

/// What the words of the command line ask for.
#[derive(Debug, Drop)]
pub enum Request {
    /// Check a specification and list its processes.
    Check,
    /// The same, with options about what standard error has.
    Diagnose(DiagnoseRequest),
    /// List the sequences that match a pattern.
    Search(SearchRequest),
    /// Find a shortest match of a pattern, of any length.
    Ever(EverRequest),
    /// Tell what can come after a sequence.
    After(AfterRequest),
    /// List sequences that together show all that can be observed.
    Cover(CoverRequest),
    /// Write all that can be observed as an automaton.
    Graph(GraphRequest),
    /// List the lines of a test suite that misses nothing.
    Suite(SuiteRequest),
    /// Find the first difference in what can be observed of two specifications.
    Compare(CompareRequest),
}

/// A request for a check with options, at least one of them. They change neither output nor status.
#[derive(Debug, Drop)]
pub struct DiagnoseRequest {
    /// Whether a fault is explained.
    pub explain: bool,
    /// Whether warnings of an accepted specification are written.
    pub warn: bool,
    /// Whether a terminal is told no more than another stream.
    pub brief: bool,
}

/// Which sequences a listing has.
#[derive(Clone, Copy, Debug, PartialEq, Eq)]
pub enum Extent {
    /// Those of the derivations of at most so many steps, internal ones included.
    Depth(u8),
    /// Those of at most so many labels, of derivations of any number of steps.
    Length(u8),
}

/// What a line has after its sequence.
#[derive(Clone, Copy, Debug, PartialEq, Eq)]
pub enum Runs {
    /// Nothing.
    Omitted,
    /// A run: the labels of its steps, internal ones included.
    Labels,
    /// The same run, with each internal step by what makes it.
    Origins,
}

/// Which gates of a specification's own list a question is about. All others are hidden around its behaviour. Gates are
/// given by their names, in any mix of cases, joined by commas; the names are not yet looked up.
#[derive(Debug, Drop)]
pub enum Interface {
    /// All gates.
    Whole,
    /// All gates but these.
    Hide(String),
    /// These gates.
    Only(String),
}

/// A request for a listing. The words are not yet read as a pattern, and the line is as the command line has it, not
/// yet read as a mark.
#[derive(Debug, Drop)]
pub struct SearchRequest {
    /// Which sequences are listed.
    pub extent: Extent,
    /// The most lines that are written, at least 1; `None` for no limit.
    pub limit: Option<u32>,
    /// The most terms that a prefix of a sequence may reach, at least 1; normal forms of terms, if the listing is one by
    /// length.
    pub terms: usize,
    /// A line of a listing: only what comes after its sequence is listed. `None` for the whole listing.
    pub after: Option<String>,
    /// What each line has after its sequence. The run is the least of the sequence; the first of the shortest of any
    /// length, if the listing is one by length.
    pub runs: Runs,
    /// Which gates of the specification's own list the question is about.
    pub interface: Interface,
    /// Whether internal steps are observed: `i` is then a label like others.
    pub strong: bool,
    /// Whether a word that names a gate not in the specification's own list is refused.
    pub known: bool,
    /// Whether standard error tells how far the search is.
    pub progress: bool,
    /// Whether a terminal is told no more than another stream.
    pub brief: bool,
    /// The words of the pattern. The command line may have several of them in one word, with blanks between.
    pub words: Vec<String>,
}

/// A request for a shortest match, of any length. The words are not yet read as a pattern.
#[derive(Debug, Drop)]
pub struct EverRequest {
    /// The most product states that may be stored, at least 1. Each is the normal form of a term and a place in the
    /// pattern.
    pub states: usize,
    /// What the line has after its sequence. The run is that of the match.
    pub runs: Runs,
    /// Which gates of the specification's own list the question is about.
    pub interface: Interface,
    /// Whether internal steps are observed: `i` is then a label like others.
    pub strong: bool,
    /// Whether standard error tells how far the search is.
    pub progress: bool,
    /// Whether a terminal is told no more than another stream.
    pub brief: bool,
    /// The words of the pattern, as those of a [`SearchRequest`].
    pub words: Vec<String>,
}

/// A request for what can come after a sequence. The words are not yet read as labels.
#[derive(Debug, Drop)]
pub struct AfterRequest {
    /// The most normal forms of terms that a beginning of the sequence may reach, at least 1.
    pub terms: usize,
    /// Which gates of the specification's own list the question is about.
    pub interface: Interface,
    /// Whether internal steps are observed: `i` is then a label like others.
    pub strong: bool,
    /// Whether standard error tells how far the sequence was followed.
    pub progress: bool,
    /// Whether a terminal is told no more than another stream.
    pub brief: bool,
    /// The words of the sequence, each a label. The command line may have several of them in one word, with blanks
    /// between.
    pub words: Vec<String>,
}

/// A request for sequences that together show all that can be observed. The line is as the command line has it, not yet
/// read as a mark.
#[derive(Debug, Drop)]
pub struct CoverRequest {
    /// The most lines that are written, at least 1; `None` for no limit.
    pub limit: Option<u32>,
    /// A line of a listing: only what comes after its sequence is listed. `None` for the whole listing.
    pub after: Option<String>,
    /// The most normal forms of terms that a prefix of a sequence may reach, at least 1.
    pub terms: usize,
    /// The most sets of normal forms that may be reached, at least 1.
    pub states: usize,
    /// Which gates of the specification's own list the question is about.
    pub interface: Interface,
    /// Whether internal steps are observed: `i` is then a label like others.
    pub strong: bool,
    /// Whether standard error tells how far the search is.
    pub progress: bool,
    /// Whether a terminal is told no more than another stream.
    pub brief: bool,
}

/// A request for all that can be observed, as an automaton.
#[derive(Debug, Drop)]
pub struct GraphRequest {
    /// The most normal forms of terms that a sequence may reach, at least 1.
    pub terms: usize,
    /// The most sets of normal forms that may be reached, at least 1.
    pub states: usize,
    /// Which gates of the specification's own list the question is about.
    pub interface: Interface,
    /// Whether internal steps are observed: `i` is then a label like others.
    pub strong: bool,
    /// Whether standard error tells how far the search is.
    pub progress: bool,
    /// Whether a terminal is told no more than another stream.
    pub brief: bool,
}

/// A request for a test suite: lines that say what an implementation has to be able to do, and what not. The line is as
/// the command line has it, not yet read as a mark.
#[derive(Debug, Drop)]
pub struct SuiteRequest {
    /// How many states more than the automaton of all that can be observed an implementation may have, at most 3.
    pub extra: usize,
    /// The most lines that are written, at least 1; `None` for no limit.
    pub limit: Option<u32>,
    /// A line of a suite, or its labels alone: only the lines after it are listed. `None` for the whole suite.
    pub after: Option<String>,
    /// The most normal forms of terms that a sequence may reach, at least 1.
    pub terms: usize,
    /// The most sets of normal forms that may be reached, at least 1.
    pub states: usize,
    /// Which gates of the specification's own list the question is about.
    pub interface: Interface,
    /// Whether internal steps are observed: `i` is then a label like others.
    pub strong: bool,
    /// Whether standard error tells how far the search is.
    pub progress: bool,
    /// Whether a terminal is told no more than another stream.
    pub brief: bool,
}

/// A request for the first difference in what can be observed of two specifications.
#[derive(Debug, Drop)]
pub struct CompareRequest {
    /// Whether only sequences of the first specification are asked for that cannot be observed of the second.
    pub within: bool,
    /// The most normal forms of terms that a sequence may reach in one of the specifications, at least 1.
    pub terms: usize,
    /// The most pairs of sets of normal forms that may be reached, at least 1.
    pub states: usize,
    /// Which gates of the specifications' own lists the question is about.
    pub interface: Interface,
    /// Whether internal steps are observed: `i` is then a label like others.
    pub strong: bool,
    /// Whether standard error tells how far the search is.
    pub progress: bool,
    /// Whether standard error has no more at a terminal than elsewhere.
    pub brief: bool,
}

/// Why the words make no request.
#[derive(Debug, Drop)]
pub enum CommandFault {
    /// The words ask for help or for the version, and this is its text.
    Help(String),
    /// The words fit no command, and this text says why.
    Wrong(String),
    /// Out of memory.
    Memory,
}

impl From<AllocError> for CommandFault {
    ghost use Rattle.std.specs.Prelude.{◌≡◌};
    ghost use Rattle.lotos_command.specs.declared.command.CommandFault.TheVariants.{Memory};

    ghost from_gives = { λ _ e. e ≡ Memory };

    fn from(_error: AllocError) -> CommandFault {
        CommandFault::Memory
    }
}
