//! What the commands find, and what is known of the places where they stop.

use lotos_compare::Side;
use lotos_outcome::Finding;

/// What a listing finds: its lines. It is what was asked for if there are any.
#[derive(Clone, Copy, Debug)]
pub struct Listed {
    /// How many lines were written, or more if this is the greatest `u64`.
    pub lines: u64,
}

/// Where a listing stopped.
#[derive(Debug, Drop)]
pub struct ListingPlace {
    /// The text of the last sequence whose line was written completely, if there is one.
    pub last: Option<String>,
    /// The text of the prefix that reaches too many terms, if that is why it stopped.
    pub prefix: Option<String>,
}

/// What a check finds: an accepted specification, which is what was asked for.
#[derive(Clone, Copy, Debug)]
pub struct Processes {
    /// How many processes the specification has.
    pub count: u64,
}

/// Whether a pattern has a match, of any length.
#[derive(Clone, Copy, Debug, PartialEq, Eq)]
pub enum Occurrence {
    /// There is a match.
    Ever,
    /// There is none.
    Never,
}

/// What can come after a sequence.
#[derive(Debug, Drop)]
pub enum Continuation {
    /// The sequence can be observed, and the lines of what can come after it were written.
    Followed,
    /// The label with this number, counted from 1, cannot come after those before it. `instead` is the text of the
    /// labels that can, separated by one blank each; `None` if none can. Nothing was written.
    CannotCome {
        number: usize,
        instead: Option<String>,
    },
}

/// The automaton of all that can be observed, which is what was asked for.
#[derive(Clone, Copy, Debug)]
pub struct AutomatonSize {
    /// How many states it has.
    pub states: usize,
    /// How many transitions it has.
    pub transitions: u128,
}

/// What two specifications are found to be. That they do not differ is what was asked for.
#[derive(Clone, Copy, Debug, PartialEq, Eq)]
pub enum Compared {
    /// They differ, and the line of the first difference was written.
    Differ,
    /// They do not. So many pairs of sets of normal forms came up.
    Alike(usize),
}

/// Where a comparison stopped.
#[derive(Debug, Drop)]
pub struct ComparedPlace {
    /// The specification in which the sequence reaches too many terms, if that is why it stopped.
    pub side: Option<Side>,
    /// The text of the sequence.
    pub sequence: String,
}

impl Finding for Listed {
    ghost use Rattle.lotos_tool.specs.Findings.{has_lines};

    ghost is_yes = { has_lines };

    fn is_yes(&self) -> bool {
        self.lines != 0
    }
}

impl Finding for Processes {
    ghost use Rattle.lotos_tool.specs.Findings.{always};

    ghost is_yes = { always };

    fn is_yes(&self) -> bool {
        true
    }
}

impl Finding for Occurrence {
    ghost use Rattle.lotos_tool.specs.Findings.{happens};

    ghost is_yes = { happens };

    fn is_yes(&self) -> bool {
        match self {
            Occurrence::Ever => true,
            Occurrence::Never => false,
        }
    }
}

impl Finding for Continuation {
    ghost use Rattle.lotos_tool.specs.Findings.{can_come};

    ghost is_yes = { can_come };

    fn is_yes(&self) -> bool {
        match self {
            Continuation::Followed => true,
            Continuation::CannotCome { .. } => false,
        }
    }
}

impl Finding for AutomatonSize {
    ghost use Rattle.lotos_tool.specs.Findings.{always};

    ghost is_yes = { always };

    fn is_yes(&self) -> bool {
        true
    }
}

impl Finding for Compared {
    ghost use Rattle.lotos_tool.specs.Findings.{are_alike};

    ghost is_yes = { are_alike };

    fn is_yes(&self) -> bool {
        match self {
            Compared::Differ => false,
            Compared::Alike(_) => true,
        }
    }
}
