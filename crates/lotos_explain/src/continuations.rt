//! Words and signs that may be asked for, and how each may be continued so that a construct is complete.

/// A word or a sign, and texts one of which may complete what is begun once it is there, up to the ends of the
/// constructs that are open.
#[derive(Clone, Copy)]
pub(crate) struct Candidate {
    pub text: &'static str,
    /// Whether it ends the innermost open construct.
    pub closes: bool,
    pub continuations: &'static [&'static str],
}

/// A name, which stands for every name.
pub(crate) const NAME: &str = "a";

/// What completes a binary operator.
const OPERAND: &[&str] = &["stop"];

/// All words and signs of the profile.
pub(crate) const CANDIDATES: &[Candidate] = &[
    Candidate {
        text: "specification",
        closes: false,
        continuations: &["a : exit behaviour stop endspec"],
    },
    Candidate {
        text: NAME,
        closes: false,
        continuations: &[
            "",
            "]",
            "] | stop",
            "in stop",
            ": exit := stop",
            ": exit behaviour stop",
            "] : exit := stop",
            "] : exit behaviour stop",
        ],
    },
    Candidate {
        text: "stop",
        closes: false,
        continuations: &[""],
    },
    Candidate {
        text: "exit",
        closes: false,
        continuations: &["", ":= stop", "behaviour stop"],
    },
    Candidate {
        text: "noexit",
        closes: false,
        continuations: &[":= stop", "behaviour stop"],
    },
    Candidate {
        text: "i",
        closes: false,
        continuations: &["; stop"],
    },
    Candidate {
        text: "hide",
        closes: false,
        continuations: &["a in stop"],
    },
    Candidate {
        text: "in",
        closes: false,
        continuations: OPERAND,
    },
    Candidate {
        text: "behaviour",
        closes: false,
        continuations: OPERAND,
    },
    Candidate {
        text: ";",
        closes: false,
        continuations: OPERAND,
    },
    Candidate {
        text: ":",
        closes: false,
        continuations: &["exit := stop", "exit behaviour stop"],
    },
    Candidate {
        text: ":=",
        closes: false,
        continuations: OPERAND,
    },
    Candidate {
        text: ",",
        closes: false,
        continuations: &[
            "a ]",
            "a ] | stop",
            "a in stop",
            "a ] : exit := stop",
            "a ] : exit behaviour stop",
        ],
    },
    Candidate {
        text: "(",
        closes: false,
        continuations: &["stop )"],
    },
    Candidate {
        text: ")",
        closes: true,
        continuations: &[""],
    },
    Candidate {
        text: "[",
        closes: false,
        continuations: &["a ]", "a ] : exit := stop", "a ] : exit behaviour stop"],
    },
    Candidate {
        text: "]",
        closes: false,
        continuations: &["", "| stop", ": exit := stop", ": exit behaviour stop"],
    },
    Candidate {
        text: "[]",
        closes: false,
        continuations: OPERAND,
    },
    Candidate {
        text: "|[",
        closes: false,
        continuations: &["] | stop"],
    },
    Candidate {
        text: "|",
        closes: false,
        continuations: OPERAND,
    },
    Candidate {
        text: "||",
        closes: false,
        continuations: OPERAND,
    },
    Candidate {
        text: "|||",
        closes: false,
        continuations: OPERAND,
    },
    Candidate {
        text: "[>",
        closes: false,
        continuations: OPERAND,
    },
    Candidate {
        text: ">>",
        closes: false,
        continuations: OPERAND,
    },
    Candidate {
        text: "where",
        closes: false,
        continuations: &["process a : exit := stop endproc"],
    },
    Candidate {
        text: "process",
        closes: false,
        continuations: &["a : exit := stop endproc"],
    },
    Candidate {
        text: "endproc",
        closes: true,
        continuations: &[""],
    },
    Candidate {
        text: "endspec",
        closes: true,
        continuations: &[""],
    },
];
