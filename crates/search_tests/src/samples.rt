//! Small specifications, each by its functionality and its behaviour, and patterns for them.
use lotos_pattern::EndKind;

/// The words of a pattern.
pub type Words = &'static [&'static str];

/// Action prefix, `i`, `stop` and `exit`.
pub const PREFIXES: &[&str] = &[
    "noexit behaviour stop",
    "exit behaviour exit",
    "noexit behaviour a; b; c; stop",
    "noexit behaviour i; a; i; i; b; stop",
    "exit behaviour a; a1; exit",
    "noexit behaviour i; i; i; stop",
    "noexit behaviour b; a; b; a; b; a; stop",
    "exit behaviour a; i; b; i; exit",
];

/// Choice.
pub const CHOICES: &[&str] = &[
    "noexit behaviour a; stop [] a; b; stop",
    "noexit behaviour i; i; a; b; stop [] i; a; b; stop",
    "noexit behaviour i; a; stop [] a; i; stop",
    "exit behaviour exit [] i; exit [] a; exit",
    "noexit behaviour a; (b; stop [] c; stop) [] a; b; stop",
    "noexit behaviour c; stop [] b; stop [] a1; stop [] a; stop",
    "exit behaviour i; (a; exit [] i; (a; exit [] b; stop)) [] a; i; exit",
    "noexit behaviour a; i; b; stop [] i; a; b; stop [] i; i; a; i; b; stop",
    "exit behaviour a; (i; b; exit [] i; i; b; stop) [] a; b; i; stop",
];

/// Interleaving.
pub const INTERLEAVING: &[&str] = &[
    "noexit behaviour a; stop ||| b; stop",
    "exit behaviour exit ||| a; exit",
    "exit behaviour a; exit ||| i; b; exit",
    "noexit behaviour i; stop ||| i; a; stop",
    "noexit behaviour a; b; stop ||| a; c; stop",
    "noexit behaviour i; a; stop ||| i; b; stop ||| c; stop",
    "exit behaviour (a; exit [] i; exit) ||| (b; exit [] exit)",
    "noexit behaviour a; i; stop ||| a; i; i; stop",
    "noexit behaviour (a; stop [] i; b; stop) ||| a; stop",
];

/// Synchronization on sets of gates and on all.
pub const SYNCHRONIZATION: &[&str] = &[
    "noexit behaviour a; stop || b; stop",
    "noexit behaviour a; b; stop |[a]| c; a; stop",
    "exit behaviour a; i; b; exit |[b]| i; b; exit",
    "exit behaviour (a; exit [] exit) || (b; exit [] a; exit [] exit)",
    "noexit behaviour i; a; stop || a; i; stop",
    "noexit behaviour (a; b; stop [] a; c; stop) |[a,c]| (a; c; b; stop [] a; i; c; stop)",
    "noexit behaviour a; stop ||| b; stop |[a]| a; b; stop",
    "exit behaviour a; b; exit |[b]| (b; c; exit |[c]| a; c; exit)",
    "exit behaviour exit |[a]| a; exit",
    "noexit behaviour (i; a; stop [] b; stop) |[a,b]| (a; stop [] i; b; stop)",
];

/// Hiding.
pub const HIDING: &[&str] = &[
    "noexit behaviour hide a in a; b; stop [] b; stop",
    "noexit behaviour hide a, b in a; b; c; stop",
    "exit behaviour hide a in (a; exit ||| a; b; exit)",
    "noexit behaviour hide c in a; c; b; stop |[c]| c; a; stop",
    "noexit behaviour (hide a in a; b; stop) |[a]| a; stop",
    "noexit behaviour hide b in hide a in a; b; c; stop [] c; stop",
    "noexit behaviour a; hide a in a; a; b; stop",
    "exit behaviour hide a1 in a1; a; exit [> a1; b; exit",
    "noexit behaviour hide a, b, c in a; b; stop ||| c; stop",
    "noexit behaviour hide d in a; d; stop |[d]| b; d; c; stop",
];

/// Enabling and disabling.
pub const OPERATORS: &[&str] = &[
    "noexit behaviour a; exit >> b; stop",
    "exit behaviour a; exit >> b; exit >> c; exit",
    "exit behaviour (a; exit ||| b; exit) >> c; exit",
    "exit behaviour a; exit [> b; stop",
    "noexit behaviour a; b; stop [> c; stop",
    "exit behaviour (a; i; exit [> b; exit) [> i; c; stop",
    "noexit behaviour (a; exit [] i; exit) >> (b; stop [] i; stop)",
    "exit behaviour (exit [> a; exit) >> (b; exit [> exit)",
    "exit behaviour (exit [> a; exit) ||| b; exit",
];

/// Calls that rename gates.
pub const CALLS: &[&str] = &[
    "noexit behaviour P[a,a] where process P [x,y] : noexit := x; stop |[x]| y; x; stop endproc",
    "noexit behaviour P[a]||Q[a] where process P [x] : noexit := x; stop endproc process Q [x] : noexit := x; stop endproc",
    "noexit behaviour P[b,a] where process P [a,b] : noexit := a; i; b; stop endproc",
    "exit behaviour P[a,b] ||| P[b,a] where process P [x,y] : exit := x; exit [] i; y; exit endproc",
    "exit behaviour P[a] >> P[b] where process P [x] : exit := x; exit [] exit endproc",
    "noexit behaviour P[a,b] where process P [x,y] : noexit := x; Q[y,x] [] Q[x,x] endproc process Q [x,z] : noexit := z; i; x; stop endproc",
    "noexit behaviour P[a] |[a]| P[a] where process P [x] : noexit := hide b in (b; x; b; stop) endproc",
    "noexit behaviour P where process P : noexit := i; i; stop endproc",
    "exit behaviour P[a,b] where process P [x,y] : exit := Q[y] >> x; exit where process Q [x] : exit := x; exit [] i; x; exit endproc endproc",
    "noexit behaviour hide a in P[a,b] where process P [x,y] : noexit := x; y; stop [] y; x; stop endproc",
];

/// Recursion.
pub const RECURSIONS: &[&str] = &[
    "noexit behaviour P[a] where process P [x] : noexit := x; P[x] endproc",
    "exit behaviour P[a] where process P [x] : exit := x; exit >> P[x] endproc",
    "noexit behaviour P where process P : noexit := i; P endproc",
    "noexit behaviour P[a,b] where process P [x,y] : noexit := x; P[y,x] endproc",
    "noexit behaviour P[a] where process P [x] : noexit := x; P[x] [] i; P[x] [] i; stop endproc",
    "noexit behaviour P[a,b] |[a]| P[a,c] where process P [x,y] : noexit := x; y; P[x,y] endproc",
    "noexit behaviour P[a] where process P [x] : noexit := x; (P[x] ||| x; stop) endproc",
    "noexit behaviour (P[a] >> Q[b]) [> c; Q[a] where process P [x] : exit := x; P[x] [] exit endproc process Q [x] : noexit := i; Q[x] [] x; stop endproc",
    "noexit behaviour P[a] where process P [x] : noexit := hide b in (x; b; P[x] |[b]| b; stop) endproc",
    "noexit behaviour P[a] ||| Q[b] where process P [x] : noexit := x; P[x] endproc process Q [y] : noexit := i; y; Q[y] endproc",
];

/// Loops, of which some can be left, or come after a row of steps.
pub const LOOPS: &[&str] = &[
    "exit behaviour a; P where process P : exit := i; P [] exit endproc",
    "noexit behaviour hide c in P[a,b,c] where process P [x,y,z] : noexit := x; (z; P[x,y,z] [] y; Q[z]) endproc process Q [z] : noexit := z; Q[z] endproc",
    "noexit behaviour P[a,b,c] where process P [x,y,z] : noexit := x; (y; P[x,y,z] [] i; z; P[x,y,z]) endproc",
    "noexit behaviour a; b; P[c] where process P [x] : noexit := x; P[x] endproc",
    "noexit behaviour P[a,b,c] where process P [x,y,z] : noexit := x; P[x,y,z] [] y; z; x; Q[z] endproc process Q [z] : noexit := z; z; Q[z] endproc",
    "noexit behaviour P[a,b,c] where process P [x,y,z] : noexit := x; Q[x,y,z] [] i; stop endproc process Q [x,y,z] : noexit := y; Q[x,y,z] [] z; P[x,y,z] [] i; R[x] endproc process R [x] : noexit := x; R[x] endproc",
    "noexit behaviour i; i; P[a,b] [] a; i; P[b,a] where process P [x,y] : noexit := x; x; stop [] y; P[x,y] endproc",
    "noexit behaviour hide c in (P[a,b] ||| P[c,b]) where process P [x,y] : noexit := x; P[x,y] [] y; stop endproc",
    "noexit behaviour P[a,b] |[a]| Q[a,c] where process P [x,y] : noexit := x; y; P[x,y] endproc process Q [x,y] : noexit := x; Q[x,y] [] y; stop endproc",
    "noexit behaviour P[a,b] |[a]| a; a; stop where process P [x,y] : noexit := x; P[x,y] [] y; i; P[x,y] endproc",
    "exit behaviour (P[a] [> b; exit) >> i; c; exit where process P [x] : exit := x; P[x] [] i; exit endproc",
    "noexit behaviour hide b in P[a,b] where process P [x,y] : noexit := x; P[y,x] [] y; stop endproc",
];

/// Patterns without repetition.
pub const FIRST_PATTERNS: &[Words] = &[
    &[],
    &["A"],
    &["<any>"],
    &["<until>", "B"],
    &["<deadlock>"],
    &["<until>", "<deadlock>"],
    &["A", "B"],
    &["<any>", "exit"],
    &["A", "<deadlock>"],
    &["<until>", "A", "<any>"],
];

/// Patterns with more.
pub const SECOND_PATTERNS: &[Words] = &[
    &["<any>", "<any>"],
    &["<until>", "exit"],
    &["<any>", "<until>", "<deadlock>"],
    &["<while>", "<any>"],
    &["<while>", "A"],
    &["<while>", "<any>", "B"],
    &["A", "<while>", "B"],
    &["<while>", "<any>", "<deadlock>"],
    &["<while>", "A", "<while>", "A", "<any>"],
    &["<while>", "B", "<until>", "<deadlock>"],
];

/// Patterns with sets of labels.
pub const SET_PATTERNS: &[Words] = &[
    &["A,B"],
    &["<not>", "A"],
    &["<until>", "A,exit"],
    &["<until>", "<not>", "A,C"],
    &["<while>", "A,B"],
    &["<while>", "<not>", "B", "B"],
    &["A", "<while>", "<not>", "C,C", "B,exit"],
    &["<while>", "<any>", "<not>", "A,B", "<deadlock>"],
    &["<until>", "<refuses>", "A"],
    &["A", "<refuses>", "<not>", "B"],
    &["<until>", "<refuses>", "exit,B"],
];

/// Patterns with `i`, for searches in which internal steps are observed.
pub const THIRD_PATTERNS: &[Words] = &[
    &["i"],
    &["<until>", "i"],
    &["<while>", "i", "A"],
    &["A", "<while>", "i", "<deadlock>"],
    &["<any>", "i", "<while>", "<any>"],
    &["<not>", "A,i"],
    &["<while>", "i,A", "B"],
    &["<until>", "<not>", "i", "<deadlock>"],
    &["<until>", "<refuses>", "i,A"],
];

/// Patterns that demand something of what can come after the end, each with the kind of its demand.
pub const END_PATTERNS: &[(Words, EndKind)] = &[
    (&["<livelock>"], EndKind::Livelock),
    (&["<until>", "<livelock>"], EndKind::Livelock),
    (
        &["<while>", "<not>", "B", "A", "<livelock>"],
        EndKind::Livelock,
    ),
    (&["<forever>", "A"], EndKind::Forever),
    (&["<until>", "<forever>", "A"], EndKind::Forever),
    (&["<until>", "<forever>", "B,C"], EndKind::Forever),
    (
        &["<while>", "<any>", "B", "<forever>", "<not>", "B"],
        EndKind::Forever,
    ),
    (&["<any>", "<forever>", "<any>"], EndKind::Forever),
    (&["<until>", "<never>", "A"], EndKind::Never),
    (&["<until>", "<never>", "<not>", "A"], EndKind::Never),
    (
        &["<while>", "B", "<any>", "<never>", "B,exit"],
        EndKind::Never,
    ),
    (&["<until>", "<never>", "<any>"], EndKind::Never),
    (
        &["<while>", "<any>", "A", "A", "<never>", "B"],
        EndKind::Never,
    ),
];

/// The same with `i`, for searches in which internal steps are observed.
pub const STRONG_END_PATTERNS: &[(Words, EndKind)] = &[
    (&["<while>", "i", "<livelock>"], EndKind::Livelock),
    (
        &["<while>", "<any>", "i", "<forever>", "A"],
        EndKind::Forever,
    ),
    (&["<until>", "<forever>", "<not>", "i,B"], EndKind::Forever),
    (&["<until>", "<never>", "i"], EndKind::Never),
    (&["<until>", "i", "<never>", "i,A"], EndKind::Never),
    (&["<until>", "<never>", "<not>", "i"], EndKind::Never),
];
