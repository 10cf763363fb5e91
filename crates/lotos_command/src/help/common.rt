//! The help of several commands. Made of share/help.txt by tools/help-texts.

use super::Help;

pub(crate) const LIMIT: Help = Help {
    short: "The most lines that are written, 1 to 1000000000",
    long: "The most lines that are written, 1 to 1000000000

The search stops when so many lines are written, with status 3, even if no line
would follow. For example, `--limit 1` writes the first line alone.",
};

pub(crate) const TERMS: Help = Help {
    short: "The most terms that a sequence may reach, 1 to 1000000",
    long: "The most terms that a sequence may reach, 1 to 1000000

A sequence reaches the terms in which the derivations end that have it as their
sequence. Terms count as one if they are seen to differ only in relabelling, hiding and
calls. If a sequence that the search comes to reaches more, it stops with status 4, and
nothing is written. For example, with `--terms 1` the specification's behaviour
`i; a; stop` stops the search at `<empty>`, which reaches two terms.",
};

pub(crate) const STATES: Help = Help {
    short: "The most sets that may be reached, 1 to 100000000",
    long: "The most sets that may be reached, 1 to 100000000

A set has all terms that a sequence reaches, and counts once, however many sequences
reach it. If more sets than these are reached, the search stops with status 4, and nothing
is written. For example, for `a; b; stop` it stops with `--states 2`, as `<empty>`, `A`
and `A B` reach three sets.",
};

pub(crate) const AFTER: Help = Help {
    short: "Lists only what comes after this line of a listing",
    long: "Lists only what comes after this line of a listing

LINE is a line as the listing has it, in upper or lower case; what follows ` : ` in it
is ignored. It need not be a line of this listing. In a shell it is quoted. For
example, `--after \"A B\"` goes on after the line `A B`, and `--after \"<empty>\"`
after the empty sequence.",
};

pub(crate) const HIDE: Help = Help {
    short: "Hides these gates",
    long: "Hides these gates

GATES are names of gates, joined by commas without blanks, in upper or lower case. What
happens at a hidden gate is an internal step, which cannot be observed unless `--strong`
is given. A name that is no gate of the specification's own list is refused with E52.
Only one of `--hide` and `--only` may be given. For example, with the specification
  specification S [a,b,c] : noexit behaviour P[a,b,c]
  where process P [x,y,z] : noexit := x; y; z; P[x,y,z] endproc endspec
the command `lotosseq ever --hide B A C` writes
  A C
and `lotosseq ever A C` finds nothing, as B comes between.",
};

pub(crate) const ONLY: Help = Help {
    short: "Asks about these gates; all others are hidden",
    long: "Asks about these gates; all others are hidden

GATES are names of gates, joined by commas without blanks, in upper or lower case. What
happens at a hidden gate is an internal step, which cannot be observed unless `--strong`
is given. A name that is no gate of the specification's own list is refused with E52.
Only one of `--hide` and `--only` may be given. For example, with the specification
  specification S [a,b,c] : noexit behaviour P[a,b,c]
  where process P [x,y,z] : noexit := x; y; z; P[x,y,z] endproc endspec
the command `lotosseq ever --only A,C A C` writes
  A C
and `lotosseq ever A C` finds nothing, as B comes between.",
};

pub(crate) const PROGRESS: Help = Help {
    short: "Says on standard error how far the search is",
    long: "Says on standard error how far the search is

At a terminal this is one line, which is renewed; otherwise each report is a new line.
Output and status stay the same.",
};

pub(crate) const BRIEF: Help = Help {
    short: "Says no more at a terminal than elsewhere",
    long: "Says no more at a terminal than elsewhere

If standard error is a terminal, a refusal is followed there by an explanation, as that of
`lotosseq check --explain`, and an answer by what it means; only a text of two specifications
is not explained. With this option nothing follows. Output and status stay the same.",
};
