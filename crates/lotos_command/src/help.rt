//! The help texts, and the version. Made of share/help.txt by tools/help-texts.

/// What `-h` and `--help` show of a command or an argument.
#[derive(Clone, Copy)]
pub(crate) struct Help {
    pub(crate) short: &'static str,
    pub(crate) long: &'static str,
}

/// The version of the program, and the logic with which it is proved.
pub(crate) const VERSION: &str = "0.1.0 (proved, logic dac8208d650f15bf)";

/// The help of the program.
pub(crate) mod program {
    use super::Help;

    pub(crate) const ABOUT: Help = Help {
        short: "Checks a basic LOTOS specification, and lists its observable action sequences",
        long: "Checks a basic LOTOS specification, and lists its observable action sequences

The specification is read from standard input, and what is asked of it is written to
standard output. A file is given by `< FILE`, as in
  lotosseq check < ring.lotos
`lotosseq check --help` is about the static rules, `lotosseq search --help` about the
listing, its options and the words of a pattern, `lotosseq ever --help` about matches
of any length, `lotosseq after --help` about what can come after a sequence,
`lotosseq cover --help` about sequences that show all that can be observed,
`lotosseq graph --help` about the automaton of all that can be observed,
`lotosseq suite --help` about test suites that miss nothing, and
`lotosseq compare --help` about where two specifications differ.",
    };

    pub(crate) const STATUSES: &str = "Statuses:
  0  the specification is accepted, the listing is complete and has lines, there is a
     match, the sequence can happen, the automaton is written, or two specifications
     do not differ
  1  the listing is complete and has none, there is no match, the sequence cannot
     happen, or two specifications differ
  2  the command, its words, the mark or the specification is refused, or cannot
     be read
  3  the limit of lines is reached
  4  a prefix reaches too many terms, or there are too many states, sets, pairs of sets
     or lines of a suite
  5  out of memory, or an argument is not Unicode
  6  the output cannot be written";
}

/// The help of `search`.
pub(crate) mod search {
    use super::Help;

    pub(crate) const ABOUT: Help = Help {
        short: "Lists the sequences that match a pattern",
        long: "Lists the sequences that match a pattern

Reads a specification in basic LOTOS from standard input (a file is given by `< FILE`)
and writes a listing to standard output. With `--length N` it has every sequence of at
most N labels that matches the pattern and that some derivation from the
specification's behaviour yields, of any number of steps; with `--depth N` it has
those of derivations of at most N steps. One of the two is given.

Each sequence occurs once, on a line of its own: its labels, separated by one
blank, or `<empty>`. Shorter sequences come first, and sequences of one length in
the order of their labels: gates by their names, then `exit`.

For example, with the specification
  specification S [a,b] : exit behaviour a; b; exit endspec
the command `lotosseq search --length 3 a b exit` lists
  A B exit",
    };

    pub(crate) const USAGE: &str = "lotosseq search [OPTIONS] <--depth <N>|--length <N>> [WORD]...";

    pub(crate) const STATUSES: &str = "Statuses:
  0  the listing is complete and has lines
  1  the listing is complete and has none
  2  the command, the pattern, the mark or the specification is refused, or cannot
     be read
  3  the limit of lines is reached
  4  a prefix reaches too many terms
  5  out of memory, or an argument is not Unicode
  6  the output cannot be written";

    pub(crate) const WORDS: Help = Help {
        short: "The words of the pattern: labels and elements",
        long: "The words of the pattern

A pattern is a list of at most 256 elements. A sequence matches if it can be split into
segments, one for each element in turn, and each element matches its segment. Without
words the pattern matches the empty sequence alone. Words are read in upper or lower
case. In a shell those that begin with `<` are quoted, as in `'<any>'`. A word of the
command may hold several words of the pattern, with blanks between, as in `'<until> B'`.

  A              that one label: the name of a gate, or `exit` for successful
                 termination. For example, `A B` matches `A B`.
  A,B            one label, which is one of these. No blank is beside a comma. `A,B C`
                 matches `A C` and `B C`.
  <not> A,B      one label, which is none of these. `A <not> A,B` matches `A C`.
  <any>          any one label. `A <any>` matches `A B`.
  <until> SET    any number of labels outside of the set, and then one of the set.
                 `<until> B` matches `B` and `A A B`. SET is `A`, `A,B` or `<not> A,B`.
  <while> SET    any number of labels, all of the set. `A <while> B` matches `A` and
                 `A B B`.
  <while> <any>  any number of labels. `<while> <any> B` matches all that ends in `B`.
  <deadlock>     no label; the last term must be a deadlock. `A <deadlock>` matches `A`
                 if it reaches a term that has no step.
  <refuses> SET  no label; the last term must refuse the set. `A <refuses> B` matches `A`
                 if it reaches a term that has no internal step, and none with `B`. SET
                 may be `<any>` too.
  <until> <deadlock>, <until> <refuses> SET
                 any number of labels, and the same demand on the last term.

Elements next to each other match labels next to each other: `A B` does not match
`A C B`. An A and later a B, with no C between them, is `A <while> <not> C B`.

The last term is that in which the derivation ends. A deadlock is a term that has no step
at all, not even an internal one. A term refuses a set if it has no internal step and
none with a label of the set; so `<deadlock>` is `<refuses> <any>`. Only the last element
may demand something of the last term.

`i` is a word of a pattern only with `--strong`, as the internal action cannot be
observed; without it `<not> A` is never an internal step. The name of a gate that the
specification does not have is accepted with a warning, unless `--known` is given; no
sequence has that label.",
    };

    pub(crate) const DEPTH: Help = Help {
        short: "The most steps of a derivation, 0 to 255",
        long: "The most steps of a derivation, 0 to 255

Every step counts, those of the internal action `i` too, and so does successful
termination. For example, for `a; b; exit` the sequence `A B exit` is listed with
`--depth 3` and not with `--depth 2`.",
    };

    pub(crate) const LENGTH: Help = Help {
        short: "The most labels of a sequence, 0 to 255",
        long: "The most labels of a sequence, 0 to 255

A derivation may have any number of steps, and internal steps count only with
`--strong`. For example, for `i; i; a; b; exit` the sequence `A B` is listed with
`--length 2`.",
    };

    pub(crate) const TERMS: Help = Help {
        short: "The most terms that a prefix may reach, 1 to 1000000",
        long: "The most terms that a prefix may reach, 1 to 1000000

A prefix is a beginning of a sequence that can still match. It reaches the terms in
which the derivations end that have it as their sequence. With `--length` terms count as
one if they are seen to differ only in relabelling, hiding and calls. The search stops
with status 4 at the first prefix that reaches more. For example, with `--terms 1` the
specification's behaviour `i; a; stop` stops the search at `<empty>`, which reaches two
terms.",
    };

    pub(crate) const EXPLAIN: Help = Help {
        short: "Writes the least run of each sequence too",
        long: "Writes the least run of each sequence too

A line is then the sequence, ` : ` and its least run: the labels of a derivation that
has the sequence, internal steps included. It is one with the fewest steps, and of
these the first in the order of labels, `i` being the last label. With `--length` it may
have any number of steps. For example, `i; i; a; stop` with `--length 1 --explain A`
lists
  A : i i A",
    };

    pub(crate) const HIDDEN: Help = Help {
        short: "Writes the least run with what makes each internal step",
        long: "Writes the least run with what makes each internal step

As `--explain`, which it implies, but an internal step is written by what makes it:
`i` is an `i` of the text, `i(SEND)` an action of the gate SEND that a `hide` makes
internal, and `i(exit)` the termination of the left side of `>>`. For example,
`hide s in a; s; (exit >> i; b; stop)` with `--length 2 --hidden A B` lists
  A B : A i(S) i(exit) i B",
    };

    pub(crate) const STRONG: Help = Help {
        short: "Makes the internal action `i` a label like others",
        long: "Makes the internal action `i` a label like others

Sequences may then have it, it may be a word of the pattern, and elements match it. For
example, `i; i; a; stop` with `--length 3 --strong i i A` lists
  i i A",
    };

    pub(crate) const KNOWN: Help = Help {
        short: "Refuses words that name no gate of the specification",
        long: "Refuses words that name no gate of the specification

Each label of the pattern must then be a gate of the specification's own list, `exit`,
or with `--strong` `i`. Without this option the name of any other gate is accepted with
a warning, and no sequence has that label. For example, with the specification
  specification S [a] : exit behaviour a; exit endspec
the command `lotosseq search --length 2 --known B exit` is refused with
  E49 word 1 is no gate of the specification",
    };
}

/// The help of `check`.
pub(crate) mod check {
    use super::Help;

    pub(crate) const ABOUT: Help = Help {
        short: "Checks the static rules and lists the processes",
        long: "Checks the static rules and lists the processes

Reads a specification in basic LOTOS from standard input. If it breaks no static
rule, a line is written for each process, in the order of their definitions: its name,
the number of its gates, and `exit` or `noexit`. Otherwise the first fault is named on
standard error, with its position: the line, and the column in bytes.

For example, with the specification
  specification S [a] : noexit behaviour P[a]
  where process P [x] : noexit := x; P[x] endproc endspec
the command `lotosseq check` lists
  P 1 noexit",
    };

    pub(crate) const STATUSES: &str = "Statuses:
  0  the specification is accepted
  2  the command or the specification is refused, or cannot be read
  5  out of memory, or an argument is not Unicode
  6  the output cannot be written";

    pub(crate) const EXPLAIN: Help = Help {
        short: "Explains a fault",
        long: "Explains a fault

The message of a fault in the specification is followed on standard error by its line
with a mark under the position, and by what to do; if a word or a sign does not fit,
also by what is there and what could be there. Output and status stay the same. For
example, for `behaviour a stop` it writes
  behaviour a stop
              ^
  `stop` is a reserved word
  could be here, among others: `;` `[` `[]` `|[` `||` `|||` `[>` `>>` `where` `endspec`
  Put what is missing before it, or remove it.",
    };

    pub(crate) const WARN: Help = Help {
        short: "Warns of what is allowed and may be a mistake",
        long: "Warns of what is allowed and may be a mistake

If the specification is accepted, standard error has a line with the position of each
  process that no call names, or that is not reached from the specification's behaviour,
  process or specification that is declared `exit` and can never terminate,
  specification whose behaviour is not `stop`, and can do nothing at all,
  gate of the specification or of a process that its behaviour does not use,
  gate in `|[..]|` that the left side or the right side never offers.
Output and status stay the same. For example, it warns of the gate `b` of
  specification S [a,b] : noexit behaviour a; stop endspec",
    };
}

/// The help of `ever`.
pub(crate) mod ever {
    use super::Help;

    pub(crate) const ABOUT: Help = Help {
        short: "Finds a shortest match, of any length",
        long: "Finds a shortest match, of any length

Reads a specification in basic LOTOS from standard input (a file is given by `< FILE`)
and looks for a derivation, of any number of steps, whose sequence matches the pattern.
If there is one, the sequence of one with the fewest steps is written to standard
output. If there is none at any depth, nothing is written there, the status is 1, and
standard error says so, with the number of states that were reached and how far the
pattern can be matched.

For example, with the specification
  specification S [a,b] : noexit behaviour P[a,b]
  where process P [x,y] : noexit := x; y; P[x,y] endproc endspec
the command `lotosseq ever '<while>' '<any>' B B` says that it happens at no depth,
and `lotosseq ever '<until>' B` writes
  A B",
    };

    pub(crate) const STATUSES: &str = "Statuses:
  0  there is a match
  1  there is none, of any length
  2  the command, the pattern or the specification is refused, or cannot be read
  4  there are too many states
  5  out of memory, or an argument is not Unicode
  6  the output cannot be written";

    pub(crate) const WORDS: Help = Help {
        short: "The words of the pattern: labels and elements",
        long: "The words of the pattern

A pattern is a list of at most 256 elements. A sequence matches if it can be split into
segments, one for each element in turn, and each element matches its segment. Without
words the pattern matches the empty sequence alone. Words are read in upper or lower
case. In a shell those that begin with `<` are quoted, as in `'<any>'`. A word of the
command may hold several words of the pattern, with blanks between, as in `'<until> B'`.

  A              that one label: the name of a gate, or `exit` for successful
                 termination. For example, `A B` matches `A B`.
  A,B            one label, which is one of these. No blank is beside a comma. `A,B C`
                 matches `A C` and `B C`.
  <not> A,B      one label, which is none of these. `A <not> A,B` matches `A C`.
  <any>          any one label. `A <any>` matches `A B`.
  <until> SET    any number of labels outside of the set, and then one of the set.
                 `<until> B` matches `B` and `A A B`. SET is `A`, `A,B` or `<not> A,B`.
  <while> SET    any number of labels, all of the set. `A <while> B` matches `A` and
                 `A B B`.
  <while> <any>  any number of labels. `<while> <any> B` matches all that ends in `B`.
  <deadlock>     no label; the last term must be a deadlock. `A <deadlock>` matches `A`
                 if it reaches a term that has no step.
  <refuses> SET  no label; the last term must refuse the set. `A <refuses> B` matches `A`
                 if it reaches a term that has no internal step, and none with `B`. SET
                 may be `<any>` too.
  <livelock>     no label; internal steps that never end must begin at the last term.
  <forever> SET  no label; steps that never end must begin at the last term, each
                 internal or with a label of the set. SET may be `<any>` too.
  <never> SET    no label; no steps, however many, that begin at the last term may have a
                 label of the set among them. SET may be `<any>` too.
                 `<until> <never> B` has a match if `B` can become impossible.
  <until> <deadlock>, <until> <refuses> SET, <until> <never> SET and so on
                 any number of labels, and the same demand on the last term.

Elements next to each other match labels next to each other: `A B` does not match
`A C B`. An A and later a B, with no C between them, is `A <while> <not> C B`.

The last term is that in which the derivation ends. A deadlock is a term that has no step
at all, not even an internal one. A term refuses a set if it has no internal step and
none with a label of the set; so `<deadlock>` is `<refuses> <any>`. Only the last element
may demand something of the last term.

`i` is a word of a pattern only with `--strong`, as the internal action cannot be
observed; without it `<not> A` is never an internal step. A name that is neither `exit`
nor `i` must be that of a gate of the specification's own list; otherwise its word is
refused with E49 and status 2, as no sequence has that label. For example, `C` is
refused for
  specification S [a,b] : noexit behaviour a; b; stop endspec",
    };

    pub(crate) const STATES: Help = Help {
        short: "The most states that may be reached, 1 to 100000000",
        long: "The most states that may be reached, 1 to 100000000

A state is one of the specification and of the pattern together: a term that can be
reached, and how much of the pattern the labels on the way match. If more of them are
reached before a match is found, the search stops with status 4. Each takes some
150 to 600 bytes of memory; the steps that are kept of all of them take at most some
400 MB more. For example, for `a; b; stop` and the pattern `A B` the search stops with
`--states 1`.

With `<livelock>`, `<forever>` and `<never>` all states of the specification that can
be reached are found first. If they are more, the search stops too.",
    };

    pub(crate) const EXPLAIN: Help = Help {
        short: "Writes the least run of the sequence too",
        long: "Writes the least run of the sequence too

The line is then the sequence, ` : ` and its least run: the labels of the derivation,
internal steps included. For example, `i; i; a; stop` with `--explain A` writes
  A : i i A

If the pattern ends with `<livelock>` or `<forever> SET`, the line goes on with steps that
never end: ` <forever> `, the labels of some steps, and in brackets those of a loop, which
can be repeated for ever. `A : A <forever> i [B C]` means A, i, B, C, B, C and so on.",
    };

    pub(crate) const HIDDEN: Help = Help {
        short: "Writes the least run with what makes each internal step",
        long: "Writes the least run with what makes each internal step

As `--explain`, which it implies, but an internal step is written by what makes it:
`i` is an `i` of the text, `i(SEND)` an action of the gate SEND that a `hide` makes
internal, and `i(exit)` the termination of the left side of `>>`. For example,
`hide s in a; s; (exit >> i; b; stop)` with `--hidden A B` writes
  A B : A i(S) i(exit) i B

Steps that never end are written so too: `A B : A B <forever> [i(H)]`.",
    };

    pub(crate) const STRONG: Help = Help {
        short: "Makes the internal action `i` a label like others",
        long: "Makes the internal action `i` a label like others

Sequences may then have it, it may be a word of the pattern, and elements match it. For
example, `i; i; a; stop` with `--strong i i A` writes
  i i A",
    };
}

/// The help of `after`.
pub(crate) mod after {
    use super::Help;

    pub(crate) const ABOUT: Help = Help {
        short: "Writes what can come after a sequence",
        long: "Writes what can come after a sequence

Reads a specification in basic LOTOS from standard input (a file is given by `< FILE`)
and follows the sequence of the labels. If some derivation, of any number of steps,
yields the sequence, each label that can come after it, after internal steps or none, is
written on a line, in order; and then `<deadlock>`, if the system can be in a deadlock:
a state without any step. If no derivation yields it, nothing is written, the status is
1, and standard error has the first label that cannot come and what can in its place.

A log of any number of labels is followed by `lotosseq after $(cat LOG) < FILE`.

For example, with the specification
  specification S [a,b,c] : noexit behaviour a; (b; stop [] i; c; stop) endspec
the command `lotosseq after A` writes
  B
  C
and `lotosseq after A A` writes to standard error
  label 2, A, cannot come here; what can: B C",
    };

    pub(crate) const STATUSES: &str = "Statuses:
  0  the sequence can happen
  1  the sequence cannot happen
  2  the command, a label or the specification is refused, or cannot be read
  4  a beginning of the sequence reaches too many terms
  5  out of memory, or an argument is not Unicode
  6  the output cannot be written";

    pub(crate) const LABELS: Help = Help {
        short: "The labels of the sequence",
        long: "The labels of the sequence

Each is a gate of the specification's own list, or `exit` for successful termination, in
upper or lower case. A word of the command may hold several, with blanks between.
Without labels the command writes what can come first. `i` is a label only with
`--strong`, as the internal action cannot be observed.",
    };

    pub(crate) const TERMS: Help = Help {
        short: "The most terms that a prefix may reach, 1 to 1000000",
        long: "The most terms that a prefix may reach, 1 to 1000000

A prefix is a beginning of the sequence, or the whole of it. It reaches the terms in
which the derivations end that have it as their sequence. Terms count as one if they are
seen to differ only in relabelling, hiding and calls. If a prefix reaches more, the
search stops with status 4. For example, with `--terms 1` and the specification's
behaviour `i; a; stop` it stops at once: without labels, two terms are reached.",
    };

    pub(crate) const STRONG: Help = Help {
        short: "Makes the internal action `i` a label like others",
        long: "Makes the internal action `i` a label like others

It may then be a label of the sequence, and come after it. For example, for
`i; a; stop` the command `lotosseq after --strong i` writes
  A",
    };
}

/// The help of `cover`.
pub(crate) mod cover {
    use super::Help;

    pub(crate) const ABOUT: Help = Help {
        short: "Lists sequences that show all that can be observed",
        long: "Lists sequences that show all that can be observed

Reads a specification in basic LOTOS from standard input (a file is given by `< FILE`)
and writes a listing to standard output: a finite test suite.

Sequences have the same future if the same sequences can come after them, of derivations
of any number of steps. Of all sequences with the same future the listing has the first,
with each label that can come after it, after internal steps or none. A sequence with
which another one begins is left out.

Each sequence occurs once, on a line of its own: its labels, separated by one
blank. Shorter sequences come first, and sequences of one length in the order of
their labels: gates by their names, then `exit`.

For example, with the specification
  specification S [a,b] : noexit behaviour P[a,b]
  where process P [x,y] : noexit := x; (x; stop [] y; P[x,y]) endproc endspec
the command `lotosseq cover` lists
  A A
  A B
as after `A B` the same can come as after the empty sequence.",
    };

    pub(crate) const STATUSES: &str = "Statuses:
  0  the listing is complete and has lines
  1  the listing is complete and has none
  2  the command, the mark or the specification is refused, or cannot be read
  3  the limit of lines is reached
  4  a prefix reaches too many terms, or there are too many sets
  5  out of memory, or an argument is not Unicode
  6  the output cannot be written";

    pub(crate) const TERMS: Help = Help {
        short: "The most terms that a prefix may reach, 1 to 1000000",
        long: "The most terms that a prefix may reach, 1 to 1000000

A prefix is a beginning of a sequence that can be observed. It reaches the terms in which
the derivations end that have it as their sequence. Terms count as one if they are seen to
differ only in relabelling, hiding and calls. The search stops with status 4 at the first
prefix that reaches more, and nothing is written. For example, with `--terms 1` the
specification's behaviour `i; a; stop` stops the search at `<empty>`, which reaches two
terms.",
    };

    pub(crate) const STRONG: Help = Help {
        short: "Makes the internal action `i` a label like others",
        long: "Makes the internal action `i` a label like others

Sequences may then have it. For example, for `i; a; stop` and `--strong` the listing has
  i A",
    };
}

/// The help of `graph`.
pub(crate) mod graph {
    use super::Help;

    pub(crate) const ABOUT: Help = Help {
        short: "Writes all that can be observed as an automaton",
        long: "Writes all that can be observed as an automaton

Reads a specification in basic LOTOS from standard input (a file is given by `< FILE`)
and writes the least deterministic automaton of the sequences that can be observed to
standard output, in the Aldebaran format: as text that tools for automata read, and of
which `lotosseq-draw` makes a picture.

Two sequences lead to the same state if the same sequences can come after them. States
are numbered in the order of the first sequences that lead to them: shorter sequences
first, and sequences of one length in the order of their labels, gates by their names,
then `exit`. The first line has the number of the first state, 0, that of the transitions
and that of the states. Each other line has a transition: its state, its label and the
state that it leads to. They are in the order of their states, then of their labels.

For example, with the specification
  specification S [a,b] : noexit behaviour P[a,b]
  where process P [x,y] : noexit := x; (x; stop [] y; P[x,y]) endproc endspec
the command `lotosseq graph` writes
  des (0, 3, 3)
  (0, \"A\", 1)
  (1, \"A\", 2)
  (1, \"B\", 0)
as the same can come after `A B` as at the beginning.",
    };

    pub(crate) const STATUSES: &str = "Statuses:
  0  the automaton is written
  2  the command or the specification is refused, or cannot be read
  4  a sequence reaches too many terms, or there are too many sets
  5  out of memory, or an argument is not Unicode
  6  the output cannot be written";

    pub(crate) const STRONG: Help = Help {
        short: "Makes the internal action `i` a label like others",
        long: "Makes the internal action `i` a label like others

Transitions may then have it. For example, for `i; a; stop` and `--strong` the automaton is
  des (0, 2, 3)
  (0, \"i\", 1)
  (1, \"A\", 2)",
    };
}

/// The help of `suite`.
pub(crate) mod suite {
    use super::Help;

    pub(crate) const ABOUT: Help = Help {
        short: "Lists a test suite that misses nothing",
        long: "Lists a test suite that misses nothing

Reads a specification in basic LOTOS from standard input (a file is given by `< FILE`)
and writes to standard output what to try with an implementation. A line has a sign and
labels, separated by one blank. After `+` the implementation has to be able to do the
labels one after the other. After `-` it has to be able to do all but the last, and then
not the last one.

An implementation passes all lines exactly if it can do the sequences that can be observed
of the specification, and no others. This holds of each one that has no other labels than
the suite, can always do the same after the same labels, and has at most as many states as
the automaton that `lotosseq graph` writes, or with `--extra K` at most K more. The labels
of the suite are the gates of the specification's own list that are not hidden, and
`exit`, if it can come.

Shorter lines come first, and lines of one length in the order of their labels: gates by
their names, then `exit`. A line with which a longer one begins is left out. If there are
more than 10000000 lines, nothing is written.

For example, with the specification
  specification S [a,b] : noexit behaviour P[a,b]
  where process P [x,y] : noexit := x; y; P[x,y] endproc endspec
the command `lotosseq suite` lists
  - B
  - A A
  + A B A",
    };

    pub(crate) const STATUSES: &str = "Statuses:
  0  the listing is complete and has lines
  1  the listing is complete and has none
  2  the command, the mark or the specification is refused, or cannot be read
  3  the limit of lines is reached
  4  a sequence reaches too many terms, or there are too many sets or lines
  5  out of memory, or an argument is not Unicode
  6  the output cannot be written";

    pub(crate) const EXTRA: Help = Help {
        short: "How many states more an implementation may have, 0 to 3",
        long: "How many states more an implementation may have, 0 to 3

The suite then misses nothing in implementations with at most so many states more than
the automaton. For each of them it may have as many times more lines as there are labels.
For example, with the specification above the command `lotosseq suite --extra 1` lists
  - B
  - A A
  - A B B
  - A B A A",
    };

    pub(crate) const AFTER: Help = Help {
        short: "Lists only what comes after this line of the suite",
        long: "Lists only what comes after this line of the suite

LINE is a line as the suite has it, with or without its sign, in upper or lower case. It
need not be a line of this suite. In a shell it is quoted, and after an equals sign if it
begins with `-`. For example, `--after \"+ A B\"`, `--after=\"- A B\"` and `--after \"A B\"` go
on after the labels `A B`.",
    };

    pub(crate) const STRONG: Help = Help {
        short: "Makes the internal action `i` a label like others",
        long: "Makes the internal action `i` a label like others

It is then a label of the suite, if it can come. For example, for `i; a; stop` and
`--strong` the suite is
  - A
  - i i
  - i A A
  - i A i",
    };
}

/// The help of `compare`.
pub(crate) mod compare {
    use super::Help;

    pub(crate) const ABOUT: Help = Help {
        short: "Writes where two specifications first differ",
        long: "Writes where two specifications first differ

Reads two specifications in basic LOTOS from standard input, the second after the first
(two files are given by `cat FIRST SECOND |`), and writes to standard output the first
sequence of labels that can be observed of one of the two alone: after `< ` if it is the
first that can do it, after `> ` if it is the second. Sequences of any length are
compared. Shorter ones come first, and those of one length in the order of their labels:
gates by their names, then `exit`. Gates with the same name are the same label.

If there is no such sequence, nothing is written, and standard error says how many pairs
of sets were looked at: sets of the terms that a sequence reaches in each of the two.

For example, with the specifications
  specification S [a,b] : noexit behaviour a; (a; stop [] b; stop) endspec
  specification T [a,b] : noexit behaviour a; b; stop endspec
the command `lotosseq compare` writes
  < A A",
    };

    pub(crate) const STATUSES: &str = "Statuses:
  0  no sequence can be observed of one alone; with `--within`, none of the first alone
  1  some sequence can, and the first is written
  2  the command or a specification is refused, or cannot be read
  4  a sequence reaches too many terms, or there are too many pairs of sets
  5  out of memory, or an argument is not Unicode
  6  the output cannot be written";

    pub(crate) const WITHIN: Help = Help {
        short: "Asks only what the first specification can do and the second cannot",
        long: "Asks only what the first specification can do and the second cannot

Status 0 then means that all that can be observed of the first can be observed of the
second, which may do more. For example, for `a; b; stop` and `a; (a; stop [] b; stop)` in
this order nothing is written; without the option
  > A A",
    };

    pub(crate) const TERMS: Help = Help {
        short: "The most terms that a sequence may reach, 1 to 1000000",
        long: "The most terms that a sequence may reach, 1 to 1000000

A sequence reaches the terms in which the derivations end that have it as their
sequence. Terms count as one if they are seen to differ only in relabelling, hiding and
calls. If a sequence that both specifications can do reaches more terms of one of them,
and no difference was found before, the search stops with status 4, and nothing is
written. For example, with `--terms 1` a specification with the behaviour `i; a; stop`
stops the search at `<empty>`, which reaches two terms of it.",
    };

    pub(crate) const STATES: Help = Help {
        short: "The most pairs of sets that may be reached, 1 to 100000000",
        long: "The most pairs of sets that may be reached, 1 to 100000000

A pair has all terms that a sequence reaches in the first specification and all that it
reaches in the second, and counts once, however many sequences reach it. If more pairs
than these are reached before a difference is found, the search stops with status 4, and
nothing is written. For example, for `a; b; stop` and itself it stops with `--states 2`,
as `<empty>`, `A` and `A B` reach three pairs.",
    };

    pub(crate) const HIDE: Help = Help {
        short: "Hides these gates in both specifications",
        long: "Hides these gates in both specifications

GATES are names in upper or lower case, joined by commas, each of a gate in the list of at
least one of the specifications. With `--hide B` two specifications are compared as if each
were `hide b in` its behaviour.",
    };

    pub(crate) const ONLY: Help = Help {
        short: "Asks about these gates; all others are hidden in both specifications",
        long: "Asks about these gates; all others are hidden in both specifications

GATES are names in upper or lower case, joined by commas, each of a gate in the list of at
least one of the specifications. For example, with the specifications
  specification S [a,b] : noexit behaviour a; b; stop endspec
  specification T [a] : noexit behaviour a; stop endspec
the command `lotosseq compare --only A` writes nothing, with status 0.",
    };

    pub(crate) const STRONG: Help = Help {
        short: "Makes the internal action `i` a label like others",
        long: "Makes the internal action `i` a label like others

Sequences may then have it. For example, for `i; a; stop` and `a; stop` in this order
`lotosseq compare --strong` writes
  > A
as `i` comes after `A` in the order of labels.",
    };
}

pub(crate) mod common;
