//! The help of `graph`. Made of share/help.txt by tools/help-texts.

/// `lotosseq graph --help`
pub(crate) const WHOLE: &str = "Writes all that can be observed as an automaton

Reads a specification in basic LOTOS from standard input (a file is given by `< FILE`)
and writes the least deterministic automaton of the sequences that can be observed to
standard output, in the Aldebaran format: as text that tools for automata read, and of
which `lotosseq-draw` makes a picture.

Two sequences lead to the same state if the same sequences can come after them. States
are numbered in the order of the first sequences that lead to them: shorter sequences
first, and sequences of one length in the order of their labels, gates by their names,
then `exit`. The first line has the number of the first state, 0, that of the transitions
and that of the states. Each other line has a transition: its state, its label and the
state that it leads to. They are in the order of their states, then of their labels.

For example, with the specification
  specification S [a,b] : noexit behaviour P[a,b]
  where process P [x,y] : noexit := x; (x; stop [] y; P[x,y]) endproc endspec
the command `lotosseq graph` writes
  des (0, 3, 3)
  (0, \"A\", 1)
  (1, \"A\", 2)
  (1, \"B\", 0)
as the same can come after `A B` as at the beginning.

Usage: lotosseq graph [OPTIONS]

Options:
      --terms <N>
          The most terms that a sequence may reach, 1 to 1000000
         \x20
          A sequence reaches the terms in which the derivations end that have it as their
          sequence. Terms count as one if they are seen to differ only in relabelling, hiding and
          calls. If a sequence that the search comes to reaches more, it stops with status 4, and
          nothing is written. For example, with `--terms 1` the specification's behaviour
          `i; a; stop` stops the search at `<empty>`, which reaches two terms.
         \x20
          [default: 100000]

      --states <N>
          The most sets that may be reached, 1 to 100000000
         \x20
          A set has all terms that a sequence reaches, and counts once, however many sequences
          reach it. If more sets than these are reached, the search stops with status 4, and nothing
          is written. For example, for `a; b; stop` it stops with `--states 2`, as `<empty>`, `A`
          and `A B` reach three sets.
         \x20
          [default: 1000000]

      --hide <GATES>
          Hides these gates
         \x20
          GATES are names of gates, joined by commas without blanks, in upper or lower case. What
          happens at a hidden gate is an internal step, which cannot be observed unless `--strong`
          is given. A name that is no gate of the specification's own list is refused with E52.
          Only one of `--hide` and `--only` may be given. For example, with the specification
            specification S [a,b,c] : noexit behaviour P[a,b,c]
            where process P [x,y,z] : noexit := x; y; z; P[x,y,z] endproc endspec
          the command `lotosseq ever --hide B A C` writes
            A C
          and `lotosseq ever A C` finds nothing, as B comes between.

      --only <GATES>
          Asks about these gates; all others are hidden
         \x20
          GATES are names of gates, joined by commas without blanks, in upper or lower case. What
          happens at a hidden gate is an internal step, which cannot be observed unless `--strong`
          is given. A name that is no gate of the specification's own list is refused with E52.
          Only one of `--hide` and `--only` may be given. For example, with the specification
            specification S [a,b,c] : noexit behaviour P[a,b,c]
            where process P [x,y,z] : noexit := x; y; z; P[x,y,z] endproc endspec
          the command `lotosseq ever --only A,C A C` writes
            A C
          and `lotosseq ever A C` finds nothing, as B comes between.

      --strong
          Makes the internal action `i` a label like others
         \x20
          Transitions may then have it. For example, for `i; a; stop` and `--strong` the automaton is
            des (0, 2, 3)
            (0, \"i\", 1)
            (1, \"A\", 2)

      --progress
          Says on standard error how far the search is
         \x20
          At a terminal this is one line, which is renewed; otherwise each report is a new line.
          Output and status stay the same.

      --brief
          Says no more at a terminal than elsewhere
         \x20
          If standard error is a terminal, a refusal is followed there by an explanation, as that of
          `lotosseq check --explain`, and an answer by what it means; only a text of two specifications
          is not explained. With this option nothing follows. Output and status stay the same.

  -h, --help
          Print help (see a summary with '-h')

Statuses:
  0  the automaton is written
  2  the command or the specification is refused, or cannot be read
  4  a sequence reaches too many terms, or there are too many sets
  5  out of memory, or an argument is not Unicode
  6  the output cannot be written
";

/// `lotosseq graph -h`
pub(crate) const SHORT: &str = "Writes all that can be observed as an automaton

Usage: lotosseq graph [OPTIONS]

Options:
      --terms <N>     The most terms that a sequence may reach, 1 to 1000000 [default: 100000]
      --states <N>    The most sets that may be reached, 1 to 100000000 [default: 1000000]
      --hide <GATES>  Hides these gates
      --only <GATES>  Asks about these gates; all others are hidden
      --strong        Makes the internal action `i` a label like others
      --progress      Says on standard error how far the search is
      --brief         Says no more at a terminal than elsewhere
  -h, --help          Print help (see more with '--help')

Statuses:
  0  the automaton is written
  2  the command or the specification is refused, or cannot be read
  4  a sequence reaches too many terms, or there are too many sets
  5  out of memory, or an argument is not Unicode
  6  the output cannot be written
";
