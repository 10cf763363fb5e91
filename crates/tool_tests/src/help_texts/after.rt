//! The help of `after`. Made of share/help.txt by tools/help-texts.

/// `lotosseq after --help`
pub(crate) const WHOLE: &str = "Writes what can come after a sequence

Reads a specification in basic LOTOS from standard input (a file is given by `< FILE`)
and follows the sequence of the labels. If some derivation, of any number of steps,
yields the sequence, each label that can come after it, after internal steps or none, is
written on a line, in order; and then `<deadlock>`, if the system can be in a deadlock:
a state without any step. If no derivation yields it, nothing is written, the status is
1, and standard error has the first label that cannot come and what can in its place.

A log of any number of labels is followed by `lotosseq after $(cat LOG) < FILE`.

For example, with the specification
  specification S [a,b,c] : noexit behaviour a; (b; stop [] i; c; stop) endspec
the command `lotosseq after A` writes
  B
  C
and `lotosseq after A A` writes to standard error
  label 2, A, cannot come here; what can: B C

Usage: lotosseq after [OPTIONS] [LABEL]...

Arguments:
  [LABEL]...
          The labels of the sequence
         \x20
          Each is a gate of the specification's own list, or `exit` for successful termination, in
          upper or lower case. A word of the command may hold several, with blanks between.
          Without labels the command writes what can come first. `i` is a label only with
          `--strong`, as the internal action cannot be observed.

Options:
      --terms <N>
          The most terms that a prefix may reach, 1 to 1000000
         \x20
          A prefix is a beginning of the sequence, or the whole of it. It reaches the terms in
          which the derivations end that have it as their sequence. Terms count as one if they are
          seen to differ only in relabelling, hiding and calls. If a prefix reaches more, the
          search stops with status 4. For example, with `--terms 1` and the specification's
          behaviour `i; a; stop` it stops at once: without labels, two terms are reached.
         \x20
          [default: 100000]

      --hide <GATES>
          Hides these gates
         \x20
          GATES are names of gates, joined by commas without blanks, in upper or lower case. What
          happens at a hidden gate is an internal step, which cannot be observed unless `--strong`
          is given. A name that is no gate of the specification's own list is refused with E52.
          Only one of `--hide` and `--only` may be given. For example, with the specification
            specification S [a,b,c] : noexit behaviour P[a,b,c]
            where process P [x,y,z] : noexit := x; y; z; P[x,y,z] endproc endspec
          the command `lotosseq ever --hide B A C` writes
            A C
          and `lotosseq ever A C` finds nothing, as B comes between.

      --only <GATES>
          Asks about these gates; all others are hidden
         \x20
          GATES are names of gates, joined by commas without blanks, in upper or lower case. What
          happens at a hidden gate is an internal step, which cannot be observed unless `--strong`
          is given. A name that is no gate of the specification's own list is refused with E52.
          Only one of `--hide` and `--only` may be given. For example, with the specification
            specification S [a,b,c] : noexit behaviour P[a,b,c]
            where process P [x,y,z] : noexit := x; y; z; P[x,y,z] endproc endspec
          the command `lotosseq ever --only A,C A C` writes
            A C
          and `lotosseq ever A C` finds nothing, as B comes between.

      --strong
          Makes the internal action `i` a label like others
         \x20
          It may then be a label of the sequence, and come after it. For example, for
          `i; a; stop` the command `lotosseq after --strong i` writes
            A

      --progress
          Says on standard error how far the search is
         \x20
          At a terminal this is one line, which is renewed; otherwise each report is a new line.
          Output and status stay the same.

      --brief
          Says no more at a terminal than elsewhere
         \x20
          If standard error is a terminal, a refusal is followed there by an explanation, as that of
          `lotosseq check --explain`, and an answer by what it means; only a text of two specifications
          is not explained. With this option nothing follows. Output and status stay the same.

  -h, --help
          Print help (see a summary with '-h')

Statuses:
  0  the sequence can happen
  1  the sequence cannot happen
  2  the command, a label or the specification is refused, or cannot be read
  4  a beginning of the sequence reaches too many terms
  5  out of memory, or an argument is not Unicode
  6  the output cannot be written
";

/// `lotosseq after -h`
pub(crate) const SHORT: &str = "Writes what can come after a sequence

Usage: lotosseq after [OPTIONS] [LABEL]...

Arguments:
  [LABEL]...  The labels of the sequence

Options:
      --terms <N>     The most terms that a prefix may reach, 1 to 1000000 [default: 100000]
      --hide <GATES>  Hides these gates
      --only <GATES>  Asks about these gates; all others are hidden
      --strong        Makes the internal action `i` a label like others
      --progress      Says on standard error how far the search is
      --brief         Says no more at a terminal than elsewhere
  -h, --help          Print help (see more with '--help')

Statuses:
  0  the sequence can happen
  1  the sequence cannot happen
  2  the command, a label or the specification is refused, or cannot be read
  4  a beginning of the sequence reaches too many terms
  5  out of memory, or an argument is not Unicode
  6  the output cannot be written
";
