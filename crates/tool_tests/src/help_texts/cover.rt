//! The help of `cover`. Made of share/help.txt by tools/help-texts.

/// `lotosseq cover --help`
pub(crate) const WHOLE: &str = "Lists sequences that show all that can be observed

Reads a specification in basic LOTOS from standard input (a file is given by `< FILE`)
and writes a listing to standard output: a finite test suite.

Sequences have the same future if the same sequences can come after them, of derivations
of any number of steps. Of all sequences with the same future the listing has the first,
with each label that can come after it, after internal steps or none. A sequence with
which another one begins is left out.

Each sequence occurs once, on a line of its own: its labels, separated by one
blank. Shorter sequences come first, and sequences of one length in the order of
their labels: gates by their names, then `exit`.

For example, with the specification
  specification S [a,b] : noexit behaviour P[a,b]
  where process P [x,y] : noexit := x; (x; stop [] y; P[x,y]) endproc endspec
the command `lotosseq cover` lists
  A A
  A B
as after `A B` the same can come as after the empty sequence.

Usage: lotosseq cover [OPTIONS]

Options:
      --limit <N>
          The most lines that are written, 1 to 1000000000
         \x20
          The search stops when so many lines are written, with status 3, even if no line
          would follow. For example, `--limit 1` writes the first line alone.

      --terms <N>
          The most terms that a prefix may reach, 1 to 1000000
         \x20
          A prefix is a beginning of a sequence that can be observed. It reaches the terms in which
          the derivations end that have it as their sequence. Terms count as one if they are seen to
          differ only in relabelling, hiding and calls. The search stops with status 4 at the first
          prefix that reaches more, and nothing is written. For example, with `--terms 1` the
          specification's behaviour `i; a; stop` stops the search at `<empty>`, which reaches two
          terms.
         \x20
          [default: 100000]

      --states <N>
          The most sets that may be reached, 1 to 100000000
         \x20
          A set has all terms that a sequence reaches, and counts once, however many sequences
          reach it. If more sets than these are reached, the search stops with status 4, and nothing
          is written. For example, for `a; b; stop` it stops with `--states 2`, as `<empty>`, `A`
          and `A B` reach three sets.
         \x20
          [default: 1000000]

      --after <LINE>
          Lists only what comes after this line of a listing
         \x20
          LINE is a line as the listing has it, in upper or lower case; what follows ` : ` in it
          is ignored. It need not be a line of this listing. In a shell it is quoted. For
          example, `--after \"A B\"` goes on after the line `A B`, and `--after \"<empty>\"`
          after the empty sequence.

      --hide <GATES>
          Hides these gates
         \x20
          GATES are names of gates, joined by commas without blanks, in upper or lower case. What
          happens at a hidden gate is an internal step, which cannot be observed unless `--strong`
          is given. A name that is no gate of the specification's own list is refused with E52.
          Only one of `--hide` and `--only` may be given. For example, with the specification
            specification S [a,b,c] : noexit behaviour P[a,b,c]
            where process P [x,y,z] : noexit := x; y; z; P[x,y,z] endproc endspec
          the command `lotosseq ever --hide B A C` writes
            A C
          and `lotosseq ever A C` finds nothing, as B comes between.

      --only <GATES>
          Asks about these gates; all others are hidden
         \x20
          GATES are names of gates, joined by commas without blanks, in upper or lower case. What
          happens at a hidden gate is an internal step, which cannot be observed unless `--strong`
          is given. A name that is no gate of the specification's own list is refused with E52.
          Only one of `--hide` and `--only` may be given. For example, with the specification
            specification S [a,b,c] : noexit behaviour P[a,b,c]
            where process P [x,y,z] : noexit := x; y; z; P[x,y,z] endproc endspec
          the command `lotosseq ever --only A,C A C` writes
            A C
          and `lotosseq ever A C` finds nothing, as B comes between.

      --strong
          Makes the internal action `i` a label like others
         \x20
          Sequences may then have it. For example, for `i; a; stop` and `--strong` the listing has
            i A

      --progress
          Says on standard error how far the search is
         \x20
          At a terminal this is one line, which is renewed; otherwise each report is a new line.
          Output and status stay the same.

      --brief
          Says no more at a terminal than elsewhere
         \x20
          If standard error is a terminal, a refusal is followed there by an explanation, as that of
          `lotosseq check --explain`, and an answer by what it means; only a text of two specifications
          is not explained. With this option nothing follows. Output and status stay the same.

  -h, --help
          Print help (see a summary with '-h')

Statuses:
  0  the listing is complete and has lines
  1  the listing is complete and has none
  2  the command, the mark or the specification is refused, or cannot be read
  3  the limit of lines is reached
  4  a prefix reaches too many terms, or there are too many sets
  5  out of memory, or an argument is not Unicode
  6  the output cannot be written
";

/// `lotosseq cover -h`
pub(crate) const SHORT: &str = "Lists sequences that show all that can be observed

Usage: lotosseq cover [OPTIONS]

Options:
      --limit <N>     The most lines that are written, 1 to 1000000000
      --terms <N>     The most terms that a prefix may reach, 1 to 1000000 [default: 100000]
      --states <N>    The most sets that may be reached, 1 to 100000000 [default: 1000000]
      --after <LINE>  Lists only what comes after this line of a listing
      --hide <GATES>  Hides these gates
      --only <GATES>  Asks about these gates; all others are hidden
      --strong        Makes the internal action `i` a label like others
      --progress      Says on standard error how far the search is
      --brief         Says no more at a terminal than elsewhere
  -h, --help          Print help (see more with '--help')

Statuses:
  0  the listing is complete and has lines
  1  the listing is complete and has none
  2  the command, the mark or the specification is refused, or cannot be read
  3  the limit of lines is reached
  4  a prefix reaches too many terms, or there are too many sets
  5  out of memory, or an argument is not Unicode
  6  the output cannot be written
";
