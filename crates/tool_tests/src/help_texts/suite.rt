//! The help of `suite`. Made of share/help.txt by tools/help-texts.

/// `lotosseq suite --help`
pub(crate) const WHOLE: &str = "Lists a test suite that misses nothing

Reads a specification in basic LOTOS from standard input (a file is given by `< FILE`)
and writes to standard output what to try with an implementation. A line has a sign and
labels, separated by one blank. After `+` the implementation has to be able to do the
labels one after the other. After `-` it has to be able to do all but the last, and then
not the last one.

An implementation passes all lines exactly if it can do the sequences that can be observed
of the specification, and no others. This holds of each one that has no other labels than
the suite, can always do the same after the same labels, and has at most as many states as
the automaton that `lotosseq graph` writes, or with `--extra K` at most K more. The labels
of the suite are the gates of the specification's own list that are not hidden, and
`exit`, if it can come.

Shorter lines come first, and lines of one length in the order of their labels: gates by
their names, then `exit`. A line with which a longer one begins is left out. If there are
more than 10000000 lines, nothing is written.

For example, with the specification
  specification S [a,b] : noexit behaviour P[a,b]
  where process P [x,y] : noexit := x; y; P[x,y] endproc endspec
the command `lotosseq suite` lists
  - B
  - A A
  + A B A

Usage: lotosseq suite [OPTIONS]

Options:
      --extra <K>
          How many states more an implementation may have, 0 to 3
         \x20
          The suite then misses nothing in implementations with at most so many states more than
          the automaton. For each of them it may have as many times more lines as there are labels.
          For example, with the specification above the command `lotosseq suite --extra 1` lists
            - B
            - A A
            - A B B
            - A B A A
         \x20
          [default: 0]

      --limit <N>
          The most lines that are written, 1 to 1000000000
         \x20
          The search stops when so many lines are written, with status 3, even if no line
          would follow. For example, `--limit 1` writes the first line alone.

      --terms <N>
          The most terms that a sequence may reach, 1 to 1000000
         \x20
          A sequence reaches the terms in which the derivations end that have it as their
          sequence. Terms count as one if they are seen to differ only in relabelling, hiding and
          calls. If a sequence that the search comes to reaches more, it stops with status 4, and
          nothing is written. For example, with `--terms 1` the specification's behaviour
          `i; a; stop` stops the search at `<empty>`, which reaches two terms.
         \x20
          [default: 100000]

      --states <N>
          The most sets that may be reached, 1 to 100000000
         \x20
          A set has all terms that a sequence reaches, and counts once, however many sequences
          reach it. If more sets than these are reached, the search stops with status 4, and nothing
          is written. For example, for `a; b; stop` it stops with `--states 2`, as `<empty>`, `A`
          and `A B` reach three sets.
         \x20
          [default: 1000000]

      --after <LINE>
          Lists only what comes after this line of the suite
         \x20
          LINE is a line as the suite has it, with or without its sign, in upper or lower case. It
          need not be a line of this suite. In a shell it is quoted, and after an equals sign if it
          begins with `-`. For example, `--after \"+ A B\"`, `--after=\"- A B\"` and `--after \"A B\"` go
          on after the labels `A B`.

      --hide <GATES>
          Hides these gates
         \x20
          GATES are names of gates, joined by commas without blanks, in upper or lower case. What
          happens at a hidden gate is an internal step, which cannot be observed unless `--strong`
          is given. A name that is no gate of the specification's own list is refused with E52.
          Only one of `--hide` and `--only` may be given. For example, with the specification
            specification S [a,b,c] : noexit behaviour P[a,b,c]
            where process P [x,y,z] : noexit := x; y; z; P[x,y,z] endproc endspec
          the command `lotosseq ever --hide B A C` writes
            A C
          and `lotosseq ever A C` finds nothing, as B comes between.

      --only <GATES>
          Asks about these gates; all others are hidden
         \x20
          GATES are names of gates, joined by commas without blanks, in upper or lower case. What
          happens at a hidden gate is an internal step, which cannot be observed unless `--strong`
          is given. A name that is no gate of the specification's own list is refused with E52.
          Only one of `--hide` and `--only` may be given. For example, with the specification
            specification S [a,b,c] : noexit behaviour P[a,b,c]
            where process P [x,y,z] : noexit := x; y; z; P[x,y,z] endproc endspec
          the command `lotosseq ever --only A,C A C` writes
            A C
          and `lotosseq ever A C` finds nothing, as B comes between.

      --strong
          Makes the internal action `i` a label like others
         \x20
          It is then a label of the suite, if it can come. For example, for `i; a; stop` and
          `--strong` the suite is
            - A
            - i i
            - i A A
            - i A i

      --progress
          Says on standard error how far the search is
         \x20
          At a terminal this is one line, which is renewed; otherwise each report is a new line.
          Output and status stay the same.

      --brief
          Says no more at a terminal than elsewhere
         \x20
          If standard error is a terminal, a refusal is followed there by an explanation, as that of
          `lotosseq check --explain`, and an answer by what it means; only a text of two specifications
          is not explained. With this option nothing follows. Output and status stay the same.

  -h, --help
          Print help (see a summary with '-h')

Statuses:
  0  the listing is complete and has lines
  1  the listing is complete and has none
  2  the command, the mark or the specification is refused, or cannot be read
  3  the limit of lines is reached
  4  a sequence reaches too many terms, or there are too many sets or lines
  5  out of memory, or an argument is not Unicode
  6  the output cannot be written
";

/// `lotosseq suite -h`
pub(crate) const SHORT: &str = "Lists a test suite that misses nothing

Usage: lotosseq suite [OPTIONS]

Options:
      --extra <K>     How many states more an implementation may have, 0 to 3 [default: 0]
      --limit <N>     The most lines that are written, 1 to 1000000000
      --terms <N>     The most terms that a sequence may reach, 1 to 1000000 [default: 100000]
      --states <N>    The most sets that may be reached, 1 to 100000000 [default: 1000000]
      --after <LINE>  Lists only what comes after this line of the suite
      --hide <GATES>  Hides these gates
      --only <GATES>  Asks about these gates; all others are hidden
      --strong        Makes the internal action `i` a label like others
      --progress      Says on standard error how far the search is
      --brief         Says no more at a terminal than elsewhere
  -h, --help          Print help (see more with '--help')

Statuses:
  0  the listing is complete and has lines
  1  the listing is complete and has none
  2  the command, the mark or the specification is refused, or cannot be read
  3  the limit of lines is reached
  4  a sequence reaches too many terms, or there are too many sets or lines
  5  out of memory, or an argument is not Unicode
  6  the output cannot be written
";
