//! The help of `compare`. Made of share/help.txt by tools/help-texts.

/// `lotosseq compare --help`
pub(crate) const WHOLE: &str = "Writes where two specifications first differ

Reads two specifications in basic LOTOS from standard input, the second after the first
(two files are given by `cat FIRST SECOND |`), and writes to standard output the first
sequence of labels that can be observed of one of the two alone: after `< ` if it is the
first that can do it, after `> ` if it is the second. Sequences of any length are
compared. Shorter ones come first, and those of one length in the order of their labels:
gates by their names, then `exit`. Gates with the same name are the same label.

If there is no such sequence, nothing is written, and standard error says how many pairs
of sets were looked at: sets of the terms that a sequence reaches in each of the two.

For example, with the specifications
  specification S [a,b] : noexit behaviour a; (a; stop [] b; stop) endspec
  specification T [a,b] : noexit behaviour a; b; stop endspec
the command `lotosseq compare` writes
  < A A

Usage: lotosseq compare [OPTIONS]

Options:
      --within
          Asks only what the first specification can do and the second cannot
         \x20
          Status 0 then means that all that can be observed of the first can be observed of the
          second, which may do more. For example, for `a; b; stop` and `a; (a; stop [] b; stop)` in
          this order nothing is written; without the option
            > A A

      --terms <N>
          The most terms that a sequence may reach, 1 to 1000000
         \x20
          A sequence reaches the terms in which the derivations end that have it as their
          sequence. Terms count as one if they are seen to differ only in relabelling, hiding and
          calls. If a sequence that both specifications can do reaches more terms of one of them,
          and no difference was found before, the search stops with status 4, and nothing is
          written. For example, with `--terms 1` a specification with the behaviour `i; a; stop`
          stops the search at `<empty>`, which reaches two terms of it.
         \x20
          [default: 100000]

      --states <N>
          The most pairs of sets that may be reached, 1 to 100000000
         \x20
          A pair has all terms that a sequence reaches in the first specification and all that it
          reaches in the second, and counts once, however many sequences reach it. If more pairs
          than these are reached before a difference is found, the search stops with status 4, and
          nothing is written. For example, for `a; b; stop` and itself it stops with `--states 2`,
          as `<empty>`, `A` and `A B` reach three pairs.
         \x20
          [default: 1000000]

      --hide <GATES>
          Hides these gates in both specifications
         \x20
          GATES are names in upper or lower case, joined by commas, each of a gate in the list of at
          least one of the specifications. With `--hide B` two specifications are compared as if each
          were `hide b in` its behaviour.

      --only <GATES>
          Asks about these gates; all others are hidden in both specifications
         \x20
          GATES are names in upper or lower case, joined by commas, each of a gate in the list of at
          least one of the specifications. For example, with the specifications
            specification S [a,b] : noexit behaviour a; b; stop endspec
            specification T [a] : noexit behaviour a; stop endspec
          the command `lotosseq compare --only A` writes nothing, with status 0.

      --strong
          Makes the internal action `i` a label like others
         \x20
          Sequences may then have it. For example, for `i; a; stop` and `a; stop` in this order
          `lotosseq compare --strong` writes
            > A
          as `i` comes after `A` in the order of labels.

      --progress
          Says on standard error how far the search is
         \x20
          At a terminal this is one line, which is renewed; otherwise each report is a new line.
          Output and status stay the same.

      --brief
          Says no more at a terminal than elsewhere
         \x20
          If standard error is a terminal, a refusal is followed there by an explanation, as that of
          `lotosseq check --explain`, and an answer by what it means; only a text of two specifications
          is not explained. With this option nothing follows. Output and status stay the same.

  -h, --help
          Print help (see a summary with '-h')

Statuses:
  0  no sequence can be observed of one alone; with `--within`, none of the first alone
  1  some sequence can, and the first is written
  2  the command or a specification is refused, or cannot be read
  4  a sequence reaches too many terms, or there are too many pairs of sets
  5  out of memory, or an argument is not Unicode
  6  the output cannot be written
";

/// `lotosseq compare -h`
pub(crate) const SHORT: &str = "Writes where two specifications first differ

Usage: lotosseq compare [OPTIONS]

Options:
      --within        Asks only what the first specification can do and the second cannot
      --terms <N>     The most terms that a sequence may reach, 1 to 1000000 [default: 100000]
      --states <N>    The most pairs of sets that may be reached, 1 to 100000000 [default: 1000000]
      --hide <GATES>  Hides these gates in both specifications
      --only <GATES>  Asks about these gates; all others are hidden in both specifications
      --strong        Makes the internal action `i` a label like others
      --progress      Says on standard error how far the search is
      --brief         Says no more at a terminal than elsewhere
  -h, --help          Print help (see more with '--help')

Statuses:
  0  no sequence can be observed of one alone; with `--within`, none of the first alone
  1  some sequence can, and the first is written
  2  the command or a specification is refused, or cannot be read
  4  a sequence reaches too many terms, or there are too many pairs of sets
  5  out of memory, or an argument is not Unicode
  6  the output cannot be written
";
