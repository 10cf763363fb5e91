//! The help of `search`. Made of share/help.txt by tools/help-texts.

/// `lotosseq search --help`
pub(crate) const WHOLE: &str = "Lists the sequences that match a pattern

Reads a specification in basic LOTOS from standard input (a file is given by `< FILE`)
and writes a listing to standard output. With `--length N` it has every sequence of at
most N labels that matches the pattern and that some derivation from the
specification's behaviour yields, of any number of steps; with `--depth N` it has
those of derivations of at most N steps. One of the two is given.

Each sequence occurs once, on a line of its own: its labels, separated by one
blank, or `<empty>`. Shorter sequences come first, and sequences of one length in
the order of their labels: gates by their names, then `exit`.

For example, with the specification
  specification S [a,b] : exit behaviour a; b; exit endspec
the command `lotosseq search --length 3 a b exit` lists
  A B exit

Usage: lotosseq search [OPTIONS] <--depth <N>|--length <N>> [WORD]...

Arguments:
  [WORD]...
          The words of the pattern
         \x20
          A pattern is a list of at most 256 elements. A sequence matches if it can be split into
          segments, one for each element in turn, and each element matches its segment. Without
          words the pattern matches the empty sequence alone. Words are read in upper or lower
          case. In a shell those that begin with `<` are quoted, as in `'<any>'`. A word of the
          command may hold several words of the pattern, with blanks between, as in `'<until> B'`.
         \x20
            A              that one label: the name of a gate, or `exit` for successful
                           termination. For example, `A B` matches `A B`.
            A,B            one label, which is one of these. No blank is beside a comma. `A,B C`
                           matches `A C` and `B C`.
            <not> A,B      one label, which is none of these. `A <not> A,B` matches `A C`.
            <any>          any one label. `A <any>` matches `A B`.
            <until> SET    any number of labels outside of the set, and then one of the set.
                           `<until> B` matches `B` and `A A B`. SET is `A`, `A,B` or `<not> A,B`.
            <while> SET    any number of labels, all of the set. `A <while> B` matches `A` and
                           `A B B`.
            <while> <any>  any number of labels. `<while> <any> B` matches all that ends in `B`.
            <deadlock>     no label; the last term must be a deadlock. `A <deadlock>` matches `A`
                           if it reaches a term that has no step.
            <refuses> SET  no label; the last term must refuse the set. `A <refuses> B` matches `A`
                           if it reaches a term that has no internal step, and none with `B`. SET
                           may be `<any>` too.
            <until> <deadlock>, <until> <refuses> SET
                           any number of labels, and the same demand on the last term.
         \x20
          Elements next to each other match labels next to each other: `A B` does not match
          `A C B`. An A and later a B, with no C between them, is `A <while> <not> C B`.
         \x20
          The last term is that in which the derivation ends. A deadlock is a term that has no step
          at all, not even an internal one. A term refuses a set if it has no internal step and
          none with a label of the set; so `<deadlock>` is `<refuses> <any>`. Only the last element
          may demand something of the last term.
         \x20
          `i` is a word of a pattern only with `--strong`, as the internal action cannot be
          observed; without it `<not> A` is never an internal step. The name of a gate that the
          specification does not have is accepted with a warning, unless `--known` is given; no
          sequence has that label.

Options:
      --depth <N>
          The most steps of a derivation, 0 to 255
         \x20
          Every step counts, those of the internal action `i` too, and so does successful
          termination. For example, for `a; b; exit` the sequence `A B exit` is listed with
          `--depth 3` and not with `--depth 2`.

      --length <N>
          The most labels of a sequence, 0 to 255
         \x20
          A derivation may have any number of steps, and internal steps count only with
          `--strong`. For example, for `i; i; a; b; exit` the sequence `A B` is listed with
          `--length 2`.

      --limit <N>
          The most lines that are written, 1 to 1000000000
         \x20
          The search stops when so many lines are written, with status 3, even if no line
          would follow. For example, `--limit 1` writes the first line alone.

      --terms <N>
          The most terms that a prefix may reach, 1 to 1000000
         \x20
          A prefix is a beginning of a sequence that can still match. It reaches the terms in
          which the derivations end that have it as their sequence. With `--length` terms count as
          one if they are seen to differ only in relabelling, hiding and calls. The search stops
          with status 4 at the first prefix that reaches more. For example, with `--terms 1` the
          specification's behaviour `i; a; stop` stops the search at `<empty>`, which reaches two
          terms.
         \x20
          [default: 100000]

      --after <LINE>
          Lists only what comes after this line of a listing
         \x20
          LINE is a line as the listing has it, in upper or lower case; what follows ` : ` in it
          is ignored. It need not be a line of this listing. In a shell it is quoted. For
          example, `--after \"A B\"` goes on after the line `A B`, and `--after \"<empty>\"`
          after the empty sequence.

      --explain
          Writes the least run of each sequence too
         \x20
          A line is then the sequence, ` : ` and its least run: the labels of a derivation that
          has the sequence, internal steps included. It is one with the fewest steps, and of
          these the first in the order of labels, `i` being the last label. With `--length` it may
          have any number of steps. For example, `i; i; a; stop` with `--length 1 --explain A`
          lists
            A : i i A

      --hidden
          Writes the least run with what makes each internal step
         \x20
          As `--explain`, which it implies, but an internal step is written by what makes it:
          `i` is an `i` of the text, `i(SEND)` an action of the gate SEND that a `hide` makes
          internal, and `i(exit)` the termination of the left side of `>>`. For example,
          `hide s in a; s; (exit >> i; b; stop)` with `--length 2 --hidden A B` lists
            A B : A i(S) i(exit) i B

      --hide <GATES>
          Hides these gates
         \x20
          GATES are names of gates, joined by commas without blanks, in upper or lower case. What
          happens at a hidden gate is an internal step, which cannot be observed unless `--strong`
          is given. A name that is no gate of the specification's own list is refused with E52.
          Only one of `--hide` and `--only` may be given. For example, with the specification
            specification S [a,b,c] : noexit behaviour P[a,b,c]
            where process P [x,y,z] : noexit := x; y; z; P[x,y,z] endproc endspec
          the command `lotosseq ever --hide B A C` writes
            A C
          and `lotosseq ever A C` finds nothing, as B comes between.

      --only <GATES>
          Asks about these gates; all others are hidden
         \x20
          GATES are names of gates, joined by commas without blanks, in upper or lower case. What
          happens at a hidden gate is an internal step, which cannot be observed unless `--strong`
          is given. A name that is no gate of the specification's own list is refused with E52.
          Only one of `--hide` and `--only` may be given. For example, with the specification
            specification S [a,b,c] : noexit behaviour P[a,b,c]
            where process P [x,y,z] : noexit := x; y; z; P[x,y,z] endproc endspec
          the command `lotosseq ever --only A,C A C` writes
            A C
          and `lotosseq ever A C` finds nothing, as B comes between.

      --strong
          Makes the internal action `i` a label like others
         \x20
          Sequences may then have it, it may be a word of the pattern, and elements match it. For
          example, `i; i; a; stop` with `--length 3 --strong i i A` lists
            i i A

      --known
          Refuses words that name no gate of the specification
         \x20
          Each label of the pattern must then be a gate of the specification's own list, `exit`,
          or with `--strong` `i`. Without this option the name of any other gate is accepted with
          a warning, and no sequence has that label. For example, with the specification
            specification S [a] : exit behaviour a; exit endspec
          the command `lotosseq search --length 2 --known B exit` is refused with
            E49 word 1 is no gate of the specification

      --progress
          Says on standard error how far the search is
         \x20
          At a terminal this is one line, which is renewed; otherwise each report is a new line.
          Output and status stay the same.

      --brief
          Says no more at a terminal than elsewhere
         \x20
          If standard error is a terminal, a refusal is followed there by an explanation, as that of
          `lotosseq check --explain`, and an answer by what it means; only a text of two specifications
          is not explained. With this option nothing follows. Output and status stay the same.

  -h, --help
          Print help (see a summary with '-h')

Statuses:
  0  the listing is complete and has lines
  1  the listing is complete and has none
  2  the command, the pattern, the mark or the specification is refused, or cannot
     be read
  3  the limit of lines is reached
  4  a prefix reaches too many terms
  5  out of memory, or an argument is not Unicode
  6  the output cannot be written
";

/// `lotosseq search -h`
pub(crate) const SHORT: &str = "Lists the sequences that match a pattern

Usage: lotosseq search [OPTIONS] <--depth <N>|--length <N>> [WORD]...

Arguments:
  [WORD]...  The words of the pattern: labels and elements

Options:
      --depth <N>     The most steps of a derivation, 0 to 255
      --length <N>    The most labels of a sequence, 0 to 255
      --limit <N>     The most lines that are written, 1 to 1000000000
      --terms <N>     The most terms that a prefix may reach, 1 to 1000000 [default: 100000]
      --after <LINE>  Lists only what comes after this line of a listing
      --explain       Writes the least run of each sequence too
      --hidden        Writes the least run with what makes each internal step
      --hide <GATES>  Hides these gates
      --only <GATES>  Asks about these gates; all others are hidden
      --strong        Makes the internal action `i` a label like others
      --known         Refuses words that name no gate of the specification
      --progress      Says on standard error how far the search is
      --brief         Says no more at a terminal than elsewhere
  -h, --help          Print help (see more with '--help')

Statuses:
  0  the listing is complete and has lines
  1  the listing is complete and has none
  2  the command, the pattern, the mark or the specification is refused, or cannot
     be read
  3  the limit of lines is reached
  4  a prefix reaches too many terms
  5  out of memory, or an argument is not Unicode
  6  the output cannot be written
";
