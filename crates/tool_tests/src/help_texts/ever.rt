//! The help of `ever`. Made of share/help.txt by tools/help-texts.

/// `lotosseq ever --help`
pub(crate) const WHOLE: &str = "Finds a shortest match, of any length

Reads a specification in basic LOTOS from standard input (a file is given by `< FILE`)
and looks for a derivation, of any number of steps, whose sequence matches the pattern.
If there is one, the sequence of one with the fewest steps is written to standard
output. If there is none at any depth, nothing is written there, the status is 1, and
standard error says so, with the number of states that were reached and how far the
pattern can be matched.

For example, with the specification
  specification S [a,b] : noexit behaviour P[a,b]
  where process P [x,y] : noexit := x; y; P[x,y] endproc endspec
the command `lotosseq ever '<while>' '<any>' B B` says that it happens at no depth,
and `lotosseq ever '<until>' B` writes
  A B

Usage: lotosseq ever [OPTIONS] [WORD]...

Arguments:
  [WORD]...
          The words of the pattern
         \x20
          A pattern is a list of at most 256 elements. A sequence matches if it can be split into
          segments, one for each element in turn, and each element matches its segment. Without
          words the pattern matches the empty sequence alone. Words are read in upper or lower
          case. In a shell those that begin with `<` are quoted, as in `'<any>'`. A word of the
          command may hold several words of the pattern, with blanks between, as in `'<until> B'`.
         \x20
            A              that one label: the name of a gate, or `exit` for successful
                           termination. For example, `A B` matches `A B`.
            A,B            one label, which is one of these. No blank is beside a comma. `A,B C`
                           matches `A C` and `B C`.
            <not> A,B      one label, which is none of these. `A <not> A,B` matches `A C`.
            <any>          any one label. `A <any>` matches `A B`.
            <until> SET    any number of labels outside of the set, and then one of the set.
                           `<until> B` matches `B` and `A A B`. SET is `A`, `A,B` or `<not> A,B`.
            <while> SET    any number of labels, all of the set. `A <while> B` matches `A` and
                           `A B B`.
            <while> <any>  any number of labels. `<while> <any> B` matches all that ends in `B`.
            <deadlock>     no label; the last term must be a deadlock. `A <deadlock>` matches `A`
                           if it reaches a term that has no step.
            <refuses> SET  no label; the last term must refuse the set. `A <refuses> B` matches `A`
                           if it reaches a term that has no internal step, and none with `B`. SET
                           may be `<any>` too.
            <livelock>     no label; internal steps that never end must begin at the last term.
            <forever> SET  no label; steps that never end must begin at the last term, each
                           internal or with a label of the set. SET may be `<any>` too.
            <never> SET    no label; no steps, however many, that begin at the last term may have a
                           label of the set among them. SET may be `<any>` too.
                           `<until> <never> B` has a match if `B` can become impossible.
            <until> <deadlock>, <until> <refuses> SET, <until> <never> SET and so on
                           any number of labels, and the same demand on the last term.
         \x20
          Elements next to each other match labels next to each other: `A B` does not match
          `A C B`. An A and later a B, with no C between them, is `A <while> <not> C B`.
         \x20
          The last term is that in which the derivation ends. A deadlock is a term that has no step
          at all, not even an internal one. A term refuses a set if it has no internal step and
          none with a label of the set; so `<deadlock>` is `<refuses> <any>`. Only the last element
          may demand something of the last term.
         \x20
          `i` is a word of a pattern only with `--strong`, as the internal action cannot be
          observed; without it `<not> A` is never an internal step. A name that is neither `exit`
          nor `i` must be that of a gate of the specification's own list; otherwise its word is
          refused with E49 and status 2, as no sequence has that label. For example, `C` is
          refused for
            specification S [a,b] : noexit behaviour a; b; stop endspec

Options:
      --states <N>
          The most states that may be reached, 1 to 100000000
         \x20
          A state is one of the specification and of the pattern together: a term that can be
          reached, and how much of the pattern the labels on the way match. If more of them are
          reached before a match is found, the search stops with status 4. Each takes some
          150 to 600 bytes of memory; the steps that are kept of all of them take at most some
          400 MB more. For example, for `a; b; stop` and the pattern `A B` the search stops with
          `--states 1`.
         \x20
          With `<livelock>`, `<forever>` and `<never>` all states of the specification that can
          be reached are found first. If they are more, the search stops too.
         \x20
          [default: 1000000]

      --explain
          Writes the least run of the sequence too
         \x20
          The line is then the sequence, ` : ` and its least run: the labels of the derivation,
          internal steps included. For example, `i; i; a; stop` with `--explain A` writes
            A : i i A
         \x20
          If the pattern ends with `<livelock>` or `<forever> SET`, the line goes on with steps that
          never end: ` <forever> `, the labels of some steps, and in brackets those of a loop, which
          can be repeated for ever. `A : A <forever> i [B C]` means A, i, B, C, B, C and so on.

      --hidden
          Writes the least run with what makes each internal step
         \x20
          As `--explain`, which it implies, but an internal step is written by what makes it:
          `i` is an `i` of the text, `i(SEND)` an action of the gate SEND that a `hide` makes
          internal, and `i(exit)` the termination of the left side of `>>`. For example,
          `hide s in a; s; (exit >> i; b; stop)` with `--hidden A B` writes
            A B : A i(S) i(exit) i B
         \x20
          Steps that never end are written so too: `A B : A B <forever> [i(H)]`.

      --hide <GATES>
          Hides these gates
         \x20
          GATES are names of gates, joined by commas without blanks, in upper or lower case. What
          happens at a hidden gate is an internal step, which cannot be observed unless `--strong`
          is given. A name that is no gate of the specification's own list is refused with E52.
          Only one of `--hide` and `--only` may be given. For example, with the specification
            specification S [a,b,c] : noexit behaviour P[a,b,c]
            where process P [x,y,z] : noexit := x; y; z; P[x,y,z] endproc endspec
          the command `lotosseq ever --hide B A C` writes
            A C
          and `lotosseq ever A C` finds nothing, as B comes between.

      --only <GATES>
          Asks about these gates; all others are hidden
         \x20
          GATES are names of gates, joined by commas without blanks, in upper or lower case. What
          happens at a hidden gate is an internal step, which cannot be observed unless `--strong`
          is given. A name that is no gate of the specification's own list is refused with E52.
          Only one of `--hide` and `--only` may be given. For example, with the specification
            specification S [a,b,c] : noexit behaviour P[a,b,c]
            where process P [x,y,z] : noexit := x; y; z; P[x,y,z] endproc endspec
          the command `lotosseq ever --only A,C A C` writes
            A C
          and `lotosseq ever A C` finds nothing, as B comes between.

      --strong
          Makes the internal action `i` a label like others
         \x20
          Sequences may then have it, it may be a word of the pattern, and elements match it. For
          example, `i; i; a; stop` with `--strong i i A` writes
            i i A

      --progress
          Says on standard error how far the search is
         \x20
          At a terminal this is one line, which is renewed; otherwise each report is a new line.
          Output and status stay the same.

      --brief
          Says no more at a terminal than elsewhere
         \x20
          If standard error is a terminal, a refusal is followed there by an explanation, as that of
          `lotosseq check --explain`, and an answer by what it means; only a text of two specifications
          is not explained. With this option nothing follows. Output and status stay the same.

  -h, --help
          Print help (see a summary with '-h')

Statuses:
  0  there is a match
  1  there is none, of any length
  2  the command, the pattern or the specification is refused, or cannot be read
  4  there are too many states
  5  out of memory, or an argument is not Unicode
  6  the output cannot be written
";

/// `lotosseq ever -h`
pub(crate) const SHORT: &str = "Finds a shortest match, of any length

Usage: lotosseq ever [OPTIONS] [WORD]...

Arguments:
  [WORD]...  The words of the pattern: labels and elements

Options:
      --states <N>    The most states that may be reached, 1 to 100000000 [default: 1000000]
      --explain       Writes the least run of the sequence too
      --hidden        Writes the least run with what makes each internal step
      --hide <GATES>  Hides these gates
      --only <GATES>  Asks about these gates; all others are hidden
      --strong        Makes the internal action `i` a label like others
      --progress      Says on standard error how far the search is
      --brief         Says no more at a terminal than elsewhere
  -h, --help          Print help (see more with '--help')

Statuses:
  0  there is a match
  1  there is none, of any length
  2  the command, the pattern or the specification is refused, or cannot be read
  4  there are too many states
  5  out of memory, or an argument is not Unicode
  6  the output cannot be written
";
