//! The help of `check`. Made of share/help.txt by tools/help-texts.

/// `lotosseq check --help`
pub(crate) const WHOLE: &str = "Checks the static rules and lists the processes

Reads a specification in basic LOTOS from standard input. If it breaks no static
rule, a line is written for each process, in the order of their definitions: its name,
the number of its gates, and `exit` or `noexit`. Otherwise the first fault is named on
standard error, with its position: the line, and the column in bytes.

For example, with the specification
  specification S [a] : noexit behaviour P[a]
  where process P [x] : noexit := x; P[x] endproc endspec
the command `lotosseq check` lists
  P 1 noexit

Usage: lotosseq check [OPTIONS]

Options:
      --explain
          Explains a fault
         \x20
          The message of a fault in the specification is followed on standard error by its line
          with a mark under the position, and by what to do; if a word or a sign does not fit,
          also by what is there and what could be there. Output and status stay the same. For
          example, for `behaviour a stop` it writes
            behaviour a stop
                        ^
            `stop` is a reserved word
            could be here, among others: `;` `[` `[]` `|[` `||` `|||` `[>` `>>` `where` `endspec`
            Put what is missing before it, or remove it.

      --warn
          Warns of what is allowed and may be a mistake
         \x20
          If the specification is accepted, standard error has a line with the position of each
            process that no call names, or that is not reached from the specification's behaviour,
            process or specification that is declared `exit` and can never terminate,
            specification whose behaviour is not `stop`, and can do nothing at all,
            gate of the specification or of a process that its behaviour does not use,
            gate in `|[..]|` that the left side or the right side never offers.
          Output and status stay the same. For example, it warns of the gate `b` of
            specification S [a,b] : noexit behaviour a; stop endspec

      --brief
          Says no more at a terminal than elsewhere
         \x20
          If standard error is a terminal, a refusal is followed there by an explanation, as that of
          `lotosseq check --explain`, and an answer by what it means; only a text of two specifications
          is not explained. With this option nothing follows. Output and status stay the same.

  -h, --help
          Print help (see a summary with '-h')

Statuses:
  0  the specification is accepted
  2  the command or the specification is refused, or cannot be read
  5  out of memory, or an argument is not Unicode
  6  the output cannot be written
";

/// `lotosseq check -h`
pub(crate) const SHORT: &str = "Checks the static rules and lists the processes

Usage: lotosseq check [OPTIONS]

Options:
      --explain  Explains a fault
      --warn     Warns of what is allowed and may be a mistake
      --brief    Says no more at a terminal than elsewhere
  -h, --help     Print help (see more with '--help')

Statuses:
  0  the specification is accepted
  2  the command or the specification is refused, or cannot be read
  5  out of memory, or an argument is not Unicode
  6  the output cannot be written
";
