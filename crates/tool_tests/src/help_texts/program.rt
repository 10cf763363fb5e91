//! The help of the program. Made of share/help.txt by tools/help-texts.

/// `lotosseq --help`
pub(crate) const WHOLE: &str =
    "Checks a basic LOTOS specification, and lists its observable action sequences

The specification is read from standard input, and what is asked of it is written to
standard output. A file is given by `< FILE`, as in
  lotosseq check < ring.lotos
`lotosseq check --help` is about the static rules, `lotosseq search --help` about the
listing, its options and the words of a pattern, `lotosseq ever --help` about matches
of any length, `lotosseq after --help` about what can come after a sequence,
`lotosseq cover --help` about sequences that show all that can be observed,
`lotosseq graph --help` about the automaton of all that can be observed,
`lotosseq suite --help` about test suites that miss nothing, and
`lotosseq compare --help` about where two specifications differ.

Usage: lotosseq <COMMAND>

Commands:
  search   Lists the sequences that match a pattern
  check    Checks the static rules and lists the processes
  ever     Finds a shortest match, of any length
  after    Writes what can come after a sequence
  cover    Lists sequences that show all that can be observed
  graph    Writes all that can be observed as an automaton
  suite    Lists a test suite that misses nothing
  compare  Writes where two specifications first differ
  help     Print this message or the help of the given subcommand(s)

Options:
  -h, --help
          Print help (see a summary with '-h')

  -V, --version
          Print version

Statuses:
  0  the specification is accepted, the listing is complete and has lines, there is a
     match, the sequence can happen, the automaton is written, or two specifications
     do not differ
  1  the listing is complete and has none, there is no match, the sequence cannot
     happen, or two specifications differ
  2  the command, its words, the mark or the specification is refused, or cannot
     be read
  3  the limit of lines is reached
  4  a prefix reaches too many terms, or there are too many states, sets, pairs of sets
     or lines of a suite
  5  out of memory, or an argument is not Unicode
  6  the output cannot be written
";

/// `lotosseq -h`
pub(crate) const SHORT: &str =
    "Checks a basic LOTOS specification, and lists its observable action sequences

Usage: lotosseq <COMMAND>

Commands:
  search   Lists the sequences that match a pattern
  check    Checks the static rules and lists the processes
  ever     Finds a shortest match, of any length
  after    Writes what can come after a sequence
  cover    Lists sequences that show all that can be observed
  graph    Writes all that can be observed as an automaton
  suite    Lists a test suite that misses nothing
  compare  Writes where two specifications first differ
  help     Print this message or the help of the given subcommand(s)

Options:
  -h, --help     Print help (see more with '--help')
  -V, --version  Print version

Statuses:
  0  the specification is accepted, the listing is complete and has lines, there is a
     match, the sequence can happen, the automaton is written, or two specifications
     do not differ
  1  the listing is complete and has none, there is no match, the sequence cannot
     happen, or two specifications differ
  2  the command, its words, the mark or the specification is refused, or cannot
     be read
  3  the limit of lines is reached
  4  a prefix reaches too many terms, or there are too many states, sets, pairs of sets
     or lines of a suite
  5  out of memory, or an argument is not Unicode
  6  the output cannot be written
";

/// `lotosseq --version`
pub(crate) const VERSION: &str = "lotosseq 0.1.0 (proved, logic dac8208d650f15bf)
";
