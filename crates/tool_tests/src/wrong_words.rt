//! The whole message about words that fit no command: as clap words it, and then why a command has no such option if
//! another one has it.

use super::rows::{REFUSED, Row, expect_rows};

/// Words that fit no command, and the message.
#[rattlefmt::skip]
const ROWS: &[Row] = &[
    Row { words: "--nothing",
        message: b"error: unexpected argument '--nothing' found\n\nUsage: lotosseq <COMMAND>\n\nFor more information, try '--help'.\n",
        ..REFUSED },
    Row { words: "search A",
        message: b"error: the following required arguments were not provided:\n  <--depth <N>|--length <N>>\n\nUsage: lotosseq search [OPTIONS] <--depth <N>|--length <N>> [WORD]...\n\nFor more information, try '--help'.\n",
        ..REFUSED },
    Row { words: "search --length 3 --depth 3 A",
        message: b"error: the argument '--depth <N>' cannot be used with '--length <N>'\n\nUsage: lotosseq search [OPTIONS] <--depth <N>|--length <N>> [WORD]...\n\nFor more information, try '--help'.\n",
        ..REFUSED },
    Row { words: "search --length 256 A",
        message: b"error: invalid value '256' for '--length <N>': 256 is not in 0..=255\n\nFor more information, try '--help'.\n",
        ..REFUSED },
    Row { words: "search --depth 256 A",
        message: b"error: invalid value '256' for '--depth <N>': 256 is not in 0..=255\n\nFor more information, try '--help'.\n",
        ..REFUSED },
    Row { words: "after --terms 0 A",
        message: b"error: invalid value '0' for '--terms <N>': 0 is not in 1..=1000000\n\nFor more information, try '--help'.\n",
        ..REFUSED },
    Row { words: "after --explain A",
        message: b"error: unexpected argument '--explain' found\n\n  tip: to pass '--explain' as a value, use '-- --explain'\n\nUsage: lotosseq after [OPTIONS] [LABEL]...\n\nFor more information, try '--help'.\nlotosseq: after has no --explain: it writes labels, and no sequences that have runs\n",
        ..REFUSED },
    Row { words: "cover --states 0",
        message: b"error: invalid value '0' for '--states <N>': 0 is not in 1..=100000000\n\nFor more information, try '--help'.\n",
        ..REFUSED },
    Row { words: "graph --terms 1000001",
        message: b"error: invalid value '1000001' for '--terms <N>': 1000001 is not in 1..=1000000\n\nFor more information, try '--help'.\n",
        ..REFUSED },
    Row { words: "suite --extra 4",
        message: b"error: invalid value '4' for '--extra <K>': 4 is not in 0..=3\n\nFor more information, try '--help'.\n",
        ..REFUSED },
    Row { words: "suite --extra=-1",
        message: b"error: invalid value '-1' for '--extra <K>': -1 is not in 0..=3\n\nFor more information, try '--help'.\n",
        ..REFUSED },
    Row { words: "cover --limit 0",
        message: b"error: invalid value '0' for '--limit <N>': 0 is not in 1..=1000000000\n\nFor more information, try '--help'.\n",
        ..REFUSED },
];

#[test]
fn words_that_fit_no_command(rt: HostRuntime) {
    expect_rows(&rt, rt.alloc(), ROWS);
}

/// Options of other commands, given to `search`, `check` and `ever`.
#[rattlefmt::skip]
const OF_OTHERS: &[Row] = &[
    Row { words: "search --states 3",
        message: b"error: unexpected argument '--states' found\n\n  tip: to pass '--states' as a value, use '-- --states'\n\nUsage: lotosseq search [OPTIONS] <--depth <N>|--length <N>> [WORD]...\n\nFor more information, try '--help'.\nlotosseq: search has no --states: --terms bounds the states that a prefix may lead to\n",
        ..REFUSED },
    Row { words: "search --depth=1 --warn",
        message: b"error: unexpected argument '--warn' found\n\n  tip: to pass '--warn' as a value, use '-- --warn'\n\nUsage: lotosseq search [OPTIONS] <--depth <N>|--length <N>> [WORD]...\n\nFor more information, try '--help'.\nlotosseq: search has no --warn: check --warn warns\n",
        ..REFUSED },
    Row { words: "check --depth=3",
        message: b"error: unexpected argument '--depth' found\n\nUsage: lotosseq check [OPTIONS]\n\nFor more information, try '--help'.\nlotosseq: check has no --depth: it looks at the text alone, and at no sequences\n",
        ..REFUSED },
    Row { words: "check --limit 3",
        message: b"error: unexpected argument '--limit' found\n\nUsage: lotosseq check [OPTIONS]\n\nFor more information, try '--help'.\nlotosseq: check has no --limit: it looks at the text alone, and at no sequences\n",
        ..REFUSED },
    Row { words: "check --hidden",
        message: b"error: unexpected argument '--hidden' found\n\nUsage: lotosseq check [OPTIONS]\n\nFor more information, try '--help'.\nlotosseq: check has no --hidden: it looks at the text alone, and at no sequences\n",
        ..REFUSED },
    Row { words: "check --progress",
        message: b"error: unexpected argument '--progress' found\n\nUsage: lotosseq check [OPTIONS]\n\nFor more information, try '--help'.\nlotosseq: check has no --progress: it looks at the text alone, and at no sequences\n",
        ..REFUSED },
    Row { words: "ever --length 3 A",
        message: b"error: unexpected argument '--length' found\n\n  tip: to pass '--length' as a value, use '-- --length'\n\nUsage: lotosseq ever [OPTIONS] [WORD]...\n\nFor more information, try '--help'.\nlotosseq: ever has no --length: it looks for a match of any length\n",
        ..REFUSED },
    Row { words: "ever --after=A",
        message: b"error: unexpected argument '--after' found\n\n  tip: to pass '--after' as a value, use '-- --after'\n\nUsage: lotosseq ever [OPTIONS] [WORD]...\n\nFor more information, try '--help'.\nlotosseq: ever has no --after: it writes one line at most\n",
        ..REFUSED },
    Row { words: "ever --terms 9",
        message: b"error: unexpected argument '--terms' found\n\n  tip: to pass '--terms' as a value, use '-- --terms'\n\nUsage: lotosseq ever [OPTIONS] [WORD]...\n\nFor more information, try '--help'.\nlotosseq: ever has no --terms: --states bounds the states that it looks at\n",
        ..REFUSED },
    Row { words: "ever --known",
        message: b"error: unexpected argument '--known' found\n\n  tip: to pass '--known' as a value, use '-- --known'\n\nUsage: lotosseq ever [OPTIONS] [WORD]...\n\nFor more information, try '--help'.\nlotosseq: ever has no --known: it always refuses a word that names no gate\n",
        ..REFUSED },
];

/// Options of other commands, given to `after`, `cover`, `graph`, `suite` and `compare`.
#[rattlefmt::skip]
const OF_LISTINGS: &[Row] = &[
    Row { words: "after --depth 3",
        message: b"error: unexpected argument '--depth' found\n\n  tip: to pass '--depth' as a value, use '-- --depth'\n\nUsage: lotosseq after [OPTIONS] [LABEL]...\n\nFor more information, try '--help'.\nlotosseq: after has no --depth: its words are the whole sequence\n",
        ..REFUSED },
    Row { words: "after --limit 3",
        message: b"error: unexpected argument '--limit' found\n\n  tip: to pass '--limit' as a value, use '-- --limit'\n\nUsage: lotosseq after [OPTIONS] [LABEL]...\n\nFor more information, try '--help'.\nlotosseq: after has no --limit: it writes each label that can come next, once\n",
        ..REFUSED },
    Row { words: "after --states=3 A",
        message: b"error: unexpected argument '--states' found\n\n  tip: to pass '--states' as a value, use '-- --states'\n\nUsage: lotosseq after [OPTIONS] [LABEL]...\n\nFor more information, try '--help'.\nlotosseq: after has no --states: --terms bounds the states that a beginning of the sequence may lead to\n",
        ..REFUSED },
    Row { words: "after --hidden A",
        message: b"error: unexpected argument '--hidden' found\n\n  tip: a similar argument exists: '--hide'\n\nUsage: lotosseq after --hide <GATES> [LABEL]...\n\nFor more information, try '--help'.\nlotosseq: after has no --hidden: it writes labels, and no sequences that have runs\n",
        ..REFUSED },
    Row { words: "cover --length 3",
        message: b"error: unexpected argument '--length' found\n\nUsage: lotosseq cover [OPTIONS]\n\nFor more information, try '--help'.\nlotosseq: cover has no --length: it ends when all that can be observed is shown\n",
        ..REFUSED },
    Row { words: "cover --explain",
        message: b"error: unexpected argument '--explain' found\n\nUsage: lotosseq cover [OPTIONS]\n\nFor more information, try '--help'.\nlotosseq: cover has no --explain: ever --explain with the words of a line shows its run\n",
        ..REFUSED },
    Row { words: "cover --hidden",
        message: b"error: unexpected argument '--hidden' found\n\n  tip: a similar argument exists: '--hide'\n\nUsage: lotosseq cover --hide <GATES>\n\nFor more information, try '--help'.\nlotosseq: cover has no --hidden: ever --hidden with the words of a line shows its run\n",
        ..REFUSED },
    Row { words: "cover --known",
        message: b"error: unexpected argument '--known' found\n\nUsage: lotosseq cover [OPTIONS]\n\nFor more information, try '--help'.\nlotosseq: cover has no --known: it has no words\n",
        ..REFUSED },
    Row { words: "suite --length 3",
        message: b"error: unexpected argument '--length' found\n\nUsage: lotosseq suite [OPTIONS]\n\nFor more information, try '--help'.\nlotosseq: suite has no --length: it ends when nothing is missed\n",
        ..REFUSED },
    Row { words: "suite --after '- A B'",
        message: b"error: unexpected argument '- ' found\n\nUsage: lotosseq suite [OPTIONS]\n\nFor more information, try '--help'.\nlotosseq: a line that begins with - goes after an equals sign, as in --after=\"- A\"\n",
        ..REFUSED },
    Row { words: "suite --explain",
        message: b"error: unexpected argument '--explain' found\n\nUsage: lotosseq suite [OPTIONS]\n\nFor more information, try '--help'.\nlotosseq: suite has no --explain: ever --explain or ever --hidden with the labels of a line shows their run\n",
        ..REFUSED },
    Row { words: "graph --length 3",
        message: b"error: unexpected argument '--length' found\n\nUsage: lotosseq graph [OPTIONS]\n\nFor more information, try '--help'.\nlotosseq: graph has no --length: it has all that can be observed, of any length\n",
        ..REFUSED },
    Row { words: "graph --limit 3",
        message: b"error: unexpected argument '--limit' found\n\nUsage: lotosseq graph [OPTIONS]\n\nFor more information, try '--help'.\nlotosseq: graph has no --limit: it is written as a whole\n",
        ..REFUSED },
    Row { words: "graph --explain",
        message: b"error: unexpected argument '--explain' found\n\nUsage: lotosseq graph [OPTIONS]\n\nFor more information, try '--help'.\nlotosseq: graph has no --explain: it has labels, and no sequences that have runs\n",
        ..REFUSED },
    Row { words: "graph --known",
        message: b"error: unexpected argument '--known' found\n\nUsage: lotosseq graph [OPTIONS]\n\nFor more information, try '--help'.\nlotosseq: graph has no --known: it has no words\n",
        ..REFUSED },
    Row { words: "compare --length 3",
        message: b"error: unexpected argument '--length' found\n\nUsage: lotosseq compare [OPTIONS]\n\nFor more information, try '--help'.\nlotosseq: compare has no --length: it compares sequences of any length\n",
        ..REFUSED },
    Row { words: "compare --explain",
        message: b"error: unexpected argument '--explain' found\n\nUsage: lotosseq compare [OPTIONS]\n\nFor more information, try '--help'.\nlotosseq: compare has no --explain: ever --explain or ever --hidden with the words of the line shows its run\n",
        ..REFUSED },
];

#[test]
fn options_that_another_command_has(rt: HostRuntime) {
    expect_rows(&rt, rt.alloc(), OF_OTHERS);
}

#[test]
fn options_that_other_commands_do_not_have(rt: HostRuntime) {
    expect_rows(&rt, rt.alloc(), OF_LISTINGS);
}

/// Options that no command has, that stand in the wrong place, or that the command has.
#[rattlefmt::skip]
const WITHOUT_REASON: &[Row] = &[
    Row { words: "ever --nothing",
        message: b"error: unexpected argument '--nothing' found\n\n  tip: to pass '--nothing' as a value, use '-- --nothing'\n\nUsage: lotosseq ever [OPTIONS] [WORD]...\n\nFor more information, try '--help'.\n",
        ..REFUSED },
    Row { words: "check --warnings",
        message: b"error: unexpected argument '--warnings' found\n\n  tip: a similar argument exists: '--warn'\n\nUsage: lotosseq check --warn\n\nFor more information, try '--help'.\n",
        ..REFUSED },
    Row { words: "search --depths 3",
        message: b"error: unexpected argument '--depths' found\n\n  tip: a similar argument exists: '--depth'\n\nUsage: lotosseq search [OPTIONS] <--depth <N>|--length <N>> [WORD]...\n\nFor more information, try '--help'.\n",
        ..REFUSED },
    Row { words: "--warn check",
        message: b"error: unexpected argument '--warn' found\n\n  tip: 'check --warn' exists\n\nUsage: lotosseq <COMMAND>\n\nFor more information, try '--help'.\n",
        ..REFUSED },
    Row { words: "ever --strong --strong",
        message: b"error: the argument '--strong' cannot be used multiple times\n\nUsage: lotosseq ever [OPTIONS] [WORD]...\n\nFor more information, try '--help'.\n",
        ..REFUSED },
    Row { words: "ever -- --depth", message: b"lotosseq: E41 word 1 is neither a label nor an element\n", ..REFUSED },
];

#[test]
fn options_without_a_reason(rt: HostRuntime) {
    expect_rows(&rt, rt.alloc(), WITHOUT_REASON);
}

/// Words with control characters, of which line feeds alone are written as they are.
#[rattlefmt::skip]
const CONTROLS: &[Row] = &[
    Row { words: "cover 'A\x1b[2J\r\tB'",
        message: b"error: unexpected argument 'A\\x1b[2J\\x0d\\x09B' found\n\nUsage: lotosseq cover [OPTIONS]\n\nFor more information, try '--help'.\n",
        ..REFUSED },
    Row { words: "cover \0\x7f\u{80}\u{9f}",
        message: b"error: unexpected argument '\\x00\\x7f\\x80\\x9f' found\n\nUsage: lotosseq cover [OPTIONS]\n\nFor more information, try '--help'.\n",
        ..REFUSED },
    Row { words: "cover 'A\n\u{a0}\u{e9}\\x1b'",
        message: b"error: unexpected argument 'A\n\xc2\xa0\xc3\xa9\\x1b' found\n\nUsage: lotosseq cover [OPTIONS]\n\nFor more information, try '--help'.\n",
        ..REFUSED },
    Row { words: "ring\x1b",
        message: b"error: unrecognized subcommand 'ring\\x1b'\n\nUsage: lotosseq <COMMAND>\n\nFor more information, try '--help'.\n",
        ..REFUSED },
];

#[test]
fn control_characters_are_shown(rt: HostRuntime) {
    expect_rows(&rt, rt.alloc(), CONTROLS);
}
