//! The request in the words of a command line, read by clap.
ghost use Rattle.std.specs.Prelude.{◌≡◌, ◌≤◌, ◌≢◌, ◌++◌, IfErr, IfOk, IfSome, Some, map, [], codes, option_map, string_bytes, unwrap_or};
ghost use Rattle.std.specs.Option.{option_map_or};
ghost use Rattle.clap.specs.Walk.{texts as texts_of};
ghost use Rattle.clap.specs.declared.error.kind.ErrorKind.TheVariants as ErrorKind;
ghost use Rattle.clap.specs.Words.{all_of, first_of, found_of, kind_of, one_of, rows_of, subcommand_rows_of};
ghost use Rattle.lotos_command.specs.CommandFaults.{AreAccepted, IsFaultOf, IsFaultOfEntries, IsFaultOfKind, IsNoRequestFault};
ghost use Rattle.lotos_command.specs.EntryRules.{AreReadable, FitsRequest, IsNumberIn, IsOtherSubcommand, IsTruthText};
ghost use Rattle.lotos_command.specs.PatternWords.{parts_between_blanks, pattern_words, pattern_words_in};
ghost use Rattle.lotos_command.specs.Request.{HasBounds, HasCompareBounds, HasCoverBounds, HasGraphBounds, HasSearchBounds, HasSuiteBounds, RequestOf, after_from, after_view, check_from, compare_from, compare_view, cover_from, cover_view, ever_from, ever_view, extent_from, flag, graph_from, graph_view, interface_from, interface_view, number, request_from, request_named, request_view, runs_from, search_from, search_view, suite_from, suite_view};

use crate::command::{
    AfterRequest, CommandFault, CompareRequest, CoverRequest, DiagnoseRequest, EverRequest, Extent,
    GraphRequest, Interface, Request, Runs, SearchRequest, SuiteRequest,
};
use crate::command_line::{Question, lotosseq_command, question_command};
use clap::error::ErrorKind;
use clap::{ArgMatches, Error};
use std::alloc::{AllocError, Global};

/// The most terms that a prefix may reach unless `--terms` is given.
const DEFAULT_TERMS: usize = 100_000;

/// The most product states that may be stored, or sets that may be reached, unless `--states` is given.
const DEFAULT_STATES: usize = 1_000_000;

/// What is wrong with a search that has neither `--depth` nor `--length`.
const NO_EXTENT: &str = "the following required arguments were not provided:
  <--depth <N>|--length <N>>";

/// What is wrong with a search that has both.
const TWO_EXTENTS: &str = "the argument '--depth <N>' cannot be used with '--length <N>'";

/// What is wrong with a question that has both `--hide` and `--only`.
const TWO_INTERFACES: &str = "the argument '--hide <GATES>' cannot be used with '--only <GATES>'";

/// The request that the words of a command line make. The first word is the program's own name.
///
/// A word that is read as part of a pattern may hold several words of it, with blanks between. They are the words of the
/// pattern as if each had been given alone, and none of them is read as an option. A blank is ASCII white space: the
/// space, the tab, the line feed, the form feed and the carriage return. An empty word, or one of blanks only, is one
/// word of the pattern as it stands; no pattern has such a word.
///
/// # Errors
///
/// [`CommandFault::Help`] if the words ask for help or for the version, [`CommandFault::Wrong`] if they fit no command,
/// and [`CommandFault::Memory`] if an allocation fails, whatever the words are. Of the words that clap accepts, those of
/// a search with both or neither of a depth and a length and those with both `--hide` and `--only` fit no command; all
/// others fail with [`CommandFault::Memory`] alone.
pub fn request(alloc: Global, words: &[&str]) -> Result<Request, CommandFault>
    ensures is { IfOk result (λ r. RequestOf (texts_of words.now) (request_view r)) }
    ensures bounds { IfOk result HasBounds }
    ensures fault { IfErr result (IsFaultOf (texts_of words.now)) }
    ensures taken { IfErr result (λ e. AreAccepted (texts_of words.now) → e ≡ CommandFault.Memory) }
{
    match lotosseq_command(alloc)?.try_get_matches_from(words) {
        Ok(found) => Ok(read_request(alloc, &found)?),
        Err(error) => Err(command_fault(alloc, &error)),
    }
}

/// The request that the subcommand makes. A search has just one of a depth and a length, and no question has both of
/// `--hide` and `--only`.
fn read_request(alloc: Global, found: &ArgMatches<'_>) -> Result<Request, CommandFault>
    requires { FitsRequest (subcommand_rows_of found.now) }
    ensures is { IfOk result (λ r. request_from (subcommand_rows_of found.now) ≡ Some (request_view r)) }
    ensures bounds { IfOk result HasBounds }
    ensures fault { IfErr result (IsFaultOfEntries (request_from (subcommand_rows_of found.now))) }
{
    let (name, given) = found.subcommand().unwrap();
    if name == "search" {
        Ok(Request::Search(read_search_request(alloc, given)?))
    } else if name == "check" {
        Ok(read_check_request(given))
    } else if name == "ever" {
        Ok(Request::Ever(read_ever_request(alloc, given)?))
    } else {
        read_other_request(alloc, name, given)
    }
}

/// The request of a subcommand that has no pattern.
fn read_other_request(
    alloc: Global,
    name: &str,
    given: &ArgMatches<'_>,
) -> Result<Request, CommandFault>
    requires named { IsOtherSubcommand name.now }
    requires readable { AreReadable (rows_of (found_of given.now)) }
    ensures is { IfOk result (λ r. request_named name.now (rows_of (found_of given.now)) ≡
        Some (request_view r)) }
    ensures bounds { IfOk result HasBounds }
    ensures fault { IfErr result (IsFaultOfEntries (request_named name.now (rows_of (found_of given.now)))) }
{
    if name == "after" {
        Ok(Request::After(read_after_request(alloc, given)?))
    } else if name == "cover" {
        Ok(Request::Cover(read_cover_request(alloc, given)?))
    } else if name == "graph" {
        Ok(Request::Graph(read_graph_request(alloc, given)?))
    } else if name == "suite" {
        Ok(Request::Suite(read_suite_request(alloc, given)?))
    } else {
        Ok(Request::Compare(read_compare_request(alloc, given)?))
    }
}

fn read_check_request(found: &ArgMatches<'_>) -> Request
    requires { AreReadable (rows_of (found_of found.now)) }
    ensures is { request_view result ≡ check_from (rows_of (found_of found.now)) }
    ensures bounds { HasBounds result }
{
    let explain = read_flag("explain", found);
    let warn = read_flag("warn", found);
    let brief = read_flag("brief", found);
    if explain || warn || brief {
        Request::Diagnose(DiagnoseRequest {
            explain,
            warn,
            brief,
        })
    } else {
        Request::Check
    }
}

/// A search that has two faults is refused for that of its extent.
fn read_search_request(alloc: Global, found: &ArgMatches<'_>) -> Result<SearchRequest, CommandFault>
    requires { AreReadable (rows_of (found_of found.now)) }
    ensures is { IfOk result (λ r. search_from (rows_of (found_of found.now)) ≡ Some (search_view r)) }
    ensures bounds { IfOk result HasSearchBounds }
    ensures fault { IfErr result (IsFaultOfEntries (search_from (rows_of (found_of found.now)))) }
{
    let extent = read_extent(alloc, found)?;
    let interface = read_interface(alloc, Question::Search, found)?;
    Ok(SearchRequest {
        extent,
        limit: read_number("limit", found),
        terms: read_number_or("terms", DEFAULT_TERMS, found),
        after: read_text(alloc, "after", found)?,
        runs: read_runs(found),
        interface,
        strong: read_flag("strong", found),
        known: read_flag("known", found),
        progress: read_flag("progress", found),
        brief: read_flag("brief", found),
        words: read_words(alloc, found)?,
    })
}

fn read_ever_request(alloc: Global, found: &ArgMatches<'_>) -> Result<EverRequest, CommandFault>
    requires { AreReadable (rows_of (found_of found.now)) }
    ensures is { IfOk result (λ r. ever_from (rows_of (found_of found.now)) ≡ Some (ever_view r)) }
    ensures bounds { IfOk result (λ r. 1 ≤ r.states) }
    ensures fault { IfErr result (IsFaultOfEntries (ever_from (rows_of (found_of found.now)))) }
{
    let interface = read_interface(alloc, Question::Ever, found)?;
    Ok(EverRequest {
        states: read_number_or("states", DEFAULT_STATES, found),
        runs: read_runs(found),
        interface,
        strong: read_flag("strong", found),
        progress: read_flag("progress", found),
        brief: read_flag("brief", found),
        words: read_words(alloc, found)?,
    })
}

fn read_after_request(alloc: Global, found: &ArgMatches<'_>) -> Result<AfterRequest, CommandFault>
    requires { AreReadable (rows_of (found_of found.now)) }
    ensures is { IfOk result (λ r. after_from (rows_of (found_of found.now)) ≡ Some (after_view r)) }
    ensures bounds { IfOk result (λ r. 1 ≤ r.terms) }
    ensures fault { IfErr result (IsFaultOfEntries (after_from (rows_of (found_of found.now)))) }
{
    let interface = read_interface(alloc, Question::After, found)?;
    Ok(AfterRequest {
        terms: read_number_or("terms", DEFAULT_TERMS, found),
        interface,
        strong: read_flag("strong", found),
        progress: read_flag("progress", found),
        brief: read_flag("brief", found),
        words: read_words(alloc, found)?,
    })
}

fn read_cover_request(alloc: Global, found: &ArgMatches<'_>) -> Result<CoverRequest, CommandFault>
    requires { AreReadable (rows_of (found_of found.now)) }
    ensures is { IfOk result (λ r. cover_from (rows_of (found_of found.now)) ≡ Some (cover_view r)) }
    ensures bounds { IfOk result HasCoverBounds }
    ensures fault { IfErr result (IsFaultOfEntries (cover_from (rows_of (found_of found.now)))) }
{
    let interface = read_interface(alloc, Question::Cover, found)?;
    Ok(CoverRequest {
        limit: read_number("limit", found),
        after: read_text(alloc, "after", found)?,
        terms: read_number_or("terms", DEFAULT_TERMS, found),
        states: read_number_or("states", DEFAULT_STATES, found),
        interface,
        strong: read_flag("strong", found),
        progress: read_flag("progress", found),
        brief: read_flag("brief", found),
    })
}

fn read_graph_request(alloc: Global, found: &ArgMatches<'_>) -> Result<GraphRequest, CommandFault>
    requires { AreReadable (rows_of (found_of found.now)) }
    ensures is { IfOk result (λ r. graph_from (rows_of (found_of found.now)) ≡ Some (graph_view r)) }
    ensures bounds { IfOk result HasGraphBounds }
    ensures fault { IfErr result (IsFaultOfEntries (graph_from (rows_of (found_of found.now)))) }
{
    let interface = read_interface(alloc, Question::Graph, found)?;
    Ok(GraphRequest {
        terms: read_number_or("terms", DEFAULT_TERMS, found),
        states: read_number_or("states", DEFAULT_STATES, found),
        interface,
        strong: read_flag("strong", found),
        progress: read_flag("progress", found),
        brief: read_flag("brief", found),
    })
}

fn read_suite_request(alloc: Global, found: &ArgMatches<'_>) -> Result<SuiteRequest, CommandFault>
    requires { AreReadable (rows_of (found_of found.now)) }
    ensures is { IfOk result (λ r. suite_from (rows_of (found_of found.now)) ≡ Some (suite_view r)) }
    ensures bounds { IfOk result HasSuiteBounds }
    ensures fault { IfErr result (IsFaultOfEntries (suite_from (rows_of (found_of found.now)))) }
{
    let interface = read_interface(alloc, Question::Suite, found)?;
    Ok(SuiteRequest {
        extra: read_number_or("extra", 0, found),
        limit: read_number("limit", found),
        after: read_text(alloc, "after", found)?,
        terms: read_number_or("terms", DEFAULT_TERMS, found),
        states: read_number_or("states", DEFAULT_STATES, found),
        interface,
        strong: read_flag("strong", found),
        progress: read_flag("progress", found),
        brief: read_flag("brief", found),
    })
}

fn read_compare_request(
    alloc: Global,
    found: &ArgMatches<'_>,
) -> Result<CompareRequest, CommandFault>
    requires { AreReadable (rows_of (found_of found.now)) }
    ensures is { IfOk result (λ r. compare_from (rows_of (found_of found.now)) ≡ Some (compare_view r)) }
    ensures bounds { IfOk result HasCompareBounds }
    ensures fault { IfErr result (IsFaultOfEntries (compare_from (rows_of (found_of found.now)))) }
{
    let interface = read_interface(alloc, Question::Compare, found)?;
    Ok(CompareRequest {
        within: read_flag("within", found),
        terms: read_number_or("terms", DEFAULT_TERMS, found),
        states: read_number_or("states", DEFAULT_STATES, found),
        interface,
        strong: read_flag("strong", found),
        progress: read_flag("progress", found),
        brief: read_flag("brief", found),
    })
}

fn read_extent(alloc: Global, found: &ArgMatches<'_>) -> Result<Extent, CommandFault>
    requires depth { IfSome (one_of (codes "depth") (rows_of (found_of found.now))) (IsNumberIn 0 255) }
    requires length { IfSome (one_of (codes "length") (rows_of (found_of found.now))) (IsNumberIn 0 255) }
    ensures is { IfOk result (λ e. extent_from (rows_of (found_of found.now)) ≡ Some e) }
    ensures fault { IfErr result (IsFaultOfEntries (extent_from (rows_of (found_of found.now)))) }
{
    match (read_small("depth", found), read_small("length", found)) {
        (Some(depth), None) => Ok(Extent::Depth(depth)),
        (None, Some(length)) => Ok(Extent::Length(length)),
        (Some(_), Some(_)) => Err(no_request_fault(
            alloc,
            Question::Search,
            ErrorKind::ArgumentConflict,
            TWO_EXTENTS,
        )),
        (None, None) => Err(no_request_fault(
            alloc,
            Question::Search,
            ErrorKind::MissingRequiredArgument,
            NO_EXTENT,
        )),
    }
}

/// Which gates a question is about. `question` says of which subcommand it is, since a fault has its usage line.
fn read_interface(
    alloc: Global,
    question: Question,
    found: &ArgMatches<'_>,
) -> Result<Interface, CommandFault>
    ensures is { IfOk result (λ i. interface_from (rows_of (found_of found.now)) ≡ Some (interface_view i)) }
    ensures fault { IfErr result (IsFaultOfEntries (interface_from (rows_of (found_of found.now)))) }
{
    let hidden = read_text(alloc, "hide", found)?;
    let kept = read_text(alloc, "only", found)?;
    match (hidden, kept) {
        (None, None) => Ok(Interface::Whole),
        (Some(names), None) => Ok(Interface::Hide(names)),
        (None, Some(names)) => Ok(Interface::Only(names)),
        (Some(_), Some(_)) => Err(no_request_fault(
            alloc,
            question,
            ErrorKind::ArgumentConflict,
            TWO_INTERFACES,
        )),
    }
}

/// The fault of entries of this subcommand that make no request, with clap's text.
fn no_request_fault(
    alloc: Global,
    question: Question,
    kind: ErrorKind,
    message: &str,
) -> CommandFault
    requires help { kind ≢ ErrorKind.DisplayHelp }
    requires version { kind ≢ ErrorKind.DisplayVersion }
    ensures { IsNoRequestFault result }
{
    match no_request_error(alloc, question, kind, message) {
        Ok(error) => command_fault(alloc, &error),
        Err(AllocError) => CommandFault::Memory,
    }
}

fn no_request_error(
    alloc: Global,
    question: Question,
    kind: ErrorKind,
    message: &str,
) -> Result<Error, AllocError>
    ensures { IfOk result (λ e. kind_of e ≡ kind) }
{
    question_command(alloc, question)?.error(kind, message)
}

/// The number of the option with this name, at most 255, if it is given.
fn read_small(name: &str, found: &ArgMatches<'_>) -> Option<u8>
    requires { IfSome (one_of name.now (rows_of (found_of found.now))) (IsNumberIn 0 255) }
    ensures { result ≡ option_map number (one_of name.now (rows_of (found_of found.now))) }
{
    found.get_one::<u8>(name)
}

/// The number of the option with this name, or the default if it is not given.
fn read_number_or(name: &str, default: usize, found: &ArgMatches<'_>) -> usize
    requires { IfSome (one_of name.now (rows_of (found_of found.now))) (IsNumberIn 0 4294967295) }
    ensures { result ≡ option_map_or number (one_of name.now (rows_of (found_of found.now))) default }
{
    match read_number(name, found) {
        Some(number) => number as usize,
        None => default,
    }
}

/// The number of the option with this name, if it is given.
fn read_number(name: &str, found: &ArgMatches<'_>) -> Option<u32>
    requires { IfSome (one_of name.now (rows_of (found_of found.now))) (IsNumberIn 0 4294967295) }
    ensures { result ≡ option_map number (one_of name.now (rows_of (found_of found.now))) }
{
    found.get_one::<u32>(name)
}

/// The value of the option with this name, if it is given.
fn read_text(
    alloc: Global,
    name: &str,
    found: &ArgMatches<'_>,
) -> Result<Option<String>, AllocError>
    ensures { IfOk result
        (λ value. option_map string_bytes value ≡ first_of name.now (rows_of (found_of found.now))) }
{
    match found.get_str(name) {
        Some(text) => Ok(Some(String::from_str(alloc, text)?)),
        None => Ok(None),
    }
}

/// What lines have after their sequences, by `--explain` and `--hidden`.
fn read_runs(found: &ArgMatches<'_>) -> Runs
    requires explain { IfSome (one_of (codes "explain") (rows_of (found_of found.now))) IsTruthText }
    requires hidden { IfSome (one_of (codes "hidden") (rows_of (found_of found.now))) IsTruthText }
    ensures { result ≡ runs_from (rows_of (found_of found.now)) }
{
    if read_flag("hidden", found) {
        Runs::Origins
    } else if read_flag("explain", found) {
        Runs::Labels
    } else {
        Runs::Omitted
    }
}

/// Whether the flag with this name is given.
fn read_flag(name: &str, found: &ArgMatches<'_>) -> bool
    requires { IfSome (one_of name.now (rows_of (found_of found.now))) IsTruthText }
    ensures { result ≡ flag name.now (rows_of (found_of found.now)) }
{
    found.get_flag(name)
}

fn read_words(alloc: Global, found: &ArgMatches<'_>) -> Result<Vec<String>, AllocError>
    ensures { IfOk result
        (λ v. map string_bytes v.items
        ≡ pattern_words (unwrap_or (all_of (codes "words") (rows_of (found_of found.now))) [])) }
{
    match found.get_raw("words") {
        Some(texts) => split_texts(alloc, texts),
        None => Ok(Vec::new(alloc)),
    }
}

/// The words of a pattern in words of the command line.
fn split_texts(alloc: Global, texts: &[&str]) -> Result<Vec<String>, AllocError>
    ensures { IfOk result (λ v. map string_bytes v.items ≡ pattern_words (texts_of texts.now)) }
{
    let mut all = Vec::new(alloc);
    for text in texts {
        push_words(alloc, text, &mut all)?;
    }
    Ok(all)
}

/// Adds the words of a pattern in a word of the command line: its parts between blanks, or the word itself if it has
/// none, so that it is refused with its number.
fn push_words(alloc: Global, text: &str, all: &mut Vec<String>) -> Result<(), AllocError>
    ensures { IfOk result
        (λ _. map string_bytes all.new.items ≡ map string_bytes all.old.items ++ pattern_words_in text.now) }
{
    let before = all.len();
    push_parts(alloc, text, all)?;
    if all.len() == before {
        all.push(String::from_str(alloc, text)?)?;
    }
    Ok(())
}

/// Adds the parts of a text between blanks.
fn push_parts(alloc: Global, text: &str, all: &mut Vec<String>) -> Result<(), AllocError>
    ensures { IfOk result (λ _. map string_bytes all.new.items ≡
        map string_bytes all.old.items ++ parts_between_blanks text.now) }
{
    for part in text.split_ascii_whitespace() {
        all.push(String::from_str(alloc, part)?)?;
    }
    Ok(())
}

fn command_fault(alloc: Global, error: &Error) -> CommandFault
    ensures { IsFaultOfKind (kind_of error.now) result }
{
    let kind = error.kind();
    if kind == ErrorKind::OutOfMemory {
        return CommandFault::Memory;
    }
    match format!(in alloc; "{error}") {
        Ok(text) if kind == ErrorKind::DisplayHelp || kind == ErrorKind::DisplayVersion => {
            CommandFault::Help(text)
        }
        Ok(text) => CommandFault::Wrong(text),
        Err(_) => CommandFault::Memory,
    }
}
