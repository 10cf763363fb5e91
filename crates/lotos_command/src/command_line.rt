//! The command line of `lotosseq` as clap has it: subcommands, options and their help.
ghost use Rattle.std.specs.Prelude.{◌≡◌, IfOk, codes, map, true};
ghost use Rattle.std.specs.List.{list_all};
ghost use Rattle.clap.specs.Words.{app_of, rule_of};
ghost use Rattle.lotos_command.specs.CommandRules.{AreCommandsOf, IsCommandOf, after_rules, check_rules, compare_rules, cover_rules, ever_rules, extent_rule, extra_rule, flag_rule, graph_rules, lotosseq, number_rule, option_rule, search_rules, states_rule, subcommand_app, subcommand_apps, suite_rules, terms_rule, words_rule};

use crate::help::{
    Help, VERSION, after, check, common, compare, cover, ever, graph, program, search, suite,
};
use clap::{Arg, ArgAction, Command, value_parser};
use std::alloc::{AllocError, Global};

pub(crate) fn lotosseq_command<'a>(alloc: Global) -> Result<Command<'a>, AllocError>
    ensures { IfOk result (λ c. app_of c ≡ lotosseq) }
{
    let subcommands = subcommands(alloc)?;
    Command::new(alloc, "lotosseq")
        .about(program::ABOUT.short)
        .long_about(program::ABOUT.long)
        .after_help(program::STATUSES)
        .version(VERSION)
        .subcommand_required(true)
        .subcommands(subcommands)
}

/// The subcommands whose entries may make no request: those that ask about what can be observed.
#[derive(Clone, Copy)]
pub(crate) enum Question {
    Search,
    Ever,
    After,
    Cover,
    Graph,
    Suite,
    Compare,
}

/// The command of this subcommand, with its name as a usage line has it.
pub(crate) fn question_command<'a>(
    alloc: Global,
    question: Question,
) -> Result<Command<'a>, AllocError> {
    match question {
        Question::Search => search_command(alloc)?.bin_name("lotosseq search"),
        Question::Ever => ever_command(alloc)?.bin_name("lotosseq ever"),
        Question::After => after_command(alloc)?.bin_name("lotosseq after"),
        Question::Cover => cover_command(alloc)?.bin_name("lotosseq cover"),
        Question::Graph => graph_command(alloc)?.bin_name("lotosseq graph"),
        Question::Suite => suite_command(alloc)?.bin_name("lotosseq suite"),
        Question::Compare => compare_command(alloc)?.bin_name("lotosseq compare"),
    }
}

/// The subcommands, in the order of the help.
fn subcommands<'a>(alloc: Global) -> Result<Vec<Command<'a>>, AllocError>
    ensures { IfOk result (λ all. AreCommandsOf subcommand_apps all.items) }
{
    let mut all = Vec::new(alloc);
    all.push(search_command(alloc)?)?;
    all.push(check_command(alloc)?)?;
    all.push(ever_command(alloc)?)?;
    all.push(after_command(alloc)?)?;
    all.push(cover_command(alloc)?)?;
    all.push(graph_command(alloc)?)?;
    all.push(suite_command(alloc)?)?;
    all.push(compare_command(alloc)?)?;
    Ok(all)
}

fn search_command<'a>(alloc: Global) -> Result<Command<'a>, AllocError>
    ensures { IfOk result (IsCommandOf (subcommand_app (codes "search") search_rules)) }
{
    let args = vec![in alloc;
        extent_arg(alloc, "depth", search::DEPTH),
        extent_arg(alloc, "length", search::LENGTH),
        number_arg(alloc, "limit", 1000000000, common::LIMIT),
        terms_arg(alloc, search::TERMS),
        option(alloc, "after", "LINE", common::AFTER),
        flag(alloc, "explain", search::EXPLAIN),
        flag(alloc, "hidden", search::HIDDEN),
        option(alloc, "hide", "GATES", common::HIDE),
        option(alloc, "only", "GATES", common::ONLY),
        flag(alloc, "strong", search::STRONG),
        flag(alloc, "known", search::KNOWN),
        flag(alloc, "progress", common::PROGRESS),
        flag(alloc, "brief", common::BRIEF),
        words_arg(alloc, "WORD", search::WORDS),
    ]?;
    let search = subcommand(alloc, "search", search::ABOUT, search::STATUSES, args)?;
    Ok(search.override_usage(search::USAGE))
}

fn check_command<'a>(alloc: Global) -> Result<Command<'a>, AllocError>
    ensures { IfOk result (IsCommandOf (subcommand_app (codes "check") check_rules)) }
{
    let args = vec![in alloc;
        flag(alloc, "explain", check::EXPLAIN),
        flag(alloc, "warn", check::WARN),
        flag(alloc, "brief", common::BRIEF),
    ]?;
    subcommand(alloc, "check", check::ABOUT, check::STATUSES, args)
}

fn ever_command<'a>(alloc: Global) -> Result<Command<'a>, AllocError>
    ensures { IfOk result (IsCommandOf (subcommand_app (codes "ever") ever_rules)) }
{
    let args = vec![in alloc;
        states_arg(alloc, ever::STATES),
        flag(alloc, "explain", ever::EXPLAIN),
        flag(alloc, "hidden", ever::HIDDEN),
        option(alloc, "hide", "GATES", common::HIDE),
        option(alloc, "only", "GATES", common::ONLY),
        flag(alloc, "strong", ever::STRONG),
        flag(alloc, "progress", common::PROGRESS),
        flag(alloc, "brief", common::BRIEF),
        words_arg(alloc, "WORD", ever::WORDS),
    ]?;
    subcommand(alloc, "ever", ever::ABOUT, ever::STATUSES, args)
}

fn after_command<'a>(alloc: Global) -> Result<Command<'a>, AllocError>
    ensures { IfOk result (IsCommandOf (subcommand_app (codes "after") after_rules)) }
{
    let args = vec![in alloc;
        terms_arg(alloc, after::TERMS),
        option(alloc, "hide", "GATES", common::HIDE),
        option(alloc, "only", "GATES", common::ONLY),
        flag(alloc, "strong", after::STRONG),
        flag(alloc, "progress", common::PROGRESS),
        flag(alloc, "brief", common::BRIEF),
        words_arg(alloc, "LABEL", after::LABELS),
    ]?;
    subcommand(alloc, "after", after::ABOUT, after::STATUSES, args)
}

fn cover_command<'a>(alloc: Global) -> Result<Command<'a>, AllocError>
    ensures { IfOk result (IsCommandOf (subcommand_app (codes "cover") cover_rules)) }
{
    let args = vec![in alloc;
        number_arg(alloc, "limit", 1000000000, common::LIMIT),
        terms_arg(alloc, cover::TERMS),
        states_arg(alloc, common::STATES),
        option(alloc, "after", "LINE", common::AFTER),
        option(alloc, "hide", "GATES", common::HIDE),
        option(alloc, "only", "GATES", common::ONLY),
        flag(alloc, "strong", cover::STRONG),
        flag(alloc, "progress", common::PROGRESS),
        flag(alloc, "brief", common::BRIEF),
    ]?;
    subcommand(alloc, "cover", cover::ABOUT, cover::STATUSES, args)
}

fn graph_command<'a>(alloc: Global) -> Result<Command<'a>, AllocError>
    ensures { IfOk result (IsCommandOf (subcommand_app (codes "graph") graph_rules)) }
{
    let args = vec![in alloc;
        terms_arg(alloc, common::TERMS),
        states_arg(alloc, common::STATES),
        option(alloc, "hide", "GATES", common::HIDE),
        option(alloc, "only", "GATES", common::ONLY),
        flag(alloc, "strong", graph::STRONG),
        flag(alloc, "progress", common::PROGRESS),
        flag(alloc, "brief", common::BRIEF),
    ]?;
    subcommand(alloc, "graph", graph::ABOUT, graph::STATUSES, args)
}

fn suite_command<'a>(alloc: Global) -> Result<Command<'a>, AllocError>
    ensures { IfOk result (IsCommandOf (subcommand_app (codes "suite") suite_rules)) }
{
    let args = vec![in alloc;
        extra_arg(alloc),
        number_arg(alloc, "limit", 1000000000, common::LIMIT),
        terms_arg(alloc, common::TERMS),
        states_arg(alloc, common::STATES),
        option(alloc, "after", "LINE", suite::AFTER),
        option(alloc, "hide", "GATES", common::HIDE),
        option(alloc, "only", "GATES", common::ONLY),
        flag(alloc, "strong", suite::STRONG),
        flag(alloc, "progress", common::PROGRESS),
        flag(alloc, "brief", common::BRIEF),
    ]?;
    subcommand(alloc, "suite", suite::ABOUT, suite::STATUSES, args)
}

fn compare_command<'a>(alloc: Global) -> Result<Command<'a>, AllocError>
    ensures { IfOk result (IsCommandOf (subcommand_app (codes "compare") compare_rules)) }
{
    let args = vec![in alloc;
        flag(alloc, "within", compare::WITHIN),
        terms_arg(alloc, compare::TERMS),
        states_arg(alloc, compare::STATES),
        option(alloc, "hide", "GATES", compare::HIDE),
        option(alloc, "only", "GATES", compare::ONLY),
        flag(alloc, "strong", compare::STRONG),
        flag(alloc, "progress", common::PROGRESS),
        flag(alloc, "brief", common::BRIEF),
    ]?;
    subcommand(alloc, "compare", compare::ABOUT, compare::STATUSES, args)
}

/// A subcommand with these texts in its help. The arguments are in the order of the help.
fn subcommand<'a>(
    alloc: Global,
    name: &'a str,
    about: Help,
    statuses: &'a str,
    args: Vec<Arg<'a>>,
) -> Result<Command<'a>, AllocError>
    requires { list_all (λ r. r.is_simple) (map rule_of args.items) ≡ true }
    ensures { IfOk result (IsCommandOf (subcommand_app name.now (map rule_of args.entry.items))) }
{
    Command::new(alloc, name)
        .about(about.short)
        .long_about(about.long)
        .after_help(statuses)
        .args(args)
}

/// An option that says which sequences are listed.
fn extent_arg<'a>(alloc: Global, name: &'a str, help: Help) -> Arg<'a>
    ensures { rule_of result ≡ extent_rule name.now }
{
    option(alloc, name, "N", help).value_parser(value_parser!(u8))
}

/// The option that says how many extra states an implementation may have.
fn extra_arg<'a>(alloc: Global) -> Arg<'a>
    ensures { rule_of result ≡ extra_rule }
{
    option(alloc, "extra", "K", suite::EXTRA)
        .value_parser(value_parser!(u32).range(0..=3))
        .default_value("0")
}

fn terms_arg<'a>(alloc: Global, help: Help) -> Arg<'a>
    ensures { rule_of result ≡ terms_rule }
{
    number_arg(alloc, "terms", 1000000, help).default_value("100000")
}

fn states_arg<'a>(alloc: Global, help: Help) -> Arg<'a>
    ensures { rule_of result ≡ states_rule }
{
    number_arg(alloc, "states", 100000000, help).default_value("1000000")
}

/// An option with a number from 1 to `most`.
fn number_arg<'a>(alloc: Global, name: &'a str, most: u32, help: Help) -> Arg<'a>
    ensures { rule_of result ≡ number_rule name.now most }
{
    let numbers = value_parser!(u32).range(1..=i64::from(most));
    option(alloc, name, "N", help).value_parser(numbers)
}

/// An argument that takes a value, which the help calls by the value name.
fn option<'a>(alloc: Global, name: &'a str, value_name: &'a str, help: Help) -> Arg<'a>
    ensures { rule_of result ≡ option_rule name.now }
{
    Arg::new(alloc, name)
        .long(name)
        .action(ArgAction::Set)
        .value_name(value_name)
        .help(help.short)
        .long_help(help.long)
}

/// An argument that takes no value.
fn flag<'a>(alloc: Global, name: &'a str, help: Help) -> Arg<'a>
    ensures { rule_of result ≡ flag_rule name.now }
{
    Arg::new(alloc, name)
        .long(name)
        .action(ArgAction::SetTrue)
        .help(help.short)
        .long_help(help.long)
}

/// The words that are no options. The help calls each of them by the value name.
fn words_arg<'a>(alloc: Global, value_name: &'a str, help: Help) -> Arg<'a>
    ensures { rule_of result ≡ words_rule }
{
    Arg::new(alloc, "words")
        .action(ArgAction::Append)
        .num_args(0..)
        .value_name(value_name)
        .help(help.short)
        .long_help(help.long)
}
