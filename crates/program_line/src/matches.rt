//! The job of a command line.
ghost use Rattle.std.specs.Prelude.{◌≡◌, map, IfOk, IfErr, MatchOption};
ghost use Rattle.clap.specs.Words.{found_of, rows_of};
ghost use Rattle.program_line.specs.CommandLineJobs as lines;
ghost use Rattle.program_line.specs.CommandLineJobs.{IsJobOf, AreTakenByClap, IsJobOfWords};
ghost use Rattle.program_line.specs.CommandLineJobs.{RefusesLine};
ghost use Rattle.program_line.specs.internal.ChosenNames.{HasJob, IsOfNone};

use crate::fault::LineFault;
use crate::job::{Job, Order};
use clap::ArgMatches;
use clap::error::ErrorKind;
use program_arguments::line_command;
use std::alloc::Global;

/// The text of an argument, empty where it has none.
fn argument_text<'a>(matches: &ArgMatches<'a>, id: &str) -> &'a str
    ensures { result.now ≡ lines.argument_text id.now (rows_of (found_of matches.now)) }
{
    match matches.get_str(id) {
        Some(text) => text,
        None => "",
    }
}

/// Whether a flag is given, for which clap has the text `true` then.
fn has_flag(matches: &ArgMatches<'_>, id: &str) -> bool
    ensures { result ≡ lines.has_flag id.now (rows_of (found_of matches.now)) }
{
    argument_text(matches, id) == "true"
}

/// The order of this name, forward where there is none.
fn order_named(text: &str) -> Order
    ensures { result ≡ lines.order_named text.now }
{
    if text == "reverse" {
        Order::Reverse
    } else {
        Order::Forward
    }
}

/// The job of a subcommand with its matches, if the program has one of that name.
fn job_of<'a>(name: &str, matches: &ArgMatches<'a>) -> Option<Job<'a>>
    ensures { MatchOption result (IsOfNone name.now)
        (IsJobOf (name.now, rows_of (found_of matches.now))) }
{
    match name {
        "boot" => Some(Job::Boot {
            description: argument_text(matches, "desc"),
            image: argument_text(matches, "out"),
            order: order_named(argument_text(matches, "order")),
        }),
        "map" => Some(Job::Map {
            description: argument_text(matches, "desc"),
        }),
        "walk" => Some(Job::Walk {
            image: argument_text(matches, "image"),
        }),
        "convert" => Some(Job::Convert {
            image: argument_text(matches, "image"),
            new: argument_text(matches, "out"),
        }),
        "explain" => Some(Job::Explain {
            description: argument_text(matches, "desc"),
            order: order_named(argument_text(matches, "order")),
        }),
        "digest" if has_flag(matches, "image") => Some(Job::DigestImage {
            image: argument_text(matches, "file"),
        }),
        "digest" => Some(Job::Digest {
            description: argument_text(matches, "file"),
        }),
        _ => None,
    }
}

/// The fault that an error of clap's is.
fn fault_of(kind: ErrorKind) -> LineFault
    ensures { result ≡ lines.fault_of_kind kind }
{
    match kind {
        ErrorKind::OutOfMemory => LineFault::NoMemory,
        ErrorKind::DisplayHelp => LineFault::Help,
        _ => LineFault::Refused,
    }
}

/// The job of a command line's matches, if they have a subcommand that the program has.
fn job_in<'a>(matches: &ArgMatches<'a>) -> Option<Job<'a>>
    ensures { HasJob matches.now result }
{
    match matches.subcommand() {
        Some((name, inner)) => job_of(name, inner),
        None => None,
    }
}

/// The job that a command line asks for; its first word is the program's name. No words at all are
/// refused, and words that ask for help are a fault of their own.
pub fn read_line<'a>(global: Global, words: &'a [&'a str]) -> Result<Job<'a>, LineFault>
    ensures job { IfOk result (IsJobOfWords (map (λ word. word.now) words.entry.now)) }
    ensures fault { IfErr result (RefusesLine (map (λ word. word.now) words.entry.now)) }
    ensures taken { IfErr result (λ fault.
        AreTakenByClap (map (λ word. word.now) words.entry.now) → fault ≡ LineFault.NoMemory) }
{
    let command = line_command(global)?;
    match command.try_get_matches_from(words) {
        Ok(matches) => job_in(&matches).ok_or(LineFault::Refused),
        Err(error) => Err(fault_of(error.kind())),
    }
}
