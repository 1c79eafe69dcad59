// The words of a run, read as clap reads them.
ghost use Rattle.std.specs.Prelude.{◌≡◌, ◌≢◌, [], map, string_bytes, option_and_then, false, IfOk, IfErr, IfNone, IfSome};
ghost use Rattle.clap.specs.Words.{app_of, fault_of, found_of, kind_of, rows_of, rule_of, subcommand_of, subcommand_rows_of};
ghost use Rattle.obd_cli.specs.CommandLine.{command_of, named, number_of, obd, sample_of, seed, twists};

use crate::status::Command;
use clap::error::ErrorKind;
use clap::{Arg, ArgAction, ArgMatches, Error};
use obd_base::NoMemory;
use std::alloc::{AllocError, Global};

// The seed of `sample`.
fn seed_arg<'a>(alloc: Global) -> Arg<'a>
    ensures rule { rule_of result ≡ seed }
    ensures local { result.global ≡ false }
{
    Arg::new(alloc, "SEED")
        .required(true)
        .action(ArgAction::Set)
        .value_parser(clap::value_parser!(u16))
}

// The number of twists of `sample`.
fn twists_arg<'a>(alloc: Global) -> Arg<'a>
    ensures rule { rule_of result ≡ twists }
    ensures local { result.global ≡ false }
{
    Arg::new(alloc, "TWISTS")
        .required(true)
        .action(ArgAction::Set)
        .value_parser(clap::value_parser!(u16).range(1..257))
}

// The command line of the program: `obd decide | page | check | sample SEED TWISTS`.
fn obd_command<'a>(alloc: Global) -> Result<clap::Command<'a>, AllocError>
    ensures { IfOk result (λ command. app_of command ≡ obd) }
{
    let seed = seed_arg(alloc);
    let twists = twists_arg(alloc);
    let with_seed = clap::Command::new(alloc, "sample").arg(seed)?;
    let sample = with_seed.arg(twists)?;
    let decide = clap::Command::new(alloc, "decide");
    let page = clap::Command::new(alloc, "page");
    let check = clap::Command::new(alloc, "check");
    let alone = clap::Command::new(alloc, "obd")
        .no_binary_name(true)
        .subcommand_required(true)
        .disable_help_subcommand(true);
    let one = alone.subcommand(decide)?;
    let two = one.subcommand(page)?;
    let three = two.subcommand(check)?;
    let four = three.subcommand(sample)?;
    Ok(four)
}

// What clap makes of the words.
fn parsed<'a>(alloc: Global, words: &'a [String]) -> Result<ArgMatches<'a>, Error>
    ensures fault { IfErr result (λ error. kind_of error ≢ ErrorKind.OutOfMemory → fault_of obd (map string_bytes words.entry.now) ≢ []) }
    ensures taken { IfOk result (λ matches. (fault_of obd (map string_bytes words.entry.now) ≡ [])
        × (subcommand_rows_of matches ≡ subcommand_of obd (map string_bytes words.entry.now))) }
{
    let command = obd_command(alloc)?;
    command.try_get_matches_from(words)
}

// The number of the value of this name.
fn number_of(values: &ArgMatches, name: &str) -> Option<u16>
    ensures { result ≡ number_of name.now (rows_of (found_of values.now)) }
{
    values.get_one::<u16>(name)
}

// `sample` with its two numbers.
fn sample_of(values: &ArgMatches) -> Option<Command>
    ensures { result ≡ sample_of (rows_of (found_of values.now)) }
{
    let seed = number_of(values, "SEED")?;
    let twists = number_of(values, "TWISTS")?;
    Some(Command::Sample { seed, twists })
}

// The command that the words name.
fn named(matches: &ArgMatches) -> Option<Command>
    ensures { result ≡ option_and_then named (subcommand_rows_of matches.now) }
{
    let (name, values) = matches.subcommand()?;
    match name {
        "decide" => Some(Command::Decide),
        "page" => Some(Command::Page),
        "check" => Some(Command::Check),
        "sample" => sample_of(values),
        _ => None,
    }
}

/// The command that the words after the program's own name are: `decide`, `page`, `check`, or `sample` with a seed from 0 to
/// 65535 and a number of twists from 1 to 256. `None` exactly where clap finds a fault in the words, as in a call for help.
///
/// `NoMemory` where memory was wanting for the command line, which each call builds anew, or for the words that were read.
/// Linear in the bytes of the words; the memory that it takes is given back.
pub(crate) fn command_of(alloc: Global, words: &[String]) -> Result<Option<Command>, NoMemory>
    ensures { IfOk result (λ found. found ≡ command_of (map string_bytes words.now)) }
{
    match parsed(alloc, words) {
        Ok(matches) => Ok(named(&matches)),
        Err(error) => {
            if error.kind() == ErrorKind::OutOfMemory {
                Err(NoMemory)
            } else {
                Ok(None)
            }
        }
    }
}
