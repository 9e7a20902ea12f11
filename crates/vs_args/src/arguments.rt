//! The texts of the options' values, by `clap`.
ghost use Rattle.std.specs.Prelude.{◌≡◌, true, false, IfOk, IfErr, map, option_map};
ghost use Rattle.clap.specs.Words.{app_of, rule_of, subcommand_of, subcommand_rows_of, takes, kind_of};
ghost use Rattle.clap.specs.declared.builder.command.Command.TheViews.{out-Command};
ghost use Rattle.vs_defs.specs.ProgramWords.{value_in, seed as seed_choice, Job};
ghost use Rattle.vs_defs.specs.ProgramWords.Job.{Script};
ghost use Rattle.vs_args.specs.Words.{job_named, IsScript};
ghost use Rattle.vs_args.specs.Arguments as spec;

use clap::error::ErrorKind;
use clap::{Arg, ArgAction, ArgMatches, Command, Error};
use std::alloc::{AllocError, Global};

fn plain<'a>(alloc: Global, name: &'a str) -> Command<'a>
    ensures app { app_of result ≡ spec.plain name.now }
    ensures local { (out-Command result).has_globals ≡ false }
{
    Command::new(alloc, name)
        .disable_help_flag(true)
        .disable_version_flag(true)
        .disable_help_subcommand(true)
}

fn seed<'a>(alloc: Global) -> Arg<'a>
    ensures rule { rule_of result ≡ spec.seed }
    ensures local { result.global ≡ false }
{
    Arg::new(alloc, "seed")
        .long("seed")
        .action(ArgAction::Set)
        .default_value("0")
        .value_parser(clap::value_parser!(u64))
}

fn script<'a>(alloc: Global) -> Result<Command<'a>, AllocError>
    ensures { IfOk result (λ c. (app_of c ≡ spec.script) × ((out-Command c).has_globals ≡ false)) }
{
    plain(alloc, "script").arg(seed(alloc))
}

fn above<'a>(alloc: Global) -> Command<'a>
    ensures { app_of result ≡ spec.above }
{
    plain(alloc, "vectord")
        .no_binary_name(true)
        .subcommand_required(true)
}

fn program<'a>(alloc: Global) -> Result<Command<'a>, AllocError>
    ensures { IfOk result (λ c. app_of c ≡ spec.program) }
{
    above(alloc).subcommand(script(alloc)?)
}

fn matches<'a>(alloc: Global, words: &'a [&'a str]) -> Result<ArgMatches<'a>, Error>
    ensures ok { IfOk result (λ m. subcommand_rows_of m ≡ subcommand_of spec.program (map (λ w. w.now) words.now)) }
    ensures err { IfErr result (λ e. takes spec.program (map (λ w. w.now) words.now) ≡ true → kind_of e ≡ ErrorKind.OutOfMemory) }
{
    program(alloc)?.try_get_matches_from(words)
}

/// The text of the seed in plain words of `script`, or its default; only want of memory is refused.
pub fn seed_text<'a>(alloc: Global, words: &'a [&'a str]) -> Result<&'a str, Error>
    requires { IsScript (map (λ w. w.now) words.now) }
    ensures text { IfOk result (λ text. option_map Script (value_in seed_choice text.now) ≡ job_named (map (λ w. w.now) words.entry.now)) }
    ensures err { IfErr result (λ e. kind_of e ≡ ErrorKind.OutOfMemory) }
{
    let found = matches(alloc, words)?;
    let Some((_, inner)) = found.subcommand() else {
        unreachable!()
    };
    match inner.get_str("seed") {
        Some(text) => Ok(text),
        None => unreachable!(),
    }
}
