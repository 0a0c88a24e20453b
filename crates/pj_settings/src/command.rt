//! The options, as `clap` takes them.
ghost use Rattle.std.specs.Prelude.{◌≡◌, ◌≢◌, ◌⊎◌, IfOk, IfErr, [], false};
ghost use Rattle.clap.specs.Words.{app_of, fault_of, found_of, rows_of, rule_of, matches_of};
ghost use Rattle.pj_settings.specs.Options.{check_app, dir_rule, format_rule, long_rule, rulesets_rule};

use crate::usage::{UsageFault, UsageRefused};
use clap::error::ErrorKind;
use clap::{Arg, ArgMatches, Command};
use pj_base::Words;
use std::alloc::{AllocError, Global};
use std::convert::AsStr;

/// An option that takes one text.
fn long_option<'a>(alloc: Global, name: &'a str) -> Arg<'a>
    ensures rule { rule_of result ≡ long_rule name.entry.now }
    ensures local { result.global ≡ false }
{
    Arg::new(alloc, name).long(name)
}

/// The option for the folders and files of sources.
fn dir_option<'a>(alloc: Global) -> Arg<'a>
    ensures rule { rule_of result ≡ dir_rule }
    ensures local { result.global ≡ false }
{
    long_option(alloc, "dir").short('d').required(true)
}

/// The option for the rulesets.
fn rulesets_option<'a>(alloc: Global) -> Arg<'a>
    ensures rule { rule_of result ≡ rulesets_rule }
    ensures local { result.global ≡ false }
{
    long_option(alloc, "rulesets").short('R').required(true)
}

/// The option for the format of the report.
fn format_option<'a>(alloc: Global) -> Arg<'a>
    ensures rule { rule_of result ≡ format_rule }
    ensures local { result.global ≡ false }
{
    long_option(alloc, "format").short('f')
}

/// The command: it has no subcommands and no help flag.
fn check_command<'a>(alloc: Global) -> Result<Command<'a>, AllocError>
    ensures { IfOk result (λ c. app_of c ≡ check_app) }
{
    let dir = dir_option(alloc);
    let rulesets = rulesets_option(alloc);
    let format = format_option(alloc);
    let classes = long_option(alloc, "aux-classpath");
    let threads = long_option(alloc, "threads");
    let minimum = long_option(alloc, "minimum-priority");
    let marker = long_option(alloc, "suppress-marker");
    let cache = long_option(alloc, "cache");
    let version = long_option(alloc, "use-version");
    let command = Command::new(alloc, "check")
        .disable_help_flag(true)
        .arg(dir)?
        .arg(rulesets)?
        .arg(format)?
        .arg(classes)?
        .arg(threads)?
        .arg(minimum)?
        .arg(marker)?
        .arg(cache)?
        .arg(version)?;
    Ok(command)
}

/// What `clap` makes of the words, of which the first is the command.
pub fn matched<'a>(alloc: Global, words: &'a Words) -> Result<ArgMatches<'a>, UsageRefused>
    ensures ok { IfOk result (λ m. (rows_of (found_of m) ≡ matches_of check_app words.entry.now)
        × (fault_of check_app words.entry.now ≡ [])) }
    ensures line { IfErr result (λ e. (e ≡ UsageRefused.Memory)
        ⊎ ((e ≡ UsageRefused.Fault UsageFault.Line) × (fault_of check_app words.entry.now ≢ []))) }
{
    let command = check_command(alloc)?;
    match command.try_get_matches_from(words.as_slice()) {
        Ok(matches) => Ok(matches),
        Err(error) => {
            match error.kind() {
                ErrorKind::OutOfMemory => Err(UsageRefused::Memory),
                _ => Err(UsageRefused::Fault(UsageFault::Line)),
            }
        }
    }
}
