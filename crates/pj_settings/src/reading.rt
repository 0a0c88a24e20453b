//! From words to settings.
ghost use Rattle.std.specs.Prelude.{◌≡◌, IfOk, unwrap_or};
ghost use Rattle.std.specs.Option.{option_map};
ghost use Rattle.clap.specs.Words.{first_of, found_of, rows_of};
ghost use Rattle.pj_settings.specs.Job.{Gives, given_of, job, rows_job, settings_of};
ghost use Rattle.pj_settings.specs.Borrowed.{given_seen};

use crate::command::matched;
use crate::settings::Settings;
use crate::usage::{UsageFault, UsageRefused};
use crate::values::{
    classes_value, format_value, items_value, marker_value, minimum_value, threads_value,
    version_value,
};
use clap::ArgMatches;
use pj_base::{NoMemory, Text, Words};
use std::alloc::Global;
use std::convert::AsStr;

/// The word of each option, or its default. The class folders and the cache have none.
#[derive(Drop)]
struct Given<'a> {
    dir: &'a str,
    rulesets: &'a str,
    format: &'a str,
    classes: Option<&'a str>,
    threads: &'a str,
    minimum: &'a str,
    marker: &'a str,
    cache: Option<&'a str>,
    version: &'a str,
}

/// The value of an option, where it is given.
fn value_of<'a>(matches: &ArgMatches<'a>, id: &str) -> Option<&'a str>
    ensures { option_map (λ word. word.now) result ≡ first_of id.now (rows_of (found_of matches.now)) }
{
    matches.get_str(id)
}

/// The value of an option, or what stands for it.
fn value_or<'a>(matches: &ArgMatches<'a>, id: &str, default: &'a str) -> &'a str
    ensures { result.now ≡ unwrap_or (first_of id.now (rows_of (found_of matches.now))) default.entry.now }
{
    match value_of(matches, id) {
        Some(value) => value,
        None => default,
    }
}

/// The texts of the options, each with what it is where it is not given.
fn given_of<'a>(matches: &ArgMatches<'a>) -> Given<'a>
    ensures { given_seen result ≡ given_of (rows_of (found_of matches.now)) }
{
    Given {
        dir: value_or(matches, "dir", ""),
        rulesets: value_or(matches, "rulesets", ""),
        format: value_or(matches, "format", "text"),
        classes: value_of(matches, "aux-classpath"),
        threads: value_or(matches, "threads", "1"),
        minimum: value_or(matches, "minimum-priority", "5"),
        marker: value_or(matches, "suppress-marker", "NOPMD"),
        cache: value_of(matches, "cache"),
        version: value_or(matches, "use-version", "java-17"),
    }
}

/// The name of the cache, copied.
fn cache_value(alloc: Global, given: Option<&str>) -> Result<Option<Text>, NoMemory>
    ensures { IfOk result (λ cache. cache ≡ option_map (λ word. word.now) given.entry) }
{
    match given {
        None => Ok(None),
        Some(name) => Ok(Some(Text::from_str(alloc, name)?)),
    }
}

/// The settings that these texts spell, or the first one that spells none.
fn settings_of(alloc: Global, given: &Given<'_>) -> Result<Settings, UsageRefused>
    ensures { Gives result (settings_of (given_seen given.now)) }
{
    let dirs = items_value(alloc, "--dir", given.dir)?;
    let rulesets = items_value(alloc, "--rulesets", given.rulesets)?;
    let format = format_value(alloc, given.format)?;
    let classes = classes_value(alloc, given.classes)?;
    let threads = threads_value(alloc, given.threads)?;
    let minimum = minimum_value(alloc, given.minimum)?;
    let marker = marker_value(alloc, given.marker)?;
    version_value(alloc, given.version)?;
    let cache = cache_value(alloc, given.cache)?;
    Ok(Settings {
        dirs,
        rulesets,
        format,
        classes,
        threads,
        minimum,
        marker,
        cache,
    })
}

/// The settings that the words ask for: `Command` where the first word is not `check`, `Line` where `clap` takes the
/// others for no line, `Value` for the first option whose value is none of its own.
pub fn read(alloc: Global, words: &Words) -> Result<Settings, UsageRefused>
    ensures { Gives result (job words.now) }
{
    match words.as_slice() {
        [word, ..] if word.as_str() == "check" => {
            match matched(alloc, words) {
                Ok(matches) => settings_of(alloc, &given_of(&matches)),
                Err(refused) => Err(refused),
            }
        }
        _ => Err(UsageRefused::Fault(UsageFault::Command)),
    }
}
