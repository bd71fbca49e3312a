//! A command line, taken apart.

ghost use Rattle.std.specs.Prelude.{◌≡◌, codes, [], unwrap_or, IfOk, map, option_map, string_bytes};
ghost use Rattle.clap.specs.Words.{all_of, app_of, first_of, found_of, rows_of};
ghost use Rattle.command_words.specs.Line.{abides, line_of, parts_from, parts_seen, rows_for};

use clap::error::ErrorKind;
use clap::{Arg, ArgAction, ArgMatches, Command};
use plain_lists::Memory;
use std::alloc::{AllocError, Global};

// A command line's parts as they were written. Its texts are those of the words.
#[derive(Drop)]
pub struct Line<'a> {
    pub command: &'a str,
    pub study: &'a str,
    pub more: Vec<&'a str>,
    pub workers: &'a str,
    pub places: &'a str,
}

// The command line as `clap` parses it.
fn command<'a>(alloc: Global) -> Result<Command<'a>, AllocError>
    ensures { IfOk result (λ r. app_of r ≡ abides) }
{
    let app = Command::new(alloc, "abides").no_binary_name(true);
    let app = app.arg(Arg::new(alloc, "command").required(true))?;
    let app = app.arg(Arg::new(alloc, "study").required(true))?;
    let app = app.arg(Arg::new(alloc, "more").action(ArgAction::Append))?;
    let workers = Arg::new(alloc, "workers").long("workers");
    let app = app.arg(workers.default_value("1"))?;
    let places = Arg::new(alloc, "places").long("places");
    app.arg(places.default_value("16"))
}

// The matches of the words. `None` exactly where the command does not take them.
fn matches_in<'a>(alloc: Global, words: &'a [String]) -> Result<Option<ArgMatches<'a>>, Memory>
    ensures { IfOk result (λ m. option_map (λ m. rows_of (found_of m)) m ≡ rows_for (map string_bytes words.entry.now)) }
{
    let command = match command(alloc) {
        Ok(command) => command,
        Err(_) => return Err(Memory),
    };
    match command.try_get_matches_from(words) {
        Ok(matches) => Ok(Some(matches)),
        Err(error) => match error.kind() {
            ErrorKind::OutOfMemory => Err(Memory),
            _ => Ok(None),
        },
    }
}

// The first value of an argument.
fn first<'a>(matches: &ArgMatches<'a>, id: &str) -> Option<&'a str>
    ensures { option_map (λ s. s.now) result ≡ first_of id.now (rows_of (found_of matches.now)) }
{
    matches.get_str(id)
}

// The values of an argument.
fn values<'a>(alloc: Global, matches: &ArgMatches<'a>, id: &str) -> Result<Vec<&'a str>, AllocError>
    ensures { IfOk result (λ v. map (λ s. s.now) v.items ≡ unwrap_or (all_of id.now (rows_of (found_of matches.now))) []) }
{
    match matches.get_strs(id) {
        Some(given) => given.iter().copied().collect(alloc),
        None => Ok(Vec::new(alloc)),
    }
}

// A line, where the parts that it needs are there.
fn line_from<'a>(
    command: Option<&'a str>,
    study: Option<&'a str>,
    more: Vec<&'a str>,
    workers: Option<&'a str>,
    places: Option<&'a str>,
) -> Option<Line<'a>>
    ensures { option_map parts_seen result ≡ parts_from (option_map (λ s. s.now) command.entry)
        (option_map (λ s. s.now) study.entry) (map (λ s. s.now) more.entry.items)
        (option_map (λ s. s.now) workers.entry) (option_map (λ s. s.now) places.entry) }
{
    Some(Line {
        command: command?,
        study: study?,
        more,
        workers: workers?,
        places: places?,
    })
}

// Takes a command line apart. `None` exactly where it is none.
pub fn read_line<'a>(alloc: Global, words: &'a [String]) -> Result<Option<Line<'a>>, Memory>
    ensures { IfOk result (λ line. option_map parts_seen line ≡ line_of (map string_bytes words.entry.now)) }
{
    let Some(matches) = matches_in(alloc, words)? else {
        return Ok(None);
    };
    let more = values(alloc, &matches, "more")?;
    let command = first(&matches, "command");
    let study = first(&matches, "study");
    let workers = first(&matches, "workers");
    let places = first(&matches, "places");
    Ok(line_from(command, study, more, workers, places))
}
