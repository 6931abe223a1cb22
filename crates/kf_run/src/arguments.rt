//! What the command line asks for.

ghost use Rattle.std.specs.Prelude.{◌≡◌, ◌≤◌, IfErr, IfOk, codes, false, map, option_map, pos};
ghost use Rattle.kf_core.specs.Limits.{most_slots};
ghost use Rattle.clap.specs.Words.{FailsBy, app_of, found_of, kind_of, one_text, rule_of};
ghost use Rattle.clap.specs.declared.builder.value_parser.ValueParser.TheVariants.{Signed};
ghost use Rattle.clap.specs.declared.error.kind.ErrorKind.{ErrorKind};
ghost use Rattle.kf_run.specs.Asking.{AskFor, HasText, IsNumber, faults_in, program, script_rule, slots_rule};
ghost use Rattle.kf_run.specs.Asking.{workers_rule};

use clap::{Arg, ArgAction, ArgMatches, Command, Error, value_parser};
use kf_core::{Limits, MOST_SLOTS};
use std::alloc::Global;
use std::convert::AsStr;

/// The program's version.
const VERSION: &str = "0.4.0";

/// What the program does, as help prints it.
const ABOUT: &str = "Runs a script on an attribute tree that behaves like Linux kernfs.\n\n\
    Each line of the script has one command and gets one line of reply on standard\n\
    output: as the script is read, or with workers, after the whole run.";

/// The end of help: the commands of scripts, the limits, and the program's exit status.
const COMMANDS_AND_STATUSES: &str = "Commands, one per line, with one space between words:\n  \
    mkdir PATH [off]    file PATH MODE TEXT   link PATH TARGET   activate PATH\n  \
    ls PATH             stat PATH             readlink PATH      mv PATH DIR NAME\n  \
    rm PATH             open H PATH r|w|rw    read H OFF LEN     write H TEXT\n  \
    poll H              notify PATH           close H            hide PATH\n  \
    show PATH           commands              compact            wait\n  \
    plug NAME TEXT      unplug NAME           @W COMMAND (worker W)\n\
    \n\
    Limits: a line 8192 bytes, a page 4096, a name 255; 26 open files for each\n\
    worker and for the owner; a script with workers 1048576 bytes.\n\
    \n\
    Exit status: 0 if the script was run, whatever its replies; 1 if a read or a\n\
    write failed, or memory ran out, as standard error says; 2 if the arguments\n\
    are refused or the script cannot be opened.";

/// The default number of slots, as clap reads it and as help prints it.
const DEFAULT_SLOTS: &str = "1024";

/// The default number of workers.
const DEFAULT_WORKERS: &str = "0";

/// The greatest number of holds that one node may have.
const HOLDS: u32 = 65_535;

/// What to run: the limits of the tree, the number of workers beside the owner, and the script's file.
/// Without a file, or with `-`, the script is standard input.
#[derive(Drop)]
pub struct Asked<'a> {
    pub limits: Limits,
    pub workers: u32,
    pub script: Option<&'a str>,
    ghost holds: { limits.holds ≡ 65535 },
    ghost few: { workers ≤ 16 },
}

/// `--slots N`.
fn slots_option<'a>(alloc: Global) -> Arg<'a>
    ensures rule { rule_of result ≡ slots_rule }
    ensures local { result.global ≡ false }
{
    Arg::new(alloc, "slots")
        .long("slots")
        .action(ArgAction::Set)
        .value_name("N")
        .help("Maximum number of nodes, 1 to 1048576, including the root")
        .value_parser(value_parser!(u32).range(1..=i64::from(MOST_SLOTS)))
        .default_value(DEFAULT_SLOTS)
}

/// `--workers N`.
fn workers_option<'a>(alloc: Global) -> Arg<'a>
    ensures rule { rule_of result ≡ workers_rule }
    ensures local { result.global ≡ false }
{
    Arg::new(alloc, "workers")
        .long("workers")
        .action(ArgAction::Set)
        .value_name("N")
        .help("Threads beside the owner's, which run the lines `@W COMMAND`, 0 to 16")
        .value_parser(value_parser!(u32).range(0..=16))
        .default_value(DEFAULT_WORKERS)
}

/// `SCRIPT`.
fn script_word<'a>(alloc: Global) -> Arg<'a>
    ensures rule { rule_of result ≡ script_rule }
    ensures local { result.global ≡ false }
{
    Arg::new(alloc, "SCRIPT").value_name("SCRIPT").help(
        "File with the script; without it, or if it is -, standard input",
    )
}

/// The program's arguments, as clap parses them and as `--help` prints them.
fn command<'a>(alloc: Global) -> Result<Command<'a>, Error>
    ensures made { IfOk result (λ command. app_of command ≡ program) }
    ensures refused { IfErr result (λ error. kind_of error ≡ ErrorKind.OutOfMemory) }
{
    let slots = slots_option(alloc);
    let workers = workers_option(alloc);
    let script = script_word(alloc);
    let bare = Command::new(alloc, "kernfs_run")
        .version(VERSION)
        .about(ABOUT)
        .after_help(COMMANDS_AND_STATUSES);
    let command = bare.arg(slots)?.arg(workers)?.arg(script)?;
    Ok(command)
}

/// The number of slots on the command line, or the default.
fn slots_in(matches: &ArgMatches<'_>) -> u32
    requires given { HasText (found_of matches.now) (codes "slots") false (Signed (pos 1) (pos most_slots)) }
    ensures value { IsNumber (one_text (found_of matches.now) (codes "slots")) result }
    ensures some { 1 ≤ result }
    ensures few { result ≤ most_slots }
{
    matches.get_one::<u32>("slots").unwrap()
}

/// The number of workers on the command line, or the default.
fn workers_in(matches: &ArgMatches<'_>) -> u32
    requires given { HasText (found_of matches.now) (codes "workers") false (Signed (pos 0) (pos 16)) }
    ensures value { IsNumber (one_text (found_of matches.now) (codes "workers")) result }
    ensures few { result ≤ 16 }
{
    matches.get_one::<u32>("workers").unwrap()
}

/// The limits of a tree with this number of slots.
fn limits_of(slots: u32) -> Limits
    requires some { 1 ≤ slots }
    requires few { slots ≤ most_slots }
    ensures slots { result.slots ≡ slots }
    ensures holds { result.holds ≡ 65535 }
{
    Limits::new(slots, HOLDS).unwrap()
}

/// Reads what the arguments ask for. The first argument is the program's name.
///
/// It returns `Err` if clap refuses the arguments, if they ask for help or the version, or if memory was
/// refused.
pub fn read_words<'a, S: AsStr>(alloc: Global, words: &'a [S]) -> Result<Asked<'a>, Error>
    ensures asked { IfOk result (λ asked. AskFor (map S.text words.entry.now) asked.limits.slots asked.workers
        (option_map (λ script. script.now) asked.script)) }
    ensures lawful { FailsBy (faults_in (map S.text words.entry.now)) result }
{
    let command = command(alloc)?;
    match command.try_get_matches_from(words) {
        Ok(matches) => Ok(Asked {
            limits: limits_of(slots_in(&matches)),
            workers: workers_in(&matches),
            script: matches.get_str("SCRIPT"),
        }),
        Err(error) => Err(error),
    }
}
