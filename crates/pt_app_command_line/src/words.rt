ghost use Rattle.std.specs.Prelude.{◌≡◌, ◌≢◌, ◌⊎◌, Err, IfErr, IfOk, false, map, string_bytes};
ghost use Rattle.clap.specs.Words.{FailsBy, HasMatchesOf, app_of, fault_of, with_rule, with_subcommand};
ghost use Rattle.clap.specs.declared.error.kind.ErrorKind.TheVariants.{OutOfMemory};
ghost use Rattle.clap.specs.declared.builder.command.Command.TheViews.{out-Command as fields_of};
ghost use Rattle.pt_app_command_line.specs.CommandLine.{audit_words, command, desk_words, place, program_words};
ghost use Rattle.pt_app_command_line.specs.CommandLine.{with_commands, with_places};
ghost use Rattle.pt_base_values.specs.declared.fault.Cause.TheVariants as cause;
ghost use Rattle.pt_app_command_line.specs.Line.{IsLine, IsSameLine, SpellsLine};
ghost use Rattle.pt_app_command_line.specs.declared.asked.Line.{Line};
ghost use Rattle.pt_base_values.specs.Fault.{fault};

use crate::asked;
use crate::asked::found_line;
use clap::error::ErrorKind;
use clap::{Arg, ArgMatches, Command, Error};
use pt_base_values::{Cause, Fault};
use std::alloc::{AllocError, Global};

const ABOUT: &str = "The office system of a transit agency that gives complementary paratransit \
(49 CFR Part 37 Subpart F).";

/// The version of the program, which `--version` prints.
const VERSION: &str = "0.9.0";

const EXIT_STATUS: &str = "Exit status: 0 done, 1 denied, `possible` or `no`, 2 wrong words, \
3 out of memory or the store failed, 4 another fault. With 3 and 4 standard error has the line \
`fault C row R`.\n\
A file of an earlier version is refused with fault 30: `desk migrate FILE` turns it into one of this version.\n\
The codes of faults:\n\
0 out of memory\n\
1 no such date\n\
2 a date outside 2000 to 2099\n\
3 no such time zone rule\n\
5 a file that does not exist or cannot be read\n\
6 a port that cannot be had\n\
7 a file to be made that exists already\n\
8 words that are no command's\n\
10 the points of a fixed route\n\
11 the width of a fixed route\n\
12 a coordinate of a fixed route\n\
13 the hours of a fixed route\n\
20 a record of driving times\n\
21 the header of driving times\n\
22 a place of driving times\n\
23 the minutes of driving times\n\
24 a pair of places with two driving times\n\
25 too many places to drive between\n\
30 a database of other tables, or of another version\n\
31 a database with rows of no sound state\n\
32 the database refused or failed\n\
46 a read failed, or too many came\n\
47 a write failed\n\
48 a line of a rehearsal without a moment\n\
50 a line that is not one of a log of refusals";

const REHEARSE: &str = "Answers HTTP requests from standard input, on a desk in memory that \
begins with one admin. Each request comes after a line `@ YYYY-MM-DD M`: its day, and the \
minute of that day. Replies go to standard output. For example: desk rehearse KEY < requests";

const INIT: &str = "Makes a new database with one caller, the admin, who has number 1. \
For example: desk init desk.db KEY";

const MIGRATE: &str =
    "Turns a file of an earlier version into one of this version, and prints `done`. \
For example: desk migrate desk.db";

const SERVE: &str = "Answers HTTP requests on 127.0.0.1, one on each connection, one connection \
after another. For example: desk serve desk.db EST5EDT,M3.2.0,M11.1.0 8080 1000000";

const TRAVEL: &str = "Gives the driving times that hold from a day on, and prints `done`. \
For example: desk travel desk.db EST5EDT,M3.2.0,M11.1.0 KEY 5 2025-03-11 times.csv";

const MANIFEST: &str = "Prints the manifest of a vehicle on a day. \
For example: desk manifest desk.db EST5EDT,M3.2.0,M11.1.0 KEY 1 2025-03-11";

const TRIPS: &str = "Prints the trips of a day as CSV. \
For example: desk trips desk.db EST5EDT,M3.2.0,M11.1.0 KEY 2025-03-11";

const EXPLAIN: &str = "Prints the log of a refusal where a booking would be denied `no vehicle`, \
else `possible` or the denial. For example: \
desk explain desk.db EST5EDT,M3.2.0,M11.1.0 KEY 7 2025-03-11 540 2 3 none 0 0 > refusal.log";

const AUDIT: &str = "Prints `yes` where the log shows that no vehicle can take the trip, else `no` \
or the denial. For example: \
desk audit refusal.log desk.db EST5EDT,M3.2.0,M11.1.0 KEY 7 2025-03-11 540 2 3 none 0 0";

/// A place for a word: its name, and its text in the help.
type Place<'a> = (&'a str, &'a str);

const ADMIN_KEY: Place = (
    "KEY",
    "The admin's key, which requests give in the header Desk-Key: it has no blank at either end",
);

const KEY: Place = ("KEY", "The key of the caller who asks");

const NEW_FILE: Place = ("FILE", "The file that is made, which must not exist");

const FILE: Place = ("FILE", "The file of the database");

const ZONE: Place = (
    "ZONE",
    "The POSIX rule of the agency's time zone, such as EST5EDT,M3.2.0,M11.1.0",
);

const PORT: Place = ("PORT", "The port, 1 to 65535");

const COUNT: Place = ("COUNT", "How many connections are answered, 1 to 1000000");

const NUMBER: Place = (
    "NUMBER",
    "The number of the request, above that of the caller's last accepted one",
);

const FIRST_DAY: Place = ("DAY", "The first day on which the times hold, YYYY-MM-DD");

const DAY: Place = ("DAY", "The day, YYYY-MM-DD");

const CSV: Place = (
    "CSV",
    "The file of the times, with the header from,to,minutes",
);

const VEHICLE: Place = ("VEHICLE", "The vehicle's number");

const LOG: Place = ("LOG", "The file of the log, as `explain` printed it");

const RIDER: Place = ("RIDER", "The rider's number");

const WISH: Place = (
    "WISH",
    "The minute when the rider wishes to be picked up, 0 to 1439",
);

const FROM: Place = ("FROM", "The number of the place where the trip begins");

const TO: Place = ("TO", "The number of the place where the trip ends");

const BY: Place = (
    "BY",
    "The minute by which the rider has to be there, 0 to 1439, or `none`",
);

const ATTENDANT: Place = ("ATTENDANT", "Whether an attendant comes along: 1, else 0");

const COMPANIONS: Place = ("COMPANIONS", "How many companions come along, 0 to 255");

/// The places of a question about a rider's wish.
const QUESTION_PLACES: [Place; 11] = [
    FILE, ZONE, KEY, RIDER, DAY, WISH, FROM, TO, BY, ATTENDANT, COMPANIONS,
];

/// A command: its name, its text in the help, and the places for its words.
type Words<'a> = (&'a str, &'a str, &'a [Place<'a>]);

/// The commands in the order of the help. `audit` comes last and is made apart, since it also needs a log.
const COMMANDS: [Words; 8] = [
    ("rehearse", REHEARSE, &[ADMIN_KEY]),
    ("init", INIT, &[NEW_FILE, ADMIN_KEY]),
    ("migrate", MIGRATE, &[FILE]),
    ("serve", SERVE, &[FILE, ZONE, PORT, COUNT]),
    ("travel", TRAVEL, &[FILE, ZONE, KEY, NUMBER, FIRST_DAY, CSV]),
    ("manifest", MANIFEST, &[FILE, ZONE, KEY, VEHICLE, DAY]),
    ("trips", TRIPS, &[FILE, ZONE, KEY, DAY]),
    ("explain", EXPLAIN, &QUESTION_PLACES),
];

/// The command with one more place for a word, which is required. The error is out of memory.
fn with_place<'a>(
    alloc: Global,
    command: Command<'a>,
    name: &'a str,
    help: &'a str,
) -> Result<Command<'a>, AllocError>
    ensures app { IfOk result (λ more. app_of more ≡ with_rule (app_of command.entry) (place name.entry.now)) }
    ensures local { (fields_of command.entry).has_globals ≡ false
        → IfOk result (λ more. (fields_of more).has_globals ≡ false) }
{
    command.arg(Arg::new(alloc, name).required(true).help(help))
}

/// The command with more places for words, in order.
fn with_places<'a>(
    alloc: Global,
    mut command: Command<'a>,
    places: &[Place<'a>],
) -> Result<Command<'a>, AllocError>
    ensures app { IfOk result (λ more.
        app_of more ≡ with_places (app_of command.entry) (map (λ place. place.0.now) places.now)) }
    ensures local { (fields_of command.entry).has_globals ≡ false
        → IfOk result (λ more. (fields_of more).has_globals ≡ false) }
{
    for &(name, help) in places {
        command = with_place(alloc, command, name, help)?;
    }
    Ok(command)
}

/// The command with these places; `about` is its text in the help.
fn command_of<'a>(
    alloc: Global,
    name: &'a str,
    about: &'a str,
    places: &[Place<'a>],
) -> Result<Command<'a>, AllocError>
    ensures app { IfOk result (λ made.
        app_of made ≡ command name.entry.now (map (λ place. place.0.now) places.now)) }
    ensures local { IfOk result (λ made. (fields_of made).has_globals ≡ false) }
{
    with_places(alloc, Command::new(alloc, name).about(about), places)
}

/// The command `audit`.
fn audit_command<'a>(alloc: Global) -> Result<Command<'a>, AllocError>
    ensures app { IfOk result (λ command. app_of command ≡ audit_words) }
    ensures local { IfOk result (λ command. (fields_of command).has_globals ≡ false) }
{
    let command = command_of(alloc, "audit", AUDIT, &[LOG])?;
    with_places(alloc, command, &QUESTION_PLACES)
}

/// The program's words without its commands. A command is required.
fn program_command<'a>(alloc: Global) -> Command<'a>
    ensures { app_of result ≡ program_words }
{
    Command::new(alloc, "desk")
        .about(ABOUT)
        .version(VERSION)
        .after_help(EXIT_STATUS)
        .subcommand_required(true)
        .disable_help_subcommand(true)
}

/// The program's words with one more command.
fn with_command<'a>(program: Command<'a>, command: Command<'a>) -> Result<Command<'a>, AllocError>
    requires { (fields_of command).has_globals ≡ false }
    ensures { IfOk result (λ more. app_of more ≡ with_subcommand (app_of program.entry) (app_of command.entry).top) }
{
    program.subcommand(command)
}

/// The program's words with more commands, in order.
fn with_commands<'a>(
    alloc: Global,
    mut program: Command<'a>,
    commands: &[Words<'a>],
) -> Result<Command<'a>, AllocError>
    ensures app { IfOk result (λ more.
        app_of more ≡ with_commands (app_of program.entry)
        (map (λ w. command w.0.now (map (λ place. place.0.now) w.2.now)) commands.now)) }
{
    for &(name, about, places) in commands {
        program = with_command(program, command_of(alloc, name, about, places)?)?;
    }
    Ok(program)
}

/// The words of the program. The error is out of memory.
fn desk_command<'a>(alloc: Global) -> Result<Command<'a>, AllocError>
    ensures app { IfOk result (λ command. app_of command ≡ desk_words) }
{
    let desk = with_commands(alloc, program_command(alloc), &COMMANDS)?;
    with_command(desk, audit_command(alloc)?)
}

/// The words at the places of the command that the words name. The program's own name comes first in `words`.
///
/// The error is a text for the user: the fault in the words, or the help or the version that they ask for.
pub fn matches_in<'a>(alloc: Global, words: &'a [String]) -> Result<ArgMatches<'a>, Error>
    ensures matches { IfOk result (HasMatchesOf desk_words (map string_bytes words.now)) }
    ensures refused { FailsBy (fault_of desk_words (map string_bytes words.now)) result }
{
    desk_command(alloc)?.try_get_matches_from(words)
}

/// The fault for words that are refused for this reason.
fn refusal_of(reason: ErrorKind) -> Fault
    ensures memory { reason ≡ OutOfMemory → result ≡ fault cause.Memory }
    ensures wrong { result ≡ fault cause.WrongWords → reason ≢ OutOfMemory }
    ensures fault { (result ≡ fault cause.Memory) ⊎ (result ≡ fault cause.WrongWords) }
{
    match reason {
        ErrorKind::OutOfMemory => Fault::of(Cause::Memory),
        _ => Fault::of(Cause::WrongWords),
    }
}

/// The task that the words name; the program's own name comes first. The fault is `Cause::WrongWords` if they name no
/// command, or a word is not the number or the day that its place needs. Otherwise it is out of memory.
pub fn line<'a>(alloc: Global, words: &'a [String]) -> Result<asked::Line<'a>, Fault>
    ensures line { IfOk result (IsLine (map string_bytes words.now)) }
    ensures wrong { result ≡ Err (fault cause.WrongWords)
        → (asked : Line) → ¬ (IsLine (map string_bytes words.now) asked) }
    // Words that do not begin with a hyphen are read unchanged.
    ensures plain { (asked : Line) → SpellsLine (map string_bytes words.now) asked
        → result ≢ Err (fault cause.WrongWords) }
    ensures same { (asked : Line) → SpellsLine (map string_bytes words.now) asked → IfOk result (IsSameLine asked) }
    ensures fault { IfErr result (λ error. (error ≡ fault cause.Memory) ⊎ (error ≡ fault cause.WrongWords)) }
{
    match matches_in(alloc, words) {
        Ok(matches) => match found_line(&matches) {
            Some(asked) => Ok(asked),
            None => Err(Fault::of(Cause::WrongWords)),
        },
        Err(error) => Err(refusal_of(error.kind())),
    }
}
