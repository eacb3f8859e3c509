//! The command line, by clap's own definition of how words are read.

ghost use Rattle.std.specs.Prelude.{◌≡◌, IfOk, IfSome, IsSomeAnd, codes, map, option_map, string_bytes};
ghost use Rattle.clap.specs.Words.{FailsBy, all_of, app_of, first_of, found_of, rows_of, subcommand_rows_of};
ghost use Rattle.command_line.specs.CommandLine.{IsAsking, IsFlag, IsJob, IsNumber, IsOptionalNumber, IsSource, IsStarting, central_app, has_two_scripts, line_faults, script_faults, subcommand_named};

use crate::commands::central_command;
use crate::help_text::TWO_SCRIPTS;
use clap::error::ErrorKind;
use clap::{ArgMatches, Command, Error};
use jobs::{
    Asking, Calling, Checking, Explaining, Job, KeyMaking, Pointing, Replaying, Running, Serving,
    Showing, Source, Starting,
};
use std::alloc::{AllocError, Global};
/// The defaults of `--seats` and `--workers`.
const SEATS: u64 = 256;

const WORKERS: u64 = 2;

/// The default number of seconds that a call waits for its reply.
const CALL_TIMEOUT: u64 = 60;

/// Returns the job of a command line, whose first word is the program's name.
pub fn job_of<'a>(alloc: Global, words: &'a [String]) -> Result<Job<'a>, Error>
    ensures job { IfOk result (λ job. IsSomeAnd (subcommand_named (map string_bytes words.now))
        (λ named. IsJob named.0 named.1 job)) }
    ensures faults { FailsBy (line_faults (map string_bytes words.now)) result }
{
    let mut command = central_command(alloc)?;
    job_of_words(&mut command, words)
}

/// Returns the job of a command line by the program's commands.
fn job_of_words<'a>(command: &mut Command<'a>, words: &'a [String]) -> Result<Job<'a>, Error>
    requires { app_of command.old ≡ central_app }
    ensures job { IfOk result (λ job. IsSomeAnd (subcommand_named (map string_bytes words.now))
        (λ named. IsJob named.0 named.1 job)) }
    ensures faults { FailsBy (line_faults (map string_bytes words.now)) result }
{
    let matches = command.try_get_matches_from_mut(words)?;
    job_of_matches(command, &matches)
}

/// Returns the job of a command line that clap has read.
fn job_of_matches<'a>(command: &mut Command<'a>, matches: &ArgMatches<'a>) -> Result<Job<'a>, Error>
    ensures job { IfOk result (λ job. IsSomeAnd (subcommand_rows_of matches.now)
        (λ named. IsJob named.0 named.1 job)) }
    ensures faults { FailsBy (script_faults (subcommand_rows_of matches.now)) result }
{
    // The command requires a subcommand, so this error never occurs.
    let Some((name, given)) = matches.subcommand() else {
        return Err(Error::from(AllocError));
    };
    // This rule isn't part of the definition that clap reads words by.
    if has_two_scripts(given) {
        return Err(command.error(ErrorKind::ArgumentConflict, TWO_SCRIPTS)?);
    }
    // clap has checked that the required options are there, and that numbers are in range.
    let Some(job) = job_named(name, given) else {
        return Err(Error::from(AllocError));
    };
    Ok(job)
}

/// Returns the job of a subcommand of the command line with its options.
fn job_named<'a>(name: &str, given: &ArgMatches<'a>) -> Option<Job<'a>>
    ensures { IfSome result (λ job. IsJob name.now (rows_of (found_of given.now)) job) }
{
    match name {
        "serve" => serving_of(given),
        "run" => running_of(given),
        "key" => key_making_of(given),
        "call" => calling_of(given),
        "point" => pointing_of(given),
        "replay" => replaying_of(given),
        "explain" => explaining_of(given),
        "check" => checking_of(given),
        "show" => showing_of(given),
        "status" => status_of(given),
        "journal" => journal_of(given),
        _ => None,
    }
}

/// Returns the job of `serve` with the options on the command line.
fn serving_of<'a>(given: &ArgMatches<'a>) -> Option<Job<'a>>
    ensures { IfSome result (λ job. IsJob (codes "serve") (rows_of (found_of given.now)) job) }
{
    let (Some(site), Some(listen)) = (text_of(given, "site"), text_of(given, "listen")) else {
        return None;
    };
    let (Some(workers), Some(sessions)) = (
        number_of(given, "workers"),
        number_of(given, "sessions"),
    ) else {
        return None;
    };
    // clap checks the ranges, too, but the contract of `number_of` has no bounds.
    if workers < 1 || sessions < 1 {
        return None;
    }
    Some(Job::Serve(Serving {
        site,
        listen,
        workers,
        sessions,
    }))
}

/// Returns the job of `replay` with the options on the command line.
fn replaying_of<'a>(given: &ArgMatches<'a>) -> Option<Job<'a>>
    ensures { IfSome result (λ job. IsJob (codes "replay") (rows_of (found_of given.now)) job) }
{
    let (Some(site), Some(source)) = (text_of(given, "site"), source_of(given)) else {
        return None;
    };
    Some(Job::Replay(Replaying { site, source }))
}

/// Returns the job of `run` with the options on the command line, and the defaults of those that
/// aren't given.
fn running_of<'a>(given: &ArgMatches<'a>) -> Option<Job<'a>>
    ensures { IfSome result (λ job. IsJob (codes "run") (rows_of (found_of given.now)) job) }
{
    let (Some(site), Some(folder), Some(listen)) = (
        text_of(given, "site"),
        text_of(given, "data"),
        text_of(given, "listen"),
    ) else {
        return None;
    };
    let seats = optional_number_of(given, "seats").unwrap_or(SEATS);
    let workers = optional_number_of(given, "workers").unwrap_or(WORKERS);
    let call_timeout = optional_number_of(given, "call-timeout").unwrap_or(CALL_TIMEOUT);
    let keys = text_of(given, "keys");
    let status = text_of(given, "status");
    let is_status_open = is_given(given, "status-open");
    // Shown here, since running a site requires at least one seat and one worker.
    if seats < 1 || workers < 1 {
        return None;
    }
    Some(Job::Run(Running {
        site,
        folder,
        listen,
        seats,
        workers,
        call_timeout,
        keys,
        status,
        is_status_open,
        after_boot: text_of(given, "after-boot"),
    }))
}

/// Returns the job of `key` with the options on the command line.
fn key_making_of<'a>(given: &ArgMatches<'a>) -> Option<Job<'a>>
    ensures { IfSome result (λ job. IsJob (codes "key") (rows_of (found_of given.now)) job) }
{
    let name = text_of(given, "name")?;
    let is_operator = is_given(given, "operator");
    Some(Job::Key(KeyMaking { name, is_operator }))
}

/// Returns the job of `call` with the options on the command line.
fn calling_of<'a>(given: &ArgMatches<'a>) -> Option<Job<'a>>
    ensures { IfSome result (λ job. IsJob (codes "call") (rows_of (found_of given.now)) job) }
{
    let (Some(url), Some(remote_start), Some(ask), Some(audit)) = (
        text_of(given, "url"),
        starting_of(given),
        asking_of(given, "ask"),
        asking_of(given, "audit"),
    ) else {
        return None;
    };
    let login = text_of(given, "login");
    let all = is_given(given, "all");
    let site = text_of(given, "site");
    let folder = text_of(given, "data");
    let set_profile = text_of(given, "set-profile");
    let clear = text_of(given, "clear");
    let status = is_given(given, "status");
    let undo = optional_number_of(given, "undo");
    let wait = optional_number_of(given, "wait");
    let force = is_given(given, "force");
    let dry_run = is_given(given, "dry-run");
    Some(Job::Call(Calling {
        url,
        login,
        all,
        site,
        folder,
        set_profile,
        clear,
        remote_start,
        ask,
        audit,
        status,
        undo,
        wait,
        force,
        dry_run,
    }))
}

/// Returns the remote start that `--remote-start` of `call` on the command line requests, if it is
/// given. None if it has neither two nor three values.
fn starting_of<'a>(given: &ArgMatches<'a>) -> Option<Option<Starting<'a>>>
    ensures { IfSome result (λ starting.
        IsStarting (all_of (codes "remote-start") (rows_of (found_of given.now))) starting) }
{
    match texts_of(given, "remote-start") {
        Some(&[connector, id_tag]) => Some(Some(Starting {
            connector,
            id_tag,
            profile: None,
        })),
        Some(&[connector, id_tag, profile]) => Some(Some(Starting {
            connector,
            id_tag,
            profile: Some(profile),
        })),
        Some(_) => None,
        None => Some(None),
    }
}

/// Returns the connector and the seconds of `--ask` or `--audit` of `call` on the command line, if
/// the option is given. None if it doesn't have two values.
fn asking_of<'a>(given: &ArgMatches<'a>, option: &str) -> Option<Option<Asking<'a>>>
    ensures { IfSome result
        (λ asking. IsAsking (all_of option.now (rows_of (found_of given.now))) asking) }
{
    match texts_of(given, option) {
        Some(&[connector, seconds]) => Some(Some(Asking { connector, seconds })),
        Some(_) => None,
        None => Some(None),
    }
}

/// Returns the job of `point` with the options on the command line.
fn pointing_of<'a>(given: &ArgMatches<'a>) -> Option<Job<'a>>
    ensures { IfSome result (λ job. IsJob (codes "point") (rows_of (found_of given.now)) job) }
{
    let (Some(url), Some(site), Some(id)) = (
        text_of(given, "url"),
        text_of(given, "site"),
        text_of(given, "id"),
    ) else {
        return None;
    };
    let login = text_of(given, "login");
    Some(Job::Point(Pointing {
        url,
        site,
        id,
        login,
    }))
}

/// Returns the job of `explain` with the options on the command line.
fn explaining_of<'a>(given: &ArgMatches<'a>) -> Option<Job<'a>>
    ensures { IfSome result (λ job. IsJob (codes "explain") (rows_of (found_of given.now)) job) }
{
    let (Some(site), Some(point), Some(connector), Some(start), Some(duration), Some(source)) = (
        text_of(given, "site"),
        text_of(given, "point"),
        number_of(given, "connector"),
        text_of(given, "start"),
        text_of(given, "duration"),
        source_of(given),
    ) else {
        return None;
    };
    let at = text_of(given, "at");
    let zone = text_of(given, "zone");
    let picture = text_of(given, "picture");
    let json = is_given(given, "json");
    Some(Job::Explain(Explaining {
        site,
        point,
        connector,
        start,
        duration,
        source,
        at,
        zone,
        picture,
        json,
    }))
}

/// Returns the job of `check` with the options on the command line.
fn checking_of<'a>(given: &ArgMatches<'a>) -> Option<Job<'a>>
    ensures { IfSome result (λ job. IsJob (codes "check") (rows_of (found_of given.now)) job) }
{
    let (Some(site), Some(source)) = (text_of(given, "site"), source_of(given)) else {
        return None;
    };
    let keys = text_of(given, "keys");
    let trace = is_given(given, "trace");
    Some(Job::Check(Checking {
        site,
        keys,
        source,
        trace,
    }))
}

/// Returns the job of `show` with the options on the command line.
fn showing_of<'a>(given: &ArgMatches<'a>) -> Option<Job<'a>>
    ensures { IfSome result (λ job. IsJob (codes "show") (rows_of (found_of given.now)) job) }
{
    let (Some(site), Some(source)) = (text_of(given, "site"), source_of(given)) else {
        return None;
    };
    let json = is_given(given, "json");
    Some(Job::Show(Showing {
        site,
        source,
        at: text_of(given, "at"),
        json,
    }))
}

/// Returns the job of `status` with the options on the command line.
fn status_of<'a>(given: &ArgMatches<'a>) -> Option<Job<'a>>
    ensures { IfSome result (λ job. IsJob (codes "status") (rows_of (found_of given.now)) job) }
{
    let url = text_of(given, "url")?;
    Some(Job::Status { url })
}

/// Returns the job of `journal` with the options on the command line.
fn journal_of<'a>(given: &ArgMatches<'a>) -> Option<Job<'a>>
    ensures { IfSome result (λ job. IsJob (codes "journal") (rows_of (found_of given.now)) job) }
{
    let folder = text_of(given, "data")?;
    Some(Job::Journal { folder })
}

/// Returns the source that the command line names for the script of `replay`, `check`, `show` or
/// `explain`: `--data`, `--script` or else standard input. None if both options are given.
fn source_of<'a>(given: &ArgMatches<'a>) -> Option<Source<'a>>
    ensures { IfSome result (λ source. IsSource (rows_of (found_of given.now)) source) }
{
    match (text_of(given, "data"), text_of(given, "script")) {
        (None, None) => Some(Source::Input),
        (None, Some(file)) => Some(Source::File(file)),
        (Some(folder), None) => Some(Source::Journal(folder)),
        // `job_of` has refused two scripts before this.
        (Some(_), Some(_)) => None,
    }
}

/// Returns whether the command line gives `replay`, `check`, `show` or `explain` two scripts, by
/// both `--data` and `--script`.
fn has_two_scripts(given: &ArgMatches<'_>) -> bool
    ensures { result ≡ has_two_scripts (rows_of (found_of given.now)) }
{
    text_of(given, "data").is_some() && text_of(given, "script").is_some()
}

/// Returns the value of an option as clap read it from the command line, if it is given.
fn text_of<'a>(given: &ArgMatches<'a>, option: &str) -> Option<&'a str>
    ensures { option_map (λ text. text.now) result
        ≡ first_of option.now (rows_of (found_of given.now)) }
{
    given.get_str(option)
}

/// Returns the values of an option as clap read them from the command line, if it is given.
fn texts_of<'b, 'a>(given: &'b ArgMatches<'a>, option: &str) -> Option<&'b [&'a str]>
    ensures { option_map (λ texts. map (λ text. text.now) texts.now) result
        ≡ all_of option.now (rows_of (found_of given.now)) }
{
    given.get_raw(option)
}

/// Returns the whole number that is the value of an option, as clap read it from the command line.
fn number_of(given: &ArgMatches<'_>, option: &str) -> Option<u64>
    ensures { IfSome result
        (λ number. IsNumber option.now (rows_of (found_of given.now)) number) }
{
    given.get_one(option)
}

/// Returns the whole number that is the value of an option, as clap read it from the command line,
/// if it is given.
fn optional_number_of(given: &ArgMatches<'_>, option: &str) -> Option<u64>
    ensures { IsOptionalNumber option.now (rows_of (found_of given.now)) result }
{
    given.get_one(option)
}

/// Returns whether an option without a value is given on the command line.
fn is_given(given: &ArgMatches<'_>, option: &str) -> bool
    ensures { IsFlag option.now (rows_of (found_of given.now)) result }
{
    given.get_flag(option)
}
