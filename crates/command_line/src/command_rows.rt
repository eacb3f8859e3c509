//! The program's commands and their options, with their help.

ghost use Rattle.std.specs.Prelude.{◌≡◌, map};
ghost use Rattle.command_line.specs.CommandLine.{call_command, check_command, explain_command, journal_command, key_command, point_command, replay_command, run_command, serve_command, show_command, status_command};
ghost use Rattle.command_line.specs.CommandRows.{app_of_row, central_commands};

use crate::help_text::{
    AFTER_BOOT_HELP, ALL_HELP, ALL_SITE_HELP, ASK_HELP, AT_HELP, AUDIT_HELP, CALL_ABOUT,
    CALL_DATA_HELP, CALL_NOTES, CALL_TIMEOUT_HELP, CHECK_ABOUT, CHECK_KEYS_HELP, CHECK_NOTES,
    CLEAR_HELP, CONNECTOR_HELP, DATA_HELP, DRY_RUN_HELP, DURATION_HELP, EXPLAIN_ABOUT,
    EXPLAIN_NOTES, FORCE_HELP, ID_HELP, JOURNAL_ABOUT, JOURNAL_DATA_HELP, JOURNAL_NOTES, JSON_HELP,
    KEY_ABOUT, KEY_NAME_HELP, KEY_NOTES, KEY_OPERATOR_HELP, KEYS_HELP, LISTEN_HELP, LOGIN_HELP,
    OPERATOR_URL_HELP, PICTURE_HELP, POINT_ABOUT, POINT_HELP, POINT_NOTES, POINT_URL_HELP,
    REMOTE_START_HELP, REPLAY_ABOUT, REPLAY_EXAMPLE, RUN_ABOUT, RUN_DATA_HELP, RUN_NOTES,
    RUN_STATUS_HELP, RUN_WORKERS_HELP, SCRIPT_HELP, SEATS_HELP, SERVE_ABOUT, SERVE_NOTES,
    SESSIONS_HELP, SET_PROFILE_HELP, SHOW_ABOUT, SHOW_NOTES, SITE_HELP, START_HELP, STATUS_ABOUT,
    STATUS_HELP, STATUS_NOTES, STATUS_OPEN_HELP, STATUS_URL_HELP, TRACE_HELP, UNDO_HELP, WAIT_HELP,
    WORKERS_HELP, ZONE_HELP,
};
use crate::option_row::CommandRow;
use crate::option_row::OptionRow::{
    Asking, Flag, Needed, NeededNumber, Number, Optional, Starting,
};
use jobs::{
    MAX_CALL_TIMEOUT, MAX_CONNECTORS, MAX_LINE, MAX_SEATS, MAX_SESSIONS, MAX_WAIT, MAX_WORKERS,
};

/// Returns the definitions of the program's commands, in the order of its help.
pub(crate) fn command_rows() -> [CommandRow; 11]
    ensures { map app_of_row result ≡ central_commands }
{
    [
        run(),
        status(),
        key(),
        serve(),
        call(),
        point(),
        journal(),
        replay(),
        explain(),
        check(),
        show(),
    ]
}

/// Returns the definition of the command `run`, with its options and their help: `run --site F
/// --data DIR --listen A [--keys FILE] [--seats N] [--workers N] [--call-timeout SECONDS]
/// [--status B] [--status-open] [--after-boot nothing]`.
fn run() -> CommandRow
    ensures { app_of_row result ≡ run_command }
{
    CommandRow {
        name: "run",
        about: RUN_ABOUT,
        notes: RUN_NOTES,
        options: &[
            Needed("site", "F", SITE_HELP),
            Needed("data", "DIR", RUN_DATA_HELP),
            Needed("listen", "A", LISTEN_HELP),
            Optional("keys", "FILE", KEYS_HELP),
            Number("seats", "N", SEATS_HELP, 1, MAX_SEATS),
            Number("workers", "N", RUN_WORKERS_HELP, 1, MAX_WORKERS),
            Number(
                "call-timeout",
                "SECONDS",
                CALL_TIMEOUT_HELP,
                1,
                MAX_CALL_TIMEOUT,
            ),
            Optional("status", "B", RUN_STATUS_HELP),
            Flag("status-open", STATUS_OPEN_HELP),
            Optional("after-boot", "nothing", AFTER_BOOT_HELP),
        ],
    }
}

/// Returns the definition of the command `status`, with its options and their help: `status
/// --url U`.
fn status() -> CommandRow
    ensures { app_of_row result ≡ status_command }
{
    CommandRow {
        name: "status",
        about: STATUS_ABOUT,
        notes: STATUS_NOTES,
        options: &[Needed("url", "U", STATUS_URL_HELP)],
    }
}

/// Returns the definition of the command `key`, with its options and their help: `key --name NAME
/// [--operator]`.
fn key() -> CommandRow
    ensures { app_of_row result ≡ key_command }
{
    CommandRow {
        name: "key",
        about: KEY_ABOUT,
        notes: KEY_NOTES,
        options: &[
            Needed("name", "NAME", KEY_NAME_HELP),
            Flag("operator", KEY_OPERATOR_HELP),
        ],
    }
}

/// Returns the definition of the command `serve`, with its options and their help: `serve --site F
/// --listen A --workers N --sessions K`.
fn serve() -> CommandRow
    ensures { app_of_row result ≡ serve_command }
{
    CommandRow {
        name: "serve",
        about: SERVE_ABOUT,
        notes: SERVE_NOTES,
        options: &[
            Needed("site", "F", SITE_HELP),
            Needed("listen", "A", LISTEN_HELP),
            NeededNumber("workers", "N", WORKERS_HELP, 1, MAX_WORKERS),
            NeededNumber("sessions", "K", SESSIONS_HELP, 1, MAX_SESSIONS),
        ],
    }
}

/// Returns the definition of the command `call`, with its options and their help: `call --url U
/// [--login FILE] [--all] [--site F] [--data DIR] [--set-profile FILE] [--clear CRITERIA]
/// [--remote-start CONNECTOR TAG [FILE]] [--ask CONNECTOR SECONDS] [--audit CONNECTOR SECONDS]
/// [--status] [--undo LINE] [--wait SECONDS] [--force] [--dry-run]`.
fn call() -> CommandRow
    ensures { app_of_row result ≡ call_command }
{
    CommandRow {
        name: "call",
        about: CALL_ABOUT,
        notes: CALL_NOTES,
        options: &[
            Needed("url", "U", OPERATOR_URL_HELP),
            Optional("login", "FILE", LOGIN_HELP),
            Flag("all", ALL_HELP),
            Optional("site", "F", ALL_SITE_HELP),
            Optional("data", "DIR", CALL_DATA_HELP),
            Optional("set-profile", "FILE", SET_PROFILE_HELP),
            Optional("clear", "CRITERIA", CLEAR_HELP),
            Starting("remote-start", REMOTE_START_HELP),
            Asking("ask", ASK_HELP),
            Asking("audit", AUDIT_HELP),
            Flag("status", STATUS_HELP),
            Number("undo", "LINE", UNDO_HELP, 1, MAX_LINE),
            Number("wait", "SECONDS", WAIT_HELP, 1, MAX_WAIT),
            Flag("force", FORCE_HELP),
            Flag("dry-run", DRY_RUN_HELP),
        ],
    }
}

/// Returns the definition of the command `point`, with its options and their help: `point --url U
/// --site F --id ID [--login FILE]`.
fn point() -> CommandRow
    ensures { app_of_row result ≡ point_command }
{
    CommandRow {
        name: "point",
        about: POINT_ABOUT,
        notes: POINT_NOTES,
        options: &[
            Needed("url", "U", POINT_URL_HELP),
            Needed("site", "F", SITE_HELP),
            Needed("id", "ID", ID_HELP),
            Optional("login", "FILE", LOGIN_HELP),
        ],
    }
}

/// Returns the definition of the command `journal`, with its options and their help: `journal
/// --data DIR`.
fn journal() -> CommandRow
    ensures { app_of_row result ≡ journal_command }
{
    CommandRow {
        name: "journal",
        about: JOURNAL_ABOUT,
        notes: JOURNAL_NOTES,
        options: &[Needed("data", "DIR", JOURNAL_DATA_HELP)],
    }
}

/// Returns the definition of the command `replay`, with its options and their help: `replay
/// --site F [--data DIR | --script FILE]`.
fn replay() -> CommandRow
    ensures { app_of_row result ≡ replay_command }
{
    CommandRow {
        name: "replay",
        about: REPLAY_ABOUT,
        notes: REPLAY_EXAMPLE,
        options: &[
            Needed("site", "F", SITE_HELP),
            Optional("data", "DIR", DATA_HELP),
            Optional("script", "FILE", SCRIPT_HELP),
        ],
    }
}

/// Returns the definition of the command `explain`, with its options and their help: `explain
/// --site F --point ID --connector C --start INSTANT --duration D [--data DIR | --script FILE]
/// [--at PLACE] [--zone NAME] [--picture FILE] [--json]`.
fn explain() -> CommandRow
    ensures { app_of_row result ≡ explain_command }
{
    CommandRow {
        name: "explain",
        about: EXPLAIN_ABOUT,
        notes: EXPLAIN_NOTES,
        options: &[
            Needed("site", "F", SITE_HELP),
            Needed("point", "ID", POINT_HELP),
            NeededNumber("connector", "C", CONNECTOR_HELP, 0, MAX_CONNECTORS),
            Needed("start", "INSTANT", START_HELP),
            Needed("duration", "D", DURATION_HELP),
            Optional("data", "DIR", DATA_HELP),
            Optional("script", "FILE", SCRIPT_HELP),
            Optional("at", "PLACE", AT_HELP),
            Optional("zone", "NAME", ZONE_HELP),
            Optional("picture", "FILE", PICTURE_HELP),
            Flag("json", JSON_HELP),
        ],
    }
}

/// Returns the definition of the command `check`, with its options and their help: `check --site F
/// [--keys FILE] [--data DIR | --script FILE] [--trace]`.
fn check() -> CommandRow
    ensures { app_of_row result ≡ check_command }
{
    CommandRow {
        name: "check",
        about: CHECK_ABOUT,
        notes: CHECK_NOTES,
        options: &[
            Needed("site", "F", SITE_HELP),
            Optional("keys", "FILE", CHECK_KEYS_HELP),
            Optional("data", "DIR", DATA_HELP),
            Optional("script", "FILE", SCRIPT_HELP),
            Flag("trace", TRACE_HELP),
        ],
    }
}

/// Returns the definition of the command `show`, with its options and their help: `show --site F
/// [--data DIR | --script FILE] [--at PLACE] [--json]`.
fn show() -> CommandRow
    ensures { app_of_row result ≡ show_command }
{
    CommandRow {
        name: "show",
        about: SHOW_ABOUT,
        notes: SHOW_NOTES,
        options: &[
            Needed("site", "F", SITE_HELP),
            Optional("data", "DIR", DATA_HELP),
            Optional("script", "FILE", SCRIPT_HELP),
            Optional("at", "PLACE", AT_HELP),
            Flag("json", JSON_HELP),
        ],
    }
}
