//! The texts of the help.

/// Printed by `central --version` after the name: the version, and the kit that proves it.
pub const VERSION: &str = "0.1.0\nproved in the logic dac8208d650f15bf of rattle-kit-13";

/// The program's description.
pub const ABOUT: &str =
    "A central system for OCPP 1.6 smart charging: it installs charging profiles, composes the
schedules that they mean, and answers operators and charge points, over WebSocket or from
a script.";

/// The program's exit statuses.
pub const STATUSES: &str = "Exit statuses:
  0  success: the whole script was played without a faulty line, or all sessions have ended
  1  invalid input: the site file ('central: site: NAME' on standard error), a line of the journal of
     --data ('central: journal: line LINE: ..') or a line of the file of --keys
     ('central: keys: line LINE: ..')
  2  the whole script was played, but lines are faulty ('! LINE NAME' in the output); 'show' and 'explain':
     lines were refused, or the journal's last line is torn;
     or the script has more than 16,777,216 bytes: 'central: script: ScriptTooLong'
  3  I/O failed: a file or device ('central: device: read', 'central: device: write'), or listening at the
     address or accepting a connection ('central: device: socket'); or out of memory
     ('central: OutOfMemory')
  4  usage error, or another process runs on the folder of --data";

/// The description of `key`.
pub const KEY_ABOUT: &str = "Generate a key for a charge point or an operator";

/// Help of `--name`.
pub const KEY_NAME_HELP: &str = "Identity of the charge point, or the operator's name";

/// Help of `--operator`.
pub const KEY_OPERATOR_HELP: &str =
    "Make an operator's key, which opens /operator/ID for every point";

/// Notes on `key`, with examples.
pub const KEY_NOTES: &str =
    "Prints a line with a salt and a digest for the file of 'central run --keys'. The key itself is shown once,
on standard error, as NAME:KEY (40 hex digits). A charge point stores it as its AuthorizationKey; an
operator's client uses it as its password (HTTP Basic). A user may have several lines: each key opens.

Example:
  central key --name CP1 >> site.keys

The exit statuses are those of 'central --help'.";

/// The description of `replay`.
pub const REPLAY_ABOUT: &str = "Play a script of messages on a site, and print the answers";

/// Help of `--site`.
pub const SITE_HELP: &str = "Site description, a JSON file";

/// The description of `serve`.
pub const SERVE_ABOUT: &str =
    "Serve a site over WebSocket for a number of connections, in memory only";

/// Help of `--listen`.
pub const LISTEN_HELP: &str = "Listen address: an IP address or host name, and a port";

/// Help of `--workers`.
pub const WORKERS_HELP: &str = "Threads that compile schedules, 1 to 8";

/// Help of `--sessions`.
pub const SESSIONS_HELP: &str = "Exit after this number of connections, 1 to 64";

/// Notes on `serve`, with an example.
pub const SERVE_NOTES: &str = "F is a site file; 'central replay --help' shows one. Prints
  listening A                    once clients may connect
  done changes V answers W       at the end: the number of changes and of schedules answered
Each client offers the subprotocol ocpp1.6 at one of these paths:
  /ID                            the charge point ID (also /ocpp/ID and the like)
  /operator/ID                   an operator of the charge point ID
Any other client is closed at once, and counts as a connection. There is no encryption and no password:
listen at the loopback address, behind a proxy that has both.

All state is in memory: a restart begins empty. Use 'central run' for a site that persists.

Example:
  central serve --site site.json --listen 127.0.0.1:9000 --workers 2 --sessions 64

The exit statuses are those of 'central --help'.";

/// The description of `run`.
pub const RUN_ABOUT: &str = "Run a site over WebSocket, and resume it after a restart";

/// Help of `--data` of `run`.
pub const RUN_DATA_HELP: &str = "Folder that keeps the state of the site; created if missing";

/// Help of `--seats`.
pub const SEATS_HELP: &str = "Maximum concurrent connections, 1 to 1000 [default: 256]";

/// Help of `--workers` of `run`.
pub const RUN_WORKERS_HELP: &str = "Threads that compile schedules, 1 to 8 [default: 2]";

/// Help of `--keys`.
pub const KEYS_HELP: &str =
    "File of keys, made by 'central key'; without it, A has to be a loopback address";

/// Help of `--call-timeout`.
pub const CALL_TIMEOUT_HELP: &str =
    "Close a point's connection if it doesn't answer a call within SECONDS [default: 60]";

/// Help of `--status` of `run`.
pub const RUN_STATUS_HELP: &str =
    "Status port address. No authentication: anyone who can reach it can read it";

/// Help of `--status-open`.
pub const STATUS_OPEN_HELP: &str = "Allow a status port address beyond loopback";

/// Help of `--after-boot`.
pub const AFTER_BOOT_HELP: &str =
    "With 'nothing', don't send a point its profiles again after it has booted";

/// Notes on `run`, with examples.
pub const RUN_NOTES: &str = "F is a site file; 'central replay --help' shows one. Prints
  resumed P points, R profiles, T transactions, C calls waiting
  listening A                    once clients may connect
Clients connect as to 'central serve', any number one after another; above N at a time, one gets HTTP 503.
If a point connects again, its older connection is closed.

DIR/journal has a line for each change, written and synced before the change is acknowledged. A restart
replays these lines; each has to draw the number that it drew before. A torn last line was never
acknowledged, and is cut. With another site file, the first line that doesn't fit is named. Only one
process runs on a folder. While the device is full, changes are answered InternalError. If the journal
can't be written for another reason, the program exits with status 3. It may be killed at any moment.

Example:
  central run --site site.json --data /var/lib/central --listen 127.0.0.1:9000

The exit statuses are those of 'central --help'.";

/// The description of `status`.
pub const STATUS_ABOUT: &str = "Show the state of a running site, from its status port";

/// Help of `--url` of `status`.
pub const STATUS_URL_HELP: &str = "Status port, http://HOST:PORT";

/// Notes on `status`, with examples.
pub const STATUS_NOTES: &str =
    "Prints a line for each point: connected since, time of the last message and of the last
BootNotification, confirmed calls, in flight since, calls waiting, since when the first one waits, and the
last rejected call. Below, it names points that may have forgotten their profiles.

Example:
  central status --url http://127.0.0.1:9100

Exit statuses: 0 healthy; 2 unhealthy or being restored; 3 no status port of 'central run --status' answers
there, or out of memory; 4 usage error.";

/// The description of `journal`.
pub const JOURNAL_ABOUT: &str = "Print the journal of a site as a script";

/// Help of `--data` of `journal`.
pub const JOURNAL_DATA_HELP: &str = "Folder of 'central run'";

/// Help of `--data` of the commands that read a script.
pub const DATA_HELP: &str =
    "Read the journal of this folder of 'central run' instead of standard input";

/// Help of `--script`.
pub const SCRIPT_HELP: &str = "Read the script from this file instead of standard input";

/// The error if both are given.
pub const TWO_SCRIPTS: &str = "the argument '--data <DIR>' cannot be used with '--script <FILE>'";

/// Notes on `journal`, with examples.
pub const JOURNAL_NOTES: &str =
    "Prints a script for 'central replay': the messages that changed something, in the order in which they took
effect. It works while the site runs.

Example:
  central journal --data /var/lib/central

The exit statuses are those of 'central --help'.";

/// The description of `call`.
pub const CALL_ABOUT: &str =
    "An operator's client: send calls to a central system, and print the answers";

/// Help of `--url` of `call`.
pub const OPERATOR_URL_HELP: &str =
    "Operator URL, ws://HOST:PORT/operator/ID; with --all without /ID";

/// Help of `--login`.
pub const LOGIN_HELP: &str = "File with NAME:KEY, for a central system with passwords (HTTP Basic)";

/// Help of `--set-profile`.
pub const SET_PROFILE_HELP: &str = "Send SetChargingProfile with the payload in this file";

/// Help of `--clear`.
pub const CLEAR_HELP: &str =
    "Send ClearChargingProfile with this payload; {} clears everything, fuse limits included";

/// Value names of `--remote-start`.
pub static START_VALUES: [&str; 3] = ["CONNECTOR", "TAG", "FILE"];

/// Help of `--remote-start`.
pub const REMOTE_START_HELP: &str =
    "Send RemoteStartTransaction, with the TxProfile in FILE if given";

/// Value names of `--ask` and of `--audit`.
pub static ASK_VALUES: [&str; 2] = ["CONNECTOR", "SECONDS"];

/// Help of `--ask`.
pub const ASK_HELP: &str = "Send GetCompositeSchedule; connector 0 is the whole point";

/// Help of `--audit`.
pub const AUDIT_HELP: &str = "Send AuditPoint: compare the point's own schedule with its profiles";

/// Help of `--status`.
pub const STATUS_HELP: &str = "Send PointStatus: the verdict of the last audit";

/// Help of `--all`.
pub const ALL_HELP: &str =
    "Send the calls to each point of the site, at U/ID; each output line begins with the point";

/// Help of `--site` of `call`.
pub const ALL_SITE_HELP: &str = "Site description of --all and --data, a JSON file";

/// Help of `--data` of `call`.
pub const CALL_DATA_HELP: &str =
    "Folder of 'central run' on this machine: check calls by the point's state";

/// Help of `--undo`.
pub const UNDO_HELP: &str =
    "Restore the profiles that the point had before this line of the journal";

/// Help of `--wait`.
pub const WAIT_HELP: &str =
    "With --data: wait for the points' replies, and report what they rejected";

/// Help of `--force`.
pub const FORCE_HELP: &str = "Send faulty calls too";

/// Help of `--dry-run`.
pub const DRY_RUN_HELP: &str = "Send nothing; print what would be sent";

/// Notes on `call`, with examples.
pub const CALL_NOTES: &str =
    "Sends the calls of the options, in this order, or, without any, the lines of standard input, one OCPP-J frame
each. It waits for each answer, and prints every message until then. A line that is no CALL isn't sent
('! LINE NotACall'), nor is a call that would always be refused ('! LINE HasFault' or '! OPTION HasFault';
--force sends it). Standard error has the reason. With --data it prints the findings of 'check' for these calls
after the journal, and holds back those that the point would refuse.

Examples:
  central call --url ws://127.0.0.1:9000/operator/CP1 --ask 1 86400
  central call --url ws://127.0.0.1:9000/operator/CP1 --set-profile night.json --ask 0 3600
  central call --url ws://127.0.0.1:9000/operator/CP1 --clear '{\"id\":5}'
  central call --url ws://127.0.0.1:9000/operator/CP1 --remote-start 1 ANN slow.json
  central call --url ws://127.0.0.1:9000/operator/CP1 --audit 1 86400
  central call --url ws://127.0.0.1:9000/operator/CP1 --status
  central call --url ws://127.0.0.1:9000/operator --all --site site.json --set-profile night.json
where night.json is, say,
  {\"connectorId\":0,\"csChargingProfiles\":{\"chargingProfileId\":5,\"stackLevel\":0,
   \"chargingProfilePurpose\":\"TxDefaultProfile\",\"chargingProfileKind\":\"Recurring\",\"recurrencyKind\":\"Daily\",
   \"chargingSchedule\":{\"startSchedule\":\"2025-01-01T22:00:00Z\",\"duration\":28800,\"chargingRateUnit\":\"A\",
    \"chargingSchedulePeriod\":[{\"startPeriod\":0,\"limit\":10}]}}}
and slow.json a profile by itself:
  {\"chargingProfileId\":6,\"stackLevel\":0,\"chargingProfilePurpose\":\"TxProfile\",\"chargingProfileKind\":\"Relative\",
   \"chargingSchedule\":{\"chargingRateUnit\":\"A\",\"chargingSchedulePeriod\":[{\"startPeriod\":0,\"limit\":6}]}}

Exit statuses, the highest of several: 0 all accepted; 1 the site file is invalid; 2 an answer was an error or
Rejected, or something wasn't sent; 3 no OCPP 1.6 server listens there, the connection, a file or a device
failed, or out of memory; 4 usage error; 5 with --wait, a point rejected a call, or didn't reply in time.";

/// The description of `point`.
pub const POINT_ABOUT: &str = "A simulated charge point that does what its input lines say";

/// Help of `--url` of `point`.
pub const POINT_URL_HELP: &str = "URL of the central system, ws://HOST:PORT; /ID is added";

/// Help of `--id`.
pub const ID_HELP: &str = "Identity of the point, one of the site's";

/// Notes on `point`, with examples.
pub const POINT_NOTES: &str =
    "The point has the ceilings of the site file F. It does what the lines of standard input say:
  heartbeat                      send a Heartbeat
  start CONNECTOR TAG METER      send a StartTransaction, with meterStart in Wh
  stop CONNECTOR                 send the StopTransaction of the connector's transaction
  pause SECONDS                  wait, and answer calls meanwhile
and disconnects after the last one. It answers the central system's calls from its own profiles and
transactions; a requested start comes before its next line. The central system sends one call after each
message of the point, so it may take several messages to receive them all. Standard output has a line
  sent FRAME                     for each message sent
  got FRAME                      for each message received
  ! LINE NAME                    for each invalid line (BadLine, BadText), and for a step without a call
                                 (NoCall), such as a stop without a transaction

Example:
  central point --url ws://127.0.0.1:9000 --site site.json --id CP1

Exit statuses: 0 all done; 1 the site file is invalid; 2 lines are faulty; 3 no OCPP 1.6 server listens there,
the connection, a file or a device failed, or out of memory; 4 usage error, or unknown point.";

/// The description of `explain`.
pub const EXPLAIN_ABOUT: &str =
    "Explain the limits of a connector, and their causes, after a script";

/// Help of `--point`.
pub const POINT_HELP: &str = "Identity of the point, one of the site's";

/// Help of `--connector`.
pub const CONNECTOR_HELP: &str = "Connector number, or 0 for the whole point";

/// Help of `--start`.
pub const START_HELP: &str = "First moment, such as 2025-01-03T12:00:00Z or now";

/// Help of `--duration`.
pub const DURATION_HELP: &str = "Seconds, 1 to 2678400, or a duration such as 5m, 8h, 2d, PT1H";

/// Help of `--at`.
pub const AT_HELP: &str =
    "Stop after line N of the script or of 'central journal', or at this instant";

/// Help of `--zone`.
pub const ZONE_HELP: &str =
    "Show local times of this time zone in the table, such as Europe/Berlin [default: UTC]";

/// Help of `--picture`.
pub const PICTURE_HELP: &str = "Also write a picture: FILE.svg, or a page with it: FILE.html";

/// Help of `--json`.
pub const JSON_HELP: &str = "Print JSON";

/// Notes on `explain`, with examples.
pub const EXPLAIN_NOTES: &str =
    "The script is standard input, the file of --script (see 'central replay'), or the journal of --data; its
lines are played without output. Then each interval with one limit and one cause is a line: from, to, length,
limit, cause. Below are the profiles of the point that never set the limit in this time, with the reason.

Example:
  central explain --site site.json --point CP1 --connector 1 --start 2025-01-03T12:00:00Z --duration 86400 < script

The exit statuses are those of 'central --help'; 4 also for an unknown point or connector, or an invalid
INSTANT, D or zone NAME.";

/// The description of `check`.
pub const CHECK_ABOUT: &str = "Find mistakes in a site file and a script";

/// Help of `--keys` of `check`.
pub const CHECK_KEYS_HELP: &str =
    "Also check this file of keys: whom each line lets in, and points without a key";

/// Help of `--trace`.
pub const TRACE_HELP: &str = "Show the answer to each line of the script";

/// Notes on `check`, with examples.
pub const CHECK_NOTES: &str =
    "The script is standard input, the file of --script (see 'central replay'), or the journal of --data; use
/dev/null for none. Each finding is a line: where, what was found, what is expected.

Examples:
  central check --site site.json < script
  central check --site site.json --keys site.keys < /dev/null

Exit statuses: 0 no findings; 1 faults; 2 only warnings; 3 a file or device failed, or out of memory;
4 usage error.";

/// The description of `show`.
pub const SHOW_ABOUT: &str = "Show the state of each point of a site after a script";

/// Notes on `show`, with examples.
pub const SHOW_NOTES: &str =
    "The script is standard input, the file of --script (see 'central replay'), or the journal of --data; its
lines are played without output. Prints the profiles, transactions, audit, remote starts and queued calls of
each point, and the held requests.

Examples:
  central show --site site.json < script
  central show --site site.json --data /var/lib/central

The exit statuses are those of 'central --help'.";

/// Notes on `replay`, with an example.
pub const REPLAY_EXAMPLE: &str = "F is a JSON file that describes the site, for example
  {\"unit\":\"A\",\"points\":[{\"id\":\"CP1\",\"ceiling\":63.0,\"connectors\":[32.0,32.0]}]}

The script is standard input or the file of --script, one message a line:
  INSTANT operator ID FRAME    an operator's message for the point ID
  INSTANT point ID FRAME       a message of the point ID
  INSTANT hold ID FRAME        an operator's request for a schedule, with its answer held
  INSTANT release N            the answer to the held request N
INSTANT is the time of the message, FRAME an OCPP-J frame. Standard output has a line
  > FRAME                      for each answer
  * ID FRAME                   for each call sent to the point ID
  held N                       for each held request
  ! LINE NAME                  for each faulty line of the script

Example:
  central replay --site site.json < script
With the site above and the script
  2025-01-01T00:00:00Z point CP1 [2,\"1\",\"Heartbeat\",{}]
it prints
  > [3,\"1\",{\"currentTime\":\"2025-01-01T00:00:00Z\"}]
  * CP1 [2,\"0\",\"ClearChargingProfile\",{}]

The exit statuses are those of 'central --help'.";
