//! Scripts of messages, played on a site. Each message is read as its sender's request, done by
//! steps of the central system, and answered. After a point's messages, the calls that wait for it
//! go out. A replay writes the output of its script.
#![tactic(auto)]

mod player;
mod progress;
mod script;
mod script_laws;

pub use player::held::Held;
pub use progress::Progress;
pub use script::input::{InputFault, read_all};
pub use script::line::{LONGEST_FRAME, ScriptLine, ScriptLineFault, read_line};
pub use script::lines::split_line;
pub use script::played_line::{LineOutcome, PlayedLine};
pub use script::playing::{Playing, play_quietly};
pub use script::point_change::PointChange;
pub use script::printed_line::{PrintedLine, print_lines};
pub use script::run::{MAX_SCRIPT_BYTES, ReplayFault, Summary, replay};
pub use script_laws::scripts_are_runs;
