//! The state of a site by its journal, before calls are sent and after.

use journal_file::{FolderFault, ScriptEnd};
use journal_reader::{EventReader, FollowRequest, follow_journal};
use site_core::Machine;
use site_rules::Site;
use std::alloc::AllocGlobal;
use std::fs::File;
use std::rt::{Clock, Files};

/// Follows the journal of a folder on a site for the command `call --data`, and lets a reader read
/// its events. Returns the state at its end. Prints only the progress.
pub(crate) fn state_of_journal<
    R: Files<File = File> + Clock + Eprint + AllocGlobal,
    E: EventReader,
>(rt: &R, folder: &str, site: Site, reader: &mut E) -> Result<Machine, FolderFault> {
    let following = FollowRequest {
        site,
        folder,
        end: ScriptEnd::Whole,
        noted_with: None,
    };
    let followed = follow_journal(rt, following, reader)?;
    Ok(followed.machine)
}
