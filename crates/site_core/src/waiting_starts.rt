//! Starts that an operator requested from a charge point.

ghost use Rattle.std.specs.Prelude.{◌≡◌, ◌≤◌, [], Some, false, IfOk, OnErr, OnOk, vec_capacity, vec_len};
ghost use Rattle.std.specs.Option.{option_copied};
ghost use Rattle.std.specs.List.{position};
ghost use Rattle.site_core.specs.WaitingStart.{after_reply, is_at_connector, is_of_call, profile_for, waiting_at, with_waiting, without_waiting};

use ocpp_scalars::IdTag;
use profile::Profile;
use std::alloc::{AllocError, Global};
use std::marker::Model;

/// A start that an operator requested from a charge point (chapter 5.11), until a transaction
/// begins at its connector.
#[derive(Drop)]
pub struct WaitingStart {
    pub connector: u32,
    /// The number of the call that asked the point.
    pub call: u64,
    /// The idTag that is to start the transaction.
    pub id_tag: IdTag,
    /// The profile for its transaction, from its beginning on.
    pub profile: Option<Profile>,
}

impl WaitingStart {
    /// Copies a remote start, requested by an operator, that the machine keeps waiting at a charge
    /// point's connector.
    pub(crate) fn copy(&self, alloc: Global) -> Result<WaitingStart, AllocError>
        ensures { IfOk result (λ copy. copy ≡ self.now) }
    {
        Ok(WaitingStart {
            connector: self.connector,
            call: self.call,
            id_tag: self.id_tag.copy(alloc)?,
            profile: Profile::copy_if_any(&self.profile)?,
        })
    }

    /// Copies the profile that an operator's remote start, which the machine keeps, has for a
    /// transaction of this idTag. `None` if it has no profile, or is for another idTag.
    pub(crate) fn profile_for(&self, id_tag: &IdTag) -> Result<Option<Profile>, AllocError>
        ensures { IfOk result (λ profile. profile ≡ profile_for id_tag.now (Some self.now)) }
    {
        // An idTag is a CiString20Type (chapter 7, IdToken): its case doesn't matter.
        if self.id_tag.as_str().eq_ignore_ascii_case(id_tag.as_str()) {
            Profile::copy_if_any(&self.profile)
        } else {
            Ok(None)
        }
    }
}

/// The starts that wait at a point, at most one at each connector.
#[derive(Drop)]
pub(crate) struct WaitingStarts {
    starts: Vec<WaitingStart>,
}

impl Model for WaitingStarts {
    ghost use Rattle.std.specs.Prelude.{List};
    ghost use Rattle.site_core.specs.declared.waiting_starts.WaitingStart.{WaitingStart};

    ghost Value = { List WaitingStart };

    ghost view = { λ w. w.starts.items };
}

impl WaitingStarts {
    /// Makes a list of no starts. Allocates nothing.
    pub fn new(alloc: Global) -> WaitingStarts
        ensures { result ≡ [] }
    {
        WaitingStarts {
            starts: Vec::new(alloc),
        }
    }

    /// Copies all starts.
    pub fn copy(&self) -> Result<WaitingStarts, AllocError>
        ensures { IfOk result (λ copy. copy ≡ self.now) }
    {
        let starts = copy_of_starts(*self.starts.allocator(), self.starts.as_slice())?;
        Ok(WaitingStarts { starts })
    }

    /// Returns all starts, in the order of their requests.
    pub fn as_slice(&self) -> &[WaitingStart]
        ensures { result.now ≡ self.now }
    {
        self.starts.as_slice()
    }

    /// Returns the start at a connector.
    pub fn at(&self, connector: u32) -> Option<&WaitingStart>
        ensures { option_copied result ≡ waiting_at self.now connector }
    {
        let place = place_of(self.starts.as_slice(), connector)?;
        Some(&self.starts[place])
    }

    /// Adds a start, in place of the one at its connector. Without memory nothing changes.
    pub fn add(&mut self, new: WaitingStart) -> Result<(), AllocError>
        ensures starts { OnOk result (self.new ≡ with_waiting self.old new) }
        ensures kept { OnErr result (self.new ≡ self.old) }
    {
        // Memory comes first, so that a refusal leaves all starts unchanged.
        self.starts.reserve(1)?;
        drop_at(&mut self.starts, new.connector);
        self.starts.push(new).unwrap();
        Ok(())
    }

    /// Removes the start at a connector.
    pub fn remove(&mut self, connector: u32)
        ensures { self.new ≡ without_waiting self.old connector }
    {
        drop_at(&mut self.starts, connector);
    }

    /// Removes the start that came with the call of a number, which the point didn't accept.
    pub fn reject(&mut self, call: u64)
        ensures { self.new ≡ after_reply call false self.old }
    {
        self.starts.retain(|start| !is_of_call(call, start));
    }
}

/// Removes the remote start, requested by an operator, that the machine keeps waiting at a charge
/// point's connector.
fn drop_at(starts: &mut Vec<WaitingStart>, connector: u32)
    ensures starts { starts.new.items ≡ without_waiting starts.old.items connector }
    ensures bound { vec_len starts.new ≤ vec_len starts.old }
    ensures capacity { vec_capacity starts.new ≡ vec_capacity starts.old }
{
    starts.retain(|start| !is_at_connector(connector, start));
}

/// Whether a remote start that the machine keeps for an operator waits at this connector of a
/// charge point.
fn is_at_connector(connector: u32, start: &WaitingStart) -> bool
    ensures { result ≡ is_at_connector connector start.now }
{
    start.connector == connector
}

/// Whether a remote start that the machine keeps for an operator came with the
/// RemoteStartTransaction call of this number.
fn is_of_call(call: u64, start: &WaitingStart) -> bool
    ensures { result ≡ is_of_call call start.now }
{
    start.call == call
}

/// Returns the index of the remote start at this connector among those that the machine keeps for
/// an operator at a charge point.
fn place_of(starts: &[WaitingStart], connector: u32) -> Option<usize>
    ensures { result ≡ position (is_at_connector connector) starts.now }
{
    starts
        .iter()
        .position(|start| is_at_connector(connector, start))
}

/// Copies the remote starts, requested by an operator, that the machine keeps waiting at a charge
/// point.
fn copy_of_starts(alloc: Global, starts: &[WaitingStart]) -> Result<Vec<WaitingStart>, AllocError>
    ensures { IfOk result (λ copies. copies.items ≡ starts.now) }
{
    let mut copies = Vec::with_capacity(alloc, starts.len())?;
    for start in starts {
        copies.push(start.copy(alloc)?)?;
    }
    Ok(copies)
}
