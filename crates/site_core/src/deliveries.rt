//! The calls that bring the installed profiles to a charge point.

ghost use Rattle.std.specs.Prelude.{◌≡◌, [], false, IfOk, filter, map};
ghost use Rattle.std.specs.Option.{option_copied};
ghost use Rattle.std.specs.List.{list_any, position};
ghost use Rattle.site_core.specs.Delivery.{deliveries_after_reply, delivery_of, is_among, is_delivery_of, is_replaced, rejected_by, remains_beside, with_delivery};

use profile::Row;
use std::alloc::{AllocError, Global};
use std::marker::Model;

/// The call that brings an installed profile to its charge point: a SetChargingProfile (chapter
/// 5.16), or the RemoteStartTransaction that the profile came with (chapter 5.11).
#[derive(Clone, Copy, PartialEq, Eq)]
pub struct Delivery {
    /// The id of the profile. At most one installed profile of a charge point has it.
    pub profile: i32,
    /// The number of the call.
    pub call: u64,
    /// Whether the point has replied to the call, and didn't accept it.
    pub is_rejected: bool,
}

/// The state of an installed profile at its charge point, as far as the point has said.
#[derive(Clone, Copy, PartialEq, Eq)]
pub enum ProfileState {
    /// The point has accepted it. A point that does what it accepts has it.
    Held,
    /// The point hasn't replied to its call yet.
    Sent,
    /// The point has accepted it, and may have lost it since.
    Unsure,
    /// The point didn't accept it.
    Rejected,
}

impl ProfileState {
    /// Returns the word for the state of a profile at its charge point, which texts and JSON use.
    pub fn name(self) -> &'static str {
        match self {
            ProfileState::Held => "held",
            ProfileState::Sent => "sent",
            ProfileState::Unsure => "unsure",
            ProfileState::Rejected => "rejected",
        }
    }
}

/// The deliveries of a charge point's installed profiles, at most one for each, in the order of
/// their installs.
#[derive(Drop)]
pub(crate) struct Deliveries {
    deliveries: Vec<Delivery>,
}

impl Model for Deliveries {
    ghost use Rattle.std.specs.Prelude.{List};
    ghost use Rattle.site_core.specs.declared.deliveries.Delivery.{Delivery};

    ghost Value = { List Delivery };

    ghost view = { λ d. d.deliveries.items };
}

impl Deliveries {
    /// Makes a list of no deliveries to a charge point. Allocates nothing.
    pub fn new(alloc: Global) -> Deliveries
        ensures { result ≡ [] }
    {
        Deliveries {
            deliveries: Vec::new(alloc),
        }
    }

    /// Copies the deliveries to a charge point.
    pub fn copy(&self) -> Result<Deliveries, AllocError>
        ensures { IfOk result (λ copy. copy ≡ self.now) }
    {
        let deliveries = Vec::from_slice(*self.deliveries.allocator(), &self.deliveries)?;
        Ok(Deliveries { deliveries })
    }

    /// Returns a copy of the deliveries to a charge point with a new one, in place of the one of
    /// its profile. It leaves out those of profiles that are no longer among these rows.
    pub fn with(&self, rows: &[Row], new: Delivery) -> Result<Deliveries, AllocError>
        ensures { IfOk result (λ made. made ≡ with_delivery rows.now self.now new) }
    {
        let mut deliveries = self.copy()?.deliveries;
        keep_beside(&mut deliveries, rows, new);
        deliveries.push(new)?;
        Ok(Deliveries { deliveries })
    }

    /// Records that the charge point didn't accept the profile that came with the call of a number.
    pub fn reject(&mut self, call: u64)
        ensures { self.new ≡ deliveries_after_reply call false self.old }
    {
        reject_all(&mut self.deliveries, call);
    }

    /// Returns the delivery of an installed profile to the charge point.
    pub fn of_row(&self, row: &Row) -> Option<&Delivery>
        ensures { option_copied result ≡ delivery_of self.now row.now }
    {
        let place = place_of(self.deliveries.as_slice(), row)?;
        Some(&self.deliveries[place])
    }
}

/// Removes the deliveries to a charge point (the machine's notes of which call brought which
/// profile) that don't stay beside a new one.
fn keep_beside(deliveries: &mut Vec<Delivery>, rows: &[Row], new: Delivery)
    ensures { deliveries.new.items ≡ filter (remains_beside rows.now new) deliveries.old.items }
{
    deliveries.retain(|delivery| remains_beside(rows, new, delivery));
}

/// Records in the machine's deliveries (which call brought which profile) that a charge point
/// didn't accept the profile that came with the call of a number.
fn reject_all(deliveries: &mut Vec<Delivery>, call: u64)
    ensures { deliveries.new.items ≡ map (rejected_by call) deliveries.old.items }
{
    for delivery in deliveries.iter_mut() {
        reject_by(call, delivery);
    }
}

/// Whether a delivery (the machine's note of which call brought a charge point which profile) stays
/// beside a new one: it is of another profile, which is among these rows (installed profiles).
fn remains_beside(rows: &[Row], new: Delivery, delivery: &Delivery) -> bool
    ensures { result ≡ remains_beside rows.now new delivery.now }
{
    is_among(rows, delivery) && !is_replaced(new, delivery)
}

/// Whether the profile of a delivery (the machine's note of which call brought a charge point which
/// profile) is among these rows (installed profiles).
fn is_among(rows: &[Row], delivery: &Delivery) -> bool
    ensures { result ≡ is_among rows.now delivery.now }
{
    rows.iter().any(|row| is_delivery_of(row, delivery))
}

/// Whether a delivery (the machine's note of which call brought a charge point which profile) is of
/// the profile of this row (an installed profile).
fn is_delivery_of(row: &Row, delivery: &Delivery) -> bool
    ensures { result ≡ is_delivery_of row.now delivery.now }
{
    row.profile.id == delivery.profile
}

/// Whether a delivery (the machine's note of which call brought a charge point which profile) is of
/// the profile that a new one brings.
fn is_replaced(new: Delivery, delivery: &Delivery) -> bool
    ensures { result ≡ is_replaced new delivery.now }
{
    delivery.profile == new.profile
}

/// Records that a charge point rejected the profile of a delivery, if it came with the call of this
/// number. A delivery is the machine's note of which call brought which profile.
fn reject_by(call: u64, delivery: &mut Delivery)
    ensures { delivery.new ≡ rejected_by call delivery.old }
{
    if delivery.call == call {
        delivery.is_rejected = true;
    }
}

/// Returns the index of the delivery of a row's profile among the machine's deliveries to a charge
/// point (which call brought which installed profile).
fn place_of(deliveries: &[Delivery], row: &Row) -> Option<usize>
    ensures { result ≡ position (is_delivery_of row.now) deliveries.now }
{
    deliveries
        .iter()
        .position(|delivery| is_delivery_of(row, delivery))
}
