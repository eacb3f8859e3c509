//! The rates of stack levels, and the one that prevails.

ghost use Rattle.std.specs.Prelude.{◌≡◌, [], None, Some, IsOk, IfErr, OnErr, OnOk};
ghost use Rattle.stacking.specs.InForce.{IsSet, IsTop};
ghost use Rattle.stacking.specs.ByCases.InForce.{AreRising, IsPlaceOf, has_level_at};
ghost use Rattle.ocpp_scalars.specs.declared.refusal.Refusal.TheVariants.{OutOfMemory};

use ocpp_scalars::Refusal;
use std::alloc::Global;
use std::marker::Model;

/// The rates of profiles at one instant, each with its level. The highest level that has a rate
/// prevails (chapter 3.13). The sweep compiler's levels are ranks: a TxProfile's is above that of
/// any TxDefaultProfile. Reading it takes constant time, and a change finds its level by binary
/// search.
#[derive(Drop)]
pub struct InForce {
    /// The levels that have a rate, each with its rate, by rising level.
    // Sorted and grown on demand: an array of all levels, made for each request, slowed short ones
    // down.
    rates: Vec<(u32, u32)>,
}

impl Model for InForce {
    ghost use Rattle.std.specs.Prelude.{ℕ, List};
    ghost use Rattle.stacking.specs.ByCases.InForce.{AreRising};

    ghost Value = { List (ℕ × ℕ) };

    ghost view = { λ f. f.rates.items };

    ghost invariant = { λ f. AreRising f.rates.items };
}

impl InForce {
    /// Makes one in which no level has a rate. Allocates nothing.
    pub fn new(alloc: Global) -> InForce
        ensures { result ≡ [] }
    {
        InForce {
            rates: Vec::new(alloc),
        }
    }

    /// Gives a level a rate, in tenths of A or W, or removes its rate. Returns `OutOfMemory` if
    /// there is no memory for the rate, and then nothing changes; removing one allocates nothing.
    pub fn set(&mut self, level: u32, rate: Option<u32>) -> Result<(), Refusal>
        ensures set { OnOk result (IsSet self.old level rate self.new) }
        ensures cause { IfErr result (λ refusal. refusal ≡ OutOfMemory) }
        ensures unchanged { OnErr result (self.new ≡ self.old) }
        ensures certain { (rate ≡ None) → IsOk result }
    {
        match rate {
            Some(rate) => set_rate(&mut self.rates, level, rate),
            None => {
                remove_rate(&mut self.rates, level);
                Ok(())
            }
        }
    }

    /// Returns the rate of the highest level that has one, or `None` if no level has one.
    pub fn top(&self) -> Option<u32>
        ensures { IsTop self.now result }
    {
        let (_, rate) = self.rates.last()?;
        Some(*rate)
    }
}

/// Gives a stack level (in a sweep: a profile's rank by purpose and level) a limit in `InForce`.
/// That is the sorted list by level of the limits at an instant, for the schedule compiler.
fn set_rate(rates: &mut Vec<(u32, u32)>, level: u32, rate: u32) -> Result<(), Refusal>
    requires rising { AreRising rates.old.items }
    ensures set { OnOk result (IsSet rates.old.items level (Some rate) rates.new.items) }
    ensures rising { AreRising rates.new.items }
    ensures cause { IfErr result (λ refusal. refusal ≡ OutOfMemory) }
    ensures unchanged { OnErr result (rates.new.items ≡ rates.old.items) }
{
    let place = place_of(rates.as_slice(), level);
    if has_level_at(rates.as_slice(), level, place) {
        rates[place] = (level, rate);
        return Ok(());
    }
    match rates.insert(place, (level, rate)) {
        Ok(()) => Ok(()),
        Err(_) => Err(Refusal::OutOfMemory),
    }
}

/// Removes the limit of a stack level from `InForce`, the sorted list by level of the limits at an
/// instant. The schedule compiler's sweep does this where a profile's limit ends.
fn remove_rate(rates: &mut Vec<(u32, u32)>, level: u32)
    requires rising { AreRising rates.old.items }
    ensures set { IsSet rates.old.items level None rates.new.items }
    ensures rising { AreRising rates.new.items }
{
    let place = place_of(rates.as_slice(), level);
    if has_level_at(rates.as_slice(), level, place) {
        rates.remove(place);
    }
}

/// Returns the index of the first stack level that isn't below this one in `InForce`. That is the
/// sorted list by level of the limits at an instant, for the schedule compiler.
fn place_of(rates: &[(u32, u32)], level: u32) -> usize
    requires rising { AreRising rates.now }
    ensures { IsPlaceOf rates.now level result }
{
    let likely = likely_place(rates, level);
    if has_level_at(rates, level, likely) {
        return likely;
    }
    rates.partition_point(|entry| entry.0 < level)
}

/// Returns a stack level's index in `InForce`, the sorted list by level of the limits at an
/// instant, if each level from the lowest on has one. This saves the search.
fn likely_place(rates: &[(u32, u32)], level: u32) -> usize {
    match rates.first() {
        Some(lowest) => level.saturating_sub(lowest.0) as usize,
        None => 0,
    }
}

/// Whether the entry at an index of `InForce`, the sorted list by stack level of the limits at an
/// instant, is that of this level.
fn has_level_at(rates: &[(u32, u32)], level: u32, place: usize) -> bool
    ensures { result ≡ has_level_at rates.now level place }
{
    match rates.get(place) {
        Some(entry) => entry.0 == level,
        None => false,
    }
}
