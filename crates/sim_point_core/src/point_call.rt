//! The calls that a charge point makes in its steps.

ghost use Rattle.std.specs.Prelude.{◌≡◌, IfErr, IfOk, IfSome, OnErr, OnOk, option_map};
ghost use Rattle.transactions.specs.ActiveTable.{active_at};
ghost use Rattle.sim_point_core.specs.PointCall.{has_connector, start_of, stop_of, call_of, first_call, book_replied};
ghost use Rattle.sim_point_core.specs.ByCases.Steps.{Fits, IsFound, with_later};

use crate::own_book::OwnBook;
use crate::sim_step::SimStep;
use ocpp_scalars::{IdTag, Instant};
use point_book::PointBook;
use profile::Profile;
use std::alloc::{AllocError, Global};
use transactions::Begin;

/// A call of a charge point to the central system.
#[derive(Drop)]
pub enum PointCall {
    /// Heartbeat (chapter 4.6).
    Heartbeat,
    /// StartTransaction (chapter 4.8), with the profile with which the transaction begins.
    StartTransaction {
        connector: u32,
        begin: Begin,
        profile: Option<Profile>,
    },
    /// StopTransaction (chapter 4.10), with meterStop in watt-hours.
    StopTransaction {
        transaction: i32,
        meter_stop: i32,
        timestamp: Instant,
    },
}

/// A call that isn't answered yet.
#[derive(Drop)]
pub struct InFlight {
    /// Its number among the point's calls, which is its message id.
    pub number: u64,
    pub call: PointCall,
}

/// Finds the first call that the steps make at a moment. Returns it with the number of steps up to
/// its own; those before it are skipped.
pub fn first_call(
    alloc: Global,
    book: &OwnBook,
    now: Instant,
    steps: &[SimStep],
) -> Result<Option<(PointCall, usize)>, AllocError>
    ensures call { IfOk result (λ found. option_map (with_later steps.now) found
        ≡ first_call book.now now steps.now) }
    ensures found { IfOk result (λ found. IfSome found (IsFound book.now steps.now)) }
{
    for place in 0..steps.len() {
        if let Some(call) = call_of(alloc, book, now, &steps[place])? {
            return Ok(Some((call, place + 1)));
        }
    }
    Ok(None)
}

/// Returns the OCPP call to the central system that a step of a simulated point makes at a given
/// time, if it makes one.
fn call_of(
    alloc: Global,
    book: &OwnBook,
    now: Instant,
    step: &SimStep,
) -> Result<Option<PointCall>, AllocError>
    ensures call { IfOk result (λ call. call ≡ call_of book.now now step.now) }
    ensures fits { IfOk result (λ call. IfSome call (Fits book.now)) }
{
    match step {
        SimStep::Heartbeat => Ok(Some(PointCall::Heartbeat)),
        SimStep::Start {
            connector,
            tag,
            meter,
        } => {
            let begin = begin_of(alloc, tag, *meter, now)?;
            Ok(start_of(book, *connector, begin, None))
        }
        SimStep::RemoteStart {
            connector,
            tag,
            profile,
        } => {
            // RemoteStartTransaction.req has no meter value.
            let begin = begin_of(alloc, tag, 0, now)?;
            let profile = Profile::copy_if_any(profile)?;
            Ok(start_of(book, *connector, begin, profile))
        }
        SimStep::Stop { connector } => Ok(stop_of(book, *connector, now)),
    }
}

/// Returns a simulated point's StartTransaction at a connector, with the charging profile of the
/// remote start that led to it, if any. None if the point lacks the connector.
fn start_of(
    book: &OwnBook,
    connector: u32,
    begin: Begin,
    profile: Option<Profile>,
) -> Option<PointCall>
    ensures call { result ≡ start_of book.now connector begin profile }
    ensures fits { IfSome result (Fits book.now) }
{
    if !has_connector(book.book(), connector) {
        return None;
    }
    Some(PointCall::StartTransaction {
        connector,
        begin,
        profile,
    })
}

/// Returns whether a simulated point has a connector of this number at which transactions begin.
pub(crate) fn has_connector(book: &PointBook, connector: u32) -> bool
    ensures { result ≡ has_connector book.now connector }
{
    connector > 0 && connector <= book.connectors()
}

/// Returns the data of a simulated point's StartTransaction: a copy of the idTag, the meter value
/// and the time.
fn begin_of(alloc: Global, tag: &IdTag, meter: i32, now: Instant) -> Result<Begin, AllocError>
    ensures { IfOk result (λ begin. begin
        ≡ record { id_tag = tag.now; meter_start = meter; timestamp = now }) }
{
    Ok(Begin {
        id_tag: tag.copy(alloc)?,
        meter_start: meter,
        timestamp: now,
    })
}

/// Returns a simulated point's StopTransaction for the active transaction at a connector, if there
/// is one.
fn stop_of(book: &OwnBook, connector: u32, now: Instant) -> Option<PointCall>
    ensures { result ≡ option_map (stop_of now) (active_at book.now.transactions connector) }
{
    match book.running_at(connector) {
        Some(running) => Some(PointCall::StopTransaction {
            transaction: running.id,
            meter_stop: running.meter,
            timestamp: now,
        }),
        None => None,
    }
}

/// Makes the change of the reply to a call in the point's book, given the transactionId in the
/// reply. Only a start with a profile needs memory. If that fails, nothing changes, and the call is
/// returned.
pub fn reply_to(
    book: &mut OwnBook,
    call: PointCall,
    transaction: Option<i32>,
) -> Result<(), PointCall>
    requires { Fits book.old call }
    ensures book { OnOk result (book.new ≡ book_replied book.old call transaction) }
    ensures unchanged { OnErr result (book.new ≡ book.old) }
    ensures back { IfErr result (λ refused. refused ≡ call) }
{
    match call {
        PointCall::Heartbeat => Ok(()),
        PointCall::StartTransaction {
            connector,
            begin,
            profile,
        } => {
            let Some(id) = transaction else {
                return Ok(());
            };
            match book.start(connector, begin, id, profile) {
                Ok(()) => Ok(()),
                Err((begin, profile)) => Err(PointCall::StartTransaction {
                    connector,
                    begin,
                    profile,
                }),
            }
        }
        // Any reply ends the transaction: a central system can't prevent a stop (OCPP 1.6, 4.10).
        PointCall::StopTransaction { transaction, .. } => {
            book.stop(transaction);
            Ok(())
        }
    }
}
