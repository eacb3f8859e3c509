//! The world of the sessions that a site's threads serve.

use ghost_list::ListName;
use journal::Journal;
use ocpp_scalars::SystemClock;
use std::marker::PhantomData;
use std::rt::Clock;
use std::sync::Wait;
use std::sync::ledger::Ledger;
use world::World;

/// The world of these types. They are parameters, since a thread has to know of each that it may be
/// sent, which the types of a `World` don't say.
pub struct SeatWorld<C, A, R, J, N> {
    _types: PhantomData<(C, A, R, J, N)>,
}

impl<C: Ledger, A: Ledger, R: Wait + Clock, J: Journal<N>, N: ListName> World
    for SeatWorld<C, A, R, J, N> {
    type Changes = C;

    type Answers = A;

    type Name = N;

    type Runtime = R;

    type Clock = SystemClock<R>;

    type Journal = J;
}
