//! A simulated charge point at its WebSocket (OCPP-J 1.6, chapter 3): [`SimPoint`] of
//! `sim_point_core` over a socket.
#![tactic(auto)]

mod client;

pub use client::{Ended, run_client};
pub use sim_point_core::{SimPoint, SimStep};
