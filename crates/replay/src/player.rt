//! The player of a script: the central system's machine, its steps, and the held requests.

pub mod held;
pub mod machine_steps;
pub mod most_periods;
pub mod player;
pub mod wanted;
