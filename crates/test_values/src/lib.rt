//! Tests of libraries that need few others, by their public names alone: `append_log`, `site_keys`
//! and `ocppj_frame`, and callers of these. They are one crate, which is proved twice, as each
//! crate with tests.
#![tactic(auto)]

#[cfg(test)]
mod admissions;
#[cfg(test)]
mod callers;
#[cfg(test)]
mod faults_and_crashes;
#[cfg(test)]
mod frame_texts;
#[cfg(test)]
mod same;
