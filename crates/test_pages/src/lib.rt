//! Tests of `explain_pages` and `site_status` through their public names alone: texts and pictures
//! against those made by hand. They have a crate of their own, since a crate with tests is proved
//! twice.
#![tactic(auto)]

#[cfg(test)]
mod pictures;
#[cfg(test)]
mod reasons;
#[cfg(test)]
mod reports;
#[cfg(test)]
mod samples;
#[cfg(test)]
mod status_texts;
#[cfg(test)]
mod tables;
