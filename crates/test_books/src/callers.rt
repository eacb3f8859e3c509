//! Callers of libraries, one for each: the READMEs of their crates link to them.

mod audits;
mod limits;
mod profiles;
mod schedules;
