//! Callers of libraries, one for each. The READMEs of their crates link to them.

mod frames;
mod keys;
mod scalars;
