//! A script: its lines, the contents and the output of each, and the whole of it from a reader to a
//! writer.

pub mod form;
pub mod input;
pub mod line;
pub mod lines;
pub mod output;
pub mod play;
pub mod played_line;
pub mod playing;
pub mod point_change;
pub mod printed_line;
pub mod run;
pub mod skim;
