//! The scalars of OCPP 1.6: instants, limits in tenths and whole numbers, with their readers and
//! writers. Also what every crate above shares: the named refusals and the trait of the clock.
#![tactic(auto)]

mod bounded_text;
mod characters;
mod id_tag;
mod instant;
mod instant_text;
mod laws;
mod moments;
mod number;
mod number_text;
mod refusal;
mod writing;

pub use bounded_text::BoundedText;
pub use characters::character_count;
pub use id_tag::{IdTag, MAX_ID_TAG_CHARACTERS};
pub use instant::{Instant, LAST_SECOND};
pub use instant_text::{InstantFault, read_instant};
pub use laws::{id_tags, instant_texts, number_texts};
pub use moments::{Moments, SystemClock};
pub use number::{NumberFault, read_tenths, read_whole};
pub use number_text::is_number_text;
pub use refusal::Refusal;
pub use writing::{push_instant, push_integer, push_tenths, write_instant, write_tenths};
