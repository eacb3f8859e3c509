//! The keys of a site: HTTP Basic (OCPP-J 1.6, 6.2) by a file of salted digests.
//! `specs/KeyFile.antt` defines the file, `specs/Admission.antt` which clients are admitted.
#![tactic(auto)]

mod admission;
mod bytes;
mod credentials;
mod digest;
mod key;
mod key_line;
mod keys;
mod keys_fault;
mod line_fault;
mod name;
mod new_key;
mod role;
mod written_keys;

pub use admission::Admission;
pub use credentials::user_in;
pub use keys::Keys;
pub use keys_fault::KeysFault;
pub use line_fault::KeyLineFault;
pub use new_key::{KeyText, NewKeyFault, write_key};
pub use role::Role;
pub use written_keys::written_keys_open;
