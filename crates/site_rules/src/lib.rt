//! The site of a central system, as its file describes it: its rate unit, and its charge points
//! with their ceilings. Decides which profiles may be installed where (OCPP 1.6, chapters 3.13 and
//! 5.16).
#![tactic(auto)]

mod admission;
mod fault;
mod point;
mod reading;
mod site;
mod site_laws;

pub use admission::admit;
pub use fault::SiteFault;
pub use point::SitePoint;
pub use reading::{MAX_SITE_BYTES, read_site};
pub use site::Site;
pub use site_laws::{admissions, site_files};
