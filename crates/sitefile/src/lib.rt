// Reads site files: bytes that the customer lends, from which the customer's tables are filled.
#![tactic(auto)]

pub mod fault;
mod floor;
mod lane_run;
mod lanes;
pub mod loader;
mod numbers;
mod places;
mod reader;
mod records;
mod tape;

pub use fault::{Cause, Fault, Layer};
pub use loader::{SiteHead, load};
pub use reader::Reader;
