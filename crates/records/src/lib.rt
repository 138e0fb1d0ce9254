// The records' fields as numbers, in the documents' order, what is told of a frame, and whether the record of a
// sentence or of a message holds only what its fields can carry.
#![tactic(auto)]

mod fields;
mod messages;
mod ranges;
mod told;

pub use fields::{of_02, of_03, of_05, of_status};
pub use messages::{behind_letters, clock_in_range, of_clock, of_letters};
pub use ranges::{WIDTHS02, WIDTHS03, in_range02, in_range03, in_range05};
pub use told::{Fields, VALUE_PLACES, fields_of};
