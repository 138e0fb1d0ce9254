// What the program `listing` prints of a capture, and the words for a kind of frame.
#![tactic(auto)]

mod kinds;
mod prints;
mod table;

pub use kinds::kind;
pub use prints::print_listing;
pub use table::part_kind;
