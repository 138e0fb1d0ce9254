// What the program `replay` prints of a script, and a frame as text with its values.
#![tactic(auto)]

mod script;
mod shown;
mod values;

pub use script::print_replay;
pub use shown::frame;
