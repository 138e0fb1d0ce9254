// Writers of the SPE families: acknowledgements and commands, and the status report with the ranges of its fields.
#![tactic(auto)]

mod packets;
mod ranges;
mod status;

pub use packets::{write_ack, write_command};
pub use status::write_status;
