// The stream reader, by value and lent. `held_bytes` has the work of a call and of the close, on one that is lent.
#![tactic(auto)]

mod lent;
mod readers;

pub use lent::{close_lent, closed_lent, fed_lent, feed_lent};
pub use readers::{close, feed, fresh_reader};
