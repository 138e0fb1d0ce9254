// The lister: the starts of all frames in a capture.
#![tactic(auto)]

mod lists;
mod steps;

pub use lists::list_frames;
