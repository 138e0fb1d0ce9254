// Recorded captures: the next frame from a place on, and the capture reader. `lister` lists all frames.
#![tactic(auto)]

mod spans;
mod walks;

pub use spans::{Span, find, next_frame};
pub use walks::{CaptureReader, next, next_at, reader_at};
