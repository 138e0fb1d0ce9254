// The leaves that readers and writers stand on: bytes, letters and bounds; the number in a row of digits; and where a
// field ends. None asks anything of its caller.
#![tactic(auto)]

mod commas;
mod numbers;
mod parts;

pub use commas::to_comma;
pub use numbers::digits;
pub use parts::{further, one_of, same_bytes, sum, text, text_byte, wide, within};
