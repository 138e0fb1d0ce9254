// The Alpha's checksum: its two sums, and the hexadecimal digits that give them.
#![tactic(auto)]

mod hexadecimal;
mod sentence_sums;

pub use hexadecimal::{hex_pair, hex_pairs};
pub use sentence_sums::{Sums, fletcher, payload_byte};
