// Starts: what one is known by, which is the number of its family, its mark and how many bytes it needs, or its brackets and
// the bytes between them; and stamps, the places of starts in a stream.
#![tactic(auto)]

mod brackets;
mod families;
mod marks;
mod stamps;

pub use brackets::{are_inner, brackets_of, inner_bytes};
pub use families::{is_family, is_spe};
pub use marks::{bytes_needed, longest_frame, mark_of, shortest_frame};
pub use stamps::{advanced, stamp_order};
