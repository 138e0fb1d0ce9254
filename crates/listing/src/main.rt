// Lists the frames of a capture: standard input is the family's digit, 1 to 4, and the capture.
// Prints a line for each frame and one for the whole, or the refusal alone.
#![tactic(auto)]

use listings::print_listing;
use rules::Refusal;
use std::io;

fn main(rt: HostRuntime) -> io::Result<()> {
    let mut buffer = lines::input_buffer();
    let Some((family, capture)) = lines::read_input(&rt, &mut buffer)? else {
        return lines::print_refused(&rt, u8::from(Refusal::NoFamily));
    };
    print_listing(&rt, family, capture)
}
