// Replays the calls of a script on a stream reader: standard input is the family's digit, 1 to 4,
// and the script. Prints a line for each call, or the refusal alone.
#![tactic(auto)]

use replays::print_replay;
use rules::Refusal;
use std::io;

fn main(rt: HostRuntime) -> io::Result<()> {
    let mut buffer = lines::input_buffer();
    let Some((family, script)) = lines::read_input(&rt, &mut buffer)? else {
        return lines::print_refused(&rt, u8::from(Refusal::NoFamily));
    };
    print_replay(&rt, family, script)
}
