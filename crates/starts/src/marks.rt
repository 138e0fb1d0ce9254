// What a start of an SPE packet is known by: the mark of its family, and how many bytes it needs; and the longest and the
// shortest frame of any family.
ghost use Rattle.std.specs.Prelude.{◌≡◌};
ghost use Rattle.stream_rules.specs.Heads.{mark_of, longest, shortest};
ghost use Rattle.starts.specs.Needed.{needed};

use crate::brackets::brackets_of;
use rules::{
    CODE_COUNT, COMMAND_MARK, COMMANDS, LONGEST_REPORT, MESSAGES, PACKET_LENGTH, REPLIES,
    REPLY_MARK, REPORT_COUNT, SHORTEST_MESSAGE, SHORTEST_SENTENCE,
};
use spe::report_length;

// The mark of an SPE family.
pub fn mark_of(family: u8) -> u8
    ensures { result ≡ mark_of family }
{
    if family == COMMANDS {
        COMMAND_MARK
    } else {
        REPLY_MARK
    }
}

// How many bytes a start needs, by its count, and a report by its form; none where there is no count, or it is not allowed.
pub fn bytes_needed(family: u8, start: &[u8]) -> Option<usize>
    ensures { result ≡ needed family start.now }
{
    match (family, *start.get(3)?) {
        (_, CODE_COUNT) => Some(PACKET_LENGTH),
        (REPLIES, REPORT_COUNT) => Some(report_length(start)),
        _ => None,
    }
}

// The longest frame of a family.
pub fn longest_frame(family: u8) -> usize
    ensures { result ≡ longest family }
{
    match family {
        REPLIES => LONGEST_REPORT,
        COMMANDS => PACKET_LENGTH,
        _ => {
            let k = brackets_of(family);
            k.most + (k.tail + 2)
        }
    }
}

// The shortest frame of a family.
pub fn shortest_frame(family: u8) -> usize
    ensures { result ≡ shortest family }
{
    match family {
        REPLIES | COMMANDS => PACKET_LENGTH,
        MESSAGES => SHORTEST_MESSAGE,
        _ => SHORTEST_SENTENCE,
    }
}
