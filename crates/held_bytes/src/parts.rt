// A call on a stream reader that comes in its parts, the held places lent. Thin over the call on a lent reader: the parts
// make one, and what it is left with goes back to them.
ghost use Rattle.held_bytes.specs.Places.{FeedsPlaces};

use crate::feeding::feed;
use stream_rules::{Answer, PLACES, Reader};

// The count of the held bytes, the place in the stream of the first of them, the bytes skipped since the last frame, and
// the answer.
#[derive(Clone, Copy)]
pub struct Moved {
    pub count: u8,
    pub at: u32,
    pub skipped: u32,
    pub answer: Answer,
}

// A call that offers bytes to a reader that comes in its parts: a frame, or more wanted, or done; refusal 1, then 6, then
// 5. The held places are altered where they stand, and on a refusal they and the counts are as they were. The family and
// the flag do not come back: no call changes them.
pub fn feed_places(
    family: u8,
    closed: u8,
    count: u8,
    at: u32,
    skipped: u32,
    held: &mut [u8; PLACES],
    offered: &[u8],
) -> Moved
    ensures { FeedsPlaces family closed count held.old at skipped offered.now held.new result }
{
    let mut reader = Reader {
        family,
        closed,
        count,
        held: *held,
        at,
        skipped,
    };
    let answer = feed(&mut reader, offered);
    *held = reader.held;
    Moved {
        count: reader.count,
        at: reader.at,
        skipped: reader.skipped,
        answer,
    }
}
