// The stream reader lent by `&mut`: the panel's loop keeps one reader, and each call alters that reader where it stands. Thin
// over the calls of `held_bytes` on a lent reader.
ghost use Rattle.stream_rules.specs.Streams.{Feeds, Shuts};
ghost use Rattle.stream.specs.Lent.{left, turned};

use held_bytes::{close, feed};
use stream_rules::{Answer, Fed, Outcome, Reader, Turned};

// A call that offers bytes: a frame, or more wanted, or done; refusal 1, then 6, then 5.
pub fn feed_lent(reader: &mut Reader, offered: &[u8]) -> Answer
    ensures { Feeds reader.old offered.now (left reader.new result) }
{
    feed(reader, offered)
}

// Closes the lent reader; refusal 1, then 6. Closing it again changes nothing more.
pub fn close_lent(reader: &mut Reader) -> Outcome
    ensures { Shuts reader.old (turned reader.new result) }
{
    close(reader)
}

// A call on a reader that is lent for it, with plain parameters.
pub fn fed_lent(reader: Reader, offered: &[u8]) -> Fed
    ensures { Feeds reader offered.now result }
{
    let mut kept = reader;
    let answer = feed_lent(&mut kept, offered);
    Fed {
        reader: kept,
        answer,
    }
}

// The close of a reader that is lent for it, with plain parameters.
pub fn closed_lent(reader: Reader) -> Turned
    ensures { Shuts reader result }
{
    let mut kept = reader;
    let outcome = close_lent(&mut kept);
    Turned {
        reader: kept,
        outcome,
    }
}
