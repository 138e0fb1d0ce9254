// The stream reader by value: a fresh one, a call that feeds it, and closing. A reader goes in by value and comes back by
// value; on a refusal it is as it was.
ghost use Rattle.std.specs.Prelude.{◌≡◌, []};
ghost use Rattle.stream_rules.specs.Streams.{holding, Feeds, Shuts, Makes};

use crate::lent::{close_lent, feed_lent};
use rules::Refusal;
use starts::is_family;
use stream_rules::{Fed, PLACES, Reader, Turned};

// A call that offers bytes, on a reader that is lent for it.
pub fn feed(r: Reader, offered: &[u8]) -> Fed
    ensures { Feeds r offered.now result }
{
    let mut reader = r;
    let answer = feed_lent(&mut reader, offered);
    Fed { reader, answer }
}

// The close of a reader that is lent for it.
pub fn close(r: Reader) -> Turned
    ensures { Shuts r result }
{
    let mut reader = r;
    let outcome = close_lent(&mut reader);
    Turned { reader, outcome }
}

// An open reader that holds nothing, at the front of its stream.
fn empty(family: u8) -> Reader
    ensures { result ≡ holding family 0 [] 0 0 }
{
    Reader {
        family,
        closed: 0,
        count: 0,
        held: [0u8; PLACES],
        at: 0,
        skipped: 0,
    }
}

// A fresh reader of a family, or refusal 1 and a reader that every call refuses. (A reader stands beside the refusal, and
// not in a `Result`, because `Makes` says which one is given then too.)
pub fn fresh_reader(family: u8) -> Turned
    ensures { Makes family result }
{
    if !is_family(family) {
        return Turned {
            reader: empty(0),
            outcome: Err(Refusal::NoFamily),
        };
    }
    Turned {
        reader: empty(family),
        outcome: Ok(()),
    }
}
