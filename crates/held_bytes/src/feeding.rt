// The calls on a lent stream reader, which is altered where it stands: one that offers bytes, and the close. On a refusal it
// is as it was.
ghost use Rattle.std.specs.Prelude.{◌≡◌};
ghost use Rattle.stream_rules.specs.Heads.{head, at_close};
ghost use Rattle.stream_rules.specs.Rule.{look};
ghost use Rattle.stream_rules.specs.Streams.{held_of, closed_call, Feeds, Shuts};
ghost use Rattle.held_bytes.specs.Moves.{fed_at, shut_at, served, MayHold};

use crate::keep_part;
use crate::moves::{done, hand_out};
use crate::pieces::advance;
use rules::Refusal;
use search::first_good;
use starts::{is_family, longest_frame};
use stream_rules::{Answer, Outcome, PLACES, Reader};
use texts::text;

// A call on a closed reader: the next frame of what it holds, or done.
fn drain(reader: &mut Reader) -> Answer
    requires { MayHold reader.old }
    ensures { fed_at reader.new result ≡ closed_call reader.old (look (at_close (head reader.old.family)) (held_of reader.old)) }
{
    let count = usize::from(reader.count);
    match first_good(reader.family, text(&reader.held, 0, count), 0) {
        Some(first) => {
            let frame = first.frame;
            let behind = first.start + first.length;
            let left = count - behind;
            keep_part(&mut reader.held, behind, left);
            hand_out(reader, 0, first.start, first.length, frame, left)
        }
        None => {
            reader.held = [0u8; PLACES];
            done(reader, count)
        }
    }
}

// Refusal 1, then 6, of a reader that no call serves.
pub fn served(reader: &Reader) -> Outcome
    ensures { result ≡ served reader.now }
{
    if !is_family(reader.family) {
        return Err(Refusal::NoFamily);
    }
    if longest_frame(reader.family) <= usize::from(reader.count) {
        return Err(Refusal::HoldsTooMuch);
    }
    Ok(())
}

// A call that offers bytes: a frame, or more wanted, or done; refusal 1, then 6, then 5.
pub fn feed(reader: &mut Reader, offered: &[u8]) -> Answer
    ensures { Feeds reader.old offered.now (fed_at reader.new result) }
{
    served(reader)?;
    if reader.closed == 0 {
        return advance(reader, offered);
    }
    if !offered.is_empty() {
        return Err(Refusal::IsClosed);
    }
    drain(reader)
}

// Closes the reader; refusal 1, then 6. Closing it again changes nothing more.
pub fn close(reader: &mut Reader) -> Outcome
    ensures { Shuts reader.old (shut_at reader.new result) }
{
    served(reader)?;
    let used = usize::from(reader.count);
    keep_part(&mut reader.held, 0, used);
    reader.closed = 1;
    Ok(())
}
