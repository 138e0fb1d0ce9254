// A call on an open reader, which alters it where it stands. Where nothing is held, the bytes offered are searched where
// they stand; else what is held is joined first, in a buffer, with the next of them.
ghost use Rattle.std.specs.Prelude.{◌≡◌, ◌≤◌, length};
ghost use Rattle.stream_rules.specs.Heads.{head};
ghost use Rattle.stream_rules.specs.Rule.{call};
ghost use Rattle.stream_rules.specs.Streams.{place_count, filled, held_of, open_call};
ghost use Rattle.held_bytes.specs.Moves.{fed_at, call_on, later, MayHold, Counted};

use crate::moves::{hand_out, wants};
use pens::put_bytes;
use search::{Sought, seek};
use stream_rules::{Answer, PLACES, Progress, Reader};
use texts::{further, text};

// The bytes in the places, with zeros behind them.
fn fill(places: &mut [u8; PLACES], bytes: &[u8])
    requires { length bytes.now ≤ place_count }
    ensures { places.new ≡ filled bytes.now }
{
    *places = [0u8; PLACES];
    put_bytes(places, 0, bytes);
}

// A call on bytes of which the first are those held, behind some that were taken before. What it keeps is laid into the
// places.
fn turn_of(reader: &mut Reader, work: &[u8], taken: usize) -> Answer
    requires { Counted reader.old taken work.now }
    ensures { fed_at reader.new result ≡ open_call reader.old (later taken (call_on reader.old work.now)) }
{
    let count = usize::from(reader.count);
    match seek(reader.family, work) {
        Sought::Waiting(from) => {
            let left = work.len() - from;
            fill(&mut reader.held, text(work, from, left));
            wants(reader, taken + (work.len() - count), from, left)
        }
        Sought::Ready(hit) => {
            let frame = hit.frame;
            let behind = hit.start + hit.length;
            let to = further(hit.reach, count);
            let left = to - behind;
            fill(&mut reader.held, text(work, behind, left));
            hand_out(
                reader,
                taken + (to - count),
                hit.start,
                hit.length,
                frame,
                left,
            )
        }
    }
}

// Room for the held bytes and a piece behind them.
const HELD_AND_PIECE: usize = 2 * PLACES;

// A call on a piece, which stands with the held bytes in a buffer.
fn take_piece(reader: &mut Reader, piece: &[u8]) -> Answer
    requires may_hold { MayHold reader.old }
    requires piece { length piece.now ≤ place_count }
    ensures { fed_at reader.new result ≡ open_call reader.old (call (head reader.old.family) (held_of reader.old) piece.now) }
{
    let count = usize::from(reader.count);
    let mut work = [0u8; HELD_AND_PIECE];
    put_bytes(&mut work, 0, text(&reader.held, 0, count));
    put_bytes(&mut work, count, piece);
    turn_of(reader, text(&work, 0, count + piece.len()), 0)
}

// A call on any number of bytes. Where a whole piece with the held bytes leaves no frame, what is kept is no longer than
// the piece, so it is the piece's last bytes, and the call goes on from there.
pub(crate) fn advance(reader: &mut Reader, offered: &[u8]) -> Answer
    requires { MayHold reader.old }
    ensures { fed_at reader.new result ≡ open_call reader.old (call (head reader.old.family) (held_of reader.old) offered.now) }
{
    if reader.count == 0 {
        return turn_of(reader, offered, 0);
    }
    let answer = take_piece(reader, text(offered, 0, PLACES));
    if offered.len() <= PLACES {
        return answer;
    }
    let Ok(progress) = answer else {
        return answer;
    };
    let Progress::More(taken) = progress else {
        return answer;
    };
    let from = PLACES - usize::from(reader.count);
    turn_of(reader, &offered[from..], taken)
}
