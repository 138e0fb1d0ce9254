// What a call leaves of a lent reader beside its held places, and what it answers.
ghost use Rattle.std.specs.Prelude.{◌≡◌, ◌+◌, ◌^◌, ◌≤◌, ◌<◌};
ghost use Rattle.stream_rules.specs.Streams.{place_count};
ghost use Rattle.held_bytes.specs.Moves.{fed_at, handed_out, wanting, done_by};

use rules::Frame;
use starts::advanced;
use stream_rules::{Answer, Progress, Reader, Ready};

// A frame is handed out, behind so many bytes that were passed, and so many are left. The bytes skipped are counted
// again from here.
pub(crate) fn hand_out(
    reader: &mut Reader,
    taken: usize,
    passed: usize,
    length: usize,
    frame: Frame,
    left: usize,
) -> Answer
    requires { (left ≤ place_count) × (passed + length < 2 ^ 64) }
    ensures { fed_at reader.new result ≡ handed_out reader.old taken passed length frame left }
{
    let ready = Ready {
        taken,
        start: advanced(reader.at, passed),
        skipped: advanced(reader.skipped, passed),
        length,
        frame,
    };
    reader.count = left as u8;
    reader.at = advanced(reader.at, passed + length);
    reader.skipped = 0;
    Ok(Progress::Ready(ready))
}

// More is wanted: so many bytes were taken and so many passed, and so many are left.
pub(crate) fn wants(reader: &mut Reader, taken: usize, passed: usize, left: usize) -> Answer
    requires { left ≤ place_count }
    ensures { fed_at reader.new result ≡ wanting reader.old taken passed left }
{
    reader.count = left as u8;
    reader.at = advanced(reader.at, passed);
    reader.skipped = advanced(reader.skipped, passed);
    Ok(Progress::More(taken))
}

// A reader that is done keeps nothing, and what it drops is skipped.
pub(crate) fn done(reader: &mut Reader, dropped: usize) -> Answer
    ensures { fed_at reader.new result ≡ done_by reader.old dropped }
{
    reader.count = 0;
    reader.at = advanced(reader.at, dropped);
    reader.skipped = advanced(reader.skipped, dropped);
    Ok(Progress::Done(0))
}
