// A stream run through one reader, which is kept from the first piece to the last frame and lent to each call: the
// bytes that are not yet taken are offered, so many at a time, then the reader is closed and drained. Only the reports
// are printed.
ghost use Rattle.std.specs.Prelude.{◌≡◌, IfOk, take};
ghost use Rattle.vectors.specs.Courses.{piece, ready_in, at_first, all_offered, all_closed, over, Comes};

use lines::Line;
use rules::Frame;
use std::io;
use stream::{close_lent, feed_lent};
use stream_rules::{Answer, Progress, Reader, Ready};

// How many bytes are offered at once.
const PIECE: usize = 16;

pub(crate) fn print_stream(rt: &impl Print, family: u8, stream: &[u8]) -> io::Result<()> {
    let made = stream::fresh_reader(family);
    match made.outcome {
        Ok(()) => {
            let mut reader = made.reader;
            print_kept(rt, &mut reader, stream)
        }
        Err(e) => lines::print_refused(rt, u8::from(e)),
    }
}

// The run as a whole: the bytes, the close, and what the reader still holds.
fn print_kept(rt: &impl Print, reader: &mut Reader, stream: &[u8]) -> io::Result<()>
    ensures { IfOk result (λ _. Comes reader.old (at_first stream.now) reader.new over) }
{
    print_offered(rt, reader, stream)?;
    // A refusal to close is no report: the reader then refuses each call, and there is nothing to drain.
    let _ = close_lent(reader);
    print_drained(rt, reader)
}

// Offers the bytes, a piece at a time, until none is left and the reader finds no frame. With a frame the bytes taken are
// no longer left, and without one the piece.
fn print_offered(rt: &impl Print, reader: &mut Reader, stream: &[u8]) -> io::Result<()>
    ensures { IfOk result (λ _. Comes reader.old (at_first stream.now) reader.new all_offered) }
{
    let mut rest = stream;
    loop {
        let piece = next_piece(rest);
        match ready(feed_lent(reader, piece)) {
            Some(r) => {
                print_report(rt, r)?;
                rest = &rest[r.taken..];
            }
            None if rest.is_empty() => return Ok(()),
            None => rest = &rest[piece.len()..],
        }
    }
}

// The next bytes to offer.
fn next_piece(rest: &[u8]) -> &[u8]
    ensures { result.now ≡ take piece rest.now }
{
    &rest[..rest.len().min(PIECE)]
}

// The frame that an answer hands out, if it does.
fn ready(answer: Answer) -> Option<Ready>
    ensures { result ≡ ready_in answer }
{
    match answer {
        Ok(Progress::Ready(r)) => Some(r),
        Ok(Progress::More(_) | Progress::Done(_)) | Err(_) => None,
    }
}

// Offers no bytes, as long as the reader hands out a frame that it holds.
fn print_drained(rt: &impl Print, reader: &mut Reader) -> io::Result<()>
    ensures { IfOk result (λ _. Comes reader.old all_closed reader.new over) }
{
    while let Some(r) = ready(feed_lent(reader, &[])) {
        print_report(rt, r)?;
    }
    Ok(())
}

// A frame that is no status report is passed over.
fn print_report(rt: &impl Print, r: Ready) -> io::Result<()> {
    let frame = r.frame;
    let Frame::Status(_) = frame else {
        return Ok(());
    };
    let mut room = [0u8; 512];
    let mut line = Line::new(&mut room);
    line.number(r.start as u64);
    line.text(b" ");
    replays::frame(&mut line, frame);
    line.print(rt)
}
