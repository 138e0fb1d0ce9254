// The capture reader: it holds the lent capture and the place reached, and gives the next frame as a
// part of the capture. The work is done by `find`, on a slice and a number.
ghost use Rattle.std.specs.Prelude.{◌≡◌};
ghost use Rattle.captures.specs.Captures.{Gives, GivesAt};

use crate::spans::find;
use texts::text;

#[derive(Clone, Copy)]
pub struct CaptureReader<'a> {
    pub capture: &'a [u8],
    pub place: usize,
}

// A reader at a place of a capture.
pub fn reader_at<'a>(capture: &'a [u8], place: usize) -> CaptureReader<'a>
    ensures { (result.capture ≡ capture.entry) × (result.place ≡ place) }
{
    CaptureReader { capture, place }
}

// The next frame, or, when only reports are wanted, the next status report. The reader's place is then
// just behind it. Where there is none it gives the empty part, and its place stays.
pub fn next<'s, 'a>(reader: &'s mut CaptureReader<'a>, family: u8, reports: bool) -> &'a [u8]
    ensures { Gives family reports reader.old reader.new result }
{
    let capture = reader.capture;
    let Some(span) = find(family, capture, reader.place, reports) else {
        return &capture[..0];
    };
    reader.place = span.behind;
    text(capture, span.start, span.length)
}

// The same with plain parameters: a reader is made at the place, and the place that it reaches is left
// there.
pub fn next_at<'s, 'a>(
    capture: &'a [u8],
    place: &'s mut usize,
    family: u8,
    reports: bool,
) -> &'a [u8]
    ensures { GivesAt family reports capture.entry place.old place.new result }
{
    let mut reader = reader_at(capture, *place);
    let part = next(&mut reader, family, reports);
    *place = reader.place;
    part
}
