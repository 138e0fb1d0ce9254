// What a capture reader gives next, on a slice and a number: the earliest frame from a place on, or,
// when only reports are wanted, the first status report among the frames from there on.
ghost use Rattle.std.specs.Prelude.{◌≡◌};
ghost use Rattle.stream_rules.specs.Lister.{NextFrame};
ghost use Rattle.captures.specs.Finds.{next_in};

use rules::Frame;
use search::first_good;
use starts::is_family;
use stream_rules::LONGEST_CAPTURE;
use texts::text;

// Where a frame stands in a capture, and the place reached: just behind it.
#[derive(Clone, Copy)]
pub struct Span {
    pub start: usize,
    pub length: usize,
    pub behind: usize,
}

// The next frame from a place on. It is none where no frame is left, the place is beyond the end, or
// refusal 1 or 7 would apply.
pub fn find(family: u8, capture: &[u8], place: usize, reports: bool) -> Option<Span>
    ensures { result ≡ next_in family capture.now place reports }
{
    if !is_family(family) {
        return None;
    }
    if LONGEST_CAPTURE < capture.len() {
        return None;
    }
    let mut at = place;
    // a step is as long as what it passes, so that no iterator counts the places
    while let Some(first) = first_good(family, capture, at) {
        at = first.start + first.length;
        if reports {
            // document 01 names this form
            let Frame::Status(_) = first.frame else {
                continue;
            };
        }
        return Some(Span {
            start: first.start,
            length: first.length,
            behind: at,
        });
    }
    None
}

// The earliest good frame from a place on, as a part of the capture, or the empty part.
pub fn next_frame(family: u8, capture: &[u8], place: usize) -> &[u8]
    ensures { NextFrame family capture.entry place result }
{
    let Some(span) = find(family, capture, place, false) else {
        return &capture[..0];
    };
    text(capture, span.start, span.length)
}
