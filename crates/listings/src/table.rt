// The lines of a listing: a heading; for each frame its start, its length, the bytes skipped before it
// and its kind; and last how many frames and bytes there are, and how many bytes are in no frame. Each
// function lays text into a lent line, at the place reached.
ghost use Rattle.std.specs.Prelude.{◌≡◌};
ghost use Rattle.lines.specs.Lines.{LineTypes};
ghost use Rattle.listings.specs.Parts.{part_texts};
ghost use Rattle.listings.specs.Listing.{heading_texts, number_texts};
ghost use Rattle.listings.specs.Tallies.{all_tallied, Onward, LaysLine, LaysNext, LaysLast};

use crate::kinds;
use captures::next_frame;
use lines::Line;
use records::fields_of;
use rules::Reading;

// How far a listing has come: how many frames of the family are listed, where the last of them ends, and
// how many bytes lie in them.
#[derive(Clone, Copy)]
pub struct Tally {
    pub family: u8,
    pub listed: usize,
    pub end: usize,
    pub inside: usize,
}

// The names of the columns.
pub(crate) fn heading(line: &mut Line<'_>)
    requires { line.old.end ≡ 0 }
    ensures { LaysLine heading_texts line.old line.new }
{
    line.text(b"start length skipped kind");
}

// The line of the first frame that is not listed yet, which starts at the place; gives the tally with this frame.
pub(crate) fn frame_line(line: &mut Line<'_>, capture: &[u8], start: usize, tally: Tally) -> Tally
    requires empty { line.old.end ≡ 0 }
    requires onward { Onward capture.now start tally }
    ensures { LaysNext capture.now tally line.old line.new result }
{
    let frame = next_frame(tally.family, capture, start);
    numbers(line, start, frame.len(), start - tally.end);
    part_kind(line, tally.family, frame);
    Tally {
        family: tally.family,
        listed: tally.listed + 1,
        end: start + frame.len(),
        inside: tally.inside + frame.len(),
    }
}

// The columns before the kind.
fn numbers(line: &mut Line<'_>, start: usize, long: usize, skipped: usize)
    requires { line.old.end ≡ 0 }
    ensures { LaysLine (number_texts start long skipped) line.old line.new }
{
    line.number(start as u64);
    line.spaced(long as u64);
    line.spaced(skipped as u64);
    line.text(b" ");
}

// What kind of frame a part of a capture is, or the refusal of a part that is none.
pub fn part_kind(line: &mut Line<'_>, family: u8, frame: &[u8])
    ensures { LineTypes (part_texts family frame.now) line.old line.new }
{
    match frames::read_frame(family, frame) {
        Ok(f) => kinds::kind(line, fields_of(f).kind),
        Err(e) => line.refused(u8::from(e)),
    }
}

// The last line, where all frames are listed.
pub(crate) fn last_line(line: &mut Line<'_>, capture: &[u8], tally: Tally)
    requires empty { line.old.end ≡ 0 }
    requires all { tally ≡ all_tallied tally.family capture.now }
    ensures { LaysLast capture.now tally line.old line.new }
{
    line.text(b"frames");
    line.spaced(tally.listed as u64);
    line.text(b" bytes");
    line.spaced(capture.len() as u64);
    line.text(b" skipped");
    line.spaced((capture.len() - tally.inside) as u64);
}
