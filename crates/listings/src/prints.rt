// Prints the listing of a capture: what is printed is each line as it is laid, and of the printing nothing is promised.
ghost use Rattle.std.specs.Prelude.{◌≡◌, ◌+◌, IfOk, length};
ghost use Rattle.stream_rules.specs.Lister.{longest_list};
ghost use Rattle.listings.specs.Listing.{line_room};
ghost use Rattle.listings.specs.Tallies.{tallied, all_tallied, AllStarts, Onward};

use crate::table::{Tally, frame_line, heading, last_line};
use lines::Line;
use lister::list_frames;
use std::io;
use stream_rules::LONGEST_LIST;

const LINE: usize = 128;

// Room for every line of a listing, with its line end.
fn line_buffer() -> [u8; LINE]
    ensures { line_room ≡ length result }
{
    [0; LINE]
}

// Room for as many starts as a capture can have frames.
fn starts_buffer() -> [u32; LONGEST_LIST]
    ensures { longest_list ≡ length result }
{
    [0; LONGEST_LIST]
}

// A line for each frame of a capture and one for the whole, or the refusal alone.
pub fn print_listing(rt: &impl Print, family: u8, capture: &[u8]) -> io::Result<()> {
    let mut starts = starts_buffer();
    match list_frames(family, capture, &mut starts) {
        Ok(n) => {
            print_heading(rt)?;
            let tally = print_frames(rt, family, capture, &starts[..n])?;
            print_last(rt, capture, tally)
        }
        Err(e) => lines::print_refused(rt, u8::from(e)),
    }
}

fn print_heading(rt: &impl Print) -> io::Result<()> {
    let mut room = line_buffer();
    let mut line = Line::new(&mut room);
    heading(&mut line);
    line.print(rt)
}

// A line for each frame; gives the tally of all.
#[tactic(auto, unfolding(crate::specs::Tallies::behind_last, rules::specs::Bytes::total))]
fn print_frames(rt: &impl Print, family: u8, capture: &[u8], starts: &[u32]) -> io::Result<Tally>
    requires { AllStarts family capture.now starts.now }
    ensures { IfOk result (λ tally. tally ≡ all_tallied family capture.now) }
{
    let mut tally = Tally {
        family,
        listed: 0,
        end: 0,
        inside: 0,
    };
    for start in starts {
        tally = print_frame(rt, capture, *start as usize, tally)?;
    }
    Ok(tally)
}

fn print_frame(rt: &impl Print, capture: &[u8], start: usize, tally: Tally) -> io::Result<Tally>
    requires { Onward capture.now start tally }
    ensures { IfOk result (λ next. next ≡ tallied tally.family capture.now (tally.listed + 1)) }
{
    let mut room = line_buffer();
    let mut line = Line::new(&mut room);
    let further = frame_line(&mut line, capture, start, tally);
    line.print(rt)?;
    Ok(further)
}

fn print_last(rt: &impl Print, capture: &[u8], tally: Tally) -> io::Result<()>
    requires { tally ≡ all_tallied tally.family capture.now }
{
    let mut room = line_buffer();
    let mut line = Line::new(&mut room);
    last_line(&mut line, capture, tally);
    line.print(rt)
}
