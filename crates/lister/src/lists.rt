// The lister: the starts of all frames in a capture.

ghost use Rattle.std.specs.Prelude.{◌≡◌, ℕ, true, ◌+◌, ◌≤◌, length, set};
ghost use Rattle.rules.specs.Answers.{is_family};
ghost use Rattle.stream_rules.specs.Heads.{shortest};
ghost use Rattle.stream_rules.specs.Lister.{longest_capture, frames, Lists};
ghost use Rattle.lister.specs.Fills.{Fills};
ghost use Rattle.lister.specs.GoodLengths.{StepsTo};

use crate::steps::{Step, bracketed_step, command_step, reply_step};
use rules::{COMMANDS, MESSAGES, REPLIES, Refusal};
use starts::{is_family, shortest_frame};
use stream_rules::{LONGEST_CAPTURE, Listed};

// Notes a start in its place, where the list has that place.
fn note(starts: &mut [u32], n: usize, at: usize)
    requires { at ≤ longest_capture }
    ensures { starts.new ≡ set starts.old n at }
{
    if n < starts.len() {
        starts[n] = at as u32;
    }
}

// Walks along the starts of a capture by its family's steps, fills in those of the frames, as far as there are places,
// and gives how many there are. With fewer bytes left than the family's shortest frame has there is none.
fn fill<F: Fn(usize) -> Step>(family: u8, capture: &[u8], starts: &mut [u32], step: F) -> usize
    requires short { length capture.now ≤ longest_capture }
    requires callable { (at : ℕ) → at + shortest family ≤ length capture.now → F.pre step at }
    requires steps { (at : ℕ) (r : _) → at + shortest family ≤ length capture.now → F.post step at r → StepsTo family capture.now at r }
    ensures { Fills family capture.now starts.old result starts.new }
{
    let end = (capture.len() + 1).saturating_sub(shortest_frame(family));
    let mut at = 0;
    let mut n = 0;
    // a step is as long as what it passes, so that no iterator counts the places
    while at < end {
        match step(at) {
            Step::Over(next) => {
                at = next;
                continue; // joined with the other arm, the walk along commands took half as long again
            }
            Step::Frame(length) => {
                note(starts, n, at);
                n += 1;
                at += length;
            }
        }
    }
    n
}

// Fills in the starts, as far as there are places, and gives how many there are.
fn fill_starts(family: u8, capture: &[u8], starts: &mut [u32]) -> usize
    requires { (is_family family ≡ true) × (length capture.now ≤ longest_capture) }
    ensures { Fills family capture.now starts.old result starts.new }
{
    match family {
        REPLIES => fill(family, capture, starts, |at| reply_step(capture, at)),
        COMMANDS => fill(family, capture, starts, |at| command_step(capture, at)),
        // messages and sentences have a walk each, with the brackets of that family
        MESSAGES => fill(
            family,
            capture,
            starts,
            |at| bracketed_step(MESSAGES, capture, at),
        ),
        _ => fill(
            family,
            capture,
            starts,
            |at| bracketed_step(family, capture, at),
        ),
    }
}

// How many frames a capture holds: the starts are filled into a list that is thrown away.
fn count_frames(family: u8, capture: &[u8]) -> usize
    requires { (is_family family ≡ true) × (length capture.now ≤ longest_capture) }
    ensures { result ≡ length (frames family capture.now) }
{
    let mut list = [0u32; 1];
    fill_starts(family, capture, &mut list)
}

// The starts of the frames in a capture, and how many there are: refusal 1, then 7, then 4.
pub fn list_frames(family: u8, capture: &[u8], starts: &mut [u32]) -> Listed
    ensures { Lists family capture.now starts.old result starts.new }
{
    if !is_family(family) {
        return Err(Refusal::NoFamily);
    }
    if LONGEST_CAPTURE < capture.len() {
        return Err(Refusal::TooLong);
    }
    // here there is room for as many frames as there can be, and one pass is enough
    if capture.len() / shortest_frame(family) <= starts.len() {
        return Ok(fill_starts(family, capture, starts));
    }
    if starts.len() < count_frames(family, capture) {
        return Err(Refusal::NoRoom);
    }
    Ok(fill_starts(family, capture, starts))
}
