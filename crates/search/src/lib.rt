// Walks the starts of some bytes: to the first that is not bad, or to the first good frame. Starts that a byte
// further on rules out are passed together; any other is examined once, and a frame is read only where
// nothing rules it out.
#![tactic(auto)]

mod heads;

ghost use Rattle.std.specs.Prelude.{◌≡◌, true, false, ◌≤◌, ◌<◌, length, get_or};
ghost use Rattle.rules.specs.Bytes.{every};
ghost use Rattle.rules.specs.Answers.{is_good, read_one};
ghost use Rattle.stream_rules.specs.Heads.{is_spe};
ghost use Rattle.search.specs.Sought.{sought_in, first_from, is_other, Unmarked, Stops};

use crate::heads::{Seen, examine_bracketed, examine_packet};
use frames::read_frame;
use rules::{COMMANDS, Frame, REPLIES, REPORT_LENGTH};
use spe::{ends_report, is_ack, is_command};
use starts::{brackets_of, is_spe, mark_of};
use texts::further;

// A good frame whose earlier starts are all bad: its place, its length, how far the bytes reach that
// settled it and those, and what it says.
#[derive(Clone, Copy)]
pub struct Hit {
    pub start: usize,
    pub length: usize,
    pub reach: usize,
    pub frame: Frame,
}

// The first start that is not bad: a good frame, or the place of an undecided one. (No `Result`: an undecided start is no failure.)
#[derive(Clone, Copy)]
pub enum Sought {
    Ready(Hit),
    Waiting(usize),
}

// The first good frame: its place, its length, and what it says.
#[derive(Clone, Copy)]
pub struct First {
    pub start: usize,
    pub length: usize,
    pub frame: Frame,
}

// True only of bytes that are no good packet or report: an end that is not a report's, or a code that is not
// allowed or does not stand twice. The values of a report are not looked at.
fn ruled_out(family: u8, s: &[u8]) -> bool
    requires { is_spe family ≡ true }
    ensures { result ≡ true → is_good (read_one family s.now) ≡ false }
{
    if REPORT_LENGTH <= s.len() {
        return !ends_report(s);
    }
    if family == COMMANDS {
        return !is_command(s);
    }
    !is_ack(s)
}

// A start that is not passed over: its place, the length of the frame that may stand there, and how far the
// bytes reach that settled the starts before it, exact where that is behind the bytes that even the shortest
// frame there has. There is no length where the start is undecided, or the bytes end.
#[derive(Clone, Copy)]
pub struct Stop {
    pub at: usize,
    pub length: Option<usize>,
    pub reach: usize,
}

// Whether a mark stands where the count of a start would.
fn mark_for_count(mark: u8, start: &[u8]) -> bool
    ensures there { result ≡ true → (4 ≤ length start.now) × (get_or start.now 3 0 ≡ mark) }
    ensures not_there { result ≡ false → 4 ≤ length start.now → get_or start.now 3 0 ≡ mark → ⊥ }
{
    if start.len() < 4 {
        return false;
    }
    start[3] == mark
}

// How many starts are passed over with a bad one, itself among them, that has so many bytes and no mark for its
// count: no frame starts at the count's byte or at the two before it. With fewer than four bytes there is no
// such byte.
fn passed_with(left: usize) -> usize
    ensures { (4 ≤ left → result ≡ 4) × (left < 4 → result ≡ 1) }
{
    if 4 <= left {
        return 4;
    }
    1
}

// True only where no mark stands in a block of 16 bytes. All its bytes are looked at, so that the compiler makes vector
// code of it.
fn no_mark(mark: u8, block: &[u8]) -> bool
    requires { length block.now ≡ 16 }
    ensures { result ≡ true → Unmarked mark block.now 0 16 }
{
    block.iter().fold(true, |none, b| none & (*b != mark))
}

// A place behind whole blocks without a mark: no frame starts in them. Only among replies is one looked for. (By the
// library's `as_chunks` the archive would not have the form that docs/TARGETS.md asks for.)
fn past_unmarked(family: u8, mark: u8, s: &[u8], from: usize) -> usize
    requires { from ≤ length s.now }
    ensures { (from ≤ result) × (result ≤ length s.now) × Unmarked mark s.now from result }
{
    if family != REPLIES {
        return from;
    }
    let mut at = from;
    while 16 <= s.len() - at {
        if !no_mark(mark, &s[at..at + 16]) {
            return at;
        }
        at += 16;
    }
    at
}

// The first stop from a place on, of packets and reports. No count is a mark.
fn packet_stop(family: u8, s: &[u8], from: usize, far: usize) -> Stop
    requires { is_spe family ≡ true }
    ensures { Stops family s.now from far result }
{
    let mark = mark_of(family);
    let mut at = from;
    let mut reach = far;
    // a step is as long as what it passes, so that no iterator counts the places
    while at < s.len() {
        if mark_for_count(mark, &s[at..]) {
            at += 1; // three marks may begin at the next byte
            continue;
        }
        match examine_packet(family, &s[at..]) {
            Seen::Whole(length) => {
                if !ruled_out(family, &s[at..at + length]) {
                    return Stop {
                        at,
                        length: Some(length),
                        reach,
                    };
                }
                reach = further(reach, at + length);
                at += 4; // its count is no mark
                continue;
            }
            Seen::Undecided => break,
            Seen::Bad(_) => {}
        }
        at = past_unmarked(family, mark, s, at + passed_with(s.len() - at));
    }
    Stop {
        at,
        length: None,
        reach,
    }
}

// The same between brackets. Before the byte that settled a bad start there is no other opening byte; and what settles a start
// never reaches behind a frame that starts later.
fn bracket_stop(family: u8, s: &[u8], from: usize, far: usize) -> Stop
    requires { is_spe family ≡ false }
    ensures { Stops family s.now from far result }
{
    let k = brackets_of(family);
    let mut at = from;
    // a step is as long as what it passes, so that no iterator counts the places
    while at < s.len() {
        // most starts are bad by their first byte
        if s[at] != k.opening {
            at += 1;
            continue;
        }
        match examine_bracketed(family, k, &s[at..]) {
            Seen::Whole(length) => return Stop {
                at,
                length: Some(length),
                reach: far,
            },
            Seen::Undecided => break,
            Seen::Bad(d) => {
                at += d - 1;
            }
        }
    }
    Stop {
        at,
        length: None,
        reach: far,
    }
}

// The first start from a place on that is undecided, or of which the reader of one frame has to decide:
// the caller reads the frame.
pub fn next_stop(family: u8, s: &[u8], from: usize, far: usize) -> Stop
    ensures { Stops family s.now from far result }
{
    if is_spe(family) {
        return packet_stop(family, s, from, far);
    }
    bracket_stop(family, s, from, far)
}

// The first start that is not bad.
pub fn seek(family: u8, s: &[u8]) -> Sought
    ensures { result ≡ sought_in family s.now }
{
    let mut stop = next_stop(family, s, 0, 0);
    // from stop to stop, which are as far apart as the bytes say
    while let Some(length) = stop.length {
        let at = stop.at;
        if let Ok(frame) = read_frame(family, &s[at..at + length]) {
            return Sought::Ready(Hit {
                start: at,
                length,
                reach: further(stop.reach, at + length),
                frame,
            });
        }
        stop = next_stop(family, s, at + 1, further(stop.reach, at + length));
    }
    Sought::Waiting(stop.at)
}

// The first good frame from a place on, with nothing more to come.
pub fn first_good(family: u8, s: &[u8], from: usize) -> Option<First>
    ensures { result ≡ first_from family s.now from }
{
    let mut stop = next_stop(family, s, from, 0);
    // from stop to stop, which are as far apart as the bytes say
    while stop.at < s.len() {
        let at = stop.at;
        // an undecided start is no frame here
        if let Some(length) = stop.length {
            if let Ok(frame) = read_frame(family, &s[at..at + length]) {
                return Some(First {
                    start: at,
                    length,
                    frame,
                });
            }
        }
        stop = next_stop(family, s, at + 1, 0);
    }
    None
}
