// Prints what the library makes of each line of standard input, for comparison with a stored output.
// A family digit, a space and a frame, either as it stands, from `$` or `^` on, or in hexadecimal digits:
// what the reader of one frame makes of it. A letter, the family digit, a space and hexadecimal digits: with `l` the listing of
// a capture, with `r` the replay of a script, with `w` a capture walked by the capture reader, with `p` a stream run through
// the lent reader. A line that begins with `#` is a heading and is printed as it is.
//
// What is printed is tested, not proved: the contracts only keep indices in range and say how a run goes on.
#![tactic(auto)]

mod panel;
mod walks;

ghost use Rattle.std.specs.Prelude.{◌≡◌, ◌*◌, ◌≤◌, IfSome, length};

use lines::Line;
use listings::print_listing;
use replays::print_replay;
use std::io;

// Room for the bytes of a line.
const ROOM: usize = 1024;

fn main(rt: HostRuntime) -> io::Result<()> {
    let mut buffer = [0u8; 65536];
    print_all(&rt, lines::read_full(&rt, &mut buffer)?)
}

fn print_all(rt: &impl Print, text: &[u8]) -> io::Result<()> {
    for line in text.split_inclusive(|b| *b == b'\n') {
        print_answer(rt, line.strip_suffix(b"\n").unwrap_or(line))?;
    }
    Ok(())
}

fn print_answer(rt: &impl Print, line: &[u8]) -> io::Result<()> {
    match line {
        [] | [_] | [b'l' | b'r' | b'w' | b'p', _] => print_bad(rt),
        [b'#', ..] => lines::print_text(rt, line),
        [letter @ (b'l' | b'r' | b'w' | b'p'), digit, _, digits @ ..] => {
            print_run(rt, *letter, family_of(*digit), digits)
        }
        [digit, _, b'$' | b'^', ..] => print_frame(rt, family_of(*digit), &line[2..]),
        [digit, _, digits @ ..] => print_hex(rt, family_of(*digit), digits),
    }
}

fn print_bad(rt: &impl Print) -> io::Result<()> {
    lines::print_text(rt, b"bad line")
}

fn family_of(digit: u8) -> u8 {
    digit.wrapping_sub(b'0')
}

// What a letter asks for.
fn print_run(rt: &impl Print, letter: u8, family: u8, digits: &[u8]) -> io::Result<()> {
    let mut room = [0u8; ROOM];
    let Some(bytes) = from_hex(digits, &mut room) else {
        return print_bad(rt);
    };
    match letter {
        b'l' => print_listing(rt, family, bytes),
        b'r' => print_replay(rt, family, bytes),
        b'w' => walks::print_walks(rt, family, bytes),
        _ => panel::print_stream(rt, family, bytes),
    }
}

fn print_hex(rt: &impl Print, family: u8, digits: &[u8]) -> io::Result<()> {
    let mut room = [0u8; ROOM];
    match from_hex(digits, &mut room) {
        Some(bytes) => print_frame(rt, family, bytes),
        None => print_bad(rt),
    }
}

// The bytes that the digits give, two for each; none where one is no digit, a digit is left over, or there are more bytes
// than the room has.
fn from_hex<'a>(digits: &[u8], room: &'a mut [u8]) -> Option<&'a [u8]>
    ensures pairs { IfSome result (λ bytes. 2 * length bytes.now ≡ length digits.now) }
    ensures fits { IfSome result (λ bytes. length bytes.now ≤ length room.old) }
{
    let pairs = digits.chunks_exact(2);
    let count = pairs.len();
    if !pairs.remainder().is_empty() || room.len() < count {
        return None;
    }
    for (byte, pair) in room.iter_mut().zip(pairs) {
        let [high, low] = pair else {
            return None;
        };
        *byte = checksums::hex_pair(*high, *low)?;
    }
    Some(&room[..count])
}

fn print_frame(rt: &impl Print, family: u8, bytes: &[u8]) -> io::Result<()> {
    let frame = match frames::read_frame(family, bytes) {
        Ok(frame) => frame,
        Err(e) => return lines::print_refused(rt, u8::from(e)),
    };
    let mut room = [0u8; 512];
    let mut line = Line::new(&mut room);
    replays::frame(&mut line, frame);
    line.print(rt)
}
