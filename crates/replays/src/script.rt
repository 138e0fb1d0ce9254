// The replay of a script, call by call. A script is a row of calls on one reader: `c` closes it; `f`, a
// count byte n and n bytes offer these in one call; `o`, a count byte n and n bytes do the same and,
// as long as the answer is a frame, call again with the untaken rest.
ghost use Rattle.std.specs.Prelude.{◌<◌, IfSome, length};

use crate::shown;
use lines::Line;
use rules::Refusal;
use std::io;
use stream::{close, feed, fresh_reader};
use stream_rules::{Answer, LONGEST_CAPTURE, Progress, Reader, Ready};

// One call of a script, with the bytes that it offers.
#[derive(Clone, Copy)]
enum Call<'a> {
    Close,
    Feed(&'a [u8]),
    Feeds(&'a [u8]),
}

// A line for each call, and one for the end; or the refusal alone.
pub fn print_replay(rt: &impl Print, family: u8, script: &[u8]) -> io::Result<()> {
    let made = fresh_reader(family);
    match made.outcome {
        Ok(()) => print_calls(rt, made.reader, script),
        Err(e) => lines::print_refused(rt, u8::from(e)),
    }
}

fn print_calls(rt: &impl Print, first: Reader, script: &[u8]) -> io::Result<()> {
    if LONGEST_CAPTURE < script.len() {
        return lines::print_refused(rt, u8::from(Refusal::TooLong));
    }
    let mut reader = first;
    let mut rest = script;
    while !rest.is_empty() {
        let Some((call, behind)) = first_call(rest) else {
            return lines::print_text(rt, b"bad script");
        };
        reader = make_call(rt, reader, call)?;
        rest = behind;
    }
    lines::print_text(rt, b"end")
}

// The first call of a script and what stands behind it; none where it is no call, or is cut short.
fn first_call(script: &[u8]) -> Option<(Call<'_>, &[u8])>
    ensures { IfSome result (λ found. length found.1.now < length script.now) }
{
    match script {
        [b'c', behind @ ..] => Some((Call::Close, behind)),
        [b'f', count, rest @ ..] => {
            let (offered, behind) = rest.split_at_checked(usize::from(*count))?;
            Some((Call::Feed(offered), behind))
        }
        [b'o', count, rest @ ..] => {
            let (offered, behind) = rest.split_at_checked(usize::from(*count))?;
            Some((Call::Feeds(offered), behind))
        }
        _ => None,
    }
}

fn make_call(rt: &impl Print, reader: Reader, call: Call<'_>) -> io::Result<Reader> {
    match call {
        Call::Close => print_close(rt, reader),
        Call::Feed(offered) => print_feed(rt, reader, offered),
        Call::Feeds(offered) => print_feeds(rt, reader, offered),
    }
}

fn print_close(rt: &impl Print, reader: Reader) -> io::Result<Reader> {
    let closed = close(reader);
    match closed.outcome {
        Ok(()) => lines::print_text(rt, b"closed")?,
        Err(e) => lines::print_refused(rt, u8::from(e))?,
    }
    Ok(closed.reader)
}

fn print_feed(rt: &impl Print, reader: Reader, offered: &[u8]) -> io::Result<Reader> {
    let fed = feed(reader, offered);
    print_answer(rt, fed.answer)?;
    Ok(fed.reader)
}

// Offers the untaken rest again as long as a frame is handed out.
fn print_feeds(rt: &impl Print, first: Reader, offered: &[u8]) -> io::Result<Reader> {
    let mut reader = first;
    let mut rest = offered;
    loop {
        let fed = feed(reader, rest);
        let answer = fed.answer;
        reader = fed.reader;
        print_answer(rt, answer)?;
        let Ok(Progress::Ready(r)) = answer else {
            return Ok(reader);
        };
        rest = &rest[r.taken..];
    }
}

fn print_answer(rt: &impl Print, answer: Answer) -> io::Result<()> {
    match answer {
        Ok(Progress::Ready(r)) => print_ready(rt, r),
        Ok(Progress::More(n)) => print_count(rt, b"more", n),
        Ok(Progress::Done(n)) => print_count(rt, b"done", n),
        Err(e) => lines::print_refused(rt, u8::from(e)),
    }
}

fn print_ready(rt: &impl Print, r: Ready) -> io::Result<()> {
    let mut room = [0u8; 512];
    let mut line = Line::new(&mut room);
    line.text(b"frame");
    line.spaced(r.taken as u64);
    line.spaced(r.start as u64);
    line.spaced(r.skipped as u64);
    line.spaced(r.length as u64);
    line.text(b" ");
    shown::frame(&mut line, r.frame);
    line.print(rt)
}

fn print_count(rt: &impl Print, word: &[u8], n: usize) -> io::Result<()> {
    let mut room = [0u8; 64];
    let mut line = Line::new(&mut room);
    line.text(word);
    line.spaced(n as u64);
    line.print(rt)
}
