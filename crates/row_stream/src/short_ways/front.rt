// A whole packet or report at the front of what is offered to a reader that holds nothing: the row is laid from the
// frame's bytes. Sentences have no such way.
ghost use Rattle.std.specs.Prelude.{◌≡◌, ◌+◌, ◌^◌, ◌<◌, []};
ghost use Rattle.rules.specs.Answers.{replies, commands};
ghost use Rattle.stream_rules.specs.Streams.{holding, wrap};
ghost use Rattle.row_stream.specs.Short.{IsPlain, FrontRow};

use held_bytes::clear;
use rows::{Arrival, COMMAND_ROW, Heading, lay_heading, read_row};
use rules::{COMMANDS, PACKET_LENGTH, REPLIES, REPORT_LENGTH};
use spe::command_in;
use starts::{advanced, bytes_needed};
use stream_rules::Reader;

// How a frame at the front arrives: its bytes are taken, and none was passed before it.
fn at_front(reader: &Reader, taken: usize) -> Arrival
    ensures value { result ≡ record { taken = taken; start = reader.now.at; skipped = reader.now.skipped } }
    ensures fits { (reader.now.at < 2 ^ 32) × (reader.now.skipped < 2 ^ 32) }
{
    let (start, skipped) = (reader.at, reader.skipped);
    Arrival {
        taken,
        start,
        skipped,
    }
}

// Behind a frame of so many bytes the reader holds nothing, and the bytes skipped are counted again.
fn go_behind(reader: &mut Reader, n: usize)
    ensures { reader.new ≡ holding reader.old.family reader.old.closed [] (wrap (reader.old.at + n)) 0 }
{
    clear(&mut reader.held);
    reader.count = 0;
    reader.at = advanced(reader.at, n);
    reader.skipped = 0;
}

// Hands out the good acknowledgement or report at the front of many bytes that are offered to a reader that holds
// nothing: its row is laid, and zeros are left in the places. Says whether one was handed out; else nothing is changed.
fn front_reply(reader: &mut Reader, offered: &[u8], numbers: &mut [i64]) -> bool
    requires family { reader.old.family ≡ replies }
    requires plain { IsPlain reader.old numbers.old }
    requires holds_none { reader.old.count ≡ 0 }
    ensures { FrontRow reader.old offered.now numbers.old result reader.new numbers.new }
{
    if offered.len() < REPORT_LENGTH {
        return false;
    }
    let Some(n) = bytes_needed(REPLIES, offered) else {
        return false;
    };
    if offered.len() < n {
        return false;
    }
    let arrival = at_front(reader, n);
    if read_row(REPLIES, &offered[..n], arrival, numbers).is_err() {
        return false;
    }
    go_behind(reader, n);
    true
}

// The same of a command.
fn front_command(reader: &mut Reader, offered: &[u8], numbers: &mut [i64]) -> bool
    requires family { reader.old.family ≡ commands }
    requires plain { IsPlain reader.old numbers.old }
    requires holds_none { reader.old.count ≡ 0 }
    ensures { FrontRow reader.old offered.now numbers.old result reader.new numbers.new }
{
    if offered.len() < PACKET_LENGTH {
        return false;
    }
    let Some(code) = command_in(&offered[..PACKET_LENGTH]) else {
        return false;
    };
    let heading = Heading {
        kind: COMMAND_ROW,
        code: u32::from(code),
        arrival: at_front(reader, PACKET_LENGTH),
        length: PACKET_LENGTH,
    };
    // there is room for every row
    let _laid = lay_heading(heading, numbers);
    go_behind(reader, PACKET_LENGTH);
    true
}

// The same of any family; sentences have no such way.
pub(crate) fn front_frame(reader: &mut Reader, offered: &[u8], numbers: &mut [i64]) -> bool
    requires plain { IsPlain reader.old numbers.old }
    requires holds_none { reader.old.count ≡ 0 }
    ensures { FrontRow reader.old offered.now numbers.old result reader.new numbers.new }
{
    match reader.family {
        COMMANDS => front_command(reader, offered, numbers),
        REPLIES => front_reply(reader, offered, numbers),
        _ => false,
    }
}
