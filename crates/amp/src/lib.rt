// The C boundary: the reader of one frame, the streams, the lister, the capture reader's search, the
// writers and the order of stamps, as functions that a C program calls. Each gives one number back, of most of
// them that of a refusal or 0, and leaves the rest in memory that is lent to it: what C has in place of a result.
#![tactic(auto)]

ghost use Rattle.std.specs.Prelude.{◌≡◌, true, cond, leb};
ghost use Rattle.rules.specs.Answers.{said_to_write};
ghost use Rattle.rules.specs.Sentences.{enable_bytes};
ghost use Rattle.stream_rules.specs.Lister.{order};
ghost use Rattle.rows.specs.Rows.{refusal_of, outcome_number};
ghost use Rattle.row_writer.specs.Given.{told_or, WritesNumbers, WritesGiven};
ghost use Rattle.row_stream.specs.FedRows.{FeedsRow};
ghost use Rattle.amp.specs.Boundary.{Freshens, Closes, ReadsRow, ListsStarts, Nexts, order_number};

use rows::Arrival;
use rules::Refusal;
use stream_rules::{Order, Outcome, Reader};

// The family as a byte; a number above 255 is no family, as 0 is none.
fn family_byte(family: u32) -> u8
    ensures { result ≡ cond (leb family 255) family 0 }
{
    u8::try_from(family).unwrap_or(0)
}

// The number of an outcome: its refusal's, or 0.
fn number_of(outcome: Outcome) -> u32
    ensures { result ≡ outcome_number outcome }
{
    match outcome {
        Ok(()) => 0,
        Err(refusal) => u32::from(refusal),
    }
}

// The number of what was told: 0, and the count goes to the lent place; or a refusal's, and the place is as it was.
fn tell(told: Result<usize, Refusal>, place: &mut usize) -> u32
    ensures { (result ≡ refusal_of (said_to_write told)) × (place.new ≡ told_or place.old told) }
{
    match told {
        Ok(n) => {
            *place = n;
            0
        }
        Err(refusal) => u32::from(refusal),
    }
}

// Makes the lent reader a fresh one of a family.
pub fn amp_fresh(reader: &mut Reader, family: u32) -> u32
    ensures { Freshens family reader.old result reader.new }
{
    let made = stream::fresh_reader(family_byte(family));
    if made.outcome.is_ok() {
        *reader = made.reader;
    }
    number_of(made.outcome)
}

// Offers bytes to the lent reader, and lays the row of what it answers. The reader's held places are lent on
// and altered where they stand; where the call is refused, what is stored is what stood there.
pub fn amp_feed(reader: &mut Reader, offered: &[u8], numbers: &mut [i64]) -> u32
    ensures { FeedsRow reader.old offered.now numbers.old result reader.new numbers.new }
{
    number_of(row_stream::feed_row(reader, offered, numbers))
}

// Closes the lent reader.
pub fn amp_close(reader: &mut Reader) -> u32
    ensures { Closes reader.old result reader.new }
{
    number_of(stream::close_lent(reader))
}

// Reads one frame, and lays its row.
pub fn amp_read(family: u32, bytes: &[u8], numbers: &mut [i64]) -> u32
    ensures { ReadsRow family bytes.now numbers.old result numbers.new }
{
    let alone = Arrival {
        taken: 0,
        start: 0,
        skipped: 0,
    };
    number_of(rows::read_row(family_byte(family), bytes, alone, numbers))
}

// The starts of the frames in a capture, and how many there are.
#[tactic(auto, using(crate::proofs::Families::listed_byte, crate::proofs::Families::left_byte))]
pub fn amp_list(family: u32, capture: &[u8], starts: &mut [u32], count: &mut usize) -> u32
    ensures { ListsStarts family capture.now starts.old count.old result starts.new count.new }
{
    let told = lister::list_frames(family_byte(family), capture, starts);
    tell(told, count)
}

// The next frame of a capture from a place on: its length, and its start where there is one.
pub fn amp_next(family: u32, capture: &[u8], place: usize, reports: u32, start: &mut usize) -> usize
    ensures { Nexts family capture.now place reports start.old result start.new }
{
    let Some(span) = captures::find(family_byte(family), capture, place, reports != 0) else {
        return 0;
    };
    *start = span.start;
    span.length
}

// How stamp a stands to stamp b.
pub fn amp_stamp_order(a: u32, b: u32) -> u32
    ensures { result ≡ order_number (order a b) }
{
    match starts::stamp_order(a, b) {
        Order::Earlier => 1,
        Order::Later => 2,
        Order::Equal => 3,
        Order::CannotSay => 4,
    }
}

// Writes the frame of a kind, a code and values, and tells its length.
pub fn amp_write(kind: u32, code: u32, values: &[i64], out: &mut [u8], length: &mut usize) -> u32
    ensures { WritesGiven kind code values.now out.old length.old result out.new length.new }
{
    tell(row_writer::write_given(kind, code, values, out), length)
}

// Writes the bytes that enable the Alpha, and tells their length.
pub fn amp_write_enable(out: &mut [u8], length: &mut usize) -> u32
    ensures { WritesNumbers true Refusal.NoRoom enable_bytes out.old length.old result out.new length.new }
{
    tell(row_writer::write_enable_given(out), length)
}
