// What a C program links: the functions of crate amp under the names that c/amp.h declares, each with the promise of the
// function that it calls and nothing of its own. A static library exports only functions of its own crate, so they stand here
// once more.
#![tactic(auto)]

ghost use Rattle.std.specs.Prelude.{◌≡◌, true};
ghost use Rattle.stream_rules.specs.Lister.{order};
ghost use Rattle.rules.specs.declared.Refusal.TheVariants.{NoRoom};
ghost use Rattle.rules.specs.Sentences.{enable_bytes};
ghost use Rattle.row_writer.specs.Given.{WritesGiven, WritesNumbers};
ghost use Rattle.row_stream.specs.FedRows.{FeedsRow};
ghost use Rattle.amp.specs.Boundary.{Closes, Freshens, ListsStarts, Nexts, ReadsRow, order_number};

use stream_rules::Reader;

// Makes the lent reader a fresh one of a family.
#[unsafe(no_mangle)]
pub extern "C" fn amp_fresh(reader: &mut Reader, family: u32) -> u32
    ensures { Freshens family reader.old result reader.new }
{
    amp::amp_fresh(reader, family)
}

// Offers bytes to the lent reader, and lays the row of what it answers.
#[unsafe(no_mangle)]
pub extern "C" fn amp_feed(reader: &mut Reader, offered: &[u8], numbers: &mut [i64]) -> u32
    ensures { FeedsRow reader.old offered.now numbers.old result reader.new numbers.new }
{
    amp::amp_feed(reader, offered, numbers)
}

// Closes the lent reader.
#[unsafe(no_mangle)]
pub extern "C" fn amp_close(reader: &mut Reader) -> u32
    ensures { Closes reader.old result reader.new }
{
    amp::amp_close(reader)
}

// Reads one frame, and lays its row.
#[unsafe(no_mangle)]
pub extern "C" fn amp_read(family: u32, bytes: &[u8], numbers: &mut [i64]) -> u32
    ensures { ReadsRow family bytes.now numbers.old result numbers.new }
{
    amp::amp_read(family, bytes, numbers)
}

// The starts of the frames in a capture, and how many there are.
#[unsafe(no_mangle)]
pub extern "C" fn amp_list(
    family: u32,
    capture: &[u8],
    starts: &mut [u32],
    count: &mut usize,
) -> u32
    ensures { ListsStarts family capture.now starts.old count.old result starts.new count.new }
{
    amp::amp_list(family, capture, starts, count)
}

// The next frame of a capture from a place on: its length, and its start where there is one.
#[unsafe(no_mangle)]
pub extern "C" fn amp_next(
    family: u32,
    capture: &[u8],
    place: usize,
    reports: u32,
    start: &mut usize,
) -> usize
    ensures { Nexts family capture.now place reports start.old result start.new }
{
    amp::amp_next(family, capture, place, reports, start)
}

// How stamp a stands to stamp b.
#[unsafe(no_mangle)]
pub extern "C" fn amp_stamp_order(a: u32, b: u32) -> u32
    ensures { result ≡ order_number (order a b) }
{
    amp::amp_stamp_order(a, b)
}

// Writes the frame of a kind, a code and values, and tells its length.
#[unsafe(no_mangle)]
pub extern "C" fn amp_write(
    kind: u32,
    code: u32,
    values: &[i64],
    out: &mut [u8],
    length: &mut usize,
) -> u32
    ensures { WritesGiven kind code values.now out.old length.old result out.new length.new }
{
    amp::amp_write(kind, code, values, out, length)
}

// Writes the bytes that enable the Alpha, and tells their length.
#[unsafe(no_mangle)]
pub extern "C" fn amp_write_enable(out: &mut [u8], length: &mut usize) -> u32
    ensures { WritesNumbers true NoRoom enable_bytes out.old length.old result out.new length.new }
{
    amp::amp_write_enable(out, length)
}
