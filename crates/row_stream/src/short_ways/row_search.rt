// A search that lays the row of what it finds: a frame's, where the frame stands, or that of "more wanted". It gives the
// stop that it came to, with how far the call takes bytes: a frame's start and length, up to what settled it, but no
// less than was held; or the first undecided start, no length, and all the bytes.
ghost use Rattle.std.specs.Prelude.{◌≡◌, true, ◌≤◌, length};
ghost use Rattle.search.specs.Sought.{Stops};
ghost use Rattle.search.specs.declared.Sought.TheVariants.{Waiting};
ghost use Rattle.row_stream.specs.RowSought.{ReportBegun, LaysSought, RoomToSeek, SeeksRow};
ghost use Rattle.rules.specs.Status.{report_length_in};
ghost use Rattle.rows.specs.Rows.{longest_row};

use rows::{Arrival, Heading, MORE_ROW, lay_heading, read_row};
use rules::REPLIES;
use search::{Stop, next_stop};
use spe::{begins_report, report_length};
use starts::advanced;
use stream_rules::Reader;
use texts::further;

// True only where a report begins at the first byte, of family 1.
fn report_begun(family: u8, s: &[u8]) -> bool
    ensures { result ≡ true → ReportBegun family s.now }
{
    family == REPLIES && begins_report(s)
}

// The first stop. A report that has begun and is whole is one: the walk need not be asked.
fn first_stop(family: u8, s: &[u8], begun: bool) -> Stop
    requires { begun ≡ true → ReportBegun family s.now × (report_length_in s.now ≤ length s.now) }
    ensures { Stops family s.now 0 0 result }
{
    if begun {
        return Stop {
            at: 0,
            length: Some(report_length(s)),
            reach: 0,
        };
    }
    next_stop(family, s, 0, 0)
}

// More is wanted, from a start on.
fn lay_waiting(reader: &Reader, all: usize, from: usize, numbers: &mut [i64]) -> Stop
    requires there { reader.now.count ≤ all }
    requires room { longest_row ≤ length numbers.old }
    ensures { LaysSought reader.now all (Waiting from) numbers.old result numbers.new }
{
    let taken = all - usize::from(reader.count);
    // there is room for every row
    let _laid = lay_heading(Heading::without_frame(MORE_ROW, taken), numbers);
    Stop {
        at: from,
        length: None,
        reach: all,
    }
}

// The search from the first stop on, by a reader that held the first of these bytes.
fn walk(reader: &Reader, s: &[u8], first: Stop, numbers: &mut [i64]) -> Stop
    requires stops { Stops reader.now.family s.now 0 0 first }
    requires room { RoomToSeek reader.now s.now numbers.old }
    ensures { SeeksRow reader.now s.now numbers.old result numbers.new }
{
    let count = usize::from(reader.count);
    let mut stop = first;
    while let Some(length) = stop.length {
        let start = stop.at;
        let reach = further(stop.reach, start + length);
        let to = further(reach, count);
        let arrival = Arrival {
            taken: to - count,
            start: advanced(reader.at, start),
            skipped: advanced(reader.skipped, start),
        };
        if read_row(reader.family, &s[start..start + length], arrival, numbers).is_ok() {
            return Stop {
                at: start,
                length: Some(length),
                reach: to,
            };
        }
        stop = next_stop(reader.family, s, start + 1, reach);
    }
    lay_waiting(reader, s.len(), stop.at, numbers)
}

// The first start that is not bad, and the row of what stands there. A report that begins at the first byte and is not
// whole is undecided.
pub(crate) fn seek_row(reader: &Reader, s: &[u8], numbers: &mut [i64]) -> Stop
    requires { RoomToSeek reader.now s.now numbers.old }
    ensures { SeeksRow reader.now s.now numbers.old result numbers.new }
{
    let begun = report_begun(reader.family, s);
    if begun & (s.len() < report_length(s)) {
        return lay_waiting(reader, s.len(), 0, numbers);
    }
    let first = first_stop(reader.family, s, begun);
    walk(reader, s, first, numbers)
}
