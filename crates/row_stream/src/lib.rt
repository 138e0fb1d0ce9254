// A call on a lent stream reader, with the row of what it answers. `feed_any` is the general way, and alone is right;
// `short_ways` has ways of which each serves only some calls, and without which every call is answered the same.
#![tactic(auto)]

mod short_ways;

ghost use Rattle.rows.specs.Rows.{outcome_number};
ghost use Rattle.row_stream.specs.FedRows.{FeedsRow};

use crate::short_ways::feed_short;
use held_bytes::feed;
use rows::{LONGEST_ROW, lay_answer};
use stream_rules::{Outcome, Reader};

// Any call, by its answer. Where it is refused, or the row has no room, all is as it was. (Only with
// fewer numbers than the longest row has is the reader kept, to be put back.)
pub(crate) fn feed_any(reader: &mut Reader, offered: &[u8], numbers: &mut [i64]) -> Outcome
    ensures { FeedsRow reader.old offered.now numbers.old (outcome_number result) reader.new numbers.new }
{
    let was = if numbers.len() < LONGEST_ROW {
        Some(*reader)
    } else {
        None
    };
    let laid = lay_answer(feed(reader, offered), numbers);
    if laid.is_err() {
        if let Some(was) = was {
            *reader = was;
        }
    }
    laid
}

// A call that offers bytes, and the row of its answer. Where it is refused, or the row has no room, all is as
// it was.
pub fn feed_row(reader: &mut Reader, offered: &[u8], numbers: &mut [i64]) -> Outcome
    ensures { FeedsRow reader.old offered.now numbers.old (outcome_number result) reader.new numbers.new }
{
    feed_short(reader, offered, numbers)
}
