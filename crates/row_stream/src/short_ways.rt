// Without this module everything is promised and answered as with it, only slower: the general way, `feed_any`,
// alone is right. Here stand all the short ways, each for some calls only:
//   front       a whole packet or report stands at the front of what is offered, and nothing is held
//   going       what is held has begun a report or a sentence, and what is offered only goes on with it
//   few         the held places have room for what is offered; `row_search` finds the frame there and lays its row
// To take them out: delete this file and the folder short_ways, here and in proofs/, the specs that name them
// (Short, Going, RowSought) and what proofs/Lib.antt lists for them; in lib.rt, let `feed_row` call `feed_any`.
mod few;
mod front;
mod going;
mod row_search;

ghost use Rattle.rows.specs.Rows.{outcome_number};
ghost use Rattle.row_stream.specs.FedRows.{FeedsRow};

use crate::feed_any;
use crate::short_ways::few::{feed_few, is_few};
use crate::short_ways::front::front_frame;
use crate::short_ways::going::{feed_on, goes_on};
use rows::LONGEST_ROW;
use stream_rules::{Outcome, Reader};

// The short way that serves this call, if there is one; else the general way.
pub(crate) fn feed_short(reader: &mut Reader, offered: &[u8], numbers: &mut [i64]) -> Outcome
    ensures { FeedsRow reader.old offered.now numbers.old (outcome_number result) reader.new numbers.new }
{
    if reader.closed != 0 {
        return feed_any(reader, offered, numbers);
    }
    if numbers.len() < LONGEST_ROW {
        return feed_any(reader, offered, numbers);
    }
    if reader.count == 0 {
        if front_frame(reader, offered, numbers) {
            return Ok(());
        }
    } else if goes_on(reader, offered) {
        return feed_on(reader, offered, numbers);
    }
    if is_few(reader, offered.len()) {
        return feed_few(reader, offered, numbers);
    }
    feed_any(reader, offered, numbers)
}
