// A call on few bytes, for which the held places have room behind those held: they are laid there, and what they are
// with the held ones is searched where it stands.
ghost use Rattle.std.specs.Prelude.{◌≡◌, true, length};
ghost use Rattle.rows.specs.Rows.{outcome_number};
ghost use Rattle.row_stream.specs.FedRows.{FeedsRow};
ghost use Rattle.row_stream.specs.Short.{IsPlain, IsFew};

use crate::short_ways::row_search::seek_row;
use held_bytes::{keep_part, lay, served};
use starts::advanced;
use stream_rules::{Outcome, PLACES, Reader};
use texts::text;

// True only where a reader of the family may hold so many bytes, and the places have room for the others behind them.
pub(crate) fn is_few(reader: &Reader, others: usize) -> bool
    ensures { result ≡ true → IsFew reader.now others }
{
    served(reader).is_ok() && others <= PLACES - usize::from(reader.count)
}

// A call on few bytes, for which the places have room behind the held ones. They are laid there and searched.
pub(crate) fn feed_few(reader: &mut Reader, few: &[u8], numbers: &mut [i64]) -> Outcome
    requires plain { IsPlain reader.old numbers.old }
    requires few { IsFew reader.old (length few.now) }
    ensures { FeedsRow reader.old few.now numbers.old (outcome_number result) reader.new numbers.new }
{
    let used = usize::from(reader.count);
    lay(&mut reader.held, used, few);
    let all = used + few.len();
    let stop = seek_row(reader, text(&reader.held, 0, all), numbers);
    let from = stop.at + stop.length.unwrap_or(0);
    let left = stop.reach - from;
    keep_part(&mut reader.held, from, left);
    reader.count = left as u8;
    reader.at = advanced(reader.at, from);
    reader.skipped = match stop.length {
        Some(_) => 0,
        None => advanced(reader.skipped, from),
    };
    Ok(())
}
