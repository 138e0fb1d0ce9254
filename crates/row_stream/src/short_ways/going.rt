// A call that decides nothing: the held bytes have begun a report or a sentence, the bytes offered go on with it, and
// it is not whole yet. Nothing is searched: the tests on the held and on the offered bytes are enough.
ghost use Rattle.std.specs.Prelude.{◌≡◌, true};
ghost use Rattle.rows.specs.Rows.{outcome_number};
ghost use Rattle.row_stream.specs.FedRows.{FeedsRow};
ghost use Rattle.row_stream.specs.Going.{ReportGoesOn, SentenceGoesOn, GoesOn};
ghost use Rattle.row_stream.specs.Short.{IsPlain};

use held_bytes::{keep_part, lay};
use rows::{Heading, MORE_ROW, lay_heading};
use rules::{LONGEST_PAYLOAD, REPLIES, REPORT_LENGTH, SENTENCES};
use spe::begins_report;
use starts::{are_inner, brackets_of};
use stream_rules::{Outcome, Reader};
use texts::text;

// True only where a report has begun in the held bytes, and is not whole with so many others.
fn report_goes_on(reader: &Reader, others: usize) -> bool
    ensures { result ≡ true → ReportGoesOn reader.now others }
{
    let count = usize::from(reader.count);
    count <= REPORT_LENGTH
        && others < REPORT_LENGTH - count
        && begins_report(text(&reader.held, 0, count))
}

// True only where a sentence has begun in the held bytes, and all behind its `$` and all others may stand in a payload.
fn sentence_goes_on(reader: &Reader, others: &[u8]) -> bool
    ensures { result ≡ true → SentenceGoesOn reader.now others.now }
{
    let count = usize::from(reader.count);
    let k = brackets_of(SENTENCES);
    1 <= count
        && count <= LONGEST_PAYLOAD
        && others.len() <= LONGEST_PAYLOAD - count
        && reader.held[0] == b'$'
        && are_inner(k, others)
        && are_inner(k, text(&reader.held, 1, count - 1))
}

// True only of such a call. Commands are too short for it.
pub(crate) fn goes_on(reader: &Reader, others: &[u8]) -> bool
    ensures { result ≡ true → GoesOn reader.now others.now }
{
    match reader.family {
        REPLIES => report_goes_on(reader, others.len()),
        SENTENCES => sentence_goes_on(reader, others),
        _ => false,
    }
}

// Such a call: all bytes are taken and held, and more is wanted.
pub(crate) fn feed_on(reader: &mut Reader, others: &[u8], numbers: &mut [i64]) -> Outcome
    requires plain { IsPlain reader.old numbers.old }
    requires goes_on { GoesOn reader.old others.now }
    ensures { FeedsRow reader.old others.now numbers.old (outcome_number result) reader.new numbers.new }
{
    let used = usize::from(reader.count);
    let all = used + others.len();
    lay(&mut reader.held, used, others);
    keep_part(&mut reader.held, 0, all);
    reader.count = all as u8;
    // of what is read the proof knows that it fits its type
    let _counts = (reader.at, reader.skipped);
    lay_heading(Heading::without_frame(MORE_ROW, others.len()), numbers)
}
