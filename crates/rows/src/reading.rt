// Reads one frame and lays its row. What a reply or a command says goes from its bytes to the row.
ghost use Rattle.rules.specs.Answers.{replies, commands};
ghost use Rattle.rows.specs.ReadRows.{ReadIn};

use crate::laying::{
    ACK_ROW, Arrival, COMMAND_ROW, Heading, STATUS_ROW, lay_heading, lay_reading, lay_values,
};
use frames::read_frame;
use rules::{COMMANDS, REPLIES, Refusal};
use spe::{ack_in, command_in, read_numbers};
use stream_rules::Outcome;

// An acknowledgement or a report, or refusal 8.
fn reply_row(bytes: &[u8], arrival: Arrival, numbers: &mut [i64]) -> Outcome
    ensures { ReadIn numbers result replies bytes.now arrival }
{
    let length = bytes.len();
    if let Some(code) = ack_in(bytes) {
        let heading = Heading {
            kind: ACK_ROW,
            code: u32::from(code),
            arrival,
            length,
        };
        return lay_heading(heading, numbers);
    }
    let Some(values) = read_numbers(bytes) else {
        return Err(Refusal::NotGood);
    };
    let heading = Heading {
        kind: STATUS_ROW,
        code: 0,
        arrival,
        length,
    };
    lay_values(heading, &values, numbers)
}

// A command, or refusal 8.
fn command_row(bytes: &[u8], arrival: Arrival, numbers: &mut [i64]) -> Outcome
    ensures { ReadIn numbers result commands bytes.now arrival }
{
    let Some(code) = command_in(bytes) else {
        return Err(Refusal::NotGood);
    };
    let heading = Heading {
        kind: COMMAND_ROW,
        code: u32::from(code),
        arrival,
        length: bytes.len(),
    };
    lay_heading(heading, numbers)
}

// The frame that the bytes are, as a whole, laid as the row of a frame that arrives so; refusal 1, then 8, then 4 where
// the row has no room.
pub fn read_row(family: u8, bytes: &[u8], arrival: Arrival, numbers: &mut [i64]) -> Outcome
    ensures { ReadIn numbers result family bytes.now arrival }
{
    match family {
        REPLIES => reply_row(bytes, arrival, numbers),
        COMMANDS => command_row(bytes, arrival, numbers),
        _ => lay_reading(read_frame(family, bytes), arrival, bytes.len(), numbers),
    }
}
