// The writers for a caller that gives plain numbers: a frame by its kind, its code and a row of values.
#![tactic(auto)]

mod fits;
mod given;

ghost use Rattle.std.specs.Prelude.{◌≡◌, true};
ghost use Rattle.rules.specs.Answers.{Writes, kind_of, allowed, not_allowed, bytes_of};
ghost use Rattle.rules.specs.Sentences.{enable_bytes};
ghost use Rattle.row_writer.specs.Given.{sentence_given, response_given, frame_given, byte_code, given_or_refused, WritesFrame};

use crate::fits::{BYTE, WORD, byte_at, word_at};
use crate::given::{
    clock_from, from02, from03, from05, is_row, is_row03, is_status_row, status_from,
};
use records::behind_letters;
use rows::{ACK_ROW, COMMAND_ROW, QUESTION_ROW, RESPONSE_ROW, SENTENCE_ROW, STATUS_ROW};
use rules::{Behind, Frame, Message, Reading, Refusal, Written};

// A frame by the writer of its kind; another sentence has none.
#[tactic(auto, unfolding(rules::specs::Answers::allowed, rules::specs::Answers::bytes_of))]
pub fn write_frame(f: Frame, out: &mut [u8]) -> Written
    ensures { Writes (allowed f) (not_allowed (kind_of f)) (bytes_of f) out.old result out.new }
{
    match f {
        Frame::Ack(code) => spe_writer::write_ack(code, out),
        Frame::Status(s) => spe_writer::write_status(s, out),
        Frame::Command(code) => spe_writer::write_command(code, out),
        Frame::Apa02(r) => alpha_writer::write_02(r, out),
        Frame::Apa03(r) => alpha_writer::write_03(r, out),
        Frame::Apa05(r) => alpha_writer::write_05(r, out),
        Frame::Other(_) => Err(Refusal::NoRecord),
        Frame::Message(m) => kpa_writer::write_message(m, out),
    }
}

// The sentence of a number, where the row fits its record.
#[tactic(auto, unfolding(crate::specs::Given::sentence_given))]
fn sentence_given(number: u32, values: &[i64]) -> Option<Frame>
    ensures { result ≡ sentence_given number values.now }
{
    match number {
        2 if is_row(values, 13, WORD) => Some(Frame::Apa02(from02(values))),
        3 if is_row03(values) => Some(Frame::Apa03(from03(values))),
        5 if is_row(values, 11, BYTE) => Some(Frame::Apa05(from05(values))),
        _ => None,
    }
}

// The response with these letters, where the row fits what may stand behind them.
#[tactic(auto, unfolding(crate::specs::Given::response_given))]
fn response_given(letters: u32, values: &[i64]) -> Option<Frame>
    ensures { result ≡ response_given letters values.now }
{
    let message = match behind_letters(letters) {
        Behind::ANumber(_, _) if is_row(values, 1, WORD) => {
            Message::Number(letters, word_at(values, 0))
        }
        Behind::AVersion if is_row(values, 2, BYTE) => {
            Message::Version(byte_at(values, 0), byte_at(values, 1))
        }
        Behind::AClock if is_row(values, 6, BYTE) => Message::Clock(clock_from(values)),
        Behind::Alone => Message::Tune,
        _ => return None,
    };
    Some(Frame::Message(message))
}

// A code that stands in a byte, or refusal 2.
fn byte_code(code: u32) -> Result<u8, Refusal>
    ensures { result ≡ byte_code code }
{
    u8::try_from(code).map_err(|_| Refusal::NoCode)
}

// The frame of a kind. Refusal 2 where its code has to be a byte and is none, and 3 where it holds no such values or
// there is no such kind.
#[tactic(auto, unfolding(crate::specs::Given::frame_given))]
fn frame_given(kind: u32, code: u32, values: &[i64]) -> Reading
    ensures { result ≡ given_or_refused kind code values.now }
{
    let given = match kind {
        ACK_ROW => Some(Frame::Ack(byte_code(code)?)),
        STATUS_ROW if is_status_row(values) => Some(Frame::Status(status_from(values))),
        COMMAND_ROW => Some(Frame::Command(byte_code(code)?)),
        SENTENCE_ROW => sentence_given(code, values),
        QUESTION_ROW => Some(Frame::Message(Message::Question(code))),
        RESPONSE_ROW => response_given(code, values),
        _ => None,
    };
    given.ok_or(Refusal::NoRecord)
}

// The frame that the numbers give, with the same refusals, and then those of its writer.
pub fn write_given(kind: u32, code: u32, values: &[i64], out: &mut [u8]) -> Written
    ensures { WritesFrame (frame_given kind code values.now) out.old result out.new }
{
    let frame = frame_given(kind, code, values)?;
    write_frame(frame, out)
}

// The bytes that enable the Alpha.
pub fn write_enable_given(out: &mut [u8]) -> Written
    ensures { Writes true Refusal.NoRoom enable_bytes out.old result out.new }
{
    alpha_writer::write_enable(out)
}
