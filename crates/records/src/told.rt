// What is told of a frame: its kind, and its values with their signs, in document 01's order. Rows of numbers and texts
// are made from it.
ghost use Rattle.std.specs.Prelude.{◌≡◌, [], map, pos, length, ◌≤◌};
ghost use Rattle.rules.specs.declared.Frame.TheVariants.{Apa03, Message as FrameOf};
ghost use Rattle.records.specs.Told.{value_places, with_values, fields_of, FieldsTold};

use crate::fields::{of_02, of_03, of_05, of_status};
use crate::messages::{of_clock, of_letters};
use rules::{CC, FT, Frame, Kind, Message, RV, STATUS_VALUES, Sentence03};

// How many values a frame has at most: those of a status report.
pub const VALUE_PLACES: usize = STATUS_VALUES;

// The kind of a frame, how many values it has, and these at the front of the places, with zeros in the others. There is no
// heap, and how many a frame has is known only when it is told: so the places are those of the longest, with a count beside.
#[derive(Clone, Copy)]
pub struct Fields {
    pub kind: Kind,
    pub count: usize,
    pub values: [i64; VALUE_PLACES],
}

// A frame without values.
fn without_values(kind: Kind) -> Fields
    ensures { result ≡ with_values kind [] }
{
    Fields {
        kind,
        count: 0,
        values: [0i64; VALUE_PLACES],
    }
}

// A frame whose values are these numbers.
fn with_numbers(kind: Kind, numbers: &[u32]) -> Fields
    requires { length numbers.now ≤ value_places }
    ensures { result ≡ with_values kind (map pos numbers.now) }
{
    let mut values = [0i64; VALUE_PLACES];
    for (i, n) in numbers.iter().enumerate() {
        values[i] = i64::from(*n);
    }
    Fields {
        kind,
        count: numbers.len(),
        values,
    }
}

// Sentence 03: its temperature has a sign, and comes behind its numbers.
#[tactic(auto, unfolding(rules::specs::Sentences::numbers03))]
fn fields_of_03(r: Sentence03) -> Fields
    ensures { result ≡ fields_of (Apa03 r) }
{
    let numbers = of_03(r);
    let eight = with_numbers(Kind::OfSentence(3), &numbers);
    let mut values = eight.values;
    values[8] = i64::from(r.temp);
    Fields {
        kind: Kind::OfSentence(3),
        count: 9,
        values,
    }
}

// The fields of a message: what a response tells, and the numbers that hold other letters.
#[tactic(auto, unfolding(rules::specs::Messages::word_from))]
fn fields_of_message(m: Message) -> Fields
    ensures { result ≡ fields_of (FrameOf m) }
{
    match m {
        Message::Question(letters) => without_values(Kind::OfQuestion(letters)),
        Message::Number(letters, n) => with_numbers(Kind::OfResponse(letters), &[n]),
        Message::Version(a, b) => with_numbers(Kind::OfResponse(RV), &[u32::from(a), u32::from(b)]),
        Message::Clock(c) => with_numbers(Kind::OfResponse(CC), &of_clock(c)),
        Message::Tune => without_values(Kind::OfResponse(FT)),
        Message::OtherLetters(w) => with_numbers(Kind::OfLetters(w), &of_letters(w)),
    }
}

// The fields of a frame.
#[tactic(auto, using(crate::proofs::Places::tells))]
pub fn fields_of(frame: Frame) -> Fields
    ensures { FieldsTold frame result }
{
    match frame {
        Frame::Ack(code) => without_values(Kind::OfAck(code)),
        Frame::Status(s) => with_numbers(Kind::OfStatus, &of_status(s)),
        Frame::Command(code) => without_values(Kind::OfCommand(code)),
        Frame::Apa02(r) => with_numbers(Kind::OfSentence(2), &of_02(r)),
        Frame::Apa03(r) => fields_of_03(r),
        Frame::Apa05(r) => with_numbers(Kind::OfSentence(5), &of_05(r)),
        Frame::Other(n) => without_values(Kind::OfSentence(n)),
        Frame::Message(m) => fields_of_message(m),
    }
}
