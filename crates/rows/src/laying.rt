// A frame, and what a call answers, as a row of numbers laid at the front of lent memory. The values
// of a frame stand behind the row's first six numbers.
ghost use Rattle.std.specs.Prelude.{◌≡◌, ◌++◌, ℕ, ℤ, Ok, map, pos, length};
ghost use Rattle.rules.specs.Answers.{said};
ghost use Rattle.rules.specs.Refusals.{number_for, no_room};
ghost use Rattle.rows.specs.Rows.{kind_row, code_of, counted, row, row_fed, row_at, RowIn, AnswerIn, AnswerBy};
ghost use Rattle.rows.specs.Headings.{heading_of, heading_without};

use records::fields_of;
use rules::{Frame, Kind, Reading, Refusal, STATUS_VALUES};
use stream_rules::{Outcome, Progress};

// The first number of a row: what kind of frame, or that more is wanted, or that all is done. They are numbers and
// not an enum, since a C program has them from c/amp.h, and passes them too.
pub const ACK_ROW: u32 = 1;

pub const STATUS_ROW: u32 = 2;

pub const COMMAND_ROW: u32 = 3;

pub const SENTENCE_ROW: u32 = 4;

pub const MORE_ROW: u32 = 5;

pub const DONE_ROW: u32 = 6;

pub const QUESTION_ROW: u32 = 7;

pub const RESPONSE_ROW: u32 = 8;

pub const OTHER_ROW: u32 = 9;

// How many numbers stand before a frame's values, and how many the longest row has: that of a status report.
pub const HEADING_LENGTH: usize = 6;

pub const LONGEST_ROW: usize = HEADING_LENGTH + STATUS_VALUES;

// How a frame arrives: the bytes that the call takes, the frame's start in the stream and the bytes skipped before it,
// both modulo 2^32.
#[derive(Clone, Copy)]
pub struct Arrival {
    pub taken: usize,
    pub start: u32,
    pub skipped: u32,
}

// What stands before a row's values: what it is, how the frame arrives, and the frame's length.
#[derive(Clone, Copy)]
pub struct Heading {
    pub kind: u32,
    pub code: u32,
    pub arrival: Arrival,
    pub length: usize,
}

// A count, modulo 2^63.
fn count(n: usize) -> i64
    ensures { result ≡ counted n }
{
    (n % 0x8000_0000_0000_0000) as i64
}

impl Heading {
    // Of a row without a frame, only the bytes taken are told.
    pub fn without_frame(kind: u32, taken: usize) -> Heading
        ensures { result ≡ heading_without kind taken }
    {
        Heading {
            kind,
            code: 0,
            arrival: Arrival {
                taken,
                start: 0,
                skipped: 0,
            },
            length: 0,
        }
    }

    // The first six numbers of the row.
    fn numbers(self) -> [i64; HEADING_LENGTH]
        ensures { result ≡ heading_of self }
    {
        [
            i64::from(self.kind),
            i64::from(self.code),
            count(self.arrival.taken),
            i64::from(self.arrival.start),
            i64::from(self.arrival.skipped),
            count(self.length),
        ]
    }
}

// A value as a row holds it.
pub trait RowNumber: Copy {
    ghost number: { Self → ℤ };

    fn number(self) -> i64
        ensures { result ≡ number self };
}

impl RowNumber for u32 {
    ghost number = { pos };

    fn number(self) -> i64 {
        i64::from(self)
    }
}

impl RowNumber for i64 {
    ghost number = { λ v. v };

    fn number(self) -> i64 {
        self
    }
}

// Why a call is refused, as its caller has it: each refusal has a number, and one of them is for a row without room. They
// are the eight that document 01 numbers, or any bytes.
pub trait Refuses: Copy {
    ghost number: { Self → ℕ };

    fn no_room() -> Self
        ensures { number result ≡ no_room };
}

impl Refuses for Refusal {
    ghost number = { number_for };

    fn no_room() -> Refusal {
        Refusal::NoRoom
    }
}

impl Refuses for u8 {
    ghost number = { λ n. n };

    fn no_room() -> u8 {
        u8::from(Refusal::NoRoom)
    }
}

// Values in their places, of which there are as many.
fn put<T: RowNumber>(places: &mut [i64], values: &[T])
    requires { length places.old ≡ length values.now }
    ensures { places.new ≡ map T.number values.now }
{
    for (i, value) in values.iter().enumerate() {
        places[i] = value.number();
    }
}

// The first number of the row of a frame of a kind.
fn kind_row(kind: Kind) -> u32
    ensures { result ≡ kind_row kind }
{
    match kind {
        Kind::OfAck(_) => ACK_ROW,
        Kind::OfStatus => STATUS_ROW,
        Kind::OfCommand(_) => COMMAND_ROW,
        Kind::OfSentence(_) => SENTENCE_ROW,
        Kind::OfQuestion(_) => QUESTION_ROW,
        Kind::OfResponse(_) => RESPONSE_ROW,
        Kind::OfLetters(_) => OTHER_ROW,
    }
}

// The second number of that row.
fn code_of(kind: Kind) -> u32
    ensures { result ≡ code_of kind }
{
    match kind {
        Kind::OfAck(code) | Kind::OfCommand(code) => u32::from(code),
        Kind::OfSentence(n) => u32::from(n),
        Kind::OfQuestion(letters) | Kind::OfResponse(letters) => letters,
        Kind::OfStatus | Kind::OfLetters(_) => 0,
    }
}

// A row with these values behind its heading. Refusal 4 where it has no room.
pub fn lay_values<T: RowNumber>(heading: Heading, values: &[T], numbers: &mut [i64]) -> Outcome
    ensures { RowIn numbers result (heading_of heading ++ map T.number values.now) }
{
    if numbers.len() < HEADING_LENGTH {
        return Err(Refusal::NoRoom);
    }
    let (front, behind) = numbers.split_at_mut(HEADING_LENGTH);
    if behind.len() < values.len() {
        return Err(Refusal::NoRoom);
    }
    put(front, &heading.numbers());
    put(&mut behind[..values.len()], values);
    Ok(())
}

// A row that has no values: its six numbers, with the same refusal.
pub fn lay_heading(heading: Heading, numbers: &mut [i64]) -> Outcome
    ensures { RowIn numbers result (heading_of heading) }
{
    lay_values::<u32>(heading, &[], numbers)
}

// The row of a frame, with the same refusal.
fn lay_frame(frame: Frame, arrival: Arrival, length: usize, numbers: &mut [i64]) -> Outcome
    ensures { RowIn numbers result (row arrival.taken arrival.start arrival.skipped length frame) }
{
    let told = fields_of(frame);
    let heading = Heading {
        kind: kind_row(told.kind),
        code: code_of(told.kind),
        arrival,
        length,
    };
    lay_values(heading, &told.values[..told.count], numbers)
}

// What a call on a stream came to, with the same refusal.
fn lay_progress(progress: Progress, numbers: &mut [i64]) -> Outcome
    ensures { RowIn numbers result (row_fed (Ok progress)) }
{
    match progress {
        Progress::Ready(ready) => {
            let arrival = Arrival {
                taken: ready.taken,
                start: ready.start,
                skipped: ready.skipped,
            };
            lay_frame(ready.frame, arrival, ready.length, numbers)
        }
        Progress::More(taken) => lay_heading(Heading::without_frame(MORE_ROW, taken), numbers),
        Progress::Done(taken) => lay_heading(Heading::without_frame(DONE_ROW, taken), numbers),
    }
}

// What a call on a stream answered, with refusals of any type: the answer's own, else that of no room.
pub fn lay_answer<E: Refuses>(answer: Result<Progress, E>, numbers: &mut [i64]) -> Result<(), E>
    ensures { AnswerBy E.number numbers result answer }
{
    match answer {
        Ok(progress) => match lay_progress(progress, numbers) {
            Ok(()) => Ok(()),
            Err(_) => Err(E::no_room()),
        },
        Err(refusal) => Err(refusal),
    }
}

// What a reader of one frame answered, as the row of a frame of that length that arrives so.
pub fn lay_reading(
    reading: Reading,
    arrival: Arrival,
    length: usize,
    numbers: &mut [i64],
) -> Outcome
    ensures { AnswerIn numbers result (said reading) (row_at arrival.taken arrival.start arrival.skipped length reading) }
{
    lay_frame(reading?, arrival, length, numbers)
}
