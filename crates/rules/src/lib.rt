// What is read and written: the records of the four families, the frame that holds one of them,
// and the answers of a reader and of a writer. The rules for them stand in specs/. Also the numbers of
// documents 01 and 02 that more than one room needs, each here once.
#![tactic(auto)]

ghost use Rattle.std.specs.Prelude.{◌≡◌};
ghost use Rattle.rules.specs.Refusals.{number_for};

// The families: replies of an SPE amplifier, sentences of the Alpha 9500, commands to an SPE amplifier, messages to and from
// a KPA1500. (Numbers and no enum: a caller may give any number, C too, and is refused by number 1.)
pub const REPLIES: u8 = 1;

pub const SENTENCES: u8 = 2;

pub const COMMANDS: u8 = 3;

pub const MESSAGES: u8 = 4;

// Why a call is refused, by document 01's numbers for no, from 1 on.
#[derive(Clone, Copy, PartialEq, Eq)]
pub enum Refusal {
    NoFamily = 1,
    NoCode,
    NoRecord,
    NoRoom,
    IsClosed,
    HoldsTooMuch,
    TooLong,
    NotGood,
}

impl From<Refusal> for u8 {
    ghost from_gives = { λ e n. n ≡ number_for e };

    fn from(refusal: Refusal) -> u8 {
        refusal as u8
    }
}

impl From<Refusal> for u32 {
    ghost from_gives = { λ e n. n ≡ number_for e };

    fn from(refusal: Refusal) -> u32 {
        refusal as u32
    }
}

// An SPE packet: its mark, by the way that it goes, three times; a count; what it counts; a checksum.
pub const REPLY_MARK: u8 = 0xAA;

pub const COMMAND_MARK: u8 = 0x55;

// the count of a packet with a code, and of a report
pub const CODE_COUNT: u8 = 0x01;

pub const REPORT_COUNT: u8 = 0x43;

// how many bytes a packet with a code has, a report without a comma before its line end and one with it, and the data
// in both
pub const PACKET_LENGTH: usize = 6;

pub const REPORT_LENGTH: usize = 75;

pub const LONGEST_REPORT: usize = REPORT_LENGTH + 1;

pub const DATA_LENGTH: usize = 67;

// where the byte behind a report's checksum stands, which tells its form
pub const BEHIND_CHECKSUM: usize = REPORT_LENGTH - 2;

// The longest payload of a sentence, and the shortest and the longest sentence: with `$`, `*` and four digits.
pub const LONGEST_PAYLOAD: usize = 128;

pub const SHORTEST_SENTENCE: usize = 11;

pub const LONGEST_SENTENCE: usize = 134;

// How many values a status report has: those of its fields, of which 7 holds two, and its form.
pub const STATUS_VALUES: usize = 21;

// The longest body of a message, and the shortest and the longest message: with the caret and the semicolon.
pub const LONGEST_BODY: usize = 38;

pub const SHORTEST_MESSAGE: usize = 3;

pub const LONGEST_MESSAGE: usize = 40;

// The listed letters of messages, each as one number: their bytes, the first the highest. (Numbers and no enum: a row has
// them so, and any others may stand there.)
pub const SN: u32 = 0x534E;

pub const RV: u32 = 0x5256;

pub const PWF: u32 = 0x505746;

pub const PWI: u32 = 0x505749;

pub const PWR: u32 = 0x505752;

pub const PWD: u32 = 0x505744;

pub const FR: u32 = 0x4652;

pub const FQ: u32 = 0x4651;

pub const FS: u32 = 0x4653;

pub const HS: u32 = 0x4853;

pub const CC: u32 = 0x4343;

pub const FT: u32 = 0x4654;

// How many numbers hold the letters of a message that is not listed, and how many letters each of them holds.
pub const LETTER_WORDS: usize = 10;

pub const WORD_LETTERS: usize = 4;

// No frame of any family has fewer bytes: the shortest is a message with a single letter.
pub const SHORTEST_FRAME: usize = SHORTEST_MESSAGE;

// A status report of an SPE amplifier: fields 1 to 19 of document 01, of which 7 holds two, and which of its two forms it
// has. Letters are kept as their ASCII bytes.
#[derive(Clone, Copy)]
pub struct Status {
    // 20 for 20K, 13 for 13K
    pub id: u8,
    // S or O
    pub state: u8,
    // R or T
    pub direction: u8,
    // x, A or B
    pub bank: u8,
    pub input: u8,
    pub band: u8,
    // the transmit antenna
    pub transmit: u8,
    // t, b or a
    pub tuner: u8,
    // the receive antenna
    pub receive: u8,
    // L, M or H
    pub level: u8,
    pub watts: u32,
    // the SWR before the ATU, in hundredths
    pub swratu: u32,
    // the SWR of the antenna, in hundredths
    pub swrant: u32,
    // in tenths
    pub volts: u32,
    // in tenths
    pub amperes: u32,
    // three temperatures
    pub upper: u32,
    pub lower: u32,
    pub combiner: u32,
    pub warning: u8,
    pub alarm: u8,
    // 1 where a comma stands between the checksum and the line end, else 0 (a number and no flag: a caller may give another,
    // and such a record is refused by number 3)
    pub comma: u8,
}

// Sentence 02 of the Alpha 9500, by the names of its format line in source document 001.
#[derive(Clone, Copy)]
pub struct Sentence02 {
    pub pfwd: u32,
    pub swr: u32,
    pub pin: u32,
    pub vp: u32,
    pub ip: u32,
    pub gain: u32,
    pub vg: u32,
    pub ig: u32,
    pub band: u32,
    pub state: u32,
    pub fault: u32,
    pub key: u32,
    pub pep: u32,
}

// Sentence 03: five supply voltages, the AC line, the mains board's status and tap, the temperature.
#[derive(Clone, Copy)]
pub struct Sentence03 {
    pub v5: u32,
    pub v12: u32,
    pub v24: u32,
    pub m12: u32,
    pub v40: u32,
    pub acline: u32,
    pub mbstatus: u32,
    pub mbtap: u32,
    // in tenths, with its sign
    pub temp: i32,
}

// Sentence 05: the two nibbles of each of its first four fields, then three numbers.
#[derive(Clone, Copy)]
pub struct Sentence05 {
    pub band: u8,
    pub segment: u8,
    pub memory: u8,
    pub antenna: u8,
    pub meter: u8,
    pub control: u8,
    pub options: u8,
    pub state: u8,
    pub wtime: u8,
    pub tcmd: u8,
    pub lcmd: u8,
}

// The date and the time of a KPA1500's clock.
#[derive(Clone, Copy)]
pub struct Clock {
    // 0 to 99, for 2000 to 2099
    pub year: u8,
    pub month: u8,
    pub day: u8,
    pub hour: u8,
    pub minute: u8,
    pub second: u8,
}

// Up to 38 capital letters, four to a number: their bytes, the first the highest. The number in which they end holds
// those that are left, and the numbers behind it are 0. (Ten fields and no array: the theorem that every kind's words have
// room in a line, listings/proofs/Room.antt, goes by there being ten, and a list in a definition has any length.)
#[derive(Clone, Copy)]
pub struct Letters {
    pub first: u32,
    pub second: u32,
    pub third: u32,
    pub fourth: u32,
    pub fifth: u32,
    pub sixth: u32,
    pub seventh: u32,
    pub eighth: u32,
    pub ninth: u32,
    pub tenth: u32,
}

// A message of the KPA1500. A question holds its letters, as one number; so does a response that is a number, beside that.
// A version has two numbers. A tune starts or has ended. Letters that are not listed come with nothing else.
#[derive(Clone, Copy)]
pub enum Message {
    Question(u32),
    Number(u32, u32),
    Version(u8, u8),
    Clock(Clock),
    Tune,
    OtherLetters(Letters),
}

// What may stand behind the letters of a response: a number, with how many digits it has and its limit; a version; a date
// and a time; nothing at all; and, behind letters that are not listed, anything.
#[derive(Clone, Copy)]
pub enum Behind {
    ANumber(usize, u32),
    AVersion,
    AClock,
    Alone,
    Anything,
}

// One good frame of any family. An acknowledgement and a command hold their code, another sentence
// its number.
#[derive(Clone, Copy)]
pub enum Frame {
    Ack(u8),
    Status(Status),
    Command(u8),
    Apa02(Sentence02),
    Apa03(Sentence03),
    Apa05(Sentence05),
    Other(u8),
    Message(Message),
}

// The kind of a frame: an acknowledgement or a command with its code, a status report, a sentence with its number, or
// a question, a response or another message with its letters.
#[derive(Clone, Copy)]
pub enum Kind {
    OfAck(u8),
    OfStatus,
    OfCommand(u8),
    OfSentence(u8),
    OfQuestion(u32),
    OfResponse(u32),
    OfLetters(Letters),
}

// The answer of a reader of one frame.
pub type Reading = Result<Frame, Refusal>;

// The answer of a writer: how many bytes it wrote.
pub type Written = Result<usize, Refusal>;
