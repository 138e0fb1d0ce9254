// What a stream reader holds and answers, and how two stamps stand to each other. The rules for
// them stand in specs/.
#![tactic(auto)]

use rules::{Frame, Refusal, SHORTEST_FRAME};

// The held places of a reader: one fewer than the longest frame of any family has bytes.
pub const PLACES: usize = 133;

// What a sentence and a message stand between: an opening byte; text bytes that are neither of the two, and no more than so
// many; a closing byte; and so many bytes behind it.
#[derive(Clone, Copy)]
pub struct Brackets {
    pub opening: u8,
    pub closing: u8,
    pub most: usize,
    pub tail: usize,
}

// The longest capture, and the most frames that it has room for.
pub const LONGEST_CAPTURE: usize = 65536;

pub const LONGEST_LIST: usize = LONGEST_CAPTURE / SHORTEST_FRAME;

// A reader of one family's stream. Every value of it is a legal argument: the calls answer or refuse. A
// C program holds one too, so its fields lie as C lays them, without gaps: 144 bytes.
#[repr(C)]
#[derive(Clone, Copy)]
pub struct Reader {
    pub family: u8,
    // 0 until it is closed; any other value is closed (C keeps it, so it is a number)
    pub closed: u8,
    // how many of the held places are used, from the first on
    pub count: u8,
    pub held: [u8; PLACES],
    // the place in the stream of the first held byte, modulo 2^32
    pub at: u32,
    // the bytes skipped since the last frame, modulo 2^32
    pub skipped: u32,
}

// A frame that is handed out: the bytes taken by the call, the frame's start in the stream and the
// bytes skipped before it, both modulo 2^32, its length, and what it says.
#[derive(Clone, Copy)]
pub struct Ready {
    pub taken: usize,
    pub start: u32,
    pub skipped: u32,
    pub length: usize,
    pub frame: Frame,
}

// What a call that is not refused comes to: a frame; or more bytes wanted, or done, with the bytes taken.
#[derive(Clone, Copy)]
pub enum Progress {
    Ready(Ready),
    More(usize),
    Done(usize),
}

// The answer of a call.
pub type Answer = Result<Progress, Refusal>;

// A reader after a call, and what the call answered.
#[derive(Clone, Copy)]
pub struct Fed {
    pub reader: Reader,
    pub answer: Answer,
}

// The answer of making a reader and of closing one.
pub type Outcome = Result<(), Refusal>;

// A reader that was made or closed, and what was answered.
#[derive(Clone, Copy)]
pub struct Turned {
    pub reader: Reader,
    pub outcome: Outcome,
}

// The answer of the lister: how many starts it filled in.
pub type Listed = Result<usize, Refusal>;

// How stamp a stands to stamp b.
#[derive(Clone, Copy)]
pub enum Order {
    Earlier,
    Later,
    Equal,
    CannotSay,
}
