// Frames and answers as rows of numbers, which a C program reads.
#![tactic(auto)]

mod laying;
mod reading;

pub use laying::{
    ACK_ROW, Arrival, COMMAND_ROW, Heading, LONGEST_ROW, MORE_ROW, QUESTION_ROW, RESPONSE_ROW,
    Refuses, SENTENCE_ROW, STATUS_ROW, lay_answer, lay_heading,
};
pub use reading::read_row;
