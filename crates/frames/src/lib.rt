// The reader of one frame: a family number and lent bytes give the frame, or a refusal.
#![tactic(auto)]

ghost use Rattle.rules.specs.Answers.{Reads};

use rules::{COMMANDS, MESSAGES, REPLIES, Reading, Refusal, SENTENCES};

// The whole of the bytes is one good frame of the family, or it is refused: 1 where there is no such
// family, else 8.
#[tactic(auto, using(frame_laws::proofs::Saying::reads), unfolding(rules::specs::Answers::read_one))]
pub fn read_frame(family: u8, bytes: &[u8]) -> Reading
    ensures { Reads family bytes.now result }
{
    match family {
        REPLIES => spe::read_reply(bytes),
        SENTENCES => alpha::read_sentence(bytes),
        COMMANDS => spe::read_command(bytes),
        MESSAGES => kpa::read_message(bytes),
        _ => Err(Refusal::NoFamily),
    }
}
