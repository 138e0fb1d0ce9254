// Reads one message of the KPA1500, as a whole.
#![tactic(auto)]

mod behind;
mod letters;

ghost use Rattle.std.specs.Prelude.{◌≡◌, ◌&&◌};
ghost use Rattle.rules.specs.Bytes.{every, first};
ghost use Rattle.rules.specs.Messages.{is_body_byte, is_letter, is_message, letters_in, as_letters, behind};
ghost use Rattle.rules.specs.Answers.{messages, Reads, is_good, read_behind, read_body};
ghost use Rattle.rules.specs.declared.Frame.TheVariants.{Message as FrameOf};
ghost use Rattle.rules.specs.declared.Letters.{Letters};
ghost use Rattle.rules.specs.declared.Message.TheVariants.{OtherLetters};

use crate::behind::{read_clock, read_number, read_tune, read_version};
use crate::letters::{all_letters, lead_of};
pub use letters::{is_letter, word_bytes, word_length};
use records::behind_letters;
use rules::{Behind, Frame, LONGEST_MESSAGE, Message, Reading, Refusal, SHORTEST_MESSAGE};
use texts::text_byte;

// What a good message says, or the refusal 8.
#[tactic(auto, using(crate::proofs::Frames::framed))]
pub fn read_message(s: &[u8]) -> Reading
    ensures { Reads messages s.now result }
{
    if !is_framed(s) {
        return Err(Refusal::NotGood);
    }
    read_body(&s[1..s.len() - 1])
}

// Whether a body begins with a letter and says something good. Whoever asks knows that its bytes may stand in one, and how
// many they may be. No letters that are not listed are laid out for it.
pub fn is_good_body(body: &[u8]) -> bool
    ensures { result ≡ (is_letter (first body.now) && is_good (read_body body.now)) }
{
    let Some(word) = lead_of(body) else {
        return true;
    };
    if word == 0 {
        return false;
    }
    is_good_behind(word, &body[word_length(word)..])
}

// Whether letters and what stands behind them are good, whatever the letters are told as. It asks what read_body does: one
// function for both would make letters here for nothing, or hand each message on by value once more than now (docs/SPEED.md).
#[tactic(auto, using(frame_laws::proofs::Listed::number_fits))]
fn is_good_behind(letters: u32, t: &[u8]) -> bool
    ensures { (w : Letters) → result ≡ is_good (read_behind letters w (behind letters) t.now) }
{
    match behind_letters(letters) {
        Behind::ANumber(width, limit) => read_number(letters, width, limit, t).is_ok(),
        Behind::AVersion => read_version(letters, t).is_ok(),
        Behind::AClock => read_clock(letters, t).is_ok(),
        Behind::Alone => read_tune(t).is_ok(),
        Behind::Anything => true,
    }
}

// Whether the bytes are a message, whatever it says. The tests that cost least come first.
#[tactic(auto, using(crate::proofs::Frames::not_framed))]
fn is_framed(s: &[u8]) -> bool
    ensures { result ≡ is_message s.now }
{
    let n = s.len();
    SHORTEST_MESSAGE <= n
        && n <= LONGEST_MESSAGE
        && s[0] == b'^'
        && s[n - 1] == b';'
        && is_letter(s[1])
        && are_body_bytes(&s[1..n - 1])
}

// Whether each byte may stand in a body.
fn are_body_bytes(body: &[u8]) -> bool
    ensures { result ≡ every is_body_byte body.now }
{
    body.iter().all(|b| text_byte(b'^', b';', *b))
}

// A body whose letters are not listed.
fn other(body: &[u8]) -> Reading
    ensures { result ≡ Ok (FrameOf (OtherLetters (as_letters (letters_in body.now)))) }
{
    Ok(Frame::Message(Message::OtherLetters(all_letters(body))))
}

// What a body says, by its letters. All listed ones are shorter than what a single number holds.
fn read_body(body: &[u8]) -> Reading
    ensures { result ≡ read_body body.now }
{
    let Some(word) = lead_of(body) else {
        return other(body);
    };
    let rest = &body[word_length(word)..];
    match behind_letters(word) {
        Behind::ANumber(width, limit) => read_number(word, width, limit, rest),
        Behind::AVersion => read_version(word, rest),
        Behind::AClock => read_clock(word, rest),
        Behind::Alone => read_tune(rest),
        Behind::Anything => other(body),
    }
}
