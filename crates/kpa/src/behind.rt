// What stands behind the listed letters of a message: nothing in a question; in a response a number, a version, or a date
// and a time.
ghost use Rattle.std.specs.Prelude.{◌≡◌, ◌*◌, ◌≤◌, length};
ghost use Rattle.rules.specs.Bytes.{part};
ghost use Rattle.texts.specs.Numbers.{digits_in};
ghost use Rattle.kpa.specs.Pairs.{PairsIn};
ghost use Rattle.rules.specs.Answers.{read_number, read_version, read_clock, read_tune};
ghost use Rattle.rules.specs.declared.Frame.TheVariants.{Message as FrameOf};
ghost use Rattle.rules.specs.declared.Message.TheVariants.{Question};

use records::clock_in_range;
use rules::{Clock, Frame, Message, Reading, Refusal};
use texts::{digits, text};

// A question.
fn question(letters: u32) -> Reading
    ensures { result ≡ Ok (FrameOf (Question letters)) }
{
    Ok(Frame::Message(Message::Question(letters)))
}

// A number of so many digits and up to a limit, or a question.
#[tactic(auto, using(crate::proofs::Responses::asked, crate::proofs::Responses::refused, crate::proofs::Responses::accepted, crate::proofs::Responses::digits_some, crate::proofs::Responses::digits_none), unfolding(rules::specs::Messages::is_number))]
pub(crate) fn read_number(letters: u32, width: usize, limit: u32, t: &[u8]) -> Reading
    requires { width ≤ 9 }
    ensures { result ≡ read_number letters width limit t.now }
{
    if t.is_empty() {
        return question(letters);
    }
    if t.len() != width {
        return Err(Refusal::NotGood);
    }
    let Some(n) = digits(t) else {
        return Err(Refusal::NotGood);
    };
    if limit < n {
        return Err(Refusal::NotGood);
    }
    Ok(Frame::Message(Message::Number(letters, n)))
}

// How many pairs the longest text of them has: a date and a time.
const MOST_PAIRS: usize = 6;

// The pair of digits at a place, as a number. It is below 100, so `as` is proved to lose nothing.
#[tactic(auto, using(crate::proofs::Responses::pair_small))]
fn pair_at(t: &[u8], k: usize) -> Option<u8>
    requires { k ≤ 5 }
    ensures { result ≡ digits_in (part (3 * k) 2 t.now) }
{
    let n = digits(text(t, 3 * k, 2))?;
    Some(n as u8)
}

// The numbers of a text that is pairs of digits with these marks between them; the places behind them hold zeros. They are as many
// for each text, and not a parameter, so that the archive has this once (docs/TARGETS.md).
fn pairs_of(marks: &[u8], t: &[u8]) -> Option<[u8; MOST_PAIRS]>
    requires { length marks.now ≤ 5 }
    ensures { PairsIn marks.now t.now result }
{
    if t.len() != 3 * marks.len() + 2 {
        return None;
    }
    let mut numbers = [0; MOST_PAIRS];
    for (k, mark) in marks.iter().enumerate() {
        if t[3 * k + 2] != *mark {
            return None;
        }
        numbers[k] = pair_at(t, k)?;
    }
    numbers[marks.len()] = pair_at(t, marks.len())?;
    Some(numbers)
}

// A version, or a question.
#[tactic(auto, using(crate::proofs::Responses::asked, crate::proofs::Responses::refused, crate::proofs::Responses::accepted))]
pub(crate) fn read_version(letters: u32, t: &[u8]) -> Reading
    ensures { result ≡ read_version letters t.now }
{
    if t.is_empty() {
        return question(letters);
    }
    let Some(pairs) = pairs_of(b".", t) else {
        return Err(Refusal::NotGood);
    };
    Ok(Frame::Message(Message::Version(pairs[0], pairs[1])))
}

// A real date and a time, or a question.
#[tactic(auto, using(crate::proofs::Responses::asked, crate::proofs::Responses::refused, crate::proofs::Responses::accepted))]
pub(crate) fn read_clock(letters: u32, t: &[u8]) -> Reading
    ensures { result ≡ read_clock letters t.now }
{
    if t.is_empty() {
        return question(letters);
    }
    let Some(pairs) = pairs_of(b"--T::", t) else {
        return Err(Refusal::NotGood);
    };
    let [year, month, day, hour, minute, second] = pairs;
    let clock = Clock {
        year,
        month,
        day,
        hour,
        minute,
        second,
    };
    if !clock_in_range(clock) {
        return Err(Refusal::NotGood);
    }
    Ok(Frame::Message(Message::Clock(clock)))
}

// FT is alone.
#[tactic(auto, using(crate::proofs::Responses::same_none))]
pub(crate) fn read_tune(t: &[u8]) -> Reading
    ensures { result ≡ read_tune t.now }
{
    if !t.is_empty() {
        return Err(Refusal::NotGood);
    }
    Ok(Frame::Message(Message::Tune))
}
