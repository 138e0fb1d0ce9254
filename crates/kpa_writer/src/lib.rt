// The writer of the KPA1500's messages: into the lent output's front, or it refuses and leaves that as it was.
#![tactic(auto)]

ghost use Rattle.std.specs.Prelude.{◌≡◌, true, ◌+◌, ◌*◌, ◌≤◌, ◌++◌, length};
ghost use Rattle.rules.specs.Answers.{Writes};
ghost use Rattle.rules.specs.Messages.{word_letters, message_frame, is_asked, message_in_range, message_bytes};
ghost use Rattle.kpa_writer.specs.Pairs.{pairs_over};
ghost use Rattle.rules.specs.declared.Message.TheVariants.{Question, Number, Version, Clock as ClockOf};

use pens::{put_byte, put_bytes};
use records::{behind_letters, clock_in_range};
use rules::{Behind, CC, Clock, FT, Message, RV, Refusal, Written};

// A caret, letters, a text behind them, and a semicolon.
#[tactic(auto, using(kpa::proofs::LastLetters::few_letters, pens::proofs::Writing::has_no_room))]
fn write_letters(letters: u32, t: &[u8], out: &mut [u8]) -> Written
    ensures { Writes true Refusal.NoRecord (message_frame (word_letters letters ++ t.now)) out.old result out.new }
{
    let n = kpa::word_length(letters);
    let bytes = kpa::word_bytes(letters);
    let end = 1 + n + t.len();
    if out.len() <= end {
        return Err(Refusal::NoRoom);
    }
    put_byte(out, 0, b'^');
    put_bytes(out, 1, &bytes[4 - n..]);
    put_bytes(out, 1 + n, t);
    put_byte(out, end, b';');
    Ok(end + 1)
}

// Whether letters are those of a question.
fn is_asked(behind: Behind) -> bool
    ensures { result ≡ is_asked behind }
{
    matches!(
        behind,
        Behind::ANumber(_, _) | Behind::AVersion | Behind::AClock
    )
}

#[tactic(auto, using(pens::proofs::Writing::refuses, pens::proofs::Writing::allowed_too), unfolding(rules::specs::Messages::message_in_range, rules::specs::Messages::message_bytes))]
fn write_question(letters: u32, out: &mut [u8]) -> Written
    ensures { Writes (message_in_range (Question letters)) Refusal.NoRecord (message_bytes (Question letters)) out.old result out.new }
{
    if !is_asked(behind_letters(letters)) {
        return Err(Refusal::NoRecord);
    }
    write_letters(letters, b"", out)
}

// All digits of a number, up to five, behind their letters.
fn write_number(letters: u32, n: u32, out: &mut [u8]) -> Written
    ensures { Writes (message_in_range (Number letters n)) Refusal.NoRecord (message_bytes (Number letters n)) out.old result out.new }
{
    let Behind::ANumber(width, limit) = behind_letters(letters) else {
        return Err(Refusal::NoRecord);
    };
    if limit < n {
        return Err(Refusal::NoRecord);
    }
    let mut digits = [b'0'; 5];
    pens::put_number(&mut digits, 0, width, n, b'0');
    write_letters(letters, texts::text(&digits, 0, width), out)
}

// Numbers below 100 as two digits each, in a text that has their places, with a mark between each two.
fn put_pairs(t: &mut [u8], numbers: &[u8])
    requires { 3 * length numbers.now ≤ length t.old + 1 }
    ensures { t.new ≡ pairs_over numbers.now t.old }
{
    for (k, n) in numbers.iter().enumerate() {
        t[3 * k] = b'0' + *n / 10;
        t[3 * k + 1] = b'0' + *n % 10;
    }
}

#[tactic(auto, using(pens::proofs::Writing::refuses, pens::proofs::Writing::allowed_too), unfolding(crate::specs::Pairs::pairs_over, rules::specs::Messages::message_in_range, rules::specs::Messages::message_bytes, rules::specs::Messages::word_letters, rules::specs::Messages::without_zeros, rules::specs::Messages::pairs_text, rules::specs::Numbers::with_zeros))]
fn write_version(a: u8, b: u8, out: &mut [u8]) -> Written
    ensures { Writes (message_in_range (Version a b)) Refusal.NoRecord (message_bytes (Version a b)) out.old result out.new }
{
    if 99 < a || 99 < b {
        return Err(Refusal::NoRecord);
    }
    let mut t = *b"00.00";
    put_pairs(&mut t, &[a, b]);
    write_letters(RV, &t, out)
}

#[tactic(auto, using(pens::proofs::Writing::refuses, pens::proofs::Writing::allowed_too), unfolding(crate::specs::Pairs::pairs_over, rules::specs::Messages::message_in_range, rules::specs::Messages::message_bytes, rules::specs::Messages::word_letters, rules::specs::Messages::without_zeros, rules::specs::Messages::pairs_text, rules::specs::Numbers::with_zeros))]
fn write_clock(c: Clock, out: &mut [u8]) -> Written
    ensures { Writes (message_in_range (ClockOf c)) Refusal.NoRecord (message_bytes (ClockOf c)) out.old result out.new }
{
    if !clock_in_range(c) {
        return Err(Refusal::NoRecord);
    }
    let mut t = *b"00-00-00T00:00:00";
    put_pairs(
        &mut t,
        &[c.year, c.month, c.day, c.hour, c.minute, c.second],
    );
    write_letters(CC, &t, out)
}

// A message by its record. Letters that are not listed have no writer.
#[tactic(auto, using(pens::proofs::Writing::refuses), unfolding(rules::specs::Messages::message_in_range, rules::specs::Messages::message_bytes, rules::specs::Messages::word_letters, rules::specs::Messages::without_zeros))]
pub fn write_message(m: Message, out: &mut [u8]) -> Written
    ensures { Writes (message_in_range m) Refusal.NoRecord (message_bytes m) out.old result out.new }
{
    match m {
        Message::Question(letters) => write_question(letters, out),
        Message::Number(letters, n) => write_number(letters, n, out),
        Message::Version(a, b) => write_version(a, b, out),
        Message::Clock(c) => write_clock(c, out),
        Message::Tune => write_letters(FT, b"", out),
        Message::OtherLetters(_) => Err(Refusal::NoRecord),
    }
}
