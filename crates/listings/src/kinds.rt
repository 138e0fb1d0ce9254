// The words for a kind of frame. Each function lays text into a lent line, at the place reached; what has no room is left
// out.
ghost use Rattle.std.specs.Prelude.{[], ◌∷◌, map};
ghost use Rattle.rules.specs.Numbers.{hex_digits};
ghost use Rattle.lines.specs.Lines.{LineTypes};
ghost use Rattle.listings.specs.Kinds.{sentence_texts, kind_texts};
ghost use Rattle.rules.specs.Messages.{word_letters};

use lines::Line;
use records::of_letters;
use rules::Kind;

// What kind of frame it is: `ack XX`, `status`, `command XX`, `APAnn`, or the letters of a message.
#[tactic(auto, unfolding(crate::specs::Kinds::kind_texts))]
pub fn kind(line: &mut Line<'_>, of: Kind)
    ensures { LineTypes (kind_texts of) line.old line.new }
{
    match of {
        Kind::OfAck(code) => coded(line, b"ack ", code),
        Kind::OfStatus => line.text(b"status"),
        Kind::OfCommand(code) => coded(line, b"command ", code),
        Kind::OfSentence(n) => sentence(line, n),
        Kind::OfQuestion(letters) | Kind::OfResponse(letters) => word(line, letters),
        Kind::OfLetters(w) => words(line, &of_letters(w)),
    }
}

// A word, and a code behind it.
fn coded(line: &mut Line<'_>, word: &[u8], code: u8)
    ensures { LineTypes (word.now ∷ hex_digits code ∷ []) line.old line.new }
{
    line.text(word);
    line.hex_byte(code);
}

// A sentence by its number.
#[tactic(auto, unfolding(crate::specs::Kinds::sentence_texts, rules::specs::Numbers::with_zeros))]
fn sentence(line: &mut Line<'_>, n: u8)
    ensures { LineTypes (sentence_texts n) line.old line.new }
{
    let two = n % 100;
    let name = [b'A', b'P', b'A', b'0' + two / 10, b'0' + two % 10];
    line.text(&name);
}

// The letters that a number holds.
#[tactic(auto, using(kpa::proofs::LastLetters::few_letters, kpa::proofs::LastLetters::part_letters))]
fn word(line: &mut Line<'_>, letters: u32)
    ensures { LineTypes (word_letters letters ∷ []) line.old line.new }
{
    let n = kpa::word_length(letters);
    let bytes = kpa::word_bytes(letters);
    line.text(&bytes[4 - n..]);
}

// Those that numbers hold, one behind the other.
fn words(line: &mut Line<'_>, numbers: &[u32])
    ensures { LineTypes (map word_letters numbers.now) line.old line.new }
{
    for letters in numbers {
        word(line, *letters);
    }
}
