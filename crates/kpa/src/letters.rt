// The letters of a message: the run of them that a body begins with, and letters as numbers, four to each.
ghost use Rattle.std.specs.Prelude.{◌≡◌, map, ◌+◌, ◌*◌, ◌^◌, ◌<◌, ◌≤◌, length};
ghost use Rattle.rules.specs.Messages.{is_letter, capital, letter_run, letters_in, word, word_at, word_letters, as_letters};
ghost use Rattle.kpa.specs.Words.{word_bytes, lead_of};

use rules::{Letters, WORD_LETTERS};
use texts::text;

// Whether b is a letter, in either case: what std tests, promised in the rule's word (docs/STATEMENTS.md).
#[tactic(auto, unfolding(rules::specs::Messages::is_letter))]
pub fn is_letter(b: u8) -> bool
    ensures { result ≡ is_letter b }
{
    b.is_ascii_alphabetic()
}

// The number of some letters and one more, as its capital.
#[tactic(auto, unfolding(rules::specs::Messages::capital))]
fn with_letter(word: u32, b: u8) -> u32
    requires { word < 2 ^ 24 }
    ensures { result ≡ word * 256 + capital b }
{
    word * 256 + u32::from(b.to_ascii_uppercase())
}

// The letters that a body begins with, as a number, which tells how many they are; None where there are more than it holds.
// Nothing is looked at behind the first of them that has no place.
pub(crate) fn lead_of(body: &[u8]) -> Option<u32>
    ensures { result ≡ lead_of body.now }
{
    let mut word = 0;
    for (count, b) in body.iter().enumerate() {
        if !is_letter(*b) {
            return Some(word);
        }
        if count == WORD_LETTERS {
            return None;
        }
        word = with_letter(word, *b);
    }
    Some(word)
}

// How many letters the bytes begin with.
fn letter_run(s: &[u8]) -> usize
    ensures { result ≡ length (letter_run s.now) }
{
    s.iter().position(|b| !is_letter(*b)).unwrap_or(s.len())
}

// Up to four letters as one number.
#[tactic(auto, unfolding(rules::specs::Messages::word_from))]
fn word_of(letters: &[u8]) -> u32
    requires { length letters.now ≤ 4 }
    ensures { result ≡ word (map capital letters.now) }
{
    let mut word = 0;
    for b in letters {
        word = with_letter(word, *b);
    }
    word
}

// The k-th four of letters as one number.
fn word_at(letters: &[u8], k: usize) -> u32
    requires { k ≤ 9 }
    ensures { result ≡ word_at (map capital letters.now) k }
{
    word_of(text(letters, 4 * k, 4))
}

// Letters as ten numbers, four in each.
#[tactic(auto, unfolding(rules::specs::Messages::as_letters))]
fn letters_of(letters: &[u8]) -> Letters
    ensures { result ≡ as_letters (map capital letters.now) }
{
    Letters {
        first: word_at(letters, 0),
        second: word_at(letters, 1),
        third: word_at(letters, 2),
        fourth: word_at(letters, 3),
        fifth: word_at(letters, 4),
        sixth: word_at(letters, 5),
        seventh: word_at(letters, 6),
        eighth: word_at(letters, 7),
        ninth: word_at(letters, 8),
        tenth: word_at(letters, 9),
    }
}

// All letters that a body begins with, as ten numbers.
#[tactic(auto, using(crate::proofs::Words::run, crate::proofs::Words::run_size))]
pub(crate) fn all_letters(body: &[u8]) -> Letters
    ensures { result ≡ as_letters (letters_in body.now) }
{
    letters_of(&body[..letter_run(body)])
}

// The four bytes of a number that holds letters: these are the last ones, with zeros in front. It is what std gives, promised in
// the words of the letters' laws (docs/STATEMENTS.md).
pub fn word_bytes(word: u32) -> [u8; 4]
    ensures { result ≡ word_bytes word }
{
    word.to_be_bytes()
}

// How many letters a number holds.
#[tactic(auto, unfolding(rules::specs::Messages::word_letters, rules::specs::Messages::without_zeros))]
pub fn word_length(word: u32) -> usize
    ensures { result ≡ length (word_letters word) }
{
    match word {
        0 => 0,
        1..=0xFF => 1,
        0x100..=0xFFFF => 2,
        0x1_0000..=0xFF_FFFF => 3,
        _ => 4,
    }
}
