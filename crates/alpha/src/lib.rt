// Reads one sentence of the Alpha 9500, as a whole.
#![tactic(auto)]

mod fields;
mod full;
mod numbered;

ghost use Rattle.std.specs.Prelude.{◌≡◌, true, false, ◌≤◌, length, MatchOption};
ghost use Rattle.rules.specs.Bytes.{part, every};
ghost use Rattle.rules.specs.Numbers.{is_digit};
ghost use Rattle.rules.specs.Sentences.{is_named, is_sentence, payload_of, number_of, texts_of};
ghost use Rattle.rules.specs.Answers.{sentences, Reads, is_good, read_texts, read_family2};
ghost use Rattle.alpha.specs.Payloads.{is_checked};

use rules::{Frame, LONGEST_SENTENCE, Reading, Refusal, SHORTEST_SENTENCE};

// The record of a good sentence, its number where it has none, or the refusal 8.
pub fn read_sentence(s: &[u8]) -> Reading
    ensures { Reads sentences s.now result }
{
    let Some(payload) = payload_in(s) else {
        return Err(Refusal::NotGood);
    };
    read_payload(payload)
}

// Whether the bytes are, as a whole, a good sentence. One at full width is told by its bounds; of any
// other the fields are read.
pub fn is_sentence(s: &[u8]) -> bool
    ensures { result ≡ is_good (read_family2 s.now) }
{
    let Some(payload) = payload_in(s) else {
        return false;
    };
    full::is_full(payload) || read_payload(payload).is_ok()
}

// The payload of a sentence, whatever stands in its fields. The tests that cost least come first.
fn payload_in(s: &[u8]) -> Option<&[u8]>
    ensures { MatchOption result (is_sentence s.now ≡ false) (λ p. (is_sentence s.now ≡ true) × (p.now ≡ payload_of s.now)) }
{
    let n = s.len();
    if n < SHORTEST_SENTENCE || LONGEST_SENTENCE < n {
        return None;
    }
    if s[0] != b'$' || s[n - 5] != b'*' {
        return None;
    }
    let p = &s[1..n - 5];
    if !is_named(p) || !is_checked(p, &s[n - 4..]) {
        return None;
    }
    Some(p)
}

// Whether a payload begins as it should: `APA`, two digits, and then nothing or a comma.
fn is_named(p: &[u8]) -> bool
    requires { 5 ≤ length p.now }
    ensures { result ≡ is_named p.now }
{
    p.starts_with(b"APA") & texts::digits(&p[3..5]).is_some() & p.get(5).is_none_or(|b| *b == b',')
}

// Whether each byte may stand in a payload, and the four digits give its sums, the second sum first.
fn is_checked(p: &[u8], check: &[u8]) -> bool
    requires { length check.now ≡ 4 }
    ensures { result ≡ is_checked check.now p.now }
{
    let sums = checksums::fletcher(p);
    let (first, second) = checksums::hex_pairs(check[0], check[1], check[2], check[3]);
    sums.allowed & (first == Some(sums.sum2)) & (second == Some(sums.sum1))
}

// The record of a payload, by its number, whose two digits have been tested: so none cannot come.
fn read_payload(p: &[u8]) -> Reading
    requires { (5 ≤ length p.now) × (every is_digit (part 3 2 p.now) ≡ true) }
    ensures { result ≡ read_texts (number_of p.now) (texts_of p.now) }
{
    let r = &p[5..];
    match texts::digits(&p[3..5]) {
        Some(2) => numbered::read02(r),
        Some(3) => numbered::read03(r),
        Some(5) => numbered::read05(r),
        Some(n) => Ok(Frame::Other(n as u8)),
        None => Err(Refusal::NotGood),
    }
}
