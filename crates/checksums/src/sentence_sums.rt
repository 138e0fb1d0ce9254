// The checksum of an Alpha sentence, in the same pass as the test of its payload's bytes.
ghost use Rattle.std.specs.Prelude.{◌≡◌};
ghost use Rattle.rules.specs.Sentences.{is_payload_byte};
ghost use Rattle.checksums.specs.Sums.{sums_in};

use texts::text_byte;

#[derive(Clone, Copy)]
pub struct Sums {
    // each byte may stand in a payload; the sums are given either way, so this is no Option of them
    pub allowed: bool,
    pub sum1: u8,
    pub sum2: u8,
}

// The two sums of the bytes, and whether each byte may stand in a payload. Both sums wrap. A byte is in sum2 once for each byte
// from it to the end, which is its weight.
pub fn fletcher(p: &[u8]) -> Sums
    ensures { result ≡ sums_in p.now }
{
    let mut allowed = true;
    let mut sum1: u8 = 0;
    let mut sum2: u8 = 0;
    let mut weight = (p.len() % 256) as u8;
    for b in p {
        allowed = allowed & payload_byte(*b);
        sum1 = sum1.wrapping_add(*b);
        sum2 = sum2.wrapping_add(weight.wrapping_mul(*b));
        weight = weight.wrapping_sub(1);
    }
    Sums {
        allowed,
        sum1,
        sum2,
    }
}

// Whether b may stand in a payload.
#[tactic(auto, unfolding(rules::specs::Sentences::is_payload_byte))]
pub fn payload_byte(b: u8) -> bool
    ensures { result ≡ is_payload_byte b }
{
    text_byte(b'$', b'*', b)
}
