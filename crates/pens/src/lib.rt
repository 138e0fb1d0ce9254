// Pens: each lays bytes into a lent output at a place, where they fit, and else leaves it as it was.
#![tactic(auto)]

ghost use Rattle.std.specs.Prelude.{◌≡◌, [], ◌∷◌, ◌<◌, ◌+◌, ◌%◌};
ghost use Rattle.rules.specs.Numbers.{hex_digit, hex_digits};
ghost use Rattle.pens.specs.Pens.{laid, digit_or, number_in, field_in};

// The bytes as they are. They are laid one by one: a copy of no constant length has no place in the archive for other
// processors (docs/TARGETS.md).
#[tactic(auto, using(crate::proofs::Laid::laid_not, crate::proofs::Laid::laid_none, crate::proofs::Laid::laid_more))]
pub fn put_bytes(out: &mut [u8], at: usize, what: &[u8])
    ensures { out.new ≡ laid at what.now out.old }
{
    if out.len().saturating_sub(at) < what.len() {
        return;
    }
    for (i, byte) in what.iter().enumerate() {
        out[at + i] = *byte;
    }
}

// One byte.
#[tactic(auto, using(crate::proofs::Laid::set_laid, crate::proofs::Laid::laid_not))]
pub fn put_byte(out: &mut [u8], at: usize, b: u8)
    ensures { out.new ≡ laid at (b ∷ []) out.old }
{
    if at < out.len() {
        out[at] = b;
    }
}

// The number n in w bytes, from its last digit to its first, with pad in front of it.
#[tactic(auto, using(crate::proofs::Laid::laid_not, crate::proofs::Laid::laid_none, crate::proofs::Digits::length_number, crate::proofs::Digits::ones_laid, crate::proofs::Digits::digit_laid), unfolding(crate::specs::Pens::digits_or, crate::specs::Pens::number_in))]
pub fn put_number(out: &mut [u8], at: usize, w: usize, n: u32, pad: u8)
    ensures { out.new ≡ laid at (number_in pad w n) out.old }
{
    if w == 0 {
        return;
    }
    if out.len().saturating_sub(at) < w {
        return;
    }
    let last = w - 1;
    out[at + last] = last_digit(n);
    let mut left = n / 10;
    for i in (0..last).rev() {
        out[at + i] = digit_or(left, pad);
        left /= 10;
    }
}

// The last digit of n. It is below 10, so `as` is proved to lose nothing.
fn last_digit(n: u32) -> u8
    ensures { result ≡ 48 + n % 10 }
{
    b'0' + (n % 10) as u8
}

// The last digit of n, and pad where nothing is left of n.
#[tactic(auto, unfolding(crate::specs::Pens::digit_or))]
fn digit_or(n: u32, pad: u8) -> u8
    ensures { result ≡ digit_or pad n }
{
    if n == 0 { pad } else { last_digit(n) }
}

// A comma, and behind it the number n in w bytes.
#[tactic(auto, using(crate::proofs::Digits::length_number, crate::proofs::Laid::laid_not))]
pub fn put_field(out: &mut [u8], at: usize, w: usize, n: u32, pad: u8)
    ensures { out.new ≡ laid at (field_in pad w n) out.old }
{
    if out.len().saturating_sub(at) <= w {
        return;
    }
    put_byte(out, at, b',');
    put_number(out, at + 1, w, n, pad);
}

// A byte as two hexadecimal digits.
pub fn put_hex(out: &mut [u8], at: usize, n: u8)
    ensures { out.new ≡ laid at (hex_digits n) out.old }
{
    let digits = [hex_digit(n / 16), hex_digit(n % 16)];
    put_bytes(out, at, &digits);
}

#[tactic(auto, unfolding(rules::specs::Numbers::hex_digit))]
fn hex_digit(n: u8) -> u8
    requires { n < 16 }
    ensures { result ≡ hex_digit n }
{
    if n < 10 { b'0' + n } else { b'A' + (n - 10) }
}
