// The leaves that the readers of all families stand on: the number of a family, a part of the bytes, letters,
// bounds, and the sum of a packet. None asks anything of its caller.
ghost use Rattle.std.specs.Prelude.{◌≡◌, ◌%◌, ◌^◌, max};
ghost use Rattle.rules.specs.Bytes.{one_of, same, part, PartOf, text_byte, total};
ghost use Rattle.rules.specs.Answers.{is_family};
ghost use Rattle.texts.specs.Parts.{place_in, in_bounds};

// The n bytes from place a on, or what there is of them, as a part of the lent bytes. Where no byte
// stands at a it is their empty front.
pub fn text(s: &[u8], a: usize, n: usize) -> &[u8]
    ensures { PartOf s.entry (place_in a s.now) (part a n s.now) result }
{
    if s.len() <= a {
        return &s[..0];
    }
    if s.len() - a < n {
        return &s[a..];
    }
    &s[a..a + n]
}

// Whether b is one of the letters.
pub fn one_of(letters: &[u8], b: u8) -> bool
    ensures { result ≡ one_of letters.now b }
{
    letters.iter().any(|letter| *letter == b)
}

// The further of two places.
pub fn further(a: usize, b: usize) -> usize
    ensures { result ≡ max a b }
{
    a.max(b)
}

// Whether two texts are the same bytes.
pub fn same_bytes(s: &[u8], t: &[u8]) -> bool
    ensures { result ≡ same s.now t.now }
{
    s == t
}

// Whether b is from 20 to 7E, and neither of two bytes.
pub fn text_byte(a: u8, z: u8, b: u8) -> bool
    ensures { result ≡ text_byte a z b }
{
    (0x20 <= b) & (b <= 0x7E) & (b != a) & (b != z)
}

// Whether each byte is from the least to the most for its place.
pub fn within(least: &[u8], most: &[u8], s: &[u8]) -> bool
    ensures { result ≡ in_bounds least.now most.now s.now }
{
    if least.len() < s.len() || most.len() < s.len() {
        return false;
    }
    let mut good = true;
    for (i, b) in s.iter().enumerate() {
        good = good & (least[i] <= *b) & (*b <= most[i]);
    }
    good
}

// A byte as a wider number.
pub fn wide(b: u8) -> u32
    ensures { result ≡ b }
{
    u32::from(b)
}

// The sum of the bytes, modulo 2^32.
pub fn sum(s: &[u8]) -> u32
    ensures { result ≡ total s.now % 2 ^ 32 }
{
    let mut sum: u32 = 0;
    for b in s {
        sum = sum.wrapping_add(u32::from(*b));
    }
    sum
}
