// The number of a row of digits in a field. It asks nothing of its caller.
ghost use Rattle.std.specs.Prelude.{◌≡◌};
ghost use Rattle.texts.specs.Numbers.{digits_in};

// The number of a row of 1 to 9 digits, so that it fits.
pub fn digits(t: &[u8]) -> Option<u32>
    ensures { result ≡ digits_in t.now }
{
    if t.is_empty() || 9 < t.len() {
        return None;
    }
    let mut count: u32 = 0;
    for b in t {
        if !b.is_ascii_digit() {
            return None;
        }
        count = count * 10 + u32::from(*b - b'0');
    }
    Some(count)
}
