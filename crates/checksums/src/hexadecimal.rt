// Uppercase hexadecimal digits, looked up in a table.
ghost use Rattle.std.specs.Prelude.{◌≡◌};
ghost use Rattle.checksums.specs.Hex.{digit_of, pair_in, pairs_in};

// The number of each byte as a hexadecimal digit, and 16 for a byte that is none.
const DIGITS: [u8; 256] = [
    16, 16, 16, 16, 16, 16, 16, 16, 16, 16, 16, 16, 16, 16, 16, 16, 16, 16, 16, 16, 16, 16, 16, 16,
    16, 16, 16, 16, 16, 16, 16, 16, 16, 16, 16, 16, 16, 16, 16, 16, 16, 16, 16, 16, 16, 16, 16, 16,
    0, 1, 2, 3, 4, 5, 6, 7, 8, 9, 16, 16, 16, 16, 16, 16, 16, 10, 11, 12, 13, 14, 15, 16, 16, 16,
    16, 16, 16, 16, 16, 16, 16, 16, 16, 16, 16, 16, 16, 16, 16, 16, 16, 16, 16, 16, 16, 16, 16, 16,
    16, 16, 16, 16, 16, 16, 16, 16, 16, 16, 16, 16, 16, 16, 16, 16, 16, 16, 16, 16, 16, 16, 16, 16,
    16, 16, 16, 16, 16, 16, 16, 16, 16, 16, 16, 16, 16, 16, 16, 16, 16, 16, 16, 16, 16, 16, 16, 16,
    16, 16, 16, 16, 16, 16, 16, 16, 16, 16, 16, 16, 16, 16, 16, 16, 16, 16, 16, 16, 16, 16, 16, 16,
    16, 16, 16, 16, 16, 16, 16, 16, 16, 16, 16, 16, 16, 16, 16, 16, 16, 16, 16, 16, 16, 16, 16, 16,
    16, 16, 16, 16, 16, 16, 16, 16, 16, 16, 16, 16, 16, 16, 16, 16, 16, 16, 16, 16, 16, 16, 16, 16,
    16, 16, 16, 16, 16, 16, 16, 16, 16, 16, 16, 16, 16, 16, 16, 16, 16, 16, 16, 16, 16, 16, 16, 16,
    16, 16, 16, 16, 16, 16, 16, 16, 16, 16, 16, 16, 16, 16,
];

// The byte that two digits give, the upper nibble first.
pub fn hex_pair(upper: u8, lower: u8) -> Option<u8>
    ensures { result ≡ pair_in upper lower }
{
    let a = hex_digit(upper)?;
    let b = hex_digit(lower)?;
    Some(a * 16 + b)
}

// The two bytes that four digits give.
pub fn hex_pairs(a: u8, b: u8, c: u8, d: u8) -> (Option<u8>, Option<u8>)
    ensures { result ≡ pairs_in a b c d }
{
    (hex_pair(a, b), hex_pair(c, d))
}

// The number of a hexadecimal digit.
fn hex_digit(b: u8) -> Option<u8>
    ensures { result ≡ digit_of b }
{
    let number = DIGITS[usize::from(b)];
    if number == 16 { None } else { Some(number) }
}
