// Payloads at full width, each field with as many bytes as the writer gives it: one pass over bounds
// tells that they are good. Each sentence has bounds and tests of its own, and what the three share is
// `within`, so one function of all three would be no plainer. The temperature `-000.0` is at full width too, though the writer never
// writes it. Of any other payload nothing is said here.
ghost use Rattle.std.specs.Prelude.{◌≡◌, true, length};
ghost use Rattle.rules.specs.Bytes.{every};
ghost use Rattle.alpha.specs.Payloads.{is_good_payload, outside_gap};

use texts::within;

// True only of a good payload: of one at full width.
pub(crate) fn is_full(p: &[u8]) -> bool
    ensures { result ≡ true → is_good_payload p.now ≡ true }
{
    match p.len() {
        57 => is_full02(p),
        43 => is_full03(p),
        26 => is_full05(p),
        _ => false,
    }
}

// Sentence 02: digits between its commas, a grid voltage of at most 255, a band from 1, and key 0
// or 1. The voltage is weighed as its three bytes: 255 and 111 times the byte of the digit 0.
fn is_full02(p: &[u8]) -> bool
    requires { length p.now ≡ 57 }
    ensures { result ≡ true → is_good_payload p.now ≡ true }
{
    let grid = u32::from(p[35]) * 100 + u32::from(p[36]) * 10 + u32::from(p[37]);
    within(
        b"APA02,00000,000,0000,0000,0000,000,000,000,0,0,00,0,00000",
        b"APA02,99999,999,9999,9999,9999,999,999,999,9,9,99,9,99999",
        p,
    ) & (grid <= 5583)
        & (p[43] != b'0')
        & (p[50] <= b'1')
}

// Sentence 03: digits between its commas, a mains tap from 1 to 5, and a temperature with three
// digits before its point. A comma stands between the two signs.
fn is_full03(p: &[u8]) -> bool
    requires { length p.now ≡ 43 }
    ensures { result ≡ true → is_good_payload p.now ≡ true }
{
    within(
        b"APA03,000,000,000,000,000,0000,000,0,+000.0",
        b"APA03,999,999,999,999,999,9999,999,9,-999.9",
        p,
    ) & (p[35] != b'0')
        & (p[35] <= b'5')
        & (p[37] != b',')
}

// Sentence 05: two hexadecimal digits between its commas.
fn is_full05(p: &[u8]) -> bool
    requires { length p.now ≡ 26 }
    ensures { result ≡ true → is_good_payload p.now ≡ true }
{
    within(
        b"APA05,00,00,00,00,00,00,00",
        b"APA05,FF,FF,FF,FF,FF,FF,FF",
        p,
    ) & no_gap(p)
}

// Whether no byte stands between the digits and the letters.
fn no_gap(p: &[u8]) -> bool
    ensures { result ≡ every outside_gap p.now }
{
    let mut good = true;
    for b in p {
        good = good & ((*b <= b'9') | (b'A' <= *b));
    }
    good
}
