// Writers of the Alpha's sentences, and of the bytes that enable it. Each writes into the lent
// output's front, or refuses and leaves it as it was.
#![tactic(auto)]

ghost use Rattle.std.specs.Prelude.{◌≡◌, ℕ, Bool, List, true, ◌++◌, ◌+◌, ◌*◌, ◌≤◌, ◌<◌, nat_abs, length, take};
ghost use Rattle.rules.specs.Answers.{Writes};
ghost use Rattle.rules.specs.Bytes.{ascii, part};
ghost use Rattle.rules.specs.Sentences.{commas, sign, in_range02, in_range03, in_range05, texts02, texts03, texts05, bytes02, bytes03, bytes05, sentence_frame, enable_bytes};
ghost use Rattle.pens.specs.Pens.{laid};
ghost use Rattle.alpha_writer.specs.Parts.{seal, front, temperature_field, hex_field, decimal_fields, FieldsFit};
ghost use Rattle.alpha_writer.specs.Lengths.{length02, length03, length05};
ghost use Rattle.alpha_writer.specs.declared.TheConstants.{PAYLOAD02, PAYLOAD03, PAYLOAD05};
ghost use Rattle.std.proofs.Common.{lit≤};

use records::{WIDTHS02, WIDTHS03};
use rules::{Refusal, Sentence02, Sentence03, Sentence05, Written};

// What a sentence has around its payload: `$`, `*` and four digits.
const AROUND: usize = 6;

// How many bytes the payloads of sentences 02, 03 and 05 have.
const PAYLOAD02: usize = 57;

const PAYLOAD03: usize = 43;

const PAYLOAD05: usize = 26;

// What enables the Alpha.
const ENABLE: &[u8] = b"+++";

// A record whose sentence has a payload of one length, whatever the record holds.
trait Sentence: Copy {
    ghost PAYLOAD: { ℕ };

    ghost in_range: { Self → Bool };

    ghost payload: { Self → List ℕ };

    const PAYLOAD: usize;

    // Whether a sentence can hold these values.
    fn is_in_range(self) -> bool
        ensures { result ≡ in_range self };

    // The dollar sign and the payload.
    fn lay_front(self, out: &mut [u8])
        requires allowed { in_range self ≡ true }
        requires room { PAYLOAD + 6 ≤ length out.old }
        ensures { out.new ≡ laid 0 (front (payload self)) out.old };

    ghost payload_length: { (r : Self) → length (payload r) ≡ PAYLOAD };

    ghost is_short: { PAYLOAD ≤ 128 };
}

// A sentence: its payload behind the dollar sign, and the seal.
fn write<S: Sentence>(r: S, out: &mut [u8]) -> Written
    ensures { Writes (S.in_range r) Refusal.NoRecord (sentence_frame (S.payload r)) out.old result out.new }
{
    if !r.is_in_range() {
        return Err(Refusal::NoRecord);
    }
    let length = S::PAYLOAD + AROUND;
    if out.len() < length {
        return Err(Refusal::NoRoom);
    }
    r.lay_front(out);
    put_seal(out, S::PAYLOAD);
    Ok(length)
}

impl Sentence for Sentence02 {
    ghost PAYLOAD = { PAYLOAD02 };

    ghost in_range = { in_range02 };

    ghost payload = { λ r. ascii "APA02" ++ commas (texts02 r) };

    const PAYLOAD: usize = PAYLOAD02;

    fn is_in_range(self) -> bool {
        records::in_range02(self)
    }

    // Thirteen decimal fields.
    fn lay_front(self, out: &mut [u8]) {
        pens::put_bytes(out, 0, b"$APA02");
        put_decimals(out, 6, &WIDTHS02, &records::of_02(self));
    }

    ghost payload_length = { length02 };

    ghost is_short = { lit≤ tt };
}

impl Sentence for Sentence03 {
    ghost PAYLOAD = { PAYLOAD03 };

    ghost in_range = { in_range03 };

    ghost payload = { λ r. ascii "APA03" ++ commas (texts03 r) };

    const PAYLOAD: usize = PAYLOAD03;

    fn is_in_range(self) -> bool {
        records::in_range03(self)
    }

    // Eight decimal fields and the temperature.
    fn lay_front(self, out: &mut [u8]) {
        pens::put_bytes(out, 0, b"$APA03");
        put_decimals(out, 6, &WIDTHS03, &records::of_03(self));
        put_temperature(out, 37, self.temp);
    }

    ghost payload_length = { length03 };

    ghost is_short = { lit≤ tt };
}

impl Sentence for Sentence05 {
    ghost PAYLOAD = { PAYLOAD05 };

    ghost in_range = { in_range05 };

    ghost payload = { λ r. ascii "APA05" ++ commas (texts05 r) };

    const PAYLOAD: usize = PAYLOAD05;

    fn is_in_range(self) -> bool {
        records::in_range05(self)
    }

    // Seven hexadecimal fields.
    fn lay_front(self, out: &mut [u8]) {
        pens::put_bytes(out, 0, b"$APA05");
        lay_nibbles(self, out);
        put_hex_field(out, 18, self.wtime);
        put_hex_field(out, 21, self.tcmd);
        put_hex_field(out, 24, self.lcmd);
    }

    ghost payload_length = { length05 };

    ghost is_short = { lit≤ tt };
}

// Sentence 02: 63 bytes.
pub fn write_02(r: Sentence02, out: &mut [u8]) -> Written
    ensures { Writes (in_range02 r) Refusal.NoRecord (bytes02 r) out.old result out.new }
{
    write(r, out)
}

// Sentence 03: 49 bytes.
pub fn write_03(r: Sentence03, out: &mut [u8]) -> Written
    ensures { Writes (in_range03 r) Refusal.NoRecord (bytes03 r) out.old result out.new }
{
    write(r, out)
}

// Sentence 05: 32 bytes.
pub fn write_05(r: Sentence05, out: &mut [u8]) -> Written
    ensures { Writes (in_range05 r) Refusal.NoRecord (bytes05 r) out.old result out.new }
{
    write(r, out)
}

// The three plus signs that enable the Alpha.
pub fn write_enable(out: &mut [u8]) -> Written
    ensures { Writes true Refusal.NoRoom enable_bytes out.old result out.new }
{
    if out.len() < ENABLE.len() {
        return Err(Refusal::NoRoom);
    }
    pens::put_bytes(out, 0, ENABLE);
    Ok(ENABLE.len())
}

// A comma and a number for each width.
fn put_decimals(out: &mut [u8], at: usize, widths: &[usize], numbers: &[u32])
    requires { FieldsFit widths.now numbers.now out.old at }
    ensures { out.new ≡ laid at (decimal_fields widths.now numbers.now) out.old }
{
    let mut place = at;
    for (width, number) in widths.iter().zip(numbers) {
        pens::put_field(out, place, *width, *number, b'0');
        place += *width + 1;
    }
}

// The star and the digits of the sums of the n bytes of payload.
fn put_seal(out: &mut [u8], n: usize)
    requires { n + 6 ≤ length out.old }
    ensures { out.new ≡ laid (n + 1) (seal (part 1 n out.old)) out.old }
{
    let end = n + 1;
    let sums = checksums::fletcher(&out[1..end]);
    pens::put_byte(out, end, b'*');
    pens::put_hex(out, end + 1, sums.sum2);
    pens::put_hex(out, end + 3, sums.sum1);
}

// A plus for zero too.
fn sign_of(z: i32) -> u8
    ensures { result ≡ sign z }
{
    if z < 0 { b'-' } else { b'+' }
}

// A comma and a temperature: its sign, three digits, a point and one digit.
fn put_temperature(out: &mut [u8], at: usize, z: i32)
    requires { (nat_abs z ≤ 9999) × (at + 7 ≤ length out.old) }
    ensures { out.new ≡ laid at (temperature_field z) out.old }
{
    let tenths = z.unsigned_abs();
    pens::put_bytes(out, at, &[b',', sign_of(z)]);
    pens::put_number(out, at + 2, 3, tenths / 10, b'0');
    pens::put_byte(out, at + 5, b'.');
    pens::put_number(out, at + 6, 1, tenths % 10, b'0');
}

// Two nibbles in one byte.
fn join(upper: u8, lower: u8) -> u8
    requires { (upper ≤ 15) × (lower ≤ 15) }
    ensures { result ≡ upper * 16 + lower }
{
    (upper << 4) | lower
}

// A comma and a byte as two hexadecimal digits.
fn put_hex_field(out: &mut [u8], at: usize, n: u8)
    requires { at + 3 ≤ length out.old }
    ensures { out.new ≡ laid at (hex_field n) out.old }
{
    pens::put_byte(out, at, b',');
    pens::put_hex(out, at + 1, n);
}

// The first four fields of sentence 05, each of two nibbles.
#[tactic(auto, using(crate::proofs::Ranges::nibbles05))]
fn lay_nibbles(r: Sentence05, out: &mut [u8])
    requires { (in_range05 r ≡ true) × (32 ≤ length out.old) }
    ensures { out.new ≡ laid 6 (commas (take 4 (texts05 r))) out.old }
{
    put_hex_field(out, 6, join(r.band, r.segment));
    put_hex_field(out, 9, join(r.memory, r.antenna));
    put_hex_field(out, 12, join(r.meter, r.control));
    put_hex_field(out, 15, join(r.options, r.state));
}
