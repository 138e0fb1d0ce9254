// The writer of a status report: into the lent output's front, or it refuses and leaves that as it was.
ghost use Rattle.std.specs.Prelude.{◌≡◌, true, ◌+◌, ◌≤◌, ◌<◌, length, take, drop};
ghost use Rattle.pens.specs.Pens.{laid};
ghost use Rattle.rules.specs.Answers.{Writes};
ghost use Rattle.rules.specs.Bytes.{part};
ghost use Rattle.rules.specs.Status.{data_length, report_length, behind_checksum, line_end, status_in_range, status_texts, status_bytes, joined};
ghost use Rattle.rules.specs.Sentences.{commas};
ghost use Rattle.spe_writer.specs.Fields.{letter, point_in, check};

use crate::ranges::status_in_range;
use rules::{BEHIND_CHECKSUM, REPORT_LENGTH, Refusal, Status, Written};

// A comma and a letter.
fn put_letter(out: &mut [u8], at: usize, b: u8)
    ensures { out.new ≡ laid at (letter b) out.old }
{
    pens::put_bytes(out, at, &[b',', b]);
}

// How many digits a number has behind its point, and what parts them from the others.
#[derive(Clone, Copy)]
struct Point {
    digits: usize,
    scale: u32,
}

const HUNDREDTHS: Point = Point {
    digits: 2,
    scale: 100,
};

const TENTHS: Point = Point {
    digits: 1,
    scale: 10,
};

// A comma, and n with a point.
fn put_point(out: &mut [u8], at: usize, point: Point, n: u32)
    requires { (0 < point.scale) × (at + 4 + point.digits ≤ length out.old) }
    ensures { out.new ≡ laid at (point_in point.digits point.scale n) out.old }
{
    pens::put_field(out, at, 2, n / point.scale, b' ');
    pens::put_byte(out, at + 3, b'.');
    pens::put_number(out, at + 4, point.digits, n % point.scale, b'0');
}

// Fields 1 to 5.
fn lay_settings(s: Status, out: &mut [u8])
    requires { (status_in_range s ≡ true) × (report_length ≤ length out.old) }
    ensures { out.new ≡ laid 4 (commas (take 5 (status_texts s))) out.old }
{
    pens::put_field(out, 4, 2, u32::from(s.id), b'0');
    pens::put_byte(out, 7, b'K');
    put_letter(out, 8, s.state);
    put_letter(out, 10, s.direction);
    put_letter(out, 12, s.bank);
    pens::put_field(out, 14, 1, u32::from(s.input), b'0');
}

// Fields 6 to 9.
fn lay_antennas(s: Status, out: &mut [u8])
    requires { (status_in_range s ≡ true) × (report_length ≤ length out.old) }
    ensures { out.new ≡ laid 16 (commas (take 4 (drop 5 (status_texts s)))) out.old }
{
    pens::put_field(out, 16, 2, u32::from(s.band), b'0');
    pens::put_field(out, 19, 1, u32::from(s.transmit), b'0');
    pens::put_byte(out, 21, s.tuner);
    pens::put_field(out, 22, 1, u32::from(s.receive), b'0');
    pens::put_byte(out, 24, b'r');
    put_letter(out, 25, s.level);
}

// Fields 10 to 14.
fn lay_readings(s: Status, out: &mut [u8])
    requires { (status_in_range s ≡ true) × (report_length ≤ length out.old) }
    ensures { out.new ≡ laid 27 (commas (take 5 (drop 9 (status_texts s)))) out.old }
{
    pens::put_field(out, 27, 4, s.watts, b'0');
    put_point(out, 32, HUNDREDTHS, s.swratu);
    put_point(out, 38, HUNDREDTHS, s.swrant);
    put_point(out, 44, TENTHS, s.volts);
    put_point(out, 49, TENTHS, s.amperes);
}

// Fields 15 to 19, and the last comma.
fn lay_state(s: Status, out: &mut [u8])
    requires { (status_in_range s ≡ true) × (report_length ≤ length out.old) }
    ensures { out.new ≡ laid 54 (joined (drop 14 (status_texts s))) out.old }
{
    pens::put_field(out, 54, 3, s.upper, b' ');
    pens::put_field(out, 58, 3, s.lower, b' ');
    pens::put_field(out, 62, 3, s.combiner, b' ');
    put_letter(out, 66, s.warning);
    put_letter(out, 68, s.alarm);
    pens::put_byte(out, 70, b',');
}

// The sum of the 67 data bytes, in two bytes.
fn lay_check(out: &mut [u8])
    requires { report_length ≤ length out.old }
    ensures { out.new ≡ laid 71 (check (part 4 data_length out.old)) out.old }
{
    let sum = texts::sum(&out[4..71]);
    let [low, high, ..] = sum.to_le_bytes();
    pens::put_bytes(out, 71, &[low, high]);
}

// The line end, with the comma before it or without.
fn lay_end(comma: u8, out: &mut [u8])
    ensures { out.new ≡ laid behind_checksum (line_end comma) out.old }
{
    let end: &[u8] = if comma == 1 { b",\r\n" } else { b"\r\n" };
    pens::put_bytes(out, BEHIND_CHECKSUM, end);
}

// The head, the data and what stands behind it.
fn lay_status(s: Status, out: &mut [u8])
    requires { (status_in_range s ≡ true) × (report_length + s.comma ≤ length out.old) }
    ensures { out.new ≡ laid 0 (status_bytes s) out.old }
{
    pens::put_bytes(out, 0, b"\xAA\xAA\xAA\x43");
    lay_settings(s, out);
    lay_antennas(s, out);
    lay_readings(s, out);
    lay_state(s, out);
    lay_check(out);
    lay_end(s.comma, out);
}

// A status report: 75 bytes, and one more with the comma.
pub fn write_status(s: Status, out: &mut [u8]) -> Written
    ensures { Writes (status_in_range s) Refusal.NoRecord (status_bytes s) out.old result out.new }
{
    if !status_in_range(s) {
        return Err(Refusal::NoRecord);
    }
    let length = REPORT_LENGTH + usize::from(s.comma);
    if out.len() < length {
        return Err(Refusal::NoRoom);
    }
    lay_status(s, out);
    Ok(length)
}
